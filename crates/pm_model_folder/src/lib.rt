//! What a table's folder stands for, and what commands change of it: definitions and laws alone.
//!
//! `specs/Folder.antt` says sentence by sentence when files stand for a history of `pm_model_history`: the schema, the
//! snapshots without a gap, floors and consumers. `specs/Commits.antt` says what each snapshot that is there is: it
//! bears its entry and the counts of its files (`specs/Entries.antt`), its live files stand for the rows up to it group
//! by group, and its changelog files hold its change (`specs/Stored.antt`); what it names and the one before it didn't
//! is new. `specs/Meaning.antt` says what the files at a table's paths mean, and `specs/Paths.antt` which these are.
//!
//! `specs/Changes.antt` has the kinds of change that commands make. `kept_law` says that each kind leads from a folder
//! that stands for a history to one that stands for the history with that change, `goes_on_law` that the history goes
//! on, `stays_law` that what a snapshot needs stays as it is, and `own_law` that no file bears the names of two actors.
//! `listed_law` says what a listing of the schemas has.
//!
//! What readers rely on while others act is in `specs/Ledger.antt`: beside the history, the files as they stood when
//! each snapshot was committed. What a snapshot needs is absent or has those bytes, also once the snapshot has gone.
//! It has the groups' runs too, from the snapshot on that was the newest when the folder was found, and how those of
//! each next one follow. `found_law` leads from a folder that is found to one with such a past, and `past_law` says
//! that each change keeps it. `beside_law` says which changes that add no entry are steps of it, `steps_law` so of each
//! change beside the history, and `still_law` where those runs stand that a compaction took at a snapshot of it.
//! `appends_law` says that from that snapshot on the count of appends which a snapshot bears never falls.
//!
//! And it has what is known of each consumer beside its file, as `pm_model_consumers` has it; `specs/Consumers.antt`
//! says what of the files that crate speaks of. `consumers_law` says that no snapshot has gone that a consumer needs
//! which counts, that the frames which a settled one was moved past are those of the history, and that each step is two
//! changes of `pm_model_consumers`, so that all laws of that crate hold of the files. `settled_law` leads from the
//! settled consumers of a folder to those of a past, and back.
#![tactic(auto)]

mod laws;

pub use laws::{
    appends_law, beside_law, consumers_law, found_law, goes_on_law, kept_law, listed_law,
    newest_law, own_law, past_law, settled_law, stays_law, steps_law, still_law, unnamed_law,
};
