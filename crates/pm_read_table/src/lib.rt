//! The table at a snapshot, read by a machine that makes one call of the store a step.
//!
//! A `ViewReader` lists the folder `snapshot` and reads the snapshot that is asked for, its two lists, and the
//! manifests that these have, in their order; of a snapshot that is asked for whole it begins with the read, without a
//! listing. It changes nothing. Once it is ready, its `View` has the runs of each group's live files, the ids of the
//! snapshots that were listed, and where they are asked for (`newest_entries`, `whole_view`) the entries of the live
//! files in the order in which they come. Snapshot 0 is the origin, a table without files. A file that the snapshot
//! names and that is absent makes it read the snapshot again: where that is absent too it is expired, else the folder
//! is damaged.
//!
//! `specs/Reader.antt` has the phases, the calls and what each answer leads to, and `specs/View.antt` what a view says
//! of the live files; `specs/Meaning.antt` what a reader knows of the snapshots in each phase,
//! and which refusals a folder that stands can show; `specs/Trace.antt` which calls it made, and which show
//! a refusal; `specs/Named.antt` lists the paths that a snapshot names. `pm_read_log` reads the changelog of a
//! snapshot.
#![tactic(auto)]

mod after;
mod asked;
mod laws;
mod live;
mod machine;
mod phase;
mod reader;
mod reading;
mod view;
mod within;

pub use after::read_named;
pub use asked::{Asked, Sought, Wanted};
pub use laws::{
    absent_law, causes_law, entries_law, images_law, known_law, listed_law, named_law,
    one_refusal_law, sought_law,
};
pub use phase::Phase;
pub use reader::{
    ViewReader, into_view, is_view_ready, newest_entries, newest_view, view_at, whole_view,
};
pub use reading::Reading;
pub use view::View;
pub use within::{OpensView, after_view};
