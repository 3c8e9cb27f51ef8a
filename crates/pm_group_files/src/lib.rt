//! The data files of groups, read one group's after another's. A machine that is a part of others.
//!
//! A `GroupReader` reads files of a table as a snapshot of it has them, each once: by group, the newest run first, by
//! rising key. Each is judged when it is read. Of a file whose rows lie in its bytes as they are written only the bytes
//! are kept, as `pm_scan_rows` does. After these runs of a group there may be older ones whose files are kept as they
//! are: they are read and not judged, for whoever looks for some of their rows alone. Once a group is whole it can be
//! taken, its runs with the oldest first, while the files of other groups are still to be read (`take_groups`); what
//! isn't taken is there at the end (`into_collected`). It changes nothing. A file that is absent makes it read the
//! snapshot again: where that is absent too it is expired, else the folder is damaged.
//!
//! `specs/Jobs.antt` has the order of the files, `specs/Collected.antt` what one file more makes of what was collected,
//! and `specs/Reader.antt` the phases, the calls, what each answer leads to, and what is handed out.
//! `specs/Chosen.antt` is what it is asked for: groups at a snapshot, each with what is wanted of it.
//! `specs/Meaning.antt` says what it knows then in each phase, whatever others do: what it has collected, with what it
//! handed out, is what stood at the snapshot; `specs/Trace.antt` which calls it made, and which show a refusal.
#![tactic(auto)]

mod after;
mod collected;
mod job;
mod laws;
mod machine;
mod phase;
mod reader;
mod reading;

pub use collected::Collected;
pub use job::{Ends, Job, all_jobs, push_wanted};
pub use laws::{
    begins_law, causes_law, handed_law, images_law, known_law, prefix_law, view_law, whole_law,
};
pub use phase::Phase;
pub use reader::{GroupReader, are_files_read, has_group, into_collected, read_files, take_groups};
pub use reading::Reading;
