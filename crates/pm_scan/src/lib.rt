//! The command `scan` as a machine: it reads a table at a snapshot, and has the text of its scan, or of that of the
//! rows which are passed on there (`Rows`).
//!
//! A `Scanner` reads the view of a table whose schema was read, by the reader of `pm_read_table`, and then the view's
//! data files, by the reader of `pm_group_files`, which it holds in its phase. It changes nothing. It takes the runs of
//! all groups once the last file is read, and merges none before. At its end it has the text of the scan, which
//! `pm_scan_rows` prints of them.
//!
//! `specs/Scanner.antt` has the phases, the calls and what each answer leads to; `specs/Meaning.antt` what a scanner
//! knows in each phase, and what a step means for the files: in the end its text is the scan of the rows at the
//! snapshot, whatever others did meanwhile; `specs/Rows.antt` which rows these are, and which runs have them;
//! `specs/Trace.antt` which calls it made, and which show a refusal. `scan_table` and `scan_passed` make all calls of a
//! scanner of a table whose schema was read; `specs/AllCalls.antt` has what they do where nobody else acts.
#![tactic(auto)]

mod after;
mod all_calls;
mod laws;
mod machine;
mod phase;
mod rows;
mod scanner;

pub use all_calls::{scan_passed, scan_table};
pub use laws::{all_calls_law, causes_law, images_law, known_law, one_answer_law};
pub use phase::Phase;
pub use rows::Rows;
pub use scanner::{Scanner, into_text, is_scan_ready, newest_scan, passed_scan, scan_at};
