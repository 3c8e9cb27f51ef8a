//! The files of runs and of changelogs, read. Which rows a file has is a definition of `pm_run`.
//!
//! Rows of a file whose type is the one that is written here are read straight from its bytes (`pm_run_bytes`), which
//! the reader has once. Other files, and blocks where anything is off, are read by their data (`pm_run_records`), which
//! finds what is refused: reading holds one decoded block then. All calls take time linear in the bytes but for the
//! test that names of fields differ, which takes the square of how many there are, once for a file.
//!
//! All rows of such a file may be judged first, none of which is kept (`RunReader::judged`). What is known then of a
//! `JudgedFile` stands in `specs/Judged.antt`: it has these rows and no others, and is seen as them. They are given one
//! after another where they lie in its bytes (`FileRows` of `pm_run_bytes`).
//!
//! The names of a schema's columns differ by its rules. Where those of some other schema don't, calls answer that
//! memory ran out.
#![tactic(auto)]

mod judged;
mod reader;

pub use judged::JudgedFile;
pub use reader::RunReader;
