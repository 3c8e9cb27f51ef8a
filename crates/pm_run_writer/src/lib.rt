//! The files of runs and of changelogs, written. Which files are written for rows is a definition of `pm_run`.
//!
//! What is written of rows that a file can have is read as the same rows. All calls take time linear in the bytes but
//! for the test that names of fields differ, which takes the square of how many there are, once for a call.
//!
//! The names of a schema's columns differ by its rules. Where those of some other schema don't, calls answer that
//! memory ran out.
//!
//! A row's bytes go from its values into those of its block, and a block is ended at 1024 rows: beside the rows stand
//! the files so far and one block, and no datum of a row is made. A `RunWriter` takes one row at a time from its place,
//! wherever it lies, tells where the file is full, and hands it out, so that neither a list of all rows nor one of the
//! files is kept (`specs/Written.antt`). What it has in hand may also be ended as the file of a changelog. That files
//! which were written one by one are read as one run is `files_law`, and that a changelog's is read as its rows
//! `changes_law`.
#![tactic(auto)]

mod begun_file;
mod laws;
mod placed;
mod row_writer;
mod run_writer;
mod summary;
mod writer;

pub use laws::{changes_law, files_law};
pub use run_writer::RunWriter;
pub use writer::{write_changes, write_data, write_run};
