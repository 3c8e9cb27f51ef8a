//! Cases of files of rows, of changelogs, and of runs that are merged, rewritten or looked in, which `pm_cases_codecs`
//! answers: what a line of it says of them stands in the head of that program.
#![tactic(auto)]

mod long_merge;
mod long_run;
mod look_up;
mod merge;
mod order;
mod rows;
mod run_file;
mod table;
mod timed_merge;
mod timed_run;
mod written;

pub use long_run::DRAFT;
pub use table::{Table, run_answer};
