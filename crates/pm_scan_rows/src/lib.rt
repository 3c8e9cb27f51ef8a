//! The rows of a scan: runs that were read, and what is printed of the runs of all groups, the rows that show by rising
//! key.
//!
//! A `StoredRun` has the rows of the files that were read of a run, one file after another, and is seen as them. Of a
//! file whose rows lie in its bytes as they are written only the bytes are kept, once its rows were judged; of any
//! other the rows. They are given one after another as a source of a merge (`StoredRows`), each where it lies or lent,
//! so that none is copied; with their bytes, for files that are written of a form (`WrittenRows`). `specs/Stored.antt`
//! says what a run takes of a file, and what is still given of it.
//!
//! A `ReadGroup` is what was read of a group: such runs, and the bytes of files that nobody has judged yet, in which
//! keys may be looked for.
//!
//! `print_groups` merges the runs of all groups at once and prints the rows that show, each as a line that inserts it
//! and where it lies, but where it is combined. `scan_law` says that this is the text of a scan: where the runs of each
//! group cover the rows that lie in it, what is printed are the rows of the merged table (`specs/Shown.antt`). It rests
//! on what covering means alone: a row's group depends on its key, so the runs of all groups cover all rows, and these
//! are worth what the runs have of each key. Whether a row shows depends on its kind alone (`shows_by_kind_law`), so it
//! is judged without a copy.
#![tactic(auto)]

mod file;
mod laws;
mod print;
mod read_group;
mod rows;
mod shown;
mod stored_run;
mod written_rows;

pub use laws::{scan_law, shows_by_kind_law};
pub use print::print_groups;
pub use read_group::ReadGroup;
pub use rows::StoredRows;
pub use shown::sources;
pub use stored_run::StoredRun;
pub use written_rows::{WrittenRows, written_sources};
