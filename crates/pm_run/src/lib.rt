//! What the files of runs and of changelogs are: which rows they have, with their keys, kinds and sequence numbers.
//!
//! A data file is an Avro container file with one record for each row: the columns of the primary key that are none of
//! the partition's, the sequence number, the kind, and all columns (`specs/Kinds.antt` has its type). What of a schema
//! it depends on stands in `specs/Form.antt`. Which row a record is, its first misfit, and what is written of a row
//! stand in `specs/Row.antt`, and how rows follow each other in `specs/Order.antt`. `specs/Rows.antt` says which rows a
//! file has, and the first refusal in the order of bytes; `specs/Reader.antt` what a reader gives, row by row and block
//! by block; `specs/Writing.antt` which files are written for rows, what is known of each, and which rows a run of
//! files has. `src/laws.rt` has what holds of the rows of files: they are one list, in order, of rows that fit, and
//! reading gives them. `pm_run_reader` reads the files, and `pm_run_writer` writes them.
#![tactic(auto)]

mod form;
mod laws;
mod run;
mod slot;

pub use form::Field;
pub use laws::{one_list_law, order_law, reading_law, rows_law};
pub use run::{RunBytes, RunFile};
pub use slot::{Fit, Slot};
