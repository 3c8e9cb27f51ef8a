//! The values of a table: texts, column types, rows, keys, kinds of change, groups, what is known of
//! a file, the names of new files, and the refusals.
//!
//! Contracts see `Txt` and `Blob` as lists of bytes, `Row` and `Key` as lists of values, and `Names`
//! as what its next name is made of. The order of keys stands in `specs/Order.antt`, that of groups in
//! `specs/GroupOrder.antt`, what fits a column in `specs/Fits.antt`, a name in `specs/Names.antt`.
#![tactic(auto)]

mod column;
mod file_meta;
mod group;
mod key;
mod kind;
mod laws;
mod names;
mod record;
mod refusal;
mod row;
mod value;

pub use column::{ColType, Column};
pub use file_meta::FileMeta;
pub use group::Group;
pub use key::Key;
pub use kind::Kind;
pub use laws::{names_law, order_law};
pub use names::Names;
pub use pm_base::{Blob, Txt};
pub use record::{Change, Stamped};
pub use refusal::{Refusal, Why};
pub use row::Row;
pub use value::Value;
