//! Aggregation: each column outside the key is folded by a function of its own.
//!
//! A function is an `Aggregator`, whose meaning is a value: the type of its column, which rows it takes, and what the
//! column is worth over the rows of a key (`specs/Column.antt`). Its clauses are laws on that column alone: a lifted
//! value speaks for its row, a combined one for what both spoke for, and a stored value is what it is worth by itself.
//! There are ten, and what each means is what the history's definitions say of it (`specs/Functions.antt`). A function
//! that skips the rows that retract takes them, and lets them count for nothing.
//!
//! `ColumnFunction` is any of the ten. `Aggregation` is a merge engine over any mix of them, whose meaning is that of
//! its schema. A stored row inserts, and has in each column what the column is worth; so a first value that is null
//! stays null, and a sum of nulls is null. Rows are taken apart and their values moved (`next_value`); a joined text
//! grows in place.
#![tactic(auto)]

mod aggregation;
mod aggregator;
mod column_function;
mod ends;
mod extremes;
mod list_agg;
mod sum;
mod truths;
mod values;

pub use aggregation::Aggregation;
pub use aggregator::Aggregator;
pub use column_function::ColumnFunction;
pub use ends::{FirstNonNullValue, FirstValue, LastNonNullValue, LastValue};
pub use extremes::{Max, Min};
pub use list_agg::ListAgg;
pub use sum::Sum;
pub use truths::{BoolAnd, BoolOr};
pub use values::next_value;
