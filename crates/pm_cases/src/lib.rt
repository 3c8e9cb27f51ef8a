//! What the cases of `pm_cases_codecs`, `pm_cases_stores` and `pm_cases_folder` have in common: a case, arguments that
//! spell bytes, columns, and refusals as answers.
#![tactic(auto)]

mod argument;
mod between;
mod case;
mod columns;
mod refusal;
mod sum;

pub use argument::{read_bytes, read_text};
pub use between::say_between;
pub use case::Case;
pub use columns::{read_columns, read_type};
pub use refusal::{ROOM, print_refusal, print_within};
pub use sum::{checksum, say_sum};
