//! The rows of a large run, drawn from a seed.
//!
//! `Draws` gives the lines of one batch after another. Each row comes of one number, and each number of the one before
//! it (`specs/Draws.antt`), so the same seed fills a table with the same rows everywhere. `shown_numbers` reads what a
//! scan of that table shows (`specs/Shown.antt`), and `sum_of` adds it up.
#![tactic(auto)]

mod draws;
mod shown;

pub use draws::Draws;
pub use shown::{shown_numbers, sum_of};
