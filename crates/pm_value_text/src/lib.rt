//! The texts of bytes and of days in rows and in the names of folders, both ways.
//!
//! Bytes are two hexadecimal digits each (`specs/Hexadecimal.antt`), and a day is `YYYY-MM-DD`
//! (`specs/Date.antt`).
#![tactic(auto)]

mod date;
mod hexadecimal;
mod laws;

pub use date::{is_day, parse_date, print_date};
pub use hexadecimal::{parse_hex, print_hex};
pub use laws::{date_characters_law, dates_law, digits_law, known_days_law};
