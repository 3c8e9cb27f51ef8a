//! Cases of Avro's types, data and files, which `pm_cases_codecs` answers: what a line of it says of them stands in the
//! head of that program.
#![tactic(auto)]

mod avro;
mod avro_datum;
mod avro_file;
mod avro_record;
mod datum;

pub use avro::avro_answer;
pub use avro_file::{avro_file_answer, say_counts};
