//! A table's consumers, listed and read by a machine.
//!
//! A `Lister` lists the folder `consumer`, and reads the file of each name there that begins as a consumer's file does,
//! rising. It passes over files that have gone when they are read. It changes nothing. `list_consumers` makes all its
//! calls, and has the consumers by their names; `print_consumers` of `pm_consumer_files` makes their lines. Where the
//! files stand for a history and nobody else acts, they are those of all files of consumers that are there.
//!
//! `specs/Names.antt` has which names a listing has, and `specs/Reading.antt` how far their files were read;
//! `specs/Lister.antt` the phases, the calls and what each answer leads to; `specs/Trace.antt` which calls it made, and
//! which show a refusal; `specs/AllCalls.antt` what all of them do where nobody else acts, and whatever others do.
#![tactic(auto)]

mod all_calls;
mod laws;
mod lister;
mod machine;
mod names;
mod phase;
mod reading;

pub use all_calls::list_consumers;
pub use laws::{all_calls_law, causes_law, images_law, listed_law, one_answer_law};
pub use lister::{Lister, consumer_lister, into_consumers, is_list_done};
pub use phase::Phase;
pub use reading::Reading;
