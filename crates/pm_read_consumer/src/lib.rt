//! A consumer's file, read by a machine of one call.
//!
//! A `ConsumerReader` reads the file of a consumer, and has its bytes, so that a swap can expect them, and what they
//! say. It changes nothing. `find_consumer` makes its call.
//!
//! `specs/Reader.antt` has its phases, its call and what the answer leads to; `specs/Trace.antt` which calls it made,
//! and which show a refusal; `specs/AllCalls.antt` what they find where nobody else acts. Nothing that it knows of the
//! table lasts, since anyone may write the file again; `specs/Meaning.antt` has what it shows of the moment at which
//! the file is read, whatever others do.
#![tactic(auto)]

mod all_calls;
mod laws;
mod machine;
mod phase;
mod reader;

pub use all_calls::find_consumer;
pub use laws::{all_calls_law, found_law, images_law, one_answer_law};
pub use phase::{FoundConsumer, Phase};
pub use reader::{ConsumerReader, consumer_reader, into_found};
