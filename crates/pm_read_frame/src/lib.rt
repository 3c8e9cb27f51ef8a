//! The frame of a snapshot, read by a machine that makes one call of the store a step.
//!
//! A `FrameReader` reads the changelog of a snapshot by the reader of `pm_read_log`, and then the changelog's files, in
//! the order of its entries. Each is judged whole at its read. Once the last is read, the rows of all are merged by key
//! and printed, as `pm_merged_log` has it: it holds one file and, where there are more, the rows of those before it,
//! packed. No data file is read. It changes nothing.
//!
//! `specs/Reader.antt` has the phases, the calls and what each answer leads to, and `specs/Taken.antt` which rows a file
//! adds; `specs/Meaning.antt` what a reader knows in each phase: in the end its text is the snapshot's frame, whatever
//! others did meanwhile, where the table has a producer; `specs/Trace.antt` which calls it made, and which show a
//! refusal. `read_frame` makes all of them; `specs/AllCalls.antt` has what they do where nobody else
//! acts. `specs/Frames.antt` puts the frames of several readers together, whatever others did meanwhile.
#![tactic(auto)]

mod after;
mod all_calls;
mod file;
mod laws;
mod machine;
mod phase;
mod reader;
mod reading;

pub use all_calls::read_frame;
pub use file::ChangesFile;
pub use laws::{all_calls_law, causes_law, frames_law, images_law, known_law, one_answer_law};
pub use phase::Phase;
pub use reader::{FrameReader, frame_at, into_text, is_frame_ready};
pub use reading::Reading;
