//! The registering of a consumer, as a machine of three calls of a store.
//!
//! A `Registrar` swaps in the consumer as new, from what was found at its path, lists the floors, and swaps in the
//! settled one from its own bytes. Where a floor exceeds the number of the snapshot to be read next it refuses with the
//! greatest, and the consumer stays new. Where a swap finds another file it refuses with what was found.
//!
//! `register` makes all its calls: those that settle the consumer, or those that show the refusal, each at its place
//! among all operations, whatever others do (`trace`). Take a table that stands at the first of them, and nobody else
//! acting from then on (`history`). Only the consumer's file is another then, in each image, too; who was settled is,
//! and the consumer where its file is the settled one. A refusal has its cause: a floor of the folder, or a fault.
//! Whatever others do meanwhile, each of its calls is a change of its own to any past that stood before them, and once
//! it is registered its name has joined the settled ones with its number, unless another touched the file in between
//! (`beside`). Whoever settles a file that another put there, though the bytes are the same, settles nothing that the
//! past knows of.
//!
//! `specs/Registrar.antt` has its phases, its calls and what each answer leads to; `specs/Meaning.antt` what it knows
//! of its name in each phase, with who registers, which the phases don't hold, beside the past; `specs/Trace.antt`
//! which calls it made, and which show a refusal; `specs/AllCalls.antt` what all of them do where nobody else acts, and
//! what they bring to a past beside others.
#![tactic(auto)]

mod laws;
mod machine;
mod phase;
mod registrar;

pub use laws::{all_calls_law, among_law, causes_law, images_law, known_law, one_answer_law};
pub use phase::{Phase, Registration};
pub use registrar::{RegisterStep, Registrar, register, registrar_of, step_registrar};
