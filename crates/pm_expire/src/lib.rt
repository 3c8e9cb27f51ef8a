//! The machine of `expire`: it removes a table's oldest snapshots, and what they alone need.
//!
//! An `Expirer` reads what it needs to know (`pm_read_expiry`): snapshots with their times, floors and consumers. Where
//! no snapshot is to go it is done. Else it announces its end by a floor, reads the consumers again, which may lower the
//! end, and goes no further where a tag is there (`pm_announce`). It reads the whole view of each snapshot from the
//! first on, up to the end, and then removes (`pm_remove`): the origin and the snapshots below the end, rising; the
//! files that these named and the one at the end doesn't; and the floors below its own that it had listed. So whatever
//! it leaves when it is stopped, each snapshot that is there has all that it needs; of what gone snapshots needed some
//! files may be left, which no later expiry knows of.
//!
//! `specs/Expirer.antt` has its phases, its calls and what each answer leads to; `specs/Meaning.antt` what it knows of
//! the table in each phase, whatever others do, and what it may change; `specs/Trace.antt` which calls it made, and
//! which show a refusal. `step_expirer` makes a call, and keeps to that. `specs/AllCalls.antt` says what an expiry is
//! where nobody else acts: its end follows from the files alone, and where no snapshot is to go no path changes.
#![tactic(auto)]

mod after;
mod all_calls;
mod expirer;
mod laws;
mod machine;
mod phase;
mod views;

pub use all_calls::{Kept, expire_table};
pub use expirer::{ExpireStep, Expirer, expirer_of, step_expirer};
pub use laws::{
    again_law, all_calls_law, alone_causes_law, announced_law, causes_law, chain_law, done_law,
    found_law, given_back_law, image_law, image_spares_law, images_law, kept_law, known_law,
    one_answer_law, one_end_law, recounts_law, resumes_law, sound_law, spares_law,
};
pub use phase::{Phase, Views};
