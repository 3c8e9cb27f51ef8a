//! What stands under all crates: texts and bytes that a record keeps, and the words and facts that
//! several crates need.
//!
//! Contracts see `Txt` and `Blob` as the lists of their bytes. `specs/Faults.antt` has counts of
//! faults, `specs/Known.antt` contents that are known or not, `specs/Newline.antt` lines, and
//! `specs/Outcome.antt` what a call answers where its defined answer may give way to out of memory.
//! `proofs/Laws.antt` has the facts that other crates' proofs use.
#![tactic(auto)]

mod blob;
mod txt;

pub use blob::Blob;
pub use txt::Txt;
