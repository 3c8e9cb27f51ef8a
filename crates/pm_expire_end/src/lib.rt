//! Which snapshots an expiry keeps: all from its end on.
//!
//! `expire_end` takes the ids and times of a table's snapshots, what is to be kept of them, the present time and the
//! least snapshot that a consumer reads next, and answers the end (`specs/Expiry.antt`). As many of the latest as at
//! least have to be, and all that a consumer still reads, are kept in any case; of those before them the ones from the
//! first recent one on, as far as no more are kept than may be. It answers as defined whatever the clock says, since
//! its sums fit in 128 bits. `end_law` says what an end keeps, and `more_law` that whoever asks for more isn't left
//! with less.
//!
//! `KeepAsked` is what a command asks to keep, and `KeepAsked::over` fills it up by a table's options.
#![tactic(auto)]

mod expiry;
mod keep;
mod laws;

pub use expiry::expire_end;
pub use keep::{Keep, KeepAsked};
pub use laws::{asked_law, end_law, more_law, one_end_law};
