//! What an expirer knows of a table's past, and what it may remove: definitions and laws alone.
//!
//! `specs/Expiry.antt` says what an expirer knows: that a floor announced its end; that each consumer which counts
//! needs no snapshot below it, but for those whose files are left to be read; which snapshots have gone; and which
//! files none needs any more. `specs/Removals.antt` has what it removes, in its order: the origin and the snapshots
//! below its end, rising, then the files that these named and the one at the end doesn't, then floors below its own.
//!
//! `known_law` says that all of this stays true through each kind of change of every actor. `announces_law` and
//! `reads_law` say how the expirer's own steps lead to it, and `removes_law` that each remove is a change of some kind,
//! and what is left then. So no law speaks of a pair of commands. `spared_law` says that a consumer which counts, a
//! settled one or one whose follower has listed the floors, needs no snapshot that an expirer removes once it has read
//! the consumers after its announcement, whoever registers meanwhile; and `never_law` that no snapshot which is kept, or
//! ever comes, names a path that it removes.
#![tactic(auto)]

mod laws;

pub use laws::{announces_law, known_law, never_law, reads_law, removes_law, spared_law};
