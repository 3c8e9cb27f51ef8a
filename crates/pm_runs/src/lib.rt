//! A group's runs from snapshot to snapshot: definitions and laws alone, which the ledger of all commands rests on.
//! Those that a compaction needs, `there_law`, `still_law`, `placed_law` and `made_law`, no program uses yet.
//!
//! `specs/Stand.antt` says when runs stand for the rows of a history. `specs/Succession.antt` says how a group's runs
//! follow those at the snapshot before: they stay, a run at level 0 comes before them, or at most one run takes the
//! place of those that a compaction took at its base. Where a group stands, a succession begins (`found_law`), and it
//! goes on by what follows (`goes_on_law`).
//!
//! So a compaction needs to know of its base alone, whatever appends and other compactions come after it. Where of each
//! run that it took a file is live at the newest snapshot, each of them still stands (`there_law`). Then they stand
//! together, what came since is before them, covers the rows after the base, and lacks nothing (`still_law`). With at
//! most one run in their place the runs stand for the rows of the next snapshot (`placed_law`); that one may be left
//! out where it has no row (`made_law`).
#![tactic(auto)]

mod laws;

pub use laws::{
    found_law, goes_on_law, made_law, placed_law, rows_law, same_law, still_law, there_law,
};
