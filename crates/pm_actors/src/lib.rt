//! Machines of commands beside each other on one folder: definitions and laws alone.
//!
//! `specs/World.antt` says what a creator, a lister, a scanner, the readers of a following, a committer, a compactor, a
//! registrar, a mover and a dropper of a consumer, and an expirer each may change and know of files and their past, in
//! one form.
//! Whichever of them steps, each of the others still knows what it knows (`others_law`). So any number of them, each
//! run by an actor of its own, through one handle or many, keep a world: operations on a store that left files which
//! stand for a history, of which each machine knows what it knows. Whichever has the next operation, and whichever
//! stops, between two calls or within one, leads to a world (`world_law`, `stops_law`). In a folder that is found they
//! may begin (`begins_law`). Actors whose commands come later wait in the world, and each of them goes on there as the
//! machine that it begins (`joins_law`). A command's machine joins by a line in each definition, and by what its own
//! `known_law` says. Whoever runs a compactor goes on to run it (`compactor_law`). A following is machines in turn,
//! which keep what was read so far (`follow_law`).
//! A follower that registers beside an expirer keeps all snapshots from its number on, or is touched
//! (`registering_law`).
#![tactic(auto)]

mod laws;

pub use laws::{
    begins_law, compactor_law, follow_law, joins_law, others_law, registering_law, stops_law,
    world_law,
};
