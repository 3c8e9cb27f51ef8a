//! What calls of a machine that changes files do beside others': definitions, laws and lemmas.
//!
//! `specs/Bringing.antt` says of calls one after another what they bring to whatever the files stood for, whatever
//! others do between: each is a change of some named kinds, and something is known right after the last of them. It is
//! for machines that change files what `Carries` of `pm_machine` is for readers. `proofs/BringLemmas.antt` puts calls
//! together, one step after another, those of readers among them.
//!
//! Of a table others are the actors that register consumers under another name (`OthersApart`).
#![tactic(auto)]

mod laws;

pub use laws::apart_law;
