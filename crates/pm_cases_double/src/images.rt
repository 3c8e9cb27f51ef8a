//! What a power loss may leave: each name and each file's bytes as the disk may have them, in every combination.

use crate::parts::{Name, Node, Thing};
use crate::world::World;
use pm_folder_store::HostError;
use std::alloc::Global;

/// A number from which choices are taken, digit by digit.
struct Digits(u64);

impl Digits {
    /// A choice among so many.
    fn take(&mut self, choices: u64) -> u64 {
        if choices == 0 {
            return 0;
        }
        let digit = self.0 % choices;
        self.0 /= choices;
        digit
    }
}

impl Drop for Digits {
    fn drop(self) {
        let Digits(_) = self;
    }
}

impl World {
    /// In how many ways a power loss may leave it.
    pub fn images(&self) -> u64 {
        let mut count = 1u64;
        for node in &self.nodes {
            count = count.saturating_mul(ways(node));
        }
        count
    }

    /// What a power loss leaves, in one of these ways; the first one is what stands there now. Nobody has anything
    /// open.
    pub fn image(&self, number: u64) -> Result<World, HostError> {
        let mut digits = Digits(number);
        let mut nodes = Vec::new(self.alloc);
        for node in &self.nodes {
            nodes.push(choice(self.alloc, node, &mut digits)?)?;
        }
        drop(digits);
        Ok(World::of(self.alloc, nodes))
    }
}

/// In how many ways a power loss may leave a thing.
fn ways(node: &Node) -> u64 {
    match &node.thing {
        Thing::File(bytes) => bytes.ways(),
        Thing::Folder(names) => ways_of(names),
        Thing::Link(_) => 1,
    }
}

/// In how many ways a power loss may leave these names.
fn ways_of(names: &[Name]) -> u64 {
    let mut count = 1u64;
    for name in names {
        count = count.saturating_mul(name.ways());
    }
    count
}

/// What a power loss leaves of a thing.
fn choice(alloc: Global, node: &Node, digits: &mut Digits) -> Result<Node, HostError> {
    let thing = match &node.thing {
        Thing::File(bytes) => Thing::File(bytes.choice(alloc, digits.take(bytes.ways()))?),
        Thing::Folder(names) => Thing::Folder(choices(alloc, names, digits)?),
        Thing::Link(end) => Thing::Link(*end),
    };
    Ok(Node {
        thing,
        changed: node.changed,
        touched: node.touched,
        around: node.around,
    })
}

/// What a power loss leaves of names.
fn choices(alloc: Global, names: &[Name], digits: &mut Digits) -> Result<Vec<Name>, HostError> {
    let mut left = Vec::new(alloc);
    for name in names {
        let thing = name.choice(digits.take(name.ways()));
        if thing.is_some() {
            left.push(name.settled_copy(alloc, thing)?)?;
        }
    }
    Ok(left)
}
