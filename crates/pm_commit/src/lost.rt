//! Tries that were lost to others.

ghost use Rattle.std.specs.Prelude.{◌≡◌, ◌<◌, ◌↔◌, ◌++◌, ◌∷◌, [], length, IsTrue};
ghost use Rattle.pm_commit.specs.Own.{tries};

use std::marker::Model;

/// How often a commit is tried.
pub(crate) const TRIES: usize = 11;

/// The ids that tries lost to others, in their order. It takes no memory.
#[derive(Drop)]
pub(crate) struct Lost {
    ids: [u64; TRIES],
    count: usize,
}

impl Model for Lost {
    ghost use Rattle.std.specs.Prelude.{◌≤◌, ℕ, List, length, take};

    ghost Value = { List ℕ };

    ghost view = { λ l. take l.count l.ids };

    ghost invariant = { λ l. l.count ≤ length l.ids };
}

impl Lost {
    /// None yet.
    pub(crate) fn new() -> Lost
        ensures { result ≡ [] }
    {
        Lost {
            ids: [0; TRIES],
            count: 0,
        }
    }

    /// Whether no try was lost.
    pub(crate) fn is_empty(&self) -> bool
        ensures { IsTrue result ↔ self.now ≡ [] }
    {
        self.count == 0
    }

    /// How many tries were lost.
    pub(crate) fn len(&self) -> usize
        ensures { result ≡ length self.now }
    {
        self.count
    }

    /// One try more was lost, with this id.
    pub(crate) fn push(&mut self, id: u64)
        requires { length self.old < tries }
        ensures { self.new ≡ self.old ++ id ∷ [] }
    {
        self.ids[self.count] = id;
        self.count += 1;
    }

    /// The ids, once all tries were lost.
    pub(crate) fn ids(&self) -> [u64; TRIES]
        requires { length self.now ≡ tries }
        ensures { result ≡ self.now }
    {
        self.ids
    }
}
