//! A primary key: the values of the key columns.

ghost use Rattle.std.specs.Prelude.{◌≡◌, IfOk};
ghost use Rattle.std.specs.Cmp.{partial_order_from_total, partial_equiv_from_equiv};
ghost use Rattle.std.specs.Ordering.{as_partial_cmp, eq_by_cmp};
ghost use Rattle.std.proofs.Common.{refl};
ghost use Rattle.pm_values.specs.Order.{Values, key_cmp, key_total, key_equiv};

use crate::row::copied;
use crate::value::Value;
use std::alloc::{AllocError, Global};
use std::cmp::Ordering;
use std::marker::Model;

/// The values of the key columns, in the order of the primary key, seen as their list. Keys
/// compare value by value; where one is a prefix of the other, the shorter one is first.
pub struct Key {
    values: Vec<Value>,
}

impl Drop for Key {
    fn drop(self) {
        let Key { values } = self;
    }
}

impl Model for Key {
    ghost use Rattle.pm_values.specs.Order.{Values};

    ghost Value = { Values };

    ghost view = { λ k. k.values.items };
}

impl Key {
    /// The key of these values.
    pub fn new(values: Vec<Value>) -> Key
        ensures { result ≡ values.items }
    {
        Key { values }
    }

    /// The values of the key.
    pub fn values(&self) -> &[Value]
        ensures { result.now ≡ self.now }
    {
        self.values.as_slice()
    }

    /// An equal key.
    pub fn copy(&self, alloc: Global) -> Result<Key, AllocError>
        ensures { IfOk result (λ k. k ≡ self.now) }
    {
        Ok(Key {
            values: copied(alloc, self.values.as_slice())?,
        })
    }
}

impl PartialEq for Key {
    ghost eq = { eq_by_cmp key_cmp };

    ghost laws = { partial_equiv_from_equiv key_equiv };

    fn eq(&self, other: &Key) -> bool {
        self.cmp(other) == Ordering::Equal
    }
}

impl Eq for Key {
    ghost laws = { key_equiv };
}

impl Ord for Key {
    ghost cmp = { key_cmp };

    ghost total = { key_total };

    ghost matches_partial_cmp = { λ _ _. refl };

    ghost matches_eq = { λ _ _. refl };

    fn cmp(&self, other: &Key) -> Ordering {
        self.values.as_slice().cmp(other.values.as_slice())
    }
}

impl PartialOrd for Key {
    ghost partial_cmp = { as_partial_cmp key_cmp };

    ghost laws = { partial_order_from_total key_total };

    fn partial_cmp(&self, other: &Key) -> Option<Ordering> {
        Some(self.cmp(other))
    }
}
