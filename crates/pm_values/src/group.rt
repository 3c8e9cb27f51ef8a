//! Groups of a table's rows.

ghost use Rattle.std.specs.Prelude.{◌≡◌, IfOk};
ghost use Rattle.std.specs.Cmp.{partial_order_from_total, partial_equiv_from_equiv};
ghost use Rattle.std.specs.Ordering.{as_partial_cmp, eq_by_cmp};
ghost use Rattle.std.proofs.Common.{refl};
ghost use Rattle.pm_values.specs.Order.{key_cmp};
ghost use Rattle.pm_values.specs.GroupOrder.{group_cmp, group_total, group_equiv};

use crate::row::Row;
use std::alloc::{AllocError, Global};
use std::cmp::Ordering;

/// The rows of one partition and one bucket, whose files lie in one folder. Groups compare by
/// the values of the partition, then by the bucket.
pub struct Group {
    /// The values of the partition columns in their order, none where the table has none.
    pub partition: Row,
    /// The number of the bucket, from 0.
    pub bucket: u32,
}

impl Drop for Group {
    fn drop(self) {
        let Group { partition, bucket } = self;
    }
}

impl Group {
    /// An equal group.
    pub fn copy(&self, alloc: Global) -> Result<Group, AllocError>
        ensures { IfOk result (λ g. g ≡ self.now) }
    {
        Ok(Group {
            partition: self.partition.copy(alloc)?,
            bucket: self.bucket,
        })
    }
}

impl PartialEq for Group {
    ghost eq = { eq_by_cmp group_cmp };

    ghost laws = { partial_equiv_from_equiv group_equiv };

    fn eq(&self, other: &Group) -> bool {
        self.cmp(other) == Ordering::Equal
    }
}

impl Eq for Group {
    ghost laws = { group_equiv };
}

impl Ord for Group {
    ghost cmp = { group_cmp };

    ghost total = { group_total };

    ghost matches_partial_cmp = { λ _ _. refl };

    ghost matches_eq = { λ _ _. refl };

    fn cmp(&self, other: &Group) -> Ordering {
        partitions(&self.partition, &other.partition).then(self.bucket.cmp(&other.bucket))
    }
}

impl PartialOrd for Group {
    ghost partial_cmp = { as_partial_cmp group_cmp };

    ghost laws = { partial_order_from_total group_total };

    fn partial_cmp(&self, other: &Group) -> Option<Ordering> {
        Some(self.cmp(other))
    }
}

/// Partitions compare as keys do.
fn partitions(a: &Row, b: &Row) -> Ordering
    ensures { result ≡ key_cmp a.now b.now }
{
    a.values().cmp(b.values())
}
