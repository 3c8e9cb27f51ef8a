//! Whether a row's partition has a folder.

ghost use Rattle.std.specs.Prelude.{◌≡◌};
ghost use Rattle.std.specs.List.{list_any};
ghost use Rattle.pm_model_history.specs.Merge.{key_of};
ghost use Rattle.pm_partitions.specs.Names.{is_too_long};

use pm_partitions::is_too_long;
use pm_values::Value;

/// Whether the text of a value of a row has more bytes than may be, of those at the indexes of the partition columns.
pub fn exceeds_partition(partition: &[usize], row: &[Value]) -> bool
    ensures { result ≡ list_any is_too_long (key_of partition.now row.now) }
{
    for index in partition {
        if let Some(value) = row.get(*index) {
            if is_too_long(value) {
                return true;
            }
        }
    }
    false
}
