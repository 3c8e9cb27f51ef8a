//! What holds of the group of each row.

ghost use Rattle.std.specs.Prelude.{◌<◌, ◌≤◌};
ghost use Rattle.pm_values.specs.Fits.{Fits};
ghost use Rattle.pm_values.specs.Order.{Values};
ghost use Rattle.pm_schema.specs.Again.{IsDeclared};
ghost use Rattle.pm_schema.specs.Folder.{FitsPartition};
ghost use Rattle.pm_schema.specs.declared.schema.TableSchema.{TableSchema};
ghost use Rattle.pm_model_following.specs.Groups.{group_of};

/// The partition of a row that fits has a folder: its values are of their columns' types, and none is null. The bucket
/// is one of the table's.
pub fn groups_law()
    ensures folder { (s : TableSchema) (row : Values) → IsDeclared s → Fits s.columns row
        → FitsPartition s (group_of s row) }
    ensures bucket { (s : TableSchema) (row : Values) → 1 ≤ s.options.bucket
        → (group_of s row).bucket < s.options.bucket }
{}
