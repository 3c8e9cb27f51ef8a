//! What holds of the folders of all groups.

ghost use Rattle.std.specs.Prelude.{◌≡◌, ◌≢◌, ◌==◌, ◌+◌, ◌<◌, ◌≤◌, ◌^◌, List, ℕ, IsTrue, false, length};
ghost use Rattle.std.specs.List.{AllByRecursion, list_any, slice_split};
ghost use Rattle.pm_values.specs.declared.group.Group.{Group};
ghost use Rattle.pm_schema.specs.Again.{IsDeclared};
ghost use Rattle.pm_schema.specs.Folder.{FitsPartition, folder_text};
ghost use Rattle.pm_schema.specs.declared.schema.TableSchema.{TableSchema};
ghost use Rattle.pm_partitions.specs.Names.{folder_names, is_folder_name, is_too_long};

/// Cut at its slashes, the path of a group's folder is the names of its folders: one for each partition column and one
/// for the bucket. Each is a folder's name, and where no value's text is too long, it is short.
pub fn folders_law()
    ensures names { (s : TableSchema) (g : Group) → IsDeclared s → FitsPartition s g → g.bucket < 2 ^ 32
        → slice_split (λ b. b == 47) (folder_text s g) ≡ folder_names s g }
    ensures count { (s : TableSchema) (g : Group) → FitsPartition s g
        → length (folder_names s g) ≡ length s.partition + 1 }
    ensures plain { (s : TableSchema) (g : Group) → IsDeclared s → FitsPartition s g → g.bucket < 2 ^ 32
        → AllByRecursion (λ name. IsTrue (is_folder_name name)) (folder_names s g) }
    ensures short { (s : TableSchema) (g : Group) → IsDeclared s → FitsPartition s g → g.bucket < 2 ^ 32
        → list_any is_too_long g.partition ≡ false → AllByRecursion (λ name. length name ≤ 255) (folder_names s g) }
{}

/// Two groups of a table have one folder only where they are one group.
pub fn one_group_law()
    ensures { (s : TableSchema) (g h : Group) → FitsPartition s g → FitsPartition s h
        → g.bucket < 2 ^ 32 → h.bucket < 2 ^ 32 → folder_text s g ≡ folder_text s h → g ≡ h }
{}

/// The names of a declared table's partition columns have no slash.
pub fn plain_names_law()
    ensures { (s : TableSchema) → IsDeclared s
        → AllByRecursion (λ name. AllByRecursion (λ b. b ≢ 47) name) s.partition }
{}
