//! What is told of a group, of runs that are known.

ghost use Rattle.std.specs.Prelude.{◌≡◌, ℕ, List, map, Some};
ghost use Rattle.std.specs.FinMap as paths;
ghost use Rattle.std.specs.List.{AllByRecursion, AllZip};
ghost use Rattle.pm_store.specs.Files.{Files};
ghost use Rattle.pm_values.specs.declared.file_meta.FileMeta.{FileMeta};
ghost use Rattle.pm_values.specs.declared.group.Group.{Group};
ghost use Rattle.pm_levels.specs.Runs.{files_of};
ghost use Rattle.pm_model_contents.specs.Runs.{data_path};
ghost use Rattle.pm_model_folder.specs.Runs.{view_of};
ghost use Rattle.pm_model_folder.specs.Stored.{HasRun};
ghost use Rattle.pm_compaction_log.specs.Log.{AreFilesWith};
ghost use Rattle.pm_values.specs.declared.record.Change.{Change};
ghost use Rattle.pm_values.specs.declared.refusal.Refusal.{Refusal};
ghost use Rattle.pm_values.specs.declared.refusal.Refusal.TheVariants.{Memory};
ghost use Rattle.pm_schema.specs.declared.schema.TableSchema.{TableSchema};
ghost use Rattle.pm_runs.specs.Succession.{KnownRun, from_oldest, without_files};
ghost use Rattle.pm_model_changelog.specs.Log.{compaction_log};
ghost use Rattle.pm_changelog.specs.GroupLog.{IsGroupLog};
ghost use Rattle.pm_choice.specs.declared.choice.ChosenGroup.{ChosenGroup};
ghost use Rattle.pm_scan_rows.specs.Group.{GroupRead};
ghost use Rattle.pm_group_log.specs.Told.{files_with, IsKnownAs, IsToldOf, RefusesTelling};

use pm_lookup::old_value_law;

/// Files of runs that are known, as they were kept, have the rows of these. Where a group was chosen of its runs as
/// they are known at a snapshot, the rows that were read are those of the runs that go, and with look-ups the files
/// that were kept have the rows of those that stay, what is told of it is what a compaction tells of these runs; and
/// the only refusal is that memory ran out.
pub fn known_log_law()
    ensures kept { (f : Files) (s : TableSchema) (g : Group) (known : List KnownRun) (kept : List (List ℕ))
        → AllByRecursion (λ (run : KnownRun). HasRun f s g (view_of run) (without_files run)) known
        → AllZip (λ (m : FileMeta) (bytes : List ℕ). paths.get f (data_path s g m.name) ≡ Some bytes)
        (files_of (map view_of known)) kept
        → AreFilesWith s (files_with s g (files_of (map view_of known)) kept) (from_oldest known) }
    ensures told { (s : TableSchema) (c : ChosenGroup) (x : GroupRead) (log : List Change) (known : List KnownRun)
        → IsKnownAs s c x known → IsToldOf s c x log → IsGroupLog s (compaction_log s c.whole known) log }
    ensures memory { (s : TableSchema) (c : ChosenGroup) (x : GroupRead) (e : Refusal) (known : List KnownRun)
        → IsKnownAs s c x known → RefusesTelling s c x e → e ≡ Memory }
{
    old_value_law();
}
