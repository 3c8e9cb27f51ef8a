//! What holds of all batches and of the files that they become.

ghost use Rattle.std.specs.Prelude.{◌≡◌, ◌≢◌, ◌↔◌, ℕ, ◌+◌, ◌<◌, ◌≤◌, List, [], ◌∷◌, length, map, Some, Ok, false};
ghost use Rattle.std.specs.List.{AllByRecursion};
ghost use Rattle.std.specs.BTreeMap.{BTreeMap};
ghost use Rattle.pm_values.specs.Names.{Naming};
ghost use Rattle.pm_values.specs.declared.group.Group.{Group};
ghost use Rattle.pm_options.specs.declared.kinds.Producer.TheVariants as producers;
ghost use Rattle.pm_schema.specs.Again.{IsDeclared};
ghost use Rattle.pm_schema.specs.Folder.{FitsPartition};
ghost use Rattle.pm_schema.specs.declared.schema.TableSchema.{TableSchema};
ghost use Rattle.pm_model_history.specs.Merge.{AllFit, HistoryRow};
ghost use Rattle.pm_input.specs.Limits.{limits};
ghost use Rattle.pm_engine.specs.Covers.{CoversAll};
ghost use Rattle.pm_engine.specs.OfSchema.{meaning_of};
ghost use Rattle.pm_model_following.specs.Groups.{rows_in};
ghost use Rattle.pm_run.specs.Row.{most_sequence};
ghost use Rattle.pm_write.specs.Batch.{AreStoredOf, GroupRows, Groups, IsBatchOf, group_log, held_of, logs_in};
ghost use Rattle.pm_write.specs.Batch.{numbered};
ghost use Rattle.pm_write.specs.Files.{exceeds, AreLogsWritten, AreNewFiles, AreWritten, IsNewFile, IsWritten};
ghost use Rattle.pm_write.specs.Taken.{all_taken};
ghost use Rattle.pm_write.specs.declared.files.NewFile.{NewFile as FileView};

use pm_changelog::group_log_law;
use pm_group_rows::groups_law;
use pm_model_changelog::by_key_law;

/// No rows have the batch without groups, and only they. The run of a group covers the group's rows, whatever number
/// they are counted from, and has of each key the stored row of its rows. A batch holds each of its groups once: each has
/// a folder and one of the table's buckets, and they are no more than the rows, of which there are at most as many as a
/// batch has room for. Each group has a log where the table passes its input on, else none has.
pub fn batch_law()
    ensures none { (s : TableSchema) → IsBatchOf s [] [] }
    ensures empty { (s : TableSchema) (rows : List HistoryRow) (batch : Groups) → IsBatchOf s rows batch →
        (batch ≡ []) ↔ (rows ≡ []) }
    ensures covers { (s : TableSchema) (rows : List HistoryRow) (batch : Groups) (g : Group) (x : GroupRows) (n : ℕ) →
        IsBatchOf s rows batch → held_of g batch ≡ Some x →
        CoversAll (meaning_of s) (numbered n x.run ∷ []) (rows_in s g rows) }
    ensures stored { (s : TableSchema) (rows : List HistoryRow) (batch : Groups) (g : Group) (x : GroupRows) (n : ℕ) →
        IsBatchOf s rows batch → held_of g batch ≡ Some x → AreStoredOf s (rows_in s g rows) (numbered n x.run) }
    ensures held { (s : TableSchema) (rows : List HistoryRow) (batch : Groups) → IsBatchOf s rows batch →
        AllByRecursion (λ (e : Group × GroupRows). held_of e.0 batch ≡ Some e.1) batch }
    ensures folders { (s : TableSchema) (rows : List HistoryRow) (batch : Groups) → IsDeclared s →
        AllFit s.columns rows → IsBatchOf s rows batch →
        AllByRecursion (λ (e : Group × GroupRows). FitsPartition s e.0) batch }
    ensures buckets { (s : TableSchema) (rows : List HistoryRow) (batch : Groups) → 1 ≤ s.options.bucket →
        IsBatchOf s rows batch → AllByRecursion (λ (e : Group × GroupRows). e.0.bucket < s.options.bucket) batch }
    ensures few { (s : TableSchema) (rows : List HistoryRow) (batch : Groups) → IsBatchOf s rows batch →
        length batch ≤ length rows }
    ensures room { (s : TableSchema) (lines : List (ℕ × List ℕ)) (rows : List HistoryRow) →
        all_taken s lines ≡ Ok rows → length rows ≤ limits.rows }
    ensures logs { (s : TableSchema) (rows : List HistoryRow) (batch : Groups) →
        s.options.producer ≡ producers.Input → IsBatchOf s rows batch → logs_in batch ≡ map group_log batch }
    ensures quiet { (s : TableSchema) (rows : List HistoryRow) (batch : Groups) →
        s.options.producer ≢ producers.Input → IsBatchOf s rows batch → logs_in batch ≡ [] }
{
    by_key_law();
    groups_law();
}

/// The new file of a group of a batch, whose rows are counted from a number that is small enough, is read as these rows
/// and tells of them; so are the new data files of a batch, where no group's rows need a number above the greatest. Its
/// new changelog files hold the rows of their groups by key.
pub fn written_law()
    ensures one { (s : TableSchema) (rows : List HistoryRow) (batch : Groups) (g : Group) (x : GroupRows) (n : ℕ)
        (names : Naming) (file : FileView) → IsBatchOf s rows batch → held_of g batch ≡ Some x →
        n + x.count ≤ most_sequence + 1 → IsNewFile s names g (numbered n x.run) file → IsWritten s n x file }
    ensures all { (s : TableSchema) (rows : List HistoryRow) (batch : Groups) (next : BTreeMap Group ℕ)
        (names : Naming) (files : List FileView) → IsBatchOf s rows batch → exceeds next batch ≡ false →
        (new : AreNewFiles s next names batch files) → AreWritten s next batch new.data_files }
    ensures logs { (s : TableSchema) (rows : List HistoryRow) (batch : Groups) (next : BTreeMap Group ℕ)
        (names : Naming) (files : List FileView) → IsBatchOf s rows batch →
        (new : AreNewFiles s next names batch files) → AreLogsWritten s rows batch new.changes }
{
    group_log_law();
}
