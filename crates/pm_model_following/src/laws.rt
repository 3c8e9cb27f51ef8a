//! What holds of all that is passed on.

ghost use Rattle.std.specs.Prelude.{◌≡◌, ◌≢◌, ℕ, ◌+◌, ◌-◌, ◌≤◌, List, ◌++◌, length, true};
ghost use Rattle.std.specs.FinMap.{empty};
ghost use Rattle.std.specs.List.{flat_map, range_with_len};
ghost use Rattle.pm_options.specs.declared.kinds.EngineKind.TheVariants.{Deduplicate};
ghost use Rattle.pm_options.specs.declared.kinds.Producer.TheVariants.{None, Input};
ghost use Rattle.pm_schema.specs.declared.schema.TableSchema.{TableSchema};
ghost use Rattle.pm_model_history.specs.History.{Entry, entry_rows};
ghost use Rattle.pm_model_history.specs.Merge.{AllFit};
ghost use Rattle.pm_model_following.specs.Following.{NumberedRow, HaveBases, IsFinished};
ghost use Rattle.pm_model_following.specs.Following.{is_passed, followed, change, replay};

use pm_model_history::merged_table_law;

/// With the producer of inputs each snapshot is finished.
pub fn finished_law()
    ensures { (s : TableSchema) (entries : List Entry) (n : ℕ)
        → s.options.producer ≡ Input → IsFinished s entries n }
{}

/// A row that is passed on stays so, whatever the producer.
pub fn passed_law()
    ensures { (s : TableSchema) (entries : List Entry) (n : ℕ) (r : NumberedRow)
        → is_passed s entries n r ≡ true → is_passed s entries (n + 1) r ≡ true }
{}

/// The change of a snapshot, replay on what was passed on before it, gives what is passed on at it.
pub fn replay_law()
    ensures { (s : TableSchema) (entries : List Entry) (n : ℕ)
        → s.options.producer ≢ None → (s.options.producer ≡ Input → s.options.engine ≡ Deduplicate)
        → AllFit s.columns (flat_map entry_rows entries)
        → replay s (followed s entries (n - 1)) (change s entries n) ≡ followed s entries n }
{
    merged_table_law();
}

/// So do the changes of the snapshots that follow one, replay in their order.
pub fn frames_law()
    ensures { (s : TableSchema) (entries : List Entry) (n count : ℕ)
        → s.options.producer ≢ None → (s.options.producer ≡ Input → s.options.engine ≡ Deduplicate)
        → AllFit s.columns (flat_map entry_rows entries)
        → replay s (followed s entries n) (flat_map (change s entries) (range_with_len (n + 1) count))
        ≡ followed s entries (n + count) }
{
    replay_law();
}

/// At snapshot 0 nothing is passed on.
pub fn start_law()
    ensures { (s : TableSchema) (entries : List Entry) → followed s entries 0 ≡ empty }
{}

/// What is passed on at a snapshot, and its change, stay as they are when more entries come.
pub fn kept_law()
    ensures table { (s : TableSchema) (entries more : List Entry) (n : ℕ) → HaveBases 1 entries → n ≤ length entries
        → followed s (entries ++ more) n ≡ followed s entries n }
    ensures change { (s : TableSchema) (entries more : List Entry) (n : ℕ) → HaveBases 1 entries → n ≤ length entries
        → change s (entries ++ more) n ≡ change s entries n }
{}
