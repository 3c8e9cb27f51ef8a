//! What an old value is, of runs that have rows.

ghost use Rattle.std.specs.Prelude.{◌≡◌, List, Ok, Err, Option, reverse};
ghost use Rattle.pm_values.specs.Order.{Values};
ghost use Rattle.pm_values.specs.declared.refusal.Refusal.{Refusal};
ghost use Rattle.pm_values.specs.declared.refusal.Refusal.TheVariants.{Memory};
ghost use Rattle.pm_schema.specs.declared.schema.TableSchema.{TableSchema};
ghost use Rattle.pm_engine.specs.Covers.{Run, stored_rows};
ghost use Rattle.pm_engine.specs.Meaning.{Meaning};
ghost use Rattle.pm_engine.specs.declared.stored.Stored.{Stored};
ghost use Rattle.pm_merge.specs.Merge.{AreStored, IsMerge};
ghost use Rattle.pm_lookup.specs.File.{SeenFile};
ghost use Rattle.pm_lookup.specs.Looking.{row_of_key};
ghost use Rattle.pm_lookup.specs.Lookup.{AreRunsWith, IsOldValue, IsStoredRow, all_files, old_part};

use pm_avro_file::{one_block_law, one_opening_law};
use pm_engine::stored_law;
use pm_merge::merged_law;

/// The old value of a key, of runs with rows, the newest first, is the stored row of what they have of the key, and so
/// it is that of the run that they are merged into (`merge_runs` without dropping), seen without its number. The only
/// refusal is that memory ran out.
pub fn old_value_law()
    ensures stored { (m : Meaning) (s : TableSchema) (runs : List (List SeenFile)) (rows : List Run) (key : Values)
        (old : Option Stored) → AreRunsWith s runs rows → AreStored m (reverse rows)
        → IsOldValue m s key (all_files runs) (Ok old) → IsStoredRow m key (stored_rows key (reverse rows)) old }
    ensures merged { (m : Meaning) (s : TableSchema) (runs : List (List SeenFile)) (rows : List Run) (run : Run)
        (key : Values) (old : Option Stored) → AreRunsWith s runs rows → AreStored m (reverse rows)
        → IsMerge m (reverse rows) run → IsOldValue m s key (all_files runs) (Ok old)
        → old ≡ old_part (row_of_key key run) }
    ensures memory { (m : Meaning) (s : TableSchema) (runs : List (List SeenFile)) (rows : List Run) (key : Values)
        (e : Refusal) → AreRunsWith s runs rows → IsOldValue m s key (all_files runs) (Err e) → e ≡ Memory }
{
    one_opening_law();
    one_block_law();
    stored_law();
    merged_law();
}
