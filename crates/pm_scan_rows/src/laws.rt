//! What holds of the text of every scan.

ghost use Rattle.std.specs.Prelude.{◌≡◌, ℕ, List, map};
ghost use Rattle.pm_schema.specs.Again.{IsDeclared};
ghost use Rattle.pm_schema.specs.declared.schema.TableSchema.{TableSchema};
ghost use Rattle.pm_model_history.specs.Merge.{HistoryRow};
ghost use Rattle.pm_model_history.specs.Merged.{scan_text};
ghost use Rattle.pm_engine.specs.OfSchema.{meaning_of};
ghost use Rattle.pm_scan_rows.specs.Shown.{GroupRuns, GroupsCover, PrintsGroups, ShowsByKind};

use pm_engine::covers_law;
use pm_model_history::merged_table_law;

/// Where the runs of all groups cover the rows of a table, what is printed of them is the scan of the table.
pub fn scan_law()
    ensures { (s : TableSchema) (rows : List HistoryRow) (groups : List GroupRuns) (text : List ℕ)
        → IsDeclared s → GroupsCover s groups rows
        → PrintsGroups (meaning_of s) (map (λ (p : GroupRuns). p.1) groups) text → text ≡ scan_text s rows }
{
    covers_law();
    merged_table_law();
}

/// Whether a stored row of a table shows depends on its kind alone.
pub fn shows_by_kind_law()
    ensures { (s : TableSchema) → ShowsByKind (meaning_of s) }
{}
