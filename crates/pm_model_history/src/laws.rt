//! What holds of all merged tables.

ghost use Rattle.std.specs.Prelude.{◌≡◌, List};
ghost use Rattle.std.specs.FinMap.{get};
ghost use Rattle.pm_schema.specs.declared.schema.TableSchema.{TableSchema};
ghost use Rattle.pm_values.specs.Order.{Values};
ghost use Rattle.pm_model_history.specs.Merge.{HistoryRow};
ghost use Rattle.pm_model_history.specs.Merged.{merged_row as row_in, merged as table_of};

/// The merged table has at each key the row that its definition says of the key's rows, whatever the engine.
pub fn merged_table_law()
    ensures { (s : TableSchema) (rows : List HistoryRow) (key : Values)
        → get (table_of s rows) key ≡ row_in s rows key }
{}
