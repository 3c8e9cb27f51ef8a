//! What holds of the rows of changelog files.

ghost use Rattle.std.specs.Prelude.{ℕ, Bool, List, Option};
ghost use Rattle.pm_avro_file.specs.Reader.{Reader};
ghost use Rattle.pm_schema.specs.declared.schema.TableSchema.{TableSchema};
ghost use Rattle.pm_values.specs.Order.{Values};
ghost use Rattle.pm_values.specs.declared.record.Stamped.{Stamped};
ghost use Rattle.pm_values.specs.declared.refusal.Refusal.{Refusal};
ghost use Rattle.pm_run.specs.Rows.{Follow, opened_with};
ghost use Rattle.pm_merged_log.specs.Merged.{HaveOwnKeys};

/// Rows that are read of a file have their own keys beside them, whatever its bytes are.
pub fn own_keys_law()
    ensures { (s : TableSchema) (changes : Bool) (path : List ℕ) (r : Reader) (offset : ℕ) (before : Option Values)
        (rows : List Stamped) (end : Option Refusal) → Follow (opened_with s changes path r) offset before rows end
        → HaveOwnKeys s rows }
{}
