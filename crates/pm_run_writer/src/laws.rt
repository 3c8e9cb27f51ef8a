//! What holds of the files of runs, whatever wrote them.

ghost use Rattle.std.specs.Prelude.{ℕ, ◌≤◌, List, None, false, length, true, IsTrue};
ghost use Rattle.std.specs.List.{AllByRecursion};
ghost use Rattle.pm_schema.specs.declared.schema.TableSchema.{TableSchema};
ghost use Rattle.pm_values.specs.Names.{Naming};
ghost use Rattle.pm_values.specs.declared.record.Stamped.{Stamped};
ghost use Rattle.pm_run.specs.Order.{are_in_order};
ghost use Rattle.pm_run.specs.Row.{IsOfFile};
ghost use Rattle.pm_run.specs.Rows.{HasRows};
ghost use Rattle.pm_run.specs.Writing.{AreFilesOf, AreRising, HasOwnKey, IsFileWith, IsRun, bytes_of};
ghost use Rattle.pm_run.specs.declared.run.RunFile.{RunFile};
ghost use Rattle.pm_run_writer.specs.Written.{HasNames};

use pm_avro_file::whole_file_law;

/// Files of rows that data files can have, by rising key, are read as one run of these rows.
pub fn files_law()
    ensures { (s : TableSchema) (limit level : ℕ) (names : Naming) (rows : List Stamped) (files : List RunFile) →
        HasNames s → 1 ≤ limit → AreFilesOf s limit level names rows files → AllByRecursion (IsOfFile s false) rows →
        AreRising rows → IsRun s (bytes_of files) rows }
{
    whole_file_law();
}

/// A changelog file of rows that fit, with their own keys, which don't fall, has these rows.
pub fn changes_law()
    ensures { (s : TableSchema) (level : ℕ) (marker name : List ℕ) (rows : List Stamped) (f : RunFile) → HasNames s →
        1 ≤ length rows → IsFileWith s level marker name rows f → AllByRecursion (HasOwnKey s) rows →
        IsTrue (are_in_order true None rows) → HasRows s true f.bytes rows }
{
    whole_file_law();
}
