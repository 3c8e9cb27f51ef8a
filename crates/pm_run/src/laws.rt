//! What holds of the rows that files have.

ghost use Rattle.std.specs.Prelude.{◌≡◌, ℕ, List, Bool, false, true, Option, None, Ok, Err};
ghost use Rattle.std.specs.List.{AllByRecursion};
ghost use Rattle.pm_avro_data.specs.Datum.{Data};
ghost use Rattle.pm_avro_file.specs.Reader.{HasBlock, Opens, Reader};
ghost use Rattle.pm_schema.specs.declared.schema.TableSchema.{TableSchema};
ghost use Rattle.pm_values.specs.Order.{Values};
ghost use Rattle.pm_values.specs.declared.record.Stamped.{Stamped};
ghost use Rattle.pm_values.specs.declared.refusal.Refusal.{Refusal};
ghost use Rattle.pm_values.specs.declared.refusal.Refusal.TheVariants.{Memory};
ghost use Rattle.pm_run.specs.Order.{are_in_order};
ghost use Rattle.pm_run.specs.Reader.{OpensRun, RunView, StillGives};
ghost use Rattle.pm_run.specs.Row.{IsOfFile};
ghost use Rattle.pm_run.specs.Rows.{AreBytes, Follow, Gives, HasRows, Opened, judged, opened_with, placed};
ghost use Rattle.pm_run.specs.Writing.{AreRising, HaveRows};

use pm_avro_file::{one_block_law, one_opening_law};

/// The rows that a file has are one list, and so are those of a run's files; what follows from an offset on, and what
/// a reader still gives, is one list with one end.
pub fn one_list_law()
    ensures one { (s : TableSchema) (changes : Bool) (bytes : List ℕ) (rows others : List Stamped) →
        HasRows s changes bytes rows → HasRows s changes bytes others → rows ≡ others }
    ensures run { (s : TableSchema) (files : List (List ℕ)) (rows others : List Stamped) →
        HaveRows s files rows → HaveRows s files others → rows ≡ others }
    ensures follow { (o : Opened) (offset : ℕ) (before : Option Values) (rows others : List Stamped)
        (end other : Option Refusal) → Follow o offset before rows end → Follow o offset before others other
        → (rows ≡ others) × (end ≡ other) }
    ensures still { (v : RunView) (rows others : List Stamped) (end other : Option Refusal) →
        StillGives v rows end → StillGives v others other → (rows ≡ others) × (end ≡ other) }
{
    one_opening_law();
    one_block_law();
}

/// A file with rows, of the schema in hand, is opened unless memory runs out, and whoever has opened it is given these
/// rows and no refusal.
pub fn reading_law()
    ensures opens { (s : TableSchema) (changes : Bool) (path bytes : List ℕ) (rows : List Stamped) (e : Refusal) →
        HasRows s changes bytes rows → OpensRun s changes s.id path bytes (Err e) → e ≡ Memory }
    ensures gives { (s : TableSchema) (changes : Bool) (path bytes : List ℕ) (v : RunView) (rows : List Stamped) →
        HasRows s changes bytes rows → OpensRun s changes s.id path bytes (Ok v) → StillGives v rows None }
{
    one_opening_law();
}

/// The keys of the rows of a file are in its order: in a data file they rise. Rows up to the end of the file are the
/// same after any other key that their first may follow.
pub fn order_law()
    ensures order { (s : TableSchema) (changes : Bool) (bytes : List ℕ) (rows : List Stamped) →
        HasRows s changes bytes rows → are_in_order changes None rows ≡ true }
    ensures rising { (s : TableSchema) (bytes : List ℕ) (rows : List Stamped) →
        HasRows s false bytes rows → AreRising rows }
    ensures follow { (o : Opened) (offset : ℕ) (before : Option Values) (rows : List Stamped)
        (end : Option Refusal) → Follow o offset before rows end → are_in_order o.changes before rows ≡ true }
    ensures other { (o : Opened) (offset : ℕ) (before other : Option Values) (rows : List Stamped) →
        Follow o offset before rows None → are_in_order o.changes other rows ≡ true
        → Follow o offset other rows None }
{}

/// The rows that a file has are rows that it can have: each fits the schema's columns, the key beside it is its own,
/// and its number and its kind may stand there. So are those of a run's files, those that reading gives before it ends
/// or refuses, those that follow from an offset on, and those of a block. An opened file's bytes are bytes.
pub fn rows_law()
    ensures have { (s : TableSchema) (changes : Bool) (bytes : List ℕ) (rows : List Stamped) →
        AreBytes bytes → HasRows s changes bytes rows → AllByRecursion (IsOfFile s changes) rows }
    ensures run { (s : TableSchema) (files : List (List ℕ)) (rows : List Stamped) →
        AllByRecursion AreBytes files → HaveRows s files rows → AllByRecursion (IsOfFile s false) rows }
    ensures gives { (s : TableSchema) (changes : Bool) (path bytes : List ℕ) (r : Reader) (rows : List Stamped)
        (end : Option Refusal) → AreBytes bytes → Opens bytes (Ok r)
        → Gives (opened_with s changes path r) rows end → AllByRecursion (IsOfFile s changes) rows }
    ensures follow { (s : TableSchema) (changes : Bool) (path : List ℕ) (r : Reader) (offset : ℕ)
        (before : Option Values) (rows : List Stamped) (end : Option Refusal) → AreBytes r.bytes
        → Follow (opened_with s changes path r) offset before rows end
        → AllByRecursion (IsOfFile s changes) rows }
    ensures block { (s : TableSchema) (changes : Bool) (path : List ℕ) (r : Reader) (offset next : ℕ)
        (ds : List Data) (before : Option Values) → AreBytes r.bytes
        → HasBlock r.kind r.marker r.bytes offset ds next
        → AllByRecursion (IsOfFile s changes) (judged (opened_with s changes path r) before (placed offset ds)).rows }
{}
