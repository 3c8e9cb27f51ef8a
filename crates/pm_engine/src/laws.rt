//! What holds of all runs that cover rows, whatever the engine.

ghost use Rattle.std.specs.Prelude.{◌≡◌, ◌≢◌, [], ◌∷◌, ◌++◌, List, map, false, All};
ghost use Rattle.pm_values.specs.Order.{Values};
ghost use Rattle.pm_values.specs.declared.record.Stamped.{Stamped};
ghost use Rattle.pm_schema.specs.declared.schema.TableSchema.{TableSchema};
ghost use Rattle.pm_model_history.specs.Merge.{HistoryRow, rows_of};
ghost use Rattle.pm_engine.specs.Covers.{Run, Covers, CoversAll, IsKeyed, IsRising, of_key, row_of, stored_rows};
ghost use Rattle.pm_engine.specs.Meaning.{Meaning, KindsAreOwn, SameWorth, SpeaksFor, stored_of, values_over};
ghost use Rattle.pm_engine.specs.OfSchema.{meaning_of};
ghost use Rattle.pm_engine.specs.Reducing.{AreStoredRows, HasKinds};

/// Where runs cover rows, the rows of a key are worth what the runs have of it, the oldest first; and a key of which
/// they have nothing doesn't show, or has no row.
pub fn covers_law()
    ensures worth { (m : Meaning) (runs : List Run) (rows : List HistoryRow) (key : Values) → Covers m runs rows →
        stored_rows key runs ≢ [] → SameWorth m (rows_of m.primary key rows) (stored_rows key runs) }
    ensures hidden { (m : Meaning) (runs : List Run) (rows : List HistoryRow) (key : Values) → Covers m runs rows →
        stored_rows key runs ≡ [] → rows_of m.primary key rows ≢ [] → m.shows (rows_of m.primary key rows) ≡ false }
{}

/// A run that covers more rows, put after runs that cover the rows before: all of them cover all rows.
pub fn added_law()
    ensures some { (m : Meaning) (runs : List Run) (run : Run) (rows more : List HistoryRow) →
        Covers m runs rows → CoversAll m (run ∷ []) more → Covers m (runs ++ run ∷ []) (rows ++ more) }
    ensures all { (m : Meaning) (runs : List Run) (run : Run) (rows more : List HistoryRow) →
        CoversAll m runs rows → CoversAll m (run ∷ []) more → CoversAll m (runs ++ run ∷ []) (rows ++ more) }
{}

/// A row that speaks for rows of a key, and has their kind, is their stored row, and it speaks for itself. So a run
/// that covers rows and has their kinds has of each key the stored row of its rows.
pub fn stored_law()
    ensures one { (m : Meaning) (key : Values) (stored : HistoryRow) (rows : List HistoryRow) →
        SpeaksFor m key stored rows → stored.0 ≡ m.kind rows → stored ≡ stored_of m rows }
    ensures itself { (m : Meaning) (key : Values) (stored : HistoryRow) (rows : List HistoryRow) →
        SpeaksFor m key stored rows → SpeaksFor m key stored (stored ∷ []) }
    ensures run { (m : Meaning) (run : Run) (rows : List Stamped) → IsRising run → All (IsKeyed m) rows →
        CoversAll m (run ∷ []) (map row_of rows) → HasKinds m run rows → AreStoredRows m run rows }
{}

/// Each kind that a stored row of a table may have is that of the row alone, in whatever file it was found.
pub fn own_kind_law()
    ensures { (s : TableSchema) → KindsAreOwn (meaning_of s) }
{}

/// What a run that covers rows has of a key has the values of the key's rows, and shows where they do.
pub fn worth_law()
    ensures { (m : Meaning) (run : Run) (rows : List HistoryRow) (key : Values) (x : Stamped) →
        Covers m (run ∷ []) rows → of_key key run ≡ x ∷ [] →
        (values_over m (rows_of m.primary key rows) ≡ x.row)
        × (m.shows (rows_of m.primary key rows) ≡ m.shows (row_of x ∷ [])) }
{}
