//! What holds of the lines of all rows.

ghost use Rattle.std.specs.Prelude.{◌≡◌, ℕ, List, ◌∷◌, Ok};
ghost use Rattle.pm_base.specs.Newline.{IsUnbroken};
ghost use Rattle.pm_values.specs.Fits.{Fits};
ghost use Rattle.pm_values.specs.Order.{Values};
ghost use Rattle.pm_values.specs.declared.column.Column.{Column};
ghost use Rattle.pm_values.specs.declared.kind.Kind.{Kind};
ghost use Rattle.pm_rows.specs.Reading.{row_of};
ghost use Rattle.pm_rows.specs.RowText.{row_text};

/// A row that fits its columns is read again from its line, so no two of them have one line.
pub fn round_trip_law()
    ensures again { (columns : List Column) (kind : Kind) (row : Values)
        → Fits columns row → row_of columns (row_text kind row) ≡ Ok (kind, row) }
    ensures one_row { (columns : List Column) (k l : Kind) (row other : Values)
        → Fits columns row → Fits columns other
        → row_text k row ≡ row_text l other → (k ≡ l) × (row ≡ other) }
{}

/// The line of a row is one line, and isn't blank: it has no newline, and begins with `[`.
pub fn line_law()
    ensures newline { (kind : Kind) (row : Values) → IsUnbroken (row_text kind row) }
    ensures begins { (kind : Kind) (row : Values)
        → (more : List ℕ) × (row_text kind row ≡ 91 ∷ more) }
{}

/// A row that was read of a line fits its columns.
pub fn fit_law()
    ensures { (columns : List Column) (line : List ℕ) (kind : Kind) (row : Values)
        → row_of columns line ≡ Ok (kind, row) → Fits columns row }
{}
