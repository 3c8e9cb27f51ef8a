//! Laws of the bytes of rows. Each holds with no call.

ghost use Rattle.std.specs.Prelude.{◌≡◌, ◌↔◌, ℕ, List, length, Some};
ghost use Rattle.pm_values.specs.declared.column.ColType.{ColType};
ghost use Rattle.pm_values.specs.Order.{Values};
ghost use Rattle.pm_binrow.specs.Row.{IsRow, IsShort, row_bytes};
ghost use Rattle.pm_binrow.specs.Reading.{row_in};

/// No two rows of columns of the same types have the same bytes, and no two of different numbers of columns.
pub fn row_law()
    ensures row { (types : List ColType) (row other : Values) → IsRow types row → IsRow types other
        → IsShort types row → IsShort types other → row_bytes types row ≡ row_bytes types other → row ≡ other }
    ensures columns { (types others : List ColType) (row other : Values) → IsShort types row → IsShort others other
        → row_bytes types row ≡ row_bytes others other → length types ≡ length others }
{}

/// The row that bytes are is the one that they are written of.
pub fn reading_law()
    ensures { (types : List ColType) (bytes : List ℕ) (row : Values) → (row_in types bytes ≡ Some row)
        ↔ (IsRow types row × IsShort types row × (bytes ≡ row_bytes types row)) }
{}
