//! The row of an input's line.

ghost use Rattle.std.specs.Prelude.{◌≡◌, IfOk};
ghost use Rattle.pm_base.specs.Outcome.{Gives};
ghost use Rattle.pm_values.specs.Fits.{Fits};
ghost use Rattle.pm_input.specs.Kept.{line_view};
ghost use Rattle.pm_input.specs.Rows.{faulty_column, refusal_in, row_at};

use crate::kept::InputLine;
use pm_row_lines::LineReader;
use pm_rows::RowFault;
use pm_values::{Column, Kind, Refusal, Row, Txt, Why};
use std::alloc::{AllocError, Global};

/// The kind and the row of a line, or the refusal of a bad one, by its number.
pub fn row_at(
    alloc: Global,
    reader: &mut LineReader,
    columns: &[Column],
    line: &InputLine,
) -> Result<(Kind, Row), Refusal>
    ensures exact { Gives (λ row. row) refusal_in result (row_at columns.now (line_view line.now)) }
    ensures fits { IfOk result (λ row. Fits columns.now row.1) }
{
    match reader.read_row(alloc, columns, line.bytes) {
        Ok(row) => Ok(row),
        Err(RowFault::Memory) => Err(Refusal::Memory),
        Err(RowFault::Bad(why, index)) => Err(Refusal::BadLine {
            line: line.number,
            why,
            column: faulty_column(alloc, columns, why, index)?,
        }),
    }
}

/// The name of the column that a fault is of, or nothing where it is of the whole line.
fn faulty_column(
    alloc: Global,
    columns: &[Column],
    why: Why,
    index: usize,
) -> Result<Txt, AllocError>
    ensures { IfOk result (λ name. name ≡ faulty_column columns.now why index) }
{
    match (why, columns.get(index)) {
        (Why::Null | Why::Type | Why::Range, Some(column)) => column.name.copy(alloc),
        _ => Txt::from_str(alloc, ""),
    }
}
