//! What the text of a scan shows of a table that was filled with drawn rows.

ghost use Rattle.std.specs.Prelude.{◌≡◌, ◌++◌, ◌∷◌, [], IfOk, OnOk, length, ◌-◌, ◌^◌, pos, ◌+ℤ◌, ◌-ℤ◌, ◌≤ℤ◌};
ghost use Rattle.pm_draws.specs.Shown.{drawn_columns, number_in, numbers_at, shown_numbers, sum_of};

use pm_base::Txt;
use pm_rows::{RowFault, read_row};
use pm_values::{ColType, Column, Row, Value};
use std::alloc::{AllocError, Global};

/// The number of each row that the text shows.
pub fn shown_numbers(alloc: Global, text: &[u8]) -> Result<Vec<i64>, AllocError>
    ensures { IfOk result (λ numbers. numbers.items ≡ shown_numbers text.now) }
{
    let columns = drawn_columns(alloc)?;
    let mut numbers = Vec::new(alloc);
    for line in text.split(|byte| *byte == b'\n') {
        push_number(alloc, &columns, &mut numbers, line)?;
    }
    Ok(numbers)
}

/// The columns of the table.
fn drawn_columns(alloc: Global) -> Result<Vec<Column>, AllocError>
    ensures { IfOk result (λ columns. columns.items ≡ drawn_columns) }
{
    let mut columns = Vec::new(alloc);
    columns.push(Column {
        id: 0,
        name: Txt::from_str(alloc, "id")?,
        kind: ColType::BigInt,
        nullable: false,
    })?;
    columns.push(Column {
        id: 1,
        name: Txt::from_str(alloc, "v")?,
        kind: ColType::BigInt,
        nullable: true,
    })?;
    Ok(columns)
}

/// Puts the number of a line's row to others, where the line is one.
fn push_number(
    alloc: Global,
    columns: &[Column],
    numbers: &mut Vec<i64>,
    line: &[u8],
) -> Result<(), AllocError>
    requires { columns.now ≡ drawn_columns }
    ensures { OnOk result (numbers.new.items ≡ numbers.old.items ++ numbers_at line.now) }
{
    match read_row(alloc, columns, line) {
        Ok((_, row)) => {
            numbers.push(number_in(&row))?;
            Ok(())
        }
        Err(RowFault::Memory) => Err(AllocError),
        Err(RowFault::Bad(_, _)) => Ok(()),
    }
}

/// The number of a row, 0 where it has none.
fn number_in(row: &Row) -> i64
    ensures { result ≡ number_in row.now }
{
    match row.values() {
        [_, Value::Int(number)] => *number,
        _ => 0,
    }
}

/// The sum of numbers.
pub fn sum_of(numbers: &[i64]) -> i128
    ensures { result ≡ sum_of numbers.now }
{
    let mut sum = 0;
    for number in numbers {
        sum = added(sum, *number);
    }
    sum
}

/// A sum and one number more.
fn added(sum: i128, number: i64) -> i128
    requires low { (pos 0 -ℤ pos (2 ^ 127 - 2 ^ 64)) ≤ℤ sum }
    requires high { sum ≤ℤ pos (2 ^ 127 - 2 ^ 64) }
    ensures sum { result ≡ sum +ℤ number }
    ensures low { (sum -ℤ pos (2 ^ 63)) ≤ℤ result }
    ensures high { result ≤ℤ (sum +ℤ pos (2 ^ 63)) }
{
    sum + i128::from(number)
}
