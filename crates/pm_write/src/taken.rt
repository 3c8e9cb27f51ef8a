//! The rows that a table takes of the lines of a batch, packed.

ghost use Rattle.std.specs.Prelude.{◌≡◌, ℕ, List, [], ◌∷◌, ◌++◌, length, map, IfErr, IfOk, OnOk, Ok};
ghost use Rattle.std.specs.List.{AllByRecursion};
ghost use Rattle.pm_base.specs.Outcome.{Fails, Gives};
ghost use Rattle.pm_model_history.specs.Merged.{primary_of};
ghost use Rattle.pm_input.specs.Kept.{line_view};
ghost use Rattle.pm_input.specs.Rows.{refusal_in};
ghost use Rattle.pm_engine.specs.Covers.{row_of};
ghost use Rattle.pm_engines.specs.TableEngine.{schema_of};
ghost use Rattle.pm_run.specs.Writing.{CountFrom};
ghost use Rattle.pm_write.specs.Taken.{all_taken, long_partition, no_room, taken_by, taken_in, taken_of};
ghost use Rattle.pm_write.specs.Taken.{AreKeyColumns, IsTakenRow, stamped, with_taken};

use pm_engines::{TableEngine, Verdict};
use pm_group_rows::{exceeds_partition, partition_of};
use pm_input::{InputLine, InputLines, LIMITS, LimitKind, row_at};
use pm_model_history::{key_of, primary_of};
use pm_packed::PackedRows;
use pm_partitions::LONGEST_TEXT;
use pm_row_lines::LineReader;
use pm_schema::TableSchema;
use pm_values::{Kind, Refusal, Row, Stamped, Txt};
use std::alloc::{AllocError, Global};

/// The indexes of the columns of a table's primary key, and of those of its partition.
pub(crate) struct KeyColumns {
    pub(crate) primary: Vec<usize>,
    pub(crate) partition: Vec<usize>,
}

impl Drop for KeyColumns {
    fn drop(self) {
        let KeyColumns { primary, partition } = self;
    }
}

impl KeyColumns {
    /// Those of a table.
    fn of_schema(alloc: Global, schema: &TableSchema) -> Result<KeyColumns, AllocError>
        ensures { IfOk result (AreKeyColumns schema.now) }
    {
        Ok(KeyColumns {
            primary: primary_of(alloc, schema)?,
            partition: partition_of(alloc, schema)?,
        })
    }
}

/// The rows that the table takes of the lines, with their keys, their numbers counted from 0. The first half of the
/// lines is let go before the rows of the later one are taken.
pub(crate) fn taken_rows(
    alloc: Global,
    schema: &TableSchema,
    engine: &TableEngine,
    lines: InputLines,
) -> Result<PackedRows, Refusal>
    requires { schema_of engine.now ≡ schema.now }
    ensures exact { Gives (λ rows. map row_of rows) refusal_in result
        (all_taken schema.now lines) }
    ensures taken { IfOk result (λ rows. AllByRecursion (IsTakenRow schema.now) rows) }
    ensures numbers { IfOk result (λ rows. CountFrom 0 rows) }
{
    let columns = KeyColumns::of_schema(alloc, schema)?;
    let mut reader = LineReader::new(alloc);
    let mut rows = PackedRows::new(alloc);
    let (first, later) = lines.halves()?;
    let room = take_lines(
        alloc,
        &mut reader,
        schema,
        engine,
        &columns,
        &first,
        LIMITS.rows,
        &mut rows,
    )?;
    drop(first);
    take_lines(
        alloc,
        &mut reader,
        schema,
        engine,
        &columns,
        &later,
        room,
        &mut rows,
    )?;
    Ok(rows)
}

/// Takes the rows of lines, where there is room for so many. Gives the room that is left.
fn take_lines(
    alloc: Global,
    reader: &mut LineReader,
    schema: &TableSchema,
    engine: &TableEngine,
    columns: &KeyColumns,
    lines: &InputLines,
    room: usize,
    rows: &mut PackedRows,
) -> Result<usize, Refusal>
    requires own { schema_of engine.now ≡ schema.now }
    requires columns { AreKeyColumns schema.now columns.now }
    ensures more { IfOk result (λ left. (later : List (ℕ × List ℕ)) →
        with_taken (map row_of rows.new) (taken_in schema.now left later)
        ≡ with_taken (map row_of rows.old) (taken_in schema.now room (lines.now ++ later))) }
    ensures refused { IfErr result (λ e. (later : List (ℕ × List ℕ)) → Fails (refusal_in e)
        (with_taken (map row_of rows.old) (taken_in schema.now room (lines.now ++ later)))) }
    ensures taken { OnOk result (AllByRecursion (IsTakenRow schema.now) rows.old
        → AllByRecursion (IsTakenRow schema.now) rows.new) }
    ensures numbers { OnOk result (CountFrom 0 rows.old → CountFrom 0 rows.new) }
{
    let mut room = room;
    let mut left = lines.left();
    while let Some(line) = left.next() {
        if room == 0 {
            return Err(no_room(alloc)?);
        }
        take_line(alloc, reader, schema, engine, columns, &line, rows)?;
        room -= 1;
    }
    Ok(room)
}

/// The refusal of a line for which a batch has no room.
fn no_room(alloc: Global) -> Result<Refusal, AllocError>
    ensures { IfOk result (λ e. e ≡ no_room) }
{
    let limit = LimitKind::BatchRows;
    Ok(Refusal::Limit {
        which: Txt::from_str(alloc, limit.text())?,
        number: limit.number(&LIMITS) as u64,
    })
}

/// The refusal of a row of whose partition a value has too long a text.
fn long_partition(alloc: Global) -> Result<Refusal, AllocError>
    ensures { IfOk result (λ e. e ≡ long_partition) }
{
    Ok(Refusal::Limit {
        which: Txt::from_str(alloc, "partition")?,
        number: LONGEST_TEXT as u64,
    })
}

/// Takes the row of a line, where the table does.
fn take_line(
    alloc: Global,
    reader: &mut LineReader,
    schema: &TableSchema,
    engine: &TableEngine,
    columns: &KeyColumns,
    line: &InputLine,
    rows: &mut PackedRows,
) -> Result<(), Refusal>
    requires own { schema_of engine.now ≡ schema.now }
    requires columns { AreKeyColumns schema.now columns.now }
    ensures exact { Gives (λ _. map row_of rows.new) refusal_in result
        (with_taken (map row_of rows.old) (taken_of schema.now (line_view line.now))) }
    ensures taken { OnOk result (AllByRecursion (IsTakenRow schema.now) rows.old
        → AllByRecursion (IsTakenRow schema.now) rows.new) }
    ensures numbers { OnOk result (CountFrom 0 rows.old → CountFrom 0 rows.new) }
{
    let (kind, row) = row_at(alloc, reader, schema.columns.as_slice(), line)?;
    match engine.verdict(alloc, kind)? {
        Verdict::Take => {
            if exceeds_partition(&columns.partition, row.values()) {
                return Err(long_partition(alloc)?);
            }
            Ok(keep(alloc, &columns.primary, rows, kind, row)?)
        }
        Verdict::Ignore => Ok(()),
        Verdict::Refuse(column) => Err(Refusal::Retraction {
            line: line.number,
            column,
        }),
    }
}

/// Adds a row with its key and the next number.
fn keep(
    alloc: Global,
    primary: &[usize],
    rows: &mut PackedRows,
    kind: Kind,
    row: Row,
) -> Result<(), AllocError>
    ensures { OnOk result (rows.new
        ≡ rows.old ++ stamped primary.now (length rows.old) (kind, row) ∷ []) }
{
    let key = key_of(alloc, primary, &row)?;
    let seq = rows.len() as u64;
    let own = Stamped {
        key,
        seq,
        kind,
        row,
    };
    rows.push(&own)
}
