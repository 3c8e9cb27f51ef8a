//! Rows that are read of the records of a file.

ghost use Rattle.std.specs.Prelude.{◌≡◌, Some, IfOk, map};
ghost use Rattle.std.specs.List.{AllByRecursion};
ghost use Rattle.std.specs.Vec.Iter.{into_iter_items};
ghost use Rattle.pm_base.specs.Outcome.{Gives};
ghost use Rattle.pm_avro_schema.specs.View as types;
ghost use Rattle.pm_avro_data.specs.Datum.{view};
ghost use Rattle.pm_avro_data.specs.HasType.{HasType};
ghost use Rattle.pm_record.specs.File.{misfit_of, misfit_refusal};
ghost use Rattle.pm_record.specs.Record.{indexes_in};
ghost use Rattle.pm_run.specs.Form.{row_fields};
ghost use Rattle.pm_run.specs.Order.{last_key};
ghost use Rattle.pm_rows.specs.RowText.{kind_text};
ghost use Rattle.pm_run_records.specs.RowReader.{reader_in};
ghost use Rattle.pm_run.specs.Row.{code_in, kind_in, nearest_sequence, number_in, row_in, row_kind, row_of};
ghost use Rattle.pm_run.specs.Row.{sequence_in, unless_retracts, value_in, values_in};
ghost use Rattle.pm_run.specs.Rows.{Opened, judged, placed, row_after};
ghost use Rattle.pm_run.specs.Taking.{Takes, first_read};

use crate::slot::{read_value, slots_of};
use pm_avro_data::Datum;
use pm_avro_schema::AvroType;
use pm_base::Txt;
use pm_record::{Misfit, Selection, all_differ, read_int, read_long};
use pm_run::Slot;
use pm_run_form::{MOST_SEQUENCE, RowsRead, TableForm, agree, last_key, may_follow, own_key};
use pm_schema::{EngineKind, Listed};
use pm_values::{Key, Kind, Refusal, Row, Stamped, Value};
use std::alloc::{AllocError, Global};
use std::vec::IntoIter;

/// What reads the rows of a file's records.
pub struct RowReader {
    pub form: TableForm,
    pub changes: bool,
    fields: Selection,
    columns: Listed<Slot>,
    keys: Listed<Slot>,
}

impl Drop for RowReader {
    fn drop(self) {
        let RowReader {
            form,
            changes,
            fields,
            columns,
            keys,
        } = self;
    }
}

impl RowReader {
    /// The reader of records of a type, unless a field is missing.
    pub fn of(
        alloc: Global,
        kind: &AvroType,
        form: TableForm,
        changes: bool,
    ) -> Result<Option<RowReader>, AllocError>
        ensures { IfOk result (λ found. found ≡ reader_in form changes (types.view kind.now)) }
    {
        let Some(fields) = select(alloc, kind, &form)? else {
            return Ok(None);
        };
        let columns = Listed::new(slots_of(alloc, kind, &form.columns)?);
        let keys = Listed::new(slots_of(alloc, kind, &form.keys)?);
        Ok(Some(RowReader {
            form,
            changes,
            fields,
            columns,
            keys,
        }))
    }

    /// The rows of a block's data, up to the first that is refused. The block is of the file at a path, at an offset;
    /// the first row comes after one with the key before.
    pub fn read_rows(
        &self,
        alloc: Global,
        path: &str,
        kind: &AvroType,
        offset: usize,
        before: &Option<Key>,
        data: Vec<Datum>,
    ) -> Result<RowsRead, AllocError>
        requires of_kind { Some self.now ≡ reader_in self.now.form self.now.changes (types.view kind.now) }
        requires of_type { AllByRecursion (HasType (types.view kind.now)) (map view «data».items) }
        ensures { IfOk result (λ b. (o : Opened) → o.path ≡ path.now → o.form ≡ self.now.form
            → o.changes ≡ self.now.changes → o.file.kind ≡ types.view kind.now
            → judged o before.now (placed offset (map view «data».items))
            ≡ record { rows = b.rows.items; refusal = b.refusal }) }
    {
        let mut rows = Vec::with_capacity(alloc, data.len())?;
        for datum in data {
            match self.read_next(alloc, kind, before, &rows, datum) {
                Ok(row) => rows.push(row)?,
                Err(misfit) => {
                    let refusal = Some(refusal_of(alloc, path, offset, misfit)?);
                    return Ok(RowsRead { rows, refusal });
                }
            }
        }
        Ok(RowsRead {
            rows,
            refusal: None,
        })
    }

    /// The row that a datum is after others, the first of which comes after one with the key before.
    fn read_next(
        &self,
        alloc: Global,
        kind: &AvroType,
        before: &Option<Key>,
        rows: &[Stamped],
        datum: Datum,
    ) -> Result<Stamped, Misfit>
        requires of_kind { Some self.now ≡ reader_in self.now.form self.now.changes (types.view kind.now) }
        requires of_type { HasType (types.view kind.now) (view datum) }
        ensures { Gives (λ x. x) misfit_of result
            (row_after self.now.form self.now.changes (types.view kind.now)
            (last_key before.now rows.now) (view datum)) }
    {
        let row = self.read(alloc, kind, datum)?;
        if !may_follow(self.changes, last_key(before, rows), &row.key) {
            return Err(Misfit::Bad);
        }
        Ok(row)
    }

    /// The row that a datum is.
    fn read(&self, alloc: Global, kind: &AvroType, datum: Datum) -> Result<Stamped, Misfit>
        requires of_kind { Some self.now ≡ reader_in self.now.form self.now.changes (types.view kind.now) }
        requires of_type { HasType (types.view kind.now) (view datum) }
        ensures { Gives (λ x. x) misfit_of result
            (row_in self.now.form self.now.changes (types.view kind.now) (view datum)) }
    {
        match self.fields.read(alloc, kind, datum)? {
            Some(values) => self.read_row(alloc, values),
            None => Err(Misfit::Bad),
        }
    }

    /// The row of the values of the fields.
    fn read_row(&self, alloc: Global, values: Vec<Datum>) -> Result<Stamped, Misfit>
        ensures { Gives (λ x. x) misfit_of result
            (row_of self.now.form self.now.changes self.now.columns self.now.keys (map view values.items)) }
    {
        let mut left = values.into_iter();
        let seq = read_sequence(self.changes, &mut left)?;
        let kind = read_kind(&mut left)?;
        let row = read_values(alloc, self.columns.as_slice(), &mut left)?;
        let keys = read_values(alloc, self.keys.as_slice(), &mut left)?;
        if !agree(&self.form.places, &row, &keys) {
            return Err(Misfit::Bad);
        }
        let kind = row_kind(alloc, self.changes, self.form.engine, kind)?;
        let row = Row::new(row);
        Ok(Stamped {
            key: own_key(alloc, &self.form, &row, keys)?,
            seq,
            kind,
            row,
        })
    }
}

/// The fields of a row in records of a type, unless one is missing. Where names of fields don't differ, which no
/// schema's rules allow, the answer is out of memory.
fn select(alloc: Global, kind: &AvroType, form: &TableForm) -> Result<Option<Selection>, AllocError>
    ensures { IfOk result (λ found. found ≡ indexes_in (row_fields form.now) (types.view kind.now)) }
{
    let names = form.row_names(alloc)?;
    if !all_differ(&names) {
        return Err(AllocError);
    }
    Selection::of(alloc, kind, &names)
}

/// The refusal of the file at a path, where a datum of the block at an offset has this misfit.
fn refusal_of(
    alloc: Global,
    path: &str,
    offset: usize,
    misfit: Misfit,
) -> Result<Refusal, AllocError>
    ensures refusal { IfOk result (λ e. e ≡ misfit_refusal path.now offset misfit) }
    ensures some { IfOk result (λ e. misfit_of misfit ≡ Some misfit) }
{
    match misfit {
        Misfit::Memory => Err(AllocError),
        Misfit::Bad => Ok(Refusal::Damaged {
            path: Txt::from_str(alloc, path)?,
            place: offset as u64,
        }),
        Misfit::Unsupported { what, text } => Ok(Refusal::Unsupported { what, text }),
    }
}

/// The number of a row that the next datum is.
fn read_sequence(changes: bool, left: &mut IntoIter<Datum, Global>) -> Result<u64, Misfit>
    ensures { Takes (λ n. n) (map view (into_iter_items left.new)) result
        (first_read (sequence_in changes) (map view (into_iter_items left.old))) }
{
    match left.next() {
        Some(datum) => sequence_of(changes, &datum).ok_or(Misfit::Bad),
        None => Err(Misfit::Bad),
    }
}

/// The number of a row that a datum is; in a changelog file each long is one.
fn sequence_of(changes: bool, datum: &Datum) -> Option<u64>
    ensures { result ≡ number_in changes (view datum.now) }
{
    let number = read_long(datum)?;
    if changes {
        return Some(nearest_sequence(number));
    }
    let number = u64::try_from(number).ok()?;
    if number <= MOST_SEQUENCE {
        Some(number)
    } else {
        None
    }
}

/// The sequence number that is nearest to a number.
fn nearest_sequence(number: i64) -> u64
    ensures { result ≡ nearest_sequence number }
{
    match u64::try_from(number) {
        Ok(number) => number.min(MOST_SEQUENCE),
        Err(_) => 0,
    }
}

/// The kind that the next datum is the number of.
fn read_kind(left: &mut IntoIter<Datum, Global>) -> Result<Kind, Misfit>
    ensures { Takes (λ k. k) (map view (into_iter_items left.new)) result
        (first_read kind_in (map view (into_iter_items left.old))) }
{
    match left.next() {
        Some(datum) => kind_of(&datum).ok_or(Misfit::Bad),
        None => Err(Misfit::Bad),
    }
}

/// The kind that a datum is the number of.
fn kind_of(datum: &Datum) -> Option<Kind>
    ensures { result ≡ code_in (view datum.now) }
{
    Kind::from_code(i64::from(read_int(datum)?))
}

/// The values that the next data are, one for each field.
fn read_values(
    alloc: Global,
    slots: &[Slot],
    left: &mut IntoIter<Datum, Global>,
) -> Result<Vec<Value>, Misfit>
    ensures { Takes (λ v. v.items) (map view (into_iter_items left.new)) result
        (values_in slots.now (map view (into_iter_items left.old))) }
{
    let mut values = Vec::with_capacity(alloc, slots.len())?;
    for slot in slots {
        values.push(read_first(*slot, left)?)?;
    }
    Ok(values)
}

/// The value that the next datum is.
fn read_first(slot: Slot, left: &mut IntoIter<Datum, Global>) -> Result<Value, Misfit>
    ensures { Takes (λ v. v) (map view (into_iter_items left.new)) result
        (first_read (value_in slot) (map view (into_iter_items left.old))) }
{
    match left.next() {
        Some(datum) => read_value(slot, datum),
        None => Err(Misfit::Bad),
    }
}

/// The kind of a row; a changelog has all kinds.
fn row_kind(alloc: Global, changes: bool, engine: EngineKind, kind: Kind) -> Result<Kind, Misfit>
    ensures { Gives (λ k. k) misfit_of result (row_kind changes engine kind) }
{
    if changes {
        return Ok(kind);
    }
    match engine {
        EngineKind::Deduplicate => Ok(kind),
        EngineKind::FirstRow => unless_retracts(alloc, kind, kind),
        _ => unless_retracts(alloc, kind, Kind::Insert),
    }
}

/// The kind that is kept of one that adds; one that retracts isn't supported.
fn unless_retracts(alloc: Global, kind: Kind, kept: Kind) -> Result<Kind, Misfit>
    ensures { Gives (λ k. k) misfit_of result (unless_retracts kind kept) }
{
    if !kind.retracts() {
        return Ok(kept);
    }
    Err(Misfit::Unsupported {
        what: Txt::from_str(alloc, "_VALUE_KIND")?,
        text: Txt::from_str(alloc, kind_text(kind))?,
    })
}

/// The text of a kind.
fn kind_text(kind: Kind) -> &'static str
    ensures { result.now ≡ kind_text kind }
{
    match kind {
        Kind::Insert => "+I",
        Kind::UpdateBefore => "-U",
        Kind::UpdateAfter => "+U",
        Kind::Delete => "-D",
    }
}
