//! A group's runs made into one.

ghost use Rattle.std.specs.Prelude.{◌≡◌, ◌≢◌, ◌+◌, ◌<◌, ◌≤◌, ◌^◌, ◌∷◌, [], ◌++◌, ℕ, All, IfErr, IfOk, None, OnOk, Some};
ghost use Rattle.std.specs.Prelude.{List, false, length, map, option_to_list, true};
ghost use Rattle.std.specs.List.{AllByRecursion};
ghost use Rattle.pm_schema.specs.declared.schema.TableSchema.{TableSchema as SchemaView};
ghost use Rattle.pm_values.specs.Names.{Naming};
ghost use Rattle.pm_values.specs.Order.{Values};
ghost use Rattle.pm_values.specs.declared.record.Stamped.{Stamped};
ghost use Rattle.pm_values.specs.declared.refusal.Refusal.TheVariants.{Memory};
ghost use Rattle.pm_engine.specs.Covers.{IsRising, row_of};
ghost use Rattle.pm_engine.specs.Meaning.{Meaning};
ghost use Rattle.pm_merge.specs.Merging.{runs_in};
ghost use Rattle.pm_run.specs.Form.{form_of};
ghost use Rattle.pm_run.specs.declared.run.RunFile.{RunFile as FileView};
ghost use Rattle.pm_run_bytes.specs.Lying.{HasContentOf};
ghost use Rattle.pm_run_writer.specs.Written.{CanEnd, HasFullFile, HasInHand, IsWriting};
ghost use Rattle.pm_compact.specs.Rewriting.{Asked, CanGive, GivesFile, HasGiven, asked_of, most_left};
ghost use Rattle.pm_compact.specs.Rewritten.{AreRewritten, DropsByKind, RefusesAfter, kept_rows};

use pm_engine::{MergeEngine, Stored, own_kind_law};
use pm_merge::{Merging, RowPlace, RowSource, given_law, merged_law, oldest_law};
use pm_row_slots::{PlacedRow, RowSlot};
use pm_run::RunFile;
use pm_run_bytes::WrittenPlace;
use pm_run_writer::{RunWriter, files_law};
use pm_schema::TableSchema;
use pm_values::{Kind, Names, Refusal, Row};
use std::alloc::{AllocError, Global};

/// How many rows a compacted file has at most.
const MOST_IN_FILE: usize = 65536;

/// A group's runs that are being made into one, file by file: what is left of them, and the file in hand.
#[derive(Drop)]
pub struct Rewriting<'b, S> {
    merging: Merging<WrittenPlace<'b>, S>,
    writer: RunWriter<'b>,
    drop: bool,
}

impl<'b, S: RowSource<WrittenPlace<'b>>> Rewriting<'b, S> {
    /// A group's runs, the oldest first, before they are made into files at a level; with `drop` without the droppable
    /// rows. It takes time and memory by the number of sources, and asks none for a row yet.
    pub fn begin(
        alloc: Global,
        schema: &TableSchema,
        older_first: Vec<S>,
        level: u32,
        drop: bool,
        names: &Names,
    ) -> Result<Rewriting<'b, S>, AllocError>
        requires rising { All IsRising (runs_in (map S.rest older_first.items)) }
        requires form { AllByRecursion (λ s. S.fits s schema.now) older_first.items }
        ensures none { IfOk result (λ w. (m : Meaning)
            → HasGiven m S.rest S.fits (asked_of schema.now level drop names.now (map S.rest older_first.items)) [] []
            names.now w) }
        ensures ready { IfOk result CanGive }
    {
        Ok(Rewriting {
            merging: Merging::of(alloc, older_first)?,
            writer: RunWriter::begin(alloc, schema, MOST_IN_FILE, level, names)?,
            drop,
        })
    }

    /// The next file of the run, or none where all were given. A source's refusal comes as it is, where its next row
    /// would have to be known. Out of memory is also answered where a row can't be written, as `RunWriter::put` says.
    /// After a refusal nothing is said of what it gives.
    pub fn next_file<E: MergeEngine>(
        &mut self,
        alloc: Global,
        engine: &E,
        names: &mut Names,
    ) -> Result<Option<RunFile>, Refusal>
        requires ready { CanGive self.old }
        requires by_kind { DropsByKind (E.meaning engine.now) }
        requires count { names.old.count < 18446744073709551615 }
        ensures gives { IfOk result (λ file. (asked : Asked) (given : List FileView)
            → HasGiven (E.meaning engine.now) S.rest S.fits asked given [] names.old self.old
            → GivesFile (E.meaning engine.now) S.rest S.fits asked given file names.new self.new) }
        ensures fewer { IfOk result (λ file. (asked : Asked) (given : List FileView)
            → HasGiven (E.meaning engine.now) S.rest S.fits asked given [] names.old self.old
            → length (option_to_list file) + most_left S.rest self.new ≤ most_left S.rest self.old) }
        ensures ready { OnOk result (CanGive self.new) }
        ensures refuses { IfErr result (λ e. e ≢ Memory → (asked : Asked) (given : List FileView)
            → HasGiven (E.meaning engine.now) S.rest S.fits asked given [] names.old self.old
            → RefusesAfter (E.meaning engine.now) asked.rests e) }
        ensures names { names.new ≡ record names.old { count = names.new.count } }
        ensures counted { names.old.count ≤ names.new.count }
        ensures taken { IfOk result (λ file. names.new.count ≡ names.old.count + length (option_to_list file)) }
    {
        given_law();
        merged_law();
        oldest_law();
        own_kind_law();
        files_law();
        let mut place = Box::new(alloc, WrittenPlace::empty(alloc))?;
        let mut cause = Refusal::Memory;
        loop {
            match self.merging.put_next(alloc, engine, &mut place, &mut cause) {
                Ok(()) => {}
                Err(_) => return Err(cause),
            }
            if place.slot.is_none() {
                return Ok(self.writer.finish(alloc, names)?);
            }
            let (writer, leaves_out) = (&mut self.writer, self.drop);
            let full = write_placed(alloc, engine, leaves_out, &mut place, writer)?;
            if full {
                return Ok(Some(self.writer.end(alloc, names)?));
            }
        }
    }
}

/// The files of the run that a group's runs become, all of them, the oldest first, at a level; with `drop` it lacks the
/// droppable rows. It refuses as `next_file` does.
pub fn rewrite<'b, E: MergeEngine, S: RowSource<WrittenPlace<'b>>>(
    alloc: Global,
    engine: &E,
    schema: &TableSchema,
    older_first: Vec<S>,
    level: u32,
    drop: bool,
    names: &mut Names,
) -> Result<Vec<RunFile>, Refusal>
    requires rising { All IsRising (runs_in (map S.rest older_first.items)) }
    requires form { AllByRecursion (λ s. S.fits s schema.now) older_first.items }
    requires by_kind { DropsByKind (E.meaning engine.now) }
    requires count { names.old.count < 2 ^ 62 }
    ensures files { IfOk result (λ files. AreRewritten schema.now (E.meaning engine.now) drop level names.old
        (map S.rest older_first.items) files.items) }
    ensures refuses { IfErr result (λ e. e ≢ Memory
        → RefusesAfter (E.meaning engine.now) (map S.rest older_first.items) e) }
    ensures names { names.new ≡ record names.old { count = names.new.count } }
    ensures counted { names.old.count ≤ names.new.count }
    ensures taken { IfOk result (λ files. names.new.count ≡ names.old.count + length files.items) }
{
    let mut rewriting = Rewriting::begin(alloc, schema, older_first, level, drop, names)?;
    let mut files = Vec::new(alloc);
    while let Some(file) = rewriting.next_file(alloc, engine, names)? {
        files.push(file)?;
    }
    Ok(files)
}

/// Writes the row of a place, which leaves it, unless it is left out, and answers whether the file in hand is full.
fn write_placed<'b, E: MergeEngine>(
    alloc: Global,
    engine: &E,
    drop: bool,
    place: &mut Box<WrittenPlace<'b>>,
    writer: &mut RunWriter<'b>,
) -> Result<bool, AllocError>
    requires by_kind { DropsByKind (E.meaning engine.now) }
    requires ready { IsWriting writer.old }
    ensures more { OnOk result ((s : SchemaView) (limit level : ℕ) (marker : List ℕ) (rows : List Stamped)
        (x : Stamped) → place.old.value.slot ≡ Some x
        → HasContentOf (form_of s) (Some x) place.old.value.content
        → HasInHand s limit level marker rows writer.old
        → HasInHand s limit level marker (rows ++ kept_rows (E.meaning engine.now) drop (x ∷ [])) writer.new) }
    ensures full { IfOk result (λ full. full ≡ true → HasFullFile writer.new) }
    ensures room { IfOk result (λ full. full ≡ false → IsWriting writer.new) }
    ensures ready { OnOk result (CanEnd writer.new) }
    ensures none { OnOk result (place.new.value.slot ≡ None) }
{
    if drop && is_droppable(alloc, engine, &place.slot) {
        place.slot.clear();
        return Ok(false);
    }
    let full = writer.put(alloc, place)?;
    Ok(full)
}

/// Whether the row of a place is droppable.
fn is_droppable<E: MergeEngine>(alloc: Global, engine: &E, place: &RowSlot) -> bool
    requires by_kind { DropsByKind (E.meaning engine.now) }
    ensures { (x : Stamped) → place.now ≡ Some x → result ≡ (E.meaning engine.now).drops (row_of x) }
{
    match place.row() {
        Some(PlacedRow::Lying(seen)) => drops(alloc, engine, seen.kind),
        Some(PlacedRow::Own(own)) => drops(alloc, engine, own.kind),
        None => false,
    }
}

/// Whether a stored row of the kind is droppable.
fn drops<E: MergeEngine>(alloc: Global, engine: &E, kind: Kind) -> bool
    requires by_kind { DropsByKind (E.meaning engine.now) }
    ensures { (row : Values) → result ≡ (E.meaning engine.now).drops (kind, row) }
{
    engine.droppable(&Stored {
        kind,
        row: Row::new(Vec::new(alloc)),
    })
}
