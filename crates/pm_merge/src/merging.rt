//! Runs that are made into one run, row by row.

ghost use Rattle.std.specs.Prelude.{◌≡◌, ◌≢◌, ◌+◌, ◌≤◌, List, None, Some, IfErr, IfOk, OnErr, OnOk, length, map};
ghost use Rattle.std.specs.Prelude.{option_map, option_to_list};
ghost use Rattle.std.specs.declared.cmp.Ordering.TheVariants.{Equal};
ghost use Rattle.std.specs.Vec.{vec_len};
ghost use Rattle.pm_engine.specs.Meaning.{Meaning};
ghost use Rattle.pm_engine.specs.Needed.{raised};
ghost use Rattle.std.specs.List.{AllByRecursion};
ghost use Rattle.pm_merge.specs.Merging.{AllFit, Chooses, CombineFirst, GivesOne, HasLeft, HaveNoRow};
ghost use Rattle.pm_merge.specs.Merging.{first_refusal, rows_left};
ghost use Rattle.pm_merge.specs.Source.{Rest};
ghost use Rattle.pm_row_slots.specs.Slot.{OrdersFirst, number_of};
ghost use Rattle.pm_schema.specs.declared.schema.TableSchema.{TableSchema};
ghost use Rattle.pm_values.specs.declared.refusal.Refusal.TheVariants.{Memory};

use crate::place::RowPlace;
use crate::source::RowSource;
use pm_engine::{MergeEngine, Needed, combined};
use pm_values::Refusal;
use std::alloc::{AllocError, Global};
use std::cmp::Ordering;
use std::mem;

/// No row was given: the cause stands beside the answer, which so fits into a register.
#[derive(Clone, Copy)]
pub struct Stopped;

impl From<AllocError> for Stopped {
    fn from(_e: AllocError) -> Stopped {
        Stopped
    }
}

/// No row, or the rows of one source, or of an older and a newer one that are merged, with a place for the first row of
/// each. These are in boxes, so that a row is moved by a pointer.
#[derive(Drop)]
pub enum Merging<P, S> {
    Nothing,
    One(S),
    Two {
        older: Box<Merging<P, S>>,
        newer: Box<Merging<P, S>>,
        first_older: Box<P>,
        first_newer: Box<P>,
    },
}

impl<P: RowPlace, S: RowSource<P>> Merging<P, S> {
    /// The merge of sources, the oldest first. It takes time and memory by the number of sources, and asks none for a
    /// row yet.
    pub fn of(alloc: Global, older_first: Vec<S>) -> Result<Merging<P, S>, AllocError>
        ensures left { IfOk result (λ merging. (m : Meaning)
            → HasLeft m P.held S.rest merging (map S.rest older_first.items)) }
        ensures fits { IfOk result (λ merging. (table : TableSchema)
            → AllByRecursion (λ s. S.fits s table) older_first.items
            → AllFit (λ p. P.fits p table) (λ s. S.fits s table) merging) }
    {
        let mut sources = older_first;
        let half = sources.len() / 2;
        if half == 0 {
            return Ok(only(sources));
        }
        let newer = sources.split_off(half)?;
        let older = Merging::of(alloc, sources)?;
        let newer = Merging::of(alloc, newer)?;
        Ok(Merging::Two {
            older: Box::new(alloc, older)?,
            newer: Box::new(alloc, newer)?,
            first_older: Box::new(alloc, P::empty(alloc))?,
            first_newer: Box::new(alloc, P::empty(alloc))?,
        })
    }

    /// Puts the next row into an empty place, or none at the end, in about as many comparisons as the number of sources
    /// can be halved: what the first rows of the least key are combined to. A source's refusal comes where its next row
    /// would have to be known, and then no row stands in the place. Where memory runs out, nothing is said of what is
    /// left.
    pub fn fill<E: MergeEngine>(
        &mut self,
        alloc: Global,
        engine: &E,
        slot: &mut Box<P>,
    ) -> Result<(), Refusal>
        requires { P.held slot.old.value ≡ None }
        ensures gives { OnOk result ((rests : List Rest) → HasLeft (E.meaning engine.now) P.held S.rest self.old rests
            → (left : List Rest) × GivesOne (E.meaning engine.now) rests (P.held slot.new.value) left
            × HasLeft (E.meaning engine.now) P.held S.rest self.new left) }
        ensures fewer { OnOk result
            (length (option_to_list (P.held slot.new.value)) + rows_left P.held S.rest self.new
            ≤ rows_left P.held S.rest self.old) }
        ensures fits { OnOk result ((table : TableSchema) → P.fits slot.old.value table
            → AllFit (λ p. P.fits p table) (λ s. S.fits s table) self.old
            → P.fits slot.new.value table × AllFit (λ p. P.fits p table) (λ s. S.fits s table) self.new) }
        ensures refuses { IfErr result (λ e. e ≢ Memory → (rests : List Rest)
            → HasLeft (E.meaning engine.now) P.held S.rest self.old rests → first_refusal rests ≡ Some e) }
        ensures none { IfErr result (λ e. e ≢ Memory → P.held slot.new.value ≡ None) }
    {
        let mut cause = Refusal::Memory;
        match self.put_next(alloc, engine, slot, &mut cause) {
            Ok(()) => Ok(()),
            Err(_) => Err(cause),
        }
    }

    /// The same, with a source's refusal beside the answer, so that none is made for a row that is given.
    pub fn put_next<E: MergeEngine>(
        &mut self,
        alloc: Global,
        engine: &E,
        slot: &mut Box<P>,
        cause: &mut Refusal,
    ) -> Result<(), Stopped>
        requires none { P.held slot.old.value ≡ None }
        requires memory { cause.old ≡ Memory }
        ensures gives { OnOk result ((rests : List Rest) → HasLeft (E.meaning engine.now) P.held S.rest self.old rests
            → (left : List Rest) × GivesOne (E.meaning engine.now) rests (P.held slot.new.value) left
            × HasLeft (E.meaning engine.now) P.held S.rest self.new left) }
        ensures fewer { OnOk result
            (length (option_to_list (P.held slot.new.value)) + rows_left P.held S.rest self.new
            ≤ rows_left P.held S.rest self.old) }
        ensures fits { OnOk result ((table : TableSchema) → P.fits slot.old.value table
            → AllFit (λ p. P.fits p table) (λ s. S.fits s table) self.old
            → P.fits slot.new.value table × AllFit (λ p. P.fits p table) (λ s. S.fits s table) self.new) }
        ensures memory { OnOk result (cause.new ≡ Memory) }
        ensures refuses { OnErr result (cause.new ≢ Memory → (rests : List Rest)
            → HasLeft (E.meaning engine.now) P.held S.rest self.old rests → first_refusal rests ≡ Some cause.new) }
        ensures leaves { OnErr result (cause.new ≢ Memory → P.held slot.new.value ≡ None) }
    {
        match self {
            Merging::Nothing => Ok(()),
            Merging::One(source) => match source.fill(alloc, slot.as_mut()) {
                Ok(()) => Ok(()),
                Err(refusal) => {
                    *cause = refusal;
                    Err(Stopped)
                }
            },
            Merging::Two {
                older,
                newer,
                first_older,
                first_newer,
            } => {
                if first_older.is_empty() {
                    older.put_next(alloc, engine, first_older, cause)?;
                    let_go(older, first_older);
                }
                if first_newer.is_empty() {
                    newer.put_next(alloc, engine, first_newer, cause)?;
                    let_go(newer, first_newer);
                }
                Ok(choose(alloc, engine, first_older, first_newer, slot)?)
            }
        }
    }
}

/// Lets a side go of which nothing is left, as no row stands first, so that it costs nothing from then on.
#[inline(always)]
fn let_go<P: RowPlace, S: RowSource<P>>(side: &mut Box<Merging<P, S>>, first: &Box<P>)
    ensures left { (m : Meaning) (rests : List Rest) → (P.held first.now.value ≡ None → HaveNoRow rests
        × (first_refusal rests ≡ None)) → HasLeft m P.held S.rest side.old.value rests
        → HasLeft m P.held S.rest side.new.value rests }
    ensures fewer { rows_left P.held S.rest side.new.value ≤ rows_left P.held S.rest side.old.value }
    ensures fits { (table : TableSchema) → AllFit (λ p. P.fits p table) (λ s. S.fits s table) side.old.value
        → AllFit (λ p. P.fits p table) (λ s. S.fits s table) side.new.value }
{
    if first.is_empty() {
        **side = Merging::Nothing;
    }
}

/// Puts the row of the lower key into an empty place, or those of one key as one.
fn choose<P: RowPlace, E: MergeEngine>(
    alloc: Global,
    engine: &E,
    older: &mut Box<P>,
    newer: &mut Box<P>,
    slot: &mut Box<P>,
) -> Result<(), AllocError>
    requires { P.held slot.old.value ≡ None }
    ensures chooses { OnOk result (Chooses (E.meaning engine.now) (P.held older.old.value) (P.held newer.old.value)
        (P.held slot.new.value) (P.held older.new.value) (P.held newer.new.value)) }
    ensures fits { OnOk result ((table : TableSchema) → P.fits slot.old.value table → P.fits older.old.value table
        → P.fits newer.old.value table
        → P.fits slot.new.value table × P.fits older.new.value table × P.fits newer.new.value table) }
{
    match older.order(newer) {
        Some(Ordering::Less) => mem::swap(slot, older),
        Some(Ordering::Greater) => mem::swap(slot, newer),
        Some(Ordering::Equal) => join(alloc, engine, older, newer, slot)?,
        None => {}
    }
    Ok(())
}

/// Puts two rows of one key into an empty place, as one: the row that is needed where it is one alone, which is moved
/// by its pointer, and else what both are combined to.
fn join<P: RowPlace, E: MergeEngine>(
    alloc: Global,
    engine: &E,
    older: &mut Box<P>,
    newer: &mut Box<P>,
    slot: &mut Box<P>,
) -> Result<(), AllocError>
    requires none { P.held slot.old.value ≡ None }
    requires same { OrdersFirst (P.held older.old.value) (P.held newer.old.value) (Some Equal) }
    ensures combines { OnOk result (CombineFirst (E.meaning engine.now) (P.held older.old.value)
        (P.held newer.old.value) (P.held slot.new.value)) }
    ensures takes { OnOk result ((P.held older.new.value ≡ None) × (P.held newer.new.value ≡ None)) }
    ensures fits { OnOk result ((table : TableSchema) → P.fits slot.old.value table → P.fits older.old.value table
        → P.fits newer.old.value table
        → P.fits slot.new.value table × P.fits older.new.value table × P.fits newer.new.value table) }
{
    match engine.needed() {
        Needed::Older => keep(older, newer, slot),
        Needed::Newer => keep(newer, older, slot),
        Needed::Both => combine(alloc, engine, older.as_mut(), newer.as_mut(), slot.as_mut())?,
    }
    Ok(())
}

/// Puts the row that is needed into an empty place, with the greater number of both, and lets the other go.
fn keep<P: RowPlace>(needed: &mut Box<P>, other: &mut Box<P>, slot: &mut Box<P>)
    requires { P.held slot.old.value ≡ None }
    ensures keeps { P.held slot.new.value
        ≡ option_map (raised (number_of (P.held other.old.value))) (P.held needed.old.value) }
    ensures takes { (P.held needed.new.value ≡ None) × (P.held other.new.value ≡ None) }
    ensures fits { (table : TableSchema) → P.fits slot.old.value table → P.fits needed.old.value table
        → P.fits slot.new.value table × P.fits needed.new.value table × P.fits other.new.value table }
{
    needed.raise(other.number());
    other.clear();
    mem::swap(slot, needed);
}

/// Puts two rows of one key into an empty place, as one, and takes them from theirs. It isn't inlined, so that
/// `put_next` has no room for rows.
#[inline(never)]
fn combine<P: RowPlace, E: MergeEngine>(
    alloc: Global,
    engine: &E,
    older: &mut P,
    newer: &mut P,
    slot: &mut P,
) -> Result<(), AllocError>
    requires { P.held slot.old ≡ None }
    ensures combines { OnOk result
        (CombineFirst (E.meaning engine.now) (P.held older.old) (P.held newer.old) (P.held slot.new)) }
    ensures takes { OnOk result ((P.held older.new ≡ None) × (P.held newer.new ≡ None)) }
    ensures fits { OnOk result ((table : TableSchema) → P.fits slot.old table
        → P.fits slot.new table × P.fits older.new table × P.fits newer.new table) }
{
    if let (Some(older), Some(newer)) = (older.take(alloc)?, newer.take(alloc)?) {
        slot.put(combined(alloc, engine, older, newer)?);
    }
    Ok(())
}

/// The only source, or no row.
fn only<P: RowPlace, S: RowSource<P>>(sources: Vec<S>) -> Merging<P, S>
    requires { vec_len sources ≤ 1 }
    ensures left { (m : Meaning) → HasLeft m P.held S.rest result (map S.rest sources.items) }
    ensures fits { (table : TableSchema) → AllByRecursion (λ s. S.fits s table) sources.items
        → AllFit (λ p. P.fits p table) (λ s. S.fits s table) result }
{
    let mut sources = sources;
    match sources.pop() {
        Some(source) => Merging::One(source),
        None => Merging::Nothing,
    }
}
