//! An opened file in which keys are looked for.

ghost use Rattle.std.specs.Prelude.{◌≡◌, ◌<◌, ◌≤◌, IfErr, IfOk, Ok, OnOk, false, length, true};
ghost use Rattle.std.specs.Ordering.{eq_by_cmp};
ghost use Rattle.pm_values.specs.Order.{key_cmp};
ghost use Rattle.pm_run.specs.Reader.{FailsAt, UnlessMemory};
ghost use Rattle.pm_lookup.specs.Looking.{Finds, StopsFor, reaches, row_of_key};
ghost use Rattle.pm_lookup.specs.File.{ComesTo, HoldsOrEnds, IsOpen, is_below, stops_in};

use pm_run_reader::RunReader;
use pm_values::{Key, Refusal, Stamped};
use std::alloc::{AllocError, Global};
use std::cmp::Ordering;

/// The rows of a block, and the offset after it.
#[derive(Drop)]
pub(crate) struct Held {
    pub(crate) rows: Vec<Stamped>,
    pub(crate) next: usize,
}

/// A file with the offset at which looking goes on, the block there, if it was read, and the key that was asked for
/// last where blocks were passed.
pub(crate) struct OpenFile {
    pub(crate) reader: RunReader,
    pub(crate) begins: usize,
    pub(crate) held: Option<Held>,
    pub(crate) passed: Option<Key>,
}

impl Drop for OpenFile {
    fn drop(self) {
        let OpenFile {
            reader,
            begins,
            held,
            passed,
        } = self;
    }
}

impl OpenFile {
    /// A file of which no block was read.
    pub(crate) fn new(reader: RunReader) -> OpenFile
        ensures same { result.reader ≡ reader }
        ensures known { IsOpen result }
    {
        let begins = reader.first();
        OpenFile {
            reader,
            begins,
            held: None,
            passed: None,
        }
    }

    /// The row of a key, where the file has one.
    pub(crate) fn find(&mut self, alloc: Global, key: &Key) -> Result<Option<Stamped>, Refusal>
        requires { IsOpen self.old }
        ensures same { self.new.reader ≡ self.old.reader }
        ensures known { IsOpen self.new }
        ensures finds { Finds self.old.reader.opened key.now result }
    {
        self.go_back(key);
        while !self.stops(alloc, key)? {
            self.pass(alloc, key)?;
        }
        Ok(self.found_here(alloc, key)?)
    }

    /// The row of a key, where looking for it stops.
    fn found_here(&self, alloc: Global, key: &Key) -> Result<Option<Stamped>, AllocError>
        requires holds { HoldsOrEnds self.now.reader.opened self.now.begins self.now.held }
        requires stops { stops_in key.now self.now.held ≡ true }
        ensures { IfOk result (λ found. StopsFor self.now.reader.opened key.now self.now.begins (Ok found)) }
    {
        match &self.held {
            Some(held) => found_in(alloc, held.rows.as_slice(), key),
            None => Ok(None),
        }
    }

    /// Goes back to the first block where the key is below the one that was asked for.
    fn go_back(&mut self, key: &Key)
        requires { IsOpen self.old }
        ensures same { self.new.reader ≡ self.old.reader }
        ensures known { IsOpen self.new }
        ensures comes { ComesTo self.new.reader.opened key.now self.new.begins }
    {
        if is_below(key, &self.passed) {
            self.begins = self.reader.first();
            self.held = None;
            self.passed = None;
        }
    }

    /// Lets the block in hand go. It is read again where looking goes on there.
    pub(crate) fn let_go(&mut self)
        ensures same { self.new.reader ≡ self.old.reader }
        ensures known { IsOpen self.old → IsOpen self.new }
    {
        self.held = None;
    }

    /// Reads the block where looking goes on, if it wasn't read, and answers whether looking for the key stops there.
    fn stops(&mut self, alloc: Global, key: &Key) -> Result<bool, Refusal>
        requires { IsOpen self.old }
        ensures same { self.new.reader ≡ self.old.reader }
        ensures begins { self.new.begins ≡ self.old.begins }
        ensures known { IsOpen self.new }
        ensures stops { IfOk result (λ is. is ≡ stops_in key.now self.new.held) }
        ensures holds { OnOk result (HoldsOrEnds self.new.reader.opened self.new.begins self.new.held) }
        ensures refuses { IfErr result (λ e. UnlessMemory e (FailsAt self.old.reader.opened self.old.begins e)) }
    {
        if self.held.is_none() {
            self.held = read_at(alloc, &self.reader, self.begins)?;
        }
        match &self.held {
            Some(held) => Ok(reaches(held.rows.as_slice(), key)),
            None => Ok(true),
        }
    }

    /// Goes on after the block in hand.
    fn pass(&mut self, alloc: Global, key: &Key) -> Result<(), AllocError>
        requires known { IsOpen self.old }
        requires below { stops_in key.now self.old.held ≡ false }
        requires comes { ComesTo self.old.reader.opened key.now self.old.begins }
        ensures same { self.new.reader ≡ self.old.reader }
        ensures known { IsOpen self.new }
        ensures comes { OnOk result (ComesTo self.new.reader.opened key.now self.new.begins) }
        ensures further { OnOk result (self.old.begins < self.new.begins) }
    {
        let passed = key.copy(alloc)?;
        if let Some(held) = self.held.take() {
            self.begins = held.next;
            self.passed = Some(passed);
        }
        Ok(())
    }
}

/// The block at an offset, or none at the end.
fn read_at(alloc: Global, reader: &RunReader, offset: usize) -> Result<Option<Held>, Refusal>
    requires { offset ≤ length reader.now.opened.file.bytes }
    ensures holds { IfOk result (λ held. HoldsOrEnds reader.now.opened offset held) }
    ensures refuses { IfErr result (λ e. UnlessMemory e (FailsAt reader.now.opened offset e)) }
{
    match reader.block_at(alloc, offset)? {
        Some((rows, next)) => Ok(Some(Held { rows, next })),
        None => Ok(None),
    }
}

/// Whether the key is below another, if there is one.
fn is_below(key: &Key, passed: &Option<Key>) -> bool
    ensures { result ≡ is_below key.now passed.now }
{
    match passed {
        Some(passed) => key.cmp(passed) == Ordering::Less,
        None => false,
    }
}

/// Whether the last key of the rows isn't below the key.
fn reaches(rows: &[Stamped], key: &Key) -> bool
    ensures { result ≡ reaches key.now rows.now }
{
    match rows.last() {
        Some(row) => !row.key.cmp(key).is_lt(),
        None => false,
    }
}

/// The first of the rows that has the key, in memory of its own.
fn found_in(alloc: Global, rows: &[Stamped], key: &Key) -> Result<Option<Stamped>, AllocError>
    ensures { IfOk result (λ found. found ≡ row_of_key key.now rows.now) }
{
    match rows.iter().find(|row| has_key(row, key)) {
        Some(row) => Ok(Some(copied_row(alloc, row)?)),
        None => Ok(None),
    }
}

/// Whether a row has the key.
fn has_key(row: &Stamped, key: &Key) -> bool
    ensures { result ≡ eq_by_cmp key_cmp key.now row.now.key }
{
    key.cmp(&row.key) == Ordering::Equal
}

/// An equal row.
fn copied_row(alloc: Global, row: &Stamped) -> Result<Stamped, AllocError>
    ensures { IfOk result (λ copy. copy ≡ row.now) }
{
    Ok(Stamped {
        key: row.key.copy(alloc)?,
        seq: row.seq,
        kind: row.kind,
        row: row.row.copy(alloc)?,
    })
}
