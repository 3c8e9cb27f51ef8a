//! A source and a sink over std's readers and writers. Their content isn't known; faults are counted.
ghost use Rattle.std.specs.Prelude.{◌≡◌, ℕ, ◌<◌, ◌≤◌, length, None, Ok, IfOk, OnErr, is_err, if◌then◌else◌};
ghost use Rattle.std.specs.Io.KnownBytes.{ReadConsumes, WriteAppends};
ghost use Rattle.pm_base.specs.Faults.{one_more, Rose};
ghost use Rattle.pm_io.specs.Standard.{source_view, sink_view};

use crate::{Failed, Sink, Source};
use std::io::{ErrorKind, Read, Write};
use std::marker::Model;

/// How often a call that a signal interrupted is made again before it counts as a fault.
const TRIES: u32 = 1000;

/// A source over a reader.
pub struct StdSource<R: Read> {
    reader: R,
    faults: u64,
}

impl<R: Read + Drop> Drop for StdSource<R> {
    fn drop(self) {
        let StdSource { reader, faults } = self;
    }
}

impl<R: Read> Model for StdSource<R> {
    ghost use Rattle.pm_io.specs.Standard.{ReaderView};

    ghost Value = { ReaderView };

    ghost view = { λ s. record { left = R.remaining s.reader; faults = s.faults } };
}

impl<R: Read> StdSource<R> {
    /// Reads from this reader.
    pub fn new(reader: R) -> StdSource<R>
        ensures left { result.left ≡ R.remaining reader }
        ensures faults { result.faults ≡ 0 }
    {
        StdSource { reader, faults: 0 }
    }
}

impl<R: Read> Source for StdSource<R> {
    ghost seen = { source_view };

    fn read(&mut self, into: &mut [u8]) -> Result<usize, Failed>
        ensures count { IfOk result (λ n. n ≤ length into.old) }
        ensures failed { OnErr result (Rose self.old.faults self.new.faults) }
        ensures later { self.old.faults ≤ self.new.faults }
        ensures faults { self.new.faults ≡ (if is_err result then one_more self.old.faults else self.old.faults) }

        // The bytes are the reader's, none only at its end; a failed read took none of them.
        ensures reads { ReadConsumes self.old.left self.new.left result into.new }
    {
        match read_again(&mut self.reader, into) {
            Ok(count) => Ok(count),
            Err(_) => Err(fault(&mut self.faults)),
        }
    }
}

/// A sink over a writer that holds nothing back: what a buffer keeps counts as taken.
pub struct StdSink<W: Write> {
    writer: W,
    faults: u64,
}

impl<W: Write + Drop> Drop for StdSink<W> {
    fn drop(self) {
        let StdSink { writer, faults } = self;
    }
}

impl<W: Write> Model for StdSink<W> {
    ghost use Rattle.pm_io.specs.Standard.{WriterView};

    ghost Value = { WriterView };

    ghost view = { λ s. record { has = W.contents s.writer; faults = s.faults } };
}

impl<W: Write> StdSink<W> {
    /// Writes to this writer.
    pub fn new(writer: W) -> StdSink<W>
        ensures has { result.has ≡ W.contents writer }
        ensures faults { result.faults ≡ 0 }
    {
        StdSink { writer, faults: 0 }
    }
}

impl<W: Write> Sink for StdSink<W> {
    ghost seen = { sink_view };

    fn write(&mut self, bytes: &[u8]) -> Result<usize, Failed>
        ensures count { IfOk result (λ n. n ≤ length bytes.now) }
        ensures stuck { result ≡ Ok 0 → 0 < length bytes.now → Rose self.old.faults self.new.faults }
        ensures failed { OnErr result (Rose self.old.faults self.new.faults) }
        ensures later { self.old.faults ≤ self.new.faults }
        ensures faults { self.new.faults ≡ (if is_err result then one_more self.old.faults else self.old.faults) }

        // As many bytes as it answers went to the writer; a failed write took none of them.
        ensures writes { WriteAppends self.old.has self.new.has result bytes.now }
    {
        match write_again(&mut self.writer, bytes) {
            Ok(count) => Ok(count),
            Err(_) => Err(fault(&mut self.faults)),
        }
    }
}

/// Reads, and reads again where a signal interrupted it.
fn read_again<R: Read>(reader: &mut R, into: &mut [u8]) -> Result<usize, Failed>
    ensures count { IfOk result (λ n. n ≤ length into.old) }
    ensures reads { ReadConsumes (R.remaining reader.old) (R.remaining reader.new) result into.new }
{
    for _ in 0..TRIES {
        match reader.read(into) {
            Ok(count) => return Ok(count),
            Err(error) if error.kind() == ErrorKind::Interrupted => {}
            Err(_) => return Err(Failed),
        }
    }
    Err(Failed)
}

/// Writes, and writes again where a signal interrupted it. To take none of some bytes is a fault.
fn write_again<W: Write>(writer: &mut W, bytes: &[u8]) -> Result<usize, Failed>
    ensures count { IfOk result (λ n. n ≤ length bytes.now) }
    ensures some { result ≡ Ok 0 → length bytes.now ≡ 0 }
    ensures writes { WriteAppends (W.contents writer.old) (W.contents writer.new) result bytes.now }
{
    for _ in 0..TRIES {
        match writer.write(bytes) {
            Ok(0) if !bytes.is_empty() => return Err(Failed),
            Ok(count) => return Ok(count),
            Err(error) if error.kind() == ErrorKind::Interrupted => {}
            Err(_) => return Err(Failed),
        }
    }
    Err(Failed)
}

/// Counts a fault.
fn fault(faults: &mut u64) -> Failed
    ensures faults { faults.new ≡ one_more faults.old }
    ensures later { faults.old ≤ faults.new }
{
    *faults = faults.saturating_add(1);
    Failed
}
