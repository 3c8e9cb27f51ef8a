//! The lines of a source, read in chunks. No byte is looked at twice.
ghost use Rattle.std.specs.Prelude.{◌≡◌, ◌≢◌, ◌+◌, ◌<◌, ◌≤◌, [], ◌∷◌, ◌++◌, length, take, drop, true, false, Ok, None};
ghost use Rattle.std.specs.Prelude.{IfOk, IfSome, IfNone, OnOk, OnErr, IsErrOf, vec_len};
ghost use Rattle.pm_base.specs.Newline.{newline, IsUnbroken};
ghost use Rattle.pm_io.specs.Lines.{first_line, coming, to_come, IsLineOf, IsOverLimit};
ghost use Rattle.pm_io.specs.Source.{SourceFailed, SourceLater};
ghost use Rattle.pm_io.specs.declared.lines.LineFault.TheVariants.{Memory, Read};

use crate::chunk::Chunk;
use crate::{Failed, Source};
use memchr::memchr;
use std::alloc::{AllocError, Global};
use std::marker::Model;
use std::mem;

const NEWLINE: u8 = b'\n';

/// A line without its newline, and whether a newline ended it.
#[derive(Drop)]
pub struct Line {
    pub bytes: Vec<u8>,
    pub ended: bool,
}

/// Why no line was read.
#[derive(Clone, Copy)]
pub enum LineFault {
    Memory,
    Read,
    Long,
}

impl From<AllocError> for LineFault {
    ghost from_gives = { λ _ e. e ≡ Memory };

    fn from(_: AllocError) -> Self {
        LineFault::Memory
    }
}

impl From<Failed> for LineFault {
    ghost from_gives = { λ _ e. e ≡ Read };

    fn from(_: Failed) -> Self {
        LineFault::Read
    }
}

/// What is held of a source between two lines.
pub struct Lines {
    alloc: Global,
    begun: Vec<u8>,
    ahead: Chunk,
}

impl Drop for Lines {
    fn drop(self) {
        let Lines {
            alloc,
            begun,
            ahead,
        } = self;
    }
}

impl Model for Lines {
    ghost use Rattle.pm_io.specs.Lines.{Held};
    ghost use Rattle.pm_base.specs.Newline.{IsUnbroken};

    ghost Value = { Held };

    ghost view = { λ l. record { begun = l.begun.items; ahead = l.ahead } };

    ghost invariant = { λ l. IsUnbroken l.begun.items };
}

impl Lines {
    /// Holds nothing yet.
    pub fn new(alloc: Global) -> Lines
        ensures begun { result.begun ≡ [] }
        ensures ahead { result.ahead ≡ [] }
    {
        Lines {
            alloc,
            begun: Vec::new(alloc),
            ahead: Chunk::new(),
        }
    }

    /// The bytes of the line that a call began and did not answer.
    pub fn begun(&self) -> &[u8]
        ensures { result.now ≡ self.now.begun }
    {
        &self.begun
    }

    /// The next line of the source, of at most `max` bytes, or None at the end.
    ///
    /// After an `Err` nothing is lost, and the call may be made again. After `Long` the first `max + 1` bytes of the
    /// line are begun.
    pub fn read_line<S: Source>(
        &mut self,
        source: &mut S,
        max: usize,
    ) -> Result<Option<Line>, LineFault>
        // A line is the first one of what is to come, and the rest is still to come. None comes at the end.
        ensures line { IfOk result (λ found. IfSome found (λ line.
            IfSome (to_come self.old (S.seen source.old))
            (IsLineOf line.bytes.items line.ended (to_come self.new (S.seen source.new))))) }
        ensures end { result ≡ Ok None →
            IfSome (to_come self.old (S.seen source.old)) (λ bytes. bytes ≡ []) }
        ensures ended { result ≡ Ok None →
            to_come self.new (S.seen source.new) ≡ to_come self.old (S.seen source.old) }
        ensures within { IfOk result (λ found. IfSome found (λ line. length line.bytes.items ≤ max)) }
        ensures unbroken { IfOk result (λ found. IfSome found (λ line. IsUnbroken line.bytes.items)) }
        ensures fresh { OnOk result (self.new.begun ≡ []) }

        // The first max + 1 bytes of a line decide whether it is too long. Only a read for one of them fails the call.
        ensures long { IsErrOf result LineFault.Long →
            IfSome (to_come self.old (S.seen source.old)) (λ bytes. max < length (first_line bytes)) }
        ensures over { IsErrOf result LineFault.Long → IsOverLimit max self.old.begun self.new.begun }
        ensures read { IsErrOf result LineFault.Read → SourceFailed (S.seen source.old) (S.seen source.new) }
        ensures asked { IsErrOf result LineFault.Read →
            (self.new.ahead ≡ []) × (length self.new.begun ≤ max) }

        // No error loses a byte.
        ensures kept { OnErr result
            (to_come self.new (S.seen source.new) ≡ to_come self.old (S.seen source.old)) }
        ensures begun { IsUnbroken self.new.begun }
        ensures later { SourceLater (S.seen source.old) (S.seen source.new) }
    {
        read_into(self.alloc, &mut self.begun, &mut self.ahead, source, max)
    }
}

/// `read_line` over the parts of a `Lines`.
fn read_into<S: Source>(
    alloc: Global,
    begun: &mut Vec<u8>,
    ahead: &mut Chunk,
    source: &mut S,
    max: usize,
) -> Result<Option<Line>, LineFault>
    requires { IsUnbroken begun.old.items }
    ensures line { IfOk result (λ found. IfSome found (λ line.
        IfSome (coming begun.old.items ahead.old (S.seen source.old))
        (IsLineOf line.bytes.items line.ended (coming begun.new.items ahead.new (S.seen source.new))))) }
    ensures end { result ≡ Ok None →
        IfSome (coming begun.old.items ahead.old (S.seen source.old)) (λ bytes. bytes ≡ []) }
    ensures ended { result ≡ Ok None → coming begun.new.items ahead.new (S.seen source.new)
        ≡ coming begun.old.items ahead.old (S.seen source.old) }
    ensures within { IfOk result (λ found. IfSome found (λ line. length line.bytes.items ≤ max)) }
    ensures unbroken { IfOk result (λ found. IfSome found (λ line. IsUnbroken line.bytes.items)) }
    ensures fresh { OnOk result (begun.new.items ≡ []) }

    ensures long { IsErrOf result LineFault.Long →
        IfSome (coming begun.old.items ahead.old (S.seen source.old)) (λ bytes. max < length (first_line bytes)) }
    ensures over { IsErrOf result LineFault.Long → IsOverLimit max begun.old.items begun.new.items }
    ensures read { IsErrOf result LineFault.Read → SourceFailed (S.seen source.old) (S.seen source.new) }
    ensures asked { IsErrOf result LineFault.Read → (ahead.new ≡ []) × (length begun.new.items ≤ max) }

    ensures kept { OnErr result (coming begun.new.items ahead.new (S.seen source.new)
        ≡ coming begun.old.items ahead.old (S.seen source.old)) }
    ensures begun { IsUnbroken begun.new.items }
    ensures later { SourceLater (S.seen source.old) (S.seen source.new) }
{
    while begun.len() <= max {
        if !ahead.refill(source)? {
            return Ok(last_line(alloc, begun));
        }
        if take_piece(begun, ahead, max)? {
            let bytes = mem::replace(begun, Vec::new(alloc));
            return Ok(Some(Line { bytes, ended: true }));
        }
    }
    Err(LineFault::Long)
}

/// The line that the end of the source ends, if there is one.
fn last_line(alloc: Global, begun: &mut Vec<u8>) -> Option<Line>
    ensures none { IfNone result (begun.old.items ≡ []) }
    ensures some { IfSome result (λ line. (line.bytes.items ≡ begun.old.items)
        × (line.ended ≡ false) × (begun.old.items ≢ [])) }
    ensures after { begun.new.items ≡ [] }
{
    if begun.is_empty() {
        return None;
    }
    let bytes = mem::replace(begun, Vec::new(alloc));
    Some(Line {
        bytes,
        ended: false,
    })
}

/// Moves bytes to the line that was begun, up to a newline or the first byte above the limit. Answers whether the
/// newline came, which is left out.
fn take_piece(begun: &mut Vec<u8>, ahead: &mut Chunk, max: usize) -> Result<bool, AllocError>
    requires room { vec_len begun.old ≤ max }
    requires some { ahead.old ≢ [] }
    requires unbroken { IsUnbroken begun.old.items }
    ensures ended { result ≡ Ok true → begun.new.items ++ (newline ∷ ahead.new) ≡ begun.old.items ++ ahead.old }
    ensures within { result ≡ Ok true → vec_len begun.new ≤ max }
    ensures more { result ≡ Ok false → begun.new.items ++ ahead.new ≡ begun.old.items ++ ahead.old }
    ensures longer { result ≡ Ok false → (vec_len begun.old < vec_len begun.new) × (vec_len begun.new ≤ max + 1) }
    ensures unbroken { IsUnbroken begun.new.items }
    ensures err { OnErr result ((begun.new.items ≡ begun.old.items) × (ahead.new ≡ ahead.old)) }
{
    let room = (max - begun.len()).saturating_add(1);
    let bytes = ahead.bytes();
    let piece = bytes.split_at(room.min(bytes.len())).0;
    let len = piece.len();
    match newline_in(piece) {
        Some(index) => {
            begun.extend_from_slice(piece.split_at(index).0)?;
            ahead.advance(index + 1);
            Ok(true)
        }
        None => {
            begun.extend_from_slice(piece)?;
            ahead.advance(len);
            Ok(false)
        }
    }
}

/// The index of the first newline.
fn newline_in(bytes: &[u8]) -> Option<usize>
    ensures none { IfNone result (IsUnbroken bytes.now) }
    ensures index { IfSome result (λ index. index < length bytes.now) }
    ensures prefix { IfSome result (λ index. IsUnbroken (take index bytes.now)) }
    ensures rest { IfSome result (λ index.
        bytes.now ≡ take index bytes.now ++ (newline ∷ drop (index + 1) bytes.now)) }
{
    memchr(NEWLINE, bytes)
}
