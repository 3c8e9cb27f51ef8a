//! Bytes that were read ahead of a line.
ghost use Rattle.std.specs.Prelude.{◌≡◌, ◌≢◌, ◌≤◌, [], length, drop, true, false, Ok, OnErr};
ghost use Rattle.pm_base.specs.Known.{with_prefix};
ghost use Rattle.pm_io.specs.Source.{SourceFailed, SourceLater, IsAtEnd};

use crate::{Failed, Source};
use std::marker::Model;

/// How many bytes a chunk has room for.
const CHUNK_ROOM: usize = 65536;

/// Some bytes of a source, read at once and handed on in order.
#[derive(Drop)]
pub(crate) struct Chunk {
    bytes: [u8; CHUNK_ROOM],
    start: usize,
    end: usize,
}

impl Model for Chunk {
    ghost use Rattle.std.specs.Prelude.{List, ℕ, ◌-◌, ◌≤◌, take, drop};
    ghost use Rattle.pm_io.specs.declared.chunk.TheConstants.{CHUNK_ROOM};

    ghost Value = { List ℕ };

    ghost view = { λ c. take (c.end - c.start) (drop c.start c.bytes) };

    ghost invariant = { λ c. (c.start ≤ c.end) × (c.end ≤ CHUNK_ROOM) };
}

impl Chunk {
    /// Holds nothing.
    pub(crate) fn new() -> Chunk
        ensures { result ≡ [] }
    {
        Chunk {
            bytes: [0; CHUNK_ROOM],
            start: 0,
            end: 0,
        }
    }

    /// The bytes that were not handed on yet.
    pub(crate) fn bytes(&self) -> &[u8]
        ensures { result.now ≡ self.now }
    {
        &self.bytes[self.start..self.end]
    }

    /// Hands on the first `count` bytes.
    pub(crate) fn advance(&mut self, count: usize)
        requires { count ≤ length self.old }
        ensures { self.new ≡ drop count self.old }
    {
        self.start += count;
    }

    /// Whether there are bytes here, after one read where there were none.
    pub(crate) fn refill<S: Source>(&mut self, source: &mut S) -> Result<bool, Failed>
        ensures kept { with_prefix self.new (S.seen source.new).left
            ≡ with_prefix self.old (S.seen source.old).left }
        ensures none_at_fault { OnErr result (self.new ≡ []) }
        ensures some { result ≡ Ok true → self.new ≢ [] }
        ensures none { result ≡ Ok false → self.new ≡ [] }
        ensures end { result ≡ Ok false → IsAtEnd (S.seen source.new) }
        ensures failed { OnErr result (SourceFailed (S.seen source.old) (S.seen source.new)) }
        ensures later { SourceLater (S.seen source.old) (S.seen source.new) }
    {
        if self.start < self.end {
            return Ok(true);
        }
        self.start = 0;
        self.end = 0;
        self.end = source.read(&mut self.bytes)?;
        Ok(self.end > 0)
    }
}
