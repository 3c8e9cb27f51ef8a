//! What is held of a line before it goes out, so that a short line goes out by one call.
ghost use Rattle.std.specs.Prelude.{◌≡◌, ◌↔◌, ◌+◌, ◌≤◌, [], ◌++◌, length, IsTrue, OnOk, OnErr};
ghost use Rattle.pm_base.specs.Known.{and_then};
ghost use Rattle.pm_io.specs.LineBuffer.{line_at, Fit, Writes};
ghost use Rattle.pm_io.specs.Sink.{OfferedAll, SinkFailed, SinkLater, TookPrefix};

use crate::{Sink, SinkFail, write_all};
use std::marker::Model;

/// How many bytes the longest line has that goes out by one call.
pub const LINE_ROOM: usize = 1024;

/// The bytes of a line that its sink hasn't been offered yet. It lies on the stack, and takes no memory.
#[derive(Drop)]
pub struct LineBuffer {
    bytes: [u8; LINE_ROOM],
    len: usize,
}

impl Model for LineBuffer {
    ghost use Rattle.std.specs.Prelude.{List, ℕ, ◌≤◌, take};
    ghost use Rattle.pm_io.specs.declared.line_buffer.TheConstants.{LINE_ROOM};

    ghost Value = { List ℕ };

    ghost view = { λ b. take b.len b.bytes };

    ghost invariant = { λ b. b.len ≤ LINE_ROOM };
}

impl LineBuffer {
    /// Holds nothing.
    pub fn new() -> LineBuffer
        ensures { result ≡ [] }
    {
        LineBuffer {
            bytes: [0; LINE_ROOM],
            len: 0,
        }
    }

    /// The bytes that are held.
    pub fn bytes(&self) -> &[u8]
        ensures { result.now ≡ self.now }
    {
        self.bytes.split_at(self.len).0
    }

    /// Holds these bytes, too.
    pub fn hold(&mut self, bytes: &[u8])
        requires { Fit self.old bytes.now }
        ensures { self.new ≡ self.old ++ bytes.now }
    {
        let end = self.len + bytes.len();
        self.bytes[self.len..end].copy_from_slice(bytes);
        self.len = end;
    }

    /// Whether so many bytes more can be held.
    fn has_room(&self, count: usize) -> bool
        ensures { IsTrue result ↔ (length self.now + count ≤ LINE_ROOM) }
    {
        count <= LINE_ROOM - self.len
    }

    /// Writes bytes after those that are held. As long as all of them can be held the sink isn't called.
    pub fn write<W: Sink>(&mut self, sink: &mut W, bytes: &[u8]) -> Result<(), SinkFail>
        ensures { Writes W.seen bytes.now (line_at self.old sink.old) (line_at self.new sink.new) result }
    {
        if self.has_room(bytes.len()) {
            self.hold(bytes);
            return Ok(());
        }
        self.flush(sink)?;
        if bytes.len() <= LINE_ROOM {
            self.hold(bytes);
            return Ok(());
        }
        write_all(sink, bytes)
    }

    /// Passes on what is held, by one `write_all`. Nothing is held then, whatever the sink took.
    pub fn flush<W: Sink>(&mut self, sink: &mut W) -> Result<(), SinkFail>
        ensures ok { OnOk result ((W.seen sink.new).taken ≡ and_then (W.seen sink.old).taken self.old) }
        ensures prefix { OnErr result (TookPrefix (W.seen sink.old).taken (W.seen sink.new).taken self.old) }
        ensures failed { OnErr result (SinkFailed (W.seen sink.old) (W.seen sink.new)) }
        ensures later { SinkLater (W.seen sink.old) (W.seen sink.new) }
        ensures calls { OfferedAll W.called self.old sink.old sink.new result }
        ensures none { self.new ≡ [] }
    {
        let result = write_all(sink, self.bytes());
        self.len = 0;
        result
    }
}
