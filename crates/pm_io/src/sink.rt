//! Where bytes go.
ghost use Rattle.std.specs.Prelude.{◌≡◌, ℕ, ◌<◌, ◌≤◌, List, length, take, Result, Ok, IfOk, OnOk, OnErr};
ghost use Rattle.pm_base.specs.Known.{and_then};
ghost use Rattle.pm_io.specs.Sink.{SinkView, SinkFailed, SinkLater, TookPrefix, OfferedAll};
ghost use Rattle.pm_io.specs.declared.source.Failed.{Failed};

use crate::Failed;

/// Not all bytes were taken.
#[derive(Clone, Copy)]
pub struct SinkFail;

/// A sink of bytes. It may fail at any write.
pub trait Sink {
    /// The bytes that it took, where they are known, and its count of faults.
    ghost seen: { Self → SinkView };

    /// What a call with these bytes and this answer makes of it, as far as it tells.
    ghost called: { Self → List ℕ → Result ℕ Failed → Self → Type 0 } = { λ _ _ _ _. Unit {0} };

    /// Takes a prefix of the bytes, and says how many; to take none of some counts as a fault.
    fn write(&mut self, bytes: &[u8]) -> Result<usize, Failed>
        ensures count { IfOk result (λ n. n ≤ length bytes.now) }
        ensures bytes { IfOk result (λ n. (seen self.new).taken ≡ and_then (seen self.old).taken (take n bytes.now)) }
        ensures stuck { result ≡ Ok 0 → 0 < length bytes.now → SinkFailed (seen self.old) (seen self.new) }
        ensures kept { OnErr result ((seen self.new).taken ≡ (seen self.old).taken) }
        ensures failed { OnErr result (SinkFailed (seen self.old) (seen self.new)) }
        ensures later { SinkLater (seen self.old) (seen self.new) }
        ensures told { called self.old bytes.now result self.new };
}

/// Writes all bytes, or a prefix of them. Each call is offered all that are left.
pub fn write_all<W: Sink>(sink: &mut W, bytes: &[u8]) -> Result<(), SinkFail>
    ensures ok { OnOk result ((W.seen sink.new).taken ≡ and_then (W.seen sink.old).taken bytes.now) }
    ensures prefix { OnErr result (TookPrefix (W.seen sink.old).taken (W.seen sink.new).taken bytes.now) }
    ensures failed { OnErr result (SinkFailed (W.seen sink.old) (W.seen sink.new)) }
    ensures later { SinkLater (W.seen sink.old) (W.seen sink.new) }
    ensures calls { OfferedAll W.called bytes.now sink.old sink.new result }
{
    let mut rest = bytes;
    while !rest.is_empty() {
        match sink.write(rest) {
            Ok(0) | Err(_) => return Err(SinkFail),
            Ok(n) => rest = rest.split_at(n).1,
        }
    }
    Ok(())
}
