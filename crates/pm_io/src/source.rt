//! Where bytes come from.
ghost use Rattle.std.specs.Prelude.{◌≡◌, ◌<◌, ◌≤◌, length, Ok, IfOk, OnErr};
ghost use Rattle.pm_io.specs.Source.{SourceView, SourceFailed, SourceLater, Reads, without, IsAtEnd};

/// A read or a write failed.
#[derive(Clone, Copy)]
pub struct Failed;

/// A source of bytes. It may fail at any read, and may be read again then.
pub trait Source {
    /// The bytes that it has left, where they are known, and its count of faults.
    ghost seen: { Self → SourceView };

    /// Reads some bytes to the start of a buffer, and says how many; none only at the end.
    fn read(&mut self, into: &mut [u8]) -> Result<usize, Failed>
        ensures count { IfOk result (λ n. n ≤ length into.old) }
        ensures bytes { IfOk result (λ n. Reads (seen self.old) n into.old into.new) }
        ensures rest { IfOk result (λ n. (seen self.new).left ≡ without (seen self.old).left n) }
        ensures end { result ≡ Ok 0 → 0 < length into.old → IsAtEnd (seen self.old) }
        ensures kept { OnErr result ((seen self.new).left ≡ (seen self.old).left) }
        ensures failed { OnErr result (SourceFailed (seen self.old) (seen self.new)) }
        ensures later { SourceLater (seen self.old) (seen self.new) };
}
