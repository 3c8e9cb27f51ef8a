//! What the calls of `write` show.

ghost use Rattle.std.specs.Prelude.{◌≡◌, ◌⊎◌, List, Result, Err};
ghost use Rattle.pm_machine.specs.Trace.{Event};
ghost use Rattle.pm_command.specs.declared.start.Start.{Start};
ghost use Rattle.pm_values.specs.declared.refusal.Refusal.{Refusal};
ghost use Rattle.pm_values.specs.declared.refusal.Refusal.TheVariants as refusals;
ghost use Rattle.pm_command_write.specs.declared.write.Written.{Written};
ghost use Rattle.pm_command_write.specs.declared.writer.Writer.{Writer};
ghost use Rattle.pm_command_write.specs.Write.{DidWrite, Lines};

/// The same calls show one answer at most, but that memory may have run out. So each other answer comes exactly where
/// the calls are those that it names.
pub fn one_answer_law()
    ensures { (start : Start) (w : Writer) (lines : Lines) (own : List Event) (one other : Result Written Refusal)
        → DidWrite start w lines one own → DidWrite start w lines other own
        → (one ≡ other) ⊎ ((one ≡ Err refusals.Memory) ⊎ (other ≡ Err refusals.Memory)) }
{
    pm_commit::one_answer_law();
}
