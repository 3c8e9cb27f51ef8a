//! What the calls of `snapshots` show.

ghost use Rattle.std.specs.Prelude.{◌≡◌, ◌⊎◌, List, Result, Err};
ghost use Rattle.pm_machine.specs.Trace.{Event};
ghost use Rattle.pm_snapshots.specs.declared.line.SnapshotLine.{SnapshotLine};
ghost use Rattle.pm_values.specs.declared.refusal.Refusal.{Refusal};
ghost use Rattle.pm_values.specs.declared.refusal.Refusal.TheVariants as refusals;
ghost use Rattle.pm_command_snapshots.specs.Snapshots.{DidSnapshots};

/// The same calls show one answer at most, but that memory may have run out. So each other answer comes exactly where
/// the calls are those that it names.
pub fn one_answer_law()
    ensures { (own : List Event) (one other : Result (List SnapshotLine) Refusal) → DidSnapshots one own
        → DidSnapshots other own → (one ≡ other) ⊎ ((one ≡ Err refusals.Memory) ⊎ (other ≡ Err refusals.Memory)) }
{}
