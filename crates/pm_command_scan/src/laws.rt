//! What the calls of `scan` show.

ghost use Rattle.std.specs.Prelude.{◌≡◌, ◌⊎◌, ℕ, List, Option, Result, Err};
ghost use Rattle.pm_machine.specs.Trace.{Event};
ghost use Rattle.pm_scan.specs.AllCalls.{PrintAlike};
ghost use Rattle.pm_values.specs.declared.refusal.Refusal.{Refusal};
ghost use Rattle.pm_values.specs.declared.refusal.Refusal.TheVariants as refusals;
ghost use Rattle.pm_command_scan.specs.Scan.{DidScan};

/// The same calls show one answer at most, but that memory may have run out, and that their text is one of those that
/// the same runs print. So each refusal comes exactly where the calls are those that it names.
pub fn one_answer_law()
    ensures { (at : Option ℕ) (own : List Event) (one other : Result (List ℕ) Refusal) → DidScan at one own
        → DidScan at other own
        → (one ≡ other)
        ⊎ ((one ≡ Err refusals.Memory) ⊎ ((other ≡ Err refusals.Memory) ⊎ PrintAlike one other)) }
{
    pm_scan::one_answer_law();
}
