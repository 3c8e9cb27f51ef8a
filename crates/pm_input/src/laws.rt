//! What holds of the limits of all inputs.

ghost use Rattle.std.specs.Prelude.{◌≡◌, ℕ, List, ◌⊎◌};
ghost use Rattle.pm_input.specs.Limits.{IsWithin, IsFirstLimit};
ghost use Rattle.pm_input.specs.declared.limits.Limits.{Limits};
ghost use Rattle.pm_input.specs.declared.limits.LimitKind.{LimitKind};

/// An input is within the limits, or it exceeds one of them first, and only that one.
pub fn limits_law()
    ensures one { (limits : Limits) (bytes : List ℕ)
        → IsWithin limits bytes ⊎ ((which : LimitKind) × IsFirstLimit limits which bytes) }
    ensures apart { (limits : Limits) (bytes : List ℕ) (which : LimitKind)
        → IsFirstLimit limits which bytes → IsWithin limits bytes → ⊥ }
    ensures alone { (limits : Limits) (bytes : List ℕ) (which other : LimitKind)
        → IsFirstLimit limits which bytes → IsFirstLimit limits other bytes → which ≡ other }
{}
