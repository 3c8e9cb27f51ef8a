//! What holds of the end of any expiry.

ghost use Rattle.std.specs.Prelude.{◌≡◌, ◌≤◌, ◌≤ℤ◌, ◌↔◌, ℕ, ℤ, Option, IfSome, List};
ghost use Rattle.pm_options.specs.declared.options.Options.{Options};
ghost use Rattle.pm_options.specs.Stands.{Stands};
ghost use Rattle.pm_expire_end.specs.declared.keep.Keep.{Keep};
ghost use Rattle.pm_expire_end.specs.declared.keep.KeepAsked.{KeepAsked};
ghost use Rattle.pm_expire_end.specs.Expiry.{AreConsecutive, IsExpireEnd, KeepsMore, KeepsNeeded, ReadsMore};
ghost use Rattle.pm_expire_end.specs.Expiry.{expire_end_of};
ghost use Rattle.pm_expire_end.specs.Keep.{keep_of};

/// There is one end, whatever the times are.
pub fn one_end_law()
    ensures is { (times : List (ℕ × ℤ)) (keep : Keep) (now : ℤ) (next : Option ℕ) →
        IsExpireEnd times keep now next (expire_end_of times keep now next) }
    ensures only { (times : List (ℕ × ℤ)) (keep : Keep) (now : ℤ) (next : Option ℕ) (end : ℕ) →
        IsExpireEnd times keep now next end → end ≡ expire_end_of times keep now next }
{}

/// Where at least one snapshot is to be kept, the end lies among the ids and keeps what is needed.
pub fn end_law()
    ensures { (times : List (ℕ × ℤ)) (keep : Keep) (now : ℤ) (next : Option ℕ) → AreConsecutive times → 1 ≤ keep.min →
        KeepsNeeded times keep now next (expire_end_of times keep now next) }
{}

/// Who asks to keep more, reads from an earlier snapshot or has an earlier time isn't left with less.
pub fn more_law()
    ensures { (times : List (ℕ × ℤ)) (less more : Keep) (now before : ℤ) (next earlier : Option ℕ) →
        KeepsMore less more → before ≤ℤ now → ReadsMore next earlier →
        expire_end_of times more before earlier ≤ expire_end_of times less now next }
{}

/// Where the options of a table stand, and a least number that is asked isn't 0, at least one snapshot is to be kept.
pub fn asked_law()
    ensures { (asked : KeepAsked) (options : Options) → Stands options → IfSome asked.min (λ min. 1 ≤ min) →
        1 ≤ (keep_of asked options).min }
{}
