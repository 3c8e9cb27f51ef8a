//! Laws of the definitions, which hold of every store.

ghost use Rattle.std.specs.Prelude.{◌≡◌, ◌≢◌, ◌↔◌, ◌⊎◌, ℕ, List, [], ◌∷◌, ◌++◌, take, Option, Some, IsSomeAnd, true};
ghost use Rattle.std.specs.Prelude.{slice_get};
ghost use Rattle.pm_store.specs.declared.answer.Answer.{Answer};
ghost use Rattle.pm_store.specs.declared.call.Call.{Call};
ghost use Rattle.pm_store.specs.declared.call.Call.TheVariants as calls;
ghost use Rattle.pm_store.specs.declared.call.Op.{Op};
ghost use Rattle.pm_store.specs.Answers.{Answers, Changed};
ghost use Rattle.pm_store.specs.Files.{Files, carried, file_at, files_after};
ghost use Rattle.pm_store.specs.Images.{MayLeave, HasEffect, CrashImage};
ghost use Rattle.pm_store.specs.Store.{StoreView, GoesOn, Meanwhile, Steps, at_first_own, whole};

/// What a stop within a call may leave is what one of the call's effects leaves, and nothing else.
pub fn stops_are_effects_law()
    ensures { (call : Call) (files f : Files) → MayLeave call files f ↔ HasEffect call files f }
{}

/// What each answer says of the files after its call.
pub fn answers_tell_changes_law()
    ensures { (call : Call) (answer : Answer) (files : Files) → Answers call answer files
        → Changed call answer files (carried call files) }
{}

/// A crash image is what the operations before some moment leave, or those and one more of the next call, with an
/// effect that this call may have.
pub fn images_are_effects_law()
    ensures { (ops : List Op) (i : ℕ) (f : Files) → CrashImage ops i f ↔ ((f ≡ files_after (take i ops))
        ⊎ IsSomeAnd (slice_get ops i) (λ op. HasEffect op.call (files_after (take i ops)) f)) }
{}

/// A swap that finds what it expects leaves its bytes at its path, one that doesn't changes nothing, and
/// neither touches another path.
pub fn swaps_write_one_path_law()
    ensures written { (ops : List Op) (path : List ℕ) (expected : Option (List ℕ)) (bytes : List ℕ) →
        file_at ops path ≡ expected → file_at (ops ++ whole (calls.Swap path expected bytes) ∷ []) path ≡ Some bytes }
    ensures differs { (ops : List Op) (path : List ℕ) (expected : Option (List ℕ)) (bytes : List ℕ) →
        file_at ops path ≢ expected
        → files_after (ops ++ whole (calls.Swap path expected bytes) ∷ []) ≡ files_after ops }
    ensures others { (ops : List Op) (path : List ℕ) (expected : Option (List ℕ)) (bytes other : List ℕ) →
        other ≢ path → file_at (ops ++ whole (calls.Swap path expected bytes) ∷ []) other ≡ file_at ops other }
{}

/// Others alone act up to the first own operation, which comes right then, whatever comes later.
pub fn first_own_law()
    ensures meanwhile { (op : Op) (before middle after : StoreView) → op.is_own ≡ true →
        Steps op (λ ops. Unit {0}) before middle → GoesOn middle after → Meanwhile before (at_first_own before after) }
    ensures step { (op : Op) (before middle after : StoreView) → op.is_own ≡ true →
        Steps op (λ ops. Unit {0}) before middle → GoesOn middle after →
        Steps op (λ ops. Unit {0}) (at_first_own before after) middle }
    ensures none { (before after : StoreView) → Meanwhile before after → (at_first_own before after).ops ≡ after.ops }
{}
