//! Laws of putters.

ghost use Rattle.pm_store.specs.Files.{Files};
ghost use Rattle.pm_put.specs.Meaning.{Knows, Putting, StayPut};
ghost use Rattle.pm_put.specs.declared.phase.Phase.{Phase};

/// What a putter knows stays true as long as each of its files that is there stays so.
pub fn kept_law()
    ensures { (put : Putting) (m : Phase) (f after : Files) → StayPut f after put.files → Knows put m f
        → Knows put m after }
{}
