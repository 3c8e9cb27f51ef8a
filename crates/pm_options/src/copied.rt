//! Equal copies.

ghost use Rattle.std.specs.Prelude.{◌≡◌, IfOk};

use crate::kinds::Function;
use crate::listed::Listed;
use pm_values::{Column, Txt};
use std::alloc::{AllocError, Global};

/// What can be copied where memory is left.
pub trait Copied: Sized + Drop {
    /// An equal value.
    fn copied(&self, alloc: Global) -> Result<Self, AllocError>
        ensures { IfOk result (λ c. c ≡ self.now) };
}

impl Copied for Txt {
    fn copied(&self, alloc: Global) -> Result<Txt, AllocError> {
        self.copy(alloc)
    }
}

impl Copied for Column {
    fn copied(&self, alloc: Global) -> Result<Column, AllocError> {
        self.copy(alloc)
    }
}

impl Copied for bool {
    fn copied(&self, _alloc: Global) -> Result<bool, AllocError> {
        Ok(*self)
    }
}

impl Copied for Function {
    fn copied(&self, _alloc: Global) -> Result<Function, AllocError> {
        Ok(*self)
    }
}

impl<A: Copied, B: Copied> Copied for (A, B) {
    fn copied(&self, alloc: Global) -> Result<(A, B), AllocError> {
        Ok((self.0.copied(alloc)?, self.1.copied(alloc)?))
    }
}

impl<T: Copied> Copied for Listed<T> {
    fn copied(&self, alloc: Global) -> Result<Listed<T>, AllocError> {
        Ok(Listed::new(copies(alloc, self.as_slice())?))
    }
}

/// Equal items in a vector of their own.
fn copies<T: Copied>(alloc: Global, items: &[T]) -> Result<Vec<T>, AllocError>
    ensures { IfOk result (λ v. v.items ≡ items.now) }
{
    let mut out = Vec::with_capacity(alloc, items.len())?;
    for item in items {
        out.push(item.copied(alloc)?)?;
    }
    Ok(out)
}
