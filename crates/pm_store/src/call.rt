//! A call of a store, and what it did to the files.

ghost use Rattle.std.specs.Prelude.{◌≡◌, IfOk};
ghost use Rattle.std.specs.Option.{option_copied};

use pm_base::{Blob, Txt};
use std::alloc::{AllocError, Global};

/// A call with copies of its arguments.
#[derive(Drop)]
pub enum Call {
    List {
        folder: Txt,
    },
    Read {
        path: Txt,
    },
    Create {
        path: Txt,
        bytes: Blob,
    },
    Publish {
        after: Txt,
        path: Txt,
        bytes: Blob,
    },
    Swap {
        path: Txt,
        expected: Option<Blob>,
        bytes: Blob,
    },
    Remove {
        path: Txt,
    },
}

impl Call {
    ghost use Rattle.pm_store.specs.declared.call.Call.TheVariants as calls;

    /// A list, with a copy of its argument.
    pub fn list(alloc: Global, folder: &str) -> Result<Call, AllocError>
        ensures { IfOk result (λ call. call ≡ calls.List folder.now) }
    {
        Ok(Call::List {
            folder: Txt::from_str(alloc, folder)?,
        })
    }

    /// A read, with a copy of its argument.
    pub fn read(alloc: Global, path: &str) -> Result<Call, AllocError>
        ensures { IfOk result (λ call. call ≡ calls.Read path.now) }
    {
        Ok(Call::Read {
            path: Txt::from_str(alloc, path)?,
        })
    }

    /// A create, with copies of its arguments.
    pub fn create(alloc: Global, path: &str, bytes: &[u8]) -> Result<Call, AllocError>
        ensures { IfOk result (λ call. call ≡ calls.Create path.now bytes.now) }
    {
        Ok(Call::Create {
            path: Txt::from_str(alloc, path)?,
            bytes: Blob::from_slice(alloc, bytes)?,
        })
    }

    /// A publish, with copies of its arguments.
    pub fn publish(alloc: Global, after: &str, path: &str, bytes: &[u8]) -> Result<Call, AllocError>
        ensures { IfOk result (λ call. call ≡ calls.Publish after.now path.now bytes.now) }
    {
        Ok(Call::Publish {
            after: Txt::from_str(alloc, after)?,
            path: Txt::from_str(alloc, path)?,
            bytes: Blob::from_slice(alloc, bytes)?,
        })
    }

    /// A swap, with copies of its arguments.
    pub fn swap(
        alloc: Global,
        path: &str,
        expected: Option<&[u8]>,
        bytes: &[u8],
    ) -> Result<Call, AllocError>
        ensures { IfOk result (λ call. call ≡ calls.Swap path.now (option_copied expected.entry) bytes.now) }
    {
        let expected = match expected {
            Some(expected) => Some(Blob::from_slice(alloc, expected)?),
            None => None,
        };
        Ok(Call::Swap {
            path: Txt::from_str(alloc, path)?,
            expected,
            bytes: Blob::from_slice(alloc, bytes)?,
        })
    }

    /// A remove, with a copy of its argument.
    pub fn remove(alloc: Global, path: &str) -> Result<Call, AllocError>
        ensures { IfOk result (λ call. call ≡ calls.Remove path.now) }
    {
        Ok(Call::Remove {
            path: Txt::from_str(alloc, path)?,
        })
    }
}

/// Which call it is.
#[derive(Clone, Copy)]
pub enum CallKind {
    List,
    Read,
    Create,
    Publish,
    Swap,
    Remove,
}

/// How much of a call was carried out: nothing, a part of a create, or all of it. A call whose
/// condition fails is carried out whole too, and changes nothing.
#[derive(Drop)]
pub enum Effect {
    None,
    Part(Option<Blob>),
    Whole,
}

impl Effect {
    /// An equal effect.
    pub fn copy(&self, alloc: Global) -> Result<Effect, AllocError>
        ensures { IfOk result (λ effect. effect ≡ self.now) }
    {
        match self {
            Effect::None => Ok(Effect::None),
            Effect::Part(None) => Ok(Effect::Part(None)),
            Effect::Part(Some(bytes)) => Ok(Effect::Part(Some(bytes.copy(alloc)?))),
            Effect::Whole => Ok(Effect::Whole),
        }
    }
}

/// A call that was made, with its effect: by the handle of the store that tells of it, or by another.
#[derive(Drop)]
pub struct Op {
    pub call: Call,
    pub effect: Effect,
    pub is_own: bool,
}

impl Op {
    ghost use Rattle.pm_store.specs.Store.{own_op, whole};

    /// An own call with an effect.
    pub fn own(call: Call, effect: Effect) -> Op
        ensures { result ≡ own_op call effect }
    {
        Op {
            call,
            effect,
            is_own: true,
        }
    }

    /// An own call that was carried out whole.
    pub fn whole(call: Call) -> Op
        ensures { result ≡ whole call }
    {
        Op::own(call, Effect::Whole)
    }
}
