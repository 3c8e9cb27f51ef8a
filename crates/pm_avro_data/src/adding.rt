//! Data that are written from where they lie. The only fault is out of memory; nothing is said of `out` after it.

ghost use Rattle.std.specs.Prelude.{◌≡◌, ◌++◌, List, ℕ, OnOk, pos};
ghost use Rattle.pm_avro_data.specs.Adding.{Adds};
ghost use Rattle.pm_avro_data.specs.Datum.{Data, boolean, bytes, int, long, text, union_of};
ghost use Rattle.pm_avro_data.specs.Writing.{integer};

use crate::writing::{push_integer, push_sized};
use std::alloc::AllocError;

/// Adds a boolean.
pub fn add_boolean(out: &mut Vec<u8>, truth: bool) -> Result<(), AllocError>
    ensures { OnOk result (Adds out.old.items out.new.items (boolean truth)) }
{
    out.push(u8::from(truth))?;
    Ok(())
}

/// Adds an int.
pub fn add_int(out: &mut Vec<u8>, number: i32) -> Result<(), AllocError>
    ensures { OnOk result (Adds out.old.items out.new.items (int number)) }
{
    push_integer(out, i64::from(number))
}

/// Adds a long.
pub fn add_long(out: &mut Vec<u8>, number: i64) -> Result<(), AllocError>
    ensures { OnOk result (Adds out.old.items out.new.items (long number)) }
{
    push_integer(out, number)
}

/// Adds bytes.
pub fn add_bytes(out: &mut Vec<u8>, content: &[u8]) -> Result<(), AllocError>
    ensures { OnOk result (Adds out.old.items out.new.items (bytes content.now)) }
{
    push_sized(out, content)
}

/// Adds a text.
pub fn add_text(out: &mut Vec<u8>, content: &str) -> Result<(), AllocError>
    ensures { OnOk result (Adds out.old.items out.new.items (text content.now)) }
{
    push_sized(out, content.as_bytes())
}

/// Adds the index of a union's branch. The datum that is added next is the union's.
pub fn add_branch(out: &mut Vec<u8>, index: u32) -> Result<(), AllocError>
    ensures { OnOk result ((after : List ℕ) (d : Data) →
        Adds out.new.items after d → Adds out.old.items after (union_of index d)) }
{
    push_index(out, index)?;
    Ok(())
}

/// Writes the index of a union's branch.
fn push_index(out: &mut Vec<u8>, index: u32) -> Result<(), AllocError>
    ensures { OnOk result (out.new.items ≡ out.old.items ++ integer (pos index)) }
{
    push_integer(out, i64::from(index))
}
