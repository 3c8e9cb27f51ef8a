//! What is left of an integer in a type's bits.

ghost use Rattle.std.specs.Prelude.{◌≡◌, pos, ◌≤ℤ◌, ◌^◌};
ghost use Rattle.std.specs.Int.{int_wrap};
ghost use Rattle.pm_model_history.specs.ColumnValue.{width_of};
ghost use Rattle.pm_columns.specs.Wrapping.{half_of};

use pm_values::ColType;

/// What is left of an integer in the bits of the type.
pub fn wrapped(kind: ColType, n: i128) -> i64
    ensures { result ≡ int_wrap (width_of kind) n }
{
    let half = half_of(kind);
    let rest = n.rem_euclid(2 * half);
    if rest < half {
        rest as i64
    } else {
        (rest - 2 * half) as i64
    }
}

/// The least integer that is too great for the type.
fn half_of(kind: ColType) -> i128
    ensures half { result ≡ pos (half_of kind) }
    ensures some { pos 1 ≤ℤ result }
    ensures most { result ≤ℤ pos (2 ^ 63) }
{
    match kind {
        ColType::TinyInt => 0x80,
        ColType::SmallInt => 0x8000,
        ColType::Int => 0x8000_0000,
        _ => 0x8000_0000_0000_0000,
    }
}
