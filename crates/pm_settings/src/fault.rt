//! Refusals that judgements answer.

ghost use Rattle.std.specs.Prelude.{◌≡◌, Err};
ghost use Rattle.pm_values.specs.declared.refusal.Refusal.TheVariants as refusals;
ghost use Rattle.pm_options.specs.Faults.{Answers};

use pm_values::{Refusal, Txt};
use std::alloc::Global;

/// Refuses a text that isn't supported: what it is, and the text.
pub fn unsupported<T>(alloc: Global, what: &str, text: &str) -> Result<T, Refusal>
    ensures { Answers (λ x. x) result (Err (refusals.Unsupported what.now text.now)) }
{
    let what = Txt::from_str(alloc, what)?;
    let text = Txt::from_str(alloc, text)?;
    Err(Refusal::Unsupported { what, text })
}

/// Refuses a quantity that exceeds the limit.
pub fn limit(alloc: Global, which: &str, number: u64) -> Result<(), Refusal>
    ensures { Answers (λ u. u) result (Err (refusals.Limit which.now number)) }
{
    let which = Txt::from_str(alloc, which)?;
    Err(Refusal::Limit { which, number })
}
