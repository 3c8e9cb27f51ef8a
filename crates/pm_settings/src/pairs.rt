//! Pairs of options that don't go together.

ghost use Rattle.std.specs.Prelude.{◌≡◌, Some, option_map};
ghost use Rattle.pm_options.specs.Faults.{Answers, judged, refused};
ghost use Rattle.pm_options.specs.Pairs.{refused_pair, where_true, pair_fault, column_key, is_taker, takes_retractions};
ghost use Rattle.pm_options.specs.Entries.{entry_at};
ghost use Rattle.pm_options.specs.declared.pairs.Pair.TheVariants as pairs;

use crate::fault::unsupported;
use crate::fields::{FUNCTION_SUFFIX, PREFIX, RETRACT_SUFFIX};
use crate::kinds::print_function;
use pm_options::{EngineKind, Function, Options, Pair, Producer};
use pm_values::{Refusal, Txt};
use std::alloc::Global;

/// The pairs in the order in which they are judged.
static PAIRS: [Pair; 5] = [
    Pair::InputEngine,
    Pair::FullFirstRow,
    Pair::DeleteAggregation,
    Pair::FunctionPartialUpdate,
    Pair::RetractFunction,
];

/// Judges the pairs of the options.
pub(crate) fn judge_pairs(alloc: Global, options: &Options) -> Result<(), Refusal>
    ensures { Answers (λ u. u) result (judged (pair_fault options.now)) }
{
    for pair in PAIRS.iter() {
        judge_pair(alloc, *pair, options)?;
    }
    Ok(())
}

/// Judges one pair of the options.
fn judge_pair(alloc: Global, pair: Pair, options: &Options) -> Result<(), Refusal>
    ensures { Answers (λ u. u) result (judged (refused_pair options.now pair)) }
{
    match pair {
        Pair::InputEngine => refuse_if(
            alloc,
            options.producer == Producer::Input && options.engine != EngineKind::Deduplicate,
            "changelog-producer",
            "input",
        ),
        Pair::FullFirstRow => refuse_if(
            alloc,
            options.producer == Producer::FullCompaction && options.engine == EngineKind::FirstRow,
            "changelog-producer",
            "full-compaction",
        ),
        Pair::DeleteAggregation => refuse_if(
            alloc,
            options.ignore_delete && options.engine == EngineKind::Aggregation,
            "ignore-delete",
            "true",
        ),
        Pair::FunctionPartialUpdate => judge_functions(alloc, options),
        Pair::RetractFunction => judge_retracts(alloc, options),
    }
}

/// Refuses a setting where the test holds.
fn refuse_if(alloc: Global, test: bool, key: &str, text: &str) -> Result<(), Refusal>
    ensures { Answers (λ u. u) result (judged (option_map refused (where_true test (key.now, text.now)))) }
{
    if test {
        unsupported(alloc, key, text)
    } else {
        Ok(())
    }
}

/// Refuses the setting of an option of a column.
fn refuse_column(alloc: Global, suffix: &str, column: &Txt, text: &str) -> Result<(), Refusal>
    ensures { Answers (λ u. u) result (judged (Some (refused (column_key suffix.now column.now, text.now)))) }
{
    let key = format!(in alloc; "{PREFIX}{column}{suffix}")?;
    unsupported(alloc, key.as_str(), text)
}

/// Judges the aggregate functions, which don't go together with `partial-update`.
fn judge_functions(alloc: Global, options: &Options) -> Result<(), Refusal>
    ensures { Answers (λ u. u) result (judged (refused_pair options.now pairs.FunctionPartialUpdate)) }
{
    if options.engine != EngineKind::PartialUpdate {
        return Ok(());
    }
    match options.functions.as_slice().first() {
        Some((column, function)) => {
            refuse_column(alloc, FUNCTION_SUFFIX, column, print_function(*function))
        }
        None => Ok(()),
    }
}

/// Judges the columns that ignore retractions.
fn judge_retracts(alloc: Global, options: &Options) -> Result<(), Refusal>
    ensures { Answers (λ u. u) result (judged (refused_pair options.now pairs.RetractFunction)) }
{
    for (column, ignored) in options.ignore_retract.as_slice() {
        if *ignored && is_taker(options.functions.as_slice(), column.as_str()) {
            return refuse_column(alloc, RETRACT_SUFFIX, column, "true");
        }
    }
    Ok(())
}

/// Whether the column has a function that takes retractions.
fn is_taker(functions: &[(Txt, Function)], column: &str) -> bool
    ensures { result ≡ is_taker (entry_at column.now functions.now) }
{
    for (name, function) in functions {
        if name.as_str() == column {
            return takes_retractions(*function);
        }
    }
    false
}

/// Whether retractions can't be ignored with the function.
fn takes_retractions(function: Function) -> bool
    ensures { result ≡ takes_retractions function }
{
    matches!(function, Function::LastValue | Function::FirstValue)
}
