//! The texts of merge engines, changelog producers, aggregate functions and truths.

ghost use Rattle.std.specs.Prelude.{◌≡◌};
ghost use Rattle.pm_options.specs.Kinds.{engine_in, engine_text, producer_in, producer_text, function_in, function_text, truth_in, truth_text};

use crate::entries::entry_of;
use pm_options::{EngineKind, Function, Producer};

/// The engines by their texts.
static ENGINES: [(&str, EngineKind); 4] = [
    ("deduplicate", EngineKind::Deduplicate),
    ("partial-update", EngineKind::PartialUpdate),
    ("aggregation", EngineKind::Aggregation),
    ("first-row", EngineKind::FirstRow),
];

/// The producers by their texts.
static PRODUCERS: [(&str, Producer); 4] = [
    ("none", Producer::None),
    ("input", Producer::Input),
    ("lookup", Producer::Lookup),
    ("full-compaction", Producer::FullCompaction),
];

/// The functions by their texts.
static FUNCTIONS: [(&str, Function); 10] = [
    ("sum", Function::Sum),
    ("max", Function::Max),
    ("min", Function::Min),
    ("last_value", Function::LastValue),
    ("last_non_null_value", Function::LastNonNullValue),
    ("first_value", Function::FirstValue),
    ("first_non_null_value", Function::FirstNonNullValue),
    ("listagg", Function::ListAgg),
    ("bool_and", Function::BoolAnd),
    ("bool_or", Function::BoolOr),
];

/// The truths by their texts.
static TRUTHS: [(&str, bool); 2] = [("true", true), ("false", false)];

/// The engine that the text names.
pub(crate) fn read_engine(text: &str) -> Option<EngineKind>
    ensures { result ≡ engine_in text.now }
{
    entry_of(&ENGINES, text)
}

/// The text of an engine.
pub fn print_engine(engine: EngineKind) -> &'static str
    ensures { result.now ≡ engine_text engine }
{
    match engine {
        EngineKind::Deduplicate => "deduplicate",
        EngineKind::PartialUpdate => "partial-update",
        EngineKind::Aggregation => "aggregation",
        EngineKind::FirstRow => "first-row",
    }
}

/// The producer that the text names.
pub(crate) fn read_producer(text: &str) -> Option<Producer>
    ensures { result ≡ producer_in text.now }
{
    entry_of(&PRODUCERS, text)
}

/// The text of a producer.
pub fn print_producer(producer: Producer) -> &'static str
    ensures { result.now ≡ producer_text producer }
{
    match producer {
        Producer::None => "none",
        Producer::Input => "input",
        Producer::Lookup => "lookup",
        Producer::FullCompaction => "full-compaction",
    }
}

/// The function that the text names.
pub(crate) fn read_function(text: &str) -> Option<Function>
    ensures { result ≡ function_in text.now }
{
    entry_of(&FUNCTIONS, text)
}

/// The text of a function.
pub(crate) fn print_function(function: Function) -> &'static str
    ensures { result.now ≡ function_text function }
{
    match function {
        Function::Sum => "sum",
        Function::Max => "max",
        Function::Min => "min",
        Function::LastValue => "last_value",
        Function::LastNonNullValue => "last_non_null_value",
        Function::FirstValue => "first_value",
        Function::FirstNonNullValue => "first_non_null_value",
        Function::ListAgg => "listagg",
        Function::BoolAnd => "bool_and",
        Function::BoolOr => "bool_or",
    }
}

/// The truth that the text names.
pub(crate) fn read_truth(text: &str) -> Option<bool>
    ensures { result ≡ truth_in text.now }
{
    entry_of(&TRUTHS, text)
}

/// The text of a truth.
pub(crate) fn print_truth(truth: bool) -> &'static str
    ensures { result.now ≡ truth_text truth }
{
    if truth { "true" } else { "false" }
}
