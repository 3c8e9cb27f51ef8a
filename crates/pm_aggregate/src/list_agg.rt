//! The texts of a column, joined.

ghost use Rattle.std.specs.Prelude.{◌≡◌, ◌++◌, IfOk, if◌then◌else◌};
ghost use Rattle.pm_values.specs.declared.value.Value.TheVariants.{Null};
ghost use Rattle.pm_aggregate.specs.Functions.{joined_of};
ghost use Rattle.pm_aggregate.specs.Steps.{beside, glued, text_alone};

use crate::aggregator::Aggregator;
use crate::values::is_null;
use pm_base::Txt;
use pm_values::{ColType, Value};
use std::alloc::{AllocError, Global};

/// The texts of a column with a delimiter between each two. Null is no text.
pub struct ListAgg {
    pub kind: ColType,
    /// Whether rows that retract don't count; else they are refused.
    pub skips: bool,
    pub delimiter: Txt,
}

impl Drop for ListAgg {
    fn drop(self) {
        let ListAgg {
            kind,
            skips,
            delimiter,
        } = self;
    }
}

impl Aggregator for ListAgg {
    ghost meaning = { λ f. joined_of f.kind f.skips f.delimiter };

    fn accepts(&self, retract: bool) -> bool {
        self.skips || !retract
    }

    fn lift(&self, _alloc: Global, retract: bool, value: Value) -> Result<Value, AllocError> {
        Ok(lifted(retract, value))
    }

    fn combine(&self, _alloc: Global, older: Value, newer: Value) -> Result<Value, AllocError> {
        joined(self.delimiter.as_str(), older, newer)
    }
}

/// The text of one row.
fn lifted(retract: bool, value: Value) -> Value
    ensures { result ≡ (if retract then Null else text_alone value) }
{
    match value {
        Value::Text(text) if !retract => Value::Text(text),
        other => {
            drop(other);
            Value::Null
        }
    }
}

/// Two texts joined, where null is no text.
fn joined(delimiter: &str, older: Value, newer: Value) -> Result<Value, AllocError>
    ensures { IfOk result (λ v. v ≡ beside (glued delimiter.now) older newer) }
{
    if is_null(&older) {
        drop(older);
        return Ok(newer);
    }
    if is_null(&newer) {
        drop(newer);
        return Ok(older);
    }
    glued(delimiter, older, newer)
}

/// Two texts with the delimiter between them.
fn glued(delimiter: &str, older: Value, newer: Value) -> Result<Value, AllocError>
    ensures { IfOk result (λ v. v ≡ glued delimiter.now older newer) }
{
    match older {
        Value::Text(text) => match newer {
            Value::Text(more) => Ok(Value::Text(extended(text, delimiter, &more)?)),
            _ => Ok(Value::Null),
        },
        _ => Ok(Value::Null),
    }
}

/// A text with the delimiter and another one after it. It grows in place.
fn extended(text: Txt, delimiter: &str, more: &Txt) -> Result<Txt, AllocError>
    ensures { IfOk result (λ t. t ≡ (text ++ delimiter.now) ++ more.now) }
{
    let mut text = text;
    text.push_str(delimiter)?;
    text.push_str(more.as_str())?;
    Ok(text)
}
