//! Values of a row one after another, and where null counts for nothing.

ghost use Rattle.std.specs.Prelude.{◌≡◌, drop, if◌then◌else◌};
ghost use Rattle.std.specs.Vec.Iter.{into_iter_items};
ghost use Rattle.pm_values.specs.declared.value.Value.TheVariants.{Null};
ghost use Rattle.pm_model_history.specs.ColumnValue.{is_null};
ghost use Rattle.pm_model_history.specs.Merge.{value_at};

use pm_values::Value;
use std::alloc::Global;
use std::vec::IntoIter;

/// The next of a row's values, null where none is left.
pub fn next_value(left: &mut IntoIter<Value, Global>) -> Value
    ensures value { result ≡ value_at (into_iter_items left.old) 0 }
    ensures left { into_iter_items left.new ≡ drop 1 (into_iter_items left.old) }
{
    match left.next() {
        Some(value) => value,
        None => Value::Null,
    }
}

/// Whether the value is null.
pub(crate) fn is_null(value: &Value) -> bool
    ensures { result ≡ is_null value.now }
{
    matches!(value, Value::Null)
}

/// What a row leaves of its value: null where it retracts.
pub(crate) fn left(retract: bool, value: Value) -> Value
    ensures { result ≡ (if retract then Null else value) }
{
    if retract {
        drop(value);
        return Value::Null;
    }
    value
}
