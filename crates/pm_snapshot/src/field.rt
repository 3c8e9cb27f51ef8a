//! One field of a JSON object.

ghost use Rattle.std.specs.Prelude.{◌≡◌};
ghost use Rattle.pm_base.specs.Outcome.{Gives};
ghost use Rattle.serde_json.specs.Find.{as_str};
ghost use Rattle.serde_json.specs.View.{view};
ghost use Rattle.pm_snapshot.specs.Fault.{fault_of};
ghost use Rattle.pm_snapshot.specs.Field.{json_in, as_natural, as_integer, unless_null, natural_at, integer_at, text_at, maybe_integer_at, maybe_text_at};

use crate::fault::SnapFault;
use pm_base::Txt;
use serde_json::Value as Json;
use std::alloc::Global;

/// The JSON of a file.
pub(crate) fn read_json(alloc: Global, bytes: &[u8]) -> Result<Json, SnapFault>
    ensures { Gives view fault_of result (json_in bytes.now) }
{
    match Json::from_slice(alloc, bytes) {
        Ok(json) => Ok(json),
        Err(e) if e.is_memory() => Err(SnapFault::Memory),
        Err(_) => Err(SnapFault::Bad),
    }
}

/// The integer without a sign of the field with a name.
pub(crate) fn natural_at(json: &Json, name: &str) -> Result<u64, SnapFault>
    ensures { Gives (λ n. n) fault_of result (natural_at name.now (view json.now)) }
{
    let Some(value) = json.get(name) else {
        return Err(SnapFault::Bad);
    };
    value.as_u64().ok_or(SnapFault::Bad)
}

/// The integer with its sign of the field with a name.
pub(crate) fn integer_at(json: &Json, name: &str) -> Result<i64, SnapFault>
    ensures { Gives (λ z. z) fault_of result (integer_at name.now (view json.now)) }
{
    let Some(value) = json.get(name) else {
        return Err(SnapFault::Bad);
    };
    value.as_i64().ok_or(SnapFault::Bad)
}

/// The text of the field with a name.
pub(crate) fn text_at(alloc: Global, json: &Json, name: &str) -> Result<Txt, SnapFault>
    ensures { Gives (λ t. t) fault_of result (text_at name.now (view json.now)) }
{
    let Some(value) = json.get(name) else {
        return Err(SnapFault::Bad);
    };
    match value.as_str() {
        Some(text) => Ok(Txt::from_str(alloc, text)?),
        None => Err(SnapFault::Bad),
    }
}

/// The integer of the field with a name, which may be null or missing.
pub(crate) fn maybe_integer_at(json: &Json, name: &str) -> Result<Option<i64>, SnapFault>
    ensures { Gives (λ o. o) fault_of result (maybe_integer_at name.now (view json.now)) }
{
    match json.get(name) {
        Some(value) => integer_unless_null(value),
        None => Ok(None),
    }
}

/// The integer of a value that may be null.
fn integer_unless_null(value: &Json) -> Result<Option<i64>, SnapFault>
    ensures { Gives (λ o. o) fault_of result (unless_null as_integer (view value.now)) }
{
    match value {
        Json::Null => Ok(None),
        _ => match value.as_i64() {
            Some(n) => Ok(Some(n)),
            None => Err(SnapFault::Bad),
        },
    }
}

/// The text of the field with a name, which may be null or missing.
pub(crate) fn maybe_text_at(
    alloc: Global,
    json: &Json,
    name: &str,
) -> Result<Option<Txt>, SnapFault>
    ensures { Gives (λ o. o) fault_of result (maybe_text_at name.now (view json.now)) }
{
    match json.get(name) {
        Some(value) => text_unless_null(alloc, value),
        None => Ok(None),
    }
}

/// The text of a value that may be null.
fn text_unless_null(alloc: Global, value: &Json) -> Result<Option<Txt>, SnapFault>
    ensures { Gives (λ o. o) fault_of result (unless_null as_str (view value.now)) }
{
    match value {
        Json::Null => Ok(None),
        Json::String(text) => Ok(Some(Txt::from_str(alloc, text.as_str())?)),
        _ => Err(SnapFault::Bad),
    }
}
