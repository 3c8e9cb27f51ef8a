//! The properties of a snapshot that are the program's own.

ghost use Rattle.std.specs.Prelude.{◌≡◌};
ghost use Rattle.pm_base.specs.Outcome.{Gives};
ghost use Rattle.serde_json.specs.Find.{get};
ghost use Rattle.serde_json.specs.View.{view, members_view};
ghost use Rattle.pm_snapshot.specs.Decimal.{natural_in, integer_in};
ghost use Rattle.pm_snapshot.specs.Fault.{fault_of};
ghost use Rattle.pm_snapshot.specs.Properties.{members_are_texts, are_texts, or_missing, properties_in, properties_from, properties_at};

use crate::decimal::{integer_in, natural_in};
use crate::fault::SnapFault;
use serde_json::{Map, Value as Json};

/// The four properties.
#[derive(Clone, Copy)]
pub(crate) struct Properties {
    pub(crate) base: u64,
    pub(crate) fence: i64,
    pub(crate) appends: u64,
    pub(crate) full: u64,
}

/// The properties in the file of the snapshot with an id.
pub(crate) fn properties_at(id: u64, json: &Json) -> Result<Properties, SnapFault>
    ensures { Gives (λ p. p) fault_of result (properties_at id (view json.now)) }
{
    match json.get("properties") {
        Some(found) => properties_from(id, found),
        None => properties_from(id, &Json::Null),
    }
}

/// The properties in an object of texts, or in null.
fn properties_from(id: u64, found: &Json) -> Result<Properties, SnapFault>
    ensures { Gives (λ p. p) fault_of result (properties_from id (view found.now)) }
{
    if !are_texts(found) {
        return Err(SnapFault::Bad);
    }
    properties_in(id, found)
}

/// The properties in an object, each of which may be missing.
fn properties_in(id: u64, found: &Json) -> Result<Properties, SnapFault>
    ensures { Gives (λ p. p) fault_of result (properties_in id (view found.now)) }
{
    let base = natural_property(found, "base", id.saturating_sub(1))?;
    let fence = integer_property(found, "fence", -1)?;
    let appends = natural_property(found, "appends", 0)?;
    let full = natural_property(found, "full", 0)?;
    Ok(Properties {
        base,
        fence,
        appends,
        full,
    })
}

/// Whether a value is null or an object of texts.
fn are_texts(found: &Json) -> bool
    ensures { result ≡ are_texts (view found.now) }
{
    match found {
        Json::Null => true,
        Json::Object(map) => members_are_texts(map),
        _ => false,
    }
}

/// Whether each member is a text.
fn members_are_texts(map: &Map<String, Json>) -> bool
    ensures { result ≡ members_are_texts (members_view map.now.entries) }
{
    for (_, value) in map {
        if !value.is_string() {
            return false;
        }
    }
    true
}

/// The property with a name that is a number without a sign, or what stands for a missing one.
fn natural_property(found: &Json, name: &str, missing: u64) -> Result<u64, SnapFault>
    ensures { Gives (λ n. n) fault_of result
        (or_missing missing natural_in (get name.now (view found.now))) }
{
    let Some(value) = found.get(name) else {
        return Ok(missing);
    };
    match value.as_str() {
        Some(text) => natural_in(text.as_bytes()).ok_or(SnapFault::Bad),
        None => Err(SnapFault::Bad),
    }
}

/// The property with a name that is a number with its sign, or what stands for a missing one.
fn integer_property(found: &Json, name: &str, missing: i64) -> Result<i64, SnapFault>
    ensures { Gives (λ z. z) fault_of result
        (or_missing missing integer_in (get name.now (view found.now))) }
{
    let Some(value) = found.get(name) else {
        return Ok(missing);
    };
    match value.as_str() {
        Some(text) => integer_in(text.as_bytes()).ok_or(SnapFault::Bad),
        None => Err(SnapFault::Bad),
    }
}
