//! Parts of JSON.

ghost use Rattle.std.specs.Prelude.{◌≡◌, option_map};
ghost use Rattle.serde_json.specs.Find.{as_str};
ghost use Rattle.serde_json.specs.View.{view, items_view, members_view};
ghost use Rattle.pm_options.specs.Settings.{views};
ghost use Rattle.pm_schema.specs.ColumnType.{fields_views};
ghost use Rattle.pm_schema_file.specs.Shape.{Reads};
ghost use Rattle.pm_schema.specs.Stated.{all_in, comment_in, field_in, field_list, json_of, named_in, origin_in, settings_in, settings_of, short_at, text_at, texts_at, texts_of, time_at, whole_at};
ghost use Rattle.pm_schema_file.specs.declared.shape.Flaw.TheVariants.{Memory};

use pm_options::Listed;
use pm_values::Txt;
use serde_json::{Map, Value as Json};
use std::alloc::{AllocError, AllocFailed, Global};

/// Why JSON isn't read: there was no memory left, or it has another form.
#[derive(Drop)]
pub(crate) enum Flaw {
    Memory,
    Shape,
}

impl From<AllocError> for Flaw {
    ghost from_gives = { λ _ e. e ≡ Memory };

    fn from(_e: AllocError) -> Flaw {
        Flaw::Memory
    }
}

impl<T: Drop> From<AllocFailed<T>> for Flaw {
    ghost from_gives = { λ _ e. e ≡ Memory };

    fn from(_e: AllocFailed<T>) -> Flaw {
        Flaw::Memory
    }
}

/// The JSON of a text.
pub(crate) fn read_json(alloc: Global, text: &[u8]) -> Result<Json, Flaw>
    ensures { Reads view result (json_of text.now) }
{
    match Json::from_slice(alloc, text) {
        Ok(json) => Ok(json),
        Err(e) if e.is_memory() => Err(Flaw::Memory),
        Err(_) => Err(Flaw::Shape),
    }
}

/// The text at a key.
fn text_at<'j>(json: &'j Json, key: &str) -> Option<&'j str>
    ensures { option_map (λ text. text.now) result ≡ text_at key.now (view json.now) }
{
    match json.get(key) {
        Some(value) => value.as_str(),
        None => None,
    }
}

/// The number at a key, which fits 64 bits without a sign.
pub(crate) fn whole_at(json: &Json, key: &str) -> Result<u64, Flaw>
    ensures { Reads (λ n. n) result (whole_at key.now (view json.now)) }
{
    match json.get(key) {
        Some(value) => value.as_u64().ok_or(Flaw::Shape),
        None => Err(Flaw::Shape),
    }
}

/// The number at a key, which fits 32 bits without a sign.
pub(crate) fn short_at(json: &Json, key: &str) -> Result<u32, Flaw>
    ensures { Reads (λ n. n) result (short_at key.now (view json.now)) }
{
    let number = whole_at(json, key)?;
    if number <= u64::from(u32::MAX) {
        Ok(number as u32)
    } else {
        Err(Flaw::Shape)
    }
}

/// The number at a key, which fits 64 bits with a sign.
pub(crate) fn time_at(json: &Json, key: &str) -> Result<i64, Flaw>
    ensures { Reads (λ n. n) result (time_at key.now (view json.now)) }
{
    match json.get(key) {
        Some(value) => value.as_i64().ok_or(Flaw::Shape),
        None => Err(Flaw::Shape),
    }
}

/// The texts of a list.
fn texts_in(alloc: Global, items: &[Json]) -> Result<Listed<Txt>, Flaw>
    ensures { Reads (λ l. l) result (all_in as_str (items_view items.now)) }
{
    let mut texts = Vec::with_capacity(alloc, items.len())?;
    for value in items {
        match value.as_str() {
            Some(text) => texts.push(Txt::from_str(alloc, text)?)?,
            None => return Err(Flaw::Shape),
        }
    }
    Ok(Listed::new(texts))
}

/// The list of texts that a value is.
pub(crate) fn texts_of(alloc: Global, json: &Json) -> Result<Listed<Txt>, Flaw>
    ensures { Reads (λ l. l) result (texts_of (view json.now)) }
{
    match json.as_array() {
        Some(items) => texts_in(alloc, items.as_slice()),
        None => Err(Flaw::Shape),
    }
}

/// The list of texts at a key.
pub(crate) fn texts_at(alloc: Global, json: &Json, key: &str) -> Result<Listed<Txt>, Flaw>
    ensures { Reads (λ l. l) result (texts_at key.now (view json.now)) }
{
    match json.get(key) {
        Some(value) => texts_of(alloc, value),
        None => Err(Flaw::Shape),
    }
}

/// The settings that an object of texts is, by rising key.
pub(crate) fn settings_of<'j>(
    alloc: Global,
    json: &'j Json,
) -> Result<Vec<(&'j str, &'j str)>, Flaw>
    ensures { Reads (λ v. views v.items) result (settings_of (view json.now)) }
{
    match json.as_object() {
        Some(members) => settings_in(alloc, members),
        None => Err(Flaw::Shape),
    }
}

/// The settings that the members of an object of texts are.
fn settings_in<'j>(
    alloc: Global,
    members: &'j Map<String, Json>,
) -> Result<Vec<(&'j str, &'j str)>, Flaw>
    ensures { Reads (λ v. views v.items) result (settings_in (members_view members.now.entries)) }
{
    let mut settings = Vec::with_capacity(alloc, members.len())?;
    for (key, value) in members {
        match value.as_str() {
            Some(text) => settings.push((key.as_str(), text))?,
            None => return Err(Flaw::Shape),
        }
    }
    Ok(settings)
}

/// A text, null or nothing at the key `comment`.
pub(crate) fn comment_in(alloc: Global, json: &Json) -> Result<Option<Txt>, Flaw>
    ensures { Reads (λ t. t) result (comment_in (view json.now)) }
{
    match json.get("comment") {
        None | Some(Json::Null) => Ok(None),
        Some(Json::String(text)) => Ok(Some(Txt::from_str(alloc, text.as_str())?)),
        Some(_) => Err(Flaw::Shape),
    }
}

/// A text or nothing at the key `origin`.
pub(crate) fn origin_in(alloc: Global, json: &Json) -> Result<Option<Txt>, Flaw>
    ensures { Reads (λ t. t) result (origin_in (view json.now)) }
{
    match json.get("origin") {
        None => Ok(None),
        Some(Json::String(text)) => Ok(Some(Txt::from_str(alloc, text.as_str())?)),
        Some(_) => Err(Flaw::Shape),
    }
}

/// The list of fields.
pub(crate) fn field_list(json: &Json) -> Result<&[Json], Flaw>
    ensures { Reads (λ items. items_view items.now) result (field_list (view json.now)) }
{
    match json.get("fields") {
        Some(Json::Array(items)) => Ok(items.as_slice()),
        _ => Err(Flaw::Shape),
    }
}

/// A field's name and its type's text.
fn named_in(json: &Json) -> Result<(&str, &str), Flaw>
    ensures { Reads (λ f. (f.0.now, f.1.now)) result (named_in (view json.now)) }
{
    match (text_at(json, "name"), text_at(json, "type")) {
        (Some(name), Some(text)) => Ok((name, text)),
        _ => Err(Flaw::Shape),
    }
}

/// The names of fields and their types' texts.
pub(crate) fn all_named<'j>(
    alloc: Global,
    items: &'j [Json],
) -> Result<Vec<(&'j str, &'j str)>, Flaw>
    ensures { Reads (λ v. views v.items) result (all_in named_in (items_view items.now)) }
{
    let mut fields = Vec::with_capacity(alloc, items.len())?;
    for value in items {
        fields.push(named_in(value)?)?;
    }
    Ok(fields)
}

/// A field with its id.
fn field_in(json: &Json) -> Result<(u32, &str, &str), Flaw>
    ensures { Reads (λ f. (f.0, f.1.now, f.2.now)) result (field_in (view json.now)) }
{
    let id = short_at(json, "id")?;
    let (name, text) = named_in(json)?;
    Ok((id, name, text))
}

/// The fields with their ids.
pub(crate) fn all_fields<'j>(
    alloc: Global,
    items: &'j [Json],
) -> Result<Vec<(u32, &'j str, &'j str)>, Flaw>
    ensures { Reads (λ v. fields_views v.items) result (all_in field_in (items_view items.now)) }
{
    let mut fields = Vec::with_capacity(alloc, items.len())?;
    for value in items {
        fields.push(field_in(value)?)?;
    }
    Ok(fields)
}
