//! The files of schemas.

ghost use Rattle.std.specs.Prelude.{◌≡◌, [], Some, option_and_then, IfOk, IfErr, OnOk, string_bytes};
ghost use Rattle.serde_json.specs.Data.{object, put as with_member, string};
ghost use Rattle.serde_json.specs.View.{view, members_view};
ghost use Rattle.pm_schema.specs.Again.{HasRanges, IsDeclared, stated_again};
ghost use Rattle.pm_schema.specs.Meaning.{SchemaOf};
ghost use Rattle.pm_schema.specs.Stated.{file_in, json_of, schema_path};
ghost use Rattle.pm_schema.specs.Written.{column_data, columns_data, comment_data, first_members, last_members, schema_members, schema_text, settings_members, texts_data, with_origin};
ghost use Rattle.pm_options.specs.Written.{settings_of, text_views};

use crate::column_type::print_type;
use pm_options::Options;
use pm_schema::TableSchema;
use pm_settings::write_options;
use pm_values::{Column, Refusal, Txt};
use serde_json::{Map, Value as Json, json, put};
use std::alloc::{AllocError, Global};

/// The text of a schema's file: compact JSON with the keys in order.
#[tactic(auto, unfolding(pm_schema::specs::Written::schema_text))]
pub fn write_schema(alloc: Global, schema: &TableSchema) -> Result<Vec<u8>, Refusal>
    ensures text { IfOk result (λ v. v.items ≡ schema_text schema.now) }
    // The text states the schema again, with its settings by rising key.
    ensures again { IfOk result (λ v. HasRanges schema.now
        → option_and_then file_in (json_of v.items) ≡ Some (stated_again schema.now)) }
    // It is read as the very schema, where that is one that a file or a draft declares.
    ensures reads { IfOk result (λ v. IsDeclared schema.now
        → SchemaOf (schema_path schema.now.id) v.items schema.now) }
    ensures memory { IfErr result (λ e. e ≡ Refusal.Memory) }
{
    let json = json_of_schema(alloc, schema)?;
    Ok(json.to_vec(alloc)?)
}

/// The object of a schema.
fn json_of_schema(alloc: Global, schema: &TableSchema) -> Result<Json, AllocError>
    ensures { IfOk result (λ json. view json ≡ object (schema_members schema.now)) }
{
    let mut members = Map::new(alloc);
    put_first(alloc, &mut members, schema)?;
    put_last(alloc, &mut members, schema)?;
    put_origin(alloc, &mut members, &schema.origin)?;
    Ok(Json::Object(members))
}

/// Puts the members up to the options.
fn put_first(
    alloc: Global,
    members: &mut Map<String, Json>,
    schema: &TableSchema,
) -> Result<(), AllocError>
    requires { members.old.entries ≡ [] }
    ensures { OnOk result (members_view members.new.entries ≡ first_members schema.now) }
{
    let comment = json_of_comment(alloc, &schema.comment)?;
    put(members, alloc, "comment", comment)?;
    let columns = json_of_columns(alloc, schema.columns.as_slice())?;
    put(members, alloc, "fields", columns)?;
    put(members, alloc, "highestFieldId", Json::from(schema.highest))?;
    put(members, alloc, "id", Json::from(schema.id))?;
    let options = json_of_options(alloc, &schema.options)?;
    put(members, alloc, "options", options)?;
    Ok(())
}

/// Puts the members from the partition columns on.
fn put_last(
    alloc: Global,
    members: &mut Map<String, Json>,
    schema: &TableSchema,
) -> Result<(), AllocError>
    ensures { OnOk result (members_view members.new.entries
        ≡ last_members schema.now (members_view members.old.entries)) }
{
    let partition = json_of_texts(alloc, schema.partition.as_slice())?;
    put(members, alloc, "partitionKeys", partition)?;
    let primary = json_of_texts(alloc, schema.primary.as_slice())?;
    put(members, alloc, "primaryKeys", primary)?;
    put(members, alloc, "timeMillis", Json::from(schema.time))?;
    put(members, alloc, "version", Json::from(3u64))?;
    Ok(())
}

/// Puts the name of the origin, where there is one.
fn put_origin(
    alloc: Global,
    members: &mut Map<String, Json>,
    origin: &Option<Txt>,
) -> Result<(), AllocError>
    ensures { OnOk result (members_view members.new.entries
        ≡ with_origin origin.now (members_view members.old.entries)) }
{
    match origin {
        Some(text) => {
            let value = Json::try_from_str(alloc, text.as_str())?;
            put(members, alloc, "origin", value)
        }
        None => Ok(()),
    }
}

/// A text, or null for none.
fn json_of_comment(alloc: Global, comment: &Option<Txt>) -> Result<Json, AllocError>
    ensures { IfOk result (λ json. view json ≡ comment_data comment.now) }
{
    match comment {
        Some(text) => Json::try_from_str(alloc, text.as_str()),
        None => Ok(Json::Null),
    }
}

/// The list of columns.
fn json_of_columns(alloc: Global, columns: &[Column]) -> Result<Json, AllocError>
    ensures { IfOk result (λ json. view json ≡ columns_data columns.now) }
{
    let mut items = Vec::with_capacity(alloc, columns.len())?;
    for column in columns {
        items.push(json_of_column(alloc, column)?)?;
    }
    Ok(Json::Array(items))
}

/// The object of a column.
fn json_of_column(alloc: Global, column: &Column) -> Result<Json, AllocError>
    ensures { IfOk result (λ json. view json ≡ column_data column.now) }
{
    let kind = print_type(column.kind, column.nullable);
    let (id, name) = (column.id, column.name.as_str());
    json!(in alloc; {"id": id, "name": name, "type": kind})
}

/// The list of texts.
fn json_of_texts(alloc: Global, texts: &[Txt]) -> Result<Json, AllocError>
    ensures { IfOk result (λ json. view json ≡ texts_data texts.now) }
{
    let mut items = Vec::with_capacity(alloc, texts.len())?;
    for text in texts {
        items.push(Json::try_from_str(alloc, text.as_str())?)?;
    }
    Ok(Json::Array(items))
}

/// The object of the options.
fn json_of_options(alloc: Global, options: &Options) -> Result<Json, AllocError>
    ensures { IfOk result (λ json. view json ≡ object (settings_members (settings_of options.now))) }
{
    json_of_settings(alloc, write_options(alloc, options)?)
}

/// The object of settings.
fn json_of_settings(alloc: Global, settings: Vec<(String, String)>) -> Result<Json, AllocError>
    ensures { IfOk result (λ json. view json ≡ object (settings_members (text_views settings.items))) }
{
    let mut left = settings;
    let mut members = Map::new(alloc);
    while let Some(setting) = left.pop() {
        insert(&mut members, setting.0, setting.1)?;
    }
    Ok(Json::Object(members))
}

/// Puts a text at a key.
fn insert(members: &mut Map<String, Json>, key: String, text: String) -> Result<(), AllocError>
    ensures { OnOk result (members_view members.new.entries
        ≡ with_member (string_bytes key) (string (string_bytes text)) (members_view members.old.entries)) }
{
    drop(members.insert(key, Json::String(text))?);
    Ok(())
}
