//! What a schema's file or a draft states.

ghost use Rattle.serde_json.specs.View.{view};
ghost use Rattle.pm_options.specs.Settings.{views};
ghost use Rattle.pm_schema_file.specs.Parts.{stated_by, draft_by};
ghost use Rattle.pm_schema_file.specs.Shape.{Reads};
ghost use Rattle.pm_schema.specs.Stated.{file_in, draft_in, settings_at, partition_or, settings_or};

use crate::shape::{
    Flaw, all_fields, all_named, comment_in, field_list, origin_in, settings_of, short_at,
    texts_at, texts_of, time_at, whole_at,
};
use pm_options::Listed;
use pm_values::Txt;
use serde_json::Value as Json;
use std::alloc::Global;

/// What a file states, with texts of the file's JSON.
#[derive(Drop)]
pub(crate) struct Parts<'j> {
    pub(crate) id: u64,
    pub(crate) fields: Vec<(u32, &'j str, &'j str)>,
    pub(crate) highest: u32,
    pub(crate) partition: Listed<Txt>,
    pub(crate) primary: Listed<Txt>,
    pub(crate) settings: Vec<(&'j str, &'j str)>,
    pub(crate) comment: Option<Txt>,
    pub(crate) time: i64,
    pub(crate) origin: Option<Txt>,
}

/// What a draft states, with texts of the draft's JSON.
#[derive(Drop)]
pub(crate) struct DraftParts<'j> {
    pub(crate) fields: Vec<(&'j str, &'j str)>,
    pub(crate) partition: Listed<Txt>,
    pub(crate) primary: Listed<Txt>,
    pub(crate) settings: Vec<(&'j str, &'j str)>,
    pub(crate) comment: Option<Txt>,
}

/// What an object states as a schema.
#[tactic(auto, unfolding(pm_schema::specs::Stated::file_in))]
pub(crate) fn read_file<'j>(alloc: Global, json: &'j Json) -> Result<Parts<'j>, Flaw>
    ensures { Reads stated_by result (file_in (view json.now)) }
{
    let id = whole_at(json, "id")?;
    let items = field_list(json)?;
    let fields = all_fields(alloc, items)?;
    let highest = short_at(json, "highestFieldId")?;
    let partition = texts_at(alloc, json, "partitionKeys")?;
    let primary = texts_at(alloc, json, "primaryKeys")?;
    let settings = settings_at(alloc, json)?;
    let comment = comment_in(alloc, json)?;
    let time = time_at(json, "timeMillis")?;
    let origin = origin_in(alloc, json)?;
    Ok(Parts {
        id,
        fields,
        highest,
        partition,
        primary,
        settings,
        comment,
        time,
        origin,
    })
}

/// What an object states as a draft.
#[tactic(auto, unfolding(pm_schema::specs::Stated::draft_in))]
pub(crate) fn read_parts<'j>(alloc: Global, json: &'j Json) -> Result<DraftParts<'j>, Flaw>
    ensures { Reads draft_by result (draft_in (view json.now)) }
{
    let items = field_list(json)?;
    let fields = all_named(alloc, items)?;
    let partition = partition_or(alloc, json)?;
    let primary = texts_at(alloc, json, "primaryKeys")?;
    let settings = settings_or(alloc, json)?;
    let comment = comment_in(alloc, json)?;
    Ok(DraftParts {
        fields,
        partition,
        primary,
        settings,
        comment,
    })
}

/// The options of a schema.
fn settings_at<'j>(alloc: Global, json: &'j Json) -> Result<Vec<(&'j str, &'j str)>, Flaw>
    ensures { Reads (λ v. views v.items) result (settings_at (view json.now)) }
{
    match json.get("options") {
        Some(value) => settings_of(alloc, value),
        None => Err(Flaw::Shape),
    }
}

/// The options of a draft, none where they are missing.
fn settings_or<'j>(alloc: Global, json: &'j Json) -> Result<Vec<(&'j str, &'j str)>, Flaw>
    ensures { Reads (λ v. views v.items) result (settings_or (view json.now)) }
{
    match json.get("options") {
        Some(value) => settings_of(alloc, value),
        None => Ok(Vec::new(alloc)),
    }
}

/// The partition columns of a draft, none where they are missing.
fn partition_or(alloc: Global, json: &Json) -> Result<Listed<Txt>, Flaw>
    ensures { Reads (λ l. l) result (partition_or (view json.now)) }
{
    match json.get("partitionKeys") {
        Some(value) => texts_of(alloc, value),
        None => Ok(Listed::new(Vec::new(alloc))),
    }
}
