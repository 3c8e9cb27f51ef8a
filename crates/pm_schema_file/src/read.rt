//! Schemas from files and drafts.

ghost use Rattle.std.specs.Prelude.{◌≡◌, ◌≤◌, length, IfOk, OnOk, ok_or};
ghost use Rattle.serde_json.specs.View.{view};
ghost use Rattle.pm_options.specs.Faults.{Answers, judged};
ghost use Rattle.pm_options.specs.Settings.{views};
ghost use Rattle.pm_schema.specs.ColumnType.{fields_views};
ghost use Rattle.pm_schema_file.specs.Parts.{stated_by, draft_by};
ghost use Rattle.pm_schema.specs.Reading.{bad_draft, columns_fault, draft_of, file_at, schema_from, schema_of};
ghost use Rattle.pm_schema_file.specs.Shape.{Refuses};
ghost use Rattle.pm_schema.specs.Stated.{at_path, draft_in, json_of, numbered, stated_of, with_missing};
ghost use Rattle.pm_values.specs.declared.refusal.Refusal.TheVariants as refusals;
ghost use Rattle.pm_values.specs.declared.refusal.Why.TheVariants as whys;

use crate::column_type::read_columns;
use crate::rules::judge_rules;
use crate::shape::{Flaw, read_json};
use crate::stated::{DraftParts, Parts, read_file, read_parts};
use pm_options::Listed;
use pm_schema::TableSchema;
use pm_settings::{fill, limit, read_options};
use pm_values::{Column, Refusal, Txt, Why};
use serde_json::Value as Json;
use std::alloc::{AllocError, Global};

/// The greatest number of columns.
const MOST_COLUMNS: usize = 64;

/// The schema that the file at the path declares, or the file's first fault.
#[tactic(auto, unfolding(pm_schema::specs::Reading::schema_of))]
pub fn read_schema(alloc: Global, path: &str, bytes: &[u8]) -> Result<TableSchema, Refusal>
    ensures { Answers (λ s. s) result (schema_of path.now bytes.now) }
{
    let json = json_of_file(alloc, path, bytes)?;
    let parts = parts_of_file(alloc, path, &json)?;
    judge_count(alloc, parts.fields.len())?;
    let columns = read_columns(alloc, &[], parts.fields.as_slice())?;
    let parts = with_missing(parts)?;
    schema_from(alloc, parts, columns)
}

/// The first schema of a table from a draft, the first line of its input, or the line's first fault. The origin is
/// the name of the file of snapshot 0.
#[tactic(auto, unfolding(pm_schema::specs::Reading::draft_of))]
pub fn read_draft(
    alloc: Global,
    line: &[u8],
    origin: Txt,
    now_millis: i64,
) -> Result<TableSchema, Refusal>
    ensures { Answers (λ s. s) result (draft_of line.now origin now_millis) }
{
    let json = json_of_draft(alloc, line)?;
    let draft = parts_of_draft(alloc, &json)?;
    judge_count(alloc, draft.fields.len())?;
    let parts = parts_of(alloc, draft, origin, now_millis)?;
    let columns = read_columns(alloc, parts.primary.as_slice(), parts.fields.as_slice())?;
    schema_from(alloc, parts, columns)
}

/// Refuses a file that has another form than a schema's.
fn damaged<T>(alloc: Global, path: &str, flaw: Flaw) -> Result<T, Refusal>
    ensures { Refuses flaw (refusals.Damaged path.now 0) result }
{
    match flaw {
        Flaw::Memory => Err(Refusal::Memory),
        Flaw::Shape => {
            let path = Txt::from_str(alloc, path)?;
            Err(Refusal::Damaged { path, place: 0 })
        }
    }
}

/// The JSON of a file.
fn json_of_file(alloc: Global, path: &str, bytes: &[u8]) -> Result<Json, Refusal>
    ensures { Answers view result (ok_or (json_of bytes.now) (refusals.Damaged path.now 0)) }
{
    match read_json(alloc, bytes) {
        Ok(json) => Ok(json),
        Err(flaw) => damaged(alloc, path, flaw),
    }
}

/// What a file states.
fn parts_of_file<'j>(alloc: Global, path: &str, json: &'j Json) -> Result<Parts<'j>, Refusal>
    ensures { Answers stated_by result (ok_or (file_at path.now (view json.now)) (refusals.Damaged path.now 0)) }
{
    match read_file(alloc, json) {
        Ok(parts) => at_path(alloc, path, parts),
        Err(flaw) => damaged(alloc, path, flaw),
    }
}

/// What a file states, if it is the file at the path.
fn at_path<'j>(alloc: Global, path: &str, parts: Parts<'j>) -> Result<Parts<'j>, Refusal>
    ensures { Answers stated_by result
        (ok_or (at_path path.now (stated_by parts.entry)) (refusals.Damaged path.now 0)) }
{
    let id = parts.id;
    let own = format!(in alloc; "schema/schema-{id}")?;
    if own.as_str() == path {
        Ok(parts)
    } else {
        damaged(alloc, path, Flaw::Shape)
    }
}

/// Refuses more columns than there may be.
fn judge_count(alloc: Global, count: usize) -> Result<(), Refusal>
    ensures exact { Answers (λ u. u) result (judged (columns_fault count)) }
    ensures few { OnOk result (count ≤ 64) }
{
    if count > MOST_COLUMNS {
        limit(alloc, "columns", MOST_COLUMNS as u64)
    } else {
        Ok(())
    }
}

/// Puts texts that aren't taken where options are missing that a schema has to have.
fn with_missing<'j>(parts: Parts<'j>) -> Result<Parts<'j>, AllocError>
    ensures { IfOk result (λ p. stated_by p ≡ with_missing (stated_by parts.entry)) }
{
    let mut parts = parts;
    fill(&mut parts.settings, "bucket", "-1")?;
    fill(&mut parts.settings, "file.format", "")?;
    Ok(parts)
}

/// The schema of what is stated, with its columns.
#[tactic(auto, unfolding(pm_schema::specs::Reading::schema_from))]
fn schema_from(
    alloc: Global,
    parts: Parts<'_>,
    columns: Vec<Column>,
) -> Result<TableSchema, Refusal>
    ensures { Answers (λ s. s) result (schema_from (stated_by parts.entry) columns.items) }
{
    let options = read_options(alloc, parts.settings.as_slice())?;
    let schema = TableSchema {
        id: parts.id,
        columns: Listed::new(columns),
        highest: parts.highest,
        partition: parts.partition,
        primary: parts.primary,
        options,
        comment: parts.comment,
        time: parts.time,
        origin: parts.origin,
    };
    judge_rules(&schema)?;
    Ok(schema)
}

/// Refuses a line that is no draft.
fn bad_draft<T>(alloc: Global, why: Why, flaw: Flaw) -> Result<T, Refusal>
    ensures { Refuses flaw (bad_draft why) result }
{
    match flaw {
        Flaw::Memory => Err(Refusal::Memory),
        Flaw::Shape => {
            let column = Txt::from_str(alloc, "")?;
            Err(Refusal::BadLine {
                line: 1,
                why,
                column,
            })
        }
    }
}

/// The JSON of a line.
fn json_of_draft(alloc: Global, line: &[u8]) -> Result<Json, Refusal>
    ensures { Answers view result (ok_or (json_of line.now) (bad_draft whys.Json)) }
{
    match read_json(alloc, line) {
        Ok(json) => Ok(json),
        Err(flaw) => bad_draft(alloc, Why::Json, flaw),
    }
}

/// What a draft states.
fn parts_of_draft<'j>(alloc: Global, json: &'j Json) -> Result<DraftParts<'j>, Refusal>
    ensures { Answers draft_by result (ok_or (draft_in (view json.now)) (bad_draft whys.Draft)) }
{
    match read_parts(alloc, json) {
        Ok(parts) => Ok(parts),
        Err(flaw) => bad_draft(alloc, Why::Draft, flaw),
    }
}

/// A draft as the first schema of a table.
fn parts_of<'j>(
    alloc: Global,
    draft: DraftParts<'j>,
    origin: Txt,
    now_millis: i64,
) -> Result<Parts<'j>, AllocError>
    requires { length draft.fields.items ≤ 64 }
    ensures { IfOk result (λ p. stated_by p ≡ stated_of (draft_by draft.entry) origin now_millis) }
{
    let fields = numbered(alloc, draft.fields.as_slice())?;
    let highest = fields.len().saturating_sub(1) as u32;
    let mut settings = draft.settings;
    fill(&mut settings, "bucket", "1")?;
    fill(&mut settings, "file.format", "avro")?;
    Ok(Parts {
        id: 0,
        fields,
        highest,
        partition: draft.partition,
        primary: draft.primary,
        settings,
        comment: draft.comment,
        time: now_millis,
        origin: Some(origin),
    })
}

/// Fields with ids from 0 in order.
fn numbered<'j>(
    alloc: Global,
    fields: &[(&'j str, &'j str)],
) -> Result<Vec<(u32, &'j str, &'j str)>, AllocError>
    requires { length fields.now ≤ 64 }
    ensures fields { IfOk result (λ v. fields_views v.items ≡ numbered 0 (views fields.now)) }
    ensures count { IfOk result (λ v. length v.items ≡ length fields.now) }
{
    let mut out = Vec::with_capacity(alloc, fields.len())?;
    for (index, (name, text)) in fields.iter().enumerate() {
        out.push((index as u32, *name, *text))?;
    }
    Ok(out)
}
