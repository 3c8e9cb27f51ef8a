//! Table schemas, read and written again.

use pm_cases::Case;
use pm_schema::TableSchema;
use pm_schema_file::{read_draft, read_schema, write_schema};
use pm_values::Txt;

/// The text that is written for the schema of a file at a path; or its refusal.
pub fn answer(case: &mut Case, arguments: &str) {
    let (path, text) = case.split(arguments);
    let bytes = case.bytes(text);
    match read_schema(case.alloc(), path, &bytes) {
        Ok(schema) => say_schema(case, schema),
        Err(refusal) => case.refuse(refusal),
    }
}

/// The text that is written for the schema of a draft, with an origin and a moment; or its refusal.
pub fn draft_answer(case: &mut Case, arguments: &str) {
    let (made, line) = case.split(arguments);
    let (origin, moment) = case.split_at(made, ' ');
    let moment = case.signed(moment);
    let line = case.bytes(line);
    let Some(origin) = case.made(Txt::from_str(case.alloc(), origin)) else {
        return;
    };
    match read_draft(case.alloc(), &line, origin, moment) {
        Ok(schema) => say_schema(case, schema),
        Err(refusal) => case.refuse(refusal),
    }
}

/// Says the text of a schema.
fn say_schema(case: &mut Case, schema: TableSchema) {
    match write_schema(case.alloc(), &schema) {
        Ok(text) => case.say_bytes(&text),
        Err(_) => case.run_out(),
    }
    drop(schema);
}
