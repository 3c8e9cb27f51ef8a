//! The table of a draft, and what is tried with it.

use crate::{folder, manifest, manifest_blocks};
use pm_base::Txt;
use pm_cases::Case;
use pm_cases_runs::run_answer;
use pm_schema::TableSchema;
use pm_schema_file::read_draft;

/// What a codec answers of the table of a draft. A draft that is refused is no case.
pub fn answer(rt: &HostRuntime, case: &mut Case, codec: &str, draft: &str, rest: &str) {
    let Some(origin) = case.made(Txt::from_str(case.alloc(), "")) else {
        return;
    };
    match read_draft(case.alloc(), draft.as_bytes(), origin, 0) {
        Ok(schema) => answer_of(rt, case, codec, schema, rest),
        Err(refusal) => {
            drop(refusal);
            case.reject();
        }
    }
}

/// The same of its schema.
fn answer_of(rt: &HostRuntime, case: &mut Case, codec: &str, schema: TableSchema, rest: &str) {
    match codec {
        "folder" => folder::answer(case, &schema, rest),
        "manifest-list" => manifest::list_answer(case, &schema, rest),
        "manifest" => manifest::answer(case, &schema, rest),
        "list-blocks" => manifest_blocks::list_answer(case, &schema, rest),
        "manifest-blocks" => manifest_blocks::answer(case, &schema, rest),
        _ => run_answer(rt, case, codec, &schema, rest),
    }
    drop(schema);
}
