//! The draft that an input is.

ghost use Rattle.std.specs.Prelude.{◌≡◌, IfOk, IfErr, IfSome};
ghost use Rattle.pm_io.specs.Source.{SourceLater};
ghost use Rattle.pm_draft.specs.Draft.{IsFirstSchema};
ghost use Rattle.pm_draft.specs.Input.{ReadsDraft, MayRefuseDraft};

use crate::draft::read_draft_lines;
use crate::laws::first_schema_law;
use pm_input::{LIMITS, read_lines, refusal_of};
use pm_io::Source;
use pm_schema::TableSchema;
use pm_values::{Refusal, Txt};
use std::alloc::Global;

/// The schema of the draft that an input is, for a table whose origin has that name, made at that moment. The input is
/// read to its end first.
pub fn read_draft_input<S: Source>(
    alloc: Global,
    input: &mut S,
    origin: Txt,
    now_millis: i64,
) -> Result<TableSchema, Refusal>
    ensures answers { IfSome (S.seen input.old).left (λ bytes.
        ReadsDraft (record { origin = origin; now = now_millis }) bytes (S.seen input.old) (S.seen input.new) result) }
    ensures cause { IfErr result
        (MayRefuseDraft (record { origin = origin; now = now_millis }) (S.seen input.old) (S.seen input.new)) }
    ensures first { IfOk result (IsFirstSchema origin now_millis) }
    ensures later { SourceLater (S.seen input.old) (S.seen input.new) }
{
    first_schema_law();
    let lines = match read_lines(alloc, input, &LIMITS) {
        Ok(lines) => lines,
        Err(fault) => return Err(refusal_of(alloc, fault)?),
    };
    read_draft_lines(alloc, &lines, origin, now_millis)
}
