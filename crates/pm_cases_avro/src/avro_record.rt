//! A record's fields, found by their names in a type and taken from a datum of it.

ghost use Rattle.pm_avro_schema.specs.View as types;
ghost use Rattle.pm_avro_data.specs.Datum.{view};
ghost use Rattle.pm_avro_data.specs.HasType.{HasType};
ghost use Rattle.pm_record.specs.Record.{AreIndexes};

use crate::avro::say_fault;
use crate::datum::say_data;
use pm_avro_data::{Datum, decode};
use pm_avro_schema::AvroType;
use pm_cases::Case;
use pm_record::{Selection, all_differ};

/// What stands at names with commas between them in the datum of a type that digits begin with; or why not.
pub fn answer(case: &mut Case, kind: &AvroType, arguments: &str) {
    let (names, digits) = case.split(arguments);
    let names = case.parts(names, ',');
    let bytes = case.digits(digits);
    if !all_differ(&names) {
        return case.say("no such fields");
    }
    match Selection::of(case.alloc(), kind, &names) {
        Ok(Some(selection)) => say_selected(case, kind, &selection, &bytes),
        Ok(None) => case.say("no such fields"),
        Err(_) => case.run_out(),
    }
}

/// Says the selected fields of the datum that bytes begin with.
fn say_selected(case: &mut Case, kind: &AvroType, selection: &Selection, bytes: &[u8])
    requires { AreIndexes selection.now (types.view kind.now) }
{
    match decode(case.alloc(), kind, bytes) {
        Ok((datum, _)) => say_fields(case, kind, selection, datum),
        Err(fault) => say_fault(case, fault),
    }
}

/// Says the selected fields of a datum, or `none`.
fn say_fields(case: &mut Case, kind: &AvroType, selection: &Selection, datum: Datum)
    requires of_kind { AreIndexes selection.now (types.view kind.now) }
    requires of_type { HasType (types.view kind.now) (view datum) }
{
    match selection.read(case.alloc(), kind, datum) {
        Ok(Some(values)) => {
            say_data(case, "(fields", &values);
            drop(values);
        }
        Ok(None) => case.say("none"),
        Err(_) => case.run_out(),
    }
}
