//! A type that the header of one file gave. Files that are read one after another mostly have the same text of their
//! type, and a text is read as a type once.

ghost use Rattle.std.specs.Prelude.{◌≡◌, Ok, IsTrue, option_map};
ghost use Rattle.pm_avro_schema.specs.Fault.{fault_of};
ghost use Rattle.pm_avro_schema.specs.View as types;
ghost use Rattle.pm_base.specs.Outcome.{Gives};
ghost use Rattle.pm_avro_file.specs.Header.{kind_in};
ghost use Rattle.pm_avro_file.specs.Views.{pairs_view};

use crate::header::{kind_in, last_value};
use pm_avro_data::Datum;
use pm_avro_schema::{AvroFault, AvroType};
use pm_base::Txt;
use std::alloc::Global;
use std::marker::Model;

/// A type, with the metadata that give it.
pub struct KnownType {
    pub(crate) entries: Vec<(Txt, Datum)>,
    pub(crate) kind: AvroType,
}

impl Drop for KnownType {
    fn drop(self) {
        let KnownType { entries, kind } = self;
    }
}

impl Model for KnownType {
    ghost use Rattle.std.specs.Prelude.{◌≡◌, Ok};
    ghost use Rattle.pm_avro_schema.specs.Avro.{Avro};
    ghost use Rattle.pm_avro_schema.specs.Coded.{avro_code};
    ghost use Rattle.pm_avro_schema.specs.View as types;
    ghost use Rattle.pm_avro_file.specs.Header.{kind_in};
    ghost use Rattle.pm_avro_file.specs.Views.{pairs_view};

    ghost Value = { Avro };

    ghost coded = { avro_code };

    ghost view = { λ k. types.view k.kind };

    ghost invariant = { λ k. kind_in (pairs_view k.entries.items) ≡ Ok (types.view k.kind) };
}

impl KnownType {
    /// Whether metadata have the same codec and the same text of the type, so that they give this type.
    fn is_of(&self, entries: &[(Txt, Datum)]) -> bool
        ensures { IsTrue result → kind_in (pairs_view entries.now) ≡ Ok self.now }
    {
        let own = self.entries.as_slice();
        is_same(
            last_value(entries, "avro.schema"),
            last_value(own, "avro.schema"),
        ) && is_same(
            last_value(entries, "avro.codec"),
            last_value(own, "avro.codec"),
        )
    }
}

/// Whether two values are the same, or both are absent.
fn is_same(one: Option<&[u8]>, other: Option<&[u8]>) -> bool
    ensures { IsTrue result → option_map (λ b. b.now) one.entry ≡ option_map (λ b. b.now) other.entry }
{
    match (one, other) {
        (Some(one), Some(other)) => one == other,
        (None, None) => true,
        _ => false,
    }
}

/// The type that metadata give. Where the known type is theirs, too, its text isn't read again.
pub(crate) fn kind_by(
    alloc: Global,
    entries: &[(Txt, Datum)],
    known: Option<&KnownType>,
) -> Result<AvroType, AvroFault>
    ensures { Gives types.view fault_of result (kind_in (pairs_view entries.now)) }
{
    match known {
        Some(known) if known.is_of(entries) => Ok(known.kind.copy(alloc)?),
        _ => kind_in(alloc, entries),
    }
}
