//! The fields of a record while they are read.

ghost use Rattle.std.specs.Prelude.{◌≡◌, [], ◌∷◌, ◌++◌, IfOk};
ghost use Rattle.std.specs.List.{list_any};
ghost use Rattle.std.specs.Str.{bytes_eq};
ghost use Rattle.pm_avro_schema.specs.FieldList.{names};

use crate::kind::AvroType;
use pm_base::Txt;
use std::alloc::{AllocError, Global};
use std::collections::BTreeSet;
use std::marker::Model;

/// Fields in order, seen as their list, with their names beside them in a set.
#[derive(Drop)]
pub(crate) struct FieldList {
    fields: Vec<(Txt, AvroType)>,
    names: BTreeSet<String>,
}

impl Model for FieldList {
    ghost use Rattle.std.specs.Coded.{codes};
    ghost use Rattle.pm_avro_schema.specs.FieldList.{NamedTypes, AreNames};
    ghost use Rattle.pm_avro_schema.specs.contracts.kind.AvroType as types;

    ghost Value = { NamedTypes };

    ghost coded = { Prim.hlevel (codes, types.the_row.coded) };

    ghost view = { λ l. l.fields.items };

    ghost invariant = { λ l. AreNames l.names l.fields.items };
}

impl FieldList {
    /// No fields.
    pub(crate) fn new(alloc: Global) -> FieldList
        ensures { result ≡ [] }
    {
        FieldList {
            fields: Vec::new(alloc),
            names: BTreeSet::new(alloc),
        }
    }

    /// Whether a field has this name.
    pub(crate) fn has_name(&self, name: &str) -> bool
        ensures { result ≡ list_any (λ other. bytes_eq other name.now) (names self.now) }
    {
        self.names.contains(name)
    }

    /// These fields and one more at their end.
    pub(crate) fn with(self, alloc: Global, field: (Txt, AvroType)) -> Result<FieldList, AllocError>
        ensures { IfOk result (λ l. l ≡ self ++ field ∷ []) }
    {
        let FieldList {
            mut fields,
            mut names,
        } = self;
        names.insert(String::from_str(alloc, field.0.as_str())?)?;
        fields.push(field)?;
        Ok(FieldList { fields, names })
    }

    /// The fields.
    pub(crate) fn into_fields(self) -> Vec<(Txt, AvroType)>
        ensures { result.items ≡ self }
    {
        self.fields
    }
}
