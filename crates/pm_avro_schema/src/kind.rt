//! Avro's types as values.

ghost use Rattle.std.specs.Prelude.{◌≡◌, IfOk};
ghost use Rattle.pm_avro_schema.specs.Avro.{takes_no_byte, take_no_byte};
ghost use Rattle.pm_avro_schema.specs.View.{view, fields_view, branches_view};

use pm_base::Txt;
use std::alloc::{AllocError, Global};

/// A type (Apache Avro specification, "Primitive Types" and "Complex Types").
#[derive(Drop)]
pub enum AvroType {
    Null,
    Boolean,
    Int,
    Long,
    Bytes,
    Text,
    /// Its fields, each with its name, in order.
    Record(Vec<(Txt, AvroType)>),
    /// The type of its items.
    Array(Box<AvroType>),
    /// The type of its values; its keys are texts.
    Map(Box<AvroType>),
    /// Its branches, in order.
    Union(Vec<AvroType>),
}

impl AvroType {
    /// An equal type.
    pub fn copy(&self, alloc: Global) -> Result<AvroType, AllocError>
        ensures { IfOk result (λ t. view t ≡ view self.now) }
    {
        copied(alloc, self)
    }

    /// Whether a datum of the type takes no byte: null, or a record of such.
    #[cycle(empty)]
    pub fn takes_no_byte(&self) -> bool
        ensures { result ≡ takes_no_byte (view self.now) }
    {
        match self {
            AvroType::Null => true,
            AvroType::Record(fields) => take_no_byte(fields),
            _ => false,
        }
    }
}

/// Whether no field of a record takes a byte.
#[cycle(empty)]
fn take_no_byte(fields: &Vec<(Txt, AvroType)>) -> bool
    ensures { result ≡ take_no_byte (fields_view fields.now.items) }
{
    for field in fields {
        if !field.1.takes_no_byte() {
            return false;
        }
    }
    true
}

/// An equal type.
#[cycle(copy)]
fn copied(alloc: Global, kind: &AvroType) -> Result<AvroType, AllocError>
    ensures { IfOk result (λ t. view t ≡ view kind.now) }
{
    match kind {
        AvroType::Null => Ok(AvroType::Null),
        AvroType::Boolean => Ok(AvroType::Boolean),
        AvroType::Int => Ok(AvroType::Int),
        AvroType::Long => Ok(AvroType::Long),
        AvroType::Bytes => Ok(AvroType::Bytes),
        AvroType::Text => Ok(AvroType::Text),
        AvroType::Record(fields) => Ok(AvroType::Record(copied_fields(alloc, fields)?)),
        AvroType::Array(items) => Ok(AvroType::Array(Box::new(alloc, copied(alloc, items)?)?)),
        AvroType::Map(values) => Ok(AvroType::Map(Box::new(alloc, copied(alloc, values)?)?)),
        AvroType::Union(branches) => Ok(AvroType::Union(copied_branches(alloc, branches)?)),
    }
}

/// Equal fields in a vector of their own.
#[cycle(copy)]
fn copied_fields(
    alloc: Global,
    fields: &Vec<(Txt, AvroType)>,
) -> Result<Vec<(Txt, AvroType)>, AllocError>
    ensures { IfOk result (λ v. fields_view v.items ≡ fields_view fields.now.items) }
{
    let mut copies = Vec::with_capacity(alloc, fields.len())?;
    for field in fields {
        copies.push((field.0.copy(alloc)?, copied(alloc, &field.1)?))?;
    }
    Ok(copies)
}

/// Equal branches in a vector of their own.
#[cycle(copy)]
fn copied_branches(alloc: Global, branches: &Vec<AvroType>) -> Result<Vec<AvroType>, AllocError>
    ensures { IfOk result (λ v. branches_view v.items ≡ branches_view branches.now.items) }
{
    let mut copies = Vec::with_capacity(alloc, branches.len())?;
    for branch in branches {
        copies.push(copied(alloc, branch)?)?;
    }
    Ok(copies)
}
