//! What of a table's schema its data files depend on.

ghost use Rattle.std.specs.Prelude.{◌≡◌, ◌++◌, IfOk, OnOk, map};
ghost use Rattle.pm_model_history.specs.ColumnValue.{index_of};
ghost use Rattle.pm_record.specs.Record.{lent};
ghost use Rattle.pm_schema.specs.Rules.{is_among};
ghost use Rattle.pm_run.specs.Form.{apart_from, field_of, form_of, key_field, key_field_of, key_name, names_of};
ghost use Rattle.pm_run.specs.Form.{row_fields, stray_field, written_fields};

use pm_base::Txt;
use pm_model_history::{index_of, indexes_of};
use pm_run::Field;
use pm_schema::{EngineKind, TableSchema};
use pm_values::{ColType, Column};
use std::alloc::{AllocError, Global};
use std::marker::Model;

/// The columns, those of the key, and the engine of a table.
pub struct TableForm {
    /// The fields of the columns.
    pub columns: Vec<Field>,
    /// The fields of the primary key without the partition columns, in the key's order.
    pub keys: Vec<Field>,
    /// Of each of these the index of its column.
    pub places: Vec<usize>,
    /// The indexes of the primary key's columns, in its order.
    pub primary: Vec<usize>,
    /// Whether these are the places, as where the table has no partition columns.
    pub whole: bool,
    pub engine: EngineKind,
}

impl Drop for TableForm {
    fn drop(self) {
        let TableForm {
            columns,
            keys,
            places,
            primary,
            whole,
            engine,
        } = self;
    }
}

impl Model for TableForm {
    ghost use Rattle.std.specs.Prelude.{◌≡◌, true};
    ghost use Rattle.pm_run.specs.Form.{Form};

    ghost Value = { Form };

    ghost view = { λ f. record {
      columns = f.columns.items;
      keys = f.keys.items;
      places = f.places.items;
      primary = f.primary.items;
      engine = f.engine;
    } };

    ghost invariant = { λ f. f.whole ≡ true → f.places.items ≡ f.primary.items };
}

impl TableForm {
    /// The form of a table of this schema.
    pub fn of(alloc: Global, schema: &TableSchema) -> Result<TableForm, AllocError>
        ensures { IfOk result (λ f. f ≡ form_of schema.now) }
    {
        let columns = schema.columns.as_slice();
        let partition = schema.partition.as_slice();
        let primary = schema.primary.as_slice();
        let columns = fields_of(alloc, columns)?;
        let keys = key_fields(alloc, schema.columns.as_slice(), partition, primary)?;
        let places = key_places(alloc, schema, partition, primary)?;
        let primary = indexes_of(alloc, schema, primary)?;
        let whole = places.as_slice() == primary.as_slice();
        Ok(TableForm {
            columns,
            keys,
            places,
            primary,
            engine: schema.options.engine,
            whole,
        })
    }

    /// The names of the fields that are read, in the order in which they are judged.
    pub fn row_names(&self, alloc: Global) -> Result<Vec<&str>, AllocError>
        ensures { IfOk result (λ v. lent v.items ≡ row_fields self.now) }
    {
        let mut names = Vec::with_capacity(alloc, 2)?;
        names.push("_SEQUENCE_NUMBER")?;
        names.push("_VALUE_KIND")?;
        push_names(&mut names, &self.columns)?;
        push_names(&mut names, &self.keys)?;
        Ok(names)
    }

    /// The names of the fields that are written, in their order.
    pub fn written_names(&self, alloc: Global) -> Result<Vec<&str>, AllocError>
        ensures { IfOk result (λ v. lent v.items ≡ written_fields self.now) }
    {
        let mut names = Vec::new(alloc);
        push_names(&mut names, &self.keys)?;
        names.push("_SEQUENCE_NUMBER")?;
        names.push("_VALUE_KIND")?;
        push_names(&mut names, &self.columns)?;
        Ok(names)
    }
}

/// Adds the names of fields.
fn push_names<'f>(names: &mut Vec<&'f str>, fields: &'f [Field]) -> Result<(), AllocError>
    ensures { OnOk result (lent names.new.items ≡ lent names.old.items ++ names_of fields.now) }
{
    for field in fields {
        names.push(field.name.as_str())?;
    }
    Ok(())
}

/// The fields of columns.
fn fields_of(alloc: Global, columns: &[Column]) -> Result<Vec<Field>, AllocError>
    ensures { IfOk result (λ v. v.items ≡ map field_of columns.now) }
{
    let mut fields = Vec::with_capacity(alloc, columns.len())?;
    for column in columns {
        fields.push(Field {
            name: column.name.copy(alloc)?,
            kind: column.kind,
            nullable: column.nullable,
        })?;
    }
    Ok(fields)
}

/// The fields of the key for the columns with these names that aren't among others.
fn key_fields(
    alloc: Global,
    columns: &[Column],
    others: &[Txt],
    names: &[Txt],
) -> Result<Vec<Field>, AllocError>
    ensures { IfOk result (λ v. v.items ≡ map (key_field columns.now) (apart_from others.now names.now)) }
{
    let mut fields = Vec::new(alloc);
    for name in names {
        if !is_among(others, name.as_str()) {
            fields.push(key_field(alloc, columns, name.as_str())?)?;
        }
    }
    Ok(fields)
}

/// The field of the key for the column with a name.
fn key_field(alloc: Global, columns: &[Column], name: &str) -> Result<Field, AllocError>
    ensures { IfOk result (λ f. f ≡ key_field columns.now name.now) }
{
    for column in columns {
        if column.name.as_str() == name {
            return key_field_of(alloc, name, column);
        }
    }
    stray_field(alloc, name)
}

/// The field of the key for a column.
fn key_field_of(alloc: Global, name: &str, column: &Column) -> Result<Field, AllocError>
    ensures { IfOk result (λ f. f ≡ key_field_of name.now column.now) }
{
    Ok(Field {
        name: key_name(alloc, name)?,
        kind: column.kind,
        nullable: column.nullable,
    })
}

/// The field of the key for a name that no column has.
fn stray_field(alloc: Global, name: &str) -> Result<Field, AllocError>
    ensures { IfOk result (λ f. f ≡ stray_field name.now) }
{
    Ok(Field {
        name: key_name(alloc, name)?,
        kind: ColType::Text,
        nullable: false,
    })
}

/// The name of the field of a column of the key.
fn key_name(alloc: Global, name: &str) -> Result<Txt, AllocError>
    ensures { IfOk result (λ t. t ≡ key_name name.now) }
{
    let text = format!(in alloc; "_KEY_{name}")?;
    Txt::from_str(alloc, text.as_str())
}

/// Whether a name is among others.
fn is_among(others: &[Txt], name: &str) -> bool
    ensures { result ≡ is_among others.now name.now }
{
    for other in others {
        if other.as_str() == name {
            return true;
        }
    }
    false
}

/// The indexes of the columns with these names that aren't among others.
fn key_places(
    alloc: Global,
    schema: &TableSchema,
    others: &[Txt],
    names: &[Txt],
) -> Result<Vec<usize>, AllocError>
    ensures { IfOk result (λ v. v.items ≡ map (index_of schema.now) (apart_from others.now names.now)) }
{
    let mut places = Vec::new(alloc);
    for name in names {
        if !is_among(others, name.as_str()) {
            places.push(index_of(schema, name.as_str()))?;
        }
    }
    Ok(places)
}
