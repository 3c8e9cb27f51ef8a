//! Avro's data as values.

ghost use Rattle.std.specs.Prelude.{◌≡◌, IfOk};
ghost use Rattle.pm_avro_data.specs.Datum.{view, leaf_data, union_of};

use pm_base::Txt;
use std::alloc::{AllocError, Global};

/// A datum that holds no other.
#[derive(Drop)]
pub enum Leaf {
    Null,
    Bool(bool),
    Int(i32),
    Long(i64),
    Bytes(Vec<u8>),
    Text(Txt),
}

/// A datum (Apache Avro specification, "Binary Encoding").
#[derive(Drop)]
pub enum Datum {
    Null,
    Bool(bool),
    Int(i32),
    Long(i64),
    Bytes(Vec<u8>),
    Text(Txt),
    /// The values of its fields, in order.
    Record(Vec<Datum>),
    Array(Vec<Datum>),
    /// Its keys and values, in the order in which they stand.
    Map(Vec<(Txt, Datum)>),
    /// The index of the branch in the union, and the datum, which lies in no box.
    Branch(u32, Leaf),
    /// The same of any datum. `Datum::branch` makes it only of one that holds others.
    Union(u32, Box<Datum>),
}

impl Leaf {
    /// The same as a datum.
    pub fn into_datum(self) -> Datum
        ensures { view result ≡ leaf_data self }
    {
        match self {
            Leaf::Null => Datum::Null,
            Leaf::Bool(flag) => Datum::Bool(flag),
            Leaf::Int(number) => Datum::Int(number),
            Leaf::Long(number) => Datum::Long(number),
            Leaf::Bytes(content) => Datum::Bytes(content),
            Leaf::Text(text) => Datum::Text(text),
        }
    }
}

impl Datum {
    /// A union's datum: the index of the branch, and the datum of it, which is boxed only where it holds others.
    pub fn branch(alloc: Global, index: u32, datum: Datum) -> Result<Datum, AllocError>
        ensures { IfOk result (λ d. view d ≡ union_of index (view datum)) }
    {
        let leaf = match datum {
            Datum::Null => Leaf::Null,
            Datum::Bool(flag) => Leaf::Bool(flag),
            Datum::Int(number) => Leaf::Int(number),
            Datum::Long(number) => Leaf::Long(number),
            Datum::Bytes(content) => Leaf::Bytes(content),
            Datum::Text(text) => Leaf::Text(text),
            other => return Ok(Datum::Union(index, Box::new(alloc, other)?)),
        };
        Ok(Datum::Branch(index, leaf))
    }
}
