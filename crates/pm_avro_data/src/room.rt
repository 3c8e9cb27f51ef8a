//! How much memory the data of a text may take.

ghost use Rattle.std.specs.Prelude.{◌≡◌, ◌+◌, ◌-◌, ◌*◌, ◌^◌, ◌<◌, min, OnOk, OnErr};

use std::alloc::{AllocError, Global};

/// How many fields of records may be made for each byte of a text. Only a null takes no byte, or a record of such, so
/// a record of hundreds of nulls may stand behind each entry of a map or each branch of a union, which take a byte or
/// two: a text could ask for thousands of times as much memory as it has bytes. What is written to be read has few
/// such fields, since a field that may be null is a union and takes a byte.
const MOST_FIELDS_A_BYTE: usize = 128;

/// How many more may be made, whatever the number of bytes, so that a short text may have records of many nulls.
const FIELDS_BESIDES: usize = 1024;

/// The allocator, and how many fields of records may still be made in it.
#[derive(Drop)]
pub struct Room {
    pub(crate) alloc: Global,
    fields: usize,
}

impl Room {
    /// Room for the data of a text of so many bytes.
    pub fn new(alloc: Global, bytes: usize) -> Room
        ensures { result.fields ≡ min (bytes * 128 + 1024) (2 ^ 64 - 1) }
    {
        let most = bytes.saturating_mul(MOST_FIELDS_A_BYTE);
        Room {
            alloc,
            fields: most.saturating_add(FIELDS_BESIDES),
        }
    }

    /// Takes room for so many fields of a record, or answers that memory ran out where there isn't so much left.
    pub(crate) fn take(&mut self, fields: usize) -> Result<(), AllocError>
        ensures taken { OnOk result (self.old.fields ≡ self.new.fields + fields) }
        ensures full { OnErr result (self.old.fields < fields) }
    {
        match self.fields.checked_sub(fields) {
            Some(left) => {
                self.fields = left;
                Ok(())
            }
            None => Err(AllocError),
        }
    }
}
