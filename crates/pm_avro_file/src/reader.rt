//! Reading a file.

ghost use Rattle.std.specs.Prelude.{◌≡◌, ◌≤◌, map, length, IfOk, IfSome};
ghost use Rattle.std.specs.List.{AllByRecursion};
ghost use Rattle.pm_avro_schema.specs.View as types;
ghost use Rattle.pm_avro_schema.specs.Readable.{IsReadable};
ghost use Rattle.pm_avro_data.specs.Datum.{view};
ghost use Rattle.pm_avro_data.specs.HasType.{HasType};
ghost use Rattle.pm_avro_file.specs.Reader.{Reader, Opens, AnswersAt, Advances};

use crate::block::answer_at;
use crate::header::{Preamble, read_preamble};
use crate::known::{KnownType, kind_by};
use crate::stop::Stop;
use pm_avro_data::Datum;
use pm_avro_schema::{AvroFault, AvroType};
use pm_base::{Blob, Txt};
use std::alloc::Global;
use std::marker::Model;

/// A file that is read block by block, from the first on or at offsets that were answered. Offsets are in bytes.
pub struct FileReader {
    bytes: Blob,
    entries: Vec<(Txt, Datum)>,
    kind: AvroType,
    marker: [u8; 16],
    first: usize,
    offset: usize,
    stop: Option<Stop>,
}

impl Drop for FileReader {
    fn drop(self) {
        let FileReader {
            bytes,
            entries,
            kind,
            marker,
            first,
            offset,
            stop,
        } = self;
    }
}

impl Model for FileReader {
    ghost use Rattle.std.specs.Prelude.{◌≡◌, ◌≤◌, length, option_map, Ok};
    ghost use Rattle.pm_avro_schema.specs.View as types;
    ghost use Rattle.std.specs.Coded.{codes};
    ghost use Rattle.pm_avro_schema.specs.Coded.{avro_code};
    ghost use Rattle.pm_avro_schema.specs.Readable.{IsReadable};
    ghost use Rattle.pm_avro_file.specs.Header.{kind_in};
    ghost use Rattle.pm_avro_file.specs.Reader.{Reader, stop_fault};
    ghost use Rattle.pm_avro_file.specs.Views.{pairs_view};

    ghost Value = { Reader };

    ghost coded = { Prim.hlevel (codes, avro_code) };

    ghost view = { λ r. record {
      bytes = r.bytes;
      kind = types.view r.kind;
      marker = r.marker;
      first = r.first;
      offset = r.offset;
      fault = option_map stop_fault r.stop;
    } };

    ghost invariant = { λ r. (r.first ≤ length r.bytes) × (r.offset ≤ length r.bytes)
        × IsReadable (types.view r.kind) × (kind_in (pairs_view r.entries.items) ≡ Ok (types.view r.kind)) };
}

impl FileReader {
    /// A reader before the first block. Faults are `Memory`, `Unsupported` with what `codec` and its text or what
    /// `type` and its text, and `Bad` at 0. The codec is judged before the text of the type.
    pub fn open(alloc: Global, bytes: Blob) -> Result<FileReader, AvroFault>
        ensures { Opens bytes result }
    {
        FileReader::open_by(alloc, bytes, None)
    }

    /// The same. A type that is known from another file isn't read again where the text of this one's is the same.
    pub fn open_by(
        alloc: Global,
        bytes: Blob,
        known: Option<&KnownType>,
    ) -> Result<FileReader, AvroFault>
        ensures { Opens bytes result }
    {
        let Some(preamble) = read_preamble(alloc, bytes.as_bytes())? else {
            return Err(AvroFault::Bad(0));
        };
        let kind = kind_by(alloc, &preamble.entries, known)?;
        let Preamble {
            entries,
            marker,
            size,
        } = preamble;
        Ok(FileReader {
            bytes,
            entries,
            kind,
            marker,
            first: size,
            offset: size,
            stop: None,
        })
    }

    /// The type of the data, as the reader of another file may know it.
    pub fn into_known(self) -> KnownType
        ensures { result ≡ self.kind }
    {
        let FileReader {
            bytes,
            entries,
            kind,
            marker,
            first,
            offset,
            stop,
        } = self;
        drop(bytes);
        KnownType { entries, kind }
    }

    /// The type of the data, of which more may be written.
    pub fn kind(&self) -> &AvroType
        ensures kind { types.view result.now ≡ self.now.kind }
        ensures readable { IsReadable (types.view result.now) }
    {
        &self.kind
    }

    /// All bytes of the file.
    pub fn bytes(&self) -> &[u8]
        ensures { result.now ≡ self.now.bytes }
    {
        self.bytes.as_bytes()
    }

    /// Where the first block begins, or the end of a file without blocks.
    pub fn first(&self) -> usize
        ensures first { result ≡ self.now.first }
        ensures within { result ≤ length self.now.bytes }
    {
        self.first
    }

    /// The data of the next block, or none at the end. Faults are `Memory`, and `Bad` at the block's offset; after a
    /// fault the same one is answered again.
    pub fn next_block(&mut self, alloc: Global) -> Result<Option<Vec<Datum>>, AvroFault>
        ensures advances { Advances (λ v. map view v.items) self.old self.new result }
        // What is read may be written again.
        ensures typed { IfOk result (λ found. IfSome found (λ v.
            AllByRecursion (HasType self.old.kind) (map view v.items))) }
    {
        if let Some(stop) = self.stop {
            return Err(stop.fault());
        }
        match answer_at(
            alloc,
            &self.kind,
            &self.marker,
            self.bytes.as_bytes(),
            self.offset,
        ) {
            Ok(Some((data, next))) => {
                self.offset = next;
                Ok(Some(data))
            }
            Ok(None) => Ok(None),
            Err(stop) => {
                self.stop = Some(stop);
                Err(stop.fault())
            }
        }
    }

    /// The data of the block at an offset and the offset after it, or none at the end. Faults are `Memory`, and `Bad`
    /// at this offset. Blocks begin at `first` and at the offsets that are answered here.
    pub fn block_at(
        &self,
        alloc: Global,
        offset: usize,
    ) -> Result<Option<(Vec<Datum>, usize)>, AvroFault>
        requires { offset ≤ length self.now.bytes }
        ensures answers { AnswersAt (λ v. map view v.items) self.now.kind self.now.marker self.now.bytes
            offset result }
        // What is read may be written again.
        ensures typed { IfOk result (λ found. IfSome found (λ x.
            AllByRecursion (HasType self.now.kind) (map view x.0.items))) }
    {
        let bytes = self.bytes.as_bytes();
        match answer_at(alloc, &self.kind, &self.marker, bytes, offset) {
            Ok(found) => Ok(found),
            Err(stop) => Err(stop.fault()),
        }
    }
}
