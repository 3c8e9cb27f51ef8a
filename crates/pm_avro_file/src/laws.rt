//! Laws of the relations and of what the calls answer. Each holds with no call.

ghost use Rattle.std.specs.Prelude.{◌≡◌, ◌≢◌, ◌↔◌, ◌<◌, List, [], ℕ, length, Option, Result, Ok, Err};
ghost use Rattle.std.specs.List.{AllByRecursion};
ghost use Rattle.pm_avro_schema.specs.Avro.{Avro};
ghost use Rattle.pm_avro_schema.specs.Readable.{IsReadable};
ghost use Rattle.pm_avro_schema.specs.declared.fault.AvroFault.{AvroFault};
ghost use Rattle.pm_avro_schema.specs.declared.fault.AvroFault.TheVariants.{Memory, Bad};
ghost use Rattle.pm_avro_data.specs.Datum.{Data};
ghost use Rattle.pm_avro_data.specs.HasType.{HasType};
ghost use Rattle.pm_avro_file.specs.Begun.{IsBegun};
ghost use Rattle.pm_avro_file.specs.Container.{IsBlock, IsContainer};
ghost use Rattle.pm_avro_file.specs.Reader.{Reader, Opens, AnswersAt, Leads};

/// No bytes are two files.
pub fn one_file_law()
    ensures { (t u : Avro) (blocks others : List (List Data)) (marker mark bytes : List ℕ) →
        IsContainer t blocks marker bytes → IsContainer u others mark bytes
        → (t ≡ u) × (blocks ≡ others) × (marker ≡ mark) }
{}

/// The block that a text begins with is one, with one end, and takes some bytes.
pub fn one_block_law()
    ensures one { (t : Avro) (ds es : List Data) (marker source rest other : List ℕ) →
        IsBlock t marker ds source rest → IsBlock t marker es source other → (ds ≡ es) × (rest ≡ other) }
    ensures shorter { (t : Avro) (ds : List Data) (marker source rest : List ℕ) →
        IsBlock t marker ds source rest → length rest < length source }
{}

/// Of the answers that opening may give to bytes, only out of memory isn't the one that they have.
pub fn one_opening_law()
    ensures { (bytes : List ℕ) (r s : Result Reader AvroFault) →
        Opens bytes r → Opens bytes s → r ≢ Err Memory → s ≢ Err Memory → r ≡ s }
{}

/// Of the answers that may be given at an offset, only out of memory isn't the one that it has.
pub fn one_answer_law()
    ensures { (t : Avro) (marker bytes : List ℕ) (offset : ℕ) (r s : Result (Option (List Data × ℕ)) AvroFault) →
        AnswersAt (λ d. d) t marker bytes offset r → AnswersAt (λ d. d) t marker bytes offset s
        → r ≢ Err Memory → s ≢ Err Memory → r ≡ s }
{}

/// The bytes are a file exactly where a reader opens and its answers lead to the end, and it is the file of these
/// answers.
pub fn whole_file_law()
    ensures { (t : Avro) (blocks : List (List Data)) (marker bytes : List ℕ) → IsContainer t blocks marker bytes
        ↔ ((r : Reader) × Opens bytes (Ok r) × (r.kind ≡ t) × (r.marker ≡ marker)
        × Leads r r.first blocks (length bytes)) }
{}

/// Bytes that no reader opens are no file.
pub fn unread_file_law()
    ensures { (bytes : List ℕ) (e : AvroFault) → Opens bytes (Err e) → e ≢ Memory →
        (t : Avro) (blocks : List (List Data)) (marker : List ℕ) → IsContainer t blocks marker bytes → ⊥ }
{}

/// Bytes with an offset that the answers lead to, and where no block begins, are no file.
pub fn damaged_file_law()
    ensures { (r : Reader) (before : List (List Data)) (bytes : List ℕ) (offset at : ℕ) →
        Opens bytes (Ok r) → Leads r r.first before offset
        → AnswersAt {X = List Data} (λ d. d) r.kind r.marker r.bytes offset (Err (Bad at)) →
        (t : Avro) (blocks : List (List Data)) (marker : List ℕ) → IsContainer t blocks marker bytes → ⊥ }
{}

/// What was read can be written again: the type is one that is read, and the data have it.
pub fn reread_law()
    ensures reader { (bytes : List ℕ) (r : Reader) → Opens bytes (Ok r) → IsReadable r.kind }
    ensures block { (t : Avro) (ds : List Data) (marker source rest : List ℕ) →
        IsBlock t marker ds source rest → AllByRecursion (HasType t) ds }
    ensures file { (t : Avro) (blocks : List (List Data)) (marker bytes : List ℕ) →
        IsContainer t blocks marker bytes → IsReadable t × AllByRecursion (AllByRecursion (HasType t)) blocks }
{}

/// A file that was begun is a file with its blocks.
pub fn begun_file_law()
    ensures { (t : Avro) (blocks : List (List Data)) (marker bytes : List ℕ) →
        IsBegun t marker blocks bytes → IsContainer t blocks marker bytes }
{}
