//! A law of texts and the types that they declare. It holds with no call.

ghost use Rattle.std.specs.Prelude.{◌≡◌, ◌↔◌, List, ℕ, Ok};
ghost use Rattle.pm_avro_schema.specs.Avro.{Avro};
ghost use Rattle.pm_avro_schema.specs.Meaning.{TypeOf};
ghost use Rattle.pm_avro_schema.specs.Readable.{IsReadable};
ghost use Rattle.pm_avro_schema.specs.Reading.{parsed_type};

/// A text is read as a type exactly where it declares the type, so it declares one at most, and a
/// readable one.
pub fn reading_law()
    ensures exact { (schema : List ℕ) (t : Avro) → (parsed_type schema ≡ Ok t) ↔ TypeOf schema t }
    ensures readable { (schema : List ℕ) (t : Avro) → TypeOf schema t → IsReadable t }
{}
