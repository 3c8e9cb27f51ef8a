//! Laws of what is selected, and of what files are read as. Each holds with no call but of pm_avro_file's laws.

ghost use Rattle.std.specs.Prelude.{◌≡◌, ◌≢◌, ◌↔◌, List, ℕ, Bool, true, Some, None, Result, Ok, Err};
ghost use Rattle.pm_values.specs.declared.refusal.Refusal.{Refusal};
ghost use Rattle.pm_values.specs.declared.refusal.Refusal.TheVariants.{Memory};
ghost use Rattle.pm_avro_schema.specs.Avro.{Avro};
ghost use Rattle.pm_avro_data.specs.Datum.{Data};
ghost use Rattle.pm_avro_data.specs.HasType.{HasType};
ghost use Rattle.pm_avro_file.specs.Container.{IsContainer};
ghost use Rattle.pm_record.specs.File.{Reading, all_read, joined, ReadsFile, IsFileOf};
ghost use Rattle.pm_record.specs.Record.{beside_null, present, indexes_in, selected, HaveFieldTypes};

use pm_avro_file::{one_block_law, one_opening_law, whole_file_law};

/// What is left of a datum without null has the type that is left.
pub fn present_law()
    ensures { (t : Avro) (d e : Data) → HasType t d → present t d ≡ Some e → HasType (beside_null t) e }
{}

/// What is selected has the types of its fields.
pub fn selected_law()
    ensures { (names : List (List ℕ)) (t : Avro) (d : Data) (ds : List Data) →
        HasType t d → selected names t d ≡ Some ds → HaveFieldTypes names t ds }
{}

/// Of a record that has the names, nothing is selected exactly where null stands for it.
pub fn absent_law()
    ensures { (names : List (List ℕ)) (is : List ℕ) (t : Avro) (d : Data) →
        indexes_in names t ≡ Some is → HasType t d → (selected names t d ≡ None) ↔ (present t d ≡ None) }
{}

/// Of the answers that the bytes of a file may have, only out of memory isn't the one that they have.
pub fn one_reading_law<X>()
    ensures { (takes : Avro → Bool) (reads : Reading X) (path bytes : List ℕ) (a b : Result (List X) Refusal) →
        ReadsFile takes reads path bytes a → ReadsFile takes reads path bytes b
        → a ≢ Err Memory → b ≢ Err Memory → a ≡ b }
{
    one_opening_law();
    one_block_law();
}

/// The bytes are read as these records exactly where they are a container file of a type that is taken, whose data are
/// read as them.
pub fn records_law<X>()
    ensures { (takes : Avro → Bool) (reads : Reading X) (path bytes : List ℕ) (xs : List X) →
        ReadsFile takes reads path bytes (Ok xs)
        ↔ ((t : Avro) × (blocks : List (List Data)) × (marker : List ℕ) × IsContainer t blocks marker bytes
        × (takes t ≡ true) × (all_read (reads t) (joined blocks) ≡ Ok xs)) }
{
    whole_file_law();
}

/// A file that is written of these data is read as what they are read as.
pub fn written_law<X>()
    ensures { (t : Avro) (most : ℕ) (ds : List Data) (marker bytes path : List ℕ) (takes : Avro → Bool)
        (reads : Reading X) (xs : List X) → IsFileOf t most ds marker bytes
        → takes t ≡ true → all_read (reads t) ds ≡ Ok xs → ReadsFile takes reads path bytes (Ok xs) }
{
    whole_file_law();
}
