//! Laws of the relation between types, data and bytes. Each holds with no call.

ghost use Rattle.std.specs.Prelude.{◌≡◌, ◌++◌, ◌≤◌, List, ℕ, length};
ghost use Rattle.pm_avro_schema.specs.Avro.{Avro};
ghost use Rattle.pm_avro_data.specs.Datum.{Data};
ghost use Rattle.pm_avro_data.specs.Writing.{encoding};
ghost use Rattle.pm_avro_data.specs.HasType.{HasType};
ghost use Rattle.pm_avro_data.specs.IsDatum.{IsDatum};

/// No bytes are two data of one type, whatever follows them.
pub fn one_datum_law()
    ensures { (t : Avro) (d e : Data) (bytes x y : List ℕ) →
        IsDatum t d (bytes ++ x) x → IsDatum t e (bytes ++ y) y → d ≡ e }
{}

/// Where two prefixes of one text are data of one type they are the same prefix.
pub fn one_prefix_law()
    ensures { (t : Avro) (d e : Data) (a b x y : List ℕ) →
        a ++ x ≡ b ++ y → IsDatum t d (a ++ x) x → IsDatum t e (b ++ y) y → a ≡ b }
{}

/// What is a datum of a type has the type: it may be written.
pub fn one_type_law()
    ensures { (t : Avro) (d : Data) (source rest : List ℕ) → IsDatum t d source rest → HasType t d }
{}

/// No spelling of a datum is shorter than what is written for it.
pub fn shortest_law()
    ensures { (t : Avro) (d : Data) (bytes rest : List ℕ) →
        IsDatum t d (bytes ++ rest) rest → length (encoding d) ≤ length bytes }
{}
