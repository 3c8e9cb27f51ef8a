//! What holds of all files and of all names.

ghost use Rattle.std.specs.Prelude.{◌≡◌, ℕ, ℤ, ◌^◌, ◌<◌, ◌≤◌, ◌↔◌, List, ◌∷◌, ◌++◌, Some, Ok, decimal, FitsSigned};
ghost use Rattle.std.specs.Fmt.{signed_decimal};
ghost use Rattle.std.specs.Int.{w64};
ghost use Rattle.pm_values.specs.Names.{Naming, name_of};
ghost use Rattle.pm_snapshot.specs.Consumer.{consumer_in, consumer_text};
ghost use Rattle.pm_snapshot.specs.Decimal.{natural_in, integer_in};
ghost use Rattle.pm_snapshot.specs.Names.{greatest, snapshot_name, floor_name, id_in, floor_in, BasedFile, prefix_of, suffix_of, MayName, HasBase};
ghost use Rattle.pm_snapshot.specs.Snapshot.{IsConsistent, IsSnapshot, snapshot_in, snapshot_text};
ghost use Rattle.pm_snapshot.specs.declared.consumer.Consumer.{Consumer};
ghost use Rattle.pm_snapshot.specs.declared.snapshot.Snapshot.{Snapshot};

use pm_values::names_law;

/// A decimal text is that of the number that is read from it, and of no other.
pub fn decimal_law()
    ensures natural { (text : List ℕ) (n : ℕ)
        → (natural_in text ≡ Some n) ↔ ((n < 2 ^ 64) × (text ≡ decimal n)) }
    ensures integer { (text : List ℕ) (z : ℤ)
        → (integer_in text ≡ Some z) ↔ (FitsSigned w64 z × (text ≡ signed_decimal z)) }
{}

/// A file that reads as a snapshot bears the id of its name, and its numbers are consistent. No
/// text is read as two snapshots, a snapshot's own text is read as it, and two have different ones.
pub fn snapshot_law()
    ensures id { (id : ℕ) (text : List ℕ) (s : Snapshot) → snapshot_in id text ≡ Ok s → s.id ≡ id }
    ensures consistent { (id : ℕ) (text : List ℕ) (s : Snapshot)
        → snapshot_in id text ≡ Ok s → IsConsistent s }
    ensures one { (i j : ℕ) (text : List ℕ) (s t : Snapshot)
        → snapshot_in i text ≡ Ok s → snapshot_in j text ≡ Ok t → s ≡ t }
    ensures again { (s : Snapshot) → IsSnapshot s → snapshot_in s.id (snapshot_text s) ≡ Ok s }
    ensures different { (s t : Snapshot) → IsSnapshot s → IsSnapshot t
        → snapshot_text s ≡ snapshot_text t → s ≡ t }
{}

/// The next snapshot of a consumer is at least 1, and a consumer's own text is read as it.
#[tactic(auto, unfolding(crate::specs::Consumer::consumer_in))]
pub fn consumer_law()
    ensures next { (text : List ℕ) (c : Consumer) → consumer_in text ≡ Ok c → 1 ≤ c.next }
    ensures again { (c : Consumer) → 1 ≤ c.next → c.next < 2 ^ 64
        → consumer_in (consumer_text c) ≡ Ok c }
{}

/// A name of a snapshot, or of a floor, is that of the one number that is read from it. So two
/// numbers have different names, and the name of a number reads as it.
pub fn name_law()
    ensures id { (name : List ℕ) (id : ℕ)
        → (id_in name ≡ Some id) ↔ ((id ≤ greatest) × (name ≡ snapshot_name id)) }
    ensures floor { (name : List ℕ) (n : ℕ)
        → (floor_in name ≡ Some n) ↔ ((n ≤ greatest) × (name ≡ floor_name n)) }
    ensures different { (i j : ℕ) → i < 2 ^ 64 → j < 2 ^ 64
        → snapshot_name i ≡ snapshot_name j → i ≡ j }
{}

/// A name that a maker of names gives to one of the table's files has the base of that maker, and
/// no name has two bases.
pub fn base_law()
    ensures made { (file : BasedFile) (maker : Naming) → MayName maker
        → HasBase (name_of (prefix_of file) (suffix_of file) maker) maker.base }
    ensures one { (name : List ℕ) (a b : ℕ) → HasBase name a → HasBase name b → a ≡ b }
{
    names_law();
}

/// The path of a file that a maker of names names tells the folder, which kind of file it is, and the maker with its
/// count.
pub fn path_law()
    ensures { (folder other : List ℕ) (file more : BasedFile) (m n : Naming) → MayName m → MayName n
        → folder ++ 47 ∷ name_of (prefix_of file) (suffix_of file) m
        ≡ other ++ 47 ∷ name_of (prefix_of more) (suffix_of more) n
        → (folder ≡ other) × (file ≡ more) × (m ≡ n) }
{
    names_law();
}
