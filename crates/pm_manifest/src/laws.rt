//! What holds of all ids, of the live files of all lists of entries, and of what is written and read. Each law holds
//! with no call but of pm_record's laws.

ghost use Rattle.std.specs.Prelude.{◌≡◌, ◌≢◌, ◌⊎◌, ◌↔◌, ◌<◌, ◌^◌, ℕ, List, [], ◌∷◌, ◌++◌, true, false, IsTrue};
ghost use Rattle.std.specs.Prelude.{Option, None, Some, Ok};
ghost use Rattle.std.specs.List.{AllByRecursion};
ghost use Rattle.pm_manifest.specs.declared.entry.Entry.{Entry};
ghost use Rattle.pm_manifest.specs.declared.file_id.FileId.{FileId};
ghost use Rattle.pm_manifest.specs.FileId.{id_eq};
ghost use Rattle.pm_avro_schema.specs.Avro.{Avro};
ghost use Rattle.pm_avro_data.specs.Datum.{Data};
ghost use Rattle.pm_values.specs.declared.column.ColType.{ColType};
ghost use Rattle.pm_record.specs.File.{ReadsFile};
ghost use Rattle.pm_schema.specs.declared.schema.TableSchema.{TableSchema};
ghost use Rattle.pm_manifest.specs.declared.entry.ManifestMeta.{ManifestMeta};
ghost use Rattle.pm_manifest.specs.Entries.{IsEntry, entry_data, entry_in, has_entry_fields};
ghost use Rattle.pm_manifest.specs.Listed.{IsListed, has_meta_fields, meta_data, meta_in};
ghost use Rattle.pm_manifest.specs.Shape.{HasRest, Shape, shape_of};
ghost use Rattle.pm_manifest.specs.«Type».{entry_type, meta_type};
ghost use Rattle.pm_manifest.specs.Live.{Live, id_of, left_by, live_at, live_after, AreInOrder};

use crate::entry::{Entry, ManifestMeta};
use pm_record::records_law;

/// Ids are equal where they are one value.
pub fn id_law()
    ensures { (a b : FileId) → IsTrue (id_eq a b) ↔ (a ≡ b) }
{}

/// An entry after which no other of its file comes tells what is left of the file, whatever came before it. Where no
/// entry is of a file, what is live of it stays.
pub fn last_law()
    ensures last { (before : Option Entry) (first later : List Entry) (e : Entry)
        → AllByRecursion (λ (other : Entry). id_of other ≢ id_of e) later
        → live_at before (id_of e) (first ++ e ∷ later) ≡ left_by e }
    ensures others { (before : Option Entry) (id : FileId) (entries : List Entry)
        → AllByRecursion (λ (other : Entry). id_of other ≢ id) entries → live_at before id entries ≡ before }
{}

/// What is live of a file was live before, or it is an ADD of that file.
pub fn live_law()
    ensures { (before : Option Entry) (id : FileId) (entries : List Entry) (e : Entry)
        → live_at before id entries ≡ Some e → (before ≡ Some e) ⊎ ((e.add ≡ true) × (id_of e ≡ id)) }
{}

/// Two lists of entries leave what the second leaves after the first, and are in order where the first is, and the
/// second after it. So manifests can be folded one after another.
pub fn joined_law()
    ensures left { (before : Option Entry) (id : FileId) (first later : List Entry)
        → live_at before id (first ++ later) ≡ live_at (live_at before id first) id later }
    ensures order { (before : Live) (first later : List Entry)
        → AreInOrder before (first ++ later) ↔ (AreInOrder before first × AreInOrder (live_after before first) later) }
{}

/// A DELETE of a file at one level, and then an ADD of it at another, move it to that level.
pub fn move_law()
    ensures { (before : Live) (from to : Entry) → from.add ≡ false → to.add ≡ true
        → to.group ≡ from.group → to.file.name ≡ from.file.name → to.file.level ≢ from.file.level
        → (live_after before (from ∷ to ∷ []) (id_of from) ≡ None)
        × (live_after before (from ∷ to ∷ []) (id_of to) ≡ Some to) }
{}

/// What is read can be written: of a datum of a manifest an entry that one can have, of one of a list a manifest within
/// its bounds, and so of whole files.
pub fn read_entry_law()
    ensures entry { (s : Shape) (t : Avro) (d : Data) (e : Entry) → entry_in s t d ≡ Ok e → IsEntry s e }
    ensures meta { (t : Avro) (d : Data) (m : ManifestMeta) → meta_in t d ≡ Ok m → IsListed m }
    ensures manifest { (s : Shape) (path bytes : List ℕ) (es : List Entry)
        → ReadsFile has_entry_fields (entry_in s) path bytes (Ok es) → AllByRecursion (IsEntry s) es }
    ensures list { (path bytes : List ℕ) (ms : List ManifestMeta)
        → ReadsFile has_meta_fields meta_in path bytes (Ok ms) → AllByRecursion IsListed ms }
{
    records_law::<Entry>();
    records_law::<ManifestMeta>();
}

/// What is written is read as the same: an entry that a manifest can have of its datum, and a manifest within its
/// bounds of its datum in a list.
pub fn written_entry_law()
    ensures entry { (s : Shape) (e : Entry) → HasRest s → s.buckets < 2 ^ 31 → IsEntry s e
        → entry_in s entry_type (entry_data s e) ≡ Ok e }
    ensures meta { (types : List ColType) (m : ManifestMeta) → IsListed m
        → meta_in meta_type (meta_data types m) ≡ Ok m }
    // Each table's shape is such a one.
    ensures shape { (schema : TableSchema) → HasRest (shape_of schema) }
{}
