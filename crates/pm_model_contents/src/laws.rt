//! What holds of all snapshots' files. Each law holds with no call but of the laws of crates below.

ghost use Rattle.std.specs.Prelude.{◌≡◌, ℕ, List, IsSome};
ghost use Rattle.std.specs.List.{AllByRecursion};
ghost use Rattle.std.specs.FinMap as finite;
ghost use Rattle.pm_values.specs.declared.group.Group.{Group};
ghost use Rattle.pm_store.specs.Files.{Files};
ghost use Rattle.pm_schema.specs.Again.{IsDeclared};
ghost use Rattle.pm_schema.specs.Folder.{FitsPartition};
ghost use Rattle.pm_schema.specs.declared.schema.TableSchema.{TableSchema};
ghost use Rattle.pm_snapshot.specs.declared.snapshot.Snapshot.{Snapshot};
ghost use Rattle.pm_levels.specs.Runs.{RunView};
ghost use Rattle.pm_manifest.specs.declared.entry.Entry.{Entry as EntryView};
ghost use Rattle.pm_manifest.specs.Entries.{IsEntry};
ghost use Rattle.pm_manifest.specs.Live.{Leaves, Live};
ghost use Rattle.pm_manifest.specs.Shape.{shape_of};
ghost use Rattle.pm_model_contents.specs.Groups.{AreNamed, HaveFolders};
ghost use Rattle.pm_model_contents.specs.Lists.{none_live};
ghost use Rattle.pm_model_contents.specs.Named.{Contents, HasContents, IsNamed};
ghost use Rattle.pm_model_contents.specs.Runs.{AreRunsOf};

use pm_levels::runs_law;
use pm_manifest::{Entry, ManifestMeta};
use pm_record::one_reading_law;

/// The files that a snapshot names have one content at most.
pub fn one_contents_law()
    ensures { (f : Files) (s : TableSchema) (x : Snapshot) (c d : Contents) →
        HasContents f s x c → HasContents f s x d → c ≡ d }
{
    one_reading_law::<ManifestMeta>();
    one_reading_law::<Entry>();
}

/// The live files of a group are the runs of one list at most.
pub fn one_runs_law()
    ensures { (live : Live) (g : Group) (runs others : List RunView) →
        AreRunsOf live g runs → AreRunsOf live g others → runs ≡ others }
{
    runs_law();
}

/// Where the files that are there stay as they are, what a snapshot's files are stays, whatever files come.
pub fn kept_law()
    ensures { (f g : Files) (s : TableSchema) (x : Snapshot) (c : Contents) →
        ((path : List ℕ) → IsSome (finite.get f path) → finite.get g path ≡ finite.get f path) →
        HasContents f s x c → HasContents g s x c }
{}

/// So it does where the files that it names are the same.
pub fn same_law()
    ensures { (f g : Files) (s : TableSchema) (x : Snapshot) (c : Contents) →
        ((path : List ℕ) → IsNamed s x c path → finite.get g path ≡ finite.get f path) →
        HasContents f s x c → HasContents g s x c }
{}

/// Before any entry, and after entries of groups of the table, each live file has its own entry and is of a group of
/// the table. So live files that entries were folded into can be put into groups.
pub fn live_law()
    ensures none { (s : TableSchema) → AreNamed none_live × HaveFolders s none_live }
    ensures named { (before after : Live) (entries : List EntryView) → AreNamed before → Leaves before entries after
        → AreNamed after }
    ensures folders { (s : TableSchema) (before after : Live) (entries : List EntryView) → HaveFolders s before
        → AllByRecursion (λ (e : EntryView). FitsPartition s e.group) entries → Leaves before entries after
        → HaveFolders s after }
{
    pm_manifest::live_law();
}

/// The group of an entry that a manifest of the table can have is one of the table, where its schema is one that a file
/// or a draft declares.
pub fn folder_law()
    ensures entry { (s : TableSchema) (e : EntryView) → IsDeclared s → IsEntry (shape_of s) e
        → FitsPartition s e.group }
    ensures entries { (s : TableSchema) (es : List EntryView) → IsDeclared s → AllByRecursion (IsEntry (shape_of s)) es
        → AllByRecursion (λ (e : EntryView). FitsPartition s e.group) es }
{}
