//! Laws of committers.

ghost use Rattle.std.specs.Prelude.{◌≡◌, ◌⊎◌, ◌<◌, List, [], ◌∷◌, ◌++◌, Result, None, Some, Err, IfSome, IsSome};
ghost use Rattle.std.specs.Prelude.{option_map};
ghost use Rattle.std.specs.FinMap as map;
ghost use Rattle.pm_values.specs.Names.{Naming};
ghost use Rattle.pm_values.specs.declared.refusal.Refusal.{Refusal};
ghost use Rattle.pm_values.specs.declared.refusal.Refusal.TheVariants as refusals;
ghost use Rattle.pm_store.specs.Answers.{Answers};
ghost use Rattle.pm_store.specs.Files.{Files, Puts};
ghost use Rattle.pm_store.specs.Store.{StoreView};
ghost use Rattle.pm_store.specs.declared.answer.Answer.{Answer};
ghost use Rattle.pm_store.specs.declared.call.Call.{Call};
ghost use Rattle.pm_machine.specs.Moves.{Moves, Sound};
ghost use Rattle.pm_machine.specs.Step.{Stepped, path_of};
ghost use Rattle.pm_machine.specs.Trace.{Event, Recounts, faulted};
ghost use Rattle.pm_model_history.specs.History.{compaction, Entry as EntryView};
ghost use Rattle.pm_schema.specs.declared.schema.TableSchema.{TableSchema as SchemaView};
ghost use Rattle.pm_model_folder.specs.Changes.{Actor};
ghost use Rattle.pm_model_folder.specs.Ledger.{Advances, HasNamedNone, Past, Stands};
ghost use Rattle.pm_put.specs.declared.putting.CommitFile.{CommitFile as FileView};
ghost use Rattle.pm_snapshot.specs.Names.{MayName};
ghost use Rattle.pm_made.specs.declared.intent.Plan.{Plan as PlanView};
ghost use Rattle.pm_made.specs.declared.newest.Author.{Author as AuthorView};
ghost use Rattle.pm_made.specs.declared.newest.Made.{Made as MadeView};
ghost use Rattle.pm_made.specs.declared.newest.Newest.{Newest as NewestView};
ghost use Rattle.pm_compaction.specs.Plan.{KnowsPlan};
ghost use Rattle.pm_commit.specs.AllCalls.{DidAppend};
ghost use Rattle.pm_commit.specs.Alone.{Beginning, KnewAlone, KnowsAlone};
ghost use Rattle.pm_commit.specs.Committer.{calls_left, next_call, reached_at, Begins, Goes, IsCommitter, Reaches, Refuses};
ghost use Rattle.pm_commit.specs.Committer.{Stops};
ghost use Rattle.pm_commit.specs.Meaning.{IsFoundIn, IsOtherThan, Knows, KnowsBut, MakesEntry, MakesFile, MayRefuse, own_in};
ghost use Rattle.pm_commit.specs.Own.{AreAlike, OwnView, actor_of};
ghost use Rattle.pm_commit.specs.Trace.{Did, DidToEnd, Shows, ShowsAfter};
ghost use Rattle.pm_commit.specs.declared.all_calls.Appended.{Appended};
ghost use Rattle.pm_commit.specs.declared.phase.Phase.{Phase};

use pm_append::append_law;
use pm_compaction::{compaction_law, plan_law, ready_law};
use pm_made::own_files_law;
use pm_manifest::{Entry, ManifestMeta, joined_law, read_entry_law};
use pm_model_contents::{one_contents_law, same_law};
use pm_model_folder::{newest_law, unnamed_law};
use pm_read_table::{entries_law, named_law};
use pm_record::one_reading_law;
use pm_snapshot::path_law;

/// A committer keeps the laws of machines.
pub(crate) fn machine_law()
    ensures sound { (e : EntryView) → Sound next_call Goes Refuses Stops Stands (MakesEntry e) (Knows e) }
    ensures alone { (old new : Phase) (before after : StoreView) (result : Result (Unit {0}) Refusal)
        → Stepped next_call Goes Refuses Stops old new before after result
        → (b : Beginning)
        → Moves Stands (MakesEntry b.entry old) (KnewAlone b old) (KnowsAlone b new result) before after }
    ensures recounts { (s : SchemaView) (first : OwnView)
        → Recounts next_call Goes Refuses Stops (Did s first) (Shows s first) }
    ensures later { (s : SchemaView) (first : OwnView) (made : MadeView) → first.lost ≡ []
        → Recounts next_call Goes Refuses Stops (DidToEnd s first made) (ShowsAfter s first made) }
{
    joined_law();
    one_reading_law::<ManifestMeta>();
    read_entry_law();
    one_contents_law();
    same_law();
    named_law();
    entries_law();
    newest_law();
    unnamed_law();
    append_law();
    plan_law();
    ready_law();
    compaction_law();
    own_files_law();
    path_law();
    pm_read_table::causes_law();
}

/// What a committer's machine keeps, for whoever holds one in its phases: it keeps what it knows, its calls are those
/// of its trace where its first try was made before them, and each leaves a call less, and one where it goes on.
pub fn held_law()
    ensures sound { (e : EntryView) → Sound next_call Goes Refuses Stops Stands (MakesEntry e) (Knows e) }
    ensures later { (s : SchemaView) (first : OwnView) (made : MadeView) → first.lost ≡ []
        → Recounts next_call Goes Refuses Stops (DidToEnd s first made) (ShowsAfter s first made) }
    ensures goes { (m : Phase) (answer : Answer) (later : Phase) → IsCommitter m → Goes m answer later
        → IsCommitter later × (calls_left later < calls_left m) × Reaches (reached_at later) later }
    ensures has_call { (m : Phase) → IsCommitter m → 0 < calls_left m → IsSome (next_call m) }
{
    machine_law();
    committer_law();
    read_entry_law();
}

/// A compaction that is planned of the newest snapshot begins with what a committer knows, but that its files of rows
/// are there: these are still to be created, and each create makes a file of the actor's own. Once all are there it
/// knows what a committer knows.
pub fn begins_law()
    ensures begins { (f : Files) (p : Past) (s : SchemaView) (newest : NewestView) (author : AuthorView)
        (plan : PlanView) (names : Naming) (given : List FileView) (m : Phase) → Stands f p
        → IsFoundIn p (record { schema = s; newest = newest }) → author.base ≡ newest.id
        → KnowsPlan (record { session = names.session; number = names.actor }) s newest.id plan given p
        → MayName names → HasNamedNone (record { session = names.session; number = names.actor }) p
        → IsCommitter m → Begins s newest author plan names m
        → KnowsBut (compaction newest.id plan.groups.items) given [] m f p }
    ensures created { (e : EntryView) (given done left : List FileView) (file : FileView) (m : Phase) (f after : Files)
        (p : Past) → Stands f p → given ≡ done ++ file ∷ left → KnowsBut e given done m f p → 0 < calls_left m
        → map.get f file.path ≡ None → Puts f file.path (Some file.bytes) after
        → KnowsBut e given (done ++ file ∷ []) m after p }
    ensures own { (e : EntryView) (given done left : List FileView) (file : FileView) (m : Phase) (f after : Files)
        (p : Past) → Stands f p → given ≡ done ++ file ∷ left → KnowsBut e given done m f p → 0 < calls_left m
        → MakesFile file f after → MakesEntry e m f p after p }
    ensures known { (e : EntryView) (given done : List FileView) (m : Phase) (other : Actor) (f after : Files)
        (p q : Past) (left : List FileView) → given ≡ done ++ left → Stands f p → Advances other f p after q
        → IsOtherThan other m → KnowsBut e given done m f p → KnowsBut e given done m after q }
{
    own_files_law();
    plan_law();
    ready_law();
    unnamed_law();
}

/// What an answer leads to is a committer.
pub(crate) fn committer_law()
    ensures { (m : Phase) (answer : Answer) (later : Phase) → IsCommitter m → Goes m answer later → IsCommitter later }
{
    read_entry_law();
}

/// What a committer knows stays true through each kind of change of every other actor.
pub fn known_law()
    ensures { (e : EntryView) (m : Phase) (other : Actor) (f after : Files) (p q : Past) → Stands f p
        → Advances other f p after q → IsOtherThan other m → Knows e m f p → Knows e m after q }
{
    unnamed_law();
    plan_law();
    ready_law();
    own_files_law();
}

/// Whoever runs a committer goes on to run it, until the commit is over.
pub fn actor_law()
    ensures { (m : Phase) (answer : Answer) (later : Phase) → Goes m answer later
        → IfSome (option_map actor_of (own_in later)) (λ me. option_map actor_of (own_in m) ≡ Some me) }
{}

/// Whatever others do between its calls, a folder that stands shows a committer no refusal but that memory ran out;
/// that the newest snapshot has gone; that a name that is listed has its actor's mark, or a file was there; that the
/// newest snapshot has fenced its base, has a file no more that is to go, or leaves it no room; or that eleven tries
/// were lost. So E10 and E11 never come of such a folder, and to an append E15 doesn't either.
pub fn causes_law()
    ensures { (e : EntryView) (m new : Phase) (call : Call) (answer : Answer) (refusal : Refusal) (f : Files)
        (p : Past) → Stands f p → Knows e m f p → next_call m ≡ Some call → Answers call answer f
        → Refuses m answer refusal new → MayRefuse m f p refusal }
{
    joined_law();
    one_reading_law::<ManifestMeta>();
    read_entry_law();
    one_contents_law();
    same_law();
    named_law();
    entries_law();
    newest_law();
    unnamed_law();
    append_law();
    plan_law();
    ready_law();
    compaction_law();
    own_files_law();
    pm_read_table::causes_law();
}

/// The same calls of two commits that are alike show one answer at most, but that memory may have run out. So each
/// other answer comes exactly where the calls are those that it names; and after a call that failed it is that failure.
pub fn one_answer_law()
    ensures one { (s : SchemaView) (first second : OwnView) → AreAlike first second → (own : List Event)
        (one other : Result Appended Refusal) → DidAppend s first one own → DidAppend s second other own
        → (one ≡ other) ⊎ ((one ≡ Err refusals.Memory) ⊎ (other ≡ Err refusals.Memory)) }
    ensures failed { (s : SchemaView) (first : OwnView) (earlier : List Event) (call : Call)
        (result : Result Appended Refusal) → DidAppend s first result (earlier ++ faulted call ∷ [])
        → (result ≡ Err refusals.Memory) ⊎ (result ≡ Err (refusals.StoreFault (path_of call))) }
{
    joined_law();
    one_reading_law::<ManifestMeta>();
    one_reading_law::<Entry>();
}
