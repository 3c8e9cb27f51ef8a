//! Laws of folders. Each holds with no call.

ghost use Rattle.std.specs.Prelude.{◌≡◌, ◌≢◌, ◌↔◌, ◌⊎◌, ℕ, ◌+◌, ◌≤◌, List, [], length, map as each_of, Contains};
ghost use Rattle.std.specs.Prelude.{suc, ◌<◌, false, Option, Some, None, IsSome};
ghost use Rattle.std.specs.FinMap as map;
ghost use Rattle.std.specs.List.{range_with_len};
ghost use Rattle.pm_store.specs.Files.{Files, IsListing, Puts};
ghost use Rattle.pm_values.specs.declared.group.Group.{Group};
ghost use Rattle.pm_model_consumers.specs.Claims.{Claim, Counts, Holds, settled};
ghost use Rattle.pm_model_history.specs.History.{Entry, History, GoesOn, IsTableOf, no_table, table};
ghost use Rattle.pm_model_following.specs.Following.{frame};
ghost use Rattle.pm_schema.specs.declared.schema.TableSchema.{TableSchema};
ghost use Rattle.pm_snapshot.specs.Names.{greatest};
ghost use Rattle.pm_snapshot.specs.declared.consumer.Consumer.{Consumer};
ghost use Rattle.pm_snapshot.specs.declared.snapshot.Snapshot.{Snapshot};
ghost use Rattle.pm_model_contents.specs.Named.{Contents};
ghost use Rattle.pm_model_folder.specs.Changes.{Actor, Change, IsActor, IsNamedBy, IsNoOrigin, IsOwn, IsOwnFile};
ghost use Rattle.pm_model_folder.specs.Changes.{HavePlainNames, IsConsumerFile, IsPlain, IsSnapshotPath, IsTablePath};
ghost use Rattle.pm_model_folder.specs.Changes.{IsUnneeded, origin_name};
ghost use Rattle.pm_model_folder.specs.Commits.{HasCommit, Names, Needs, live_in};
ghost use Rattle.pm_model_folder.specs.Entries.{IsFenced};
ghost use Rattle.pm_model_folder.specs.Consumers.{IsMoved, follower_of, moment_of};
ghost use Rattle.pm_model_folder.specs.Folder.{Folder, HaveSettled, IsAnnounced};
ghost use Rattle.pm_model_folder.specs.Ledger.{Advances, AreAbove, HasConsumersOf, HasNamedNone, IsUnnamed};
ghost use Rattle.pm_model_folder.specs.Ledger.{MovesConsumers, Past, Stands, WasNamed, count_of};
ghost use Rattle.pm_model_folder.specs.Meaning.{ConsumerAt, HasSnapshotAt, IsLeast, SnapshotAt};
ghost use Rattle.pm_model_folder.specs.Paths.{consumer_path, floor_path, schema_folder, schema_name};
ghost use Rattle.pm_model_folder.specs.Paths.{snapshot_file, snapshot_path};
ghost use Rattle.pm_model_folder.specs.Runs.{HaveLiveFiles};
ghost use Rattle.pm_runs.specs.Succession.{IsTaken, StillStands, Taking};

use pm_model_contents::{one_contents_law, same_law};
use pm_runs::there_law;
use pm_schema::{declared_law, schema_law};
use pm_snapshot::{path_law, snapshot_law};
use pm_values::names_law;

/// Each kind of change, whoever makes it, leads to a folder that stands for the history with that change.
pub fn kept_law()
    ensures { (me : Actor) (f after : Files) (h later : History) → Folder f h → Change me f h after later
        → Folder after later }
{
    pm_model_contents::kept_law();
    one_contents_law();
    same_law();
}

/// And the history goes on as that one.
pub fn goes_on_law()
    ensures { (me : Actor) (f after : Files) (h later : History) → Change me f h after later → GoesOn h later }
{}

/// What a snapshot needs stays as it is while that snapshot is there. While no known snapshot names a file of an actor,
/// one that it made among those that snapshots name stays, whoever acts, unless its base is fenced by then. So does an
/// actor's origin that isn't the table's, which has no base.
pub fn stays_law()
    ensures needed { (me : Actor) (f after : Files) (s : TableSchema) (entries : List Entry) (later : History) (id : ℕ)
        (path : List ℕ) → Folder f (table s entries) → Change me f (table s entries) after later
        → 1 ≤ id → id ≤ greatest → HasSnapshotAt after s id → Needs f s id path
        → IsSome (map.get f path) → map.get after path ≡ map.get f path }
    ensures own { (me other : Actor) (base : ℕ) (f after : Files) (p q : Past) (path : List ℕ) → Stands f p
        → Advances other f p after q → IsOwnFile me base path → HasNamedNone me p → IsSome (map.get f path)
        → IsFenced base q.history ⊎ (map.get after path ≡ map.get f path) }
    ensures origin { (me other : Actor) (f after : Files) (h later : History) → Folder f h
        → Change other f h after later → IsNoOrigin h (snapshot_file (origin_name me))
        → IsSome (map.get f (snapshot_file (origin_name me)))
        → map.get after (snapshot_file (origin_name me)) ≡ map.get f (snapshot_file (origin_name me)) }
{}

/// A file bears the name of one actor at most.
pub fn own_law()
    ensures own { (me other : Actor) (path : List ℕ) → IsActor me → IsActor other → IsOwn me path → IsOwn other path
        → me ≡ other }
    ensures named { (me other : Actor) (path : List ℕ) → IsNamedBy me path → IsNamedBy other path → me ≡ other }
{
    names_law();
    path_law();
}

/// The names in the folder of schemas are those of no schema exactly where there is no table. Where there is one, they
/// have the schema of id 0, and no other.
pub fn listed_law()
    ensures none { (f : Files) (h : History) (names : List (List ℕ)) → Folder f h → IsListing schema_folder names f
        → ((id : ℕ) → id ≤ greatest → ¬ Contains names (schema_name id)) ↔ (h ≡ no_table) }
    ensures first { (f : Files) (s : TableSchema) (entries : List Entry) (names : List (List ℕ))
        → Folder f (table s entries) → IsListing schema_folder names f
        → (id : ℕ) → id ≤ greatest → Contains names (schema_name id) ↔ (id ≡ 0) }
{}

/// A folder that is found has a past, in which each snapshot that is there stands as it is; from the newest on the runs
/// of the groups are known. What stands for a past stands for its history.
pub fn found_law()
    ensures { (f : Files) (h : History) → Folder f h
        → (p : Past) × (p.history ≡ h) × Stands f p × ((id : ℕ) → p.stood id ≡ f) × (p.since ≡ count_of h) }
{
    pm_runs::found_law();
}

/// Each kind of change keeps what is known of the snapshots, those that are gone among them, and of the groups' runs.
pub fn past_law()
    ensures { (me : Actor) (f after : Files) (p q : Past) → Stands f p → Advances me f p after q → Stands after q }
{
    pm_model_contents::kept_law();
    one_contents_law();
    schema_law();
    declared_law();
    pm_runs::found_law();
    pm_runs::goes_on_law();
    pm_runs::same_law();
    same_law();
    pm_model_consumers::kept_law();
    pm_model_following::kept_law();
}

/// A change that adds no entry leaves what is known, but for what it makes of consumers, where it makes files only at
/// paths that no known snapshot needs, of the files that snapshots name takes away such alone as a known one named, and
/// spares each snapshot that a consumer needs which counts.
pub fn beside_law()
    ensures { (me : Actor) (f after : Files) (p : Past) (later : History) (claims : List ℕ → Claim)
        → Change me f p.history after later → count_of later ≡ count_of p.history
        → ((s : TableSchema) (path : List ℕ) → IsTableOf s p.history → map.get f path ≡ None
        → IsSome (map.get after path) → IsUnnamed p s path)
        → ((s : TableSchema) (path : List ℕ) → IsTableOf s p.history → IsTablePath path → IsSome (map.get f path)
        → map.get after path ≡ None → WasNamed p s path)
        → ((s : TableSchema) (least : ℕ) → IsTableOf s p.history → IsLeast f s least
        → (HasSnapshotAt after s least → ⊥) → AreAbove f p.claims least)
        → MovesConsumers me f after later p.claims claims
        → Advances me f p after (record p { history = later; claims = claims }) }
{}

/// Each change beside the history of a table is a step of its past.
pub fn steps_law()
    // a consumer's file is written, or goes, with what that makes of consumers
    ensures consumer { (me : Actor) (f after : Files) (p : Past) (s : TableSchema) (entries : List Entry)
        (name : List ℕ) (content : Option (List ℕ)) (claims : List ℕ → Claim) → p.history ≡ table s entries
        → HavePlainNames s → IsPlain name → IsConsumerFile content → Puts f (consumer_path name) content after
        → MovesConsumers me f after p.history p.claims claims → Advances me f p after (record p { claims = claims }) }
    // a floor appears, no higher than the newest snapshot
    ensures announces { (me : Actor) (f after : Files) (p : Past) (s : TableSchema) (entries : List Entry) (n : ℕ)
        (found : List ℕ) → p.history ≡ table s entries → HavePlainNames s → n ≤ length entries
        → map.get f (floor_path n) ≡ None → Puts f (floor_path n) (Some found) after → Advances me f p after p }
    // or goes, below another
    ensures forgets { (me : Actor) (f after : Files) (p : Past) (s : TableSchema) (entries : List Entry)
        (n above : ℕ) → p.history ≡ table s entries → HavePlainNames s → n < above → above ≤ greatest
        → IsSome (map.get f (floor_path above)) → Puts f (floor_path n) None after → Advances me f p after p }
    // the least snapshot goes, which isn't the newest, below a floor, where each consumer that counts needs a later one
    ensures expires { (me : Actor) (f after : Files) (p : Past) (s : TableSchema) (entries : List Entry) (least : ℕ)
        (path : List ℕ) → p.history ≡ table s entries → HavePlainNames s → IsLeast f s least
        → IsSnapshotPath s least path → least < length entries → IsAnnounced f (suc least) → Puts f path None after
        → AreAbove f p.claims least → Advances me f p after p }
    // a file goes that a known snapshot named, and none needs which is there
    ensures removes { (me : Actor) (f after : Files) (p : Past) (s : TableSchema) (entries : List Entry)
        (path : List ℕ) → p.history ≡ table s entries → HavePlainNames s → IsTablePath path → IsUnneeded f s path
        → WasNamed p s path → Puts f path None after → Advances me f p after p }
{}

/// Where of each run of a group that a compaction took a file is live at the newest snapshot as it stood, they stand
/// there together, whatever came since, and what came since is before them.
pub fn still_law()
    ensures { (f : Files) (p : Past) (s : TableSchema) (entries : List Entry) (g : Group) (t : Taking) (x : Snapshot)
        (c : Contents) → Stands f p → p.history ≡ table s entries
        → IsTaken s p.since (λ n. p.runs n g) (length entries) t
        → HasCommit (p.stood (length entries)) s (length entries) x c → HaveLiveFiles (live_in c) g t.taken
        → StillStands s g entries (λ n. p.runs n g) t }
{
    one_contents_law();
    there_law();
    pm_runs::still_law();
}

/// Where a snapshot is there and the one after it isn't, it is the newest.
pub fn newest_law()
    ensures { (f : Files) (s : TableSchema) (entries : List Entry) (id : ℕ) → Folder f (table s entries)
        → HasSnapshotAt f s id → id + 1 ≤ greatest → map.get f (snapshot_path (id + 1)) ≡ None
        → id ≡ length entries }
{}

/// That no snapshot names a file of an actor stays so, whatever other actors do, and where it commits nothing itself.
pub fn unnamed_law()
    ensures others { (me other : Actor) (f after : Files) (p q : Past) → Stands f p → Advances other f p after q
        → me ≢ other → HasNamedNone me p → HasNamedNone me q }
    ensures own { (me : Actor) (f after : Files) (p q : Past) → Stands f p → Advances me f p after q
        → count_of q.history ≡ count_of p.history → HasNamedNone me p → HasNamedNone me q }
    // So no snapshot of the folder does.
    ensures here { (me : Actor) (f : Files) (p : Past) (s : TableSchema) (id : ℕ) (path : List ℕ) → Stands f p
        → IsTableOf s p.history → id ≤ greatest → HasNamedNone me p → Names f s id path → IsNamedBy me path → ⊥ }
{
    one_contents_law();
    path_law();
    same_law();
    snapshot_law();
}

/// The count of appends that a snapshot bears never falls, from the one on that was the newest when the folder was
/// found, whether or not it has gone.
pub fn appends_law()
    ensures { (f : Files) (p : Past) (s : TableSchema) (entries : List Entry) (early late : ℕ) (x y : Snapshot)
        → Stands f p → p.history ≡ table s entries → p.since ≤ early → 1 ≤ early → early ≤ late
        → late ≤ length entries → SnapshotAt (p.stood early) early x → SnapshotAt (p.stood late) late y
        → x.appends ≤ y.appends }
{}

/// What a past has of consumers.
pub fn consumers_law()
    // no snapshot has gone that a consumer needs which counts: its file is there, and its number is at least the least
    ensures counts { (f : Files) (p : Past) (s : TableSchema) (entries : List Entry) (name : List ℕ) → Stands f p
        → p.history ≡ table s entries → Counts (p.claims name)
        → (least : ℕ) × IsLeast f s least × ((c : Consumer) × ConsumerAt f name c × (least ≤ c.next)) }
    // the frames that a settled one was moved past are those from where it came to be, each once and in order
    ensures frames { (f : Files) (p : Past) (s : TableSchema) (entries : List Entry) (name : List ℕ) (from : ℕ)
        (moved : List (List ℕ)) → Stands f p → p.history ≡ table s entries → p.claims name ≡ settled from moved
        → (c : Consumer) × ConsumerAt f name c × (c.fresh ≡ false) × (c.next ≡ from + length moved)
        × (moved ≡ each_of (λ (id : ℕ). frame s entries id) (range_with_len from (length moved))) }
    // an actor's step is two changes of what is there of consumers, floors and snapshots
    ensures moved { (me : Actor) (f after : Files) (p q : Past) (s : TableSchema) (entries grown : List Entry)
        → Stands f p → Advances me f p after q → p.history ≡ table s entries → q.history ≡ table s grown
        → (least later : ℕ) × IsLeast f s least × IsLeast after s later × Holds (moment_of f s entries least p.claims)
        × IsMoved (follower_of me) (moment_of f s entries least p.claims) (moment_of after s grown later q.claims) }
{
    pm_model_consumers::least_law();
    pm_model_following::kept_law();
    one_contents_law();
    same_law();
}

/// A folder that is found with settled consumers has a past that knows of them, and those of which a past knows are
/// settled. One past knows of all that are.
pub fn settled_law()
    ensures found { (f : Files) (h : History) (names : List (List ℕ)) → Folder f h → HaveSettled f h names
        → (p : Past) × (p.history ≡ h) × Stands f p × ((name : List ℕ) → Contains names name
        → (from : ℕ) × (p.claims name ≡ settled from [])) }
    ensures known { (f : Files) (p : Past) (names : List (List ℕ)) → Stands f p → ((name : List ℕ) → Contains names name
        → (from : ℕ) × (moved : List (List ℕ)) × (p.claims name ≡ settled from moved)) → HaveSettled f p.history names }
    ensures all { (f : Files) (h : History) → Folder f h
        → (p : Past) × (p.history ≡ h) × Stands f p × ((id : ℕ) → p.stood id ≡ f) × (p.since ≡ count_of h)
        × HasConsumersOf h f f p }
{
    pm_runs::found_law();
}
