//! The promise follows from what commands are proved to do; and histories have a beginning, from which commands go on.

ghost use Rattle.std.specs.Prelude.{◌≡◌, ◌⊎◌, ◌≤◌, ℕ, suc, List, [], ◌∷◌, ◌++◌, length, Bool};
ghost use Rattle.std.specs.Prelude.{Option, None, Some, IsSome, Ok};
ghost use Rattle.std.specs.FinMap as map;
ghost use Rattle.std.specs.List.{AllByRecursion};
ghost use Rattle.std.specs.Option.{option_or};
ghost use Rattle.pm_base.specs.Known.{and_then};
ghost use Rattle.pm_store.specs.Files.{Files, files_after};
ghost use Rattle.pm_store.specs.Images.{CrashImage, Extends};
ghost use Rattle.pm_store.specs.Store.{StoreView, IsAlone, at_first_own};
ghost use Rattle.pm_store.specs.declared.call.Op.{Op};
ghost use Rattle.pm_input.specs.Lines.{row_lines};
ghost use Rattle.pm_options.specs.declared.kinds.Producer.TheVariants.{Input};
ghost use Rattle.pm_schema.specs.declared.schema.TableSchema.{TableSchema};
ghost use Rattle.pm_model_history.specs.History.{Entry, History, no_table, rows_up_to, table};
ghost use Rattle.pm_model_history.specs.Merge.{HistoryRow};
ghost use Rattle.pm_model_history.specs.Merged.{scan_text};
ghost use Rattle.pm_model_following.specs.Following.{IsFinished, table_text};
ghost use Rattle.pm_model_folder.specs.Changes.{Actor};
ghost use Rattle.pm_model_folder.specs.Folder.{Folder, HaveSettled};
ghost use Rattle.pm_model_folder.specs.Paths.{consumer_path, snapshot_path};
ghost use Rattle.pm_expire_end.specs.declared.keep.KeepAsked.{KeepAsked};
ghost use Rattle.pm_create.specs.Making.{LeavesFiles};
ghost use Rattle.pm_write.specs.Taken.{all_taken};
ghost use Rattle.pm_move_consumer.specs.DropperAllCalls.{ItGoes, ItRests};
ghost use Rattle.pm_commit.specs.AllCalls as commit;
ghost use Rattle.pm_words.specs.declared.command.Command.{Command};
ghost use Rattle.pm_words.specs.declared.command.Command.TheVariants as commands;
ghost use Rattle.pm_command.specs.Outside.{HaveSame, actor};
ghost use Rattle.pm_command.specs.declared.start.Start.{Start};
ghost use Rattle.pm_command_compact.specs.Compact as compact;
ghost use Rattle.pm_command_consume.specs.Alone.{full_after, settled_at, start_after};
ghost use Rattle.pm_command_consumers.specs.Drop.{StandsWithout};
ghost use Rattle.pm_command_create.specs.Create.{IsDraftOf, StandsForEither};
ghost use Rattle.pm_command_expire.specs.Expire as expire;
ghost use Rattle.pm_command_follow.specs.Finished.{HasPassedAll};
ghost use Rattle.pm_command_follow.specs.Printed.{LeadFrom, follow_text, start_of, table_head};
ghost use Rattle.pm_command_write.specs.Write.{IsImage, Lines, MayStartAfter};
ghost use Rattle.pm_command_write.specs.declared.writer.Writer.{Writer};
ghost use Rattle.pm_cli.specs.Commands.{keep_asked};
ghost use Rattle.pm_cli.specs.InTurn.{AreInTurn, DropNone, Ending, HandsOn, HaveOwnNames, IsExecuted, MakeInTurn};
ghost use Rattle.pm_cli.specs.InTurn.{TouchNone, Turn, WriteNone, ended, seen_by_another, to_its_end};
ghost use Rattle.pm_cli.specs.Kept.{IsForNoLoss, IsForNoLossFollowed, IsKeptBy, PrintsText, least_read};
ghost use Rattle.pm_cli.specs.Promise.{Does, Execution, Keeps, KeepsIt, MayMake, StandsForOthers};
ghost use Rattle.pm_cli.specs.Start.{HaveOtherNames, IsNew, MayExpire, MayStart, consumed_text};

use pm_command_follow::replay_law;
use pm_model_contents::{one_contents_law, same_law};
use pm_schema::draft_law;

// ---- what a crash leaves

/// A store that has what a crash within `create` left stands for the history, or for the draft's table where there was
/// none; one that has what a crash within `write` or `compact` left, for the history, or for it with the rows of the
/// input, or with the compaction of its newest snapshot's choice, as once the next snapshot is there; and one that has
/// what a crash within `scan`, `snapshots`, `consumers` or `follow` left, for the history, and no path has another
/// content, but that of its consumer where one is dropped or followed with; and one that has what a crash within
/// `expire` left stands for the history, and is that of an expiry which was stopped. Another actor that might have
/// started before `write`, `compact` or `expire` may start there, and wherever no path has another content. So what
/// `run` promises of a history holds again of the next `write`, `compact`, `scan`, `snapshots`, `consumers`, `follow`
/// or `expire`, and after a crash within one of these; behind a drop or a following with a consumer that of `write` and
/// `compact` for actors that are new to the table (`free_law`).
pub fn next_command_law()
    ensures create { (start : Start) (bytes : List ℕ) (h : History) (old new : List Op) (i : ℕ)
        (image : Files) → Extends (StandsForEither start bytes h) (Some old) (Some new) → length old ≤ i
        → CrashImage new i image → (ops : List Op) (store : StoreView) → store.ops ≡ Some ops → files_after ops ≡ image
        → LeavesFiles (StandsForEither start bytes h) store }
    ensures write { (start : Start) (w : Writer) (lines : Lines) (h : History) (old new : List Op) (i : ℕ)
        (image : Files) → Extends (IsImage start w lines h) (Some old) (Some new) → length old ≤ i
        → CrashImage new i image → (ops : List Op) (store : StoreView) → store.ops ≡ Some ops → files_after ops ≡ image
        → LeavesFiles (IsImage start w lines h) store }
    ensures next { (other : Actor) (start : Start) (w : Writer) (lines : Lines) (h : History) (old new : List Op)
        (i : ℕ) (image : Files) → Extends (MayStartAfter other start w lines h) (Some old) (Some new) → length old ≤ i
        → CrashImage new i image → (ops : List Op) (store : StoreView) → store.ops ≡ Some ops → files_after ops ≡ image
        → LeavesFiles (MayStartAfter other start w lines h) store }
    ensures compact { (start : Start) (full : Bool) (h : History) (first : StoreView) (old new : List Op) (i : ℕ)
        (image : Files) → Extends (compact.IsImage start full h first) (Some old) (Some new) → length old ≤ i
        → CrashImage new i image → (ops : List Op) (store : StoreView) → store.ops ≡ Some ops → files_after ops ≡ image
        → LeavesFiles (compact.IsImage start full h first) store }
    ensures next_to_compact { (other : Actor) (start : Start) (full : Bool) (h : History) (first : StoreView)
        (old new : List Op) (i : ℕ) (image : Files)
        → Extends (compact.MayStartAfter other start full h first) (Some old) (Some new) → length old ≤ i
        → CrashImage new i image → (ops : List Op) (store : StoreView) → store.ops ≡ Some ops → files_after ops ≡ image
        → LeavesFiles (compact.MayStartAfter other start full h first) store }
    ensures same { (me : Actor) (h : History) (f g : Files) → commit.MayStart me h f → HaveSame f g → Folder g h
        → commit.MayStart me h g }
    ensures rests { (h : History) (f : Files) (old new : List Op) (i : ℕ) (image : Files)
        → Extends (λ g. Folder g h × HaveSame f g) (Some old) (Some new) → length old ≤ i → CrashImage new i image
        → (ops : List Op) (store : StoreView) → store.ops ≡ Some ops → files_after ops ≡ image
        → LeavesFiles (λ g. Folder g h × HaveSame f g) store }
    ensures drops { (name : List ℕ) (h : History) (names : List (List ℕ)) (f : Files) (old new : List Op) (i : ℕ)
        (image : Files)
        → Extends (λ g. StandsWithout name h names f g × (ItRests name f g ⊎ ItGoes name f g)) (Some old) (Some new)
        → length old ≤ i → CrashImage new i image
        → (ops : List Op) (store : StoreView) → store.ops ≡ Some ops → files_after ops ≡ image
        → LeavesFiles (λ g. StandsWithout name h names f g × (ItRests name f g ⊎ ItGoes name f g)) store }
    ensures expires { (start : Start) (asked : KeepAsked) (h : History) (f : Files) (old new : List Op) (i : ℕ)
        (image : Files) → Extends (λ g. Folder g h × expire.IsImage start asked h f g) (Some old) (Some new)
        → length old ≤ i → CrashImage new i image
        → (ops : List Op) (store : StoreView) → store.ops ≡ Some ops → files_after ops ≡ image
        → LeavesFiles (λ g. Folder g h × expire.IsImage start asked h f g) store }
    ensures next_to_expire { (other : Actor) (h : History) (old new : List Op) (i : ℕ) (image : Files)
        → Extends (commit.MayStart other h) (Some old) (Some new) → length old ≤ i → CrashImage new i image
        → (ops : List Op) (store : StoreView) → store.ops ≡ Some ops → files_after ops ≡ image
        → LeavesFiles (commit.MayStart other h) store }
{
    same_law();
}

// ---- the promise

/// The promise of `create`.
pub fn keeps_create_law()
    ensures { (e : Execution) → IsExecuted (record e { command = commands.Create })
        → Keeps (record e { command = commands.Create }) }
{
    pm_model_folder::kept_law();
    pm_model_contents::kept_law();
    one_contents_law();
    draft_law();
}

/// The promise of `scan`.
pub fn keeps_scan_law()
    ensures { (at : Option ℕ) (e : Execution) → IsExecuted (record e { command = commands.Scan at })
        → Keeps (record e { command = commands.Scan at }) }
{
    next_command_law();
}

/// The promise of `snapshots`.
pub fn keeps_snapshots_law()
    ensures { (e : Execution) → IsExecuted (record e { command = commands.Snapshots })
        → Keeps (record e { command = commands.Snapshots }) }
{
    next_command_law();
}

/// The promise of `consumers`.
pub fn keeps_consumers_law()
    ensures { (e : Execution) → IsExecuted (record e { command = commands.Consumers None })
        → Keeps (record e { command = commands.Consumers None }) }
{
    next_command_law();
}

/// The promise of `consumers --drop`.
pub fn keeps_drop_law()
    ensures { (name : List ℕ) (e : Execution) → IsExecuted (record e { command = commands.Consumers (Some name) })
        → Keeps (record e { command = commands.Consumers (Some name) }) }
{
    pm_model_contents::kept_law();
}

/// The promise of `compact`.
pub fn keeps_compact_law()
    ensures { (full : Bool) (e : Execution) → IsExecuted (record e { command = commands.Compact full })
        → Keeps (record e { command = commands.Compact full }) }
{}

/// The promise of `expire`.
pub fn keeps_expire_law()
    ensures { (min max millis : Option ℕ) (e : Execution)
        → IsExecuted (record e { command = commands.Expire min max millis })
        → Keeps (record e { command = commands.Expire min max millis }) }
{
    pm_expire::image_law();
}

/// The promise of `follow`.
pub fn keeps_follow_law()
    ensures { (from : Option ℕ) (full : Bool) (e : Execution)
        → IsExecuted (record e { command = commands.Follow from None full })
        → Keeps (record e { command = commands.Follow from None full }) }
{
    next_command_law();
}

/// The promise of `follow --consumer`.
pub fn keeps_consume_law()
    ensures { (from : Option ℕ) (name : List ℕ) (full : Bool) (e : Execution)
        → IsExecuted (record e { command = commands.Follow from (Some name) full })
        → Keeps (record e { command = commands.Follow from (Some name) full }) }
{
    next_command_law();
    same_law();
}

/// The promise of `write`.
pub fn keeps_write_law()
    ensures { (user : Option (List ℕ)) (number : Option ℕ) (e : Execution)
        → IsExecuted (record e { command = commands.Write user number })
        → Keeps (record e { command = commands.Write user number }) }
{}

/// The promise of every command.
pub fn keeps_law()
    ensures { (e : Execution) → IsExecuted e → Keeps e }
{
    keeps_create_law();
    keeps_scan_law();
    keeps_snapshots_law();
    keeps_consumers_law();
    keeps_drop_law();
    keeps_compact_law();
    keeps_expire_law();
    keeps_follow_law();
    keeps_consume_law();
    keeps_write_law();
}

// ---- one command after another

/// No files stand for no table, and every actor is new there. Where an actor is new it may start any command; and where
/// files stand for a table without entries, every actor may.
pub fn base_law()
    ensures empty { (me : Actor) → IsNew me no_table map.empty }
    ensures new { (command : Command) (me : Actor) (h : History) (f : Files) → IsNew me h f
        → MayStart command me h f }
    ensures created { (command : Command) (me : Actor) (s : TableSchema) (f : Files) → Folder f (table s [])
        → MayStart command me (table s []) f }
{}

/// Where there was no table and `create` succeeds, any actor may start any command, on the draft's table.
pub fn chain_law()
    ensures { (e : Execution) (first : StoreView) → e.command ≡ commands.Create → e.refusal ≡ None
        → KeepsIt e no_table first → (s : TableSchema) × IsDraftOf e.start e.input s
        × ((command : Command) (me : Actor) → LeavesFiles (MayStart command me (table s [])) e.after.store) }
{
    base_law();
}

/// Where nobody else acts from the end of a command to the end of the next one, whatever that is, this one finds at its
/// first call what was left, and nobody else acts from there on.
pub fn next_law()
    ensures { (e : Execution) (h : History) → IsExecuted e → IsAlone e.before.store e.after.store
        → LeavesFiles (MayStart e.command (actor e.start) h) e.before.store
        → LeavesFiles (MayStart e.command (actor e.start) h) (at_first_own e.before.store e.after.store)
        × IsAlone (at_first_own e.before.store e.after.store) e.after.store }
{}

/// Another actor that was new to the history may start any command at the end, and in each image of a crash.
pub fn free_law()
    ensures { (e : Execution) (h : History) (first : StoreView) (other : Actor) (command : Command)
        → (kept : KeepsIt e h first) → HaveOtherNames (actor e.start) other → LeavesFiles (IsNew other h) first
        → LeavesFiles (MayStart command other kept.later) e.after.store
        × Extends (λ f. (later : History) × MayMake e h later × MayStart command other later f)
        first.ops e.after.store.ops }
{
    base_law();
}

/// Whatever commands are executed one after another on one store to which nobody else has access, however each of them
/// ends and wherever a crash stops any: the store stands for a history that they made in turn. So it keeps every commit
/// that was acknowledged, whole and in order, and each text that was printed is that of the history as it was then.
/// Each may have its own handle of the store, as each process has: the next one may find what another handle sees.
pub fn in_turn_law()
    ensures from { (turns : List Turn) (store last : StoreView) (h : History) → AreInTurn store turns last
        → HaveOwnNames turns
        → LeavesFiles (λ f. Folder f h × AllByRecursion (λ (t : Turn). IsNew (actor t.execution.start) h f) turns) store
        → (later : History) × MakeInTurn turns h later × LeavesFiles (λ f. Folder f later) last }
    // who was settled is, but for whom they drop
    ensures settled { (names : List (List ℕ)) (turns : List Turn) (store last : StoreView) (h : History)
        → AreInTurn store turns last → HaveOwnNames turns → DropNone turns names
        → LeavesFiles (λ f. Folder f h × HaveSettled f h names
        × AllByRecursion (λ (t : Turn). IsNew (actor t.execution.start) h f) turns) store
        → (later : History) × MakeInTurn turns h later
        × LeavesFiles (λ f. Folder f later × HaveSettled f later names) last }
    // a file that is there stays as it is, but that of a consumer which they drop or follow with, and where one expires
    // those of snapshots and floors; and a consumer that has none gets none, but by a following with it
    ensures there { (path bytes : List ℕ) (turns : List Turn) (store last : StoreView) (h : History)
        → AreInTurn store turns last → HaveOwnNames turns → TouchNone turns path
        → LeavesFiles (λ f. Folder f h × (map.get f path ≡ Some bytes)
        × AllByRecursion (λ (t : Turn). IsNew (actor t.execution.start) h f) turns) store
        → (later : History) × MakeInTurn turns h later
        × LeavesFiles (λ f. Folder f later × (map.get f path ≡ Some bytes)) last }
    ensures gone { (name : List ℕ) (turns : List Turn) (store last : StoreView) (h : History)
        → AreInTurn store turns last → HaveOwnNames turns → WriteNone turns (consumer_path name)
        → LeavesFiles (λ f. Folder f h × (map.get f (consumer_path name) ≡ None)
        × AllByRecursion (λ (t : Turn). IsNew (actor t.execution.start) h f) turns) store
        → (later : History) × MakeInTurn turns h later
        × LeavesFiles (λ f. Folder f later × (map.get f (consumer_path name) ≡ None)) last }
    // no expiry takes a consumer's file
    ensures spared { (command : Command) (name : List ℕ) → MayExpire command (consumer_path name) → ⊥ }
    ensures empty { (turns : List Turn) (store last : StoreView) → store.ops ≡ Some [] → AreInTurn store turns last
        → HaveOwnNames turns
        → (later : History) × MakeInTurn turns no_table later × LeavesFiles (λ f. Folder f later) last }
    ensures another { (e : Execution) (ops : List Op) (faults : ℕ) → e.after.store.ops ≡ Some ops
        → HandsOn ended e (seen_by_another ops faults) }
{
    base_law();
    keeps_law();
}

/// A scan prints the same before and after a compaction.
pub fn same_scan_law()
    ensures { (start : Start) (bytes : List ℕ) (found : StoreView) (full : Bool) (s : TableSchema) (es : List Entry)
        (later : History) (text : List ℕ) → Does start bytes found (commands.Compact full) (table s es) later text
        → (more : List Entry) × (later ≡ table s more)
        × (scan_text s (rows_up_to more (length more)) ≡ scan_text s (rows_up_to es (length es))) }
{}

/// Whoever follows a table has what it prints as the starting table, if it is asked for, and frames of changes behind
/// it. Their rows, replayed in order on the table that was followed at the one below the start, give the table that is
/// followed at the newest; and those of the first frames, at each before that. Where a snapshot is finished, the table
/// that is followed at it is the merged one, which a scan of that snapshot prints; and so are the starting table's rows
/// printed. It is where all rows up to it are passed on; with the producer of inputs they always are, and each
/// snapshot is finished. With a consumer it is so of what is printed from the snapshot on that a settled one reads
/// next, or from the start that is asked for.
pub fn frames_law()
    ensures replayed { (start : Start) (bytes : List ℕ) (found : StoreView) (from : Option ℕ) (full : Bool)
        (s : TableSchema) (es : List Entry) (later : History) (text : List ℕ) (f : Files)
        → 1 ≤ start_of from (length es) → Folder f (table s es)
        → Does start bytes found (commands.Follow from None full) (table s es) later text
        → LeadFrom s es from full text }
    ensures consumed { (start : Start) (bytes : List ℕ) (found : StoreView) (name : List ℕ) (from : Option ℕ)
        (full : Bool) (s : TableSchema) (es : List Entry) (later : History) (text : List ℕ) (f : Files)
        → Folder f (table s es) → Does start bytes found (commands.Follow from (Some name) full) (table s es) later text
        → (known : Option ℕ) × LeavesFiles (λ was. settled_at was name ≡ known) found
        × (1 ≤ start_after known from (length es) → start_after known from (length es) ≤ suc (length es)
        → LeadFrom s es (option_or known from) (full_after known full) text) }
    ensures finished { (f : Files) (s : TableSchema) (es : List Entry) (id : ℕ) → Folder f (table s es)
        → id ≤ length es → HasPassedAll s es id → IsFinished s es id }
    ensures input { (s : TableSchema) (es : List Entry) (id : ℕ) → s.options.producer ≡ Input → HasPassedAll s es id }
    ensures scanned { (s : TableSchema) (es : List Entry) (id : ℕ) → s.options.producer ≡ Input → IsFinished s es id }
    ensures starting { (s : TableSchema) (es : List Entry) (id : ℕ) → IsFinished s es id
        → table_text s es id ≡ table_head id ++ scan_text s (rows_up_to es id) }
{
    replay_law();
}

/// From an empty store: after a `create`, a `write` and a `scan` with status 0 the scan printed exactly the merged
/// table of the rows that the draft's table takes of the input of `write`.
pub fn first_steps_law()
    ensures { (create write scan : Execution) (user : Option (List ℕ)) (number : Option ℕ) (store last : StoreView)
        → create.command ≡ commands.Create → create.refusal ≡ None
        → write.command ≡ commands.Write user number → write.refusal ≡ None
        → scan.command ≡ commands.Scan None → scan.refusal ≡ None → store.ops ≡ Some []
        → AreInTurn store (to_its_end create ∷ to_its_end write ∷ to_its_end scan ∷ []) last
        → HaveOwnNames (to_its_end create ∷ to_its_end write ∷ to_its_end scan ∷ [])
        → (s : TableSchema) × (rows : List HistoryRow) × IsDraftOf create.start create.input s
        × (all_taken s (row_lines write.input) ≡ Ok rows)
        × (scan.after.out.taken ≡ and_then scan.before.out.taken (scan_text s rows)) }
{
    in_turn_law();
}

// ---- what an expiry keeps

/// The file of a snapshot that an expiry keeps is as it was before, at the end and in each image of a crash; so it is
/// there if it was. Those are kept that aren't below the end of the expiry, which is the first number that it prints
/// (`expires` of `Does`).
pub fn kept_law()
    ensures same { (min max millis : Option ℕ) (e : Execution) (s : TableSchema) (es : List Entry) (first : StoreView)
        (later : History) (f : Files) (id : ℕ) → e.command ≡ commands.Expire min max millis → id ≤ length es
        → LeavesFiles (λ was. Folder was (table s es) × IsKeptBy e.start (keep_asked min max millis) s id was) first
        → StandsForOthers e (table s es) first later f
        → LeavesFiles (λ was. map.get f (snapshot_path id) ≡ map.get was (snapshot_path id)) first }
    ensures there { (min max millis : Option ℕ) (e : Execution) (s : TableSchema) (es : List Entry) (first : StoreView)
        (later : History) (f : Files) (id : ℕ) → e.command ≡ commands.Expire min max millis → id ≤ length es
        → LeavesFiles (λ was. Folder was (table s es) × IsKeptBy e.start (keep_asked min max millis) s id was
        × IsSome (map.get was (snapshot_path id))) first
        → StandsForOthers e (table s es) first later f → IsSome (map.get f (snapshot_path id)) }
{
    pm_expire::one_end_law();
}

/// What `scan --snapshot` prints of a snapshot that an expiry keeps is the same before the expiry and after it, however
/// that ended and wherever a crash stopped it: with status 0 the scan of the snapshot, else a prefix of it. The second
/// one isn't refused, but as memory runs out, or for a fault of the store or of the sink.
pub fn kept_scan_law()
    ensures { (before expire after : Execution) (how : Ending) (min max millis : Option ℕ) (id : ℕ) (s : TableSchema)
        (es : List Entry) (store last : StoreView) → before.command ≡ commands.Scan (Some id) → before.refusal ≡ None
        → 1 ≤ id → expire.command ≡ commands.Expire min max millis → after.command ≡ commands.Scan (Some id)
        → AreInTurn store
        (to_its_end before ∷ record { execution = expire; ending = how } ∷ to_its_end after ∷ []) last
        → LeavesFiles (λ f. Folder f (table s es) × IsKeptBy expire.start (keep_asked min max millis) s id f) store
        → PrintsText IsForNoLoss before (scan_text s (rows_up_to es id))
        × PrintsText IsForNoLoss after (scan_text s (rows_up_to es id)) }
{
    keeps_law();
    kept_law();
}

/// So it is of what `follow --from` prints where an expiry keeps all that it reads: the frames from the start on, and
/// the starting table, if it is asked for.
pub fn kept_follow_law()
    ensures { (before expire after : Execution) (how : Ending) (min max millis : Option ℕ) (from : ℕ) (full : Bool)
        (s : TableSchema) (es : List Entry) (store last : StoreView)
        → before.command ≡ commands.Follow (Some from) None full → before.refusal ≡ None → 1 ≤ least_read from full
        → expire.command ≡ commands.Expire min max millis → after.command ≡ commands.Follow (Some from) None full
        → AreInTurn store
        (to_its_end before ∷ record { execution = expire; ending = how } ∷ to_its_end after ∷ []) last
        → LeavesFiles (λ f. Folder f (table s es)
        × IsKeptBy expire.start (keep_asked min max millis) s (least_read from full) f) store
        → PrintsText IsForNoLoss before (follow_text s es (Some from) full)
        × PrintsText IsForNoLoss after (follow_text s es (Some from) full) }
{
    keeps_law();
    kept_law();
}

/// And whoever follows with a consumer that was settled before an expiry prints after it what it had still to read: all
/// frames from the snapshot on that the consumer reads next, or a prefix of them where the status isn't 0. An expiry
/// keeps them, whatever it was asked to keep. The following isn't refused, but for these causes or where the table
/// tells no changes.
pub fn kept_consume_law()
    ensures { (expire after : Execution) (how : Ending) (min max millis : Option ℕ) (name : List ℕ) (next : ℕ)
        (from : Option ℕ) (full : Bool) (s : TableSchema) (es : List Entry) (store last : StoreView)
        → expire.command ≡ commands.Expire min max millis → after.command ≡ commands.Follow from (Some name) full
        → AreInTurn store (record { execution = expire; ending = how } ∷ to_its_end after ∷ []) last
        → LeavesFiles (λ f. Folder f (table s es) × HaveSettled f (table s es) (name ∷ [])
        × (settled_at f name ≡ Some next)) store
        → PrintsText IsForNoLossFollowed after (consumed_text s es (Some next) from full) }
{
    keeps_law();
}
