//! Laws of machines beside each other. Each holds with no call but of the laws of crates below.

ghost use Rattle.std.specs.Prelude.{◌≡◌, ◌⊎◌, ℕ, ◌+◌, ◌<◌, ◌≤◌, List, [], ◌∷◌, ◌++◌, length, Vec};
ghost use Rattle.std.specs.Global.{Global};
ghost use Rattle.std.specs.List.{AllByRecursion};
ghost use Rattle.pm_actors.specs.World.{AllKnow, AreApart, IsWorld, KeepsActor, Knows, Leaves, MayBegin, MayFollow};
ghost use Rattle.pm_actors.specs.World.{Followed, MayJoin, Worker, finds, follow_from, follows, reader_at, waits};
ghost use Rattle.pm_actors.specs.World.{compacts, expires, moves, registers, with_frame, HasEnd};
ghost use Rattle.pm_compactor.specs.Compactor.{Goes};
ghost use Rattle.pm_compactor.specs.declared.phase.Phase.{Phase as CompactPhase};
ghost use Rattle.pm_expire.specs.declared.phase.Phase.{Phase as ExpirePhase};
ghost use Rattle.pm_machine.specs.Moves.{Keeps, Lasts};
ghost use Rattle.pm_model_consumers.specs.Changes.{HasLost};
ghost use Rattle.pm_model_folder.specs.Changes.{Actor, HavePlainNames};
ghost use Rattle.pm_model_folder.specs.Consumers.{follower_of};
ghost use Rattle.pm_model_folder.specs.Folder.{Folder};
ghost use Rattle.pm_model_folder.specs.Ledger.{Past, Stands};
ghost use Rattle.pm_model_history.specs.History.{History};
ghost use Rattle.pm_move_consumer.specs.Mover.{IsMoving, new_mover};
ghost use Rattle.pm_move_consumer.specs.MoverMeaning.{Move};
ghost use Rattle.pm_read_frame.specs.Meaning.{HasProducer};
ghost use Rattle.pm_read_frame.specs.declared.phase.Phase.TheVariants as followers;
ghost use Rattle.pm_read_latest.specs.declared.phase.Phase.TheVariants as finders;
ghost use Rattle.pm_register.specs.Registrar.{Registering};
ghost use Rattle.pm_register.specs.declared.phase.Phase.TheVariants as registrars;
ghost use Rattle.pm_register.specs.declared.phase.Registration.{Registration};
ghost use Rattle.pm_schema.specs.declared.schema.TableSchema.{TableSchema};
ghost use Rattle.pm_store.specs.Files.{Files, files_after};
ghost use Rattle.pm_store.specs.Store.{own_op};
ghost use Rattle.pm_store.specs.declared.answer.Answer.{Answer};
ghost use Rattle.pm_store.specs.declared.call.Effect.{Effect};
ghost use Rattle.pm_store.specs.declared.call.Op.{Op};

use pm_model_folder::{consumers_law, found_law, goes_on_law, own_law, past_law, unnamed_law};
use pm_read_frame::frames_law;
use pm_read_schema::nothing_law;

/// A machine that begins beside others knows what it has to. So where its actor waited in their world, it comes in the
/// place of the one that waited.
pub fn joins_law()
    ensures knows { (f : Files) (p : Past) (w : Worker) → MayJoin p w → Knows w f p }
    ensures comes { (before later : List Worker) (me : Actor) (w : Worker) (ops : List Op) → KeepsActor (waits me) w
        → MayFollow me w ops → IsWorld (before ++ waits me ∷ later) ops → IsWorld (before ++ w ∷ later) ops }
{}

/// In a folder that is found machines may begin: of its files and the past that they have each knows what it has to.
pub fn begins_law()
    ensures { (f : Files) (h : History) (workers : List Worker) → Folder f h → AllByRecursion (MayBegin f h) workers
        → (p : Past) × (p.history ≡ h) × Stands f p × AllKnow workers f p }
{
    found_law();
    joins_law();
}

/// Whichever of the machines steps, the files go on to stand, and each of the others still knows what it knows.
pub fn others_law()
    ensures { (a : Worker) (others : List Worker) → AllByRecursion (AreApart a) others
        → Lasts Stands (Leaves a) (AllKnow others) }
{
    past_law();
    nothing_law();
    own_law();
    unnamed_law();
    pm_create::known_law();
    pm_snapshots::known_law();
    pm_scan::known_law();
    pm_read_latest::known_law();
    pm_read_frame::known_law();
    goes_on_law();
    frames_law();
    pm_commit::known_law();
    pm_compactor::known_law();
    pm_register::known_law();
    pm_move_consumer::known_law();
    pm_expire::known_law();
}

/// A step of one of them leads from a world of them to one with the machine as it is then in its place, which the same
/// actor runs. Its operation comes after any that others had before it, through this handle or through others: `Moves`,
/// the clause of each step, says `Keeps` of it on the files as they were up to it. Where it made no call, the world of
/// that moment stays.
pub fn world_law()
    ensures steps { (before later : List Worker) (a new : Worker) (ops : List Op) (op : Op) → KeepsActor a new
        → Keeps Stands (Leaves a) (Knows a) (Knows new) op (files_after ops)
        → IsWorld (before ++ a ∷ later) ops → IsWorld (before ++ new ∷ later) (ops ++ op ∷ []) }
    ensures rests { (before later : List Worker) (a new : Worker) (ops : List Op) → KeepsActor a new
        → ((f : Files) (p : Past) → Stands f p → Knows a f p → Knows new f p)
        → IsWorld (before ++ a ∷ later) ops → IsWorld (before ++ new ∷ later) ops }
{
    others_law();
}

/// Whoever runs a compactor goes on to run it, until it is over or has nothing to do.
pub fn compactor_law()
    ensures { (m : CompactPhase) (answer : Answer) (later : CompactPhase) → Goes m answer later
        → KeepsActor (compacts m) (compacts later) }
{
    pm_commit::actor_law();
}

/// A following makes no call where its next machine comes in the place of the one before: once the snapshots were
/// listed the reader of its first frame, and once a frame was read that of the next one, up to the newest that was
/// listed. Each knows what it has to, and that all that was read so far are frames from the start on, whatever others
/// did meanwhile. Once a frame was read the mover of a consumer that reads its snapshot next knows what it has to.
pub fn follow_law()
    ensures first { (me : Actor) (s : TableSchema) (start latest : ℕ) (f : Files) (p : Past) → Stands f p
        → Knows (finds me s (finders.Ready latest)) f p → 1 ≤ start → start ≤ latest
        → Knows (follows me (follow_from s start latest) (reader_at s start)) f p }
    ensures next { (me : Actor) (x : Followed) (text : Vec ℕ Global) (f : Files) (p : Past) → Stands f p
        → Knows (follows me x (followers.Ready (x.start + length x.frames) text)) f p
        → x.start + length x.frames < x.latest
        → Knows (follows me (with_frame x text.items) (reader_at x.schema (x.start + length x.frames + 1))) f p }
    ensures last { (me : Actor) (x : Followed) (text : Vec ℕ Global) (f : Files) (p : Past) → Stands f p
        → Knows (follows me x (followers.Ready (x.start + length x.frames) text)) f p
        → Knows (follows me (with_frame x text.items) followers.Over) f p }
    ensures moves { (m : Move) (x : Followed) (text : Vec ℕ Global) (f : Files) (p : Past)
        → Knows (follows m.me x (followers.Ready m.moving.next text)) f p → HasProducer x.schema
        → HavePlainNames x.schema → IsMoving m.moving → m.text ≡ text.items
        → Knows (moves m (new_mover m.moving)) f p }
{
    frames_law();
}

/// Where one of them stops, between two calls or within one, whatever of that was carried out, the others are a world.
pub fn stops_law()
    ensures between { (before later : List Worker) (a : Worker) (ops : List Op) → IsWorld (before ++ a ∷ later) ops
        → IsWorld (before ++ later) ops }
    ensures within { (before later : List Worker) (a new : Worker) (ops : List Op) (op : Op) (effect : Effect)
        → Keeps Stands (Leaves a) (Knows a) (Knows new) op (files_after ops)
        → IsWorld (before ++ a ∷ later) ops → IsWorld (before ++ later) (ops ++ own_op op.call effect ∷ []) }
{
    others_law();
}

/// A follower may register while a table is expired. Once it has listed the floors, and the expirer has read the
/// consumers again or is done, the first snapshot that the expirer keeps is at most the number that the follower wrote.
/// For the expirer read that number behind its floor, or the follower listed that floor. Or somebody else touched the
/// file since the follower wrote it.
pub fn registering_law()
    ensures { (other me : Actor) (m : ExpirePhase) (end : ℕ) (r : Registering) (g : Registration) (f : Files) (p : Past)
        → Stands f p → Knows (expires other m) f p → HasEnd m end
        → Knows (registers me r (registrars.Settle g)) f p
        → (end ≤ r.next) ⊎ HasLost (follower_of me) (p.claims r.name) }
{
    consumers_law();
}
