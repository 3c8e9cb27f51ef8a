//! All calls of a committer, one after another.

ghost use Rattle.std.specs.Prelude.{◌≡◌, ◌<◌};
ghost use Rattle.pm_machine.specs.Trace.{HasTrace};
ghost use Rattle.pm_schema.specs.declared.schema.TableSchema.{TableSchema as SchemaView};
ghost use Rattle.pm_store.specs.Store.{StoreView, IsLater};
ghost use Rattle.pm_commit.specs.AllCalls.{AppendsAlone, AppendsTables, DidAppend, Ends, Has};
ghost use Rattle.pm_commit.specs.Alone.{Beginning};
ghost use Rattle.pm_commit.specs.Committer.{calls_left};
ghost use Rattle.pm_commit.specs.Own.{OwnView};
ghost use Rattle.pm_commit.specs.Trace.{Did};
ghost use Rattle.pm_commit.specs.declared.phase.Phase.TheVariants as phases;

use crate::committer::{CommitStep, Committer, commit_step};
use pm_model_contents::same_law;
use pm_model_folder::{past_law, settled_law, unnamed_law};
use pm_read_table::entries_law;
use pm_store::FileStore;
use pm_values::Refusal;
use std::alloc::Global;

/// What became of a batch: the snapshot with that id was committed, or the user had committed it before.
#[derive(Clone, Copy)]
pub enum Appended {
    Committed(u64),
    Already,
}

/// Appends to the table whose schema was just read: all calls of a committer that has made none yet, one after another,
/// or those up to a refusal. What it promises is said from whatever moment on that reading began.
pub fn append_rows<F: FileStore>(
    alloc: Global,
    committer: Committer,
    store: &mut F,
) -> Result<Appended, Refusal>
    requires { 0 < calls_left committer }
    ensures trace { (s : SchemaView) (own : OwnView) (first : StoreView) → committer ≡ phases.Names own s
        → HasTrace (Has s) first (F.seen store.old) → HasTrace (DidAppend s own result) first (F.seen store.new) }
    ensures history { (s : SchemaView) (own : OwnView) (first : StoreView) → committer ≡ phases.Names own s
        → HasTrace (Has s) first (F.seen store.old) → AppendsTables s own first (F.seen store.new) result }
    ensures later { IsLater (F.seen store.old) (F.seen store.new) }
{
    past_law();
    settled_law();
    committer.known();
    make_calls(alloc, committer, store)
}

/// Makes all calls that are left, or those up to a refusal.
fn make_calls<F: FileStore>(
    alloc: Global,
    committer: Committer,
    store: &mut F,
) -> Result<Appended, Refusal>
    requires { 0 < calls_left committer }
    ensures trace { (s : SchemaView) (own : OwnView) (first : StoreView)
        → HasTrace (Did s own committer) first (F.seen store.old)
        → HasTrace (Ends s own result) first (F.seen store.new) }
    ensures alone { (b : Beginning) → AppendsAlone b committer (F.seen store.old) (F.seen store.new) result }
    ensures later { IsLater (F.seen store.old) (F.seen store.new) }
{
    past_law();
    unnamed_law();
    same_law();
    entries_law();
    let mut committer = committer;
    loop {
        match commit_step(alloc, &mut committer, store) {
            Ok(CommitStep::More) => {}
            Ok(CommitStep::Committed(id)) => {
                drop(committer);
                return Ok(Appended::Committed(id));
            }
            Ok(CommitStep::Already) => {
                drop(committer);
                return Ok(Appended::Already);
            }
            Err(refusal) => {
                drop(committer);
                return Err(refusal);
            }
        }
    }
}
