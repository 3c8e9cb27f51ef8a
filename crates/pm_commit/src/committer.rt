//! The committer of a batch.

ghost use Rattle.std.specs.Prelude.{◌≡◌, ◌≢◌, ◌⊎◌, ◌<◌, ◌≤◌, ◌^◌, [], List, length, IfErr, IfOk, OnOk, OnErr, Some};
ghost use Rattle.pm_values.specs.declared.refusal.Refusal.TheVariants.{Memory};
ghost use Rattle.pm_made.specs.Refusals.{refusal_of};
ghost use Rattle.pm_made.specs.declared.intent.Intent.TheVariants as intents;
ghost use Rattle.pm_model_history.specs.Merge.{HistoryRow};
ghost use Rattle.pm_store.specs.Store.{IsLater};
ghost use Rattle.pm_write.specs.Batch.{IsBatchOf};
ghost use Rattle.pm_schema.specs.Again.{IsDeclared};
ghost use Rattle.pm_commit.specs.Alone.{CommitterAlone};
ghost use Rattle.pm_commit.specs.Committer.{calls_left, most_calls, reached_at};
ghost use Rattle.pm_commit.specs.Committer.{AreNumbered, Begins, IsCommitter, Reaches};
ghost use Rattle.pm_commit.specs.Meaning.{CommitterMoved};
ghost use Rattle.pm_commit.specs.Own.{group_limit, new_author, new_own};
ghost use Rattle.pm_commit.specs.Trace.{CommitterActed};
ghost use Rattle.pm_commit.specs.declared.phase.Phase.TheVariants as phases;

use crate::after::make;
use crate::found::Found;
use crate::laws::machine_law;
use crate::own::Own;
use crate::phase::Phase;
use pm_base::Txt;
use pm_machine::{Running, step};
use pm_made::{Author, Newest, Plan};
use pm_manifest::read_entry_law;
use pm_schema::TableSchema;
use pm_store::FileStore;
use pm_values::{Names, Refusal};
use pm_write::{Batch, batch_law};
use std::alloc::Global;

/// What a step of a committer reached: it goes on; or the snapshot with that id was committed; or the user had
/// committed this before.
#[derive(Clone, Copy)]
pub enum CommitStep {
    More,
    Committed(u64),
    Already,
}

/// Appends the rows of a batch to a table, or commits a compaction of it, a call of the store a step.
pub type Committer = Running<Phase>;

/// The committer of a batch that isn't empty and has few enough groups, to the table with this schema, which was just
/// read, by a user with an identifier, and at that moment. `check` says that an earlier commit of the user is looked for.
pub fn new_committer(
    schema: TableSchema,
    batch: Batch,
    user: Txt,
    identifier: i64,
    check: bool,
    names: Names,
    now_millis: i64,
) -> Committer
    requires declared { IsDeclared schema }
    requires read { (rows : List HistoryRow) × IsBatchOf schema rows batch }
    requires some { batch ≢ [] }
    requires few { length batch ≤ group_limit }
    requires count { names.count ≤ 2 ^ 61 }
    ensures { result ≡ phases.Names (new_own batch (new_author user identifier now_millis) check names) schema }
{
    batch_law();
    Running::new(Phase::Names {
        own: Own::new(batch, user, identifier, check, names, now_millis),
        schema,
    })
}

/// The committer of a compaction that was planned of the newest snapshot, which is its base: with the files of its
/// first try made, and judged as each try is. The files of rows of the plan are to be created before its next call.
/// The refusal is why nothing of it is created.
pub fn new_compaction(
    alloc: Global,
    schema: TableSchema,
    newest: Newest,
    author: Author,
    plan: Plan,
    names: Names,
) -> Result<Committer, Refusal>
    requires declared { IsDeclared schema }
    requires numbers { AreNumbered newest.live.items }
    requires based { (author.base ≡ newest.id) × (names.base ≡ newest.id) }
    requires count { names.count ≤ 2 ^ 61 }
    ensures begins { IfOk result (Begins schema newest author plan names) }
    ensures is_committer { IfOk result (λ m. IsCommitter m × (0 < calls_left m) × (calls_left m ≤ most_calls)) }
    ensures refuses { IfErr result (λ e. (e ≡ Memory)
        ⊎ (refusal_of newest author (intents.Compact plan) ≡ Some e)) }
{
    let own = Own::of_plan(plan, author, names);
    match make(alloc, own, Found { schema, newest }) {
        Ok(phase) => Ok(Running::new(phase)),
        Err(refusal) => Err(refusal),
    }
}

/// Makes the next call of the store. After a refusal, and once the batch is committed or was before, no call is left.
pub fn commit_step<F: FileStore>(
    alloc: Global,
    committer: &mut Committer,
    store: &mut F,
) -> Result<CommitStep, Refusal>
    requires { 0 < calls_left committer.old }
    ensures moves { CommitterMoved committer.old committer.new (F.seen store.old) (F.seen store.new) }
    ensures alone { CommitterAlone committer.old committer.new (F.seen store.old) (F.seen store.new) result }
    ensures acts { CommitterActed committer.old committer.new (F.seen store.old) (F.seen store.new) result }
    ensures reaches { IfOk result (λ step. Reaches step committer.new) }
    ensures fewer { OnOk result (calls_left committer.new < calls_left committer.old) }
    ensures over { OnErr result (committer.new ≡ phases.Over) }
    ensures later { IsLater (F.seen store.old) (F.seen store.new) }
{
    machine_law();
    read_entry_law();
    committer.known();
    match step(alloc, committer, store) {
        Ok(()) => Ok(reached(committer)),
        Err(refusal) => Err(refusal),
    }
}

/// What a step that went on has reached.
fn reached(committer: &Committer) -> CommitStep
    ensures { result ≡ reached_at committer.now }
{
    match committer.phase() {
        Phase::Committed { id, .. } => CommitStep::Committed(*id),
        Phase::Already { .. } => CommitStep::Already,
        _ => CommitStep::More,
    }
}
