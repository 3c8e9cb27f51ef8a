//! The compactor of a table.

ghost use Rattle.std.specs.Prelude.{◌≡◌, ◌<◌, ◌≤◌, ◌^◌, IfOk, OnErr, OnOk};
ghost use Rattle.pm_engines.specs.TableEngine.{HasEngine};
ghost use Rattle.pm_schema.specs.Again.{IsDeclared};
ghost use Rattle.pm_store.specs.Store.{IsLater};
ghost use Rattle.pm_commit.specs.Committer.{newest_of};
ghost use Rattle.pm_read_table.specs.declared.phase.Phase.TheVariants as readers;
ghost use Rattle.pm_compactor.specs.Alone.{CompactorAlone};
ghost use Rattle.pm_compactor.specs.Compactor.{asking_of, calls_left, Reaches};
ghost use Rattle.pm_compactor.specs.Meaning.{CompactorMoved};
ghost use Rattle.pm_compactor.specs.Trace.{CompactorActed};
ghost use Rattle.pm_compactor.specs.declared.phase.Phase.TheVariants as phases;

use crate::laws::{alone_law, compactor_law, machine_law};
use crate::phase::Phase;
use pm_base::Txt;
use pm_machine::{PhaseMeaning, Running, step};
use pm_plan::Asking;
use pm_read_table::newest_entries;
use pm_schema::TableSchema;
use pm_store::FileStore;
use pm_values::{Names, Refusal};
use std::alloc::Global;

/// What a step of a compactor reached: it goes on; or the snapshot with that id was committed; or no group had a
/// choice.
#[derive(Clone, Copy)]
pub enum CompactStep {
    More,
    Committed(u64),
    Nothing,
}

/// Compacts a table, a call of the store a step.
pub type Compactor = Running<Phase>;

/// The compactor of the table with this schema, which was just read, in full by the word or not, by a user and at that
/// moment.
pub fn new_compactor(
    schema: TableSchema,
    full: bool,
    user: Txt,
    names: Names,
    now_millis: i64,
) -> Compactor
    requires declared { IsDeclared schema }
    requires engine { HasEngine schema }
    requires count { names.count ≤ 2 ^ 60 }
    ensures { result ≡ phases.View (asking_of full user names now_millis) (readers.List (newest_of schema)) }
{
    Running::new(Phase::View {
        asking: Asking {
            full,
            user,
            names,
            now_millis,
        },
        reader: newest_entries(schema),
    })
}

/// Makes the next call of the store. After a refusal, and once it committed or had nothing to do, no call is left.
pub fn compact_step<F: FileStore>(
    alloc: Global,
    compactor: &mut Compactor,
    store: &mut F,
) -> Result<CompactStep, Refusal>
    requires { 0 < calls_left compactor.old }
    ensures moves { CompactorMoved compactor.old compactor.new (F.seen store.old) (F.seen store.new) }
    ensures alone { CompactorAlone compactor.old compactor.new (F.seen store.old) (F.seen store.new) result }
    ensures acts { CompactorActed compactor.old compactor.new (F.seen store.old) (F.seen store.new) result }
    ensures reaches { IfOk result (λ step. Reaches step compactor.new) }
    ensures fewer { OnOk result (calls_left compactor.new < calls_left compactor.old) }
    ensures over { OnErr result (compactor.new ≡ phases.Over) }
    ensures later { IsLater (F.seen store.old) (F.seen store.new) }
{
    machine_law();
    compactor_law();
    alone_law();
    compactor.known();
    match step(alloc, compactor, store) {
        Ok(()) => Ok(compactor.phase().reached()),
        Err(refusal) => Err(refusal),
    }
}
