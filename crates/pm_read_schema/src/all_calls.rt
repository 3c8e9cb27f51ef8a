//! All calls of a reader, one after another.

ghost use Rattle.std.specs.Prelude.{IfErr, IfOk};
ghost use Rattle.pm_machine.specs.Trace.{HasTrace};
ghost use Rattle.pm_schema.specs.Again.{IsDeclared};
ghost use Rattle.pm_store.specs.Store.{IsLater};
ghost use Rattle.pm_model_history.specs.History.{IsTableOf};
ghost use Rattle.pm_read_schema.specs.AllCalls.{DidRead, ReadsTables};
ghost use Rattle.pm_read_schema.specs.Beside.{AnyPast, IsTold, Learns};

use crate::reader::{into_schema, is_schema_ready, schema_reader};
use pm_machine::take_step;
use pm_model_folder::past_law;
use pm_schema::TableSchema;
use pm_store::FileStore;
use pm_values::Refusal;
use std::alloc::Global;

/// Reads the schema of a table: all calls of a reader, one after another. Whatever others do meanwhile, it is the
/// schema of the table that is there then, and a refusal tells what is so at the call that shows it.
pub fn read_table_schema<F: FileStore>(alloc: Global, store: &mut F) -> Result<TableSchema, Refusal>
    ensures trace { HasTrace (DidRead result) (F.seen store.old) (F.seen store.new) }
    ensures history { ReadsTables (F.seen store.old) (F.seen store.new) result }
    ensures beside { IfOk result (λ s. Learns AnyPast (λ f p. IsTableOf s p.history) (F.seen store.old)
        (F.seen store.new)) }
    ensures refused { IfErr result (λ refusal. Learns AnyPast (IsTold refusal) (F.seen store.old) (F.seen store.new)) }
    ensures declared { IfOk result IsDeclared }
    ensures later { IsLater (F.seen store.old) (F.seen store.new) }
{
    make_calls(alloc, store)
}

/// Makes the calls up to the schema, or those up to a refusal.
fn make_calls<F: FileStore>(alloc: Global, store: &mut F) -> Result<TableSchema, Refusal>
    ensures trace { HasTrace (DidRead result) (F.seen store.old) (F.seen store.new) }
    ensures beside { IfOk result (λ s. Learns AnyPast (λ f p. IsTableOf s p.history) (F.seen store.old)
        (F.seen store.new)) }
    ensures refused { IfErr result (λ refusal. Learns AnyPast (IsTold refusal) (F.seen store.old) (F.seen store.new)) }
    ensures declared { IfOk result IsDeclared }
    ensures later { IsLater (F.seen store.old) (F.seen store.new) }
{
    past_law();
    let mut reader = schema_reader();
    while !is_schema_ready(&reader) {
        match take_step(alloc, &mut reader, store) {
            Ok(_) => {}
            Err(refusal) => {
                drop(reader);
                return Err(refusal);
            }
        }
    }
    Ok(into_schema(reader))
}
