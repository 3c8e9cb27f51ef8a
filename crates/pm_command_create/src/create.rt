//! The command `create`: make a table of the draft in the input.

ghost use Rattle.std.specs.Prelude.{◌≡◌, ℕ, List, None, Some};
ghost use Rattle.std.specs.Result.{result_err};
ghost use Rattle.pm_create.specs.Creator.{new_table};
ghost use Rattle.pm_model_folder.specs.Changes.{origin_name};
ghost use Rattle.pm_io.specs.Sink.{SinkLater};
ghost use Rattle.pm_schema.specs.Again.{IsDeclared};
ghost use Rattle.pm_store.specs.Store.{IsLater};
ghost use Rattle.pm_command_create.specs.Create.{AnswersCreate, ActsCreate, CreatesTables, IsMade, created_text};
ghost use Rattle.pm_command.specs.Outside.{actor, outside, AllLater, Prints};

use pm_command::{Start, print};
use pm_create::{Creator, create_table, origin_name};
use pm_draft::read_draft_input;
use pm_io::{Sink, Source};
use pm_schema::TableSchema;
use pm_store::FileStore;
use pm_values::Refusal;
use std::alloc::Global;

/// Makes a table of the draft in the input, and says so.
pub fn run_create<S: Source, W: Sink, F: FileStore>(
    alloc: Global,
    input: &mut S,
    out: &mut W,
    store: &mut F,
    start: &Start,
) -> Result<(), Refusal>
    ensures command { (bytes : List ℕ) → (S.seen input.old).left ≡ Some bytes
        → AnswersCreate start.now bytes
        (outside (S.seen input.old) (W.seen out.old) (F.seen store.old))
        (outside (S.seen input.new) (W.seen out.new) (F.seen store.new)) (result_err result) }
    ensures acts { ActsCreate start.now
        (outside (S.seen input.old) (W.seen out.old) (F.seen store.old))
        (outside (S.seen input.new) (W.seen out.new) (F.seen store.new)) (result_err result) }
    ensures history { CreatesTables start.now
        (outside (S.seen input.old) (W.seen out.old) (F.seen store.old))
        (outside (S.seen input.new) (W.seen out.new) (F.seen store.new)) (result_err result) }
    ensures later { AllLater (outside (S.seen input.old) (W.seen out.old) (F.seen store.old))
        (outside (S.seen input.new) (W.seen out.new) (F.seen store.new)) }
{
    let origin = origin_name(alloc, start.session, start.number)?;
    let schema = read_draft_input(alloc, input, origin, start.now_millis)?;
    make_table(alloc, start, schema, out, store)
}

/// Makes the table of a schema, and says so.
fn make_table<W: Sink, F: FileStore>(
    alloc: Global,
    start: &Start,
    schema: TableSchema,
    out: &mut W,
    store: &mut F,
) -> Result<(), Refusal>
    requires declared { IsDeclared schema }
    requires first { schema.id ≡ 0 }
    requires origin { schema.origin ≡ Some (origin_name (actor start.now)) }
    ensures made { IsMade (new_table (actor start.now) schema) (W.seen out.old) (W.seen out.new)
        (F.seen store.old) (F.seen store.new) (result_err result) }
    ensures out_later { SinkLater (W.seen out.old) (W.seen out.new) }
    ensures store_later { IsLater (F.seen store.old) (F.seen store.new) }
{
    let creator = Creator::new(alloc, start.session, start.number, schema)?;
    create_table(alloc, creator, store)?;
    print_created(out)
}

/// Says that the table was made.
fn print_created<W: Sink>(out: &mut W) -> Result<(), Refusal>
    ensures prints { Prints created_text None None (W.seen out.old) (W.seen out.new) (result_err result) }
    ensures later { SinkLater (W.seen out.old) (W.seen out.new) }
{
    print(out, b"created\n", None)
}
