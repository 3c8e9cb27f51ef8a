//! A command, from its words to its answer.

ghost use Rattle.std.specs.Prelude.{◌≡◌, ◌≤◌, IfOk, IfSome};
ghost use Rattle.std.specs.Result.{result_err};
ghost use Rattle.pm_io.specs.Sink.{SinkLater};
ghost use Rattle.pm_io.specs.Source.{SourceView};
ghost use Rattle.pm_store.specs.Store.{IsLater};
ghost use Rattle.pm_command.specs.Outside.{outside, AllLater, IsUntouched};
ghost use Rattle.pm_words.specs.Words.{Give, GiveNoCommand, IsInRange, IsName, IsNoCommand};
ghost use Rattle.pm_words.specs.declared.command.Command.{Command};
ghost use Rattle.pm_cli.specs.Commands.{Acts, Answers, IsFollowedOrConsumed, IsListedOrRemoved, ServesHistories};

use pm_command::Start;
use pm_command_compact::run_compact;
use pm_command_consume::{Consuming, consume_law, run_consume};
use pm_command_consumers::{run_consumers, run_drop};
use pm_command_create::run_create;
use pm_command_expire::run_expire;
use pm_command_follow::{follow_law, run_follow};
use pm_command_generate::{Drawing, run_generate};
use pm_command_scan::run_scan;
use pm_command_snapshots::run_snapshots;
use pm_command_write::{Writer, run_write};
use pm_expire_end::KeepAsked;
use pm_io::{Sink, Source};
use pm_model_folder::past_law;
use pm_store::FileStore;
use pm_values::{Refusal, Txt};
use pm_words::{Command, command_in, no_command, one_command_law};
use std::alloc::Global;

/// Executes the command that the words give.
pub(crate) fn execute<S: Source, W: Sink, F: FileStore>(
    alloc: Global,
    words: &[Txt],
    input: &mut S,
    out: &mut W,
    store: &mut F,
    start: &Start,
) -> Result<(), Refusal>
    ensures no_command { GiveNoCommand words.now → IsNoCommand words.now (result_err result)
        × (S.seen input.new ≡ S.seen input.old)
        × IsUntouched (outside (S.seen input.old) (W.seen out.old) (F.seen store.old))
        (outside (S.seen input.new) (W.seen out.new) (F.seen store.new)) }
    ensures command { (command : Command) → Give words.now command
        → Answers command start.now
        (outside (S.seen input.old) (W.seen out.old) (F.seen store.old))
        (outside (S.seen input.new) (W.seen out.new) (F.seen store.new)) (result_err result) }
    ensures acts { (command : Command) → Give words.now command
        → Acts command start.now
        (outside (S.seen input.old) (W.seen out.old) (F.seen store.old))
        (outside (S.seen input.new) (W.seen out.new) (F.seen store.new)) (result_err result) }
    ensures history { (command : Command) → Give words.now command
        → ServesHistories command start.now
        (outside (S.seen input.old) (W.seen out.old) (F.seen store.old))
        (outside (S.seen input.new) (W.seen out.new) (F.seen store.new)) (result_err result) }
    ensures later { AllLater (outside (S.seen input.old) (W.seen out.old) (F.seen store.old))
        (outside (S.seen input.new) (W.seen out.new) (F.seen store.new)) }
{
    one_command_law();
    follow_law();
    consume_law();
    past_law();
    match command_in(alloc, words)? {
        Some(command) => execute_command(alloc, command, input, out, store, start),
        None => Err(no_command(alloc, words)?),
    }
}

/// Executes a command.
fn execute_command<S: Source, W: Sink, F: FileStore>(
    alloc: Global,
    command: Command,
    input: &mut S,
    out: &mut W,
    store: &mut F,
    start: &Start,
) -> Result<(), Refusal>
    requires { IsInRange command }
    ensures command { Answers command start.now
        (outside (S.seen input.old) (W.seen out.old) (F.seen store.old))
        (outside (S.seen input.new) (W.seen out.new) (F.seen store.new)) (result_err result) }
    ensures acts { Acts command start.now
        (outside (S.seen input.old) (W.seen out.old) (F.seen store.old))
        (outside (S.seen input.new) (W.seen out.new) (F.seen store.new)) (result_err result) }
    ensures history { ServesHistories command start.now
        (outside (S.seen input.old) (W.seen out.old) (F.seen store.old))
        (outside (S.seen input.new) (W.seen out.new) (F.seen store.new)) (result_err result) }
    ensures later { AllLater (outside (S.seen input.old) (W.seen out.old) (F.seen store.old))
        (outside (S.seen input.new) (W.seen out.new) (F.seen store.new)) }
{
    match command {
        Command::Create => run_create(alloc, input, out, store, start),
        Command::Scan { snapshot } => run_scan(alloc, snapshot, out, store),
        Command::Snapshots => run_snapshots(alloc, out, store),
        Command::Consumers { dropped } => list_or_drop(alloc, dropped, out, store),
        Command::Compact { full } => run_compact(alloc, full, out, store, start),
        Command::Expire { min, max, millis } => {
            let asked = KeepAsked { min, max, millis };
            run_expire(alloc, asked, out, store, start)
        }
        Command::Follow {
            from,
            consumer,
            full,
        } => follow_or_consume(alloc, from, consumer, full, out, store),
        Command::Generate {
            batches,
            rows,
            seed,
        } => {
            let drawing = Drawing {
                batches,
                rows,
                seed,
            };
            run_generate(alloc, &drawing, out, store, start)
        }
        Command::Write { user, identifier } => {
            run_write(alloc, Writer { user, identifier }, input, out, store, start)
        }
    }
}

/// Lists a table's consumers, or drops one.
fn list_or_drop<W: Sink, F: FileStore>(
    alloc: Global,
    dropped: Option<Txt>,
    out: &mut W,
    store: &mut F,
) -> Result<(), Refusal>
    requires { IfSome dropped IsName }
    ensures done { IsListedOrRemoved dropped (W.seen out.old) (W.seen out.new) (F.seen store.old) (F.seen store.new)
        (result_err result) }
    ensures out_later { SinkLater (W.seen out.old) (W.seen out.new) }
    ensures store_later { IsLater (F.seen store.old) (F.seen store.new) }
{
    match dropped {
        None => run_consumers(alloc, out, store),
        Some(name) => run_drop(alloc, &name, out, store),
    }
}

/// Follows a table, without a consumer or with one.
fn follow_or_consume<W: Sink, F: FileStore>(
    alloc: Global,
    from: Option<u64>,
    consumer: Option<Txt>,
    full: bool,
    out: &mut W,
    store: &mut F,
) -> Result<(), Refusal>
    requires from { IfSome from (λ id. 1 ≤ id) }
    requires consumer { IfSome consumer IsName }
    ensures done { (before after : SourceView)
        → IsFollowedOrConsumed from consumer full (outside before (W.seen out.old) (F.seen store.old))
        (outside after (W.seen out.new) (F.seen store.new)) (result_err result) }
    ensures out_later { SinkLater (W.seen out.old) (W.seen out.new) }
    ensures store_later { IsLater (F.seen store.old) (F.seen store.new) }
{
    match consumer {
        None => run_follow(alloc, from, full, out, store),
        Some(name) => run_consume(alloc, &Consuming { name, from, full }, out, store),
    }
}
