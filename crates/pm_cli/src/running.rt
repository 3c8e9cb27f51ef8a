//! The top call.

ghost use Rattle.std.specs.Prelude.{◌≡◌, ℕ, List, Some};
ghost use Rattle.pm_io.specs.Sink.{SinkLater};
ghost use Rattle.pm_report.specs.Report.{code_of};
ghost use Rattle.pm_command.specs.Outside.{outside, AllLater, IsUntouched, exit_code, Said};
ghost use Rattle.pm_words.specs.Words.{Give, GiveNoCommand, IsNoCommand};
ghost use Rattle.pm_words.specs.declared.command.Command.{Command};
ghost use Rattle.pm_cli.specs.Commands.{Acts, Answers, IsSingle, ServesHistories};
ghost use Rattle.pm_cli.specs.Promise.{Keeps};

use crate::execute::execute;
use crate::laws::keeps_law;
use pm_command::Start;
use pm_io::{Sink, Source};
use pm_report::{report, status};
use pm_store::FileStore;
use pm_values::{Refusal, Txt};
use std::alloc::Global;

/// How a command ended: 0, or the number of its refusal.
pub struct Status {
    pub code: u8,
    pub refusal: Option<Refusal>,
}

impl Drop for Status {
    fn drop(self) {
        let Status { code, refusal } = self;
    }
}

/// Runs one command: its words, its input, where it prints, where it says why it was refused, the store, and whose
/// names it makes and when it begins.
pub fn run<S: Source, W: Sink, V: Sink, F: FileStore>(
    alloc: Global,
    words: &[Txt],
    input: &mut S,
    out: &mut W,
    err: &mut V,
    store: &mut F,
    start: &Start,
) -> Status
    // Words that give no command are refused, and nothing is read, printed or called for them.
    ensures code { result.code ≡ exit_code result.refusal }
    ensures no_command { GiveNoCommand words.now → IsNoCommand words.now result.refusal
        × (S.seen input.new ≡ S.seen input.old)
        × IsUntouched (outside (S.seen input.old) (W.seen out.old) (F.seen store.old))
        (outside (S.seen input.new) (W.seen out.new) (F.seen store.new)) }

    // Each answer of a command, with its cause: where the input is known, and whatever is known.
    ensures command { (command : Command) → Give words.now command
        → Answers command start.now
        (outside (S.seen input.old) (W.seen out.old) (F.seen store.old))
        (outside (S.seen input.new) (W.seen out.new) (F.seen store.new)) result.refusal }
    ensures acts { (command : Command) → Give words.now command
        → Acts command start.now
        (outside (S.seen input.old) (W.seen out.old) (F.seen store.old))
        (outside (S.seen input.new) (W.seen out.new) (F.seen store.new)) result.refusal }

    // The promise: of each history that stands at its first call of the store, what it makes of it, what stands at the
    // end and in each image of a crash, what is printed, and that others are free to go on. `generate` executes other
    // commands, of each of which its own clauses say so.
    ensures promise { (command : Command) (bytes : List ℕ) → Give words.now command → IsSingle command
        → Keeps (record {
          command = command;
          start = start.now;
          input = bytes;
          before = outside (S.seen input.old) (W.seen out.old) (F.seen store.old);
          after = outside (S.seen input.new) (W.seen out.new) (F.seen store.new);
          refusal = result.refusal;
        }) }

    // What stands after each answer and at each moment of the call, what is printed, and that good input is served.
    ensures history { (command : Command) → Give words.now command
        → ServesHistories command start.now
        (outside (S.seen input.old) (W.seen out.old) (F.seen store.old))
        (outside (S.seen input.new) (W.seen out.new) (F.seen store.new)) result.refusal }

    // What is said on the error sink, and that no count falls.
    ensures said { Said result.refusal (V.seen err.old) (V.seen err.new) }
    ensures later { AllLater (outside (S.seen input.old) (W.seen out.old) (F.seen store.old))
        (outside (S.seen input.new) (W.seen out.new) (F.seen store.new)) }
    ensures err_later { SinkLater (V.seen err.old) (V.seen err.new) }
{
    keeps_law();
    match execute(alloc, words, input, out, store, start) {
        Ok(()) => Status {
            code: 0,
            refusal: None,
        },
        Err(refusal) => refused(err, refusal),
    }
}

/// Says why a command was refused.
fn refused<V: Sink>(err: &mut V, refusal: Refusal) -> Status
    ensures refusal { result.refusal ≡ Some refusal }
    ensures code { result.code ≡ code_of refusal }
    ensures said { Said (Some refusal) (V.seen err.old) (V.seen err.new) }
    ensures later { SinkLater (V.seen err.old) (V.seen err.new) }
{
    let _ = report(err, &refusal);
    Status {
        code: status(&refusal),
        refusal: Some(refusal),
    }
}
