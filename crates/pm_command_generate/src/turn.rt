//! What goes from one command to the next.

ghost use Rattle.std.specs.Prelude.{◌≡◌, ◌+◌, ◌<◌, ◌^◌, Some};
ghost use Rattle.std.specs.Result.{result_err};
ghost use Rattle.pm_command_generate.specs.Generate.{numbered, told, Finishes, TellsLast};

use pm_command::Start;
use pm_io::MemSink;
use pm_snapshot::number_after;
use pm_values::Refusal;

/// The number of the next actor, and the last snapshot that a command told of.
#[derive(Clone, Copy)]
pub(crate) struct Turn {
    pub(crate) number: u32,
    pub(crate) last: Option<u64>,
}

/// The start of the actor with this number.
pub(crate) fn numbered(start: &Start, number: u32) -> Start
    ensures { result ≡ numbered start.now number }
{
    Start {
        session: start.session,
        number,
        now_millis: start.now_millis,
    }
}

/// What is answered to a command's end: the next actor has its turn, or what stands for the refusal.
pub(crate) fn finish(
    turn: &mut Turn,
    out: &MemSink,
    ended: Result<(), Refusal>,
) -> Result<(), Refusal>
    requires few { turn.old.number + 1 < 2 ^ 32 }
    ensures { Finishes out.now.taken turn.old turn.new (result_err ended) (result_err result) }
{
    match ended {
        Ok(()) => {
            turn.last = last_of(out.bytes(), turn.last);
            turn.number += 1;
            Ok(())
        }
        Err(refusal) => Err(told(refusal)),
    }
}

/// The last snapshot, once a command printed this text.
fn last_of(text: &[u8], old: Option<u64>) -> Option<u64>
    ensures { TellsLast (Some text.now) old result }
{
    match text.strip_suffix(b"\n") {
        Some(told) => match number_after(b"snapshot ", told) {
            Some(id) => Some(id),
            None => old,
        },
        None => old,
    }
}

/// What stands for a refusal: a source or a sink in memory fails for want of memory alone.
fn told(refusal: Refusal) -> Refusal
    ensures { result ≡ told refusal }
{
    match &refusal {
        Refusal::SinkFault { .. } | Refusal::SourceFault => Refusal::Memory,
        _ => refusal,
    }
}
