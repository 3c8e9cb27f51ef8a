//! What commands print.

ghost use Rattle.std.specs.Prelude.{◌≡◌, ◌++◌, None, Some, IfErr, OnOk, OnErr, codes, decimal};
ghost use Rattle.std.specs.Result.{result_err};
ghost use Rattle.pm_base.specs.Known.{and_then};
ghost use Rattle.pm_base.specs.Newline.{line};
ghost use Rattle.pm_io.specs.Sink.{SinkFailed, SinkLater, TookPrefix};
ghost use Rattle.pm_values.specs.declared.refusal.Refusal.TheVariants as refusals;
ghost use Rattle.pm_command.specs.Outside.{Prints};

use itoa::Buffer;
use pm_io::{LineBuffer, Sink, write_all};
use pm_values::Refusal;

/// Prints a text, after the commit of that snapshot where there is one.
pub fn print<W: Sink>(out: &mut W, text: &[u8], snapshot: Option<u64>) -> Result<(), Refusal>
    ensures ok { OnOk result ((W.seen out.new).taken ≡ and_then (W.seen out.old).taken text.now) }
    ensures fault { IfErr result (λ e. e ≡ refusals.SinkFault snapshot) }
    ensures prefix { OnErr result (TookPrefix (W.seen out.old).taken (W.seen out.new).taken text.now) }
    ensures failed { OnErr result (SinkFailed (W.seen out.old) (W.seen out.new)) }
    ensures prints { Prints text.now snapshot None (W.seen out.old) (W.seen out.new) (result_err result) }
    ensures later { SinkLater (W.seen out.old) (W.seen out.new) }
{
    match write_all(out, text) {
        Ok(()) => Ok(()),
        Err(_) => Err(Refusal::SinkFault { snapshot }),
    }
}

/// Says which snapshot was committed, in one piece.
pub fn print_snapshot<W: Sink>(out: &mut W, id: u64) -> Result<(), Refusal>
    ensures prints { Prints (line (codes "snapshot " ++ decimal id)) (Some id) None (W.seen out.old) (W.seen out.new)
        (result_err result) }
    ensures later { SinkLater (W.seen out.old) (W.seen out.new) }
{
    let mut buffer = Buffer::new();
    let number = buffer.format(id);
    let mut text = LineBuffer::new();
    text.hold(b"snapshot ");
    text.hold(number.as_bytes());
    text.hold(b"\n");
    print(out, text.bytes(), Some(id))
}
