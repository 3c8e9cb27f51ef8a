//! The lines of a command's input.

ghost use Rattle.std.specs.Prelude.{IfErr, IfSome};
ghost use Rattle.pm_io.specs.Source.{SourceLater};
ghost use Rattle.pm_command_write.specs.Input.{ReadsInput, MayRefuseInput};

use pm_input::{InputLines, LIMITS, read_lines, refusal_of};
use pm_io::Source;
use pm_values::Refusal;
use std::alloc::Global;

/// All lines of an input that aren't blank. It is read to its end first.
pub(crate) fn read_input<S: Source>(alloc: Global, input: &mut S) -> Result<InputLines, Refusal>
    ensures answer { IfSome (S.seen input.old).left (λ bytes. ReadsInput (λ lines. lines) bytes
        (S.seen input.old) (S.seen input.new) result) }
    ensures refusal { IfErr result (MayRefuseInput (S.seen input.old) (S.seen input.new)) }
    ensures later { SourceLater (S.seen input.old) (S.seen input.new) }
{
    match read_lines(alloc, input, &LIMITS) {
        Ok(lines) => Ok(lines),
        Err(fault) => Err(refusal_of(alloc, fault)?),
    }
}
