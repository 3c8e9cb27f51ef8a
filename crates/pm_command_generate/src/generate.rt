//! The command `generate`.

ghost use Rattle.std.specs.Prelude.{◌≡◌, IfOk};
ghost use Rattle.std.specs.Result.{result_err};
ghost use Rattle.pm_io.specs.Sink.{SinkLater};
ghost use Rattle.pm_store.specs.Store.{IsLater};
ghost use Rattle.pm_words.specs.Words.{CanDraw};
ghost use Rattle.pm_command_generate.specs.Generate.{summary, Generates};

use crate::drawing::Drawing;
use crate::filling::fill;
use crate::steps::{create, scan};
use crate::turn::Turn;
use pm_command::{Start, print};
use pm_draws::{shown_numbers, sum_of};
use pm_io::Sink;
use pm_store::FileStore;
use pm_values::Refusal;
use std::alloc::{AllocError, Global};

/// Makes a table, fills it with drawn rows, and says what a scan shows of it.
pub fn run_generate<W: Sink, F: FileStore>(
    alloc: Global,
    drawing: &Drawing,
    out: &mut W,
    store: &mut F,
    start: &Start,
) -> Result<(), Refusal>
    requires { CanDraw drawing.now.batches drawing.now.rows }
    ensures generated { Generates drawing.now start.now (W.seen out.old) (W.seen out.new) (F.seen store.old)
        (F.seen store.new) (result_err result) }
    ensures out_later { SinkLater (W.seen out.old) (W.seen out.new) }
    ensures store_later { IsLater (F.seen store.old) (F.seen store.new) }
{
    let mut turn = Turn {
        number: 0,
        last: None,
    };
    create(alloc, &mut turn, store, start)?;
    fill(alloc, drawing, &mut turn, store, start)?;
    let text = scan(alloc, &mut turn, store, start)?;
    let line = summary(alloc, drawing, text.bytes())?;
    print(out, &line, turn.last)
}

/// The line that is printed, of what the scan printed.
fn summary(alloc: Global, drawing: &Drawing, text: &[u8]) -> Result<Vec<u8>, AllocError>
    requires { CanDraw drawing.now.batches drawing.now.rows }
    ensures { IfOk result (λ line. line.items ≡ summary drawing.now text.now) }
{
    let numbers = shown_numbers(alloc, text)?;
    let batches = drawing.batches;
    let rows = drawing.batches * drawing.rows;
    let shown = numbers.len();
    let sum = sum_of(&numbers);
    let told = format!(in alloc; "generated {batches} rows {rows} shown {shown} sum {sum}")?;
    let mut line = told.into_bytes();
    line.push(b'\n')?;
    Ok(line)
}
