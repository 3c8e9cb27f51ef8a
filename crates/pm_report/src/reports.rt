//! The line of a refusal and the exit status. A line is put together in pieces and takes no memory.

ghost use Rattle.std.specs.Prelude.{◌≡◌, ◌++◌, [], OnOk, OnErr, codes};
ghost use Rattle.pm_base.specs.Known.{and_then};
ghost use Rattle.pm_io.specs.LineBuffer.{line_at, Fit, Writes};
ghost use Rattle.pm_io.specs.Sink.{OfferedAll, SinkFailed, SinkLater, TookPrefix};
ghost use Rattle.pm_report.specs.Escaping.{escaped};
ghost use Rattle.pm_report.specs.Report.{code_of, why_text, blank_number, named, spaced};
ghost use Rattle.pm_report.specs.Report.{sink_message, consumer_message, message_of, report_text};
ghost use Rattle.pm_report.specs.Pieces.{piece_text, pieces_text};

use crate::escaping::write_escaped;
use itoa::Buffer;
use pm_io::{LineBuffer, Sink, SinkFail};
use pm_values::{Blob, Refusal, Why};

/// A piece of a line.
#[derive(Clone, Copy)]
enum Piece<'a> {
    /// The text itself.
    Text(&'a str),
    /// The bytes as they are.
    Bytes(&'a [u8]),
    /// The number in decimal.
    Number(u64),
    /// The signed number in decimal.
    Signed(i64),
    /// Each of the numbers in decimal, after a blank.
    Numbers(&'a [u64]),
    /// The word for what is wrong with a line, after a blank.
    Fault(Why),
    /// The name after a blank, or nothing where there is no name.
    Named(&'a str),
}

/// The exit status of a refusal, which is the number in its line.
pub fn status(refusal: &Refusal) -> u8
    ensures { result ≡ code_of refusal.now }
{
    match refusal {
        Refusal::Memory => 1,
        Refusal::Words { .. } => 2,
        Refusal::SourceFault => 3,
        Refusal::SinkFault { .. } => 4,
        Refusal::StoreFault { .. } => 5,
        Refusal::BadLine { .. } => 6,
        Refusal::Retraction { .. } => 7,
        Refusal::TableExists => 8,
        Refusal::NoTable => 9,
        Refusal::Unsupported { .. } => 10,
        Refusal::Damaged { .. } => 11,
        Refusal::NoSnapshot { .. } => 12,
        Refusal::Expired { .. } => 13,
        Refusal::Contended { .. } => 14,
        Refusal::CompactTaken { .. } => 15,
        Refusal::Fenced { .. } => 16,
        Refusal::BelowFloor { .. } => 17,
        Refusal::ConsumerMoved { .. } => 18,
        Refusal::NoChangelog => 19,
        Refusal::SessionUsed { .. } => 20,
        Refusal::Limit { .. } => 21,
        Refusal::SchemaRule { .. } => 22,
    }
}

/// Writes the line of a refusal with its newline, or a prefix of it. One of at most `LINE_ROOM` bytes goes out by one
/// `write_all`.
pub fn report<V: Sink>(err: &mut V, refusal: &Refusal) -> Result<(), SinkFail>
    ensures ok { OnOk result ((V.seen err.new).taken ≡ and_then (V.seen err.old).taken (report_text refusal.now)) }
    ensures prefix { OnErr result (TookPrefix (V.seen err.old).taken (V.seen err.new).taken (report_text refusal.now)) }
    ensures failed { OnErr result (SinkFailed (V.seen err.old) (V.seen err.new)) }
    ensures later { SinkLater (V.seen err.old) (V.seen err.new) }
    ensures calls { Fit [] (report_text refusal.now)
        → OfferedAll V.called (report_text refusal.now) err.old err.new result }
{
    let mut line = LineBuffer::new();
    write_line(&mut line, err, refusal)?;
    line.flush(err)
}

/// Writes the line of a refusal to a line.
fn write_line<V: Sink>(
    line: &mut LineBuffer,
    err: &mut V,
    refusal: &Refusal,
) -> Result<(), SinkFail>
    ensures { Writes V.seen (report_text refusal.now) (line_at line.old err.old) (line_at line.new err.new) result }
{
    let code = status(refusal) as u64;
    write_pieces(
        line,
        err,
        &[Piece::Text("E"), Piece::Number(code), Piece::Text(" ")],
    )?;
    write_pieces(line, err, &message_pieces(refusal))?;
    line.write(err, b"\n")
}

/// The pieces of what the refusal says after its number.
fn message_pieces(refusal: &Refusal) -> [Piece<'_>; 4]
    ensures { pieces_text result ≡ message_of refusal.now }
{
    use Piece::{Fault, Named, Number, Numbers, Signed, Text};
    match refusal {
        Refusal::Memory => bare("memory"),
        Refusal::Words { command } => one("words ", Text(command.as_str())),
        Refusal::SourceFault => bare("source"),
        Refusal::SinkFault { snapshot } => sink_pieces(snapshot),
        Refusal::StoreFault { path } => one("store ", Text(path.as_str())),
        Refusal::BadLine { line, why, column } => {
            [
                Text("line "),
                Number(*line),
                Fault(*why),
                Named(column.as_str()),
            ]
        }
        Refusal::Retraction { line, column } => {
            two(
                "retraction line ",
                Number(*line),
                " column ",
                Text(column.as_str()),
            )
        }
        Refusal::TableExists => bare("table exists"),
        Refusal::NoTable => bare("no table"),
        Refusal::Unsupported { what, text } => {
            two(
                "unsupported ",
                Text(what.as_str()),
                " ",
                Text(text.as_str()),
            )
        }
        Refusal::Damaged { path, place } => {
            two("damaged ", Text(path.as_str()), " ", Number(*place))
        }
        Refusal::NoSnapshot { id, latest } => two(
            "snapshot ",
            Number(*id),
            " latest ",
            Number(*latest),
        ),
        Refusal::Expired { id } => one("expired ", Number(*id)),
        Refusal::Contended { ids } => one("contended", Numbers(ids.as_slice())),
        Refusal::CompactTaken { file } => one("taken ", Text(file.as_str())),
        Refusal::Fenced { base, fence } => two(
            "fenced base ",
            Number(*base),
            " fence ",
            Signed(*fence),
        ),
        Refusal::BelowFloor { next, floor } => {
            two(
                "below floor next ",
                Number(*next),
                " floor ",
                Number(*floor),
            )
        }
        Refusal::ConsumerMoved { found } => consumer_pieces(found),
        Refusal::NoChangelog => bare("no changelog none"),
        Refusal::SessionUsed { path } => one("session used ", Text(path.as_str())),
        Refusal::Limit { which, number } => two(
            "limit ",
            Text(which.as_str()),
            " ",
            Number(*number),
        ),
        Refusal::SchemaRule { rule } => one("schema rule ", Number(*rule as u64)),
    }
}

/// The same of a sink that failed.
fn sink_pieces(snapshot: &Option<u64>) -> [Piece<'_>; 4]
    ensures { pieces_text result ≡ sink_message snapshot.now }
{
    match snapshot {
        None => bare("sink"),
        Some(id) => one("sink snapshot ", Piece::Number(*id)),
    }
}

/// The same of the file of a consumer, by what was found there.
fn consumer_pieces(found: &Option<Blob>) -> [Piece<'_>; 4]
    ensures { pieces_text result ≡ consumer_message found.now }
{
    match found {
        None => bare("consumer absent"),
        Some(found) => one("consumer ", Piece::Bytes(found.as_bytes())),
    }
}

/// A text alone.
fn bare(text: &str) -> [Piece<'_>; 4]
    ensures { pieces_text result ≡ text.now }
{
    let nothing = Piece::Text("");
    [Piece::Text(text), nothing, nothing, nothing]
}

/// A text and a piece.
fn one<'a>(text: &'a str, piece: Piece<'a>) -> [Piece<'a>; 4]
    ensures { pieces_text result ≡ text.now ++ piece_text piece.entry }
{
    let nothing = Piece::Text("");
    [Piece::Text(text), piece, nothing, nothing]
}

/// Two texts, each with a piece after it.
fn two<'a>(text: &'a str, piece: Piece<'a>, more: &'a str, last: Piece<'a>) -> [Piece<'a>; 4]
    ensures { pieces_text result ≡ text.now ++ piece_text piece.entry ++ more.now ++ piece_text last.entry }
{
    [Piece::Text(text), piece, Piece::Text(more), last]
}

/// A blank and the word for what is wrong with a line.
fn blank_and_why(why: Why) -> &'static str
    ensures { result.now ≡ codes " " ++ why_text why }
{
    match why {
        Why::Json => " json",
        Why::Array => " array",
        Why::Kind => " kind",
        Why::Count => " count",
        Why::Null => " null",
        Why::Type => " type",
        Why::Range => " range",
        Why::Draft => " draft",
        Why::Script => " script",
    }
}

/// Writes the pieces to a line, one after the other.
fn write_pieces<V: Sink>(
    line: &mut LineBuffer,
    err: &mut V,
    pieces: &[Piece],
) -> Result<(), SinkFail>
    ensures { Writes V.seen (escaped (pieces_text pieces.now)) (line_at line.old err.old) (line_at line.new err.new)
        result }
{
    for piece in pieces {
        write_piece(line, err, *piece)?;
    }
    Ok(())
}

/// Writes a piece to a line.
fn write_piece<V: Sink>(line: &mut LineBuffer, err: &mut V, piece: Piece) -> Result<(), SinkFail>
    ensures { Writes V.seen (escaped (piece_text piece.entry)) (line_at line.old err.old) (line_at line.new err.new)
        result }
{
    match piece {
        Piece::Text(text) => write_escaped(line, err, text.as_bytes()),
        Piece::Bytes(bytes) => write_escaped(line, err, bytes),
        Piece::Number(n) => write_escaped(line, err, Buffer::new().format(n).as_bytes()),
        Piece::Signed(n) => write_escaped(line, err, Buffer::new().format(n).as_bytes()),
        Piece::Numbers(ns) => write_numbers(line, err, ns),
        Piece::Fault(why) => write_escaped(line, err, blank_and_why(why).as_bytes()),
        Piece::Named(name) => write_named(line, err, name),
    }
}

/// Writes each of the numbers to a line after a blank.
fn write_numbers<V: Sink>(
    line: &mut LineBuffer,
    err: &mut V,
    numbers: &[u64],
) -> Result<(), SinkFail>
    ensures { Writes V.seen (escaped (spaced numbers.now)) (line_at line.old err.old) (line_at line.new err.new)
        result }
{
    for n in numbers {
        write_number(line, err, *n)?;
    }
    Ok(())
}

/// Writes a number to a line after a blank.
fn write_number<V: Sink>(line: &mut LineBuffer, err: &mut V, number: u64) -> Result<(), SinkFail>
    ensures { Writes V.seen (escaped (blank_number number)) (line_at line.old err.old) (line_at line.new err.new)
        result }
{
    write_escaped(line, err, b" ")?;
    write_escaped(line, err, Buffer::new().format(number).as_bytes())
}

/// Writes a name to a line after a blank; nothing where there is no name.
fn write_named<V: Sink>(line: &mut LineBuffer, err: &mut V, name: &str) -> Result<(), SinkFail>
    ensures { Writes V.seen (escaped (named name.now)) (line_at line.old err.old) (line_at line.new err.new) result }
{
    write_escaped(line, err, blank_before(name).as_bytes())?;
    write_escaped(line, err, name.as_bytes())
}

/// The blank that stands before a name, or nothing where there is no name.
fn blank_before(name: &str) -> &'static str
    ensures { result.now ++ name.now ≡ named name.now }
{
    if name.is_empty() { "" } else { " " }
}
