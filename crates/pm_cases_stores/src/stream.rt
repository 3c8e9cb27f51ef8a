//! Sources and sinks, in memory and of a reader or a writer that fails.

use pm_cases::Case;
use pm_io::{
    Line, LineFault, Lines, MemSink, MemSource, Sink, Source, StdSink, StdSource, write_all,
};
use std::io;
use std::io::{ErrorKind, Read, Write};

/// At most this many calls are made of one source.
const MOST_CALLS: usize = 20;

/// A reader of one byte a call. After so many bytes as many calls all fail with an error of this kind.
#[derive(Drop)]
struct Faulty<'a> {
    after: usize,
    times: u64,
    kind: ErrorKind,
    bytes: &'a [u8],
}

impl Read for Faulty<'_> {
    fn read(&mut self, buf: &mut [u8]) -> io::Result<usize> {
        if self.after == 0 && self.times > 0 {
            self.times -= 1;
            return Err(io::Error::new(self.kind, "no byte"));
        }
        let count = buf.len().min(self.bytes.len()).min(1);
        buf[..count].copy_from_slice(&self.bytes[..count]);
        self.bytes = &self.bytes[count..];
        self.after = self.after.saturating_sub(count);
        Ok(count)
    }
}

/// A writer that takes one byte a call. After so many bytes as many calls all fail with an error of this kind, or take
/// none where there is no kind.
#[derive(Drop)]
struct Narrow<'a> {
    bytes: &'a mut Vec<u8>,
    after: usize,
    times: u64,
    kind: Option<ErrorKind>,
}

impl Write for Narrow<'_> {
    fn write(&mut self, buf: &[u8]) -> io::Result<usize> {
        if self.after == 0 && self.times > 0 {
            self.times -= 1;
            return match self.kind {
                Some(kind) => Err(io::Error::new(kind, "no room")),
                None => Ok(0),
            };
        }
        if buf.is_empty() {
            return Ok(0);
        }
        self.bytes.push(buf[0])?;
        self.after = self.after.saturating_sub(1);
        Ok(1)
    }

    fn flush(&mut self) -> io::Result<()> {
        Ok(())
    }
}

/// The lines of a source: `memory`, whose read of that number fails, or a reader as many of whose calls as the number
/// are `interrupted` or `broken`, the first ones, or after `@` and a number those after so many bytes. Then the number,
/// the greatest length of a line, and a text with `/` for each newline.
pub fn source_answer(case: &mut Case, arguments: &str) {
    let (kind, rest) = case.split(arguments);
    let (number, rest) = case.split(rest);
    let (max, text) = case.split(rest);
    let (times, after) = number.split_once('@').unwrap_or((number, "0"));
    let times = case.number(times);
    let after = case.size(after);
    let max = case.size(max);
    let bytes = lines_of(case, text);
    match kind {
        "memory" => say_memory(case, times, max, bytes),
        "interrupted" => say_reader(case, ErrorKind::Interrupted, after, times, max, &bytes),
        _ => say_reader(case, ErrorKind::Other, after, times, max, &bytes),
    }
}

/// The bytes of a text with `/` for each newline.
fn lines_of(case: &mut Case, text: &str) -> Vec<u8> {
    let mut bytes = Vec::new(case.alloc());
    for byte in text.as_bytes() {
        case.push(&mut bytes, if *byte == b'/' { b'\n' } else { *byte });
    }
    bytes
}

/// Says the lines of bytes in memory, the read of a number of which fails.
fn say_memory(case: &mut Case, number: u64, max: usize, bytes: Vec<u8>) {
    let mut fails = Vec::new(case.alloc());
    case.push(&mut fails, number);
    let mut source = MemSource::new(bytes, fails);
    say_lines(case, &mut source, max);
    drop(source);
}

/// Says the lines of a reader, so many of whose calls fail after so many bytes.
fn say_reader(
    case: &mut Case,
    kind: ErrorKind,
    after: usize,
    times: u64,
    max: usize,
    bytes: &[u8],
) {
    let mut source = StdSource::new(Faulty {
        after,
        times,
        kind,
        bytes,
    });
    say_lines(case, &mut source, max);
    drop(source);
}

/// Says what comes of the calls up to the end: a line and `;` where a newline ended it, else `.`; `!` for a failed
/// read; `+` and the bytes that were begun where the line is too long; `$` for the end.
fn say_lines<S: Source>(case: &mut Case, source: &mut S, max: usize) {
    let mut lines = Lines::new(case.alloc());
    for _ in 0..MOST_CALLS {
        match lines.read_line(source, max) {
            Ok(Some(line)) => say_line(case, line),
            Ok(None) => {
                case.say("$");
                break;
            }
            Err(LineFault::Read) => case.say("!"),
            Err(LineFault::Long) => {
                case.say("+");
                case.say_bytes(lines.begun());
                break;
            }
            Err(LineFault::Memory) => case.run_out(),
        }
    }
    drop(lines);
}

/// Says a line.
fn say_line(case: &mut Case, line: Line) {
    case.say_bytes(&line.bytes);
    case.say(if line.ended { ";" } else { "." });
    drop(line);
}

/// What a sink takes of a text, and whether that was all: `memory` with so much room whose write of the number fails,
/// or a writer that after so many bytes is `broken`, `interrupted` or `full`, for as many calls as the number, and for
/// 0 from then on. Then the room, the number, and the text.
pub fn sink_answer(case: &mut Case, arguments: &str) {
    let (kind, rest) = case.split(arguments);
    let (room, rest) = case.split(rest);
    let (number, text) = case.split(rest);
    let room = case.size(room);
    let number = case.number(number);
    match kind {
        "memory" => write_memory(case, room, number, text),
        "broken" => write_narrow(case, room, number, Some(ErrorKind::Other), text),
        "interrupted" => write_narrow(case, room, number, Some(ErrorKind::Interrupted), text),
        _ => write_narrow(case, room, number, None, text),
    }
}

/// Says what memory takes of a text, a write of which fails.
fn write_memory(case: &mut Case, room: usize, number: u64, text: &str) {
    let mut fails = Vec::new(case.alloc());
    case.push(&mut fails, number);
    match MemSink::new(case.alloc(), room, fails) {
        Ok(sink) => write_sink(case, sink, text),
        Err(_) => case.run_out(),
    }
}

/// Says what a sink in memory takes of a text.
fn write_sink(case: &mut Case, sink: MemSink, text: &str) {
    let mut sink = sink;
    let is_whole = write_text(&mut sink, text);
    say_taken(case, is_whole, sink.bytes());
    drop(sink);
}

/// Says what a writer takes of a text.
fn write_narrow(case: &mut Case, after: usize, times: u64, kind: Option<ErrorKind>, text: &str) {
    let mut bytes = Vec::new(case.alloc());
    let mut sink = StdSink::new(Narrow {
        bytes: &mut bytes,
        after,
        times: if times == 0 { u64::MAX } else { times },
        kind,
    });
    let is_whole = write_text(&mut sink, text);
    drop(sink);
    say_taken(case, is_whole, &bytes);
}

/// Whether a sink takes the whole text.
fn write_text<W: Sink>(sink: &mut W, text: &str) -> bool {
    write_all(sink, text.as_bytes()).is_ok()
}

/// Says what was taken, and whether it was all.
fn say_taken(case: &mut Case, is_whole: bool, bytes: &[u8]) {
    case.say(if is_whole { "whole " } else { "failed " });
    case.say_quoted_bytes(bytes);
}
