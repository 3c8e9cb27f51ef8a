//! The lines of an input, kept.

ghost use Rattle.std.specs.Prelude.{◌≡◌, ◌<◌, ◌^◌, [], ◌∷◌, ◌++◌, length, IfNone, IfOk, IfSome, OnOk};
ghost use Rattle.pm_input.specs.Kept.{line_view, marked_length};

use std::alloc::{AllocError, Global};
use std::marker::Model;

/// A line that isn't blank, where it is kept.
#[derive(Clone, Copy)]
pub struct InputLine<'l> {
    /// Its number from 1 among all lines.
    pub number: u64,
    /// Its bytes without the newline.
    pub bytes: &'l [u8],
}

/// The number of a line, and how many bytes it has.
#[derive(Clone, Copy)]
pub(crate) struct LineMark {
    pub(crate) number: u32,
    pub(crate) len: u32,
}

/// Lines that aren't blank, with their numbers. All texts stand one after another in one piece of memory, so that a
/// short line takes little more than its bytes.
#[derive(Drop)]
pub struct InputLines {
    text: Vec<u8>,
    marks: Vec<LineMark>,
}

impl Model for InputLines {
    ghost use Rattle.std.specs.Prelude.{◌≡◌, ℕ, List, length};
    ghost use Rattle.pm_input.specs.Kept.{lines_in, marked_length};

    ghost Value = { List (ℕ × List ℕ) };

    ghost view = { λ l. lines_in l.text.items l.marks.items };

    ghost invariant = { λ l. marked_length l.marks.items ≡ length l.text.items };
}

impl InputLines {
    /// Has no line yet.
    pub(crate) fn new(alloc: Global) -> InputLines
        ensures { result ≡ [] }
    {
        InputLines {
            text: Vec::new(alloc),
            marks: Vec::new(alloc),
        }
    }

    /// Adds a line with its number. Out of memory is also answered where 32 bits don't hold the number or the length.
    pub(crate) fn push(&mut self, number: u64, bytes: &[u8]) -> Result<(), AllocError>
        ensures { OnOk result (self.new ≡ self.old ++ (number, bytes.now) ∷ []) }
    {
        let (Ok(number), Ok(len)) = (u32::try_from(number), u32::try_from(bytes.len())) else {
            return Err(AllocError);
        };
        self.marks.try_reserve(1)?;
        self.text.extend_from_slice(bytes)?;
        self.marks.push_reserved(LineMark { number, len });
        Ok(())
    }

    /// How many they are.
    #[tactic(auto, using(crate::proofs::KeptLemmas::lines_in_count))]
    pub fn len(&self) -> usize
        ensures { result ≡ length self.now }
    {
        self.marks.len()
    }

    /// The first half of them and the later one, each in memory of its own: so what the first takes can be let go
    /// before the later ones are taken.
    pub fn halves(self) -> Result<(InputLines, InputLines), AllocError>
        ensures { IfOk result (λ halves. self ≡ halves.0 ++ halves.1) }
    {
        let InputLines { text, marks } = self;
        let (mut text, mut marks) = (text, marks);
        let count = marks.len() / 2;
        let (first, _) = marks.split_at(count);
        let end = text_length(first);
        let later_text = text.split_off(end)?;
        let later_marks = marks.split_off(count)?;
        text.shrink_to_fit();
        marks.shrink_to_fit();
        let later = InputLines {
            text: later_text,
            marks: later_marks,
        };
        Ok((InputLines { text, marks }, later))
    }

    /// All of them, to be taken one after another.
    pub fn left(&self) -> LinesLeft<'_>
        ensures { result ≡ self.now }
    {
        LinesLeft {
            text: &self.text,
            marks: &self.marks,
        }
    }
}

/// How long lines are in all.
fn text_length(marks: &[LineMark]) -> usize
    requires { marked_length marks.now < 2 ^ 64 }
    ensures { result ≡ marked_length marks.now }
{
    let mut length: usize = 0;
    for mark in marks {
        length += mark.len as usize;
    }
    length
}

/// The lines that are left to be taken.
#[derive(Drop)]
pub struct LinesLeft<'l> {
    text: &'l [u8],
    marks: &'l [LineMark],
}

impl<'l> Model for LinesLeft<'l> {
    ghost use Rattle.std.specs.Prelude.{◌≡◌, ℕ, List, length};
    ghost use Rattle.pm_input.specs.Kept.{lines_in, marked_length};

    ghost Value = { List (ℕ × List ℕ) };

    ghost view = { λ l. lines_in l.text.now l.marks.now };

    ghost invariant = { λ l. marked_length l.marks.now ≡ length l.text.now };
}

impl<'l> LinesLeft<'l> {
    /// Takes the first one.
    pub fn next(&mut self) -> Option<InputLine<'l>>
        ensures line { IfSome result (λ line. self.old ≡ line_view line ∷ self.new) }
        ensures end { IfNone result (self.old ≡ []) }
    {
        let (mark, later) = self.marks.split_first()?;
        let (bytes, rest) = self.text.split_at(mark.len as usize);
        self.text = rest;
        self.marks = later;
        Some(InputLine {
            number: u64::from(mark.number),
            bytes,
        })
    }
}
