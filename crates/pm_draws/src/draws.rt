//! Numbers that are drawn one after another, and the lines of their rows.

ghost use Rattle.std.specs.Prelude.{◌≡◌, ◌++◌, IfOk, OnOk};
ghost use Rattle.pm_draws.specs.Draws.{drawn_text, kind_drawn, last_draw, line_of, next_draw, row_drawn};

use pm_row_slots::Seen;
use pm_rows::push_row;
use pm_values::Kind;
use std::alloc::{AllocError, Global};
use std::marker::Model;

/// The number that was drawn last, or the seed where none was.
#[derive(Drop)]
pub struct Draws {
    last: u64,
}

impl Model for Draws {
    ghost use Rattle.std.specs.Prelude.{ℕ};

    ghost Value = { ℕ };

    ghost view = { λ draws. draws.last };
}

impl Draws {
    /// The draws from a seed.
    pub fn of(seed: u64) -> Draws
        ensures { result ≡ seed }
    {
        Draws { last: seed }
    }

    /// The lines of the next so many rows, each with its newline.
    pub fn batch(&mut self, alloc: Global, rows: u64) -> Result<Vec<u8>, AllocError>
        ensures text { IfOk result (λ text. text.items ≡ drawn_text self.old rows) }
        ensures last { OnOk result (self.new ≡ last_draw self.old rows) }
    {
        let mut text = Vec::new(alloc);
        for _row in 0..rows {
            self.last = next_draw(self.last);
            push_line(alloc, &mut text, self.last)?;
        }
        Ok(text)
    }
}

/// The number that is drawn after another.
#[tactic(auto, unfolding(crate::specs::Draws::next_draw))]
fn next_draw(number: u64) -> u64
    ensures { result ≡ next_draw number }
{
    number
        .wrapping_mul(6364136223846793005)
        .wrapping_add(1442695040888963407)
}

/// The kind of a number's row.
fn kind_drawn(number: u64) -> Kind
    ensures { result ≡ kind_drawn number }
{
    if number >> 60 == 0 {
        Kind::Delete
    } else {
        Kind::Insert
    }
}

/// Puts the line of a number's row behind a text.
fn push_line(alloc: Global, text: &mut Vec<u8>, number: u64) -> Result<(), AllocError>
    ensures { OnOk result (text.new.items ≡ text.old.items ++ line_of (row_drawn number)) }
{
    let key = (number >> 33) % 1000;
    let value = (number >> 11) % 1_000_000;
    let row = [Seen::Int(key as i64), Seen::Int(value as i64)];
    push_row(alloc, text, kind_drawn(number), &row)?;
    text.push(b'\n')?;
    Ok(())
}
