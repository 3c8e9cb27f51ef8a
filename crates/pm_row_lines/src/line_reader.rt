//! The reader of row lines.

ghost use Rattle.std.specs.Prelude.{◌≡◌, IfOk};
ghost use Rattle.pm_base.specs.Outcome.{Gives};
ghost use Rattle.pm_values.specs.Fits.{Fits};
ghost use Rattle.pm_rows.specs.Reading.{fault_of, row_of};

use crate::tokens::read_tokens;
use json::Scratch;
use pm_rows::{RowFault, read_row};
use pm_values::{Column, Kind, Row};
use std::alloc::Global;

/// A reader of row lines, which keeps the memory that a line took for the next one.
#[derive(Drop)]
pub struct LineReader {
    scratch: Scratch,
}

impl LineReader {
    pub fn new(alloc: Global) -> LineReader {
        LineReader {
            scratch: Scratch::new(alloc),
        }
    }

    /// The kind and the row of a line, or its fault, as `read_row` gives them.
    #[tactic(auto, using(crate::proofs::TokenLemmas::row_fits))]
    pub fn read_row(
        &mut self,
        alloc: Global,
        columns: &[Column],
        line: &[u8],
    ) -> Result<(Kind, Row), RowFault>
        ensures exact { Gives (λ x. x) fault_of result (row_of columns.now line.now) }
        ensures fits { IfOk result (λ x. Fits columns.now x.1) }
    {
        match read_tokens(alloc, &mut self.scratch, columns, line) {
            Some(row) => Ok(row),
            None => read_row(alloc, columns, line),
        }
    }
}
