//! Files whose rows were judged where they lie.

ghost use Rattle.std.specs.Prelude.{◌≡◌, List};
ghost use Rattle.std.specs.Coded.{codes};
ghost use Rattle.pm_values.specs.declared.record.Stamped.{Stamped};
ghost use Rattle.pm_run_reader.specs.Judged.{HasOnly, OnlyRows, one_rows};
ghost use Rattle.pm_run_bytes.specs.Lying.{lying_rows};

use crate::reader::RunReader;
use pm_run_bytes::{Direct, FileRows};
use std::marker::Model;

/// A data file whose rows were judged where they lie in its bytes, seen as these rows.
#[derive(Drop)]
pub struct JudgedFile {
    reader: RunReader,
    direct: Direct,
    ghost known: { OnlyRows reader.opened direct } by { one_rows (Prim.hlevel codes) reader.opened direct },
}

impl Model for JudgedFile {
    ghost use Rattle.std.specs.Prelude.{List};
    ghost use Rattle.pm_values.specs.declared.record.Stamped.{Stamped};

    ghost Value = { List Stamped };

    ghost view = { λ f. f.known.0 };
}

impl JudgedFile {
    /// The file with the rows that only it has.
    pub(crate) fn new(reader: RunReader, direct: Direct) -> JudgedFile
        requires { (rows : List Stamped) × HasOnly reader.opened direct rows }
        ensures { ∥ HasOnly reader.opened direct result ∥₁ }
    {
        JudgedFile { reader, direct }
    }

    /// Its rows, one after another.
    pub fn rows(&self) -> FileRows<'_>
        ensures { lying_rows result ≡ self.now }
    {
        FileRows::new(
            self.reader.form(),
            self.reader.changes(),
            self.reader.bytes(),
            &self.direct,
            self.reader.first(),
        )
    }
}
