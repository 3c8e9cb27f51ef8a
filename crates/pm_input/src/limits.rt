//! The limits of a command's input.

ghost use Rattle.std.specs.Prelude.{◌≡◌};
ghost use Rattle.pm_input.specs.Limits.{limit_text, limit_number};

/// How much input one command takes.
#[derive(Clone, Copy)]
pub struct Limits {
    /// Bytes of a line, without its newline.
    pub line: usize,
    /// Lines that aren't blank.
    pub rows: usize,
    /// Bytes in all.
    pub bytes: usize,
}

/// The limits of every command.
pub const LIMITS: Limits = Limits {
    line: 1_048_576,
    rows: 100_000,
    bytes: 268_435_456,
};

/// A limit of the input, in the order in which they are answered at one byte.
#[derive(Clone, Copy)]
pub enum LimitKind {
    Line,
    BatchRows,
    BatchBytes,
}

impl LimitKind {
    /// The text of the limit.
    pub fn text(self) -> &'static str
        ensures { result.now ≡ limit_text self }
    {
        match self {
            LimitKind::Line => "line",
            LimitKind::BatchRows => "batch-rows",
            LimitKind::BatchBytes => "batch-bytes",
        }
    }

    /// The number of the limit.
    pub fn number(self, limits: &Limits) -> usize
        ensures { result ≡ limit_number limits.now self }
    {
        match self {
            LimitKind::Line => limits.line,
            LimitKind::BatchRows => limits.rows,
            LimitKind::BatchBytes => limits.bytes,
        }
    }
}
