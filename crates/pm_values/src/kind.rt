//! The kind of a row: what it does to its key.

ghost use Rattle.std.specs.Prelude.{◌≡◌};
ghost use Rattle.pm_values.specs.Kind.{code_of, retracts, kind_from};

/// What a row does to its key: `+I`, `-U`, `+U` or `-D`.
#[derive(Clone, Copy)]
pub enum Kind {
    /// `+I`: adds a row.
    Insert,
    /// `-U`: retracts the row before an update.
    UpdateBefore,
    /// `+U`: adds the row after an update.
    UpdateAfter,
    /// `-D`: retracts a row.
    Delete,
}

impl Kind {
    /// The number that files have for the kind: 0, 1, 2, 3 in the order above.
    pub fn code(self) -> u8
        ensures { result ≡ code_of self }
    {
        match self {
            Kind::Insert => 0,
            Kind::UpdateBefore => 1,
            Kind::UpdateAfter => 2,
            Kind::Delete => 3,
        }
    }

    /// The kind with that number, or none for a number that no kind has.
    pub fn from_code(n: i64) -> Option<Kind>
        ensures { result ≡ kind_from n }
    {
        match n {
            0 => Some(Kind::Insert),
            1 => Some(Kind::UpdateBefore),
            2 => Some(Kind::UpdateAfter),
            3 => Some(Kind::Delete),
            _ => None,
        }
    }

    /// Whether a row of the kind takes a row away.
    pub fn retracts(self) -> bool
        ensures { result ≡ retracts self }
    {
        match self {
            Kind::Insert | Kind::UpdateAfter => false,
            Kind::UpdateBefore | Kind::Delete => true,
        }
    }
}
