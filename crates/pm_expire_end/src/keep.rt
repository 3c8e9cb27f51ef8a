//! What an expiry is to keep.

ghost use Rattle.std.specs.Prelude.{◌≡◌};
ghost use Rattle.pm_expire_end.specs.Keep.{keep_of};

use pm_options::Options;

/// What is kept of a table's snapshots.
#[derive(Clone, Copy)]
pub struct Keep {
    /// How many at least, the latest ones. It goes before the greatest number.
    pub min: u64,
    /// How many at most, where no consumer reads older ones.
    pub max: u64,
    /// How many milliseconds old a snapshot may be that is kept beyond the least number.
    pub millis: u64,
}

/// What a command asks to keep; where it doesn't say, the table's options do.
#[derive(Clone, Copy)]
pub struct KeepAsked {
    pub min: Option<u64>,
    pub max: Option<u64>,
    pub millis: Option<u64>,
}

impl KeepAsked {
    /// What is kept of a table with these options.
    pub fn over(&self, options: &Options) -> Keep
        ensures { result ≡ keep_of self.now options.now }
    {
        Keep {
            min: self.min.unwrap_or(options.retained_min),
            max: self.max.unwrap_or(options.retained_max),
            millis: self.millis.unwrap_or(options.retained_millis),
        }
    }
}
