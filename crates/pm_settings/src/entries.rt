//! Tables of texts and what stands for them.

ghost use Rattle.std.specs.Prelude.{◌≡◌};
ghost use Rattle.pm_options.specs.Entries.{entry_at, keyed};

/// What stands for a key first.
pub fn entry_of<T: Copy>(entries: &[(&str, T)], key: &str) -> Option<T>
    ensures { result ≡ entry_at key.now (keyed entries.now) }
{
    for (name, value) in entries {
        if *name == key {
            return Some(*value);
        }
    }
    None
}
