//! Settings: options' keys with their texts, in the order of the keys.

ghost use Rattle.std.specs.Prelude.{◌≡◌, ◌≤◌, length, option_map, OnOk};
ghost use Rattle.pm_options.specs.Entries.{entry_at};
ghost use Rattle.std.specs.List.{prefix_len};
ghost use Rattle.pm_options.specs.Settings.{views, filled, is_below};

use crate::entries::entry_of;
use std::alloc::AllocError;

/// The text of a key.
pub(crate) fn text_at<'t>(settings: &[(&'t str, &'t str)], key: &str) -> Option<&'t str>
    ensures { option_map (λ text. text.now) result ≡ entry_at key.now (views settings.now) }
{
    entry_of(settings, key)
}

/// Adds a setting at its place in the order of the keys, unless its key stands.
pub fn fill<'t>(
    settings: &mut Vec<(&'t str, &'t str)>,
    key: &'t str,
    text: &'t str,
) -> Result<(), AllocError>
    ensures { OnOk result (views settings.new.items ≡ filled (key.now, text.now) (views settings.old.items)) }
{
    if text_at(settings.as_slice(), key).is_some() {
        return Ok(());
    }
    let index = index_of(settings.as_slice(), key);
    settings.insert(index, (key, text))?;
    Ok(())
}

/// How many settings stand before a key.
fn index_of(settings: &[(&str, &str)], key: &str) -> usize
    ensures value { result ≡ prefix_len (is_below key.now) (views settings.now) }
    ensures within { result ≤ length settings.now }
{
    for (index, (name, _)) in settings.iter().enumerate() {
        if !name.as_bytes().cmp(key.as_bytes()).is_lt() {
            return index;
        }
    }
    settings.len()
}
