//! What stands between the items of an answer.

use crate::case::Case;

/// Says a text before each item but the first.
pub fn say_between(case: &mut Case, is_later: bool, text: &str) {
    if is_later {
        case.say(text);
    }
}
