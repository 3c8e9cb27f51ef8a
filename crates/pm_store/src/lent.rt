//! A call of a store whose bytes are lent.

use pm_base::Txt;

/// A call with copies of its paths, whose bytes are lent to it.
#[derive(Drop)]
pub enum LentCall<'c> {
    List {
        folder: Txt,
    },
    Read {
        path: Txt,
    },
    Create {
        path: Txt,
        bytes: &'c [u8],
    },
    Publish {
        after: Txt,
        path: Txt,
        bytes: &'c [u8],
    },
    Swap {
        path: Txt,
        expected: Option<&'c [u8]>,
        bytes: &'c [u8],
    },
    Remove {
        path: Txt,
    },
}
