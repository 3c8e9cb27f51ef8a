//! Who a commit is said to be of.

use pm_base::Txt;

/// The user and the identifier that are asked for, or none.
#[derive(Drop)]
pub struct Writer {
    pub user: Option<Txt>,
    pub identifier: Option<u64>,
}
