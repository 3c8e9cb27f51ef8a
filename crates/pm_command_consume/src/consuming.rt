//! What a following with a consumer is asked for.

use pm_base::Txt;

/// The name of the consumer; and, where it isn't settled yet, the snapshot whose frame is the first, or none for the
/// one after the newest, and whether the table before it is asked for.
#[derive(Drop)]
pub struct Consuming {
    pub name: Txt,
    pub from: Option<u64>,
    pub full: bool,
}
