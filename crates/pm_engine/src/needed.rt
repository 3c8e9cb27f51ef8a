//! Which of two stored rows is needed.

/// Which of two stored rows of a key, an older and a newer one, their stored row is made of.
#[derive(Clone, Copy)]
pub enum Needed {
    Older,
    Newer,
    Both,
}
