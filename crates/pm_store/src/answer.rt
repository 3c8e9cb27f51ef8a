//! What the calls of a store answer.

use pm_base::{Blob, Txt};

/// What a create answers: it wrote the path, or the path was there.
#[derive(Clone, Copy)]
pub enum Made {
    Created,
    Exists,
}

/// What a publish answers: it wrote the path, or the path was there, or the path that it was to come
/// after was gone.
#[derive(Clone, Copy)]
pub enum Published {
    Created,
    Exists,
    AfterGone,
}

/// What a swap answers: it wrote the path, or the content differed, and this is what it found.
#[derive(Drop)]
pub enum Swapped {
    Swapped,
    Differs(Option<Blob>),
}

/// What a remove answers: it took the path away, or the path wasn't there.
#[derive(Clone, Copy)]
pub enum Removed {
    Removed,
    Absent,
}

/// What any call answers.
#[derive(Drop)]
pub enum Answer {
    Listed(Vec<Txt>),
    Found(Option<Blob>),
    Made(Made),
    Published(Published),
    Swapped(Swapped),
    Removed(Removed),
}
