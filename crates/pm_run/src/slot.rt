//! How a field of a file is read.

use pm_values::ColType;

/// How the type of a field stands to its column.
#[derive(Clone, Copy)]
pub enum Fit {
    /// It is that of the column's values.
    Plain,
    /// It is the union of null and that.
    Optional,
    /// It is another one.
    Unfit,
}

/// How a field of a file is read.
#[derive(Clone, Copy)]
pub struct Slot {
    pub kind: ColType,
    pub nullable: bool,
    pub fit: Fit,
}
