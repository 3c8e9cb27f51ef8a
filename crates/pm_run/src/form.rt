//! A field of the records of data files.

use pm_base::Txt;
use pm_values::ColType;

/// A field of a row's record that has values: a column's, or that of a column of the key.
pub struct Field {
    pub name: Txt,
    pub kind: ColType,
    pub nullable: bool,
}

impl Drop for Field {
    fn drop(self) {
        let Field {
            name,
            kind,
            nullable,
        } = self;
    }
}
