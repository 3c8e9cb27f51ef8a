//! Values of a record's fields that are taken one after another.

ghost use Rattle.std.specs.Prelude.{◌≡◌, map};
ghost use Rattle.pm_avro_data.specs.Datum.{view};
ghost use Rattle.pm_manifest_reader.specs.Taken.{count_found, natural_found, text_found};
ghost use Rattle.pm_manifest_reader.specs.FieldValues.{all_left, first, later};

use pm_avro_data::Datum;
use pm_base::Txt;
use pm_manifest_shape::{read_count, read_natural};
use pm_record::{Misfit, take_text};
use std::alloc::Global;
use std::vec::IntoIter;

/// The values that are left, in order.
pub(crate) struct FieldValues {
    left: IntoIter<Datum, Global>,
}

impl Drop for FieldValues {
    fn drop(self) {
        let FieldValues { left } = self;
    }
}

impl FieldValues {
    /// All values of a record's fields.
    pub(crate) fn of(values: Vec<Datum>) -> FieldValues
        ensures { all_left result ≡ map view values.items }
    {
        FieldValues {
            left: values.into_iter(),
        }
    }

    /// The next value, and null where none is left.
    #[tactic(auto, unfolding(crate::specs::FieldValues::first, crate::specs::FieldValues::later))]
    pub(crate) fn next(&mut self) -> Datum
        ensures value { view result ≡ first (all_left self.old) }
        ensures later { all_left self.new ≡ later (all_left self.old) }
    {
        match self.left.next() {
            Some(value) => value,
            None => Datum::Null,
        }
    }

    /// The text that the next value is.
    #[tactic(auto, unfolding(crate::specs::Taken::text_found))]
    pub(crate) fn text(&mut self) -> Result<Txt, Misfit>
        ensures value { result ≡ text_found (first (all_left self.old)) }
        ensures later { all_left self.new ≡ later (all_left self.old) }
    {
        take_text(self.next()).ok_or(Misfit::Bad)
    }

    /// The number up to the greatest that the next value is.
    #[tactic(auto, unfolding(crate::specs::Taken::count_found))]
    pub(crate) fn count(&mut self, most: u64) -> Result<u64, Misfit>
        ensures value { result ≡ count_found most (first (all_left self.old)) }
        ensures later { all_left self.new ≡ later (all_left self.old) }
    {
        read_count(&self.next(), most).ok_or(Misfit::Bad)
    }

    /// The number from 0 on that the next value is.
    #[tactic(auto, unfolding(crate::specs::Taken::natural_found))]
    pub(crate) fn natural(&mut self) -> Result<u32, Misfit>
        ensures value { result ≡ natural_found (first (all_left self.old)) }
        ensures later { all_left self.new ≡ later (all_left self.old) }
    {
        read_natural(&self.next()).ok_or(Misfit::Bad)
    }
}
