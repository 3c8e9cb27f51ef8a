//! The table of options.

ghost use Rattle.std.specs.Prelude.{◌≡◌};
ghost use Rattle.pm_options.specs.Entries.{entry_at};
ghost use Rattle.pm_options.specs.Table.{table, unsupported, takes, is_only};

use crate::entries::entry_of;
use crate::kinds::{read_engine, read_producer, read_truth};
use crate::numbers::{read_number_from, read_time};
use pm_options::{Form, Only};

/// The greatest number of buckets.
pub(crate) const MOST_BUCKETS: u32 = 256;

/// The options that have an effect, apart from those of a column.
static TABLE: [(&str, Form); 15] = [
    ("bucket", Form::Bucket),
    ("file.format", Form::Format),
    ("merge-engine", Form::Engine),
    ("ignore-delete", Form::Truth),
    ("changelog-producer", Form::Producer),
    ("changelog-producer.row-deduplicate", Form::Truth),
    ("full-compaction.delta-commits", Form::Number(1, 1000000)),
    ("num-sorted-run.compaction-trigger", Form::Number(1, 100)),
    ("num-levels", Form::Number(2, 101)),
    (
        "compaction.max-size-amplification-percent",
        Form::Number(0, 1000000),
    ),
    ("compaction.size-ratio", Form::Number(0, 1000000)),
    ("manifest.merge-min-count", Form::Number(2, 1000)),
    ("snapshot.time-retained", Form::Time),
    ("snapshot.num-retained.min", Form::Number(1, 2147483647)),
    ("snapshot.num-retained.max", Form::Number(1, 2147483647)),
];

/// The options that aren't supported, and which text is taken all the same.
static UNSUPPORTED: [(&str, Only); 11] = [
    ("bucket-key", Only::Nothing),
    ("rowkind.field", Only::Nothing),
    ("fields.default-aggregate-function", Only::Nothing),
    ("sequence.field", Only::Nothing),
    ("sequence.field.sort-order", Only::Nothing),
    ("partial-update.remove-record-on-delete", Only::Nothing),
    (
        "partial-update.remove-record-on-sequence-group",
        Only::Nothing,
    ),
    ("aggregation.remove-record-on-delete", Only::Nothing),
    ("deletion-vectors.enabled", Only::False),
    ("manifest.format", Only::Avro),
    ("changelog-file.format", Only::Avro),
];

/// Which texts the option with the key takes.
pub(crate) fn form_of(key: &str) -> Option<Form>
    ensures { result ≡ entry_at key.now table }
{
    entry_of(&TABLE, key)
}

/// Which text an option that isn't supported takes all the same.
pub(crate) fn only_of(key: &str) -> Option<Only>
    ensures { result ≡ entry_at key.now unsupported }
{
    entry_of(&UNSUPPORTED, key)
}

/// Whether an option that isn't supported takes the text all the same.
pub(crate) fn is_taken(only: Only, text: &str) -> bool
    ensures { result ≡ is_only only text.now }
{
    match only {
        Only::Nothing => false,
        Only::False => text == "false",
        Only::Avro => text == "avro",
    }
}

/// Whether the form takes the text.
pub(crate) fn takes(form: Form, text: &str) -> bool
    ensures { result ≡ takes form text.now }
{
    match form {
        Form::Format => text == "avro",
        Form::Bucket => read_number_from(1, MOST_BUCKETS, text).is_some(),
        Form::Engine => read_engine(text).is_some(),
        Form::Producer => read_producer(text).is_some(),
        Form::Truth => read_truth(text).is_some(),
        Form::Number(low, high) => read_number_from(low, high, text).is_some(),
        Form::Time => read_time(text).is_some(),
    }
}
