//! What data that hold no other data are read as.

ghost use Rattle.std.specs.Prelude.{◌≡◌, option_map};
ghost use Rattle.pm_avro_data.specs.Datum.{view};
ghost use Rattle.pm_record.specs.Scalar.{long_in, int_in, text_in, bytes_in, boolean_in};

use pm_avro_data::Datum;
use pm_base::Txt;

/// The number of a long or of an int.
pub fn read_long(datum: &Datum) -> Option<i64>
    ensures { result ≡ long_in (view datum.now) }
{
    match datum {
        Datum::Long(number) => Some(*number),
        Datum::Int(number) => Some(i64::from(*number)),
        _ => None,
    }
}

/// The number of an int; a long is none.
pub fn read_int(datum: &Datum) -> Option<i32>
    ensures { result ≡ int_in (view datum.now) }
{
    match datum {
        Datum::Int(number) => Some(*number),
        _ => None,
    }
}

/// A boolean.
pub fn read_boolean(datum: &Datum) -> Option<bool>
    ensures { result ≡ boolean_in (view datum.now) }
{
    match datum {
        Datum::Bool(flag) => Some(*flag),
        _ => None,
    }
}

/// A text, moved out of its datum.
pub fn take_text(datum: Datum) -> Option<Txt>
    ensures { result ≡ text_in (view datum) }
{
    match datum {
        Datum::Text(text) => Some(text),
        _ => None,
    }
}

/// Bytes, moved out of their datum.
pub fn take_bytes(datum: Datum) -> Option<Vec<u8>>
    ensures { option_map (λ bytes. bytes.items) result ≡ bytes_in (view datum) }
{
    match datum {
        Datum::Bytes(bytes) => Some(bytes),
        _ => None,
    }
}
