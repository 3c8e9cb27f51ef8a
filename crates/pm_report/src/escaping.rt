//! Texts with their control characters escaped.

ghost use Rattle.std.specs.Prelude.{◌≡◌, ◌<◌, false};
ghost use Rattle.std.specs.Fmt.{digit_glyph};
ghost use Rattle.pm_io.specs.LineBuffer.{line_at, Writes};
ghost use Rattle.pm_report.specs.Escaping.{code_text, escaped, printed};

use pm_io::{LineBuffer, Sink, SinkFail};

/// Writes a text to a line, its control characters escaped.
pub(crate) fn write_escaped<V: Sink>(
    line: &mut LineBuffer,
    err: &mut V,
    text: &[u8],
) -> Result<(), SinkFail>
    ensures { Writes V.seen (escaped text.now) (line_at line.old err.old) (line_at line.new err.new) result }
{
    for byte in text {
        write_byte(line, err, *byte)?;
    }
    Ok(())
}

/// Writes a byte to a line, or the code of a control character.
fn write_byte<V: Sink>(line: &mut LineBuffer, err: &mut V, byte: u8) -> Result<(), SinkFail>
    ensures { Writes V.seen (printed byte) (line_at line.old err.old) (line_at line.new err.new) result }
{
    if byte.is_ascii_control() {
        return line.write(err, &code(byte));
    }
    line.write(err, &[byte])
}

/// What is printed in the place of a control character.
fn code(byte: u8) -> [u8; 6]
    ensures { result ≡ code_text byte }
{
    [b'\\', b'u', b'0', b'0', digit(byte / 16), digit(byte % 16)]
}

/// A hexadecimal digit.
fn digit(n: u8) -> u8
    requires { n < 16 }
    ensures { result ≡ digit_glyph false n }
{
    if n < 10 { b'0' + n } else { b'a' - 10 + n }
}
