//! Blank lines.

ghost use Rattle.std.specs.Prelude.{◌≡◌};
ghost use Rattle.std.specs.List.{prefix_len};
ghost use Rattle.pm_input.specs.Blank.{is_blank_byte, is_blank};

/// Whether a byte is a space, a tab or a carriage return.
fn is_blank_byte(byte: u8) -> bool
    ensures { result ≡ is_blank_byte byte }
{
    byte == b' ' || byte == b'\t' || byte == b'\r'
}

/// Whether a line has such bytes alone.
pub(crate) fn is_blank(line: &[u8]) -> bool
    ensures { result ≡ is_blank line.now }
{
    line.iter().all(|byte| is_blank_byte(*byte))
}

/// How many such bytes a line begins with.
pub(crate) fn blank_len(line: &[u8]) -> usize
    ensures { result ≡ prefix_len is_blank_byte line.now }
{
    for (offset, byte) in line.iter().enumerate() {
        if !is_blank_byte(*byte) {
            return offset;
        }
    }
    line.len()
}
