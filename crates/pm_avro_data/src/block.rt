//! The heads of an array's or a map's blocks.

ghost use Rattle.std.specs.Prelude.{◌≡◌, ◌≤◌, length};
ghost use Rattle.pm_avro_data.specs.Reading.{Yields, has_size, head_at};

use crate::number::{read_long, read_size};
use pm_avro_schema::AvroFault;

/// How many items a block has, none in the one that ends, and how many bytes they must take, where that is said.
#[derive(Clone, Copy)]
pub(crate) struct Head {
    pub(crate) count: usize,
    pub(crate) size: Option<usize>,
}

impl Head {
    /// Whether the block's items, which stand in the source before the rest, take as many bytes as is said.
    pub(crate) fn is_whole(self, source: &[u8], rest: &[u8]) -> bool
        requires { length rest.now ≤ length source.now }
        ensures { result ≡ has_size self.size source.now rest.now }
    {
        match self.size {
            Some(size) => source.len() - rest.len() == size,
            None => true,
        }
    }
}

/// The head of a block, and the rest.
#[tactic(auto, unfolding(crate::specs::Reading::head_at))]
pub(crate) fn read_head(bytes: &[u8]) -> Result<(Head, &[u8]), AvroFault>
    ensures { Yields (λ x. (x.0, x.1.now)) result (head_at bytes.now) }
{
    let (count, rest) = read_long(bytes).ok_or(AvroFault::Bad(0))?;
    if count.unsigned_abs() > rest.len() as u64 {
        return Err(AvroFault::Bad(0));
    }
    let items = count.unsigned_abs() as usize;
    if count >= 0 {
        let head = Head {
            count: items,
            size: None,
        };
        return Ok((head, rest));
    }
    let (size, rest) = read_size(rest).ok_or(AvroFault::Bad(0))?;
    let head = Head {
        count: items,
        size: Some(size),
    };
    Ok((head, rest))
}
