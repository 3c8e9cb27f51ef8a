//! The hash of a body, and its bucket.

ghost use Rattle.std.specs.Prelude.{◌≡◌, ◌<◌, ◌≤◌, ◌%◌, ◌^◌, length};
ghost use Rattle.pm_binrow.specs.Hashing.{bucket_of, finished, folded, hash_of, mixed, scrambled};

use crate::fixed::read_word;

/// The hash of a row's body, which takes words of four bytes.
#[tactic(auto, unfolding(crate::specs::Hashing::hash_of))]
pub fn hash(body: &[u8]) -> i32
    requires { length body.now % 4 ≡ 0 }
    ensures { result ≡ hash_of body.now }
{
    let mut hash = 42;
    let mut rest = body;
    while let Some((word, after)) = rest.split_first_chunk::<4>() {
        hash = mixed(hash, read_word(word));
        rest = after;
    }
    finished(hash ^ (body.len() % 0x1_0000_0000) as u32).cast_signed()
}

/// The hash after one more word.
#[tactic(auto, unfolding(crate::specs::Hashing::mixed))]
fn mixed(hash: u32, word: u32) -> u32
    ensures { result ≡ mixed hash word }
{
    let bits = (hash ^ scrambled(word)).rotate_left(13);
    bits.wrapping_mul(5).wrapping_add(0xe6546b64)
}

/// A word, before it is taken in.
#[tactic(auto, unfolding(crate::specs::Hashing::scrambled))]
fn scrambled(word: u32) -> u32
    ensures { result ≡ scrambled word }
{
    let bits = word.wrapping_mul(0xcc9e2d51).rotate_left(15);
    bits.wrapping_mul(0x1b873593)
}

/// The hash after the last word.
#[tactic(auto, unfolding(crate::specs::Hashing::finished))]
fn finished(hash: u32) -> u32
    ensures { result ≡ finished hash }
{
    let hash = (hash ^ (hash >> 16)).wrapping_mul(0x85ebca6b);
    let hash = (hash ^ (hash >> 13)).wrapping_mul(0xc2b2ae35);
    hash ^ (hash >> 16)
}

/// The bucket of a hash among so many, from 0.
#[tactic(auto, unfolding(crate::specs::Hashing::bucket_of))]
pub fn bucket_of(hash: i32, buckets: u32) -> u32
    requires { 1 ≤ buckets }
    ensures value { result ≡ bucket_of hash buckets }
    ensures below { result < buckets }
{
    hash.unsigned_abs() % buckets
}
