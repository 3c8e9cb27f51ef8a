//! The hash of eight numbers at once.

ghost use Rattle.std.specs.Prelude.{◌≡◌, ◌%◌, ◌^◌, length, map};
ghost use Rattle.std.specs.Int.{w32, w64, cast_signed, cast_unsigned};
ghost use Rattle.std.specs.Simd.Lanes.{zip2};
ghost use Rattle.pm_binrow.specs.Hashing.{finished, mixed, scrambled};
ghost use Rattle.pm_lanes.specs.Longs.{long_hash, words_hash};

use std::simd::prelude::*;

/// How many numbers are hashed at once.
pub(crate) const LANES: usize = 8;

/// The hash after the two words of null bytes, which are 0 in each key of one number.
const AFTER_NULL_BYTES: u32 = 0x1173_7b65;

/// How many bytes the body of such a key takes.
const BODY: u32 = 16;

/// Puts the hash of each of eight numbers at its place.
pub(crate) fn hash_block(values: &[i64], out: &mut [i32])
    requires eight { length values.now ≡ 8 }
    requires room { length out.old ≡ 8 }
    ensures { out.new ≡ map long_hash values.now }
{
    let bits = bits_of(values);
    let hashes = hash_words(low_words(bits), low_words(bits >> u64x8::splat(32))).to_array();
    put_signed(&hashes, out);
}

/// The bits of eight numbers.
fn bits_of(values: &[i64]) -> u64x8
    requires { length values.now ≡ 8 }
    ensures { result ≡ map (cast_unsigned w64) values.now }
{
    let mut bits = [0u64; LANES];
    for index in 0..LANES {
        bits[index] = values[index].cast_unsigned();
    }
    u64x8::from_array(bits)
}

/// The lower words of numbers of 64 bits.
fn low_words(bits: u64x8) -> u32x8
    ensures { result ≡ map (λ x. x % 2 ^ 32) bits }
{
    (bits & u64x8::splat(0xffff_ffff)).cast::<u32>()
}

/// The hashes of keys whose numbers have these lower and higher words, without a sign.
fn hash_words(low: u32x8, high: u32x8) -> u32x8
    ensures { result ≡ zip2 words_hash low high }
{
    let hash = mixed(mixed(u32x8::splat(AFTER_NULL_BYTES), low), high);
    finished(hash ^ u32x8::splat(BODY))
}

/// The hashes after one more word of each.
fn mixed(hash: u32x8, word: u32x8) -> u32x8
    ensures { result ≡ zip2 mixed hash word }
{
    let bits = hash ^ scrambled(word);
    let turned = bits << u32x8::splat(13) | bits >> u32x8::splat(19);
    turned * u32x8::splat(5) + u32x8::splat(0xe654_6b64)
}

/// Words, before they are taken in.
fn scrambled(word: u32x8) -> u32x8
    ensures { result ≡ map scrambled word }
{
    let bits = word * u32x8::splat(0xcc9e_2d51);
    let turned = bits << u32x8::splat(15) | bits >> u32x8::splat(17);
    turned * u32x8::splat(0x1b87_3593)
}

/// The hashes after the last word.
fn finished(hash: u32x8) -> u32x8
    ensures { result ≡ map finished hash }
{
    let hash = (hash ^ hash >> u32x8::splat(16)) * u32x8::splat(0x85eb_ca6b);
    let hash = (hash ^ hash >> u32x8::splat(13)) * u32x8::splat(0xc2b2_ae35);
    hash ^ hash >> u32x8::splat(16)
}

/// Puts hashes at their places, as numbers with a sign.
fn put_signed(hashes: &[u32], out: &mut [i32])
    requires { length out.old ≡ length hashes.now }
    ensures { out.new ≡ map (cast_signed w32) hashes.now }
{
    for index in 0..hashes.len() {
        out[index] = hashes[index].cast_signed();
    }
}
