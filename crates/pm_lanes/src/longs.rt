//! The hashes and buckets of keys of one BIGINT.

ghost use Rattle.std.specs.Prelude.{◌≡◌, ◌≤◌, length, map, take};
ghost use Rattle.pm_binrow.specs.Hashing.{bucket_of};
ghost use Rattle.pm_lanes.specs.Longs.{long_bucket, long_hash};

use crate::lanes::{LANES, hash_block};
use byteorder::{ByteOrder, LittleEndian};
use pm_binrow::{bucket_of, hash};

/// How many hashes are kept at once until their buckets are known.
const KEPT: usize = 256;

/// The hash of the key that is this number alone.
pub fn hash_long(value: i64) -> i32
    ensures { result ≡ long_hash value }
{
    let mut body = [0u8; 16];
    LittleEndian::write_u64(&mut body[8..], value.cast_unsigned());
    hash(&body)
}

/// Puts the hash of each number, as the key that is this number alone, at its place.
pub fn murmur_longs(values: &[i64], out: &mut [i32])
    requires { length out.old ≡ length values.now }
    ensures { out.new ≡ map long_hash values.now }
{
    let mut done = 0;
    while values.len() - done >= LANES {
        let (block, _) = values.split_at(done).1.split_at(LANES);
        let (_, later) = out.split_at_mut(done);
        let (places, _) = later.split_at_mut(LANES);
        hash_block(block, places);
        done += LANES;
    }
    hash_rest(values, done, out);
}

/// Puts the hashes of the numbers from this index on, where those before are at their places.
fn hash_rest(values: &[i64], done: usize, out: &mut [i32])
    requires within { done ≤ length values.now }
    requires room { length out.old ≡ length values.now }
    requires done { take done out.old ≡ map long_hash (take done values.now) }
    ensures { out.new ≡ map long_hash values.now }
{
    for index in done..values.len() {
        out[index] = hash_long(values[index]);
    }
}

/// Puts the bucket of each key, which is this number alone, among so many at its place.
pub fn buckets_of(keys: &[i64], buckets: u32, out: &mut [u32])
    requires some { 1 ≤ buckets }
    requires room { length out.old ≡ length keys.now }
    ensures { out.new ≡ map (long_bucket buckets) keys.now }
{
    let mut done = 0;
    while done < keys.len() {
        let count = KEPT.min(keys.len() - done);
        let (part, _) = keys.split_at(done).1.split_at(count);
        let (_, later) = out.split_at_mut(done);
        let (places, _) = later.split_at_mut(count);
        bucket_part(part, buckets, places);
        done += count;
    }
}

/// Puts the bucket of each of so few keys that their hashes are kept at once.
fn bucket_part(keys: &[i64], buckets: u32, out: &mut [u32])
    requires few { length keys.now ≤ 256 }
    requires some { 1 ≤ buckets }
    requires room { length out.old ≡ length keys.now }
    ensures { out.new ≡ map (long_bucket buckets) keys.now }
{
    let mut kept = [0i32; KEPT];
    let (hashes, _) = kept.split_at_mut(keys.len());
    murmur_longs(keys, hashes);
    put_buckets(hashes, buckets, out);
}

/// Puts the bucket of each hash among so many at its place.
fn put_buckets(hashes: &[i32], buckets: u32, out: &mut [u32])
    requires some { 1 ≤ buckets }
    requires room { length out.old ≡ length hashes.now }
    ensures { out.new ≡ map (λ hash. bucket_of hash buckets) hashes.now }
{
    for index in 0..hashes.len() {
        out[index] = bucket_of(hashes[index], buckets);
    }
}
