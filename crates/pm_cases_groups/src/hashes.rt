//! The hashes and buckets of keys of one BIGINT.

ghost use Rattle.std.specs.Prelude.{◌≡◌, length};

use pm_cases::{Case, say_between};
use pm_lanes::{buckets_of, murmur_longs};

/// The hash of each key, and its bucket.
pub fn answer(case: &mut Case, arguments: &str) {
    let (buckets, words) = case.split(arguments);
    let buckets = case.small(buckets);
    let mut keys = Vec::new(case.alloc());
    let mut hashes = Vec::new(case.alloc());
    let mut places = Vec::new(case.alloc());
    for word in words.split_whitespace() {
        let key = case.signed(word);
        case.push(&mut keys, key);
        case.push(&mut hashes, 0_i32);
        case.push(&mut places, 0_u32);
    }
    if buckets == 0 || hashes.len() != keys.len() || places.len() != keys.len() {
        return case.reject();
    }
    murmur_longs(keys.as_slice(), hashes.as_mut_slice());
    buckets_of(keys.as_slice(), buckets, places.as_mut_slice());
    say_hashes(case, hashes.as_slice(), places.as_slice());
}

/// Says each hash and its bucket.
fn say_hashes(case: &mut Case, hashes: &[i32], buckets: &[u32])
    requires { length hashes.now ≡ length buckets.now }
{
    for index in 0..hashes.len() {
        say_between(case, index > 0, " ");
        let hash = hashes[index];
        let bucket = buckets[index];
        case.say_made(format!(in case.alloc(); "{hash}:{bucket}"));
    }
}
