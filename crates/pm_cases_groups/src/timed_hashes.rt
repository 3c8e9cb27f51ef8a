//! How long it takes to hash many keys.

ghost use Rattle.std.specs.Prelude.{◌≡◌, length};

use pm_cases::Case;
use pm_lanes::{hash_long, murmur_longs};
use std::io;
use std::time::Instant;

/// In how many milliseconds the numbers from 0 on are hashed, again and again, all at once and one by one.
pub fn answer(rt: &HostRuntime, case: &mut Case, arguments: &str) {
    let (count, rounds) = case.split(arguments);
    let count = case.small(count);
    let rounds = case.small(rounds);
    let mut keys = Vec::new(case.alloc());
    let mut hashes = Vec::new(case.alloc());
    for key in 0..count {
        case.push(&mut keys, i64::from(key));
        case.push(&mut hashes, 0_i32);
    }
    if hashes.len() != keys.len() {
        return case.reject();
    }
    time_hashes(rt, case, keys.as_slice(), hashes.as_mut_slice(), rounds);
}

/// The same of these numbers.
fn time_hashes(rt: &HostRuntime, case: &mut Case, keys: &[i64], hashes: &mut [i32], rounds: u32)
    requires { length hashes.old ≡ length keys.now }
{
    let mut sum = 0;
    let start = Instant::now(rt);
    for _ in 0..rounds {
        murmur_longs(keys, hashes);
        sum = sum_of(hashes, sum);
    }
    say_elapsed(rt, case, "lanes", start);
    let mut plain_sum = 0;
    let start = Instant::now(rt);
    plain_sum = plain_rounds(keys, hashes, rounds, plain_sum);
    say_elapsed(rt, case, "plain", start);
    case.say_made(format!(in case.alloc(); "{sum} {plain_sum}"));
}

/// The sum of the hashes of so many rounds, one by one, on a sum so far.
fn plain_rounds(keys: &[i64], hashes: &mut [i32], rounds: u32, sum: u32) -> u32
    requires { length hashes.old ≡ length keys.now }
{
    let mut sum = sum;
    for _ in 0..rounds {
        hash_each(keys, hashes);
        sum = sum_of(hashes, sum);
    }
    sum
}

/// Puts the hash of each number at its place, one by one.
fn hash_each(keys: &[i64], hashes: &mut [i32])
    requires { length hashes.old ≡ length keys.now }
    ensures { length hashes.new ≡ length hashes.old }
{
    for index in 0..keys.len() {
        hashes[index] = hash_long(keys[index]);
    }
}

/// A sum of hashes, on another.
fn sum_of(hashes: &[i32], sum: u32) -> u32 {
    let mut sum = sum;
    for hash in hashes {
        sum = sum.wrapping_add(hash.cast_unsigned());
    }
    sum
}

/// Says how many milliseconds have passed.
fn say_elapsed(rt: &HostRuntime, case: &mut Case, what: &str, start: io::Result<Instant>) {
    let passed = match start {
        Ok(start) => start.elapsed(rt),
        Err(error) => Err(error),
    };
    match passed {
        Ok(passed) => case.say_made(format!(in case.alloc(); "{what} {} ms, ", passed.as_millis())),
        Err(error) => {
            drop(error);
            case.reject();
        }
    }
}
