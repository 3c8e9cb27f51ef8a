//! Many numbers at once, on the lanes of vectors, each as the plain definition has it.
//!
//! `murmur_longs` takes numbers and gives of each the hash of the key that is this BIGINT alone, as `hash` of
//! `pm_binrow` gives it of the body of that key's row (`specs/Longs.antt`); `buckets_of` gives the buckets of these
//! hashes. Both take eight numbers at a time and the rest one by one, make no rows and take no memory. `hash_long` is
//! the plain form: one number, by its row's bytes.
#![tactic(auto)]

mod lanes;
mod longs;

pub use longs::{buckets_of, hash_long, murmur_longs};
