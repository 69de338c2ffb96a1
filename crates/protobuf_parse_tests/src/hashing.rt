//! Hashes of values.

use std::hash::{DefaultHasher, Hash, Hasher};

/// The hash of a value.
pub fn hash_of<T: Hash>(value: &T) -> u64 {
    let mut state = DefaultHasher::new();
    value.hash(&mut state);
    state.finish()
}

/// Whether two values are equal, which then hash alike.
pub fn alike<T: Hash>(one: &T, other: &T) -> bool {
    *one == *other && hash_of(one) == hash_of(other)
}

/// Whether two values are not equal, and do not hash alike.
pub fn apart<T: Hash>(one: &T, other: &T) -> bool {
    *one != *other && hash_of(one) != hash_of(other)
}
