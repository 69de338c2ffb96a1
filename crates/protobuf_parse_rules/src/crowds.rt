//! Which keys may stand twice among many.

ghost use Rattle.std.specs.Prelude.{◌≡◌, ◌<◌, ◌^◌, ◌++◌, [], ◌∷◌, ℕ, IfOk, List, filter, length};
ghost use Rattle.protobuf_parse_rules.specs.Crowds.{Counts, HasTwice, is_crowded, slot_among};

use protobuf_parse_model::are_apart;
use std::alloc::{AllocError, Global};

/// Odd numbers, by which keys get their slots.
const FIRST_SPREAD: u64 = 0x9e37_79b9_7f4a_7c15;

const SECOND_SPREAD: u64 = 0xc2b2_ae3d_27d4_eb4f;

const THIRD_SPREAD: u64 = 0x1656_67b1_9e37_79f9;

/// How many slots there are at most: as many as 32 bits count.
const MOST_SLOTS: usize = 0xffff_ffff;

/// Keys among which each stands that stands twice: none where none does, and else few others. Each
/// has a slot, and only keys that share theirs get another. The second slot spared 1 million
/// instructions of 56 for 100,000 names.
pub fn twice_among(alloc: Global, keys: &[u64]) -> Result<Vec<u64>, AllocError>
    ensures { IfOk result (λ found. HasTwice keys.now found.items) }
{
    let crowded = crowd_of(alloc, FIRST_SPREAD, keys)?;
    let still_crowded = crowd_of(alloc, SECOND_SPREAD, &crowded)?;
    let found = crowd_of(alloc, THIRD_SPREAD, &still_crowded)?;
    if are_apart(Vec::from_slice(alloc, &found)?) {
        return Ok(Vec::new(alloc));
    }
    Ok(found)
}

/// Keys among which each stands that stands twice: those that share their slots. There are eight
/// slots for a key.
fn crowd_of(alloc: Global, spread: u64, keys: &[u64]) -> Result<Vec<u64>, AllocError>
    ensures { IfOk result (λ crowd. HasTwice keys.now crowd.items) }
{
    let slots = keys.len().saturating_mul(8);
    if slots == 0 || slots > MOST_SLOTS {
        return Vec::from_slice(alloc, keys);
    }
    let counts = counts_of(alloc, spread, keys, slots)?;
    let crowd = crowded_keys(alloc, spread, &counts, keys)?;
    Ok(crowd)
}

/// How many keys have each of so many slots, where two stand for more.
fn counts_of(alloc: Global, spread: u64, keys: &[u64], slots: usize) -> Result<Vec<u8>, AllocError>
    requires some { 0 < slots }
    requires few { slots < 2 ^ 32 }
    ensures len { IfOk result (λ counts. length counts.items ≡ slots) }
    ensures counted { IfOk result (λ counts. Counts spread keys.now counts.items) }
{
    let mut counts = vec![in alloc; 0; slots]?;
    'keys: for key in keys {
        count(&mut counts, spread, key);
    }
    Ok(counts)
}

/// One key more.
fn count(counts: &mut [u8], spread: u64, key: &u64)
    requires some { 0 < length counts.now }
    requires few { length counts.now < 2 ^ 32 }
    ensures len { length counts.new ≡ length counts.old }
    ensures counted { (keys : List ℕ) → Counts spread keys counts.old
        → Counts spread (keys ++ key.now ∷ []) counts.new }
{
    let slot = slot_among(spread, key, counts.len());
    if counts[slot] < 2 {
        counts[slot] += 1;
    }
}

/// The slot of a key: the upper half of its product with the odd number, spread over the slots. A
/// remainder of a division takes longer.
fn slot_among(spread: u64, key: &u64, slots: usize) -> usize
    requires some { 0 < slots }
    requires few { slots < 2 ^ 32 }
    ensures is { result ≡ slot_among spread slots key.now }
    ensures within { result < slots }
{
    let upper = key.wrapping_mul(spread) / 0x1_0000_0000;
    (upper * slots as u64 / 0x1_0000_0000) as usize
}

/// The keys whose slot others have too.
fn crowded_keys(
    alloc: Global,
    spread: u64,
    counts: &[u8],
    keys: &[u64],
) -> Result<Vec<u64>, AllocError>
    requires some { 0 < length counts.now }
    requires few { length counts.now < 2 ^ 32 }
    ensures { IfOk result
        (λ crowded. crowded.items ≡ filter (is_crowded spread counts.now) keys.now) }
{
    let mut crowded = Vec::new(alloc);
    'keys: for key in keys {
        if is_crowded(counts, spread, key) {
            crowded.push(*key)?;
        }
    }
    Ok(crowded)
}

fn is_crowded(counts: &[u8], spread: u64, key: &u64) -> bool
    requires some { 0 < length counts.now }
    requires few { length counts.now < 2 ^ 32 }
    ensures { result ≡ is_crowded spread counts.now key.now }
{
    counts[slot_among(spread, key, counts.len())] > 1
}
