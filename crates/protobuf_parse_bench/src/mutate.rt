//! Bytes that differ in a few places from those that they are made of.

use crate::numbers::Numbers;
use std::alloc::{AllocError, Global};

/// Bytes that mean much in a text.
const TELLING: &[u8] = b"{}[]()<>;=,.:\"'/*\\\n0x-_ \t\r\x00\x7f\xc3\xa9\xff1A";

/// Bytes that names and numbers have.
const WORDY: &[u8] = b"abcdxyzABM_0123456789";

/// The bytes with one or two edits.
pub fn mutated(alloc: Global, numbers: &mut Numbers, of: &[u8]) -> Result<Vec<u8>, AllocError> {
    let mut bytes = Vec::from_slice(alloc, of)?;
    for _ in 0..=numbers.below(2) {
        bytes = edited(alloc, numbers, &bytes)?;
    }
    Ok(bytes)
}

/// The bytes, and in the place of up to three of them others: none, one by chance, one that names
/// and numbers have, one that means much, or up to sixteen from another place.
fn edited(alloc: Global, numbers: &mut Numbers, of: &[u8]) -> Result<Vec<u8>, AllocError> {
    let start = numbers.below(of.len());
    let passed = numbers.below(4);
    let mut bytes = Vec::new(alloc);
    bytes.extend_from_slice(front(of, start))?;
    match numbers.below(8) {
        0 => {}
        1 => bytes.push(numbers.byte())?,
        2 | 3 | 4 => bytes.extend_from_slice(piece(numbers, WORDY, 1))?,
        5 => bytes.extend_from_slice(piece(numbers, TELLING, 1))?,
        _ => {
            let length = numbers.below(17);
            bytes.extend_from_slice(piece(numbers, of, length))?;
        }
    }
    bytes.extend_from_slice(rest(rest(of, start), passed))?;
    Ok(bytes)
}

/// At most so many bytes from a place by chance.
fn piece<'b>(numbers: &mut Numbers, of: &'b [u8], length: usize) -> &'b [u8] {
    front(rest(of, numbers.below(of.len())), length)
}

/// The first so many bytes, or all.
fn front(of: &[u8], length: usize) -> &[u8] {
    if length < of.len() { &of[..length] } else { of }
}

/// The bytes behind the first so many, or none.
fn rest(of: &[u8], passed: usize) -> &[u8] {
    if passed < of.len() {
        &of[passed..]
    } else {
        &[]
    }
}
