//! Numbers and lengths at the front of bytes.

ghost use Rattle.std.specs.Prelude.{◌≡◌, ◌<◌, ◌≤◌, ◌^◌, ◌%◌, length, IfOk};
ghost use Rattle.std.specs.Str.{is_utf8};
ghost use Rattle.protobuf_parse_wire.specs.Reading.{ReaderGives, varint_at, part_at, delimited_at};
ghost use Rattle.protobuf_parse_wire.specs.Reading.{four_at, eight_at, unzigzag};

use crate::fault::ReadFault;
use std::str;

/// The number in a varint of at most `room` bytes, and the bytes after it.
#[tactic(auto, unfolding(crate::specs::Reading::varint_at))]
pub fn varint_of(bytes: &[u8], room: u32) -> Result<(u64, &[u8]), ReadFault>
    ensures gives { ReaderGives (λ x. (x.0, x.1.now)) result (varint_at room bytes.now) }
    ensures shorter { IfOk result (λ x. length x.1.now < length bytes.now) }
{
    if room == 0 {
        return Err(ReadFault::BadVarint);
    }
    match bytes {
        [] => Err(ReadFault::Truncated),
        [first, rest @ ..] => {
            if *first < 128 {
                return Ok((u64::from(*first), rest));
            }
            let (high, rest) = varint_of(rest, room - 1)?;
            if high >= 1 << 57 {
                return Err(ReadFault::BadVarint);
            }
            Ok((u64::from(*first & 0x7f) | high << 7, rest))
        }
    }
}

#[tactic(auto, unfolding(crate::specs::Reading::part_at))]
fn part_of(bytes: &[u8], count: u64) -> Result<(&[u8], &[u8]), ReadFault>
    ensures gives { ReaderGives (λ x. (x.0.now, x.1.now)) result (part_at count bytes.now) }
    ensures shorter { IfOk result (λ x. length x.1.now ≤ length bytes.now) }
{
    if (bytes.len() as u64) < count {
        return Err(ReadFault::Truncated);
    }
    Ok(bytes.split_at(count as usize))
}

/// The bytes behind a length, and those after them.
#[tactic(auto, unfolding(crate::specs::Reading::delimited_at))]
pub fn delimited_of(bytes: &[u8]) -> Result<(&[u8], &[u8]), ReadFault>
    ensures gives { ReaderGives (λ x. (x.0.now, x.1.now)) result (delimited_at bytes.now) }
    ensures shorter { IfOk result (λ x. length x.1.now ≤ length bytes.now) }
{
    let (count, rest) = varint_of(bytes, 10)?;
    part_of(rest, count)
}

/// The number in four bytes, and the bytes after them.
#[tactic(auto, unfolding(crate::specs::Reading::four_at, crate::specs::Reading::part_at))]
pub fn four_of(bytes: &[u8]) -> Result<(u64, &[u8]), ReadFault>
    ensures gives { ReaderGives (λ x. (x.0, x.1.now)) result (four_at bytes.now) }
    ensures shorter { IfOk result (λ x. length x.1.now ≤ length bytes.now) }
{
    if bytes.len() < 4 {
        return Err(ReadFault::Truncated);
    }
    let (front, rest) = bytes.split_at(4);
    let number = u32::from_le_bytes([front[0], front[1], front[2], front[3]]);
    Ok((u64::from(number), rest))
}

/// The number in eight bytes, and the bytes after them.
#[tactic(auto, unfolding(crate::specs::Reading::eight_at, crate::specs::Reading::part_at))]
pub fn eight_of(bytes: &[u8]) -> Result<(u64, &[u8]), ReadFault>
    ensures gives { ReaderGives (λ x. (x.0, x.1.now)) result (eight_at bytes.now) }
    ensures shorter { IfOk result (λ x. length x.1.now ≤ length bytes.now) }
{
    if bytes.len() < 8 {
        return Err(ReadFault::Truncated);
    }
    let (front, rest) = bytes.split_at(8);
    let number = u64::from_le_bytes([
        front[0], front[1], front[2], front[3], front[4], front[5], front[6], front[7],
    ]);
    Ok((number, rest))
}

/// The low half of a word.
pub fn low_half(word: u64) -> u32
    ensures { result ≡ word % 2 ^ 32 }
{
    (word % (1 << 32)) as u32
}

/// The number that zigzag spells.
pub fn unzigzag_of(word: u64) -> i128
    ensures { result ≡ unzigzag word }
{
    if word % 2 == 0 {
        i128::from(word / 2)
    } else {
        -1 - i128::from(word / 2)
    }
}

/// Whether the bytes are UTF-8.
pub fn is_text(bytes: &[u8]) -> bool
    ensures { result ≡ is_utf8 bytes.now }
{
    match str::from_utf8(bytes) {
        Ok(_) => true,
        Err(_) => false,
    }
}
