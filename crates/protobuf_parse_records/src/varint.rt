//! Varints.

ghost use Rattle.std.specs.Prelude.{◌≡◌, ◌<◌, length, IfOk};
ghost use Rattle.protobuf_parse_records.specs.Unplaced.{GivesPlainly};
ghost use Rattle.protobuf_parse_records.specs.Wire.{varint_within};

use crate::fault::FaultKind;

/// The number of the varint at the front, which has at most so many bytes, and the bytes behind.
#[tactic(auto, unfolding(crate::specs::Wire::varint_within))]
pub fn varint_within(most: u32, bytes: &[u8]) -> Result<(u64, &[u8]), FaultKind>
    ensures gives { GivesPlainly (λ x. (x.0, x.1.now)) result (varint_within most bytes.now) }
    ensures shorter { IfOk result (λ x. length x.1.now < length bytes.now) }
{
    if most == 0 {
        return Err(FaultKind::VarintTooLarge);
    }
    match bytes {
        [] => Err(FaultKind::Truncated),
        [low, behind @ ..] => {
            if *low < 128 {
                return Ok((u64::from(*low), behind));
            }
            let (high, behind) = varint_within(most - 1, behind)?;
            if high >= 1 << 57 {
                return Err(FaultKind::VarintTooLarge);
            }
            Ok((u64::from(*low & 0x7f) | high << 7, behind))
        }
    }
}
