//! What was made, in the rooms of the caller.

ghost use Rattle.std.specs.Prelude.{◌≡◌, pos, take};
ghost use Rattle.protobuf_parse_c.specs.Copies.{IsSetCopied};

use crate::compile::Answer;
use crate::shapes::{PbFault, PbSizes};
use crate::{DONE, NO_ROOM, REFUSED};

/// Copies the answer to where the caller has room, if there is enough of each, and answers the
/// status.
pub fn copy_answer(
    answer: &Answer,
    set: &mut [u8],
    texts: &mut [u8],
    faults: &mut [PbFault],
    sizes: &mut PbSizes,
) -> i32
    ensures set { IsSetCopied answer.now.set result sizes.new set.new }
    ensures memory { result ≡ pos 3 → ⊥ }
    ensures unwritten { result ≡ pos 2
        → (set.new ≡ set.old) × (texts.new ≡ texts.old) × (faults.new ≡ faults.old) }
{
    let made = match &answer.set {
        Some(bytes) => bytes.as_slice(),
        None => &[],
    };
    let told = &answer.told;
    *sizes = PbSizes {
        set: made.len(),
        texts: told.texts.len(),
        faults: told.faults.len(),
    };
    let is_short = made.len() > set.len()
        || told.texts.len() > texts.len()
        || told.faults.len() > faults.len();
    if is_short {
        return NO_ROOM;
    }
    let (room, _) = set.split_at_mut(made.len());
    room.copy_from_slice(made);
    let (room, _) = texts.split_at_mut(told.texts.len());
    room.copy_from_slice(&told.texts);
    let (room, _) = faults.split_at_mut(told.faults.len());
    room.copy_from_slice(&told.faults);
    match &answer.set {
        Some(_) => DONE,
        None => REFUSED,
    }
}
