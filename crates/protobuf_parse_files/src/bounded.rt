//! A reader that is read to its end, or up to a bound.

ghost use Rattle.std.specs.Prelude.{◌≡◌, ◌≤◌, IfOk, IfSome, length, take};

use std::alloc::Global;
use std::io::{self, ErrorKind, Read};

/// How many bytes are read at once. No more is cleared for a reader than so many.
const CHUNK_LEN: usize = 2048;

/// The bytes that the reader has left, or the first `most` of them. Room is asked for `room` bytes
/// at first.
pub fn read_up_to<R: Read>(
    alloc: Global,
    reader: &mut R,
    room: usize,
    most: usize,
) -> io::Result<Vec<u8>>
    ensures bound { IfOk result (λ content. length content.items ≤ most) }
    ensures bytes { IfOk result (λ content. IfSome (R.remaining reader.old)
        (λ left. content.items ≡ take most left)) }
{
    let mut content = Vec::with_capacity(alloc, room)?;
    let mut chunk = [0; CHUNK_LEN];
    for _ in 0..u64::MAX {
        let wanted = CHUNK_LEN.min(most - content.len());
        if wanted == 0 {
            return Ok(content);
        }
        match reader.read(&mut chunk[..wanted]) {
            Ok(0) => return Ok(content),
            Ok(len) => content.extend_from_slice(&chunk[..len])?,
            Err(error) if error.kind() == ErrorKind::Interrupted => {}
            Err(error) => return Err(error),
        }
    }
    Err(io::Error::from(ErrorKind::TimedOut))
}
