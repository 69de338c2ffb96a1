//! Lines and columns that count bytes.

ghost use Rattle.std.specs.Prelude.{◌≡◌, ◌≤◌, ◌<◌, ◌+◌, ◌*◌, ◌^◌, length};
ghost use Rattle.protobuf_parse_comments.specs.BytePlaces.{after, step};

/// A line and a column as `SourceCodeInfo` has them: both from 0, in bytes; a tab goes on to the next
/// multiple of 8, and a mark of byte order is three bytes as any. A `Place` of this library counts
/// both from 1, and characters.
#[derive(Clone, Copy, Debug, PartialEq, Eq)]
pub struct BytePlace {
    pub line: u64,
    pub column: u64,
}

/// The place behind these bytes, the first of which stands at `place`.
pub fn place_after(place: BytePlace, bytes: &[u8]) -> BytePlace
    requires line { place.line + length bytes.now < 2 ^ 64 }
    requires column { place.column + 8 * length bytes.now < 2 ^ 64 }
    ensures value { result ≡ after place bytes.now }
    ensures line { result.line ≤ place.line + length bytes.now }
    ensures column { result.column ≤ place.column + 8 * length bytes.now }
{
    let mut now = place;
    for byte in bytes {
        now = behind_byte(now, *byte);
    }
    now
}

/// The place behind a byte that stands there.
fn behind_byte(place: BytePlace, byte: u8) -> BytePlace
    requires line { place.line + 1 < 2 ^ 64 }
    requires column { place.column + 8 < 2 ^ 64 }
    ensures value { result ≡ step place byte }
    ensures line { result.line ≤ place.line + 1 }
    ensures column { result.column ≤ place.column + 8 }
{
    let BytePlace { line, column } = place;
    match byte {
        b'\n' => BytePlace {
            line: line + 1,
            column: 0,
        },
        b'\t' => BytePlace {
            line,
            column: column + 8 - column % 8,
        },
        _ => BytePlace {
            line,
            column: column + 1,
        },
    }
}
