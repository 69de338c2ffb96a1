//! Bytes and where they start.

ghost use Rattle.std.specs.Prelude.{◌+◌, ◌<◌, ◌^◌, length};

/// A stretch of a message's bytes.
#[derive(Clone, Copy, Debug, PartialEq, Eq)]
pub struct Span<'a> {
    /// The offset of the first one, in bytes from the start of the whole message.
    pub start: usize,
    pub bytes: &'a [u8],
    pub ghost fits: { start + length bytes.now < 2 ^ 63 },
}
