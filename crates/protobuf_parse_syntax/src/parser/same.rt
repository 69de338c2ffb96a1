//! Words that are the same.

ghost use Rattle.std.specs.Prelude.{◌≡◌, bytes_eq};

use protobuf_parse_lexer::byte_at;

/// Whether two texts are the same. Most of those that differ have other lengths or begin otherwise,
/// so that is looked at first.
pub fn is_same(text: &str, other: &str) -> bool
    ensures { result ≡ bytes_eq text.now other.now }
{
    text.len() == other.len()
        && byte_at(text.as_bytes(), 0) == byte_at(other.as_bytes(), 0)
        && text == other
}
