//! A quick test that no two claims are of one thing: by a key of each. Things that differ seldom
//! share a key. Only where some do, or where a thing is claimed twice, the claims are gone through
//! one by one.

ghost use Rattle.std.specs.Prelude.{◌≡◌, encode_utf8_all};
ghost use Rattle.std.specs.List.{fold};
ghost use Rattle.protobuf_parse_rules.specs.Alike.{squeezed};
ghost use Rattle.protobuf_parse_rules.specs.Keys as spec;
ghost use Rattle.protobuf_parse_rules.specs.Known.{keyed};

use protobuf_parse_model::hash_of;

/// The key of a number behind a text, by that of the text.
pub fn numbered(key: u64, number: &i32) -> u64
    ensures { result ≡ spec.numbered key number.now }
{
    (key ^ number.cast_unsigned() as u64).wrapping_mul(0x100_0000_01b3)
}

/// The key of a text without bytes.
pub const NO_TEXT: u64 = 0xcbf2_9ce4_8422_2325;

/// The key of a text with this one behind it, by that of the text: so the key of a scope is made
/// once for all names in it. Eight bytes at a time spare turns of the loop.
pub fn text_key(front: u64, text: &str) -> u64
    ensures { result ≡ fold spec.mixed front text.now }
{
    let mut rest = text.as_bytes();
    let mut key = front;
    'rest: while let [a, b, c, d, e, f, g, h, more @ ..] = rest {
        let half = mixed(mixed(mixed(mixed(key, *a), *b), *c), *d);
        key = mixed(mixed(mixed(mixed(half, *e), *f), *g), *h);
        rest = more;
    }
    bytes_key(key, rest)
}

fn bytes_key(front: u64, bytes: &[u8]) -> u64
    ensures { result ≡ fold spec.mixed front bytes.now }
{
    let mut key = front;
    'bytes: for byte in bytes {
        key = mixed(key, *byte);
    }
    key
}

/// The text behind its hash: so texts are told apart by numbers, for the most part.
pub fn keyed(text: &str) -> (u64, &str)
    ensures { result ≡ keyed text.entry }
{
    (hash_of(text), text)
}

/// The key of a text with this name behind it, by that of the text; the name in lower case and
/// without underscores, which is not made for it. In the bytes of characters beyond ASCII stand
/// neither underscores nor capitals.
pub fn squeezed_key(front: u64, name: &str) -> u64
    ensures { result ≡ fold spec.mixed front (encode_utf8_all (squeezed name.now)) }
{
    let mut rest = name.as_bytes();
    let mut key = front;
    'rest: while let [a, b, c, d, e, f, g, h, more @ ..] = rest {
        let half = squeezed_mixed(
            squeezed_mixed(squeezed_mixed(squeezed_mixed(key, *a), *b), *c),
            *d,
        );
        key = squeezed_mixed(
            squeezed_mixed(squeezed_mixed(squeezed_mixed(half, *e), *f), *g),
            *h,
        );
        rest = more;
    }
    squeezed_bytes_key(key, rest)
}

fn squeezed_bytes_key(front: u64, bytes: &[u8]) -> u64
    ensures { result ≡ fold spec.squeezed_mixed front bytes.now }
{
    let mut key = front;
    'bytes: for byte in bytes {
        key = squeezed_mixed(key, *byte);
    }
    key
}

/// The key of a text and one byte more, if that is no underscore. Small letters come first, since
/// names mostly have these: that, and eight bytes at a time, spared 10 million instructions for
/// 100,000 fields.
fn squeezed_mixed(key: u64, byte: u8) -> u64
    ensures { result ≡ spec.squeezed_mixed key byte }
{
    if byte >= b'a' {
        mixed(key, byte)
    } else if byte == b'_' {
        key
    } else {
        mixed(key, byte.to_ascii_lowercase())
    }
}

/// The key of a text and one byte more.
fn mixed(key: u64, byte: u8) -> u64
    ensures { result ≡ spec.mixed key byte }
{
    (key ^ byte as u64).wrapping_mul(0x100_0000_01b3)
}
