//! Bytes and runs of them.

ghost use Rattle.std.specs.Prelude.{◌≡◌, ◌≢◌, ℕ, ◌<◌, ◌≤◌, length, slice_index, true, false};
ghost use Rattle.protobuf_parse_lexer.specs.Text as text;

// Each byte of an identifier stands at its own index, and a comma at every other.
static IDENT_MAP: [u8; 256] = *b"\
    ,,,,,,,,,,,,,,,,,,,,,,,,,,,,,,,,\
    ,,,,,,,,,,,,,,,,0123456789,,,,,,\
    ,ABCDEFGHIJKLMNOPQRSTUVWXYZ,,,,_\
    ,abcdefghijklmnopqrstuvwxyz,,,,,\
    ,,,,,,,,,,,,,,,,,,,,,,,,,,,,,,,,\
    ,,,,,,,,,,,,,,,,,,,,,,,,,,,,,,,,\
    ,,,,,,,,,,,,,,,,,,,,,,,,,,,,,,,,\
    ,,,,,,,,,,,,,,,,,,,,,,,,,,,,,,,,";

/// A class of bytes.
#[derive(Clone, Copy)]
pub enum ByteClass {
    Blank,
    Line,
    Ident,
    Digit,
    Octal,
    Hex,
}

/// Whether the byte is a letter, a digit or an underscore.
fn is_ident(byte: u8) -> bool
    ensures { result ≡ text.is_in ByteClass.Ident byte }
{
    IDENT_MAP[byte as usize] != b','
}

/// Whether the byte is one of that class.
pub fn is_in(class: ByteClass, byte: u8) -> bool
    ensures { result ≡ text.is_in class byte }
{
    match class {
        ByteClass::Blank => byte == b' ' || (9 <= byte && byte <= 13),
        ByteClass::Line => byte != b'\n',
        ByteClass::Ident => is_ident(byte),
        ByteClass::Digit => byte.is_ascii_digit(),
        ByteClass::Octal => 48 <= byte && byte <= 55,
        ByteClass::Hex => byte.is_ascii_hexdigit(),
    }
}

/// The byte at `at`, or 0 past the end.
pub fn byte_at(bytes: &[u8], at: usize) -> u8
    ensures value { result ≡ slice_index bytes.now at }
    ensures within { result ≢ 0 → at < length bytes.now }
{
    if at < bytes.len() { bytes[at] } else { 0 }
}

/// The end of the bytes of the class from `at` on.
pub fn run_end(class: ByteClass, bytes: &[u8], at: usize) -> usize
    requires { at ≤ length bytes.now }
    ensures after { at ≤ result }
    ensures within { result ≤ length bytes.now }
    ensures passes { (k : ℕ) → at ≤ k → k < result
        → text.is_in class (slice_index bytes.now k) ≡ true }
    ensures stops { result < length bytes.now
        → text.is_in class (slice_index bytes.now result) ≡ false }
{
    let mut end = at;
    while end < bytes.len() && is_in(class, bytes[end]) {
        end += 1;
    }
    end
}
