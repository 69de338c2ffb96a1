//! Parts of a text as if they were blanks.

ghost use Rattle.std.specs.Prelude.{◌≡◌, ◌++◌, ◌≤◌, IfOk, OnOk, IfSome, string_bytes};
ghost use Rattle.protobuf_parse_recovery.specs.Masking.{blank, blanks, masked};

use std::alloc::{AllocError, Global};

/// The text with blanks in place of the bytes from `from` up to before `to`: one for each character,
/// and a line feed for a line feed, so that what stands behind keeps its line and its column. None
/// where a character doesn't begin at both.
///
/// The one error is that memory is short.
pub fn mask(alloc: Global, text: &str, from: usize, to: usize) -> Result<Option<String>, AllocError>
    requires { from ≤ to }
    ensures { IfOk result (λ r. IfSome r (λ s. string_bytes s ≡ masked text.now from to)) }
{
    let Some((front, behind)) = text.split_at_checked(from) else {
        return Ok(None);
    };
    let Some((part, back)) = behind.split_at_checked(to - from) else {
        return Ok(None);
    };
    let mut masked = String::with_capacity(alloc, text.len())?;
    masked.push_str(front)?;
    push_blanks(&mut masked, part)?;
    masked.push_str(back)?;
    Ok(Some(masked))
}

/// Adds a blank for each character of the part.
fn push_blanks(out: &mut String, part: &str) -> Result<(), AllocError>
    ensures { OnOk result (string_bytes out.new ≡ string_bytes out.old ++ blanks part.now) }
{
    let bytes = part.as_bytes();
    for byte in bytes {
        push_blank(out, *byte)?;
    }
    Ok(())
}

/// Adds what stands in place of a byte.
fn push_blank(out: &mut String, byte: u8) -> Result<(), AllocError>
    ensures { OnOk result (string_bytes out.new ≡ string_bytes out.old ++ blank byte) }
{
    if byte == b'\n' {
        out.push('\n')?;
    } else if byte < 0x80 || byte >= 0xc0 {
        out.push(' ')?;
    }
    Ok(())
}
