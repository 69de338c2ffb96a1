//! Texts that are joined from parts.
ghost use Rattle.std.specs.Prelude.{◌≡◌, ◌==◌, ◌<◌, ◌∷◌, ◌++◌, IfOk, OnOk, length, if◌then◌else◌};
ghost use Rattle.std.specs.String.{string_bytes};
ghost use Rattle.protobuf_parse_base.specs.Characters as char;

use std::alloc::{AllocError, Global};

/// Adds a part to a text, after a separator unless the text is empty.
pub(crate) fn push_part(text: &mut String, separator: char, part: &str) -> Result<(), AllocError>
    requires { separator < 128 }
    ensures { OnOk result
        (string_bytes text.new
        ≡ (if length (string_bytes text.old) == 0 then part.now else string_bytes text.old
        ++ separator ∷ part.now)) }
{
    if !text.is_empty() {
        text.push(separator)?;
    }
    text.push_str(part)
}

/// The text of `front`, a dot and `back`, in one request for memory. The one error is that memory
/// is short.
pub fn join_at_dot(alloc: Global, front: &str, back: &str) -> Result<String, AllocError>
    ensures { IfOk result (λ joined. string_bytes joined ≡ front.now ++ char.dot ∷ back.now) }
{
    let mut joined = String::with_capacity(alloc, front.len() + back.len() + 1)?;
    joined.push_str(front)?;
    joined.push('.')?;
    joined.push_str(back)?;
    Ok(joined)
}
