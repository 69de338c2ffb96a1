//! Which tokens can stand behind the front of a text.

ghost use Rattle.std.specs.Prelude.{◌≡◌, IfOk, string_bytes};
ghost use Rattle.protobuf_parse_expected.specs.Expected as spec;
ghost use Rattle.protobuf_parse_expected.specs.Expected.{AreTold, Tells, texts_of};

use crate::ending::has_end;
use crate::reading::{Probed, read};
use std::alloc::{AllocError, Global};

/// Whether a token can stand behind the front of a text.
#[derive(Clone, Copy, Debug, PartialEq, Eq)]
pub enum Verdict {
    /// Some file goes on with it.
    Can,
    /// No file goes on with it.
    Never,
    /// Neither was found.
    Unsure,
}

/// Of each of the tokens whether it can stand behind the front of a text, in their order. The front
/// ends where a token does. The one error is that memory is short.
///
/// The front is read at least once for each token, and once more for each token that was tried to
/// come to an end: some five hundred times for fifty tokens.
///
/// ```text
/// verdicts(alloc, "message A { int32 a =", &["1", ";"])? // [Verdict::Can, Verdict::Never]
/// ```
pub fn verdicts(alloc: Global, front: &str, tokens: &[&str]) -> Result<Vec<Verdict>, AllocError>
    ensures { IfOk result (λ v. AreTold front.now (texts_of tokens.now) v.items) }
{
    let mut verdicts = Vec::with_capacity(alloc, tokens.len())?;
    for token in tokens {
        verdicts.push(told_of(alloc, front, token)?)?;
    }
    Ok(verdicts)
}

/// Whether the token can stand behind the front. A line feed before it ends an open comment.
fn told_of(alloc: Global, front: &str, token: &str) -> Result<Verdict, AllocError>
    ensures { IfOk result (Tells front.now token.now) }
{
    let text = behind(alloc, front, token)?;
    match read(alloc, &text)? {
        Probed::Whole => Ok(Verdict::Can),
        Probed::Never => Ok(Verdict::Never),
        Probed::Other => Ok(Verdict::Unsure),
        Probed::Open => {
            if has_end(alloc, &text)? {
                Ok(Verdict::Can)
            } else {
                Ok(Verdict::Unsure)
            }
        }
    }
}

/// The front, and the token on a line of its own.
fn behind(alloc: Global, front: &str, token: &str) -> Result<String, AllocError>
    ensures { IfOk result (λ s. string_bytes s ≡ spec.behind front.now token.now) }
{
    let mut text = String::from_str(alloc, front)?;
    text.push('\n')?;
    text.push_str(token)?;
    Ok(text)
}
