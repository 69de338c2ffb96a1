//! An end for a text that goes on.

ghost use Rattle.std.specs.Prelude.{◌≡◌, IfOk, IfSome, true};
ghost use Rattle.protobuf_parse_expected.specs.Expected.{GoesOn};
ghost use Rattle.protobuf_parse_expected.specs.Reading.{IsLonger};

use crate::reading::{Probed, read};
use std::alloc::{AllocError, Global};

/// How many tokens an end has at most: a brace for each of a hundred levels, and a statement.
const MOST_TOKENS: usize = 150;

/// The tokens of ends, in the order in which they are tried: those that close come first.
const TOKENS: [&str; 17] = [
    "}",
    ";",
    "]",
    ")",
    ">",
    "=",
    "1",
    "X",
    "\"proto3\"",
    "int32",
    "{",
    ",",
    "(",
    "<",
    "returns",
    "service",
    "rpc",
];

/// Whether an end was found behind which the text is a file's. The one error is that memory is
/// short.
pub fn has_end(alloc: Global, text: &str) -> Result<bool, AllocError>
    ensures { IfOk result (λ found. found ≡ true → GoesOn text.now) }
{
    let mut longer = String::from_str(alloc, text)?;
    for _ in 0..MOST_TOKENS {
        let Some(Longer { text, is_whole }) = with_token(alloc, &longer)? else {
            return Ok(false);
        };
        if is_whole {
            return Ok(true);
        }
        longer = text;
    }
    Ok(false)
}

/// A text that goes on with more.
#[derive(Drop)]
struct Longer {
    text: String,
    /// Whether it has a tree.
    is_whole: bool,
}

/// The text with the first of the tokens with which it can go on.
fn with_token(alloc: Global, text: &str) -> Result<Option<Longer>, AllocError>
    ensures { IfOk result (λ found. IfSome found (IsLonger text.now)) }
{
    for token in &TOKENS {
        let longer = format!(in alloc; "{text} {token}")?;
        match read(alloc, &longer)? {
            Probed::Whole => return Ok(Some(Longer {
                text: longer,
                is_whole: true,
            })),
            Probed::Open => return Ok(Some(Longer {
                text: longer,
                is_whole: false,
            })),
            Probed::Never | Probed::Other => {}
        }
    }
    Ok(None)
}
