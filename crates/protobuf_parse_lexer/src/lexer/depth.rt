//! How deep brackets nest.

ghost use Rattle.std.specs.Prelude.{◌≡◌, map, MatchOption};
ghost use Rattle.protobuf_parse_lexer.specs.TokenKinds.{kind_of};
ghost use Rattle.protobuf_parse_lexer.specs.Tokens as tokens;
ghost use Rattle.protobuf_parse_lexer.specs.Tokens.{lexeme, IsShallow, DeepensAt};

use crate::lexer::token::{Place, Token};

/// The deepest nesting that a text may have.
pub const MAX_DEPTH: usize = 100;

/// The place of the opening bracket with which more are open than may be, where there is one.
pub fn too_deep(list: &[Token]) -> Option<Place>
    ensures { MatchOption result (IsShallow (map lexeme list.now))
        (DeepensAt (map lexeme list.now)) }
{
    let mut opened: usize = 0;
    let mut closed: usize = 0;
    for token in list {
        if is_opening(token) {
            opened += 1;
            if opened.saturating_sub(closed) > MAX_DEPTH {
                return Some(token.place);
            }
        } else if is_closing(token) {
            closed += 1;
        }
    }
    None
}

#[tactic(auto, using(crate::proofs::TextKinds::opening_first))]
fn is_opening(token: &Token) -> bool
    ensures { result ≡ tokens.is_opening (kind_of token.now.text.now) }
{
    matches!(token.text.as_bytes(), [b'{' | b'[' | b'<'])
}

#[tactic(auto, using(crate::proofs::TextKinds::closing_first))]
fn is_closing(token: &Token) -> bool
    ensures { result ≡ tokens.is_closing (kind_of token.now.text.now) }
{
    matches!(token.text.as_bytes(), [b'}' | b']' | b'>'])
}
