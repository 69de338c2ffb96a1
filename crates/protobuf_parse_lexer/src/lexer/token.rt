//! Tokens and places.

ghost use Rattle.std.specs.Prelude.{◌≡◌};
ghost use Rattle.protobuf_parse_lexer.specs.TokenKinds as kinds;

use crate::lexer::kind::kind_of;

/// A line and a column, both from 1. A column counts characters.
#[derive(Clone, Copy, Debug, PartialEq, Eq)]
pub struct Place {
    pub line: u32,
    pub col: u32,
}

/// What a token is.
#[derive(Clone, Copy, Debug, PartialEq, Eq)]
pub enum TokenKind {
    /// A letter or underscore, and letters, digits and underscores.
    Ident,
    /// A decimal, octal or hexadecimal integer, with its number.
    Integer(u64),
    /// A number with a point or an exponent. It is never read as a number here.
    Float,
    /// A text in quotes.
    Str,
    /// Any other visible ASCII character.
    Symbol(char),
}

/// A token of a text.
#[derive(Clone, Copy)]
pub struct Token<'a> {
    /// The part of the text that the token is; a string's has its quotes.
    pub text: &'a str,
    /// Where its first character stands.
    pub place: Place,
}

impl<'a> Token<'a> {
    /// What the token is, as its text tells.
    pub fn kind(&self) -> TokenKind
        ensures { result ≡ kinds.kind_of self.now.text.now }
    {
        kind_of(self.text.as_bytes())
    }
}

/// The tokens of a text.
#[derive(Drop)]
pub struct TokenStream<'a> {
    pub tokens: Vec<Token<'a>>,
    /// The place after the text's last character.
    pub end: Place,
}
