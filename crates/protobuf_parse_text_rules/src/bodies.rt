//! Bodies of oneofs and of `extend`s, token by token.

ghost use Rattle.std.specs.Prelude.{◌≡◌, ◌++◌, ◌<◌, map, OnOk};
ghost use Rattle.protobuf_parse_lexer.specs.Tokens.{lexeme};
ghost use Rattle.protobuf_parse_text_rules.specs.Statements as spec;
ghost use Rattle.protobuf_parse_text_rules.specs.Views.{told};

use crate::rule::TextRule;
use crate::violation::{TextViolation, tell_if};
use protobuf_parse_lexer::Token;
use std::alloc::{AllocError, Global};

/// What was seen of a body.
#[derive(Clone, Copy)]
pub struct BodySeen {
    /// How many braces are open inside it.
    pub inner: usize,
    /// Whether the outermost of these holds a value.
    pub in_value: bool,
    /// Whether a statement begins here.
    pub begins: bool,
    /// Whether `=` came last.
    pub equals: bool,
}

/// Tells each `;` that stands alone in the body that begins with these tokens.
pub fn tell_alone(
    alloc: Global,
    found: &mut Vec<TextViolation>,
    name: &str,
    tokens: &[Token<'_>],
) -> Result<(), AllocError>
    ensures { OnOk result (told found.new ≡ told found.old
        ++ spec.alone_in name.now spec.begun (map lexeme tokens.now)) }
{
    let mut body = BodySeen {
        inner: 0,
        in_value: false,
        begins: true,
        equals: false,
    };
    let mut left = tokens;
    'left: while let [token, rest @ ..] = left {
        if closes(body, token) {
            return Ok(());
        }
        let alone = is_alone(body, token);
        let rule = TextRule::SemicolonAlone;
        tell_if(alloc, found, alone, rule, token.place, name)?;
        body = seen_with(body, token);
        left = rest;
    }
    Ok(())
}

fn closes(body: BodySeen, token: &Token<'_>) -> bool
    ensures { result ≡ spec.closes body (lexeme token.now) }
{
    body.inner == 0 && token.text == "}"
}

fn is_alone(body: BodySeen, token: &Token<'_>) -> bool
    ensures { result ≡ spec.is_alone body (lexeme token.now) }
{
    body.inner == 0 && (body.begins && token.text == ";")
}

/// With one token more.
fn seen_with(body: BodySeen, token: &Token<'_>) -> BodySeen
    requires { body.inner < 18446744073709551615 }
    ensures { result ≡ spec.seen_with body (lexeme token.now) }
{
    if body.inner == 0 {
        return seen_outside(body.equals, token);
    }
    if token.text == "{" {
        return BodySeen {
            inner: body.inner + 1,
            ..body
        };
    }
    if token.text != "}" {
        return body;
    }
    if body.inner == 1 {
        return BodySeen {
            inner: 0,
            in_value: false,
            begins: !body.in_value,
            equals: false,
        };
    }
    BodySeen {
        inner: body.inner - 1,
        ..body
    }
}

/// With one token more, where no brace is open inside the body.
fn seen_outside(equals: bool, token: &Token<'_>) -> BodySeen
    ensures { result ≡ spec.seen_outside equals (lexeme token.now) }
{
    if token.text == "{" {
        return BodySeen {
            inner: 1,
            in_value: equals,
            begins: false,
            equals: false,
        };
    }
    BodySeen {
        inner: 0,
        in_value: false,
        begins: token.text == ";",
        equals: token.text == "=",
    }
}
