//! Tokens of statements.

ghost use Rattle.std.specs.Prelude.{◌≡◌, map, codes, if◌then◌else◌, not, drop, ◌≤◌, length};
ghost use Rattle.protobuf_parse_lexer.specs.Tokens.{lexeme};
ghost use Rattle.protobuf_parse_text_rules.specs.Statements as spec;

use protobuf_parse_lexer::{Place, Token};

/// Whether that is the text of the first.
pub fn first_is(tokens: &[Token<'_>], text: &str) -> bool
    ensures { result ≡ spec.first_is text.now (map lexeme tokens.now) }
{
    match tokens {
        [first, ..] => first.text == text,
        [] => false,
    }
}

/// The place of the first, or else this one.
pub fn first_place(tokens: &[Token<'_>], place: Place) -> Place
    ensures { result ≡ spec.first_place place (map lexeme tokens.now) }
{
    match tokens {
        [first, ..] => first.place,
        [] => place,
    }
}

fn same_place(a: Place, b: Place) -> bool
    ensures { result ≡ spec.same_place a b }
{
    a.line == b.line && a.col == b.col
}

/// The tokens from the one at the place on.
pub fn from<'t, 'a>(tokens: &'t [Token<'a>], place: Place) -> &'t [Token<'a>]
    ensures { map lexeme result.now ≡ spec.from place (map lexeme tokens.now) }
{
    let mut left = tokens;
    'left: while let [token, rest @ ..] = left {
        if same_place(token.place, place) {
            return left;
        }
        left = rest;
    }
    left
}

/// The tokens from the first of that text on.
pub fn from_text<'t, 'a>(tokens: &'t [Token<'a>], text: &str) -> &'t [Token<'a>]
    ensures { map lexeme result.now ≡ spec.from_text text.now (map lexeme tokens.now) }
{
    let mut left = tokens;
    'left: while let [token, rest @ ..] = left {
        if token.text == text {
            return left;
        }
        left = rest;
    }
    left
}

/// Without the first.
pub fn behind_first<'t, 'a>(tokens: &'t [Token<'a>]) -> &'t [Token<'a>]
    ensures { map lexeme result.now ≡ drop 1 (map lexeme tokens.now) }
{
    match tokens {
        [_, rest @ ..] => rest,
        [] => tokens,
    }
}

/// Without the first, if that is its text.
fn past_if<'t, 'a>(tokens: &'t [Token<'a>], text: &str) -> &'t [Token<'a>]
    ensures { map lexeme result.now ≡ spec.past_if text.now (map lexeme tokens.now) }
{
    match tokens {
        [first, rest @ ..] if first.text == text => rest,
        _ => tokens,
    }
}

/// The tokens behind the `]` that closes the bracket.
fn past_closing<'t, 'a>(tokens: &'t [Token<'a>]) -> &'t [Token<'a>]
    ensures { map lexeme result.now ≡ spec.past_closing 0 (map lexeme tokens.now) }
{
    let mut inner: usize = 0;
    let mut left = tokens;
    'left: while let [token, rest @ ..] = left {
        left = rest;
        if token.text == "[" {
            inner += 1;
        } else if token.text == "]" {
            if inner == 0 {
                return rest;
            }
            inner -= 1;
        }
    }
    left
}

/// The tokens behind options in brackets, if they stand there.
fn past_options<'t, 'a>(tokens: &'t [Token<'a>]) -> &'t [Token<'a>]
    ensures { map lexeme result.now ≡ spec.past_options (map lexeme tokens.now) }
{
    match tokens {
        [first, rest @ ..] if first.text == "[" => past_closing(rest),
        _ => tokens,
    }
}

/// The tokens behind those of a value.
fn behind_value<'t, 'a>(tokens: &'t [Token<'a>]) -> &'t [Token<'a>]
    ensures { map lexeme result.now ≡ spec.behind_value (map lexeme tokens.now) }
{
    let number = past_if(behind_first(behind_first(tokens)), "-");
    past_options(behind_first(number))
}

fn begins_with_digit(text: &str) -> bool
    ensures { result ≡ spec.begins_with_digit text.now }
{
    match text.as_bytes() {
        [first, ..] => 48 <= *first && *first <= 57,
        [] => false,
    }
}

/// Whether ranges have such a token.
fn is_of_ranges(token: &Token<'_>) -> bool
    ensures { result ≡ spec.is_of_ranges (lexeme token.now) }
{
    let text = token.text;
    begins_with_digit(text) || text == "to" || text == "max" || text == ","
}

/// The tokens behind ranges.
fn past_ranges<'t, 'a>(tokens: &'t [Token<'a>]) -> &'t [Token<'a>]
    ensures { map lexeme result.now ≡ spec.past_ranges (map lexeme tokens.now) }
{
    let mut left = tokens;
    'left: while let [token, rest @ ..] = left {
        if !is_of_ranges(token) {
            return left;
        }
        left = rest;
    }
    left
}

/// The tokens behind those of a value, or of an `extensions` statement, but for the `;`.
pub fn behind_statement<'t, 'a>(tokens: &'t [Token<'a>]) -> &'t [Token<'a>]
    ensures { map lexeme result.now ≡ spec.behind_statement (map lexeme tokens.now) }
{
    let behind = behind_first(tokens);
    if first_is(behind, "=") {
        behind_value(tokens)
    } else {
        past_ranges(behind)
    }
}
