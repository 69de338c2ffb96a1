//! What stands in a text at a place.

use protobuf_parse_lexer::Tokenizer;
use protobuf_parse_syntax::Place;
use std::fmt;

/// How many characters of a token are shown.
const MOST_SHOWN: usize = 40;

/// The text from the place on. None where the text has no such place.
pub fn text_from(text: &str, place: Place) -> Option<&str> {
    let mut rest = text;
    for _ in 1..place.line {
        rest = rest.split_once('\n')?.1;
    }
    let rest = without_mark(rest, place);
    for (column, (offset, _)) in (1..).zip(rest.char_indices()) {
        if column == place.col {
            return rest.get(offset..);
        }
    }
    Some("")
}

/// The place behind the text, where the next character would stand.
pub fn place_behind(text: &str) -> Place {
    let line = text.matches('\n').count();
    let last = match text.rsplit_once('\n') {
        Some((_, last)) => last,
        None => text.strip_prefix('\u{feff}').unwrap_or(text),
    };
    Place {
        line: number_from_1(line),
        col: number_from_1(last.chars().count()),
    }
}

/// The number of what so many stand before.
fn number_from_1(before: usize) -> u32 {
    u32::try_from(before).map_or(u32::MAX, |before| before.saturating_add(1))
}

/// A line without the mark of byte order that may stand before a text, which is no column.
fn without_mark(line: &str, place: Place) -> &str {
    if place.line == 1 {
        line.strip_prefix('\u{feff}').unwrap_or(line)
    } else {
        line
    }
}

/// The token that begins at the place. None where the text ends there, or has no token there.
pub fn token_at(text: &str, place: Place) -> Option<&str> {
    let rest = text_from(text, place)?;
    match Tokenizer::new(rest) {
        Ok(tokens) => tokens.next.map(|token| token.text),
        Err(_) => None,
    }
}

/// The first character from the place on.
pub fn character_at(text: &str, place: Place) -> Option<char> {
    text_from(text, place)?.chars().next()
}

/// The letters, digits, underscores and points from the place on: what was meant as a number.
pub fn word_at(text: &str, place: Place) -> &str {
    let Some(rest) = text_from(text, place) else {
        return "";
    };
    for (offset, character) in rest.char_indices() {
        if !(character.is_alphanumeric() || character == '_' || character == '.') {
            return rest.get(..offset).unwrap_or("");
        }
    }
    rest
}

/// A token as messages show it: between backquotes, its first characters alone if it is long; or
/// the end of the file where there is none.
#[derive(Clone, Copy)]
pub struct Shown<'a>(pub Option<&'a str>);

impl<'a> fmt::Display for Shown<'a> {
    fn fmt<W: fmt::Write>(&self, f: &mut fmt::Formatter<W>) -> fmt::Result {
        let Some(token) = self.0 else {
            return f.write_str("end of file");
        };
        match token.char_indices().nth(MOST_SHOWN) {
            Some((offset, _)) => {
                let front = token.get(..offset).unwrap_or("");
                write!(f, "`{front}..`")
            }
            None => write!(f, "`{token}`"),
        }
    }
}
