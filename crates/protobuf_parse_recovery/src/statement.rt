//! Which part of a text holds a fault.

ghost use Rattle.std.specs.Prelude.{◌<◌, ◌≤◌, IfSome, length};
ghost use Rattle.protobuf_parse_recovery.specs.Recovery.{IsPart};

use protobuf_parse_lexer::{NextToken, Place, Tokenizer};

/// Bytes of a text: from the first up to before the second.
#[derive(Clone, Copy, Debug, PartialEq, Eq)]
pub struct Part {
    pub from: usize,
    pub to: usize,
}

/// What was seen of the statement so far.
#[derive(Clone, Copy)]
struct Seen {
    /// Where it begins: behind the last `;`, `{` or `}` that stands in no value.
    from: usize,
    /// How many braces of a value are open in it.
    open: usize,
    /// Whether none of its tokens was seen yet.
    is_empty: bool,
    /// Whether `=` came last, behind which a brace is a value's.
    equals: bool,
    /// Whether it is the statement that tells the version.
    is_version: bool,
}

/// The innermost statement that holds the token at the place, to behind its `;` or the brace that
/// closes its last one, or to before the brace of the body around it. A brace that closes nothing
/// is one by itself.
///
/// None where the text has no token there, or where the statement is the one that tells the version
/// of the language: without it all that follows would be read as another version.
pub fn statement_at(text: &str, place: Place) -> Option<Part>
    ensures { IfSome result (IsPart text.now) }
{
    let (seen, tokens) = seen_before(text, place);
    let tokens = tokens?;
    if seen.is_version || tokens.next.is_none() {
        return None;
    }
    part_of(text, seen.from, end_from(text, tokens, &seen))
}

/// The statement in which a character stands that begins no token, or a number or a string that is
/// none: from its beginning to the end of that line, but for braces there that may close bodies.
///
/// None where the text has no such place, or where the statement tells the version.
pub fn torn_at(text: &str, place: Place) -> Option<Part>
    ensures { IfSome result (IsPart text.now) }
{
    let (seen, _) = seen_before(text, place);
    if seen.is_version {
        return None;
    }
    let torn = offset_of(text, place)?;
    let rest = text.get(torn..)?;
    let line = match rest.split_once('\n') {
        Some((line, _)) => line,
        None => rest,
    };
    let len = line.trim_end_matches(may_close).len();
    part_of(text, torn.min(seen.from), torn.saturating_add(len))
}

/// Whether it is a brace that closes, or a blank.
fn may_close(character: char) -> bool {
    character == '}' || character.is_whitespace()
}

/// What was seen of the statement in which the token at the place stands, and the tokens from there
/// on: those that are left where the text has no token there.
fn seen_before(text: &str, place: Place) -> (Seen, Option<Tokenizer<'_>>) {
    let mut seen = Seen {
        from: mark_len(text),
        open: 0,
        is_empty: true,
        equals: false,
        is_version: false,
    };
    let Ok(mut tokens) = Tokenizer::new(text) else {
        return (seen, None);
    };
    for number in 0..text.len() {
        let Some(token) = tokens.next else {
            break;
        };
        if number == 0 {
            seen.is_version = token.text == "syntax";
        }
        if token.place == place {
            break;
        }
        seen = seen_with(seen, &token, end_of(text, &tokens));
        tokens.advance();
    }
    (seen, Some(tokens))
}

/// The part from there up to there, if that is one of the text.
fn part_of(text: &str, from: usize, to: usize) -> Option<Part>
    ensures { IfSome result (IsPart text.now) }
{
    if from < to && to <= text.len() {
        Some(Part { from, to })
    } else {
        None
    }
}

/// How many bytes the mark of byte order before a text has.
fn mark_len(text: &str) -> usize {
    if text.starts_with('\u{feff}') { 3 } else { 0 }
}

/// Where the next token ends.
fn end_of(text: &str, tokens: &Tokenizer<'_>) -> usize {
    text.len().saturating_sub(tokens.bytes_behind())
}

/// What was seen with one token more, which ends there.
fn seen_with(seen: Seen, token: &NextToken<'_>, end: usize) -> Seen {
    let begun = Seen {
        from: end,
        open: 0,
        is_empty: true,
        equals: false,
        is_version: false,
    };
    let within = Seen {
        is_empty: false,
        equals: token.is_symbol('='),
        ..seen
    };
    if token.is_symbol('{') {
        if seen.open > 0 || seen.equals {
            return Seen {
                open: seen.open.saturating_add(1),
                ..within
            };
        }
        return begun;
    }
    if token.is_symbol('}') && seen.open > 0 {
        return Seen {
            open: seen.open - 1,
            ..within
        };
    }
    if token.is_symbol('}') || token.is_symbol(';') && seen.open == 0 {
        return begun;
    }
    within
}

/// Where the statement ends that goes on with these tokens.
fn end_from(text: &str, tokens: Tokenizer<'_>, seen: &Seen) -> usize {
    let mut tokens = tokens;
    let mut open = seen.open;
    for number in 0..text.len() {
        let Some(token) = tokens.next else {
            return text.len();
        };
        let end = end_of(text, &tokens);
        if token.is_symbol('{') {
            open = open.saturating_add(1);
        } else if token.is_symbol('}') {
            if open == 0 {
                let begin = end.saturating_sub(1);
                let is_alone = seen.is_empty && number == 0;
                return if is_alone { end } else { begin };
            }
            open -= 1;
            if open == 0 {
                return end;
            }
        } else if token.is_symbol(';') && open == 0 {
            return end;
        }
        tokens.advance();
    }
    text.len()
}

/// From the place to the end of the text. None where the text has no such place.
pub fn rest_from(text: &str, place: Place) -> Option<Part>
    ensures { IfSome result (IsPart text.now) }
{
    part_of(text, offset_of(text, place)?, text.len())
}

/// How many bytes stand before the place.
fn offset_of(text: &str, place: Place) -> Option<usize> {
    let mut line: u32 = 1;
    let mut col: u32 = 1;
    let mark = mark_len(text);
    for (offset, character) in text.char_indices() {
        if offset < mark {
            continue;
        }
        if line == place.line && col == place.col {
            return Some(offset);
        }
        if character == '\n' {
            line = line.saturating_add(1);
            col = 1;
        } else {
            col = col.saturating_add(1);
        }
    }
    None
}
