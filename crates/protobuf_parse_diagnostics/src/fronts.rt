//! What the statement shows in which an unexpected token stands.

use crate::scan::text_from;
use protobuf_parse_syntax::Place;

/// What helps with a token that is unexpected there, where what stands before it in its statement
/// tells: a construct of `protoc` that is not read here, or one of the other version.
pub fn help_with(text: &str, place: Place, token: Option<&str>) -> Option<&'static str> {
    let front = front_of(text, place)?;
    match (first_word(front), token?) {
        ("", "edition") => Some("editions are not read; `syntax` says the version of a file"),
        ("", "extensions") => Some("messages of proto2 alone have ranges of extensions"),
        ("reserved", "-") => Some("negative numbers cannot be reserved here"),
        ("extensions", "[") => Some("options of ranges of extensions are not read"),
        (_, "[") if has_word(front, "group") => Some("options of groups are not read"),
        _ => None,
    }
}

/// The beginning of the statement that goes up to the place: what stands behind the last `;`, `{`
/// or `}` before it.
fn front_of(text: &str, place: Place) -> Option<&str> {
    let rest = text_from(text, place)?;
    let before = text.get(..text.len().checked_sub(rest.len())?)?;
    let front = match before.rfind(ends_statement) {
        Some(end) => before.get(end..)?,
        None => before,
    };
    Some(front.trim_start_matches(is_between))
}

fn ends_statement(character: char) -> bool {
    matches!(character, ';' | '{' | '}')
}

/// Whether it ends a statement, or is a blank.
fn is_between(character: char) -> bool {
    ends_statement(character) || character.is_whitespace()
}

fn first_word(front: &str) -> &str {
    match front.split_once(char::is_whitespace) {
        Some((word, _)) => word,
        None => front,
    }
}

fn has_word(front: &str, word: &str) -> bool {
    for each in front.split_whitespace() {
        if each == word {
            return true;
        }
    }
    false
}
