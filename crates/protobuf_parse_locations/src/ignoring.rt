//! Comments that ask linters to ignore rules.

ghost use Rattle.std.specs.Prelude.{◌≡◌, bytes_eq, drop, map, option_map};
ghost use Rattle.std.specs.List.{list_any};
ghost use Rattle.protobuf_parse_source_info.specs.Views.{comment_bytes, location_view};
ghost use Rattle.protobuf_parse_locations.specs.Ignoring as spec;

use protobuf_parse_source_info::Location;

/// Whether a comment of the declaration asks to ignore the rule of that word: one in front of it,
/// behind its head or detached has a line `lint:ignore` with words behind it, of which one is the
/// word. Spaces, tabs and carriage returns divide words, and may stand around the line.
///
/// ```text
/// // lint:ignore enum_zero_value name_case
/// enum color { RED = 0; }
/// ```
///
/// ```text
/// if let Some(location) = locations.location(".shop.color") {
///     if asks_to_ignore(location, "name_case") { return Ok(()); }
/// }
/// ```
pub fn asks_to_ignore(location: &Location<'_>, word: &str) -> bool
    ensures { result ≡ spec.asks_to_ignore word.now (location_view location.now) }
{
    let word = word.as_bytes();
    any_asks(&location.leading_comments, word)
        || any_asks(&location.trailing_comments, word)
        || have_asking(&location.leading_detached_comments, word)
}

/// Whether the comment, if there is one, asks for the word.
fn any_asks(comment: &Option<Vec<u8>>, word: &[u8]) -> bool
    ensures { result ≡ spec.any_asks word.now (option_map comment_bytes comment.now) }
{
    match comment {
        Some(comment) => comment_asks(comment, word),
        None => false,
    }
}

/// Whether one of the comments does.
fn have_asking(comments: &[Vec<u8>], word: &[u8]) -> bool
    ensures { result ≡ list_any (spec.comment_asks word.now) (map comment_bytes comments.now) }
{
    comments.iter().any(|comment| comment_asks(comment, word))
}

/// Whether a line of the comment does.
fn comment_asks(comment: &[u8], word: &[u8]) -> bool
    ensures { result ≡ spec.comment_asks word.now comment.now }
{
    comment
        .split(|byte| *byte == b'\n')
        .any(|line| line_asks(line, word))
}

/// Whether the line asks for the word.
fn line_asks(line: &[u8], word: &[u8]) -> bool
    ensures { result ≡ spec.line_asks word.now line.now }
{
    begins_with_ignore(line) && has_behind_first(line, word)
}

/// Whether the first word of the line is the one that asks.
fn begins_with_ignore(line: &[u8]) -> bool
    ensures { result ≡ spec.begin_with_ignore (spec.words_of line.now) }
{
    let first = line
        .split(|byte| is_blank(*byte))
        .find(|word| !word.is_empty());
    match first {
        Some(first) => first == b"lint:ignore".as_slice(),
        None => false,
    }
}

/// Whether the word is among those behind the first word of the line.
fn has_behind_first(line: &[u8], word: &[u8]) -> bool
    ensures { result ≡ list_any (bytes_eq word.now) (drop 1 (spec.words_of line.now)) }
{
    line.split(|byte| is_blank(*byte))
        .filter(|part| !part.is_empty())
        .skip(1)
        .any(|each| word == each)
}

fn is_blank(byte: u8) -> bool
    ensures { result ≡ spec.is_blank byte }
{
    matches!(byte, b' ' | b'\t' | b'\r')
}
