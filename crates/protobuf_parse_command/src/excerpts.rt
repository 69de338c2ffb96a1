//! The lines of texts that stand below what is told of them, each with a caret under the place.

use crate::colors::{CARET, PLAIN};
use crate::format::ErrorFormat;
use protobuf_parse_diagnostics::{Diagnostic, Sources};
use protobuf_parse_syntax::Place;
use std::alloc::{AllocError, Global};
use unicode_width::UnicodeWidthChar;

/// How many characters of a line are shown at most.
const MOST_SHOWN: u32 = 120;

/// How many of these stand before the place where the line is longer.
const SHOWN_BEFORE: u32 = 60;

/// What stands in place of a character that a terminal would obey.
const REPLACEMENT: char = '\u{fffd}';

/// The excerpts of the first `most` of what is told, in order, where the format shows them; else none.
/// An excerpt is empty where there is no place, or no text was read. The one error is that memory is
/// short.
pub fn excerpts_asked(
    alloc: Global,
    format: ErrorFormat,
    told: &[Diagnostic],
    most: usize,
    sources: &Sources<'_>,
) -> Result<Vec<String>, AllocError> {
    let mut excerpts = Vec::new(alloc);
    if format != ErrorFormat::Shown {
        return Ok(excerpts);
    }
    let mut lines = Vec::new(alloc);
    for (i, each) in told.iter().take(most).enumerate() {
        // What is told stands in the order of files: the text of each is cut once.
        if is_first_of_file(told, i) {
            lines = lines_of(alloc, sources, &each.file)?;
        }
        excerpts.push(excerpt_at(alloc, &lines, each.place)?)?;
    }
    Ok(excerpts)
}

/// Whether what is told before that of this position is told of another file.
fn is_first_of_file(told: &[Diagnostic], position: usize) -> bool {
    let Some(before) = position.checked_sub(1) else {
        return true;
    };
    match (told.get(before), told.get(position)) {
        (Some(before), Some(each)) => before.file.as_str() != each.file.as_str(),
        _ => true,
    }
}

/// The lines of the text that lies there, or none.
fn lines_of<'a>(
    alloc: Global,
    sources: &Sources<'a>,
    origin: &str,
) -> Result<Vec<&'a str>, AllocError> {
    let mut lines = Vec::new(alloc);
    if let Some(source) = sources.at_origin(origin) {
        for line in source.text.split('\n') {
            lines.push(line)?;
        }
    }
    Ok(lines)
}

fn excerpt_at(alloc: Global, lines: &[&str], place: Option<Place>) -> Result<String, AllocError> {
    let mut excerpt = String::new(alloc);
    let Some(place) = place else {
        return Ok(excerpt);
    };
    if let Some(line) = line_at(lines, place.line) {
        put_excerpt(alloc, &mut excerpt, line, place)?;
    }
    Ok(excerpt)
}

/// The line of this number, from 1, if something stands on it.
fn line_at<'a>(lines: &[&'a str], number: u32) -> Option<&'a str> {
    let position = usize::try_from(number.checked_sub(1)?).ok()?;
    let line = lines.get(position)?.trim_end();
    if line.is_empty() { None } else { Some(line) }
}

/// ` 12 |   Oder order = 1;`, and below it `    |   ^`.
fn put_excerpt(
    alloc: Global,
    text: &mut String,
    line: &str,
    place: Place,
) -> Result<(), AllocError> {
    let number = format!(in alloc; "{}", place.line)?;
    let before = place.col.saturating_sub(1);
    let cut = if before < MOST_SHOWN {
        0
    } else {
        before.saturating_sub(SHOWN_BEFORE)
    };
    let mut under = String::new(alloc);
    write!(text, " {number} | ")?;
    let shown = line.chars().skip(cut as usize).take(MOST_SHOWN as usize);
    for (i, character) in shown.enumerate() {
        let character = shown_as(character);
        text.push(character)?;
        if i < before.saturating_sub(cut) as usize {
            put_blanks(&mut under, character)?;
        }
    }
    text.push('\n')?;
    for _ in 0..number.len().saturating_add(2) {
        text.push(' ')?;
    }
    write!(text, "| {under}{CARET}^{PLAIN}\n")
}

/// The character, or one that shows that a terminal would obey it.
fn shown_as(character: char) -> char {
    if character != '\t' && character.width().unwrap_or(0) == 0 {
        REPLACEMENT
    } else {
        character
    }
}

/// What is as wide as the character.
fn put_blanks(text: &mut String, character: char) -> Result<(), AllocError> {
    match character.width() {
        None => text.push('\t'),
        Some(columns) => {
            for _ in 0..columns {
                text.push(' ')?;
            }
            Ok(())
        }
    }
}
