//! What is told of a file, as compilers tell it.

ghost use Rattle.std.specs.Prelude.{OnOk};
ghost use Rattle.protobuf_parse_diagnostics.specs.Arranged.{IsArranged};

use protobuf_parse_syntax::Place;
use std::alloc::AllocError;
use std::fmt;

/// How bad it is.
#[derive(Clone, Copy, Debug, PartialEq, Eq, PartialOrd, Ord)]
pub enum Severity {
    /// The file can't be taken as it is.
    Error,
    /// The file can be taken, and yet somebody should look.
    Warning,
}

impl fmt::Display for Severity {
    fn fmt<W: fmt::Write>(&self, f: &mut fmt::Formatter<W>) -> fmt::Result {
        f.write_str(match self {
            Severity::Error => "error",
            Severity::Warning => "warning",
        })
    }
}

/// What is told of a file: by this library of faults and rules, and by a linter of its own rules.
///
/// Displayed it is one line, as `shop/order.proto:12:3: error: "Oder" is not defined [E3]`. Without
/// a place the two numbers are left out, and without a code the brackets. A help stands behind the
/// message, after a semicolon. A control character in a text is displayed as its number, and so is
/// one that shows nothing or turns the direction of a text, so that nothing breaks the line or makes
/// it read as another.
#[derive(Debug, PartialEq, Eq, Drop)]
pub struct Diagnostic {
    /// The path by which people open the file.
    pub file: String,
    /// Where in the file, both numbers from 1, the column in characters.
    pub place: Option<Place>,
    pub severity: Severity,
    /// A short name that stays the same, by which the rule can be looked up. Empty where there is
    /// none.
    pub code: String,
    /// What is wrong, in a sentence without a full stop.
    pub message: String,
    /// What would help, where that can be told.
    pub help: Option<String>,
}

impl fmt::Display for Diagnostic {
    fn fmt<W: fmt::Write>(&self, f: &mut fmt::Formatter<W>) -> fmt::Result {
        write_on_line(f, &self.file)?;
        if let Some(Place { line, col }) = self.place {
            write!(f, ":{line}:{col}")?;
        }
        let severity = self.severity;
        write!(f, ": {severity}: ")?;
        write_words(f, &self.message)?;
        if let Some(help) = &self.help {
            f.write_str("; ")?;
            write_words(f, help)?;
        }
        if self.code.is_empty() {
            return Ok(());
        }
        f.write_str(" [")?;
        write_on_line(f, &self.code)?;
        f.write_str("]")
    }
}

/// How many characters of a word are written at most, and how many of these at its beginning.
const MOST_OF_WORD: usize = 200;

const FRONT_OF_WORD: usize = 100;

/// Writes the text word by word, of a long one its beginning and its end.
fn write_words<W: fmt::Write>(f: &mut fmt::Formatter<W>, text: &str) -> fmt::Result {
    for (number, word) in text.split(' ').enumerate() {
        if number > 0 {
            f.write_str(" ")?;
        }
        write_word(f, word)?;
    }
    Ok(())
}

fn write_word<W: fmt::Write>(f: &mut fmt::Formatter<W>, word: &str) -> fmt::Result {
    // No word of so few bytes has more characters.
    if word.len() <= MOST_OF_WORD {
        return write_on_line(f, word);
    }
    let many = word.chars().count();
    if many <= MOST_OF_WORD {
        return write_on_line(f, word);
    }
    for character in word.chars().take(FRONT_OF_WORD) {
        write_character(f, character)?;
    }
    f.write_str("...")?;
    let back = MOST_OF_WORD - FRONT_OF_WORD - 3;
    for character in word.chars().skip(many.saturating_sub(back)) {
        write_character(f, character)?;
    }
    Ok(())
}

/// Writes the text with each control character as its number: `\u{a}`.
fn write_on_line<W: fmt::Write>(f: &mut fmt::Formatter<W>, text: &str) -> fmt::Result {
    for character in text.chars() {
        write_character(f, character)?;
    }
    Ok(())
}

fn write_character<W: fmt::Write>(f: &mut fmt::Formatter<W>, character: char) -> fmt::Result {
    if character.is_control() || is_unseen(character) {
        let number = u32::from(character);
        write!(f, "\\u{{{number:x}}}")
    } else {
        write!(f, "{character}")
    }
}

/// Whether the character shows nothing, or turns the direction of those behind it: a line with it
/// reads as another one.
fn is_unseen(character: char) -> bool {
    matches!(
        character,
        '\u{ad}'
            | '\u{61c}'
            | '\u{200b}'..='\u{200f}'
            | '\u{2028}'..='\u{202e}'
            | '\u{2060}'..='\u{206f}'
            | '\u{feff}'
    )
}

/// Puts diagnostics in the order in which people read them, and keeps one of those that are equal:
/// by their files, and in a file by their places, those without a place first. Those of one place
/// stay in the order in which they came. The one error is that memory is short.
pub fn arrange(diagnostics: &mut Vec<Diagnostic>) -> Result<(), AllocError>
    ensures { OnOk result (IsArranged ⟦<Diagnostic as PartialEq>⟧.eq
        diagnostics.old.items diagnostics.new.items) }
{
    diagnostics.sort_by(|a, b| order_of(a).cmp(&order_of(b)))?;
    diagnostics.dedup();
    Ok(())
}

/// By what diagnostics are ordered: no place is a line and a column of 0.
fn order_of(diagnostic: &Diagnostic) -> (&str, u32, u32) {
    match diagnostic.place {
        Some(Place { line, col }) => (diagnostic.file.as_str(), line, col),
        None => (diagnostic.file.as_str(), 0, 0),
    }
}
