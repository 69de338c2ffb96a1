//! What could have stood in place of an unexpected token.

use crate::context::context_of;
use crate::scan::place_behind;
use protobuf_parse_expected::{Verdict, verdicts};
use protobuf_parse_syntax::{ParserError, Place, parse_file};
use std::alloc::{AllocError, Global};

/// How many bytes the context of the token may have: it is read some five hundred times.
const MOST_OF_CONTEXT: usize = 4096;

/// The symbols that are asked for, each as it is shown.
const SYMBOLS: [(&str, &str); 13] = [
    (";", "`;`"),
    ("{", "`{`"),
    ("}", "`}`"),
    ("[", "`[`"),
    ("]", "`]`"),
    ("(", "`(`"),
    (")", "`)`"),
    ("<", "`<`"),
    (">", "`>`"),
    ("=", "`=`"),
    (",", "`,`"),
    (".", "`.`"),
    (":", "`:`"),
];

/// The words that are asked for where no name can stand, each as it is shown.
const WORDS: [(&str, &str); 10] = [
    ("to", "`to`"),
    ("max", "`max`"),
    ("rpc", "`rpc`"),
    ("returns", "`returns`"),
    ("stream", "`stream`"),
    ("weak", "`weak`"),
    ("public", "`public`"),
    ("option", "`option`"),
    ("map", "`map`"),
    ("message", "`message`"),
];

/// A token of each class: a name, one with a capital, a number and a string that is a version and a
/// path.
const NAME: &str = "x";

const CAPITAL: &str = "X";

const NUMBER: &str = "1";

const TEXT: &str = "\"proto3\"";

/// `expected a number or `;``, where that was found: the context of the token must be short, and
/// without a fault. The one error is that memory is short.
pub fn expected_at(alloc: Global, text: &str, place: Place) -> Result<Option<String>, AllocError> {
    let context = context_of(alloc, text, place)?;
    if context.len() > MOST_OF_CONTEXT || !is_open(alloc, &context)? {
        return Ok(None);
    }
    let stands = Stands::behind(alloc, &context)?;
    let shown = shown(alloc, &stands)?;
    joined(alloc, &shown)
}

/// Whether nothing is wrong with the front but that it ends.
fn is_open(alloc: Global, front: &str) -> Result<bool, AllocError> {
    match parse_file(alloc, front) {
        Ok(_) => Ok(true),
        Err(error) => match error.error {
            ParserError::Memory => Err(AllocError),
            _ => {
                let Place { line, col } = place_behind(front);
                Ok(error.line == line && error.col == col)
            }
        },
    }
}

/// Which tokens can stand behind a front.
#[derive(Drop)]
struct Stands {
    tokens: Vec<&'static str>,
    verdicts: Vec<Verdict>,
}

impl Stands {
    fn behind(alloc: Global, front: &str) -> Result<Self, AllocError> {
        let mut tokens = Vec::new(alloc);
        for (token, _) in SYMBOLS {
            tokens.push(token)?;
        }
        for (token, _) in WORDS {
            tokens.push(token)?;
        }
        for token in [NAME, CAPITAL, NUMBER, TEXT] {
            tokens.push(token)?;
        }
        let verdicts = verdicts(alloc, front, &tokens)?;
        Ok(Stands { tokens, verdicts })
    }

    /// Whether the token can.
    fn can(&self, token: &str) -> bool {
        for (each, verdict) in self.tokens.iter().zip(&self.verdicts) {
            if *each == token {
                return *verdict == Verdict::Can;
            }
        }
        false
    }

    /// Whether a statement can: of a file, or of a body, which a brace can close. In a message
    /// constant a name can stand beside the brace, and a bracket or a comma too.
    fn is_statement(&self) -> bool {
        let of_file = self.can(";") && !self.can("}");
        let of_body = self.can("}") && !self.can("[");
        self.can("message") && !self.can(",") && (of_file || of_body)
    }
}

/// What can stand there, as it is shown.
fn shown(alloc: Global, stands: &Stands) -> Result<Vec<&'static str>, AllocError> {
    let mut shown = Vec::new(alloc);
    if stands.is_statement() {
        shown.push("a statement")?;
        if stands.can("}") {
            shown.push("`}`")?;
        }
        return Ok(shown);
    }
    // Where statements can stand and no names, the one before goes on, whose `;` is left out.
    let is_unended = stands.can("message") && !stands.can(NAME);
    if stands.can(NAME) {
        shown.push("a name")?;
    } else if stands.can(CAPITAL) {
        shown.push("a name that begins with a capital")?;
    } else if !is_unended {
        for (word, as_shown) in WORDS {
            if stands.can(word) {
                shown.push(as_shown)?;
            }
        }
    }
    if stands.can(NUMBER) {
        shown.push("a number")?;
    }
    if stands.can(TEXT) {
        shown.push("a string")?;
    }
    for (symbol, as_shown) in SYMBOLS {
        let is_end = is_unended && symbol == "}";
        if stands.can(symbol) && !is_end {
            shown.push(as_shown)?;
        }
    }
    Ok(shown)
}

/// `expected A, B or C`; none where there is nothing.
fn joined(alloc: Global, shown: &[&str]) -> Result<Option<String>, AllocError> {
    let mut text = String::new(alloc);
    for (number, each) in shown.iter().enumerate() {
        let before = if number == 0 {
            "expected "
        } else if number.saturating_add(1) == shown.len() {
            " or "
        } else {
            ", "
        };
        text.push_str(before)?;
        text.push_str(each)?;
    }
    if text.is_empty() {
        Ok(None)
    } else {
        Ok(Some(text))
    }
}
