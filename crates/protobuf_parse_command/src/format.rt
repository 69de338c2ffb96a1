//! How what is told is written: as lines for people, or for programs.

use crate::colors::{BOLD, PLAIN, color_of};
use protobuf_parse_diagnostics::{Diagnostic, Place};
use std::alloc::{AllocError, Global};

/// The forms of a line.
#[derive(Clone, Copy, Debug, PartialEq, Eq)]
pub enum ErrorFormat {
    /// As compilers tell it: the `Display` of a [`Diagnostic`].
    Text,
    /// The same for people at a terminal: in colours, and with the line of the text below.
    Shown,
    /// An object of JSON (RFC 8259).
    Json,
    /// A command of GitHub's workflows, which shows it beside the line.
    Github,
}

/// Adds a line that tells it.
pub fn put_told(
    alloc: Global,
    text: &mut String,
    format: ErrorFormat,
    told: &Diagnostic,
) -> Result<(), AllocError> {
    match format {
        ErrorFormat::Text => write!(text, "{told}")?,
        ErrorFormat::Shown => put_shown(alloc, text, told)?,
        ErrorFormat::Json => put_json(text, told)?,
        ErrorFormat::Github => put_command(text, told)?,
    }
    text.push('\n')
}

/// The line, with its place in bold letters and its severity in a colour.
fn put_shown(alloc: Global, text: &mut String, told: &Diagnostic) -> Result<(), AllocError> {
    let line = format!(in alloc; "{told}")?;
    let front = front_of(alloc, told)?;
    let severity = format!(in alloc; "{}: ", told.severity)?;
    let parts = (line.strip_prefix(&front), front.strip_suffix(&severity));
    let (Some(words), Some(place)) = parts else {
        return text.push_str(&line);
    };
    let color = color_of(told.severity);
    write!(text, "{BOLD}{place}{PLAIN}{color}{severity}{PLAIN}{words}")
}

/// What stands in front of the message: `a.proto:1:2: error: `.
fn front_of(alloc: Global, told: &Diagnostic) -> Result<String, AllocError> {
    let front = Diagnostic {
        file: told.file.clone()?,
        place: told.place,
        severity: told.severity,
        code: String::new(alloc),
        message: String::new(alloc),
        help: None,
    };
    format!(in alloc; "{front}")
}

/// `{"file":"a.proto","line":1,"column":2,"severity":"error","code":"E3","message":"..","help":null}`
fn put_json(text: &mut String, told: &Diagnostic) -> Result<(), AllocError> {
    text.push_str("{\"file\":")?;
    put_string(text, &told.file)?;
    match told.place {
        Some(Place { line, col }) => write!(text, ",\"line\":{line},\"column\":{col}")?,
        None => text.push_str(",\"line\":null,\"column\":null")?,
    }
    let severity = told.severity;
    write!(text, ",\"severity\":\"{severity}\",\"code\":")?;
    put_string(text, &told.code)?;
    text.push_str(",\"message\":")?;
    put_string(text, &told.message)?;
    text.push_str(",\"help\":")?;
    match &told.help {
        Some(help) => put_string(text, help)?,
        None => text.push_str("null")?,
    }
    text.push('}')
}

/// A string of JSON.
fn put_string(text: &mut String, words: &str) -> Result<(), AllocError> {
    text.push('"')?;
    for character in words.chars() {
        put_character(text, character)?;
    }
    text.push('"')
}

fn put_character(text: &mut String, character: char) -> Result<(), AllocError> {
    match character {
        '"' => text.push_str("\\\""),
        '\\' => text.push_str("\\\\"),
        _ if character.is_control() => {
            let number = u32::from(character);
            write!(text, "\\u{number:04x}")
        }
        _ => text.push(character),
    }
}

/// `::error file=a.proto,line=1,col=2,title=E3::MESSAGE`
fn put_command(text: &mut String, told: &Diagnostic) -> Result<(), AllocError> {
    let severity = told.severity;
    write!(text, "::{severity} file=")?;
    put_part(text, &told.file, true)?;
    if let Some(Place { line, col }) = told.place {
        write!(text, ",line={line},col={col}")?;
    }
    text.push_str(",title=")?;
    put_part(text, &told.code, true)?;
    text.push_str("::")?;
    put_part(text, &told.message, false)?;
    if let Some(help) = &told.help {
        text.push_str("; ")?;
        put_part(text, help, false)?;
    }
    Ok(())
}

/// A part of a command, with what ends it as its number; a property ends at a comma, too.
fn put_part(text: &mut String, words: &str, is_property: bool) -> Result<(), AllocError> {
    for character in words.chars() {
        match character {
            '%' | '\r' | '\n' => put_percent(text, character)?,
            ':' | ',' if is_property => put_percent(text, character)?,
            _ => text.push(character)?,
        }
    }
    Ok(())
}

fn put_percent(text: &mut String, character: char) -> Result<(), AllocError> {
    let number = u32::from(character);
    write!(text, "%{number:02X}")
}
