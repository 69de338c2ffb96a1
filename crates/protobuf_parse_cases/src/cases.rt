//! Files of cases: docs/testing.md says how they are written.

use crate::notation::bytes_of;
use anyhow::{Context, Result, anyhow, bail};
use std::alloc::{AllocError, Global};
use std::mem;

/// A case: what is asked, and what is to be answered.
#[derive(Drop)]
pub struct Case {
    pub name: String,
    /// What is run.
    pub verb: String,
    /// What stands behind the verb.
    pub argument: String,
    pub files: Vec<CaseFile>,
    pub rows: Vec<Row>,
}

/// A file that a case has.
#[derive(Drop)]
pub struct CaseFile {
    pub path: String,
    pub content: Vec<u8>,
}

/// One run of a case, and its answer.
#[derive(Drop)]
pub struct Row {
    /// Where it stands in the file of cases: a line, counted from 1.
    pub line: usize,
    /// What this run is given, where it is one of several.
    pub given: Option<Vec<u8>>,
    pub wanted: Vec<u8>,
}

/// Lines below a head.
#[derive(Drop)]
struct Part<'a> {
    head: &'a str,
    /// The number of the head's line.
    line: usize,
    lines: Vec<&'a str>,
}

/// A row as it is written, its lines joined.
#[derive(Drop)]
struct RowText {
    /// The number of its first line.
    line: usize,
    text: String,
}

/// Which lines are heads.
#[derive(Clone, Copy)]
enum Head {
    /// `=== name`
    Case,
    /// `-- path --`
    Section,
}

impl Head {
    fn text_of<'a>(self, line: &'a str) -> Option<&'a str> {
        match self {
            Head::Case => line.strip_prefix("=== "),
            Head::Section => line.strip_prefix("-- ")?.strip_suffix(" --"),
        }
    }
}

/// The part before the first head, and then a part for each head.
fn parts<'a>(
    alloc: Global,
    lines: &[&'a str],
    line_before: usize,
    head: Head,
) -> Result<Vec<Part<'a>>, AllocError> {
    let mut parts = Vec::new(alloc);
    let mut part = new_part(alloc, "", line_before);
    for (i, line) in lines.iter().enumerate() {
        match head.text_of(line) {
            Some(text) => {
                let next = new_part(alloc, text, line_before.saturating_add(i).saturating_add(1));
                parts.push(mem::replace(&mut part, next))?;
            }
            None => part.lines.push(*line)?,
        }
    }
    parts.push(part)?;
    Ok(parts)
}

fn new_part<'a>(alloc: Global, head: &'a str, line: usize) -> Part<'a> {
    Part {
        head,
        line,
        lines: Vec::new(alloc),
    }
}

/// The cases of a file, in order.
pub fn cases_of(alloc: Global, content: &[u8]) -> Result<Vec<Case>> {
    let Ok(text) = std::str::from_utf8(content) else {
        bail!("the file is not UTF-8");
    };
    let lines = text.split('\n').collect::<Vec<_>>(alloc)?;
    let mut cases = Vec::new(alloc);
    for part in parts(alloc, &lines, 0, Head::Case)?.iter().skip(1) {
        cases.push(case_of(alloc, part)?)?;
    }
    Ok(cases)
}

fn case_of(alloc: Global, part: &Part<'_>) -> Result<Case> {
    let sections = parts(alloc, &part.lines, part.line, Head::Section)?;
    let mut case = Case {
        name: String::from_str(alloc, part.head)?,
        verb: String::new(alloc),
        argument: String::new(alloc),
        files: Vec::new(alloc),
        rows: Vec::new(alloc),
    };
    for (i, section) in sections.iter().enumerate() {
        let added = match section.head {
            _ if i == 0 => set_command(alloc, &mut case, section),
            "rows" => add_rows(alloc, &mut case, section),
            "want" => add_want(alloc, &mut case, section),
            _ => add_files(alloc, &mut case, section),
        };
        added.context(format_args!("line {}", section.line))?;
    }
    if case.rows.is_empty() {
        bail!("line {}: no answer is wanted", part.line);
    }
    Ok(case)
}

/// Takes the line below the case's name.
fn set_command(alloc: Global, case: &mut Case, section: &Part<'_>) -> Result<()> {
    let text = joined(alloc, &section.lines)?;
    let text = text.trim_end_matches('\n');
    if text.is_empty() || text.contains('\n') {
        bail!("a case begins with one line that says what is run");
    }
    let (verb, argument) = text.split_once(' ').unwrap_or((text, ""));
    case.verb = String::from_str(alloc, verb)?;
    case.argument = String::from_str(alloc, argument)?;
    Ok(())
}

fn add_rows(alloc: Global, case: &mut Case, section: &Part<'_>) -> Result<()> {
    let rows = row_texts(alloc, section)?;
    for row in &rows {
        let (given, wanted) = row
            .text
            .split_once(" => ")
            .ok_or_else(|| anyhow!("no ` => ` in {:?}", row.text.as_str()))?;
        case.rows.push(Row {
            line: row.line,
            given: Some(bytes_of(alloc, given, None)?),
            wanted: bytes_of(alloc, wanted, None)?,
        })?;
    }
    Ok(())
}

/// The rows of a section: a line that begins with four blanks goes on with the row before it.
fn row_texts(alloc: Global, section: &Part<'_>) -> Result<Vec<RowText>> {
    let mut rows: Vec<RowText> = Vec::new(alloc);
    for (i, line) in section.lines.iter().enumerate() {
        if let Some(more) = line.strip_prefix("    ") {
            let row = rows
                .last_mut()
                .context("no row goes on with its first line")?;
            row.text.push_str(more)?;
        } else if !line.is_empty() && !line.starts_with('#') {
            rows.push(RowText {
                line: section.line.saturating_add(i).saturating_add(1),
                text: String::from_str(alloc, line)?,
            })?;
        }
    }
    Ok(rows)
}

fn add_want(alloc: Global, case: &mut Case, section: &Part<'_>) -> Result<()> {
    let text = joined(alloc, &section.lines)?;
    case.rows.push(Row {
        line: section.line,
        given: None,
        wanted: bytes_of(alloc, text.trim_end_matches('\n'), None)?,
    })?;
    Ok(())
}

/// Adds the file whose path is the section's head, or where that has `«a..b»` one for each number
/// from a to b.
fn add_files(alloc: Global, case: &mut Case, section: &Part<'_>) -> Result<()> {
    let text = joined(alloc, &section.lines)?;
    let Some((front, rest)) = section.head.split_once('«') else {
        let path = String::from_str(alloc, section.head)?;
        return add_file(alloc, case, path, &text, None);
    };
    let (range, back) = rest.split_once('»').context("a « without its »")?;
    let (first, last) = ends_of(range).context("no range of numbers")?;
    for number in first..last {
        let path = format!(in alloc; "{front}{number}{back}")?;
        add_file(alloc, case, path, &text, Some(number))?;
    }
    Ok(())
}

fn add_file(
    alloc: Global,
    case: &mut Case,
    path: String,
    text: &str,
    number: Option<u64>,
) -> Result<()> {
    let content = bytes_of(alloc, text, number)?;
    case.files.push(CaseFile { path, content })?;
    Ok(())
}

/// The first number of a range, and the one behind its last.
fn ends_of(range: &str) -> Option<(u64, u64)> {
    let (first, last) = range.split_once("..")?;
    let last = last.parse::<u64>().ok()?;
    Some((first.parse().ok()?, last.checked_add(1)?))
}

/// The lines with line feeds between them.
fn joined(alloc: Global, lines: &[&str]) -> Result<String, AllocError> {
    let mut text = String::new(alloc);
    for (i, line) in lines.iter().enumerate() {
        if i > 0 {
            text.push('\n')?;
        }
        text.push_str(line)?;
    }
    Ok(text)
}
