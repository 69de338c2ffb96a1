//! What the linter tells of a declaration.

use crate::texts::Linted;
use anyhow::Result;
use protobuf_parse::Place;
use protobuf_parse_diagnostics::{Diagnostic, Severity};
use protobuf_parse_locations::asks_to_ignore;
use protobuf_parse_source_info::BytePlace;
use std::alloc::Global;

/// What one of the linter's rules says.
#[derive(Drop)]
pub struct Finding {
    pub rule: &'static str,
    pub message: String,
    /// What to do.
    pub help: String,
}

/// Tells it at the name of the declaration that has the full name, as a warning; or nothing, where
/// a comment of the declaration has `lint:ignore` and the rule.
pub fn tell(
    alloc: Global,
    told: &mut Vec<Diagnostic>,
    file: &Linted<'_>,
    full_name: &str,
    finding: Finding,
) -> Result<()> {
    let locations = &file.locations;
    if let Some(location) = locations.location(full_name) {
        if asks_to_ignore(location, finding.rule) {
            return Ok(());
        }
    }
    let name = locations.name(full_name);
    told.push(Diagnostic {
        file: String::from_str(alloc, file.text.origin)?,
        place: name.map(|name| place_in(&file.text.lines, name.span.start)),
        severity: Severity::Warning,
        code: String::from_str(alloc, finding.rule)?,
        message: finding.message,
        help: Some(finding.help),
    })?;
    Ok(())
}

/// The place as people count: lines and characters from 1.
fn place_in(lines: &[&str], at: BytePlace) -> Place {
    let line = usize::try_from(at.line).unwrap_or(usize::MAX);
    let mut column: u64 = 0;
    let mut col: u32 = 1;
    for byte in lines.get(line).copied().unwrap_or("").bytes() {
        if column >= at.column {
            break;
        }
        // A tab goes to the next multiple of 8, and a character counts once.
        let step = if byte == b'\t' { 8 - column % 8 } else { 1 };
        column = column.saturating_add(step);
        if byte & 0xc0 != 0x80 {
            col = col.saturating_add(1);
        }
    }
    Place {
        line: u32::try_from(at.line.saturating_add(1)).unwrap_or(u32::MAX),
        col,
    }
}
