//! What is told on standard error.

ghost use Rattle.std.specs.Prelude.{◌≡◌};
ghost use Rattle.std.specs.List.{list_any};
ghost use Rattle.protobuf_parse_command.specs.Made.{is_fatal};

use crate::format::{ErrorFormat, put_told};
use protobuf_parse_diagnostics::{Diagnostic, Severity};
use std::alloc::{AllocError, Global};

/// How many diagnostics people are told.
pub const MOST_TOLD: usize = 1000;

/// Whether one of them is an error, or a warning where these are as bad.
pub fn has_fatal(told: &[Diagnostic], fatal_warnings: bool) -> bool
    ensures { result ≡ list_any (is_fatal fatal_warnings) told.now }
{
    for each in told {
        if is_fatal(each, fatal_warnings) {
            return true;
        }
    }
    false
}

fn is_fatal(told: &Diagnostic, fatal_warnings: bool) -> bool
    ensures { result ≡ is_fatal fatal_warnings told.now }
{
    match told.severity {
        Severity::Error => true,
        Severity::Warning => fatal_warnings,
    }
}

/// A line for each of the first 1,000, its excerpt below it, and then one that says how many more
/// there are; for programs a line for each.
pub fn lines_of(
    alloc: Global,
    format: ErrorFormat,
    told: &[Diagnostic],
    excerpts: &[String],
) -> Result<String, AllocError> {
    let most = match format {
        ErrorFormat::Text | ErrorFormat::Shown => MOST_TOLD,
        ErrorFormat::Json | ErrorFormat::Github => told.len(),
    };
    let mut text = String::new(alloc);
    for (i, each) in told.iter().take(most).enumerate() {
        put_told(alloc, &mut text, format, each)?;
        if let Some(excerpt) = excerpts.get(i) {
            text.push_str(excerpt)?;
        }
    }
    let more = told.len().saturating_sub(most);
    if more > 0 {
        write!(text, "and {more} more\n")?;
    }
    Ok(text)
}
