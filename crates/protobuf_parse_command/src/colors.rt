//! Colours of a terminal, by the escapes of ECMA-48.

use protobuf_parse_diagnostics::Severity;

pub const PLAIN: &str = "\u{1b}[0m";

pub const BOLD: &str = "\u{1b}[1m";

pub const CARET: &str = "\u{1b}[1;32m";

/// The colour in which it is told how bad something is.
pub fn color_of(severity: Severity) -> &'static str {
    match severity {
        Severity::Error => "\u{1b}[1;31m",
        Severity::Warning => "\u{1b}[1;33m",
    }
}
