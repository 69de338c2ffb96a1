//! Why files can't be read, in the words of whoever reads them.

ghost use Rattle.std.specs.Prelude.{◌≡◌, OnOk, is_some};
ghost use Rattle.protobuf_parse_diagnostics.specs.Told.{KeepsLine, is_reading};

use crate::diagnostic::Diagnostic;
use crate::faults::text_diagnostic;
use protobuf_parse_run::{ReadInputFault, ResolveFault, RunFault};
use protobuf_parse_syntax::{ParserError, ParserErrorWithLocation};
use std::alloc::{AllocError, Global};

/// Why a file can't be read.
#[derive(Debug, PartialEq, Eq, Drop)]
pub enum Reason {
    /// In the system's words.
    Because(String),
    /// It has more bytes than a text may have, so it was left.
    TooLong,
}

/// Who knows why files can't be read.
pub trait Reasons {
    /// Why the file of this path, as a resolver or an input names it, can't be read, if that is
    /// known. The one error is that memory is short.
    fn reason(&self, alloc: Global, path: &str) -> Result<Option<Reason>, AllocError>;
}

/// Of no file it is known.
#[derive(Clone, Copy, Debug)]
pub struct NoReasons;

impl Reasons for NoReasons {
    fn reason(&self, _alloc: Global, _path: &str) -> Result<Option<Reason>, AllocError> {
        Ok(None)
    }
}

/// Says why, in what is told of the fault, where that is that a file could not be read. One that is
/// too long has S20 in its place. The one error is that memory is short.
pub fn add_reason<W: Reasons>(
    alloc: Global,
    reasons: &W,
    fault: &RunFault,
    told: &mut Diagnostic,
) -> Result<(), AllocError>
    ensures { OnOk result (KeepsLine (is_reading fault.now) told.old told.new) }
{
    let Some(path) = unread_path(fault) else {
        return Ok(());
    };
    match reasons.reason(alloc, path)? {
        Some(Reason::Because(why)) => write!(told.message, ": {why}"),
        Some(Reason::TooLong) => {
            let error = ParserErrorWithLocation {
                error: ParserError::TextTooLong,
                line: 1,
                col: 1,
            };
            *told = text_diagnostic(alloc, path, "", &error)?;
            Ok(())
        }
        None => Ok(()),
    }
}

/// The path of the file that could not be read.
fn unread_path(fault: &RunFault) -> Option<&str>
    ensures { is_some result ≡ is_reading fault.now }
{
    match fault {
        RunFault::CouldNotReadFile(path, ReadInputFault::Failed) => Some(path.as_str()),
        RunFault::Resolver(_, ResolveFault::CouldNotRead(path)) => Some(path.as_str()),
        _ => None,
    }
}
