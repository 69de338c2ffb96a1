//! What is told, with its texts beside it.

use crate::shapes::{PbFault, PbSpan};
use protobuf_parse_diagnostics::{Diagnostic, Severity};
use std::alloc::{AllocError, Global};

/// The severity of an error.
const ERROR: u32 = 1;

/// That of a warning.
const WARNING: u32 = 2;

/// Faults, and the texts in which theirs are spans.
#[derive(Drop)]
pub struct Told {
    pub texts: Vec<u8>,
    pub faults: Vec<PbFault>,
}

/// The same for C. The one error is that memory is short.
pub fn put_told(alloc: Global, told: &[Diagnostic]) -> Result<Told, AllocError> {
    let mut texts = Vec::new(alloc);
    let mut faults = Vec::with_capacity(alloc, told.len())?;
    for each in told {
        faults.push(put_fault(&mut texts, each)?)?;
    }
    Ok(Told { texts, faults })
}

fn put_fault(texts: &mut Vec<u8>, told: &Diagnostic) -> Result<PbFault, AllocError> {
    let (line, column) = match told.place {
        Some(place) => (place.line, place.col),
        None => (0, 0),
    };
    let severity = match told.severity {
        Severity::Error => ERROR,
        Severity::Warning => WARNING,
    };
    Ok(PbFault {
        file: put_text(texts, &told.file)?,
        line,
        column,
        severity,
        code: put_text(texts, &told.code)?,
        message: put_text(texts, &told.message)?,
        help: put_text(texts, told.help.as_deref().unwrap_or(""))?,
    })
}

/// Adds the text, and answers where it stands.
pub fn put_text(texts: &mut Vec<u8>, text: &str) -> Result<PbSpan, AllocError> {
    let at = texts.len();
    texts.extend_from_slice(text.as_bytes())?;
    Ok(PbSpan {
        at,
        len: text.len(),
    })
}
