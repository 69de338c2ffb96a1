//! All that is wrong in a file by itself.

use anyhow::Result;
use protobuf_parse_elaboration::elaborate_all;
use protobuf_parse_model::{Declarations, ElabError, Seen, WithoutCustoms};
use protobuf_parse_syntax::{FileTree, parse_file};
use std::alloc::{AllocError, Global};

/// Every fault of the text but those of its custom options, each with its place; or `ok`.
pub fn checked(alloc: Global, text: &str) -> Result<String> {
    let tree = match parse_file(alloc, text) {
        Ok(tree) => tree,
        Err(error) => return Ok(format!(in alloc; "{error}")?),
    };
    let mut declarations = Declarations::new(alloc);
    declarations.add(alloc, 0, &tree)?;
    let seen = Seen {
        declarations: &declarations,
        sight: &[0],
        reach: &[0],
    };
    let mut faults = Vec::new(alloc);
    elaborate_all(alloc, &mut faults, "f.proto", &tree, &seen, &WithoutCustoms)?;
    Ok(told(alloc, &faults)?)
}

fn told(alloc: Global, faults: &[ElabError]) -> Result<String, AllocError> {
    if faults.is_empty() {
        return String::from_str(alloc, "ok");
    }
    let mut out = String::new(alloc);
    for fault in faults {
        if !out.is_empty() {
            out.push_str("; ")?;
        }
        put_fault(&mut out, fault)?;
    }
    Ok(out)
}

/// The fault with its place: `1:9 E3 NotFoundByRelPath: X`.
pub fn put_fault(text: &mut String, fault: &ElabError) -> Result<(), AllocError> {
    let line = fault.place.line;
    let col = fault.place.col;
    write!(text, "{line}:{col} {fault}")
}
