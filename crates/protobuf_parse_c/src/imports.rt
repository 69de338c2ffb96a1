//! What a text imports.

use crate::shapes::{PbSizes, PbSpan};
use crate::told::put_text;
use crate::{DONE, NO_MEMORY, NO_ROOM, REFUSED};
use protobuf_parse::ParserError;
use protobuf_parse::pure::parse_dependencies;
use std::alloc::{AllocError, Global};
use std::str;

/// Paths, and the texts in which they are spans.
#[derive(Drop)]
struct Imports {
    texts: Vec<u8>,
    paths: Vec<PbSpan>,
}

/// Copies what the text imports to where the caller has room, and answers the status.
pub fn imported(
    alloc: Global,
    text: &[u8],
    texts: &mut [u8],
    imports: &mut [PbSpan],
    sizes: &mut PbSizes,
) -> i32 {
    *sizes = PbSizes {
        set: 0,
        texts: 0,
        faults: 0,
    };
    match imports_of(alloc, text) {
        Ok(Some(found)) => copy_imports(&found, texts, imports, sizes),
        Ok(None) => REFUSED,
        Err(_) => NO_MEMORY,
    }
}

/// What the text imports, if it has a tree.
fn imports_of(alloc: Global, text: &[u8]) -> Result<Option<Imports>, AllocError> {
    let Ok(text) = str::from_utf8(text) else {
        return Ok(None);
    };
    let found = match parse_dependencies(alloc, text) {
        Ok(file) => file.dependency,
        Err(fault) if fault.error == ParserError::Memory => return Err(AllocError),
        Err(_) => return Ok(None),
    };
    let mut imports = Imports {
        texts: Vec::new(alloc),
        paths: Vec::with_capacity(alloc, found.len())?,
    };
    for path in &found {
        imports.paths.push(put_text(&mut imports.texts, path)?)?;
    }
    Ok(Some(imports))
}

fn copy_imports(
    found: &Imports,
    texts: &mut [u8],
    imports: &mut [PbSpan],
    sizes: &mut PbSizes,
) -> i32 {
    *sizes = PbSizes {
        set: 0,
        texts: found.texts.len(),
        faults: found.paths.len(),
    };
    if found.texts.len() > texts.len() || found.paths.len() > imports.len() {
        return NO_ROOM;
    }
    let (room, _) = texts.split_at_mut(found.texts.len());
    room.copy_from_slice(&found.texts);
    let (room, _) = imports.split_at_mut(found.paths.len());
    room.copy_from_slice(&found.paths);
    DONE
}
