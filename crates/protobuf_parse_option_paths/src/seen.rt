//! Which files a file sees.

use protobuf_parse_index::Index;
use protobuf_parse_model::FileDescriptorProto;
use std::alloc::{AllocError, Global};
use std::collections::BTreeSet;

/// The proto paths of the files that a file of the index sees: its own, those that it imports, and
/// what these import publicly. The one error is that memory is short.
///
/// ```text
/// let seen = seen_paths(alloc, &index, file)?;
/// ```
pub fn seen_paths<'a>(
    alloc: Global,
    index: &Index<'a>,
    file: &'a FileDescriptorProto,
) -> Result<BTreeSet<&'a str>, AllocError> {
    let mut seen: BTreeSet<&str> = BTreeSet::new(alloc);
    if let Some(name) = &file.name {
        seen.insert(name.as_str())?;
    }
    // What is yet to be gone through for its public imports.
    let mut ahead: Vec<&str> = Vec::new(alloc);
    for import in &file.dependency {
        add(&mut seen, &mut ahead, import)?;
    }
    // Each file is gone through once, so no more turns are taken than there are files.
    for _turn in 0..index.files().len() {
        let Some(path) = ahead.pop() else {
            break;
        };
        if let Some(file) = index.file(path) {
            add_public(&mut seen, &mut ahead, file)?;
        }
    }
    Ok(seen)
}

/// Adds what the file imports publicly.
fn add_public<'a>(
    seen: &mut BTreeSet<&'a str>,
    ahead: &mut Vec<&'a str>,
    file: &'a FileDescriptorProto,
) -> Result<(), AllocError> {
    for position in &file.public_dependency {
        let Ok(position) = usize::try_from(*position) else {
            continue;
        };
        if let Some(import) = file.dependency.get(position) {
            add(seen, ahead, import)?;
        }
    }
    Ok(())
}

/// Adds the path, if it is not there.
fn add<'a>(
    seen: &mut BTreeSet<&'a str>,
    ahead: &mut Vec<&'a str>,
    path: &'a str,
) -> Result<(), AllocError> {
    if seen.insert(path)? {
        ahead.push(path)?;
    }
    Ok(())
}
