//! Descriptors as `.proto` files.

use crate::arguments::Arguments;
use protobuf_parse::{FileDescriptorProto, ProtoPathBuf};
use protobuf_parse_index::Index;
use protobuf_parse_proto_text::proto_text;
use std::alloc::{AllocError, Global};
use std::collections::BTreeSet;

/// The texts of the inputs among these files, or with imports those of all, in their order. Where
/// there are several, a comment with its path stands before each, and an empty line between them.
/// The one error is that memory is short.
pub fn texts_of(
    alloc: Global,
    arguments: &Arguments,
    inputs: &[ProtoPathBuf],
    files: &[FileDescriptorProto],
) -> Result<String, AllocError> {
    let index = Index::of(alloc, files)?;
    let chosen = chosen_of(alloc, arguments, inputs, files)?;
    let mut text = String::new(alloc);
    if let [file] = chosen.as_slice() {
        text.push_str(&proto_text(alloc, &index, file)?)?;
        return Ok(text);
    }
    let mut before = "// ";
    for file in &chosen {
        text.push_str(before)?;
        text.push_str(path_of(file))?;
        text.push('\n')?;
        text.push_str(&proto_text(alloc, &index, file)?)?;
        before = "\n// ";
    }
    Ok(text)
}

/// The inputs among the files, or with imports all.
fn chosen_of<'a>(
    alloc: Global,
    arguments: &Arguments,
    inputs: &[ProtoPathBuf],
    files: &'a [FileDescriptorProto],
) -> Result<Vec<&'a FileDescriptorProto>, AllocError> {
    let mut names = BTreeSet::new(alloc);
    for input in inputs {
        names.insert(input.as_path().to_str())?;
    }
    let mut chosen = Vec::new(alloc);
    for file in files {
        if arguments.include_imports || names.contains(path_of(file)) {
            chosen.push(file)?;
        }
    }
    Ok(chosen)
}

fn path_of(file: &FileDescriptorProto) -> &str {
    match &file.name {
        Some(name) => name,
        None => "",
    }
}
