//! What a text imports.

use anyhow::{Result, bail};
use protobuf_parse::FileDescriptorProto;
use protobuf_parse::pure::parse_dependencies;
use std::alloc::{AllocError, Global};

/// The paths that the text imports, and then the positions of the public ones and of the weak ones,
/// each as a list; or the fault.
pub fn imports(alloc: Global, text: &str) -> Result<String> {
    match parse_dependencies(alloc, text) {
        Ok(found) => lists_alone(alloc, found),
        Err(error) => Ok(format!(in alloc; "{error}")?),
    }
}

/// The three lists of a descriptor that tells nothing else.
fn lists_alone(alloc: Global, mut found: FileDescriptorProto) -> Result<String> {
    let lists = lists_of(alloc, &found)?;
    found.dependency = Vec::new(alloc);
    found.public_dependency = Vec::new(alloc);
    found.weak_dependency = Vec::new(alloc);
    if found != nothing(alloc) {
        bail!("{lists} and {found:?}");
    }
    Ok(lists)
}

fn lists_of(alloc: Global, found: &FileDescriptorProto) -> Result<String, AllocError> {
    let paths = &found.dependency;
    let public = &found.public_dependency;
    let weak = &found.weak_dependency;
    format!(in alloc; "{paths:?} {public:?} {weak:?}")
}

/// The descriptor that tells nothing.
fn nothing(alloc: Global) -> FileDescriptorProto {
    FileDescriptorProto {
        name: None,
        package: None,
        syntax: None,
        dependency: Vec::new(alloc),
        public_dependency: Vec::new(alloc),
        weak_dependency: Vec::new(alloc),
        message_type: Vec::new(alloc),
        enum_type: Vec::new(alloc),
        service: Vec::new(alloc),
        extension: Vec::new(alloc),
        options: None,
    }
}
