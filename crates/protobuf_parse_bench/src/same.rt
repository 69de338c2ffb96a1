//! One text for all paths, and option bytes with many small messages.

use anyhow::{Context, Result, anyhow};
use protobuf_parse::pure::parse_and_typecheck_custom;
use protobuf_parse::{
    FileDescriptorProto, ProtoPath, ProtoPathBuf, ProtoPathResolver, ProtobufAbsPathRef,
    ResolveFault, ResolvedProtoFile, RunFault, read_custom,
};
use std::alloc::{AllocError, Global};
use std::fmt;

/// Answers each path with the same text, but for those of the library's own files.
#[derive(Clone, Copy)]
struct Same<'t> {
    text: &'t [u8],
}

impl<'t> Same<'t> {
    fn file(&self, alloc: Global, path: &str) -> Result<ResolvedProtoFile, AllocError> {
        Ok(ResolvedProtoFile {
            path: String::from_str(alloc, path)?,
            content: Vec::from_slice(alloc, self.text)?,
        })
    }
}

impl<'t> fmt::Display for Same<'t> {
    fn fmt<W: fmt::Write>(&self, f: &mut fmt::Formatter<W>) -> fmt::Result {
        f.write_str("Same")
    }
}

impl<'t> ProtoPathResolver for Same<'t> {
    ghost may_answer = { λ _ _ _. Unit {0} };

    fn resolve(
        &self,
        alloc: Global,
        path: ProtoPath<'_>,
    ) -> Result<Option<ResolvedProtoFile>, ResolveFault> {
        if path.to_str().starts_with("google/") {
            return Ok(None);
        }
        match self.file(alloc, path.to_str()) {
            Ok(file) => Ok(Some(file)),
            Err(_) => Err(ResolveFault::Memory),
        }
    }
}

fn path_of(alloc: Global, text: &str) -> Result<ProtoPathBuf> {
    match ProtoPathBuf::new(String::from_str(alloc, text)?) {
        Ok(path) => Ok(path),
        Err(error) => Err(anyhow!("{text:?}: {error}")),
    }
}

/// The descriptors of a file of this text and what it imports, or why there are none.
pub fn described(alloc: Global, text: &[u8]) -> Result<Result<Vec<FileDescriptorProto>, RunFault>> {
    let paths = vec![in alloc; path_of(alloc, "f.proto")?]?;
    Ok(parse_and_typecheck_custom(alloc, &paths, &Same { text }))
}

/// How many descriptors there are of the files that the lines name, each of which has this text.
pub fn load_same(alloc: Global, text: &[u8], lines: &str) -> Result<usize> {
    let mut paths = Vec::new(alloc);
    for line in lines.lines() {
        paths.push(path_of(alloc, line)?)?;
    }
    match parse_and_typecheck_custom(alloc, &paths, &Same { text }) {
        Ok(files) => Ok(files.len()),
        Err(fault) => Err(anyhow!("{fault}")),
    }
}

/// How many fields `read_custom` reads from so many empty messages, each of them the field 1 of
/// `.Wide`, by a file of this text.
pub fn read_small(alloc: Global, text: &[u8], count: u64) -> Result<usize> {
    let files = match described(alloc, text)? {
        Ok(files) => files,
        Err(fault) => return Err(anyhow!("{fault}")),
    };
    let mut bytes = Vec::new(alloc);
    for _ in 0..count {
        bytes.extend_from_slice(&[0x0a, 0])?;
    }
    let message = ProtobufAbsPathRef::try_new(".Wide").context("no absolute name")?;
    match read_custom(alloc, &files, message, &bytes) {
        Ok(fields) => Ok(fields.len()),
        Err(fault) => Err(anyhow!("{fault}")),
    }
}
