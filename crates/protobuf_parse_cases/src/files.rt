//! The files of a case as a run meets them: by a resolver, by a reader, and as files that come with
//! the library; and answers that are given in turn.

use crate::cases::CaseFile;
use protobuf_parse::{
    InputReader, ProtoPath, ProtoPathResolver, ReadInputFault, ResolveFault, ResolvedProtoFile,
};
use std::alloc::{AllocError, Global};
use std::cell::Cell;
use std::fmt;

/// The files of a case, by their paths. Those that the resolver finds lie in the folder `in`.
#[derive(Clone, Copy)]
pub struct Files<'a> {
    pub files: &'a [CaseFile],
}

impl<'a> Files<'a> {
    fn content_of(&self, path: &str) -> Option<&'a [u8]> {
        for file in self.files {
            if file.path.as_str() == path {
                return Some(file.content.as_slice());
            }
        }
        None
    }
}

impl<'a> fmt::Display for Files<'a> {
    fn fmt<W: fmt::Write>(&self, f: &mut fmt::Formatter<W>) -> fmt::Result {
        f.write_str("Files")
    }
}

impl<'a> ProtoPathResolver for Files<'a> {
    ghost may_answer = { λ _ _ _. Unit {0} };

    fn resolve(
        &self,
        alloc: Global,
        path: ProtoPath<'_>,
    ) -> Result<Option<ResolvedProtoFile>, ResolveFault> {
        match self.content_of(path.to_str()) {
            Some(content) => answered(alloc, path.to_str(), content),
            None => Ok(None),
        }
    }
}

impl<'a> InputReader for Files<'a> {
    ghost may_read = { λ _ _ _. Unit {0} };

    fn read(&self, alloc: Global, path: &str) -> Result<Vec<u8>, ReadInputFault> {
        match self.content_of(path) {
            Some(content) => read(alloc, content),
            None => Err(ReadInputFault::NotFound),
        }
    }
}

/// A resolver and a reader of that name, which give these answers in turn, whatever is asked, and
/// then have no file. An answer is `none`, the word of a fault, or a content.
#[derive(Drop)]
pub struct InTurn<'a> {
    pub name: &'a str,
    pub answers: &'a [&'a str],
    pub calls: Cell<usize>,
}

impl<'a> InTurn<'a> {
    fn next_answer(&self) -> &'a str {
        let call = self.calls.get();
        self.calls.set(call.wrapping_add(1));
        self.answers.get(call).copied().unwrap_or("none")
    }
}

impl<'a> fmt::Display for InTurn<'a> {
    fn fmt<W: fmt::Write>(&self, f: &mut fmt::Formatter<W>) -> fmt::Result {
        f.write_str(self.name)
    }
}

impl<'a> ProtoPathResolver for InTurn<'a> {
    ghost may_answer = { λ _ _ _. Unit {0} };

    fn resolve(
        &self,
        alloc: Global,
        path: ProtoPath<'_>,
    ) -> Result<Option<ResolvedProtoFile>, ResolveFault> {
        match self.next_answer() {
            "none" => Ok(None),
            "memory" => Err(ResolveFault::Memory),
            "unread" => Err(unread(alloc, path.to_str())),
            "refused" => Err(refused(alloc, path.to_str())),
            "unsaid" => Err(ResolveFault::Refused(String::new(alloc))),
            content => answered(alloc, path.to_str(), content.as_bytes()),
        }
    }
}

impl<'a> InputReader for InTurn<'a> {
    ghost may_read = { λ _ _ _. Unit {0} };

    fn read(&self, alloc: Global, _path: &str) -> Result<Vec<u8>, ReadInputFault> {
        match self.next_answer() {
            "none" => Err(ReadInputFault::NotFound),
            "memory" => Err(ReadInputFault::Memory),
            "failed" => Err(ReadInputFault::Failed),
            content => read(alloc, content.as_bytes()),
        }
    }
}

fn unread(alloc: Global, name: &str) -> ResolveFault {
    match format!(in alloc; "in/{name}") {
        Ok(path) => ResolveFault::CouldNotRead(path),
        Err(_) => ResolveFault::Memory,
    }
}

fn refused(alloc: Global, name: &str) -> ResolveFault {
    match format!(in alloc; "{name} is secret") {
        Ok(reason) => ResolveFault::Refused(reason),
        Err(_) => ResolveFault::Memory,
    }
}

fn read(alloc: Global, content: &[u8]) -> Result<Vec<u8>, ReadInputFault> {
    match Vec::from_slice(alloc, content) {
        Ok(content) => Ok(content),
        Err(_) => Err(ReadInputFault::Memory),
    }
}

/// The answer for a file of the folder `in`.
fn answered(
    alloc: Global,
    name: &str,
    content: &[u8],
) -> Result<Option<ResolvedProtoFile>, ResolveFault> {
    match found(alloc, name, content) {
        Ok(file) => Ok(Some(file)),
        Err(_) => Err(ResolveFault::Memory),
    }
}

fn found(alloc: Global, name: &str, content: &[u8]) -> Result<ResolvedProtoFile, AllocError> {
    Ok(ResolvedProtoFile {
        path: format!(in alloc; "in/{name}")?,
        content: Vec::from_slice(alloc, content)?,
    })
}
