//! Files that a test has in a table, and checks over them.

use crate::listing::listing;
use protobuf_parse_base::proto_path::{ProtoPath, ProtoPathBuf};
use protobuf_parse_check::{CheckLog, check_inputs};
use protobuf_parse_run::{
    InputReader, ProtoPathResolver, ReadInputFault, ResolveFault, ResolvedProtoFile, RunInput,
};
use std::alloc::{AllocError, Global};
use std::fmt;
use std::test::Fail;

/// In place of a text: a byte that begins none.
pub const BYTES: &str = "no text";
/// In place of a text: whoever is asked can't give the file.
pub const LOCKED: &str = "locked";
/// In place of a text: memory is short for whoever is asked.
pub const SHORT: &str = "short";

/// The files that every check is given as bundled ones.
const BUNDLED: &[(&str, &str)] = &[
    ("given.proto", "message Given {}"),
    ("both.proto", "message Bundled {}"),
];

/// Files by their paths. Those of the folders `own` and `away` lie at paths of their own, and the
/// resolver finds the others.
#[derive(Clone, Copy)]
struct Shelf<'a> {
    files: &'a [(&'a str, &'a str)],
}

impl<'a> Shelf<'a> {
    fn text_of(&self, path: &str) -> Option<&'a str> {
        for (name, text) in self.files {
            if *name == path {
                return Some(*text);
            }
        }
        None
    }
}

impl<'a> fmt::Display for Shelf<'a> {
    fn fmt<W: fmt::Write>(&self, f: &mut fmt::Formatter<W>) -> fmt::Result {
        f.write_str("a shelf")
    }
}

fn content_of(alloc: Global, text: &str) -> Result<Vec<u8>, AllocError> {
    if text == BYTES {
        return Vec::from_slice(alloc, &[0xff]);
    }
    Vec::from_slice(alloc, text.as_bytes())
}

fn found(alloc: Global, name: &str, text: &str) -> Result<ResolvedProtoFile, AllocError> {
    Ok(ResolvedProtoFile {
        path: format!(in alloc; "shelf/{name}")?,
        content: content_of(alloc, text)?,
    })
}

fn refused(alloc: Global) -> ResolveFault {
    match String::from_str(alloc, "it is locked") {
        Ok(reason) => ResolveFault::Refused(reason),
        Err(_) => ResolveFault::Memory,
    }
}

impl<'a> ProtoPathResolver for Shelf<'a> {
    ghost may_answer = { λ _ _ _. Unit {0} };

    fn resolve(
        &self,
        alloc: Global,
        path: ProtoPath<'_>,
    ) -> Result<Option<ResolvedProtoFile>, ResolveFault> {
        let Some(text) = self.text_of(path.to_str()) else {
            return Ok(None);
        };
        if text == LOCKED {
            return Err(refused(alloc));
        }
        if text == SHORT {
            return Err(ResolveFault::Memory);
        }
        match found(alloc, path.to_str(), text) {
            Ok(file) => Ok(Some(file)),
            Err(_) => Err(ResolveFault::Memory),
        }
    }
}

impl<'a> InputReader for Shelf<'a> {
    ghost may_read = { λ _ _ _. Unit {0} };

    fn read(&self, alloc: Global, path: &str) -> Result<Vec<u8>, ReadInputFault> {
        let Some(text) = self.text_of(path) else {
            return Err(ReadInputFault::NotFound);
        };
        if text == LOCKED {
            return Err(ReadInputFault::Failed);
        }
        match content_of(alloc, text) {
            Ok(content) => Ok(content),
            Err(_) => Err(ReadInputFault::Memory),
        }
    }
}

fn proto_path(alloc: Global, text: &str) -> Result<ProtoPathBuf, Fail> {
    Ok(ProtoPathBuf::new(String::from_str(alloc, text)?)?)
}

/// The input of this name: in the folders `own` and `away` it lies there, and else the resolver
/// finds it.
fn input(alloc: Global, name: &str) -> Result<RunInput, Fail> {
    for folder in ["own/", "away/"] {
        if let Some(path) = name.strip_prefix(folder) {
            return Ok(RunInput::At {
                name: proto_path(alloc, path)?,
                fs_path: String::from_str(alloc, name)?,
            });
        }
    }
    Ok(RunInput::Named(proto_path(alloc, name)?))
}

/// A check of the inputs of these names, over these files.
pub fn checked(alloc: Global, files: &[(&str, &str)], names: &[&str]) -> Result<CheckLog, Fail> {
    let mut inputs = Vec::new(alloc);
    for name in names {
        inputs.push(input(alloc, name)?)?;
    }
    let shelf = Shelf { files };
    Ok(check_inputs(alloc, &inputs, &shelf, &shelf, BUNDLED))
}

/// What that check tells, as lines.
pub fn told(alloc: Global, files: &[(&str, &str)], names: &[&str]) -> Result<String, Fail> {
    let check = checked(alloc, files, names)?.result?;
    Ok(listing(alloc, &check)?)
}
