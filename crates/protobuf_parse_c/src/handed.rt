//! The files that C hands over.

ghost use Rattle.std.specs.Prelude.{◌≡◌, ℕ, IfOk, Err, List, Some, map};
ghost use Rattle.protobuf_parse_run.specs.declared.fault.ReadInputFault.TheVariants.{NotFound};
ghost use Rattle.protobuf_parse_c.specs.Handed.{IsOfHanded, content_in, file_bytes};
ghost use Rattle.protobuf_parse_c.specs.ByPath.{content_at};

use crate::shapes::PbFile;
use protobuf_parse::{
    InputReader, ProtoPath, ProtoPathResolver, ReadInputFault, ResolveFault, ResolvedProtoFile,
};
use std::alloc::{AllocError, Global};
use std::collections::BTreeMap;
use std::fmt;

/// Files in memory, by their proto paths; of several with one path the first.
#[derive(Drop)]
pub struct Handed<'a> {
    by_path: BTreeMap<&'a [u8], &'a [u8]>,
}

impl<'a> Handed<'a> {
    /// These files. The one error is that memory is short.
    pub fn of(alloc: Global, files: &[PbFile<'a>]) -> Result<Self, AllocError>
        ensures { IfOk result (λ handed. (path : List ℕ)
            → content_at handed.by_path path ≡ content_in (map file_bytes files.now) path) }
    {
        let mut by_path = BTreeMap::new(alloc);
        'files: for file in files {
            if !by_path.contains_key(file.path) {
                by_path.insert(file.path, file.content)?;
            }
        }
        Ok(Handed { by_path })
    }
}

impl<'a> fmt::Display for Handed<'a> {
    fn fmt<W: fmt::Write>(&self, f: &mut fmt::Formatter<W>) -> fmt::Result {
        f.write_str("the files that were handed over")
    }
}

impl<'a> ProtoPathResolver for Handed<'a> {
    ghost may_answer = { λ h path answer.
        IsOfHanded (content_at h.by_path path) answer };

    fn resolve(
        &self,
        alloc: Global,
        path: ProtoPath<'_>,
    ) -> Result<Option<ResolvedProtoFile>, ResolveFault> {
        match self.by_path.get(path.to_str().as_bytes()) {
            Some(content) => found(alloc, path.to_str(), content),
            None => Ok(None),
        }
    }
}

fn found(
    alloc: Global,
    path: &str,
    content: &[u8],
) -> Result<Option<ResolvedProtoFile>, ResolveFault>
    ensures { IsOfHanded (Some content.now) result }
{
    match copied(alloc, path, content) {
        Ok(file) => Ok(Some(file)),
        Err(_) => Err(ResolveFault::Memory),
    }
}

fn copied(alloc: Global, path: &str, content: &[u8]) -> Result<ResolvedProtoFile, AllocError>
    ensures { IfOk result (λ file. file.content.items ≡ content.now) }
{
    Ok(ResolvedProtoFile {
        path: String::from_str(alloc, path)?,
        content: Vec::from_slice(alloc, content)?,
    })
}

/// Nobody is asked for inputs at paths of their own.
#[derive(Clone, Copy)]
pub struct Nobody;

impl InputReader for Nobody {
    ghost may_read = { λ _ _ answer. answer ≡ Err NotFound };

    fn read(&self, _alloc: Global, _path: &str) -> Result<Vec<u8>, ReadInputFault> {
        Err(ReadInputFault::NotFound)
    }
}
