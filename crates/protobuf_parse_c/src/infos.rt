//! The source info of the files of a run.

ghost use Rattle.std.specs.Prelude.{◌≡◌, IfOk, map};
ghost use Rattle.protobuf_parse_model.specs.Descriptors.{file_view};
ghost use Rattle.protobuf_parse_c.specs.Answers.{IsSpelledWithInfo};

use protobuf_parse::FileDescriptorProto;
use protobuf_parse_descriptor_set::{FileWithInfo, descriptor_set_with_info};
use protobuf_parse_diagnostics::Sources;
use protobuf_parse_index::Index;
use protobuf_parse_option_paths::{file_source_info, source_info_bytes};
use protobuf_parse_syntax::parse_file;
use std::alloc::{AllocError, Global};

/// The set of the files, each with its source info. The one error is that memory is short.
pub fn set_with_info(
    alloc: Global,
    sources: &Sources<'_>,
    files: &[FileDescriptorProto],
) -> Result<Vec<u8>, AllocError>
    ensures { IfOk result (λ set. IsSpelledWithInfo (map file_view files.now) set.items) }
{
    let infos = infos_of(alloc, sources, files)?;
    set_with(alloc, files, &infos)
}

fn set_with(
    alloc: Global,
    files: &[FileDescriptorProto],
    infos: &[Option<Vec<u8>>],
) -> Result<Vec<u8>, AllocError>
    ensures { IfOk result (λ set. IsSpelledWithInfo (map file_view files.now) set.items) }
{
    let mut with_info = Vec::with_capacity(alloc, files.len())?;
    'files: for (i, file) in files.iter().enumerate() {
        with_info.push(FileWithInfo {
            file,
            source_code_info: info_at(infos, i),
        })?;
    }
    descriptor_set_with_info(alloc, &with_info)
}

fn info_at(infos: &[Option<Vec<u8>>], at: usize) -> Option<&[u8]> {
    match infos.get(at) {
        Some(Some(info)) => Some(info),
        Some(None) | None => None,
    }
}

/// The source info of each of the files, as bytes.
fn infos_of(
    alloc: Global,
    sources: &Sources<'_>,
    files: &[FileDescriptorProto],
) -> Result<Vec<Option<Vec<u8>>>, AllocError> {
    let index = Index::of(alloc, files)?;
    let mut infos = Vec::with_capacity(alloc, files.len())?;
    for file in files {
        infos.push(info_of(alloc, sources, &index, file)?)?;
    }
    Ok(infos)
}

/// That of the file, whose text a run took, so that only memory can be short.
fn info_of<'a>(
    alloc: Global,
    sources: &Sources<'_>,
    index: &Index<'a>,
    file: &'a FileDescriptorProto,
) -> Result<Option<Vec<u8>>, AllocError> {
    let Some(text) = text_of(sources, file) else {
        return Ok(None);
    };
    let Ok(tree) = parse_file(alloc, text) else {
        return Err(AllocError);
    };
    match file_source_info(alloc, index, file, text, &tree) {
        Ok(info) => Ok(Some(source_info_bytes(alloc, &info)?)),
        Err(_) => Err(AllocError),
    }
}

fn text_of<'a>(sources: &Sources<'a>, file: &FileDescriptorProto) -> Option<&'a str> {
    sources.text_of(file.name.as_deref()?)
}
