//! Where the constructs of the files of a run stand.

ghost use Rattle.std.specs.Prelude.{IfOk, map};
ghost use Rattle.protobuf_parse_model.specs.Descriptors.{file_view};
ghost use Rattle.protobuf_parse.specs.SourceInfo.{AreFileInfos, AreInfosOf, IsInfoOf};

use protobuf_parse_index::Index;
use protobuf_parse_model::FileDescriptorProto;
use protobuf_parse_option_paths::{file_source_info, without_names};
use protobuf_parse_run::{ReadEntry, ReadOutcome};
use protobuf_parse_source_info::SourceCodeInfo;
use protobuf_parse_syntax::parse_file;
use std::alloc::{AllocError, Global};
use std::collections::BTreeMap;

/// The source info of the files of a run, in their order: by the texts that it read, or else by
/// those of the bundled files.
pub fn infos_of_files<'a>(
    alloc: Global,
    reads: &'a [ReadEntry],
    bundled: &'a [(&'a str, &'a str)],
    files: &'a [FileDescriptorProto],
) -> Result<Vec<SourceCodeInfo<'static>>, AllocError>
    ensures { IfOk result (λ infos. AreFileInfos (map file_view files.now) infos.items) }
{
    let texts = texts_of(alloc, reads, bundled)?;
    let index = Index::of(alloc, files)?;
    infos_by_texts(alloc, &index, &texts, files)
}

/// That of each of the files, by these texts.
fn infos_by_texts<'a>(
    alloc: Global,
    index: &Index<'a>,
    texts: &BTreeMap<&'a str, &'a str>,
    files: &'a [FileDescriptorProto],
) -> Result<Vec<SourceCodeInfo<'static>>, AllocError>
    ensures { IfOk result (λ infos.
        AreInfosOf (map file_view index.now) (map file_view files.now) infos.items) }
{
    let mut infos = Vec::with_capacity(alloc, files.len())?;
    'files: for file in files {
        let text = text_of(texts, file);
        let info = info_of(alloc, index, file, text)?;
        infos.push(info)?;
    }
    Ok(infos)
}

/// The text of the file, by its proto path.
fn text_of<'a>(texts: &BTreeMap<&'a str, &'a str>, file: &'a FileDescriptorProto) -> &'a str {
    let Some(path) = &file.name else {
        return "";
    };
    match texts.get(path.as_str()) {
        Some(text) => *text,
        None => "",
    }
}

/// The texts of files by their proto paths: those that were read, and else the bundled ones.
fn texts_of<'a>(
    alloc: Global,
    reads: &'a [ReadEntry],
    bundled: &'a [(&'a str, &'a str)],
) -> Result<BTreeMap<&'a str, &'a str>, AllocError> {
    let mut texts = BTreeMap::new(alloc);
    for (path, text) in bundled {
        texts.insert(*path, *text)?;
    }
    for entry in reads {
        if let ReadOutcome::Content { origin: _, content } = &entry.outcome {
            if let Ok(text) = str::from_utf8(content) {
                texts.insert(entry.path.as_path().to_str(), text)?;
            }
        }
    }
    Ok(texts)
}

/// The source info of a file with that text. A run took the text, so that only memory can be short.
fn info_of<'a>(
    alloc: Global,
    index: &Index<'a>,
    file: &'a FileDescriptorProto,
    text: &str,
) -> Result<SourceCodeInfo<'static>, AllocError>
    ensures { IfOk result (IsInfoOf (map file_view index.now) (file_view file.now)) }
{
    let Ok(tree) = parse_file(alloc, text) else {
        return Err(AllocError);
    };
    let Ok(info) = file_source_info(alloc, index, file, text, &tree) else {
        return Err(AllocError);
    };
    without_names(alloc, info)
}
