//! The source info of the files of a set.

ghost use Rattle.std.specs.Prelude.{IfOk, IfSome, OnOk, map};
ghost use Rattle.protobuf_parse_model.specs.Descriptors.{file_view};
ghost use Rattle.protobuf_parse_command.specs.Infos.{AreInfos, IsInfo};

use crate::arguments::Arguments;
use crate::rules::RuleFiles;
use crate::told::has_fatal;
use protobuf_parse::{FileDescriptorProto, ParserError};
use protobuf_parse_diagnostics::{Diagnostic, NamedTree, Sources};
use protobuf_parse_index::Index;
use protobuf_parse_option_paths::{file_source_info, source_info_bytes};
use std::alloc::{AllocError, Global};
use std::collections::BTreeMap;

/// The bytes of the `SourceCodeInfo` of files, by their proto paths.
pub type Infos = BTreeMap<String, Vec<u8>>;

/// Those of the files of a check, where a set with them will be written: one is asked for, and
/// nothing is told that keeps it from being written. Else there are none. The one error is that
/// memory is short.
pub fn infos_asked(
    alloc: Global,
    arguments: &Arguments,
    told: &[Diagnostic],
    sources: &Sources<'_>,
    held: &RuleFiles<'_>,
) -> Result<Infos, AllocError>
    ensures { IfOk result (AreInfos sources.now (map file_view held.now.files.now)) }
{
    let is_asked = arguments.include_source_info && arguments.set_path.is_some();
    if !is_asked || has_fatal(told, arguments.fatal_warnings) {
        return Ok(BTreeMap::new(alloc));
    }
    infos_of(alloc, sources, held)
}

/// Those of all files.
fn infos_of(alloc: Global, sources: &Sources<'_>, held: &RuleFiles<'_>) -> Result<Infos, AllocError>
    ensures { IfOk result (AreInfos sources.now (map file_view held.now.files.now)) }
{
    let index = Index::of(alloc, held.files)?;
    infos_with(alloc, &index, sources, held)
}

/// Those of all files, with an index of them.
fn infos_with<'a>(
    alloc: Global,
    index: &Index<'a>,
    sources: &Sources<'_>,
    held: &RuleFiles<'a>,
) -> Result<Infos, AllocError>
    ensures { IfOk result (AreInfos sources.now (map file_view index.now)) }
{
    let mut infos = BTreeMap::new(alloc);
    'files: for (file, tree) in held.files.iter().zip(held.trees) {
        add_info(alloc, &mut infos, index, sources, file, tree)?;
    }
    Ok(infos)
}

/// That of the file too, by its tree, if it has a text.
fn add_info<'a>(
    alloc: Global,
    infos: &mut Infos,
    index: &Index<'a>,
    sources: &Sources<'_>,
    file: &'a FileDescriptorProto,
    tree: &NamedTree,
) -> Result<(), AllocError>
    ensures { OnOk result (AreInfos sources.now (map file_view index.now) infos.old
        → AreInfos sources.now (map file_view index.now) infos.new) }
{
    if let Some(info) = info_of(alloc, index, sources, file, tree)? {
        infos.insert(String::from_str(alloc, &tree.path)?, info)?;
    }
    Ok(())
}

/// The bytes of the `SourceCodeInfo` of a file, by its text and its tree.
fn info_of<'a>(
    alloc: Global,
    index: &Index<'a>,
    sources: &Sources<'_>,
    file: &'a FileDescriptorProto,
    tree: &NamedTree,
) -> Result<Option<Vec<u8>>, AllocError>
    ensures { IfOk result (λ info. IfSome info (IsInfo sources.now (map file_view index.now))) }
{
    let Some(text) = sources.text_of(&tree.path) else {
        return Ok(None);
    };
    match file_source_info(alloc, index, file, text, &tree.tree) {
        Ok(info) => Ok(Some(source_info_bytes(alloc, &info)?)),
        Err(error) => match error.error {
            ParserError::Memory => Err(AllocError),
            // A text that is too long has no tree.
            _ => Ok(None),
        },
    }
}
