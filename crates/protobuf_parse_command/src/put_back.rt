//! Files that were read as texts of sets, as the sets have them.

ghost use Rattle.std.specs.Prelude.{◌≡◌, IfOk, map};
ghost use Rattle.protobuf_parse_model.specs.Descriptors.{file_view};
ghost use Rattle.protobuf_parse_command.specs.Finding.{as_in_set, own_file};

use crate::infos::Infos;
use crate::set_texts::SetTexts;
use crate::sets::Sets;
use protobuf_parse::{CheckLog, FileDescriptorProto, ReadOutcome};
use std::alloc::{AllocError, Global};
use std::collections::BTreeMap;

/// A file as its set has it.
#[derive(Clone, Copy)]
pub struct OwnFile<'a> {
    pub file: &'a FileDescriptorProto,
    /// Its source info, if the set has it: the bytes of a `SourceCodeInfo`.
    pub info: &'a Option<Vec<u8>>,
}

/// Files of sets by their proto paths.
pub type OwnFiles<'a> = BTreeMap<String, OwnFile<'a>>;

/// Those files of the sets that were read. The one error is that memory is short.
pub fn files_read<'a>(
    alloc: Global,
    sets: &'a Sets,
    texts: &SetTexts<'_>,
    log: &CheckLog,
) -> Result<OwnFiles<'a>, AllocError> {
    let mut read = BTreeMap::new(alloc);
    for entry in &log.reads {
        let path = entry.path.as_path().to_str();
        if let ReadOutcome::Content { origin, .. } = &entry.outcome {
            if texts.lies_at(alloc, path, origin)? {
                if let Some(own) = own_of(sets, path) {
                    read.insert(String::from_str(alloc, path)?, own)?;
                }
            }
        }
    }
    Ok(read)
}

/// The file of this proto path, if a set has one.
fn own_of<'a>(sets: &'a Sets, path: &str) -> Option<OwnFile<'a>> {
    let at = sets.by_path.get(path).copied()?;
    let file = sets.files.get(at)?;
    let info = sets.infos.get(at)?;
    Some(OwnFile { file, info })
}

/// Each of the files as its set has it, if it came from one; of the others a copy. The one error is
/// that memory is short.
pub fn as_in_sets(
    alloc: Global,
    files: &[FileDescriptorProto],
    own: &OwnFiles<'_>,
) -> Result<Vec<FileDescriptorProto>, AllocError>
    ensures { IfOk result (λ found.
        map file_view found.items ≡ map (as_in_set own.now) files.now) }
{
    let mut found = Vec::with_capacity(alloc, files.len())?;
    'files: for file in files {
        found.push(as_in_set(file, own)?)?;
    }
    Ok(found)
}

fn as_in_set(
    file: &FileDescriptorProto,
    own: &OwnFiles<'_>,
) -> Result<FileDescriptorProto, AllocError>
    ensures { IfOk result (λ found. file_view found ≡ as_in_set own.now file.now) }
{
    match own_file(own, &file.name) {
        Some(own) => own.file.clone(),
        None => file.clone(),
    }
}

/// The file of a set that has this name, if one has.
fn own_file<'a>(own: &OwnFiles<'a>, name: &Option<String>) -> Option<OwnFile<'a>>
    ensures { result ≡ own_file own.now name.now }
{
    match name {
        Some(name) => own.get(name.as_str()).copied(),
        None => None,
    }
}

/// The source info of files that came from sets is what their sets have, if they have it. The one
/// error is that memory is short.
pub fn infos_of_sets(
    alloc: Global,
    infos: &mut Infos,
    own: &OwnFiles<'_>,
) -> Result<(), AllocError> {
    for (path, set_file) in own {
        infos.remove(path.as_str());
        if let Some(info) = set_file.info {
            infos.insert(path.clone()?, info.clone()?)?;
        }
    }
    Ok(())
}
