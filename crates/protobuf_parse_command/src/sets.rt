//! The files of the descriptor sets of a command line.

use protobuf_parse::FileDescriptorProto;
use protobuf_parse_diagnostics::{Diagnostic, Severity};
use protobuf_parse_files::{FileRead, KeptFiles};
use protobuf_parse_set_reader::{SetError, SetFile, read_descriptor_set_with_info};
use std::alloc::{AllocError, Global};
use std::collections::BTreeMap;
use std::rt::Files;

/// The code by which a set that can't be read is told.
const SET_UNREAD: &str = "L13";

/// That of a file that is no set.
const NO_SET: &str = "L14";

/// The most bytes that a set may have.
const MOST_BYTES: usize = 2147483647;

/// The files of descriptor sets, of several with one path the first.
#[derive(Drop)]
pub struct Sets {
    /// The files as the sets have them.
    pub files: Vec<FileDescriptorProto>,
    /// The source info of each of them, if its set has it: the bytes of a `SourceCodeInfo`.
    pub infos: Vec<Option<Vec<u8>>>,
    /// The path of the set in which each of them stands.
    pub origins: Vec<String>,
    /// The position of each of them, by its proto path.
    pub by_path: BTreeMap<String, usize>,
}

/// Those of the sets at these paths, in order. One that can't be read is told (L13), and one that is
/// no set (L14). The one error is that memory is short.
pub fn sets_of<R: Files + AllocGlobal>(
    rt: &R,
    alloc: Global,
    paths: &[String],
    told: &mut Vec<Diagnostic>,
) -> Result<Sets, AllocError> {
    let kept = KeptFiles::new(rt, alloc, MOST_BYTES);
    let mut sets = Sets {
        files: Vec::new(alloc),
        infos: Vec::new(alloc),
        origins: Vec::new(alloc),
        by_path: BTreeMap::new(alloc),
    };
    for path in paths {
        match set_bytes(alloc, &kept, path)? {
            Ok(bytes) => add_set(alloc, &mut sets, path, &bytes, told)?,
            Err(fault) => told.push(fault)?,
        }
    }
    Ok(sets)
}

/// The bytes of the file at the path, or what is told of it.
fn set_bytes<R: Files + AllocGlobal>(
    alloc: Global,
    kept: &KeptFiles<'_, R>,
    path: &str,
) -> Result<Result<Vec<u8>, Diagnostic>, AllocError> {
    match kept.read(alloc, path)? {
        FileRead::Content(bytes) => Ok(Ok(bytes)),
        FileRead::TooLong => {
            let message = format!(in alloc;
                "the descriptor set is longer than {MOST_BYTES} bytes"
            )?;
            Ok(Err(set_told(alloc, path, SET_UNREAD, message)?))
        }
        FileRead::Failed(error) => {
            let message = format!(in alloc; "could not read the descriptor set: {error}")?;
            Ok(Err(set_told(alloc, path, SET_UNREAD, message)?))
        }
    }
}

/// Adds the files that the bytes are a set of, or tells why they are none.
fn add_set(
    alloc: Global,
    sets: &mut Sets,
    path: &str,
    bytes: &[u8],
    told: &mut Vec<Diagnostic>,
) -> Result<(), AllocError> {
    match read_descriptor_set_with_info(alloc, bytes) {
        Ok(files) => add_files(alloc, sets, path, files),
        Err(SetError::Memory) => Err(AllocError),
        Err(SetError::Fault(fault)) => {
            let message = format!(in alloc; "this is no descriptor set: {fault}")?;
            told.push(set_told(alloc, path, NO_SET, message)?)?;
            Ok(())
        }
    }
}

/// Adds the files of a set, but for those whose paths are there already.
fn add_files(
    alloc: Global,
    sets: &mut Sets,
    path: &str,
    files: Vec<SetFile>,
) -> Result<(), AllocError> {
    for file in files {
        add_file(alloc, sets, path, file)?;
    }
    Ok(())
}

fn add_file(alloc: Global, sets: &mut Sets, path: &str, added: SetFile) -> Result<(), AllocError> {
    let SetFile {
        file,
        source_code_info,
    } = added;
    let Some(name) = &file.name else {
        return Ok(());
    };
    if sets.by_path.contains_key(name.as_str()) {
        return Ok(());
    }
    let name = name.clone()?;
    sets.origins.push(String::from_str(alloc, path)?)?;
    sets.by_path.insert(name, sets.files.len())?;
    sets.infos.push(source_code_info)?;
    sets.files.push(file)?;
    Ok(())
}

/// What is told of the file of a set.
fn set_told(
    alloc: Global,
    path: &str,
    code: &str,
    message: String,
) -> Result<Diagnostic, AllocError> {
    Ok(Diagnostic {
        file: String::from_str(alloc, path)?,
        place: None,
        severity: Severity::Error,
        code: String::from_str(alloc, code)?,
        message,
        help: None,
    })
}
