//! What a run writes, all of it made before any is written.

ghost use Rattle.std.specs.Prelude.{◌≡◌, IfOk, None, [], map, option_map, true, false};
ghost use Rattle.std.specs.Prelude.{string_bytes};
ghost use Rattle.std.specs.List.{list_any};
ghost use Rattle.protobuf_parse_descriptor_set.specs.DescriptorItems.{set_bytes_with_info};
ghost use Rattle.protobuf_parse_command.specs.Made.{IsSetAsked, info_of_file, is_fatal, with_info};

use crate::arguments::Arguments;
use crate::check::{Checked, check_files};
use crate::dependencies::rule_text;
use crate::infos::Infos;
use crate::listed::{Imports, imports_of_files};
use crate::printed::texts_of;
use crate::told::{has_fatal, lines_of};
use protobuf_parse::{FileDescriptorProto, ProtoPathBuf, files_of_inputs, listing};
use protobuf_parse_descriptor_set::{FileWithInfo, descriptor_set, descriptor_set_with_info};
use std::alloc::{AllocError, Global};
use std::rt::Files;

/// What a run writes.
#[derive(Drop)]
pub struct Made {
    /// The lines on standard error.
    pub told: String,
    /// Whether an error is among them, or a warning where these are as bad. Then nothing else is
    /// written.
    pub has_error: bool,
    /// The bytes of the descriptor set, where one is asked for.
    pub set: Option<Vec<u8>>,
    /// Which files the set is made of, where that is asked for.
    pub dependencies: Option<String>,
    /// The text on standard output.
    pub text: String,
}

/// Reads the files of the command line, and makes what is asked for. The one error is that memory
/// is short.
pub fn make<R: Files + AllocGlobal>(
    rt: &R,
    alloc: Global,
    arguments: &Arguments,
) -> Result<Made, AllocError> {
    if arguments.imports {
        make_imports(rt, alloc, arguments)
    } else {
        made_of(alloc, arguments, check_files(rt, alloc, arguments)?)
    }
}

/// `--imports`.
fn make_imports<R: Files + AllocGlobal>(
    rt: &R,
    alloc: Global,
    arguments: &Arguments,
) -> Result<Made, AllocError> {
    let Imports { told, text } = imports_of_files(rt, alloc, arguments)?;
    let has_error = has_fatal(&told, arguments.fatal_warnings);
    Ok(Made {
        told: lines_of(alloc, arguments.error_format, &told, &[])?,
        has_error,
        set: None,
        dependencies: None,
        text: if has_error { String::new(alloc) } else { text },
    })
}

/// What is made of a check: the lines of what is told; where no error is, the set and the listing or
/// the texts, each if it is asked for.
pub fn made_of(alloc: Global, arguments: &Arguments, checked: Checked) -> Result<Made, AllocError>
    ensures error { IfOk result (λ made. made.has_error
        ≡ list_any (is_fatal arguments.now.fatal_warnings) checked.told.items) }
    ensures silent { IfOk result (λ made. made.has_error ≡ true
        → (made.set ≡ None) × (made.dependencies ≡ None) × (string_bytes made.text ≡ [])) }
    ensures set { IfOk result (λ made. made.has_error ≡ false
        → IsSetAsked arguments.now checked.inputs.items checked.files.items checked.infos
        made.set) }
    ensures unasked { IfOk result (λ made. arguments.now.list ≡ false
        → arguments.now.text ≡ false → string_bytes made.text ≡ []) }
{
    let Checked {
        told,
        files,
        inputs,
        infos,
        places,
        excerpts,
    } = checked;
    let lines = lines_of(alloc, arguments.error_format, &told, &excerpts)?;
    if has_fatal(&told, arguments.fatal_warnings) {
        return Ok(Made {
            told: lines,
            has_error: true,
            set: None,
            dependencies: None,
            text: String::new(alloc),
        });
    }
    let text = if arguments.list {
        listing(alloc, &files)?
    } else if arguments.text {
        texts_of(alloc, arguments, &inputs, &files)?
    } else {
        String::new(alloc)
    };
    Ok(Made {
        told: lines,
        has_error: false,
        set: set_of(alloc, arguments, &inputs, files, &infos)?,
        dependencies: dependencies_of(alloc, arguments, &places)?,
        text,
    })
}

/// Which files the set is made of, where that is asked for.
fn dependencies_of(
    alloc: Global,
    arguments: &Arguments,
    places: &[String],
) -> Result<Option<String>, AllocError> {
    match (&arguments.dependency_path, &arguments.set_path) {
        (Some(_), Some(target)) => Ok(Some(rule_text(alloc, target, places)?)),
        _ => Ok(None),
    }
}

/// The descriptor set, where one is asked for: of the inputs, or with imports of all files; with
/// their source info, if that is asked for.
fn set_of(
    alloc: Global,
    arguments: &Arguments,
    inputs: &[ProtoPathBuf],
    files: Vec<FileDescriptorProto>,
    infos: &Infos,
) -> Result<Option<Vec<u8>>, AllocError>
    ensures { IfOk result (IsSetAsked arguments.now inputs.now files.items infos.now) }
{
    if arguments.set_path.is_none() {
        return Ok(None);
    }
    let chosen = if arguments.include_imports {
        files
    } else {
        files_of_inputs(alloc, inputs, files)?
    };
    if arguments.include_source_info {
        Ok(Some(set_with_info(alloc, &chosen, infos)?))
    } else {
        Ok(Some(descriptor_set(alloc, &chosen)?))
    }
}

/// The descriptor set of the files with their source info.
fn set_with_info<'a>(
    alloc: Global,
    files: &'a [FileDescriptorProto],
    infos: &'a Infos,
) -> Result<Vec<u8>, AllocError>
    ensures { IfOk result (λ bytes. bytes.items
        ≡ set_bytes_with_info (map (with_info infos.now) files.now)) }
{
    let mut with_info = Vec::with_capacity(alloc, files.len())?;
    'files: for file in files {
        with_info.push(FileWithInfo {
            file,
            source_code_info: info_of_file(infos, file),
        })?;
    }
    descriptor_set_with_info(alloc, &with_info)
}

/// The source info of the file, if there is one.
fn info_of_file<'a>(infos: &'a Infos, file: &FileDescriptorProto) -> Option<&'a [u8]>
    ensures { option_map (λ b. b.now) result ≡ info_of_file infos.now file.now }
{
    let name = file.name.as_ref()?;
    let info = infos.get(name.as_str())?;
    Some(info)
}
