//! A check of the files of a command line, and what is told of it.

ghost use Rattle.std.specs.Prelude.{◌≡◌, IfOk, map};
ghost use Rattle.protobuf_parse_model.specs.Descriptors.{file_view};
ghost use Rattle.protobuf_parse_command.specs.Checked.{IsChecked};
ghost use Rattle.protobuf_parse_command.specs.Finding.{as_in_set};

use crate::arguments::Arguments;
use crate::dependencies::places_read;
use crate::excerpts::excerpts_asked;
use crate::folders::tell_missing_folders;
use crate::infos::{Infos, infos_asked};
use crate::inputs::input_of;
use crate::names::told_names;
use crate::put_back::{OwnFiles, as_in_sets, files_read, infos_of_sets};
use crate::reading::Folders;
use crate::rules::{RuleFiles, told_rules, told_texts};
use crate::set_texts::SetTexts;
use crate::sets::{Sets, sets_of};
use crate::sound::{SoundFiles, sound_files};
use crate::told::MOST_TOLD;
use crate::undeclared::tell_undeclared;
use crate::unsound::told_unsound;
use crate::walk::files_asked;
use protobuf_parse::{CheckLog, FileDescriptorProto, ProtoPathBuf, RunInput, google_files};
use protobuf_parse_diagnostics::{
    Diagnostic, Reasons, Sources, arrange, check_diagnostics, later_diagnostics,
};
use std::alloc::{AllocError, Global};
use std::collections::BTreeMap;
use std::rt::Files;

/// What came of a check.
#[derive(Drop)]
pub struct Checked {
    /// What is told, in the order in which people read it.
    pub told: Vec<Diagnostic>,
    /// The descriptors of the sound files, imports first: of all files where no error is told.
    pub files: Vec<FileDescriptorProto>,
    /// The proto paths of the inputs.
    pub inputs: Vec<ProtoPathBuf>,
    /// The source info of the files, where a set with it will be written.
    pub infos: Infos,
    /// Where the files that were read lie.
    pub places: Vec<String>,
    /// What is shown below the first of what is told, if it is shown at a terminal.
    pub excerpts: Vec<String>,
}

/// Checks the files of the command line, and all that they reach. Rules are told of each file that
/// has a tree, of those that are not sound as far as they go. Where a descriptor set can't be read,
/// that alone is told. The one error is that memory is short.
pub fn check_files<R: Files + AllocGlobal>(
    rt: &R,
    alloc: Global,
    arguments: &Arguments,
) -> Result<Checked, AllocError> {
    let mut told = Vec::new(alloc);
    let sets = sets_of(rt, alloc, &arguments.sets, &mut told)?;
    if told.is_empty() {
        return check_beside(rt, alloc, arguments, &sets);
    }
    Ok(Checked {
        told,
        files: Vec::new(alloc),
        inputs: Vec::new(alloc),
        infos: BTreeMap::new(alloc),
        places: Vec::new(alloc),
        excerpts: Vec::new(alloc),
    })
}

/// Checks the files of the command line beside those of these sets.
fn check_beside<R: Files + AllocGlobal>(
    rt: &R,
    alloc: Global,
    arguments: &Arguments,
    sets: &Sets,
) -> Result<Checked, AllocError> {
    let mut told = Vec::new(alloc);
    tell_missing_folders(rt, alloc, &arguments.includes, &mut told)?;
    let texts = SetTexts::of(alloc, sets)?;
    let folders = Folders::of(rt, alloc, arguments, texts)?;
    let given = inputs_of(rt, alloc, arguments, folders.sets(), &mut told)?;
    let inputs = names_of(alloc, &given)?;
    let log = folders.check(alloc, &given);
    checked_beside(
        alloc,
        arguments,
        sets,
        folders.sets(),
        Given { told, inputs },
        log,
        &folders,
    )
}

/// What is told of a check beside these sets, and the files that it leaves.
fn checked_beside<W: Reasons>(
    alloc: Global,
    arguments: &Arguments,
    sets: &Sets,
    texts: &SetTexts<'_>,
    given: Given,
    log: CheckLog,
    reasons: &W,
) -> Result<Checked, AllocError> {
    let own = files_read(alloc, sets, texts, &log)?;
    let places = places_read(alloc, texts, &log)?;
    let Given { mut told, inputs } = given;
    tell_undeclared(alloc, arguments, &inputs, &log, &mut told)?;
    let mut checked = checked_of(alloc, arguments, Given { told, inputs }, log, reasons)?;
    checked.places = places;
    if own.is_empty() {
        return Ok(checked);
    }
    with_own(alloc, checked, &own)
}

/// What came of the check, with the files of sets as these have them.
fn with_own(alloc: Global, checked: Checked, own: &OwnFiles<'_>) -> Result<Checked, AllocError>
    ensures told { IfOk result (λ c. c.told ≡ checked.told) }
    ensures inputs { IfOk result (λ c. c.inputs ≡ checked.inputs) }
    ensures files { IfOk result (λ c.
        map file_view c.files.items ≡ map (as_in_set own.now) checked.files.items) }
{
    let Checked {
        told,
        files,
        inputs,
        mut infos,
        places,
        excerpts,
    } = checked;
    let files = as_in_sets(alloc, &files, own)?;
    infos_of_sets(alloc, &mut infos, own)?;
    Ok(Checked {
        told,
        files,
        inputs,
        infos,
        places,
        excerpts,
    })
}

/// What is known of a command line before its files are read.
#[derive(Drop)]
struct Given {
    /// What is told of folders that aren't there, and of files that are no inputs.
    told: Vec<Diagnostic>,
    /// The proto paths of the inputs.
    inputs: Vec<ProtoPathBuf>,
}

/// What is told of a check, with what was told before it, and the files that it leaves.
fn checked_of<W: Reasons>(
    alloc: Global,
    arguments: &Arguments,
    given: Given,
    log: CheckLog,
    reasons: &W,
) -> Result<Checked, AllocError>
    ensures { IfOk result (IsChecked ⟦<Diagnostic as PartialEq>⟧.eq arguments.now.rules
        given.told.items given.inputs.items log.result) }
{
    let Given { mut told, inputs } = given;
    let CheckLog { reads, result } = log;
    let check = result?;
    let sources = Sources::of_reads(alloc, &reads, google_files())?;
    told.append(&mut check_diagnostics(alloc, &sources, &check, reasons)?)?;
    told.append(&mut later_diagnostics(alloc, &sources, &check.unread)?)?;
    told.append(&mut told_texts(alloc, arguments, &sources, &check, &inputs)?)?;
    let mut unsound = told_unsound(alloc, arguments, &sources, &check, &told, &inputs)?;
    told.append(&mut unsound)?;
    let SoundFiles { files, trees } = sound_files(alloc, check.files)?;
    let held = RuleFiles {
        files: &files,
        trees: &trees,
        inputs: &inputs,
    };
    told.append(&mut told_rules(alloc, arguments, &sources, &held)?)?;
    told.append(&mut told_names(alloc, arguments, &sources, &held)?)?;
    let infos = infos_asked(alloc, arguments, &told, &sources, &held)?;
    arrange(&mut told)?;
    let excerpts = excerpts_asked(alloc, arguments.error_format, &told, MOST_TOLD, &sources)?;
    Ok(Checked {
        told,
        files,
        inputs,
        infos,
        places: Vec::new(alloc),
        excerpts,
    })
}

/// The inputs that the files of the command line are, and what is told of those that are none.
fn inputs_of<R: Files>(
    rt: &R,
    alloc: Global,
    arguments: &Arguments,
    texts: &SetTexts<'_>,
    told: &mut Vec<Diagnostic>,
) -> Result<Vec<RunInput>, AllocError> {
    let mut inputs = Vec::new(alloc);
    for file in &files_asked(rt, alloc, &arguments.files, told)? {
        match input_of(rt, alloc, arguments, texts, file)? {
            Ok(input) => inputs.push(input)?,
            Err(fault) => told.push(fault)?,
        }
    }
    Ok(inputs)
}

/// The proto paths of the inputs.
fn names_of(alloc: Global, inputs: &[RunInput]) -> Result<Vec<ProtoPathBuf>, AllocError> {
    let mut names = Vec::new(alloc);
    for input in inputs {
        let (RunInput::Named(name) | RunInput::At { name, fs_path: _ }) = input;
        names.push(name.as_path().to_proto_path_buf(alloc)?)?;
    }
    Ok(names)
}
