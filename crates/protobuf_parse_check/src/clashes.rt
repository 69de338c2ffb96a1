//! Inputs at paths of their own, held against what was loaded for their proto paths.

ghost use Rattle.std.specs.Prelude.{◌≡◌, ◌++◌, map, IfOk, List, OnOk};
ghost use Rattle.protobuf_parse_load.specs.Loads.{step_view, steps_view};
ghost use Rattle.protobuf_parse_run.specs.Run.{Files, input_view, rows};
ghost use Rattle.protobuf_parse_check.specs.Judging.{HasReads, HoldSteps, HoldsInput, HoldsStep};
ghost use Rattle.protobuf_parse_check.specs.Judging.{IsClashOf, IsFaultOf};
ghost use Rattle.protobuf_parse_check.specs.Reports.{AreClashes, Clash, clash_in, clashes_in};

use crate::report::InputFault;
use protobuf_parse_load::LoadStep;
use protobuf_parse_run::loaded::LoadedFiles;
use protobuf_parse_run::{ReadEntry, ReadOutcome, RunFault, RunInput, compared, content_of};
use std::alloc::{AllocError, Global};

/// What was loaded, and of which inputs.
#[derive(Clone, Copy)]
pub struct LoadedInputs<'a> {
    pub inputs: &'a [RunInput],
    pub reads: &'a [ReadEntry],
    pub bundled: &'a [(&'a str, &'a str)],
    pub loaded: &'a LoadedFiles,
}

/// The faults of the inputs for which other files were loaded, in the order of the steps.
pub fn clashes_of(
    alloc: Global,
    given: &LoadedInputs<'_>,
    steps: &[LoadStep],
) -> Result<Vec<InputFault>, AllocError>
    ensures { let inputs = map input_view given.now.inputs.now in let log = given.now.reads.now in
        (files : Files) → HasReads files (rows given.now.bundled.now) log
        → HoldSteps inputs log given.now.loaded.now.entries (steps_view steps.now)
        → IfOk result
        (λ fs. AreClashes files inputs (clashes_in files (steps_view steps.now)) fs.items) }
{
    let mut clashes = Vec::new(alloc);
    for step in steps {
        add_clash(&mut clashes, alloc, given, step)?;
    }
    Ok(clashes)
}

/// Adds the fault of the input that the step held against what was loaded, if there is one.
fn add_clash(
    clashes: &mut Vec<InputFault>,
    alloc: Global,
    given: &LoadedInputs<'_>,
    step: &LoadStep,
) -> Result<(), AllocError>
    ensures { let inputs = map input_view given.now.inputs.now in let log = given.now.reads.now in
        (files : Files) (before : List Clash)
        → HasReads files (rows given.now.bundled.now) log
        → HoldsStep inputs log given.now.loaded.now.entries (step_view step.now)
        → AreClashes files inputs before clashes.old.items
        → OnOk result (AreClashes files inputs (before ++ clash_in files (step_view step.now))
        clashes.new.items) }
{
    let LoadStep::Held { input, path, read } = step else {
        return Ok(());
    };
    if let Some(fault) = clash_of(alloc, given, *input, path, *read)? {
        clashes.push(InputFault {
            input: *input,
            fault,
        })?;
    }
    Ok(())
}

/// L6 or L4 of the input with this number, for whose proto path another file was loaded than its
/// own path has, as the read with that number says.
fn clash_of(
    alloc: Global,
    given: &LoadedInputs<'_>,
    input: usize,
    path: &str,
    read: usize,
) -> Result<Option<RunFault>, AllocError>
    ensures { let inputs = map input_view given.now.inputs.now in let log = given.now.reads.now in
        (files : Files) → HasReads files (rows given.now.bundled.now) log
        → HoldsInput inputs log given.now.loaded.now.entries input path.now read
        → IfOk result (λ o. IsClashOf files inputs input path.now read o) }
{
    let Some(RunInput::At { name, fs_path }) = given.inputs.get(input) else {
        return Ok(None);
    };
    let Some(entry) = given.reads.get(read) else {
        return Ok(None);
    };
    let Some((_, file)) = given.loaded.find(path) else {
        return Ok(None);
    };
    let loaded = content_of(given.reads, file.read, given.bundled);
    match &entry.outcome {
        ReadOutcome::Content { .. } | ReadOutcome::ReaderFault(_) => {
            fault_of(compared(alloc, name, fs_path, &entry.outcome, loaded))
        }
        // A reader gives no such answer.
        ReadOutcome::NotFound | ReadOutcome::ResolverFault(_) => Ok(None),
    }
}

/// The fault, if there is one; want of memory is the one error.
fn fault_of(answer: Result<(), RunFault>) -> Result<Option<RunFault>, AllocError>
    ensures { IfOk result (λ o. IsFaultOf answer o) }
{
    match answer {
        Ok(()) => Ok(None),
        Err(RunFault::Memory) => Err(AllocError),
        Err(fault) => Ok(Some(fault)),
    }
}
