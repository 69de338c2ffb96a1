//! A check: all that is wrong in the files that inputs reach.

ghost use Rattle.std.specs.Prelude.{◌≡◌, [], IfOk, map};
ghost use Rattle.protobuf_parse_run.specs.Run.{HaveTrees, MayAnswer, input_view, rows};
ghost use Rattle.protobuf_parse_load.specs.Loads.{AreLoadedFiles, steps_view};
ghost use Rattle.protobuf_parse_load.specs.Steps.{closed_paths};
ghost use Rattle.protobuf_parse_check.specs.Reports.{Checked, ChecksAsTold, HaveOrderedLists};
ghost use Rattle.protobuf_parse_check.specs.Reports.{AreClashes, AreReports, clashes_in};
ghost use Rattle.protobuf_parse_check.specs.Reports.{files_of, read_files};
ghost use Rattle.protobuf_parse_check.specs.Judging.{HasReads};
ghost use Rattle.protobuf_parse_check.specs.SoFar.{AreFew, HoldReads, IsLoadOf, IsOrdered, IsSoFar};
ghost use Rattle.protobuf_parse_check.specs.SoFar.{report_in, reports_of};

use crate::clashes::{LoadedInputs, clashes_of};
use crate::cuts::cuts_of;
use crate::judge::{Judge, judge_file};
use crate::report::{Check, CheckLog, FileReport};
use crate::verdict::Verdict;
use protobuf_parse_load::{Load, LoadLog, LoadStep, LoadedFile, load_inputs};
use protobuf_parse_run::{
    InputReader, LoadedFile as LoadedEntry, ProtoPathResolver, ReadEntry, RunInput,
};
use std::alloc::{AllocError, Global};

/// Loads the inputs in turn, each file that they reach once and after its imports, and tells all
/// that is wrong in each. Nothing ends it but want of memory.
pub fn check_inputs<'a, R: ProtoPathResolver, I: InputReader>(
    alloc: Global,
    inputs: &[RunInput],
    resolver: &'a R,
    reader: &'a I,
    bundled: &'a [(&'a str, &'a str)],
) -> CheckLog
    ensures trees { HaveTrees (rows bundled.now) result.reads.items }
    ensures lists { HaveOrderedLists (map input_view inputs.now) (rows bundled.now)
        result.reads.items }
    ensures told { ChecksAsTold (MayAnswer (R.may_answer resolver.now) (I.may_read reader.now))
        (map input_view inputs.now) (rows bundled.now) result.reads.items result.result }
{
    let LoadLog { reads, result } = load_inputs(alloc, inputs, resolver, reader, bundled);
    let result = match result {
        Ok(load) => checked(alloc, inputs, &reads, bundled, load),
        Err(error) => Err(error),
    };
    CheckLog { reads, result }
}

/// What is told of what was loaded.
fn checked(
    alloc: Global,
    inputs: &[RunInput],
    reads: &[ReadEntry],
    bundled: &[(&str, &str)],
    load: Load,
) -> Result<Check, AllocError>
    requires few { AreFew load.files.items }
    ensures steps { IfOk result (λ check. check.steps ≡ load.steps) }
    ensures unread { IfOk result (λ check. check.unread ≡ load.unread) }
    ensures clashes { (c : Checked) → IsOrdered c → IsLoadOf c load
        → HasReads (files_of c) (rows bundled.now) reads.now
        → HoldReads (map input_view inputs.now) reads.now (closed_paths c.steps) c.steps
        → IfOk result (λ check. AreClashes (files_of c) (map input_view inputs.now)
        (clashes_in (files_of c) c.steps) check.clashes.items) }
    ensures files { (c : Checked) → IsOrdered c → IsLoadOf c load
        → IfOk result (λ check. AreReports c (closed_paths c.steps) check.files.items) }
{
    let Load {
        steps,
        files,
        unread,
    } = load;
    let judge = judged_files(alloc, &steps, files)?;
    let given = LoadedInputs {
        inputs,
        reads,
        bundled,
        loaded: &judge.loaded,
    };
    let clashes = clashes_of(alloc, &given, &steps)?;
    let files = reports(alloc, judge)?;
    Ok(Check {
        steps,
        unread,
        clashes,
        files,
    })
}

/// The files of a load, judged in their order.
fn judged_files(
    alloc: Global,
    steps: &[LoadStep],
    files: Vec<LoadedFile>,
) -> Result<Judge, AllocError>
    requires few { AreFew files.items }
    ensures { (c : Checked) → IsOrdered c → steps_view steps.now ≡ c.steps
        → AreLoadedFiles (read_files c) (closed_paths c.steps) files.items
        → IfOk result (λ j. IsSoFar c j (closed_paths c.steps) []) }
{
    let cuts = cuts_of(alloc, steps)?;
    let mut judge = Judge::new(alloc);
    for file in files {
        judge_file(alloc, &mut judge, &cuts, file)?;
    }
    Ok(judge)
}

/// Their reports, in their order.
fn reports(alloc: Global, judge: Judge) -> Result<Vec<FileReport>, AllocError>
    ensures { IfOk result
        (λ v. v.items ≡ reports_of judge.loaded.entries judge.verdicts.items) }
{
    let Judge {
        loaded,
        tables: _,
        brought: _,
        verdicts,
    } = judge;
    let mut reports = Vec::new(alloc);
    let mut entries = loaded.into_entries().into_iter();
    for verdict in verdicts {
        if let Some((path, entry)) = entries.next() {
            reports.push(report_of(path, entry, verdict))?;
        }
    }
    Ok(reports)
}

/// The report of a file.
fn report_of(path: String, entry: LoadedEntry, verdict: Verdict) -> FileReport
    ensures { result ≡ report_in (path, entry) verdict }
{
    let Verdict {
        tree,
        state,
        troubled: _,
        loses_public: _,
        repeats,
        faults,
    } = verdict;
    FileReport {
        path,
        read: entry.read,
        tree,
        state,
        repeats,
        faults,
        descriptor: entry.into_descriptor(),
    }
}
