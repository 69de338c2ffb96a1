//! The files of a load, judged one after another.

ghost use Rattle.std.specs.Prelude.{◌≡◌, ◌≤◌, ◌++◌, ◌∷◌, [], true, nat_eq, IfOk, OnOk, List, length};
ghost use Rattle.std.specs.Prelude.{map, string_bytes};
ghost use Rattle.std.specs.List.{list_any};
ghost use Rattle.protobuf_parse_base.specs.Multimaps.{values_under};
ghost use Rattle.std.specs.List.Sorted.{IsStrictlyIncreasing};
ghost use Rattle.protobuf_parse_syntax.specs.Counts.{statements_in};
ghost use Rattle.protobuf_parse_syntax.specs.Trees.{FileSyntax, file_syntax};
ghost use Rattle.protobuf_parse_model.specs.Descriptors as described;
ghost use Rattle.protobuf_parse_model.specs.Descriptors.{Text};
ghost use Rattle.protobuf_parse_model.specs.Tables.{TableTells};
ghost use Rattle.protobuf_parse_run.specs.Loading.{IndexBegins, descriptor_in, descriptors_with};
ghost use Rattle.protobuf_parse_run.specs.Loading.{named_trees, trees_of};
ghost use Rattle.protobuf_parse_load.specs.Loads.{IsLoadedFile};
ghost use Rattle.protobuf_parse_check.specs.Reports.{Checked, read_files};
ghost use Rattle.protobuf_parse_check.specs.Judging.{GivesVerdict, HasCuts};
ghost use Rattle.protobuf_parse_check.specs.SoFar.{BeginsIndex, IsOrdered, IsSoFar, TellsNames};

use crate::cuts::{Cuts, TrimmedTree, trimmed};
use crate::imports::imports_of;
use crate::judged::{Judged, judge_tree};
use crate::repeats::{Brought, repeats_of};
use crate::verdict::{Verdict, any_faulty, any_loses_public, any_troubled, shown, state_by};
use protobuf_parse_load::LoadedFile;
use protobuf_parse_model::{FileDescriptorProto, Seen};
use protobuf_parse_run::LoadedFile as LoadedEntry;
use protobuf_parse_run::loaded::LoadedFiles;
use protobuf_parse_run::reach::{Sights, sights_of};
use protobuf_parse_run::tables::Tables;
use protobuf_parse_syntax::FileTree;
use std::alloc::{AllocError, Global};
use std::collections::BTreeMap;
use std::snapshot::Snapshot;

/// The files that were judged.
#[derive(Drop)]
pub struct Judge {
    pub loaded: LoadedFiles,
    /// What they declare, by their numbers.
    pub tables: Tables,
    /// Which of them bring names together.
    pub brought: Brought,
    /// What is told of them, by their numbers.
    pub verdicts: Vec<Verdict>,
}

/// Which imports of a file are told.
#[derive(Clone, Copy)]
pub struct Losses {
    pub any: bool,
    pub public: bool,
}

impl Judge {
    /// No file was judged.
    pub fn new(alloc: Global) -> Self
        ensures loaded { result.loaded.entries ≡ [] }
        ensures tells { TellsNames result }
        ensures begins { BeginsIndex result }
        ensures types { (q : Text) → values_under result.brought.types q ≡ [] }
        ensures extensions { (q : Text) → values_under result.brought.extensions q ≡ [] }
        ensures verdicts { result.verdicts.items ≡ [] }
    {
        Judge {
            loaded: LoadedFiles::new(alloc),
            tables: Tables::new(alloc),
            brought: Brought {
                types: BTreeMap::new(alloc),
                extensions: BTreeMap::new(alloc),
            },
            verdicts: Vec::new(alloc),
        }
    }
}

/// Judges the next file of a load, whose imports are judged but for those that are told.
pub fn judge_file(
    alloc: Global,
    judge: &mut Judge,
    cuts: &Cuts,
    file: LoadedFile,
) -> Result<(), AllocError>
    requires few { statements_in (file_syntax file.tree) ≤ 2147483647 }
    requires tells { TellsNames judge.old }
    requires begins { BeginsIndex judge.old }
    ensures tells { OnOk result (TellsNames judge.new) }
    ensures begins { OnOk result (BeginsIndex judge.new) }
    ensures judged { (c : Checked) (path : Text) (before after : List Text) → IsOrdered c
        → HasCuts c.steps cuts.now → IsLoadedFile (read_files c) path file
        → IsSoFar c judge.old before (path ∷ after)
        → OnOk result (IsSoFar c judge.new (before ++ path ∷ []) after) }
{
    let LoadedFile { path, read, tree } = file;
    let TrimmedTree {
        tree,
        loses,
        loses_public,
    } = trimmed(alloc, cuts, &path, tree)?;
    let imports = imports_of(alloc, &judge.loaded, &tree)?;
    let sights = sights_of(alloc, &judge.loaded, &imports.numbers())?;
    judge.tables.names.add(alloc, judge.loaded.len(), &tree)?;
    let kept = Snapshot::of(&tree);
    let losses = Losses {
        any: loses,
        public: loses_public,
    };
    let (descriptor, verdict) = verdict_of(alloc, judge, &sights, losses, &path, tree)?;
    let Sights {
        reach,
        handed_on,
        ..
    } = sights;
    let entry = LoadedEntry {
        tree: kept,
        height: 0,
        reach,
        handed_on,
        read,
        descriptor,
    };
    judge.loaded.add(path, entry)?;
    judge.verdicts.push(verdict)?;
    Ok(())
}

/// What the next file becomes, and what is told of it.
fn verdict_of(
    alloc: Global,
    judge: &mut Judge,
    sights: &Sights,
    losses: Losses,
    path: &str,
    tree: FileTree,
) -> Result<(FileDescriptorProto, Verdict), AllocError>
    requires few { statements_in (file_syntax tree) ≤ 2147483647 }
    requires reach { IsStrictlyIncreasing sights.now.reach.items }
    requires sight { IsStrictlyIncreasing sights.now.sight.items }
    requires own { list_any (nat_eq (length judge.old.loaded.entries)) sights.now.reach.items
        ≡ true }
    requires begins { BeginsIndex judge.old }
    ensures loaded { judge.new.loaded ≡ judge.old.loaded }
    ensures names { judge.new.tables.names ≡ judge.old.tables.names }
    ensures verdicts { judge.new.verdicts ≡ judge.old.verdicts }
    ensures verdict { (files : List FileSyntax) → TableTells judge.old.tables.names files
        → IfOk result (λ r. GivesVerdict judge.old.loaded.entries files judge.old.tables.names
        sights.now losses path.now (file_syntax tree) judge.old.verdicts.items judge.old.brought
        judge.new.brought r.0 r.1) }
    ensures begins { (files : List FileSyntax) → TableTells judge.old.tables.names files
        → IfOk result (λ r. IndexBegins judge.new.tables.spots
        (descriptors_with judge.old.loaded.entries (described.file_view r.0))) }
{
    let seen = Seen {
        declarations: &judge.tables.names,
        sight: &sights.sight,
        reach: &sights.reach,
    };
    let repeats = repeats_of(alloc, &judge.loaded, &mut judge.brought, &seen, &tree)?;
    let wrong = losses.any || !repeats.is_empty();
    let looks_up = !wrong && !any_troubled(&judge.verdicts, &sights.reach);
    let Judged {
        descriptor,
        faults,
        faulty,
    } = judge_tree(
        alloc,
        &judge.loaded,
        &mut judge.tables.spots,
        &seen,
        looks_up,
        path,
        &tree,
    )?;
    let misses = losses.any || any_loses_public(&judge.verdicts, &sights.sight);
    let faults = shown(alloc, faults, misses, &repeats)?;
    let state = state_by(
        wrong || !faults.is_empty(),
        any_faulty(&judge.verdicts, &sights.reach),
    );
    let verdict = Verdict {
        tree,
        state,
        troubled: wrong || faulty,
        loses_public: losses.public,
        repeats,
        faults,
    };
    Ok((descriptor, verdict))
}
