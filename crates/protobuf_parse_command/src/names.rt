//! Rules of names and of message constants.

ghost use Rattle.std.specs.Prelude.{IfOk, OnOk};
ghost use Rattle.protobuf_parse_command.specs.Checked.{AreTextRulesTold};

use crate::arguments::Arguments;
use crate::rules::{RuleFiles, TextsAsked, paths_of};
use protobuf_parse::FileDescriptorProto;
use protobuf_parse_diagnostics::{
    Diagnostic, NamedTree, RuleLevel, Sources, text_rule_diagnostics,
};
use protobuf_parse_index::Index;
use protobuf_parse_name_rules::{NameFiles, name_violations};
use std::alloc::{AllocError, Global};
use std::collections::{BTreeMap, BTreeSet};

/// What is told of names and of message constants in all files, or where that is asked for in the
/// inputs alone. The one error is that memory is short.
pub fn told_names(
    alloc: Global,
    arguments: &Arguments,
    sources: &Sources<'_>,
    held: &RuleFiles<'_>,
) -> Result<Vec<Diagnostic>, AllocError>
    ensures { IfOk result (λ told. AreTextRulesTold arguments.now.rules told.items) }
{
    let mut told = Vec::new(alloc);
    if matches!(arguments.rules, RuleLevel::Off) {
        return Ok(told);
    }
    let index = Index::of(alloc, held.files)?;
    let paths = files_by_paths(alloc, held.files)?;
    let inputs = paths_of(alloc, held.inputs)?;
    for tree in held.trees {
        let asked = TextsAsked::of(arguments, &inputs, &tree.path);
        if asked.asks() {
            let seen = seen_by(alloc, &paths, &tree.path)?;
            let files = NameFiles {
                index: &index,
                seen: &seen,
            };
            tell_names(alloc, &mut told, asked, sources, &files, tree)?;
        }
    }
    Ok(told)
}

/// Tells those of the file of this tree.
fn tell_names(
    alloc: Global,
    told: &mut Vec<Diagnostic>,
    asked: TextsAsked<'_>,
    sources: &Sources<'_>,
    files: &NameFiles<'_, '_>,
    tree: &NamedTree,
) -> Result<(), AllocError>
    ensures { AreTextRulesTold asked.entry.arguments.now.rules told.old.items
        → OnOk result (AreTextRulesTold asked.entry.arguments.now.rules told.new.items) }
{
    let Some(source) = sources.of_path(&tree.path) else {
        return Ok(());
    };
    let mut found = name_violations(alloc, files, &tree.tree)?;
    found.retain(|violation| asked.has(violation.rule));
    let level = asked.arguments.rules;
    told.append(&mut text_rule_diagnostics(alloc, source.origin, &found, level)?)?;
    Ok(())
}

/// The files by their proto paths.
fn files_by_paths(
    alloc: Global,
    files: &[FileDescriptorProto],
) -> Result<BTreeMap<&str, &FileDescriptorProto>, AllocError> {
    let mut paths = BTreeMap::new(alloc);
    for file in files {
        if let Some(name) = &file.name {
            paths.insert(name.as_str(), file)?;
        }
    }
    Ok(paths)
}

/// The proto paths of the files that the file sees: its own, those that it imports, and what these
/// import publicly.
fn seen_by<'a>(
    alloc: Global,
    paths: &BTreeMap<&'a str, &'a FileDescriptorProto>,
    path: &'a str,
) -> Result<Vec<&'a str>, AllocError> {
    let mut seen = Vec::new(alloc);
    seen.push(path)?;
    let Some(file) = paths.get(path) else {
        return Ok(seen);
    };
    let mut met: BTreeSet<&str> = BTreeSet::new(alloc);
    for import in &file.dependency {
        if met.insert(import.as_str())? {
            seen.push(import.as_str())?;
        }
    }
    // Each file is seen once, so no more of them are walked than there are.
    for next in 1..paths.len().saturating_add(1) {
        let Some(import) = seen.get(next) else {
            break;
        };
        if let Some(file) = paths.get(*import) {
            add_public(&mut seen, &mut met, file)?;
        }
    }
    Ok(seen)
}

/// Adds what the file imports publicly, each that was not met.
fn add_public<'a>(
    seen: &mut Vec<&'a str>,
    met: &mut BTreeSet<&'a str>,
    file: &'a FileDescriptorProto,
) -> Result<(), AllocError> {
    for index in &file.public_dependency {
        let Ok(index) = usize::try_from(*index) else {
            continue;
        };
        if let Some(import) = file.dependency.get(index) {
            if met.insert(import.as_str())? {
                seen.push(import.as_str())?;
            }
        }
    }
    Ok(())
}
