//! Who imports whom, among the files that a run read.

use crate::sources::{Trees, imports_in};
use protobuf_parse_syntax::{ImportVis, Place};
use std::alloc::{AllocError, Global};
use std::collections::{BTreeMap, BTreeSet};

/// An `import` statement.
#[derive(Clone, Copy)]
pub struct Importer<'a> {
    /// Where the file lies that has it.
    pub origin: &'a str,
    pub place: Place,
}

/// The trees of files, and by each proto path the first statement that imports it, in the order of
/// the files.
#[derive(Drop)]
pub struct Importers<'s, 't, 'a> {
    pub trees: &'s Trees<'t, 'a>,
    firsts: BTreeMap<&'t str, Importer<'a>>,
}

impl<'s, 't, 'a> Importers<'s, 't, 'a> {
    /// Those of these files. The one error is that memory is short.
    pub fn of(alloc: Global, trees: &'s Trees<'t, 'a>) -> Result<Self, AllocError> {
        let mut firsts = BTreeMap::new(alloc);
        for file in &trees.files {
            let origin = file.source.origin;
            for import in imports_in(alloc, file.tree)? {
                let place = import.place;
                firsts
                    .entry(import.path.as_path().to_str())?
                    .or_insert(Importer { origin, place });
            }
        }
        Ok(Importers { trees, firsts })
    }

    /// The first statement that imports the proto path.
    pub fn first(&self, path: &str) -> Option<Importer<'a>> {
        self.firsts.get(path).copied()
    }
}

/// Where the file of the first proto path imports the second one.
pub fn import_place(
    alloc: Global,
    trees: &Trees<'_, '_>,
    from: &str,
    path: &str,
) -> Result<Option<Place>, AllocError> {
    let Some(file) = trees.of_path(from) else {
        return Ok(None);
    };
    for import in imports_in(alloc, file.tree)? {
        if import.path.as_path().to_str() == path {
            return Ok(Some(import.place));
        }
    }
    Ok(None)
}

/// Where the file of this proto path first imports one from which a chain of that many files goes
/// on, itself counted.
pub fn long_import(
    alloc: Global,
    trees: &Trees<'_, '_>,
    path: &str,
    files: usize,
) -> Result<Option<Place>, AllocError> {
    let Some(file) = trees.of_path(path) else {
        return Ok(None);
    };
    let long = begin_chains(alloc, trees, files)?;
    for import in imports_in(alloc, file.tree)? {
        if let Some(next) = trees.position(import.path.as_path().to_str()) {
            if is_marked(&long, next) {
                return Ok(Some(import.place));
            }
        }
    }
    Ok(None)
}

/// Of each file, whether a chain of that many files begins with it, two or more. The last one need
/// not have been read.
fn begin_chains(
    alloc: Global,
    trees: &Trees<'_, '_>,
    files: usize,
) -> Result<Vec<bool>, AllocError> {
    let mut nexts: Vec<Vec<usize>> = Vec::new(alloc);
    let mut long: Vec<bool> = Vec::new(alloc);
    for file in &trees.files {
        let imports = imports_in(alloc, file.tree)?;
        long.push(!imports.is_empty())?;
        let mut next = Vec::new(alloc);
        for import in imports {
            if let Some(at) = trees.position(import.path.as_path().to_str()) {
                next.push(at)?;
            }
        }
        nexts.push(next)?;
    }
    for _ in 2..files {
        long = one_longer(alloc, &nexts, &long)?;
    }
    Ok(long)
}

/// Of each file, whether one of the next files is marked.
fn one_longer(
    alloc: Global,
    nexts: &[Vec<usize>],
    marked: &[bool],
) -> Result<Vec<bool>, AllocError> {
    let mut longer = Vec::with_capacity(alloc, nexts.len())?;
    for next in nexts {
        longer.push(next.iter().any(|at| is_marked(marked, *at)))?;
    }
    Ok(longer)
}

fn is_marked(marked: &[bool], at: usize) -> bool {
    marked.get(at).copied().unwrap_or(false)
}

/// Which imports are followed.
#[derive(Clone, Copy, PartialEq, Eq)]
enum Followed {
    All,
    /// Public ones alone, but all of the first file.
    Public,
}

/// The positions of the files that the file at this position reaches, its own too.
pub fn reached(
    alloc: Global,
    trees: &Trees<'_, '_>,
    from: usize,
) -> Result<BTreeSet<usize>, AllocError> {
    positions_by(alloc, trees, from, Followed::All)
}

/// The positions of the files that the file at this position sees, its own too.
pub fn seen(
    alloc: Global,
    trees: &Trees<'_, '_>,
    from: usize,
) -> Result<BTreeSet<usize>, AllocError> {
    positions_by(alloc, trees, from, Followed::Public)
}

fn positions_by(
    alloc: Global,
    trees: &Trees<'_, '_>,
    from: usize,
    which: Followed,
) -> Result<BTreeSet<usize>, AllocError> {
    let mut positions = BTreeSet::new(alloc);
    for step in &walk_from(alloc, trees, from, which)? {
        positions.insert(step.file)?;
    }
    Ok(positions)
}

/// A file that is met by a walk, and at which step of the walk the file was that imports it.
#[derive(Clone, Copy)]
struct Step {
    file: usize,
    by: usize,
}

/// Meets each file once, those nearer to the first one first.
fn walk_from(
    alloc: Global,
    trees: &Trees<'_, '_>,
    from: usize,
    which: Followed,
) -> Result<Vec<Step>, AllocError> {
    let mut met: BTreeSet<usize> = BTreeSet::new(alloc);
    let mut steps: Vec<Step> = Vec::new(alloc);
    meet(&mut met, &mut steps, from, 0)?;
    for by in 0..trees.files.len() {
        let Some(step) = steps.get(by) else {
            break;
        };
        let Some(file) = trees.files.get(step.file) else {
            break;
        };
        for import in imports_in(alloc, file.tree)? {
            if by > 0 && which == Followed::Public && import.vis != ImportVis::Public {
                continue;
            }
            if let Some(next) = trees.position(import.path.as_path().to_str()) {
                meet(&mut met, &mut steps, next, by)?;
            }
        }
    }
    Ok(steps)
}

fn meet(
    met: &mut BTreeSet<usize>,
    steps: &mut Vec<Step>,
    file: usize,
    by: usize,
) -> Result<(), AllocError> {
    if met.insert(file)? {
        steps.push(Step { file, by })?;
    }
    Ok(())
}

/// The proto paths of a shortest chain of files, each imported by the one before it, from the file
/// of this path to itself. Empty where there is none.
pub fn cycle_at<'a>(
    alloc: Global,
    trees: &Trees<'_, 'a>,
    path: &str,
) -> Result<Vec<&'a str>, AllocError> {
    let Some(from) = trees.position(path) else {
        return Ok(Vec::new(alloc));
    };
    let steps = walk_from(alloc, trees, from, Followed::All)?;
    for (i, step) in steps.iter().enumerate() {
        let Some(file) = trees.files.get(step.file) else {
            break;
        };
        if import_place(alloc, trees, file.source.path, path)?.is_some() {
            return chain_to(alloc, trees, &steps, i);
        }
    }
    Ok(Vec::new(alloc))
}

/// The paths from the first step to that one, and the first one again.
fn chain_to<'a>(
    alloc: Global,
    trees: &Trees<'_, 'a>,
    steps: &[Step],
    last: usize,
) -> Result<Vec<&'a str>, AllocError> {
    let mut chain = Vec::new(alloc);
    push_path(&mut chain, trees, steps, 0)?;
    let mut at = last;
    for _ in 0..steps.len() {
        push_path(&mut chain, trees, steps, at)?;
        if at == 0 {
            break;
        }
        at = steps.get(at).map_or(0, |step| step.by);
    }
    chain.reverse();
    Ok(chain)
}

fn push_path<'a>(
    chain: &mut Vec<&'a str>,
    trees: &Trees<'_, 'a>,
    steps: &[Step],
    at: usize,
) -> Result<(), AllocError> {
    if let Some(step) = steps.get(at) {
        if let Some(file) = trees.files.get(step.file) {
            chain.push(file.source.path)?;
        }
    }
    Ok(())
}
