//! The files that a run read, and what they declare.

use crate::imports::{reached, seen};
use crate::outline::{Declared, Outline};
use crate::sources::{Source, Trees};
use std::alloc::{AllocError, Global};
use std::collections::{BTreeMap, BTreeSet};

/// A file, and what its tree declares.
#[derive(Drop)]
pub struct KnownFile<'t, 'a> {
    pub source: Source<'a>,
    pub outline: Outline<'t>,
}

/// The files of these trees, in their order. The one error is that memory is short.
pub fn known_files<'t, 'a>(
    alloc: Global,
    trees: &Trees<'t, 'a>,
) -> Result<Vec<KnownFile<'t, 'a>>, AllocError> {
    let mut files = Vec::new(alloc);
    for file in &trees.files {
        files.push(KnownFile {
            source: file.source,
            outline: Outline::of(alloc, file.tree)?,
        })?;
    }
    Ok(files)
}

/// A declaration, and the position of the file that has it.
#[derive(Clone, Copy)]
pub struct Found<'k, 't> {
    pub declared: &'k Declared<'t>,
    pub file: usize,
}

/// The files, and their declarations by the last parts of their names.
#[derive(Drop)]
pub struct Known<'k, 't, 'a> {
    pub files: &'k [KnownFile<'t, 'a>],
    by_name: BTreeMap<&'k str, Vec<Found<'k, 't>>>,
}

impl<'k, 't, 'a> Known<'k, 't, 'a> {
    /// What these files declare. The one error is that memory is short.
    pub fn of(alloc: Global, files: &'k [KnownFile<'t, 'a>]) -> Result<Self, AllocError> {
        let mut by_name: BTreeMap<&'k str, Vec<Found<'k, 't>>> = BTreeMap::new(alloc);
        for (file, each) in files.iter().enumerate() {
            for declared in &each.outline.declared {
                by_name
                    .entry(declared.name())?
                    .or_insert(Vec::new(alloc))
                    .push(Found { declared, file })?;
            }
        }
        Ok(Known { files, by_name })
    }

    /// The declarations whose full names end in the last part of this name, in the order of the
    /// files and of their texts, if there are any.
    pub fn of_last_part(&self, name: &str) -> Option<&Vec<Found<'k, 't>>> {
        let last = match name.rsplit_once('.') {
            Some((_, last)) => last,
            None => name,
        };
        self.by_name.get(last)
    }
}

/// The files as one of them sees them.
#[derive(Drop)]
pub struct Sight<'s, 'k, 't, 'a> {
    pub known: &'s Known<'k, 't, 'a>,
    /// The position of that one file.
    pub at: usize,
    sees: BTreeSet<usize>,
    reaches: BTreeSet<usize>,
}

impl<'s, 'k, 't, 'a> Sight<'s, 'k, 't, 'a> {
    /// The files as the one at this position sees them. The one error is that memory is short.
    pub fn of(
        alloc: Global,
        trees: &Trees<'_, 'a>,
        known: &'s Known<'k, 't, 'a>,
        at: usize,
    ) -> Result<Self, AllocError> {
        Ok(Sight {
            known,
            at,
            sees: seen(alloc, trees, at)?,
            reaches: reached(alloc, trees, at)?,
        })
    }

    /// The outline of that one file.
    pub fn own(&self) -> Option<&'k Outline<'t>> {
        self.known.files.get(self.at).map(|own| &own.outline)
    }

    /// Whether it sees the file at that position.
    pub fn sees(&self, file: usize) -> bool {
        self.sees.contains(&file)
    }

    /// Of these declarations those of files that it reaches, in their order.
    pub fn reached_of(
        &self,
        alloc: Global,
        all: &[Found<'k, 't>],
    ) -> Result<Vec<Found<'k, 't>>, AllocError> {
        let mut reached = Vec::new(alloc);
        if all.len() <= self.reaches.len() {
            for found in all {
                if self.reaches.contains(&found.file) {
                    reached.push(*found)?;
                }
            }
            return Ok(reached);
        }
        // Many files may declare one name, each of which reaches few others.
        for file in self.reaches.iter() {
            let first = all.partition_point(|found| found.file < *file);
            for found in all.iter().skip(first) {
                if found.file != *file {
                    break;
                }
                reached.push(*found)?;
            }
        }
        Ok(reached)
    }
}
