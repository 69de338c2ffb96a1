//! Where files declare what they declare.

use crate::outline::{Declared, DeclaredKind, Outline};
use crate::sources::{Sources, tree_of};
use protobuf_parse_syntax::{FileTree, Place};
use std::alloc::{AllocError, Global};
use std::collections::BTreeMap;

/// The places of the statements of a file that declare something, by what they declare and by full
/// names.
#[derive(Drop)]
pub struct DeclarationPlaces {
    places: BTreeMap<DeclaredKind, BTreeMap<String, Vec<Place>>>,
}

/// Where the declarations of a file begin, in the order of its text. The one error is that memory
/// is short.
pub fn declaration_starts(alloc: Global, tree: &FileTree) -> Result<Vec<Place>, AllocError> {
    let outline = Outline::of(alloc, tree)?;
    let mut starts = Vec::with_capacity(alloc, outline.declared.len())?;
    for declared in &outline.declared {
        starts.push(declared.place)?;
    }
    Ok(starts)
}

impl DeclarationPlaces {
    /// Those of the file of this proto path; none where the run read no such file, or it has no
    /// tree. The one error is that memory is short.
    pub fn of(alloc: Global, sources: &Sources<'_>, path: &str) -> Result<Self, AllocError> {
        let tree = match sources.of_path(path) {
            Some(source) => tree_of(alloc, source.text)?,
            None => None,
        };
        match tree {
            Some(tree) => {
                let outline = Outline::of(alloc, &tree)?;
                DeclarationPlaces::of_outline(alloc, &outline)
            }
            None => Ok(DeclarationPlaces {
                places: BTreeMap::new(alloc),
            }),
        }
    }

    /// Those that the outline of a file tells of.
    pub(crate) fn of_outline(alloc: Global, outline: &Outline<'_>) -> Result<Self, AllocError> {
        let mut places = BTreeMap::new(alloc);
        for declared in &outline.declared {
            add(alloc, &mut places, declared)?;
        }
        Ok(DeclarationPlaces { places })
    }

    /// The place of the first statement that declares a construct of that kind with that full name,
    /// which has a dot at its head. A field that a group declares, and what stands behind a map,
    /// has the place of the group or the map; an enum's value stands beside its enum.
    pub fn place(&self, kind: DeclaredKind, full: &str) -> Option<Place> {
        self.nth_place(kind, full, 0)
    }

    /// The same of the statement before which so many declare a construct of that kind with that
    /// full name.
    pub fn nth_place(&self, kind: DeclaredKind, full: &str, before: usize) -> Option<Place> {
        self.places.get(&kind)?.get(full)?.get(before).copied()
    }
}

fn add(
    alloc: Global,
    places: &mut BTreeMap<DeclaredKind, BTreeMap<String, Vec<Place>>>,
    declared: &Declared<'_>,
) -> Result<(), AllocError> {
    let full = declared.full.clone()?;
    places
        .entry(declared.kind)?
        .or_insert(BTreeMap::new(alloc))
        .entry(full)?
        .or_insert(Vec::new(alloc))
        .push(declared.place)?;
    Ok(())
}
