//! What a file of a set sees.

ghost use Rattle.std.specs.Prelude.{◌≡◌, ◌||◌, ℕ, Bool, IfOk, OnOk, map, slice_get};
ghost use Rattle.std.specs.List.{list_any};
ghost use Rattle.protobuf_parse_model.specs.Descriptors.{file_view};
ghost use Rattle.protobuf_parse_set_rules.specs.Sights as spec;
ghost use Rattle.protobuf_parse_set_rules.specs.Steps.{IsBelow};
ghost use Rattle.protobuf_parse_set_rules.specs.Held.{has, known_view, sight_view, type_view};

use crate::imports::files_before;
use crate::known::KnownSet;
use crate::positions::Positions;
use crate::types::TypeName;
use protobuf_parse_model::{FileDescriptorProto, TypeKind};
use std::alloc::{AllocError, Global};
use std::collections::BTreeSet;

/// What a file sees: the types that are declared in files at some positions.
#[derive(Drop)]
pub struct FileSight<'a, 't> {
    pub types: &'t [TypeName],
    /// The positions of the types, by their names.
    pub names: &'a Positions<'t>,
    /// The positions of the files whose types are seen.
    pub files: BTreeSet<usize>,
}

impl<'a, 't> FileSight<'a, 't> {
    /// What the full name means.
    pub fn meaning(&self, name: &str) -> Option<TypeKind>
        ensures { result ≡ sight_view self.now name.now }
    {
        match self.names.get(name) {
            Some(position) => self.kind_at(*position),
            None => None,
        }
    }

    /// Of what kind the type at that position is, if its file is seen.
    fn kind_at(&self, position: usize) -> Option<TypeKind>
        ensures { result ≡ spec.kind_seen (has self.now.files)
            (slice_get (map type_view self.now.types.now) position) }
    {
        match self.types.get(position) {
            Some(found) if self.files.contains(&found.file) => Some(found.kind),
            _ => None,
        }
    }
}

/// What the file at that position sees.
pub fn sight_of<'a, 't>(
    alloc: Global,
    known: &'a KnownSet<'_, 't>,
    position: usize,
    file: &FileDescriptorProto,
) -> Result<FileSight<'a, 't>, AllocError>
    ensures { IfOk result (λ sight. sight_view sight
        ≡ spec.sight_of (known_view known.now) position (file_view file.now)) }
{
    let imports = files_before(alloc, &known.paths, position, &file.dependency)?;
    let files = files_seen(alloc, known, position, &imports)?;
    Ok(FileSight {
        types: known.types,
        names: &known.names,
        files,
    })
}

/// The positions of the files that a file sees, with its own.
fn files_seen(
    alloc: Global,
    known: &KnownSet<'_, '_>,
    own: usize,
    imports: &[usize],
) -> Result<BTreeSet<usize>, AllocError>
    ensures { IfOk result (λ seen. (to : ℕ) → has seen to
        ≡ spec.sees_file (known_view known.now).publics own imports.now to) }
{
    let mut seen = BTreeSet::new(alloc);
    seen.insert(own)?;
    let mut open = BTreeSet::new(alloc);
    add_each(&mut open, imports)?;
    'open: while let Some(last) = open.pop_last() {
        seen.insert(last)?;
        add_each(&mut open, publics_at(known, last))?;
    }
    Ok(seen)
}

/// The positions of the files that the one at `position` imports publicly.
fn publics_at<'a>(known: &'a KnownSet<'_, '_>, position: usize) -> &'a [usize]
    ensures is { result.now ≡ spec.publics_at (known_view known.now).publics position }
    ensures below { IsBelow position result.now }
{
    match known.publics.get(position) {
        Some(publics) => publics,
        None => &[],
    }
}

/// These positions too.
fn add_each(open: &mut BTreeSet<usize>, positions: &[usize]) -> Result<(), AllocError>
    ensures { OnOk result ((test : ℕ → Bool) → list_any test open.new.keys
        ≡ (list_any test open.old.keys || list_any test positions.now)) }
{
    'positions: for position in positions {
        open.insert(*position)?;
    }
    Ok(())
}
