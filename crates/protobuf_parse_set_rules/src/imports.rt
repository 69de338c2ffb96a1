//! The files of a set by their paths, and what they import.

ghost use Rattle.std.specs.Prelude.{◌≡◌, ◌++◌, IfOk, OnOk, map};
ghost use Rattle.std.specs.Prelude.{option_to_list, string_bytes};
ghost use Rattle.protobuf_parse_model.specs.Descriptors.{file_view};
ghost use Rattle.protobuf_parse_set_rules.specs.Sights as spec;
ghost use Rattle.protobuf_parse_set_rules.specs.Positions.{at_index, position_in};
ghost use Rattle.protobuf_parse_set_rules.specs.Types.{set_types, type_name};
ghost use Rattle.protobuf_parse_set_rules.specs.Held.{known_view, lists_view, positions_view};
ghost use Rattle.protobuf_parse_set_rules.specs.Held.{texts_of, type_view};

use crate::known::KnownSet;
use crate::positions::{Positions, positions_of, text_at};
use crate::types::{TypeName, names_of};
use protobuf_parse_model::FileDescriptorProto;
use std::alloc::{AllocError, Global};

/// What is known of these files, which declare these types.
pub fn known_of<'p, 't>(
    alloc: Global,
    files: &'p [FileDescriptorProto],
    types: &'t [TypeName],
) -> Result<KnownSet<'p, 't>, AllocError>
    ensures { IfOk result (λ known. map type_view types.now ≡ set_types (map file_view files.now)
        → known_view known ≡ spec.known_of (map file_view files.now)) }
{
    let paths = files_by_path(alloc, files)?;
    let publics = publics_of(alloc, &paths, files)?;
    let names = types_by_name(alloc, types)?;
    Ok(KnownSet {
        paths,
        publics,
        types,
        names,
    })
}

/// The positions of the files, by their paths.
fn files_by_path<'p>(
    alloc: Global,
    files: &'p [FileDescriptorProto],
) -> Result<Positions<'p>, AllocError>
    ensures { IfOk result (λ m. positions_view m ≡ spec.paths_of (map file_view files.now)) }
{
    let texts = paths_of(alloc, files)?;
    positions_of(alloc, &texts)
}

/// The positions of the types, by their names.
fn types_by_name<'t>(alloc: Global, types: &'t [TypeName]) -> Result<Positions<'t>, AllocError>
    ensures { IfOk result (λ m. positions_view m
        ≡ position_in (map type_name (map type_view types.now))) }
{
    let texts = names_of(alloc, types)?;
    positions_of(alloc, &texts)
}

/// The path of the file.
pub fn path_of(file: &FileDescriptorProto) -> &str
    ensures { result.now ≡ spec.path_of (file_view file.now) }
{
    match &file.name {
        Some(name) => name,
        None => "",
    }
}

/// Those of the files, in order.
fn paths_of<'a>(alloc: Global, files: &'a [FileDescriptorProto]) -> Result<Vec<&'a str>, AllocError>
    ensures { IfOk result (λ v. texts_of v.items ≡ map spec.path_of (map file_view files.now)) }
{
    let mut paths = Vec::with_capacity(alloc, files.len())?;
    'files: for file in files {
        paths.push(path_of(file))?;
    }
    Ok(paths)
}

/// The position of the file of that path, if it stands before the one at `position`.
pub fn file_before(paths: &Positions<'_>, position: usize, path: &str) -> Option<usize>
    ensures { result ≡ spec.file_before (positions_view paths.now) position path.now }
{
    match paths.get(path) {
        Some(found) if *found < position => Some(*found),
        _ => None,
    }
}

/// The positions of those of the paths that files before have.
pub fn files_before(
    alloc: Global,
    paths: &Positions<'_>,
    position: usize,
    wanted: &[String],
) -> Result<Vec<usize>, AllocError>
    ensures { IfOk result (λ v. v.items ≡ spec.files_before (positions_view paths.now) position
        (map string_bytes wanted.now)) }
{
    let mut found = Vec::new(alloc);
    'wanted: for path in wanted {
        add_before(&mut found, paths, position, path)?;
    }
    Ok(found)
}

fn add_before(
    found: &mut Vec<usize>,
    paths: &Positions<'_>,
    position: usize,
    path: &str,
) -> Result<(), AllocError>
    ensures { OnOk result (found.new.items ≡ found.old.items
        ++ option_to_list (spec.file_before (positions_view paths.now) position path.now)) }
{
    match file_before(paths, position, path) {
        Some(before) => {
            found.push(before)?;
            Ok(())
        }
        None => Ok(()),
    }
}

/// Of each file the positions of the files before it that it imports publicly.
fn publics_of(
    alloc: Global,
    paths: &Positions<'_>,
    files: &[FileDescriptorProto],
) -> Result<Vec<Vec<usize>>, AllocError>
    ensures { IfOk result (λ v. lists_view v.items
        ≡ spec.publics_of (positions_view paths.now) (map file_view files.now)) }
{
    let mut publics = Vec::with_capacity(alloc, files.len())?;
    'files: for (position, file) in files.iter().enumerate() {
        let imports = publics_at(alloc, paths, position, file)?;
        publics.push(imports)?;
    }
    Ok(publics)
}

fn publics_at(
    alloc: Global,
    paths: &Positions<'_>,
    position: usize,
    file: &FileDescriptorProto,
) -> Result<Vec<usize>, AllocError>
    ensures { IfOk result (λ v. v.items ≡ spec.files_before (positions_view paths.now) position
        (spec.public_paths (file_view file.now))) }
{
    let mut found = Vec::new(alloc);
    'publics: for index in &file.public_dependency {
        add_at(&mut found, paths, position, &file.dependency, index)?;
    }
    Ok(found)
}

fn add_at(
    found: &mut Vec<usize>,
    paths: &Positions<'_>,
    position: usize,
    imports: &[String],
    index: &i32,
) -> Result<(), AllocError>
    ensures { OnOk result (found.new.items ≡ found.old.items
        ++ spec.files_before (positions_view paths.now) position
        (option_to_list (at_index (map string_bytes imports.now) index.now))) }
{
    match text_at(imports, index) {
        Some(path) => add_before(found, paths, position, path),
        None => Ok(()),
    }
}
