//! What a file becomes, once its imports are loaded.

ghost use Rattle.std.specs.Prelude.{◌≡◌, ◌≤◌, [], List, map, option_map, slice_get, IfOk};
ghost use Rattle.std.specs.List.Sorted.{IsStrictlyIncreasing};
ghost use Rattle.protobuf_parse_syntax.specs.Counts.{statements_in};
ghost use Rattle.protobuf_parse_syntax.specs.Trees.{FileSyntax, file_syntax};
ghost use Rattle.protobuf_parse_model.specs.Descriptors as described;
ghost use Rattle.protobuf_parse_model.specs.Faults.{Elaborates};
ghost use Rattle.protobuf_parse_model.specs.Tables.{TableTells, picked};
ghost use Rattle.protobuf_parse_elaboration.specs.FileDescriptor.{environment, file_faults};
ghost use Rattle.protobuf_parse_elaboration.specs.FileDescriptor.{file_of};
ghost use Rattle.protobuf_parse_options.specs.Holding.{Holds};
ghost use Rattle.protobuf_parse_run.specs.Loading.{IndexBegins, ElaboratesTo, customs_over};
ghost use Rattle.protobuf_parse_run.specs.Loading.{descriptor_in, descriptor_seen};
ghost use Rattle.protobuf_parse_run.specs.Loading.{descriptors_with, repeats_over};

use crate::loaded::LoadedFiles;
use crate::reach::Sights;
use crate::repeats::link_at_places;
use crate::tables::{RunSpots, Tables, add_next};
use protobuf_parse_elaboration::{elaborate, elaborate_owned};
use protobuf_parse_model::{ElabFailure, FileDescriptorProto, Seen, WithoutCustoms};
use protobuf_parse_options::{PickedFiles, Spots, WithCustoms, has_custom_option};
use protobuf_parse_syntax::FileTree;
use std::alloc::{AllocError, Global};

/// What a file becomes over the files that it reaches and sees, if none of their names is declared
/// twice. Its tree is dropped on the way, statement by statement.
pub fn elaborated(
    alloc: Global,
    loaded: &LoadedFiles,
    tables: &mut Tables,
    sights: &Sights,
    path: &str,
    tree: FileTree,
) -> Result<FileDescriptorProto, ElabFailure>
    requires few { statements_in (file_syntax tree) ≤ 2147483647 }
    requires reach { IsStrictlyIncreasing sights.now.reach.items }
    requires sight { IsStrictlyIncreasing sights.now.sight.items }
    requires begins { IndexBegins tables.old.spots (map descriptor_in loaded.now.entries) }
    ensures names { tables.new.names ≡ tables.old.names }
    ensures elaborates { (files : List FileSyntax) → TableTells tables.old.names files
        → ElaboratesTo loaded.now.entries files sights.now.reach.items sights.now.sight.items
        path.now (file_syntax tree) result }
    ensures begins { (files : List FileSyntax) → TableTells tables.old.names files
        → IfOk result (λ d. IndexBegins tables.new.spots
        (descriptors_with loaded.now.entries (described.file_view d))) }
{
    let seen = Seen {
        declarations: &tables.names,
        sight: &sights.sight,
        reach: &sights.reach,
    };
    link_at_places(alloc, loaded, &seen, &tree)?;
    if has_custom_option(&tree) {
        with_customs(alloc, loaded, &mut tables.spots, &seen, path, tree)
    } else {
        elaborate_owned(alloc, path, tree, &seen, &WithoutCustoms)
    }
}

/// The same, with its custom options: they are looked up in the descriptors of the files that it
/// reaches, its own among them.
fn with_customs(
    alloc: Global,
    loaded: &LoadedFiles,
    spots: &mut RunSpots,
    seen: &Seen<'_>,
    path: &str,
    tree: FileTree,
) -> Result<FileDescriptorProto, ElabFailure>
    requires few { statements_in (file_syntax tree) ≤ 2147483647 }
    requires begins { IndexBegins spots.old (map descriptor_in loaded.now.entries) }
    ensures elaborates { (files : List FileSyntax) → TableTells seen.now.declarations.now files
        → repeats_over loaded.now.entries files seen.now.reach.now (file_syntax tree) ≡ []
        → ElaboratesTo loaded.now.entries files seen.now.reach.now seen.now.sight.now path.now
        (file_syntax tree) result }
    ensures begins { (files : List FileSyntax) → TableTells seen.now.declarations.now files
        → IfOk result (λ d. IndexBegins spots.new
        (descriptors_with loaded.now.entries (described.file_view d))) }
{
    let plain = elaborate(alloc, path, &tree, seen, &WithoutCustoms)?;
    add_next(spots, alloc, loaded, &plain)?;
    spelled(alloc, loaded, &spots.declared, seen, &plain, path, tree)
}

/// What it becomes where `plain` is its descriptor without custom options.
fn spelled(
    alloc: Global,
    loaded: &LoadedFiles,
    spots: &Spots,
    seen: &Seen<'_>,
    plain: &FileDescriptorProto,
    path: &str,
    tree: FileTree,
) -> Result<FileDescriptorProto, ElabFailure>
    requires few { statements_in (file_syntax tree) ≤ 2147483647 }
    requires holds { Holds spots.now
        (descriptors_with loaded.now.entries (described.file_view plain.now)) }
    ensures { (files : List FileSyntax) → TableTells seen.now.declarations.now files
        → let descriptors = descriptors_with loaded.now.entries (described.file_view plain.now) in
        let sight = seen.now.sight.now in
        let customs = customs_over descriptors seen.now.reach.now sight in
        let t = file_syntax tree in let env = environment (picked files sight) customs t in
        Elaborates described.file_view result (file_faults env t) (file_of env path.now t) }
{
    let reached = descriptors(alloc, loaded, plain, seen.reach)?;
    let reach = PickedFiles {
        numbers: seen.reach,
        files: &reached,
    };
    let visible = descriptors(alloc, loaded, plain, seen.sight)?;
    let sight = PickedFiles {
        numbers: seen.sight,
        files: &visible,
    };
    let customs = WithCustoms::new(spots, reach, sight);
    elaborate_owned(alloc, path, tree, seen, &customs)
}

/// The descriptors of the files with these numbers. The next file's is `own`.
pub fn descriptors<'a>(
    alloc: Global,
    loaded: &'a LoadedFiles,
    own: &'a FileDescriptorProto,
    numbers: &[u32],
) -> Result<Vec<Option<&'a FileDescriptorProto>>, AllocError>
    ensures { IfOk result (λ v. map (option_map descriptor_seen) v.items
        ≡ map (slice_get (descriptors_with loaded.now.entries (described.file_view own.now)))
        numbers.now) }
{
    let mut list = Vec::new(alloc);
    'files: for number in numbers {
        list.push(descriptor_at(loaded, own, *number))?;
    }
    Ok(list)
}

/// That of the file with this number.
fn descriptor_at<'a>(
    loaded: &'a LoadedFiles,
    own: &'a FileDescriptorProto,
    number: u32,
) -> Option<&'a FileDescriptorProto>
    ensures { option_map descriptor_seen result
        ≡ slice_get (descriptors_with loaded.now.entries (described.file_view own.now)) number }
{
    match loaded.at(number) {
        Some((_, file)) => Some(&file.descriptor),
        None if number == loaded.len() => Some(own),
        None => None,
    }
}
