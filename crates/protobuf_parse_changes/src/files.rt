//! Files, by their paths.

ghost use Rattle.std.specs.Prelude.{◌≡◌, ◌++◌, flat_map, map, OnOk};
ghost use Rattle.protobuf_parse_model.specs.Descriptors.{file_view};
ghost use Rattle.protobuf_parse_index.specs.Walk.{path_of};
ghost use Rattle.protobuf_parse_changes.specs.Files as spec;
ghost use Rattle.protobuf_parse_changes.specs.Views.{place_view, told};

use crate::change::{Change, Place, place_of, tell, tell_if};
use crate::kind::ChangeKind;
use crate::options::option_changes;
use crate::same::same_text;
use protobuf_parse_index::{Index, empty_file_options};
use protobuf_parse_model::FileDescriptorProto;
use std::alloc::{AllocError, Global};

/// Tells what became of the old files.
pub fn files_changes<'c>(
    alloc: Global,
    changes: &mut Vec<Change<'c>>,
    new_index: &'c Index<'_>,
    files: &'c [FileDescriptorProto],
) -> Result<(), AllocError>
    ensures { OnOk result (told changes.new ≡ told changes.old
        ++ flat_map (spec.file_changes (map file_view new_index.now)) (map file_view files.now)) }
{
    'files: for file in files {
        file_changes(alloc, changes, new_index, file)?;
    }
    Ok(())
}

fn file_changes<'c>(
    alloc: Global,
    changes: &mut Vec<Change<'c>>,
    new_index: &'c Index<'_>,
    file: &'c FileDescriptorProto,
) -> Result<(), AllocError>
    ensures { OnOk result (told changes.new ≡ told changes.old
        ++ spec.file_changes (map file_view new_index.now) (file_view file.now)) }
{
    let path = path_of(file);
    let at = place_of(path, "");
    match new_index.file(path) {
        Some(new) => kept_file(alloc, changes, at, file, new),
        None => tell(changes, ChangeKind::FileRemoved, at),
    }
}

/// The path by which the file is known, or no text where its descriptor has none.
fn path_of(file: &FileDescriptorProto) -> &str
    ensures { result.now ≡ path_of (file_view file.now) }
{
    match &file.name {
        Some(name) => name,
        None => "",
    }
}

fn kept_file<'c>(
    alloc: Global,
    changes: &mut Vec<Change<'c>>,
    at: Place<'c>,
    old: &FileDescriptorProto,
    new: &FileDescriptorProto,
) -> Result<(), AllocError>
    ensures { OnOk result (told changes.new ≡ told changes.old
        ++ spec.kept_file (place_view at.entry) (file_view old.now) (file_view new.now)) }
{
    let other = !same_text(&old.package, &new.package);
    tell_if(changes, other, ChangeKind::PackageChanged, at)?;
    let none = empty_file_options(alloc);
    let old_options = match &old.options {
        Some(options) => options,
        None => &none,
    };
    let new_options = match &new.options {
        Some(options) => options,
        None => &none,
    };
    option_changes(changes, at, old_options, new_options)
}
