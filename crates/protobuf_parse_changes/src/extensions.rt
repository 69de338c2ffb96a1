//! Extensions, by their full names.

ghost use Rattle.std.specs.Prelude.{◌≡◌, ◌++◌, flat_map, map, OnOk};
ghost use Rattle.protobuf_parse_model.specs.Descriptors.{field_view, file_view};
ghost use Rattle.protobuf_parse_index.specs.Views.{standing_extension};
ghost use Rattle.protobuf_parse_changes.specs.Extensions as spec;
ghost use Rattle.protobuf_parse_changes.specs.Views.{place_view, told};

use crate::change::{Change, Place, place_of, tell, tell_if};
use crate::kind::ChangeKind;
use crate::same::same_text;
use crate::shapes::shape_changes;
use crate::within::file_in;
use protobuf_parse_index::{Declared, Index};
use protobuf_parse_model::FieldDescriptorProto;
use std::alloc::AllocError;

/// Tells what became of extensions of the old files.
pub fn extensions_changes<'c>(
    changes: &mut Vec<Change<'c>>,
    new_index: &'c Index<'_>,
    extensions: &'c [Declared<'_, FieldDescriptorProto>],
) -> Result<(), AllocError>
    ensures { OnOk result (told changes.new ≡ told changes.old
        ++ flat_map (spec.extension_changes (map file_view new_index.now))
        (map standing_extension extensions.now)) }
{
    'extensions: for extension in extensions {
        extension_changes(changes, new_index, extension)?;
    }
    Ok(())
}

fn extension_changes<'c>(
    changes: &mut Vec<Change<'c>>,
    new_index: &'c Index<'_>,
    extension: &'c Declared<'_, FieldDescriptorProto>,
) -> Result<(), AllocError>
    ensures { OnOk result (told changes.new ≡ told changes.old
        ++ spec.extension_changes (map file_view new_index.now)
        (standing_extension extension.now)) }
{
    let at = place_of(file_in(extension), &extension.full_name);
    match new_index.extension_by_name(&extension.full_name) {
        Some(new) => kept_extension(changes, at, extension.descriptor, new.descriptor),
        None => tell(changes, ChangeKind::ExtensionRemoved, at),
    }
}

fn kept_extension<'c>(
    changes: &mut Vec<Change<'c>>,
    at: Place<'c>,
    old: &FieldDescriptorProto,
    new: &FieldDescriptorProto,
) -> Result<(), AllocError>
    ensures { OnOk result (told changes.new ≡ told changes.old
        ++ spec.kept_extension (place_view at.entry) (field_view old.now)
        (field_view new.now)) }
{
    let number = old.number != new.number;
    tell_if(changes, number, ChangeKind::ExtensionNumberChanged, at)?;
    let extendee = !same_text(&old.extendee, &new.extendee);
    tell_if(changes, extendee, ChangeKind::ExtendeeChanged, at)?;
    shape_changes(changes, at, old, new)
}
