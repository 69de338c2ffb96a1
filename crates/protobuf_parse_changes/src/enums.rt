//! Enums by their full names, and their values by their numbers.

ghost use Rattle.std.specs.Prelude.{◌≡◌, ◌++◌, flat_map, map, OnOk};
ghost use Rattle.protobuf_parse_model.specs.Descriptors.{enum_value_view, enum_view, file_view};
ghost use Rattle.protobuf_parse_index.specs.Views.{standing_enum};
ghost use Rattle.protobuf_parse_changes.specs.Enums as spec;
ghost use Rattle.protobuf_parse_changes.specs.Views.{place_view, told};

use crate::change::{Change, Place, place_of, tell, tell_if};
use crate::kind::ChangeKind;
use crate::reserved::{in_enum_ranges, is_among};
use crate::within::{descriptor_in, file_in};
use protobuf_parse_index::{Declared, Index};
use protobuf_parse_model::{EnumDescriptorProto, EnumValueDescriptorProto, FileDescriptorProto};
use std::alloc::AllocError;

/// Tells what became of enums of the old files.
pub fn enums_changes<'c>(
    changes: &mut Vec<Change<'c>>,
    old_index: &'c Index<'_>,
    new_index: &'c Index<'_>,
    enums: &'c [Declared<'_, EnumDescriptorProto>],
) -> Result<(), AllocError>
    ensures { OnOk result (told changes.new ≡ told changes.old
        ++ flat_map (spec.enum_changes (map file_view old_index.now)
        (map file_view new_index.now)) (map standing_enum enums.now)) }
{
    'enums: for each in enums {
        enum_changes(changes, old_index, new_index, each)?;
    }
    Ok(())
}

fn enum_changes<'c>(
    changes: &mut Vec<Change<'c>>,
    old_index: &'c Index<'_>,
    new_index: &'c Index<'_>,
    old: &'c Declared<'_, EnumDescriptorProto>,
) -> Result<(), AllocError>
    ensures { OnOk result (told changes.new ≡ told changes.old
        ++ spec.enum_changes (map file_view old_index.now) (map file_view new_index.now)
        (standing_enum old.now)) }
{
    let at = place_of(file_in(old), &old.full_name);
    match new_index.enumeration(&old.full_name) {
        Some(new) => kept_enum(changes, old_index, new_index, at, old, new),
        None => tell(changes, ChangeKind::EnumRemoved, at),
    }
}

fn kept_enum<'c>(
    changes: &mut Vec<Change<'c>>,
    old_index: &'c Index<'_>,
    new_index: &'c Index<'_>,
    at: Place<'c>,
    old: &'c Declared<'_, EnumDescriptorProto>,
    new: &'c Declared<'_, EnumDescriptorProto>,
) -> Result<(), AllocError>
    ensures { OnOk result (told changes.new ≡ told changes.old
        ++ spec.kept_enum (map file_view old_index.now) (map file_view new_index.now)
        (place_view at.entry) (standing_enum old.now) (standing_enum new.now)) }
{
    let changed = is_open(old_index, old.file) != is_open(new_index, new.file);
    tell_if(changes, changed, ChangeKind::OpennessChanged, at)?;
    let old = descriptor_in(old);
    let new = descriptor_in(new);
    values_changes(changes, new_index, at, new, &old.value)?;
    new_values_changes(changes, at, old, &new.value)
}

/// Whether the enums of the file of that path are open.
fn is_open(index: &Index<'_>, path: &str) -> bool
    ensures { result ≡ spec.is_open (map file_view index.now) path.now }
{
    match index.file(path) {
        Some(file) => is_proto3(file),
        None => false,
    }
}

fn is_proto3(file: &FileDescriptorProto) -> bool
    ensures { result ≡ spec.is_proto3_syntax (file_view file.now).syntax }
{
    match &file.syntax {
        Some(syntax) => syntax.as_str() == "proto3",
        None => false,
    }
}

fn values_changes<'c>(
    changes: &mut Vec<Change<'c>>,
    new_index: &'c Index<'_>,
    at: Place<'c>,
    new: &EnumDescriptorProto,
    values: &'c [EnumValueDescriptorProto],
) -> Result<(), AllocError>
    ensures { OnOk result (told changes.new ≡ told changes.old
        ++ flat_map (spec.value_changes (map file_view new_index.now) (place_view at.entry)
        (enum_view new.now)) (map enum_value_view values.now)) }
{
    'values: for value in values {
        value_changes(changes, new_index, at, new, value)?;
    }
    Ok(())
}

fn value_changes<'c>(
    changes: &mut Vec<Change<'c>>,
    new_index: &'c Index<'_>,
    at: Place<'c>,
    new: &EnumDescriptorProto,
    value: &'c EnumValueDescriptorProto,
) -> Result<(), AllocError>
    ensures { OnOk result (told changes.new ≡ told changes.old
        ++ spec.value_changes (map file_view new_index.now) (place_view at.entry)
        (enum_view new.now) (enum_value_view value.now)) }
{
    let found = new_index.value(at.name, value.number);
    let at = at.inside(&value.name, Some(value.number));
    match found {
        Some(name) => {
            let renamed = value.name.as_str() != name && !has_value(&new.value, value);
            tell_if(changes, renamed, ChangeKind::EnumValueRenamed, at)
        }
        None => removed_value(changes, at, new, value),
    }
}

/// Whether one of the values has the same number and name.
fn has_value(values: &[EnumValueDescriptorProto], value: &EnumValueDescriptorProto) -> bool
    ensures { result ≡ spec.has_value (map enum_value_view values.now) (enum_value_view value.now) }
{
    values.iter().any(|each| value.number == each.number
        && value.name.as_str() == each.name.as_str())
}

fn removed_value<'c>(
    changes: &mut Vec<Change<'c>>,
    at: Place<'c>,
    new: &EnumDescriptorProto,
    value: &EnumValueDescriptorProto,
) -> Result<(), AllocError>
    ensures { OnOk result (told changes.new ≡ told changes.old
        ++ spec.removed_value (place_view at.entry) (enum_view new.now)
        (enum_value_view value.now)) }
{
    tell(changes, ChangeKind::EnumValueRemoved, at)?;
    let free = !in_enum_ranges(value.number, &new.reserved_range);
    tell_if(changes, free, ChangeKind::NumberNotReserved, at)?;
    let free = !is_among(&value.name, &new.reserved_name);
    tell_if(changes, free, ChangeKind::NameNotReserved, at)
}

fn new_values_changes<'c>(
    changes: &mut Vec<Change<'c>>,
    of: Place<'c>,
    old: &EnumDescriptorProto,
    values: &'c [EnumValueDescriptorProto],
) -> Result<(), AllocError>
    ensures { OnOk result (told changes.new ≡ told changes.old
        ++ flat_map (spec.new_value_changes (place_view of.entry) (enum_view old.now))
        (map enum_value_view values.now)) }
{
    'values: for value in values {
        new_value_changes(changes, of, old, value)?;
    }
    Ok(())
}

fn new_value_changes<'c>(
    changes: &mut Vec<Change<'c>>,
    of: Place<'c>,
    old: &EnumDescriptorProto,
    value: &'c EnumValueDescriptorProto,
) -> Result<(), AllocError>
    ensures { OnOk result (told changes.new ≡ told changes.old
        ++ spec.new_value_changes (place_view of.entry) (enum_view old.now)
        (enum_value_view value.now)) }
{
    let at = of.inside(&value.name, Some(value.number));
    let reserved = in_enum_ranges(value.number, &old.reserved_range);
    tell_if(changes, reserved, ChangeKind::ReservedNumberUsed, at)?;
    let reserved = is_among(&value.name, &old.reserved_name);
    tell_if(changes, reserved, ChangeKind::ReservedNameUsed, at)
}
