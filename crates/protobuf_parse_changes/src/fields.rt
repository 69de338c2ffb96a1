//! The fields of a message that both versions declare.

ghost use Rattle.std.specs.Prelude.{◌≡◌, ◌++◌, map, OnOk};
ghost use Rattle.protobuf_parse_model.specs.Descriptors.{field_view, file_view, message_view};
ghost use Rattle.protobuf_parse_index.specs.Views.{field_found};
ghost use Rattle.protobuf_parse_changes.specs.Fields as spec;
ghost use Rattle.protobuf_parse_changes.specs.Views.{place_view, told};

use crate::change::{Change, Place, tell, tell_if};
use crate::kind::ChangeKind;
use crate::oneofs::{oneof_name, still_has};
use crate::reserved::{in_ranges, is_among};
use crate::same::same_name;
use crate::shapes::shape_changes;
use protobuf_parse_index::Index;
use protobuf_parse_model::{DescriptorProto, FieldDescriptorProto};
use std::alloc::AllocError;

/// The field of that number that the message of that full name declares, and no extension of it.
pub fn own_field<'a>(
    index: &Index<'a>,
    message: &str,
    number: i32,
) -> Option<&'a FieldDescriptorProto>
    ensures { field_found result
        ≡ spec.own_field (map file_view index.now) message.now number }
{
    match index.field(message, number) {
        Some(field) => {
            if field.extendee.is_none() {
                Some(field)
            } else {
                None
            }
        }
        None => None,
    }
}

/// Tells what became of a field of the old message.
pub fn field_changes<'c>(
    changes: &mut Vec<Change<'c>>,
    new_index: &'c Index<'_>,
    at: Place<'c>,
    old: &'c DescriptorProto,
    new: &'c DescriptorProto,
    field: &'c FieldDescriptorProto,
) -> Result<(), AllocError>
    ensures { OnOk result (told changes.new ≡ told changes.old
        ++ spec.field_changes (map file_view new_index.now) (place_view at.entry)
        (message_view old.now) (message_view new.now) (field_view field.now)) }
{
    let found = own_field(new_index, at.name, field.number);
    let at = at.inside(&field.name, Some(field.number));
    match found {
        Some(kept) => kept_field(changes, at, old, new, field, kept),
        None => removed_field(changes, at, old, new, field),
    }
}

fn removed_field<'c>(
    changes: &mut Vec<Change<'c>>,
    at: Place<'c>,
    old: &'c DescriptorProto,
    new: &'c DescriptorProto,
    field: &'c FieldDescriptorProto,
) -> Result<(), AllocError>
    ensures { OnOk result (told changes.new ≡ told changes.old
        ++ spec.removed_field (place_view at.entry) (message_view old.now)
        (message_view new.now) (field_view field.now)) }
{
    tell(changes, ChangeKind::FieldRemoved, at)?;
    let free = !in_ranges(field.number, &new.reserved_range);
    tell_if(changes, free, ChangeKind::NumberNotReserved, at)?;
    let free = !is_among(&field.name, &new.reserved_name);
    tell_if(changes, free, ChangeKind::NameNotReserved, at)?;
    let shows = still_has(new, oneof_name(old, field));
    tell_if(changes, shows, ChangeKind::OneofMemberRemoved, at)
}

fn kept_field<'c>(
    changes: &mut Vec<Change<'c>>,
    at: Place<'c>,
    old: &'c DescriptorProto,
    new: &'c DescriptorProto,
    field: &'c FieldDescriptorProto,
    kept: &FieldDescriptorProto,
) -> Result<(), AllocError>
    ensures { OnOk result (told changes.new ≡ told changes.old
        ++ spec.kept_field (place_view at.entry) (message_view old.now)
        (message_view new.now) (field_view field.now) (field_view kept.now)) }
{
    let renamed = field.name.as_str() != kept.name.as_str();
    tell_if(changes, renamed, ChangeKind::FieldRenamed, at)?;
    let other = field.json_name.as_str() != kept.json_name.as_str();
    tell_if(changes, other, ChangeKind::JsonNameChanged, at)?;
    let moved = !same_name(oneof_name(old, field), oneof_name(new, kept));
    tell_if(changes, moved, ChangeKind::OneofChanged, at)?;
    shape_changes(changes, at, field, kept)
}
