//! Messages, by their full names.

ghost use Rattle.std.specs.Prelude.{◌≡◌, ◌++◌, flat_map, map, OnOk};
ghost use Rattle.protobuf_parse_model.specs.Descriptors.{field_view, file_view, message_view};
ghost use Rattle.protobuf_parse_model.specs.Descriptors.{oneof_view};
ghost use Rattle.protobuf_parse_index.specs.Views.{standing_message};
ghost use Rattle.protobuf_parse_changes.specs.Fields as fields;
ghost use Rattle.protobuf_parse_changes.specs.Messages as spec;
ghost use Rattle.protobuf_parse_changes.specs.Views.{place_view, told};

use crate::change::{Change, Place, place_of, tell_if};
use crate::fields::field_changes;
use crate::kind::ChangeKind;
use crate::new_fields::new_field_changes;
use crate::oneofs::oneof_changes;
use crate::within::{descriptor_in, file_in};
use protobuf_parse_index::{Declared, Index};
use protobuf_parse_model::{DescriptorProto, FieldDescriptorProto, OneofDescriptorProto};
use std::alloc::AllocError;

/// Tells what became of messages of the old files.
pub fn messages_changes<'c>(
    changes: &mut Vec<Change<'c>>,
    old_index: &'c Index<'_>,
    new_index: &'c Index<'_>,
    messages: &'c [Declared<'_, DescriptorProto>],
) -> Result<(), AllocError>
    ensures { OnOk result (told changes.new ≡ told changes.old
        ++ flat_map (spec.message_changes (map file_view old_index.now)
        (map file_view new_index.now)) (map standing_message messages.now)) }
{
    'messages: for message in messages {
        message_changes(changes, old_index, new_index, message)?;
    }
    Ok(())
}

fn message_changes<'c>(
    changes: &mut Vec<Change<'c>>,
    old_index: &'c Index<'_>,
    new_index: &'c Index<'_>,
    message: &'c Declared<'_, DescriptorProto>,
) -> Result<(), AllocError>
    ensures { OnOk result (told changes.new ≡ told changes.old
        ++ spec.message_changes (map file_view old_index.now) (map file_view new_index.now)
        (standing_message message.now)) }
{
    let at = place_of(file_in(message), &message.full_name);
    let old = descriptor_in(message);
    match new_index.message(&message.full_name) {
        Some(new) => {
            let new = descriptor_in(new);
            kept_message(changes, old_index, new_index, at, old, new)
        }
        None => {
            let removed = !is_map_entry(old);
            tell_if(changes, removed, ChangeKind::MessageRemoved, at)
        }
    }
}

/// Whether the message was made for the entries of a map.
fn is_map_entry(message: &DescriptorProto) -> bool
    ensures { result ≡ spec.is_map_entry (message_view message.now) }
{
    match &message.options {
        Some(options) => options.map_entry.unwrap_or(false),
        None => false,
    }
}

fn kept_message<'c>(
    changes: &mut Vec<Change<'c>>,
    old_index: &'c Index<'_>,
    new_index: &'c Index<'_>,
    at: Place<'c>,
    old: &'c DescriptorProto,
    new: &'c DescriptorProto,
) -> Result<(), AllocError>
    ensures { OnOk result (told changes.new ≡ told changes.old
        ++ spec.kept_message (map file_view old_index.now) (map file_view new_index.now)
        (place_view at.entry) (message_view old.now) (message_view new.now)) }
{
    fields_changes(changes, new_index, at, old, new, &old.field)?;
    oneofs_changes(changes, at, old, new, &old.oneof_decl)?;
    new_fields_changes(changes, old_index, at, old, &new.field)
}

fn fields_changes<'c>(
    changes: &mut Vec<Change<'c>>,
    new_index: &'c Index<'_>,
    at: Place<'c>,
    old: &'c DescriptorProto,
    new: &'c DescriptorProto,
    list: &'c [FieldDescriptorProto],
) -> Result<(), AllocError>
    ensures { OnOk result (told changes.new ≡ told changes.old
        ++ flat_map (fields.field_changes (map file_view new_index.now) (place_view at.entry)
        (message_view old.now) (message_view new.now)) (map field_view list.now)) }
{
    'fields: for field in list {
        field_changes(changes, new_index, at, old, new, field)?;
    }
    Ok(())
}

fn oneofs_changes<'c>(
    changes: &mut Vec<Change<'c>>,
    at: Place<'c>,
    old: &'c DescriptorProto,
    new: &'c DescriptorProto,
    oneofs: &'c [OneofDescriptorProto],
) -> Result<(), AllocError>
    ensures { OnOk result (told changes.new ≡ told changes.old
        ++ flat_map (spec.oneof_changes (place_view at.entry) (message_view old.now)
        (message_view new.now)) (map oneof_view oneofs.now)) }
{
    'oneofs: for oneof in oneofs {
        oneof_changes(changes, at, old, new, oneof)?;
    }
    Ok(())
}

fn new_fields_changes<'c>(
    changes: &mut Vec<Change<'c>>,
    old_index: &'c Index<'_>,
    at: Place<'c>,
    old: &'c DescriptorProto,
    list: &'c [FieldDescriptorProto],
) -> Result<(), AllocError>
    ensures { OnOk result (told changes.new ≡ told changes.old
        ++ flat_map (fields.new_field_changes (map file_view old_index.now)
        (place_view at.entry) (message_view old.now)) (map field_view list.now)) }
{
    'fields: for field in list {
        new_field_changes(changes, old_index, at, old, field)?;
    }
    Ok(())
}
