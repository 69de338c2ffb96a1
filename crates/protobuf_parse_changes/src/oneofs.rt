//! The oneofs of messages, by their names.

ghost use Rattle.std.specs.Prelude.{◌≡◌, ◌++◌, OnOk};
ghost use Rattle.protobuf_parse_model.specs.Descriptors.{field_view, message_view, oneof_view};
ghost use Rattle.protobuf_parse_index.specs.Views.{text_found};
ghost use Rattle.protobuf_parse_changes.specs.Messages as messages;
ghost use Rattle.protobuf_parse_changes.specs.Oneofs as spec;
ghost use Rattle.protobuf_parse_changes.specs.Views.{place_view, told};

use crate::change::{Change, Place, tell_if};
use crate::kind::ChangeKind;
use crate::same::same_name;
use protobuf_parse_index::oneof_of;
use protobuf_parse_model::{DescriptorProto, FieldDescriptorProto, OneofDescriptorProto};
use std::alloc::AllocError;

/// The name of the oneof that the field of the message stands in.
pub fn oneof_name<'m>(message: &'m DescriptorProto, field: &FieldDescriptorProto) -> Option<&'m str>
    ensures { text_found result ≡ spec.oneof_name (message_view message.now) (field_view field.now) }
{
    if field.proto3_optional {
        return None;
    }
    match oneof_of(message, field) {
        Some(oneof) => Some(oneof.name.as_str()),
        None => None,
    }
}

/// Whether a field of the message stands in a oneof of that name.
fn has_oneof(message: &DescriptorProto, name: &str) -> bool
    ensures { result ≡ spec.has_oneof (message_view message.now) name.now }
{
    message
        .field
        .iter()
        .any(|field| same_name(oneof_name(message, field), Some(name)))
}

/// Whether the message has the oneof, if there is one.
pub fn still_has(message: &DescriptorProto, name: Option<&str>) -> bool
    ensures { result ≡ spec.still_has (message_view message.now) (text_found name.entry) }
{
    match name {
        Some(name) => has_oneof(message, name),
        None => false,
    }
}

/// Tells that the oneof of the old message is removed, if it is.
pub fn oneof_changes<'c>(
    changes: &mut Vec<Change<'c>>,
    at: Place<'c>,
    old: &'c DescriptorProto,
    new: &'c DescriptorProto,
    oneof: &'c OneofDescriptorProto,
) -> Result<(), AllocError>
    ensures { OnOk result (told changes.new ≡ told changes.old
        ++ messages.oneof_changes (place_view at.entry) (message_view old.now)
        (message_view new.now) (oneof_view oneof.now)) }
{
    let removed = has_oneof(old, &oneof.name) && !has_oneof(new, &oneof.name);
    let at = at.inside(&oneof.name, None);
    tell_if(changes, removed, ChangeKind::OneofRemoved, at)
}
