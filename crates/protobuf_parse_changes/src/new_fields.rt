//! What a message declares that was reserved, or that is required and wasn't there.

ghost use Rattle.std.specs.Prelude.{◌≡◌, ◌++◌, map, OnOk};
ghost use Rattle.protobuf_parse_model.specs.Descriptors.{field_view, file_view, message_view};
ghost use Rattle.protobuf_parse_changes.specs.Fields as spec;
ghost use Rattle.protobuf_parse_changes.specs.Views.{place_view, told};

use crate::change::{Change, Place, tell_if};
use crate::fields::own_field;
use crate::kind::ChangeKind;
use crate::reserved::{in_ranges, is_among};
use crate::shapes::is_required;
use protobuf_parse_index::Index;
use protobuf_parse_model::{DescriptorProto, FieldDescriptorProto};
use std::alloc::AllocError;

/// Tells that of a field of the new message.
pub fn new_field_changes<'c>(
    changes: &mut Vec<Change<'c>>,
    old_index: &'c Index<'_>,
    of: Place<'c>,
    old: &'c DescriptorProto,
    field: &'c FieldDescriptorProto,
) -> Result<(), AllocError>
    ensures { OnOk result (told changes.new ≡ told changes.old
        ++ spec.new_field_changes (map file_view old_index.now) (place_view of.entry)
        (message_view old.now) (field_view field.now)) }
{
    let at = of.inside(&field.name, Some(field.number));
    let reserved = in_ranges(field.number, &old.reserved_range);
    tell_if(changes, reserved, ChangeKind::ReservedNumberUsed, at)?;
    let reserved = is_among(&field.name, &old.reserved_name);
    tell_if(changes, reserved, ChangeKind::ReservedNameUsed, at)?;
    let required = is_required(field.label)
        && own_field(old_index, of.name, field.number).is_none();
    tell_if(changes, required, ChangeKind::RequiredFieldAdded, at)
}
