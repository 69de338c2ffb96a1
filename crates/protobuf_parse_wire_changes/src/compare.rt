//! All changes from old files to new ones.

ghost use Rattle.std.specs.Prelude.{◌≡◌, ◌++◌, map, IfOk, IsTrue, OnOk};
ghost use Rattle.protobuf_parse_model.specs.Descriptors.{file_view};
ghost use Rattle.protobuf_parse_index.specs.Views.{standing_extension, standing_message};
ghost use Rattle.protobuf_parse_wire_changes.specs.Changes as spec;
ghost use Rattle.protobuf_parse_wire_changes.specs.Inside.{compared_view};
ghost use Rattle.protobuf_parse_wire_changes.specs.Laws.{ReadsOn};
ghost use Rattle.protobuf_parse_wire_changes.specs.Views.{changes_view};

use crate::change::WireChange;
use crate::field_changes::{Compared, change_at, partner};
use crate::partners::partners_of;
use crate::strength::Strength;
use protobuf_parse_index::{Declared, Index};
use protobuf_parse_model::{DescriptorProto, FieldDescriptorProto};
use std::alloc::{AllocError, Global};

/// What changed of fields, and of extensions, so that readers of the new files may not read what
/// was written by the old ones.
///
/// Messages go together that have one full name. Where the new files have none of a message's
/// name, it goes with the one to which a field leads: two fields of one number, of messages that go
/// together, hold the two. So a renamed message is followed, and the entries of a renamed map are.
/// A message of the old files goes with one at most, with the first that is found.
///
/// Only numbers that both messages declare are told; of those that one message declares several
/// times, what `decode` reads counts, and it is told as many times. Labels, names, defaults and
/// oneofs don't count, nor does what only one of the messages declares.
///
/// The changes are in the order of the old files: of their messages, of the fields that stand in
/// these, and then of all extensions.
///
/// The time is in proportion to the old files, with some look-ups for each field. The one error is
/// that memory is short.
///
/// ```text
/// for change in &wire_changes(alloc, Strength::Exact, &old, &new)? {
///     println!(rt; "{} {} {:?}", change.message, change.number, change.kind)?;
/// }
/// ```
pub fn wire_changes<'a>(
    alloc: Global,
    strength: Strength,
    old: &'a Index<'_>,
    new: &'a Index<'_>,
) -> Result<Vec<WireChange<'a>>, AllocError>
    ensures { IfOk result (λ v. changes_view v.items
        ≡ spec.wire_changes strength (map file_view old.now) (map file_view new.now)) }
{
    let partners = partners_of(alloc, old, new)?;
    let compared = Compared {
        strength,
        old,
        new,
        partners: &partners,
    };
    let mut changes = Vec::new(alloc);
    'messages: for message in old.messages() {
        add_message(&mut changes, &compared, message)?;
    }
    'extensions: for extension in old.extensions() {
        add_extension(&mut changes, &compared, extension)?;
    }
    Ok(changes)
}

/// Whether readers of the new files read what was written by the old ones: `wire_changes` lists
/// nothing.
///
/// If so, take any message of the old files and the one that goes with it, as `wire_changes` says,
/// and any bytes. If `decode` reads them by the old files, and no field is unknown there that the
/// new files declare, it reads them by the new files too: the same records with the same bytes, in
/// the same order. Numbers that the new message doesn't declare are unknown. All other values stay,
/// but for numbers as `strength` says, and for texts, which are told as bytes where the new field
/// needn't be UTF-8.
///
/// The one error is that memory is short.
///
/// ```text
/// if reads_on(alloc, Strength::Exact, &old, &new)? { .. }
/// ```
pub fn reads_on(
    alloc: Global,
    strength: Strength,
    old: &Index<'_>,
    new: &Index<'_>,
) -> Result<bool, AllocError>
    ensures { IfOk result (λ yes. IsTrue yes
        → ReadsOn strength (map file_view old.now) (map file_view new.now)) }
{
    let changes = wire_changes(alloc, strength, old, new)?;
    Ok(changes.is_empty())
}

/// Those of the fields that stand in the message.
fn add_message<'a>(
    changes: &mut Vec<WireChange<'a>>,
    compared: &Compared<'_, 'a, '_, '_>,
    message: &'a Declared<'_, DescriptorProto>,
) -> Result<(), AllocError>
    ensures { OnOk result (changes_view changes.new.items ≡ changes_view changes.old.items
        ++ spec.message_changes (compared_view compared.now) (standing_message message.now)) }
{
    let name = message.full_name.as_str();
    'fields: for field in &message.descriptor.field {
        add_change(changes, compared, name, field.number)?;
    }
    Ok(())
}

/// That of an extension.
fn add_extension<'a>(
    changes: &mut Vec<WireChange<'a>>,
    compared: &Compared<'_, 'a, '_, '_>,
    extension: &'a Declared<'_, FieldDescriptorProto>,
) -> Result<(), AllocError>
    ensures { OnOk result (changes_view changes.new.items ≡ changes_view changes.old.items
        ++ spec.extension_changes (compared_view compared.now) (standing_extension extension.now)) }
{
    match &extension.descriptor.extendee {
        Some(message) => add_change(changes, compared, message, extension.descriptor.number),
        None => Ok(()),
    }
}

/// That of the fields with that number, of the message and the one that goes with it.
fn add_change<'a>(
    changes: &mut Vec<WireChange<'a>>,
    compared: &Compared<'_, 'a, '_, '_>,
    old_message: &'a str,
    number: i32,
) -> Result<(), AllocError>
    ensures { OnOk result (changes_view changes.new.items ≡ changes_view changes.old.items
        ++ spec.number_changes (compared_view compared.now) old_message.now number) }
{
    let Some(message) = partner(compared, old_message) else {
        return Ok(());
    };
    if let Some(kind) = change_at(compared, old_message, message, number) {
        changes.push(WireChange {
            kind,
            message,
            old_message,
            number,
        })?;
    }
    Ok(())
}
