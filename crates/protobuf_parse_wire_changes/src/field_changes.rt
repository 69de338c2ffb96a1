//! What changed of a field.

ghost use Rattle.std.specs.Prelude.{◌≡◌};
ghost use Rattle.std.specs.Option.{option_copied};
ghost use Rattle.protobuf_parse_index.specs.Views.{text_found};
ghost use Rattle.protobuf_parse_wire_changes.specs.Changes as spec;
ghost use Rattle.protobuf_parse_wire_changes.specs.Inside.{compared_view, typed_view};

use crate::change::WireChangeKind;
use crate::fields::{Field, field_of, needs_utf8};
use crate::partners::Partners;
use crate::strength::Strength;
use crate::types::takes_place;
use protobuf_parse_index::Index;
use protobuf_parse_model::FieldType;

/// What is compared.
#[derive(Drop)]
pub struct Compared<'p, 'a, 'o, 'n> {
    pub strength: Strength,
    pub old: &'a Index<'o>,
    pub new: &'a Index<'n>,
    pub partners: &'p Partners<'a>,
}

/// The message of the new files that goes with that one.
pub fn partner<'a>(compared: &Compared<'_, 'a, '_, '_>, name: &str) -> Option<&'a str>
    ensures { text_found result ≡ (compared_view compared.now).partners name.now }
{
    compared.partners.get(name).copied()
}

/// What changed of the fields with that number.
pub fn change_at(
    compared: &Compared<'_, '_, '_, '_>,
    old_message: &str,
    message: &str,
    number: i32,
) -> Option<WireChangeKind>
    ensures { result ≡ spec.change_at (compared_view compared.now) old_message.now message.now
        number }
{
    let Some(old) = field_of(compared.old, old_message, number) else {
        return None;
    };
    match field_of(compared.new, message, number) {
        Some(new) => change_of(compared, &old, &new),
        None => None,
    }
}

/// What changed from an old field to a new one.
fn change_of(
    compared: &Compared<'_, '_, '_, '_>,
    old: &Field<'_>,
    new: &Field<'_>,
) -> Option<WireChangeKind>
    ensures { result ≡ spec.change_of (compared_view compared.now) (typed_view old.now)
        (typed_view new.now) }
{
    if !takes_place(compared.strength, old.field_type, new.field_type) {
        return Some(WireChangeKind::OtherKind);
    }
    match old.field_type {
        FieldType::String | FieldType::Bytes => utf8_change(needs_utf8(old), needs_utf8(new)),
        FieldType::Message | FieldType::Group => {
            message_change(go_together(compared, old.type_name, new.type_name))
        }
        _ => repeated_change(old.repeated, new.repeated),
    }
}

fn repeated_change(old: bool, new: bool) -> Option<WireChangeKind>
    ensures { result ≡ spec.repeated_change old new }
{
    if old && !new {
        Some(WireChangeKind::NotRepeated)
    } else {
        None
    }
}

fn utf8_change(old: bool, new: bool) -> Option<WireChangeKind>
    ensures { result ≡ spec.utf8_change old new }
{
    if !old && new {
        Some(WireChangeKind::BytesBecameText)
    } else {
        None
    }
}

fn message_change(together: bool) -> Option<WireChangeKind>
    ensures { result ≡ spec.message_change together }
{
    if together {
        None
    } else {
        Some(WireChangeKind::OtherMessage)
    }
}

/// Whether the messages of those names go together.
fn go_together(
    compared: &Compared<'_, '_, '_, '_>,
    old_name: Option<&str>,
    new_name: Option<&str>,
) -> bool
    ensures { result ≡ spec.go_together (compared_view compared.now).partners
        (option_copied old_name.entry) (option_copied new_name.entry) }
{
    let Some(old_name) = old_name else {
        return false;
    };
    let Some(new_name) = new_name else {
        return false;
    };
    match partner(compared, old_name) {
        Some(name) => name == new_name,
        None => false,
    }
}
