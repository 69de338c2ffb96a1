//! Messages that go together.

ghost use Rattle.std.specs.Prelude.{◌≡◌, ◌++◌, [], ◌∷◌, List, ℕ, map, IfOk, OnOk, slice_get};
ghost use Rattle.std.specs.Option.{option_copied};
ghost use Rattle.protobuf_parse_model.specs.Descriptors.{field_view, file_view};
ghost use Rattle.protobuf_parse_index.specs.Views.{standing_message, text_found};
ghost use Rattle.protobuf_parse_wire_changes.specs.Partners as spec;
ghost use Rattle.protobuf_parse_wire_changes.specs.Kept.{IsKept, PutsPartner, pair_of, pairs_view};
ghost use Rattle.protobuf_parse_wire_changes.specs.Kept.{partner_seen};

use protobuf_parse_index::{Declared, Index};
use protobuf_parse_model::{DescriptorProto, FieldDescriptorProto};
use std::alloc::{AllocError, Global};
use std::collections::BTreeMap;

/// Of messages of the old files, by their full names, the full names of those that go with them.
pub type Partners<'a> = BTreeMap<String, &'a str>;

/// The full names of a message of the old files and of the one that goes with it.
#[derive(Clone, Copy)]
pub struct Pair<'a> {
    pub old: &'a str,
    pub new: &'a str,
}

/// Pairs in the order in which they were found, and by their old names.
#[derive(Drop)]
pub struct Pairs<'a> {
    pub list: Vec<Pair<'a>>,
    pub by_old: Partners<'a>,
}

/// Which messages go together: those of one full name, and those to which fields of one number
/// lead, where the old one goes with none yet.
pub fn partners_of<'a>(
    alloc: Global,
    old: &'a Index<'_>,
    new: &'a Index<'_>,
) -> Result<Partners<'a>, AllocError>
    ensures { IfOk result (λ m. (name : List ℕ) → partner_seen m name
        ≡ spec.partner (map file_view old.now) (map file_view new.now) name) }
{
    let mut pairs = Pairs {
        list: Vec::new(alloc),
        by_old: BTreeMap::new(alloc),
    };
    let messages = old.messages();
    'messages: for message in messages {
        add_same_name(alloc, &mut pairs, new, message)?;
    }
    'pairs: for at in 0..messages.len() {
        add_from(alloc, &mut pairs, old, new, at)?;
    }
    Ok(pairs.by_old)
}

/// The message of the old files, if the new ones have one of its name.
fn add_same_name<'a>(
    alloc: Global,
    pairs: &mut Pairs<'a>,
    new: &Index<'_>,
    message: &'a Declared<'_, DescriptorProto>,
) -> Result<(), AllocError>
    requires { IsKept pairs.old }
    ensures list { OnOk result (pairs_view pairs.new ≡ pairs_view pairs.old
        ++ spec.with_itself (map file_view new.now) (standing_message message.now)) }
    ensures kept { OnOk result (IsKept pairs.new) }
{
    let name = message.full_name.as_str();
    match new.message(name) {
        Some(_) => add_pair(alloc, pairs, name, name),
        None => Ok(()),
    }
}

/// Those to which the fields of the pair at that position lead, if there is one.
fn add_from<'a>(
    alloc: Global,
    pairs: &mut Pairs<'a>,
    old: &'a Index<'_>,
    new: &'a Index<'_>,
    at: usize,
) -> Result<(), AllocError>
    requires { IsKept pairs.old }
    ensures list { OnOk result (pairs_view pairs.new
        ≡ spec.with_pair (map file_view old.now) (map file_view new.now)
        (slice_get (pairs_view pairs.old) at) (pairs_view pairs.old)) }
    ensures kept { OnOk result (IsKept pairs.new) }
{
    let Some(pair) = pairs.list.get(at).copied() else {
        return Ok(());
    };
    match old.message(pair.old) {
        Some(message) => add_types_of(alloc, pairs, old, new, &pair, message),
        None => Ok(()),
    }
}

/// Those to which the fields of the message lead.
fn add_types_of<'a>(
    alloc: Global,
    pairs: &mut Pairs<'a>,
    old: &'a Index<'_>,
    new: &'a Index<'_>,
    pair: &Pair<'a>,
    message: &Declared<'_, DescriptorProto>,
) -> Result<(), AllocError>
    requires { IsKept pairs.old }
    ensures list { OnOk result (pairs_view pairs.new
        ≡ spec.with_fields (map file_view old.now) (map file_view new.now) (pair_of pair.now)
        (spec.fields_of (standing_message message.now)) (pairs_view pairs.old)) }
    ensures kept { OnOk result (IsKept pairs.new) }
{
    'fields: for field in &message.descriptor.field {
        add_types_at(alloc, pairs, old, new, pair, field)?;
    }
    Ok(())
}

/// The messages that both fields of the number of that field hold.
fn add_types_at<'a>(
    alloc: Global,
    pairs: &mut Pairs<'a>,
    old: &'a Index<'_>,
    new: &'a Index<'_>,
    pair: &Pair<'a>,
    field: &FieldDescriptorProto,
) -> Result<(), AllocError>
    requires { IsKept pairs.old }
    ensures list { OnOk result (pairs_view pairs.new
        ≡ spec.with_types_at (map file_view old.now) (map file_view new.now) (pair_of pair.now)
        field.now.number (pairs_view pairs.old)) }
    ensures kept { OnOk result (IsKept pairs.new) }
{
    let Some(old_type) = type_at(old, pair.old, field.number) else {
        return Ok(());
    };
    let Some(new_type) = type_at(new, pair.new, field.number) else {
        return Ok(());
    };
    add_types(alloc, pairs, old, new, old_type, new_type)
}

/// The two, if both are messages and the old one goes with none yet.
fn add_types<'a>(
    alloc: Global,
    pairs: &mut Pairs<'a>,
    old: &Index<'_>,
    new: &Index<'_>,
    old_type: &'a str,
    new_type: &'a str,
) -> Result<(), AllocError>
    requires { IsKept pairs.old }
    ensures list { OnOk result (pairs_view pairs.new
        ≡ spec.with_messages (map file_view old.now) (map file_view new.now) old_type.now
        new_type.now (pairs_view pairs.old)) }
    ensures kept { OnOk result (IsKept pairs.new) }
{
    if !has_partner(pairs, old_type) && declares(old, old_type) && declares(new, new_type) {
        add_pair(alloc, pairs, old_type, new_type)
    } else {
        Ok(())
    }
}

fn has_partner(pairs: &Pairs<'_>, name: &str) -> bool
    requires { IsKept pairs.now }
    ensures { result ≡ spec.has_partner (pairs_view pairs.now) name.now }
{
    match pairs.by_old.get(name) {
        Some(_) => true,
        None => false,
    }
}

fn declares(index: &Index<'_>, name: &str) -> bool
    ensures { result ≡ spec.declares (map file_view index.now) name.now }
{
    match index.message(name) {
        Some(_) => true,
        None => false,
    }
}

/// The full name of the message that the field of that number holds, or of its enum.
fn type_at<'i>(index: &Index<'i>, message: &str, number: i32) -> Option<&'i str>
    ensures { text_found result
        ≡ spec.type_at (map file_view index.now) message.now number }
{
    match index.field(message, number) {
        Some(field) => field.type_name.as_deref(),
        None => None,
    }
}

/// One pair more. It counts unless the old message has one already.
fn add_pair<'a>(
    alloc: Global,
    pairs: &mut Pairs<'a>,
    old: &'a str,
    new: &'a str,
) -> Result<(), AllocError>
    requires { IsKept pairs.old }
    ensures list { OnOk result (pairs_view pairs.new ≡ pairs_view pairs.old
        ++ record { old = old.entry.now; new = new.entry.now } ∷ []) }
    ensures kept { OnOk result (IsKept pairs.new) }
{
    put_partner(alloc, &mut pairs.by_old, old, new)?;
    pairs.list.push(Pair { old, new })?;
    Ok(())
}

/// The message goes with that one, unless it goes with one already.
fn put_partner<'a>(
    alloc: Global,
    by_old: &mut Partners<'a>,
    old: &str,
    new: &'a str,
) -> Result<(), AllocError>
    ensures { OnOk result (PutsPartner by_old.old by_old.new old.now new.entry.now) }
{
    match by_old.get(old) {
        Some(_) => Ok(()),
        None => {
            by_old.insert(String::from_str(alloc, old)?, new)?;
            Ok(())
        }
    }
}
