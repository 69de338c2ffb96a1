//! Which numbers two fields or extensions of one message may have: at a glance, or by a key of
//! each.

ghost use Rattle.std.specs.Prelude.{◌≡◌, ◌++◌, map, flat_map, IfOk, OnOk, pos};
ghost use Rattle.std.specs.List.{list_any};
ghost use Rattle.protobuf_parse_model.specs.Descriptors.{field_view};
ghost use Rattle.protobuf_parse_rules.specs.Ascending as ascending;
ghost use Rattle.protobuf_parse_rules.specs.Ascending.{ascend_from, is_mixed, message_scopes};
ghost use Rattle.protobuf_parse_rules.specs.BodyViews.{body_view};
ghost use Rattle.protobuf_parse_rules.specs.ClaimsKept.{AreEnough};
ghost use Rattle.protobuf_parse_rules.specs.Keys.{claim_key, extension_keys, field_key};
ghost use Rattle.protobuf_parse_rules.specs.Keys.{text_key};
ghost use Rattle.protobuf_parse_rules.specs.Numbers.{claims};
ghost use Rattle.protobuf_parse_rules.specs.Wanted as spec;

use crate::bodies::{Body, Holds};
use crate::crowds::twice_among;
use crate::key_set::KeySet;
use crate::keys::{NO_TEXT, numbered, text_key};
use crate::uses::has_extensions;
use protobuf_parse_model::FieldDescriptorProto;
use std::alloc::{AllocError, Global};

/// Keys among which those of numbers stand that two fields or extensions of one message have: none
/// where no two have one. At a glance there is none where nothing is extended, the numbers of each
/// message ascend, and messages have names of their own.
pub fn doubled_numbers(alloc: Global, bodies: &[Body<'_>]) -> Result<KeySet, AllocError>
    ensures { IfOk result (λ found. AreEnough found.sorted.items (map body_view bodies.now)) }
{
    if are_any_mixed(bodies) {
        return doubled_claims(alloc, bodies);
    }
    let keys = message_keys(alloc, bodies)?;
    let doubled = twice_among(alloc, &keys)?;
    if doubled.is_empty() {
        return Ok(KeySet::of(doubled));
    }
    doubled_claims(alloc, bodies)
}

/// Whether anything is extended in one of the bodies, or the numbers of its fields don't ascend.
#[tactic(auto, using(crate::proofs::Lists::any_found))]
fn are_any_mixed(bodies: &[Body<'_>]) -> bool
    ensures { result ≡ list_any is_mixed (map body_view bodies.now) }
{
    'bodies: for body in bodies {
        if is_mixed(body) {
            return true;
        }
    }
    false
}

fn is_mixed(body: &Body<'_>) -> bool
    ensures { result ≡ ascending.is_mixed (body_view body.now) }
{
    has_extensions(body.holds) || !ascend(body.holds.fields())
}

/// Whether the number of each field is above that of the one before it, and that of the first
/// above 0.
fn ascend(fields: &[FieldDescriptorProto]) -> bool
    ensures { result ≡ ascend_from (pos 0) (map field_view fields.now) }
{
    let mut last = 0;
    'fields: for field in fields {
        if !(last < field.number) {
            return false;
        }
        last = field.number;
    }
    true
}

/// The keys of the full names of messages.
fn message_keys(alloc: Global, bodies: &[Body<'_>]) -> Result<Vec<u64>, AllocError>
    ensures { IfOk result (λ keys. keys.items
        ≡ map text_key (flat_map message_scopes (map body_view bodies.now))) }
{
    let mut keys = Vec::new(alloc);
    'bodies: for body in bodies {
        add_message_key(&mut keys, body)?;
    }
    Ok(keys)
}

fn add_message_key(keys: &mut Vec<u64>, body: &Body<'_>) -> Result<(), AllocError>
    ensures { OnOk result (keys.new.items
        ≡ keys.old.items ++ map text_key (message_scopes (body_view body.now))) }
{
    match body.holds {
        Holds::Message(_) => {
            keys.push(text_key(NO_TEXT, &body.scope))?;
            Ok(())
        }
        Holds::File(_) => Ok(()),
    }
}

/// The same by the keys of all.
fn doubled_claims(alloc: Global, bodies: &[Body<'_>]) -> Result<KeySet, AllocError>
    ensures { IfOk result (λ found. AreEnough found.sorted.items (map body_view bodies.now)) }
{
    let mut keys = Vec::new(alloc);
    'bodies: for body in bodies {
        add_keys(&mut keys, body)?;
    }
    let found = twice_among(alloc, &keys)?;
    Ok(KeySet::of(found))
}

fn add_keys(keys: &mut Vec<u64>, body: &Body<'_>) -> Result<(), AllocError>
    ensures { OnOk result (keys.new.items
        ≡ keys.old.items ++ map claim_key (claims (body_view body.now))) }
{
    let front = text_key(NO_TEXT, &body.scope);
    add_field_keys(keys, front, body.holds.fields())?;
    add_extension_keys(keys, body.holds.extensions())
}

fn add_field_keys(
    keys: &mut Vec<u64>,
    front: u64,
    fields: &[FieldDescriptorProto],
) -> Result<(), AllocError>
    ensures { OnOk result (keys.new.items ≡ keys.old.items
        ++ map (field_key front) (map field_view fields.now)) }
{
    'fields: for field in fields {
        keys.push(numbered(front, &field.number))?;
    }
    Ok(())
}

fn add_extension_keys(
    keys: &mut Vec<u64>,
    extensions: &[FieldDescriptorProto],
) -> Result<(), AllocError>
    ensures { OnOk result (keys.new.items ≡ keys.old.items
        ++ flat_map extension_keys (map field_view extensions.now)) }
{
    'extensions: for extension in extensions {
        add_extension_key(keys, extension)?;
    }
    Ok(())
}

fn add_extension_key(
    keys: &mut Vec<u64>,
    extension: &FieldDescriptorProto,
) -> Result<(), AllocError>
    ensures { OnOk result (keys.new.items ≡ keys.old.items
        ++ extension_keys (field_view extension.now)) }
{
    match &extension.extendee {
        Some(message) => {
            keys.push(numbered(text_key(NO_TEXT, message), &extension.number))?;
            Ok(())
        }
        None => Ok(()),
    }
}

/// Whether a number that a field or an extension in the body has is wanted.
pub fn has_wanted(wanted: &KeySet, body: &Body<'_>) -> bool
    ensures { result ≡ list_any (spec.is_wanted_number wanted.now.sorted.items)
        (claims (body_view body.now)) }
{
    let front = text_key(NO_TEXT, &body.scope);
    has_wanted_field(wanted, front, body.holds.fields())
        || has_wanted_extension(wanted, body.holds.extensions())
}

#[tactic(auto, using(crate::proofs::Lists::any_found))]
fn has_wanted_field(wanted: &KeySet, front: u64, fields: &[FieldDescriptorProto]) -> bool
    ensures { result ≡ list_any (spec.is_wanted_field wanted.now.sorted.items front)
        (map field_view fields.now) }
{
    'fields: for field in fields {
        if wanted.has(numbered(front, &field.number)) {
            return true;
        }
    }
    false
}

#[tactic(auto, using(crate::proofs::Lists::any_found))]
fn has_wanted_extension(wanted: &KeySet, extensions: &[FieldDescriptorProto]) -> bool
    ensures { result ≡ list_any (spec.is_wanted_extension wanted.now.sorted.items)
        (map field_view extensions.now) }
{
    'extensions: for extension in extensions {
        if is_wanted_extension(wanted, extension) {
            return true;
        }
    }
    false
}

fn is_wanted_extension(wanted: &KeySet, extension: &FieldDescriptorProto) -> bool
    ensures { result
        ≡ spec.is_wanted_extension wanted.now.sorted.items (field_view extension.now) }
{
    match &extension.extendee {
        Some(message) => wanted.has(numbered(text_key(NO_TEXT, message), &extension.number)),
        None => false,
    }
}
