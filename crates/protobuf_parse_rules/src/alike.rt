//! Names that are one but for case and underscores.

ghost use Rattle.std.specs.Prelude.{◌≡◌, ◌++◌, [], ◌∷◌, map, flat_map, OnOk, IfOk};
ghost use Rattle.std.specs.Prelude.{All, IsUtf8, encode_utf8_all, string_bytes};
ghost use Rattle.std.specs.Str.{chars};
ghost use Rattle.protobuf_parse_base.specs.Cases.{camel_case_text};
ghost use Rattle.protobuf_parse_model.specs.Descriptors.{EnumValueDescriptor, enum_value_view};
ghost use Rattle.protobuf_parse_model.specs.Descriptors.{enum_view, field_view};
ghost use Rattle.protobuf_parse_rules.specs.Alike as spec;
ghost use Rattle.protobuf_parse_rules.specs.Alike.{fields_alike, spelled_claim, values_alike};
ghost use Rattle.protobuf_parse_rules.specs.Claims.{conflicts};
ghost use Rattle.protobuf_parse_rules.specs.ClaimsKept.{Claims};
ghost use Rattle.protobuf_parse_rules.specs.Held.{rules_of};
ghost use Rattle.protobuf_parse_rules.specs.Keys.{spelling_keys, text_key};
ghost use Rattle.protobuf_parse_rules.specs.KnownNames.{spelled_view};
ghost use Rattle.protobuf_parse_rules.specs.Bodies.{fields_of};
ghost use Rattle.protobuf_parse_rules.specs.BodyViews.{body_view, content_view};
ghost use Rattle.protobuf_parse_rules.specs.Rules.{breaches_told};

use crate::bodies::Body;
use crate::claims::{Held, Holders, Thing, check_claim};
use crate::keys::{NO_TEXT, squeezed_key};
use crate::violation::Violation;
use protobuf_parse_base::text::camel_case;
use protobuf_parse_model::{
    EnumDescriptorProto, EnumValueDescriptorProto, FieldDescriptorProto, are_apart,
};
use std::alloc::{AllocError, Global};
use std::collections::BTreeMap;

/// A name with how it is compared.
#[derive(Drop)]
pub struct Spelled<'a> {
    pub key: String,
    pub name: &'a str,
    pub number: i32,
}

/// Tells each field of proto3 whose name is that of one before it but for case and underscores.
pub fn check_fields_alike(
    alloc: Global,
    told: &mut Vec<Violation>,
    body: &Body<'_>,
) -> Result<(), AllocError>
    ensures { OnOk result (breaches_told told.new ≡ breaches_told told.old
        ++ fields_alike (body_view body.now)) }
{
    if !body.proto3 {
        return Ok(());
    }
    let keys = squeezed_keys(alloc, body.holds.fields())?;
    if are_apart(keys) {
        return Ok(());
    }
    check_spelled_fields(alloc, told, body)
}

/// The keys of how the names of the fields are compared.
fn squeezed_keys(alloc: Global, fields: &[FieldDescriptorProto]) -> Result<Vec<u64>, AllocError>
    ensures { IfOk result (λ keys. keys.items ≡ map (λ (s : spec.Spelled). text_key s.key)
        (map spec.spelled_field (map field_view fields.now))) }
{
    let mut keys = Vec::with_capacity(alloc, fields.len())?;
    'fields: for field in fields {
        keys.push(squeezed_key(NO_TEXT, &field.name))?;
    }
    Ok(keys)
}

/// Tells the same field by field.
fn check_spelled_fields(
    alloc: Global,
    told: &mut Vec<Violation>,
    body: &Body<'_>,
) -> Result<(), AllocError>
    ensures { OnOk result (breaches_told told.new ≡ breaches_told told.old
        ++ conflicts spec.field_alike_rule []
        (map (spelled_claim body.now.file.now (string_bytes body.now.scope))
        (map spec.spelled_field (fields_of (content_view body.now.holds))))) }
{
    let spelled = spelled_fields(alloc, body.holds.fields())?;
    check_in_turn(alloc, told, Held::FieldAlike, body, &spelled)
}

/// Tells each value whose name is that of one before it, which has another number, but for case,
/// underscores and the enum's name.
pub fn check_values_alike(
    alloc: Global,
    told: &mut Vec<Violation>,
    body: &Body<'_>,
    each: &EnumDescriptorProto,
) -> Result<(), AllocError>
    ensures { OnOk result (breaches_told told.new ≡ breaches_told told.old
        ++ values_alike (body_view body.now) (enum_view each.now)) }
{
    let front = squeezed_key(NO_TEXT, each.name.as_str());
    let keys = value_keys(alloc, front, &each.value)?;
    if are_apart(keys) {
        return Ok(());
    }
    check_spelled_values(alloc, told, body, each)
}

/// Two keys for each value, of its name in lower case and without underscores: by itself, and
/// behind the enum's name. Where no two of all are one, neither are two names without the enum's:
/// that spared 11 million instructions for 9,000 values.
fn value_keys(
    alloc: Global,
    front: u64,
    values: &[EnumValueDescriptorProto],
) -> Result<Vec<u64>, AllocError>
    ensures are { IfOk result (λ keys. keys.items
        ≡ flat_map (spelling_keys front) (map enum_value_view values.now)) }
    ensures texts { IfOk result (λ keys. All (λ (v : EnumValueDescriptor). IsUtf8 v.name)
        (map enum_value_view values.now)) }
{
    let mut keys = Vec::with_capacity(alloc, values.len().saturating_mul(2))?;
    'values: for value in values {
        let name = value.name.as_str();
        keys.push(squeezed_key(NO_TEXT, name))?;
        keys.push(squeezed_key(front, name))?;
    }
    Ok(keys)
}

/// Tells the same value by value.
fn check_spelled_values(
    alloc: Global,
    told: &mut Vec<Violation>,
    body: &Body<'_>,
    each: &EnumDescriptorProto,
) -> Result<(), AllocError>
    ensures { OnOk result (breaches_told told.new ≡ breaches_told told.old
        ++ values_alike (body_view body.now) (enum_view each.now)) }
{
    let front = squeezed(alloc, &each.name)?;
    let spelled = spelled_values(alloc, &front, &each.value)?;
    check_in_turn(alloc, told, Held::ValueAlike(body.proto3), body, &spelled)
}

fn check_in_turn<'b>(
    alloc: Global,
    told: &mut Vec<Violation>,
    held: Held,
    body: &'b Body<'_>,
    names: &'b [Spelled<'b>],
) -> Result<(), AllocError>
    ensures { OnOk result (breaches_told told.new ≡ breaches_told told.old
        ++ conflicts (rules_of held) []
        (map (spelled_claim body.now.file.now (string_bytes body.now.scope))
        (map spelled_view names.now))) }
{
    let mut holders: Holders<'_> = BTreeMap::new(alloc);
    'names: for spelled in names {
        check_spelled(alloc, &mut holders, told, held, body, spelled)?;
    }
    Ok(())
}

fn check_spelled<'a>(
    alloc: Global,
    holders: &mut Holders<'a>,
    told: &mut Vec<Violation>,
    held: Held,
    body: &'a Body<'_>,
    spelled: &'a Spelled<'_>,
) -> Result<(), AllocError>
    ensures { OnOk result (Claims (rules_of held) holders.old holders.new told.old told.new
        (spelled_claim body.now.file.now (string_bytes body.now.scope) (spelled_view spelled.now)
        ∷ [])) }
{
    let thing = Thing {
        number: 0,
        name: &spelled.key,
        scope: "",
    };
    let by = body.holder(spelled.name, spelled.number);
    check_claim(alloc, held, holders, told, thing, by)
}

fn spelled_fields<'a>(
    alloc: Global,
    fields: &'a [FieldDescriptorProto],
) -> Result<Vec<Spelled<'a>>, AllocError>
    ensures { IfOk result (λ v. map spelled_view v.items
        ≡ map spec.spelled_field (map field_view fields.now)) }
{
    let mut names = Vec::with_capacity(alloc, fields.len())?;
    'fields: for field in fields {
        names.push(spelled_field(alloc, field)?)?;
    }
    Ok(names)
}

fn spelled_field<'a>(
    alloc: Global,
    field: &'a FieldDescriptorProto,
) -> Result<Spelled<'a>, AllocError>
    ensures { IfOk result (λ s. spelled_view s ≡ spec.spelled_field (field_view field.now)) }
{
    let key = squeezed_text(alloc, &field.name)?;
    Ok(Spelled {
        key,
        name: &field.name,
        number: field.number,
    })
}

fn spelled_values<'a>(
    alloc: Global,
    front: &[char],
    values: &'a [EnumValueDescriptorProto],
) -> Result<Vec<Spelled<'a>>, AllocError>
    ensures { IfOk result (λ v. map spelled_view v.items
        ≡ map (spec.spelled_value front.now) (map enum_value_view values.now)) }
{
    let mut names = Vec::with_capacity(alloc, values.len())?;
    'values: for value in values {
        names.push(spelled_value(alloc, front, value)?)?;
    }
    Ok(names)
}

fn spelled_value<'a>(
    alloc: Global,
    front: &[char],
    value: &'a EnumValueDescriptorProto,
) -> Result<Spelled<'a>, AllocError>
    ensures { IfOk result (λ s. spelled_view s
        ≡ spec.spelled_value front.now (enum_value_view value.now)) }
{
    let name = chars_of(alloc, &value.name)?;
    let key = words(alloc, without_front(front, &name))?;
    Ok(Spelled {
        key,
        name: &value.name,
        number: value.number,
    })
}

fn chars_of(alloc: Global, name: &str) -> Result<Vec<char>, AllocError>
    ensures { IfOk result (λ v. v.items ≡ chars name.now) }
{
    name.chars().collect(alloc)
}

/// The characters of the name in lower case, without underscores.
fn squeezed(alloc: Global, name: &str) -> Result<Vec<char>, AllocError>
    ensures { IfOk result (λ v. v.items ≡ spec.squeezed name.now) }
{
    name.chars()
        .filter(|c| *c != '_')
        .map(|c| c.to_ascii_lowercase())
        .collect(alloc)
}

fn squeezed_text(alloc: Global, name: &str) -> Result<String, AllocError>
    ensures { IfOk result (λ s. string_bytes s ≡ encode_utf8_all (spec.squeezed name.now)) }
{
    name.chars()
        .filter(|c| *c != '_')
        .map(|c| c.to_ascii_lowercase())
        .collect(alloc)
}

/// Without the front, where something stands behind it.
fn without_front<'c>(front: &[char], name: &'c [char]) -> &'c [char]
    ensures { result.now ≡ spec.without_front front.now name.now }
{
    let rest = behind(front, name);
    if rest.is_empty() { name } else { rest }
}

/// What stands behind the front; nothing, where the front doesn't stand at the head.
fn behind<'c>(front: &[char], name: &'c [char]) -> &'c [char]
    ensures { result.now ≡ spec.behind front.now name.now }
{
    let mut front = front;
    let mut rest = name;
    'rest: while let [c, more @ ..] = rest {
        if *c == '_' {
            rest = more;
        } else {
            match front {
                [f, fs @ ..] if c.to_ascii_lowercase() == *f => {
                    front = fs;
                    rest = more;
                }
                [_, ..] => return &[],
                [] => return rest,
            }
        }
    }
    rest
}

/// In camel case, with each word in lower case but for its first letter.
fn words(alloc: Global, name: &[char]) -> Result<String, AllocError>
    ensures { IfOk result (λ s. string_bytes s ≡ spec.words name.now) }
{
    let lower: String = name.iter().map(|c| c.to_ascii_lowercase()).collect(alloc)?;
    camel_case(alloc, &lower)
}
