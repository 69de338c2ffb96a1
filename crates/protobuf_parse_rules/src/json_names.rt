//! Names in JSON, and which fields have them.

ghost use Rattle.std.specs.Prelude.{◌≡◌, ◌++◌, [], ◌∷◌, map, IfOk, OnOk, string_bytes};
ghost use Rattle.protobuf_parse_model.specs.ByHash.{hash_of};
ghost use Rattle.protobuf_parse_model.specs.Descriptors.{FieldDescriptor, field_view};
ghost use Rattle.protobuf_parse_rules.specs.Claims.{conflicts};
ghost use Rattle.protobuf_parse_rules.specs.ClaimsKept.{Claims};
ghost use Rattle.protobuf_parse_rules.specs.JsonNames.{json_claim, json_rule};
ghost use Rattle.protobuf_parse_rules.specs.Rules.{breaches_told};

use crate::bodies::Body;
use crate::claims::{Held, Holders, Thing, check_claim};
use crate::violation::Violation;
use protobuf_parse_model::{FieldDescriptorProto, are_apart, hash_of};
use std::alloc::{AllocError, Global};
use std::collections::BTreeMap;

/// Tells each of the fields whose name in JSON is that of one before it.
pub fn check_json_names<'b>(
    alloc: Global,
    told: &mut Vec<Violation>,
    body: &'b Body<'_>,
    fields: &'b [FieldDescriptorProto],
) -> Result<(), AllocError>
    ensures { OnOk result (breaches_told told.new ≡ breaches_told told.old
        ++ conflicts (json_rule body.now.proto3) []
        (map (json_claim body.now.file.now (string_bytes body.now.scope))
        (map field_view fields.now))) }
{
    let keys = keys_of(alloc, fields)?;
    if are_apart(keys) {
        return Ok(());
    }
    check_each(alloc, told, body, fields)
}

/// The keys of the names in JSON.
fn keys_of(alloc: Global, fields: &[FieldDescriptorProto]) -> Result<Vec<u64>, AllocError>
    ensures { IfOk result
        (λ keys. keys.items ≡ map (λ (f : FieldDescriptor). hash_of f.json_name)
        (map field_view fields.now)) }
{
    let mut keys = Vec::with_capacity(alloc, fields.len())?;
    'fields: for field in fields {
        keys.push(hash_of(&field.json_name))?;
    }
    Ok(keys)
}

fn check_each<'b>(
    alloc: Global,
    told: &mut Vec<Violation>,
    body: &'b Body<'_>,
    fields: &'b [FieldDescriptorProto],
) -> Result<(), AllocError>
    ensures { OnOk result (breaches_told told.new ≡ breaches_told told.old
        ++ conflicts (json_rule body.now.proto3) []
        (map (json_claim body.now.file.now (string_bytes body.now.scope))
        (map field_view fields.now))) }
{
    let mut names: Holders<'_> = BTreeMap::new(alloc);
    'fields: for field in fields {
        check_json_name(alloc, &mut names, told, body, field)?;
    }
    Ok(())
}

fn check_json_name<'a>(
    alloc: Global,
    names: &mut Holders<'a>,
    told: &mut Vec<Violation>,
    body: &'a Body<'_>,
    field: &'a FieldDescriptorProto,
) -> Result<(), AllocError>
    ensures { OnOk result (Claims (json_rule body.now.proto3) names.old names.new told.old told.new
        (json_claim body.now.file.now (string_bytes body.now.scope) (field_view field.now) ∷ [])) }
{
    let thing = Thing {
        number: 0,
        name: &field.json_name,
        scope: "",
    };
    let by = body.holder(&field.name, field.number);
    check_claim(alloc, Held::JsonName(body.proto3), names, told, thing, by)
}
