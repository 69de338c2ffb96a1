//! Numbers of messages, and who has them.

ghost use Rattle.std.specs.Prelude.{[], ◌∷◌, map, OnOk, string_bytes};
ghost use Rattle.protobuf_parse_model.specs.Descriptors.{field_view};
ghost use Rattle.protobuf_parse_rules.specs.BodyViews.{body_view};
ghost use Rattle.protobuf_parse_rules.specs.ClaimsKept.{Claims};
ghost use Rattle.protobuf_parse_rules.specs.Numbers.{claim_of, claims, extension_claim};
ghost use Rattle.protobuf_parse_rules.specs.Numbers.{extension_claims};
ghost use Rattle.protobuf_parse_rules.specs.Numbers.{field_claims, number_rule};
ghost use Rattle.protobuf_parse_rules.specs.Wanted.{claims_wanted};

use crate::bodies::Body;
use crate::claims::{Held, Holders, Thing, check_claim};
use crate::key_set::KeySet;
use crate::number_keys::has_wanted;
use crate::violation::Violation;
use protobuf_parse_model::FieldDescriptorProto;
use std::alloc::{AllocError, Global};

/// Tells each field and extension of the body that has a number which is in use already, if one of
/// its numbers is wanted.
pub fn check_numbers<'a>(
    alloc: Global,
    wanted: &KeySet,
    numbers: &mut Holders<'a>,
    told: &mut Vec<Violation>,
    body: &'a Body<'_>,
) -> Result<(), AllocError>
    ensures { OnOk result (Claims number_rule numbers.old numbers.new told.old told.new
        (claims_wanted wanted.now.sorted.items (body_view body.now))) }
{
    if !has_wanted(wanted, body) {
        return Ok(());
    }
    check_each(alloc, numbers, told, body)
}

/// Tells each of them.
fn check_each<'a>(
    alloc: Global,
    numbers: &mut Holders<'a>,
    told: &mut Vec<Violation>,
    body: &'a Body<'_>,
) -> Result<(), AllocError>
    ensures { OnOk result (Claims number_rule numbers.old numbers.new told.old told.new
        (claims (body_view body.now))) }
{
    check_fields(alloc, numbers, told, body, body.holds.fields())?;
    check_extensions(alloc, numbers, told, body, body.holds.extensions())
}

fn check_fields<'a>(
    alloc: Global,
    numbers: &mut Holders<'a>,
    told: &mut Vec<Violation>,
    body: &'a Body<'_>,
    fields: &'a [FieldDescriptorProto],
) -> Result<(), AllocError>
    ensures { OnOk result (Claims number_rule numbers.old numbers.new told.old told.new
        (field_claims body.now.file.now (string_bytes body.now.scope)
        (map field_view fields.now))) }
{
    'fields: for field in fields {
        check_number(alloc, numbers, told, body, field, body.scope.as_str())?;
    }
    Ok(())
}

fn check_extensions<'a>(
    alloc: Global,
    numbers: &mut Holders<'a>,
    told: &mut Vec<Violation>,
    body: &'a Body<'_>,
    extensions: &'a [FieldDescriptorProto],
) -> Result<(), AllocError>
    ensures { OnOk result (Claims number_rule numbers.old numbers.new told.old told.new
        (extension_claims body.now.file.now (string_bytes body.now.scope)
        (map field_view extensions.now))) }
{
    'extensions: for extension in extensions {
        check_extension(alloc, numbers, told, body, extension)?;
    }
    Ok(())
}

fn check_extension<'a>(
    alloc: Global,
    numbers: &mut Holders<'a>,
    told: &mut Vec<Violation>,
    body: &'a Body<'_>,
    extension: &'a FieldDescriptorProto,
) -> Result<(), AllocError>
    ensures { OnOk result (Claims number_rule numbers.old numbers.new told.old told.new
        (extension_claim body.now.file.now (string_bytes body.now.scope)
        (field_view extension.now))) }
{
    match &extension.extendee {
        Some(extendee) => check_number(alloc, numbers, told, body, extension, extendee.as_str()),
        None => Ok(()),
    }
}

/// The field's number is one of that message.
fn check_number<'a>(
    alloc: Global,
    numbers: &mut Holders<'a>,
    told: &mut Vec<Violation>,
    body: &'a Body<'_>,
    field: &'a FieldDescriptorProto,
    message: &'a str,
) -> Result<(), AllocError>
    ensures { OnOk result (Claims number_rule numbers.old numbers.new told.old told.new
        (claim_of body.now.file.now (string_bytes body.now.scope) message.now
        (field_view field.now) ∷ [])) }
{
    let number = field.number;
    let thing = Thing {
        number,
        name: message,
        scope: "",
    };
    check_claim(
        alloc,
        Held::Number,
        numbers,
        told,
        thing,
        body.holder(&field.name, number),
    )
}
