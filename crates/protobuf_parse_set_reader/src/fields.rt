//! Fields and oneofs.

ghost use Rattle.std.specs.Prelude.{◌≡◌, option_map, string_bytes};
ghost use Rattle.std.specs.Option.{option_and_then};
ghost use Rattle.protobuf_parse_base.specs.DeclaredNames.{name_bytes};
ghost use Rattle.protobuf_parse_model.specs.Descriptors as model;
ghost use Rattle.protobuf_parse_set_reader.specs.Answers.{Gives};
ghost use Rattle.protobuf_parse_set_reader.specs.Bodies.{body_view, types_view};
ghost use Rattle.protobuf_parse_set_reader.specs.Reading as spec;

use crate::body::Body;
use crate::fault::{SetError, SetFaultKind, fault};
use crate::parts::{Part, merged};
use crate::type_names::TypeNames;
use crate::values::{chosen, declared_name, flag_or_false, int, int_or_zero, text};
use protobuf_parse_base::Name;
use protobuf_parse_base::text::json_name;
use protobuf_parse_model::{FieldDescriptorProto, FieldType, Label, OneofDescriptorProto};
use std::alloc::Global;

impl Part for FieldDescriptorProto {
    ghost View = { model.FieldDescriptor };

    ghost view = { model.field_view };

    ghost of = { spec.field_of };

    #[tactic(auto, unfolding(crate::specs::Reading::field_of))]
    fn read(alloc: Global, types: &TypeNames, body: &Body<'_>) -> Result<Self, SetError> {
        let name = declared_name(alloc, body)?;
        let extendee = text(alloc, body, 2)?;
        let number = int_or_zero(body, 3)?;
        let label = label_of(body)?;
        let type_name = text(alloc, body, 6)?;
        let type_ = type_of(types, &type_name, body)?;
        let default_value = text(alloc, body, 7)?;
        let options = merged(alloc, types, body, 8)?;
        let oneof_index = int(body, 9)?;
        let json_name = json_name_of(alloc, &name, body)?;
        let proto3_optional = flag_or_false(body, 17)?;
        Ok(FieldDescriptorProto {
            name,
            number,
            label,
            type_,
            proto3_optional,
            type_name,
            extendee,
            default_value,
            oneof_index,
            json_name,
            options,
        })
    }
}

#[tactic(auto, unfolding(crate::specs::Reading::label_of))]
fn label_of(body: &Body<'_>) -> Result<Label, SetError>
    ensures { Gives (λ x. x) result (spec.label_of (body_view body.now)) }
{
    let said = chosen(body, 4, SetFaultKind::UnknownLabel)?;
    Ok(said.unwrap_or(Label::Optional))
}

/// The type of a field with that `type_name`.
#[tactic(auto, unfolding(crate::specs::Reading::type_of))]
fn type_of(
    types: &TypeNames,
    type_name: &Option<String>,
    body: &Body<'_>,
) -> Result<FieldType, SetError>
    ensures { Gives (λ x. x) result (spec.type_of (types_view types.now)
        (option_map string_bytes type_name.now) (body_view body.now)) }
{
    let said = chosen(body, 5, SetFaultKind::UnknownType)?;
    match said {
        Some(type_) => Ok(type_),
        None => match type_named(types, type_name) {
            Some(type_) => Ok(type_),
            None => Err(fault(body.start, SetFaultKind::NoType)),
        },
    }
}

/// What is declared by that name, if there is one.
fn type_named(types: &TypeNames, name: &Option<String>) -> Option<FieldType>
    ensures { result ≡ option_and_then (types_view types.now) (option_map string_bytes name.now) }
{
    match name {
        Some(name) => types.get(name.as_str()).copied(),
        None => None,
    }
}

/// The JSON name of a field with that name.
#[tactic(auto, unfolding(crate::specs::Reading::json_name_of))]
fn json_name_of(alloc: Global, name: &Name, body: &Body<'_>) -> Result<Name, SetError>
    ensures { Gives name_bytes result
        (spec.json_name_of (name_bytes name.now) (body_view body.now)) }
{
    let said = text(alloc, body, 10)?;
    match said {
        Some(said) => Ok(Name::from(said)),
        None => Ok(json_name(alloc, name.as_str())?),
    }
}

impl Part for OneofDescriptorProto {
    ghost View = { model.OneofDescriptor };

    ghost view = { model.oneof_view };

    ghost of = { λ types. spec.oneof_of };

    #[tactic(auto, unfolding(crate::specs::Reading::oneof_of))]
    fn read(alloc: Global, types: &TypeNames, body: &Body<'_>) -> Result<Self, SetError> {
        Ok(OneofDescriptorProto {
            name: declared_name(alloc, body)?,
            options: merged(alloc, types, body, 2)?,
        })
    }
}
