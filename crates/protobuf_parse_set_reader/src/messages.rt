//! Messages, with those inside them.

ghost use Rattle.std.specs.Prelude.{◌≡◌, map};
ghost use Rattle.protobuf_parse_model.specs.Descriptors as model;
ghost use Rattle.protobuf_parse_set_reader.specs.Answers.{Gives};
ghost use Rattle.protobuf_parse_set_reader.specs.Bodies.{body_view, types_view};
ghost use Rattle.protobuf_parse_set_reader.specs.Reading as spec;
ghost use Rattle.protobuf_parse_set_reader.specs.Values as values;

use crate::body::{Body, body_inside};
use crate::fault::{SetError, SetFaultKind, fault};
use crate::lists::texts;
use crate::parts::{merged, parts};
use crate::type_names::TypeNames;
use crate::values::declared_name;
use protobuf_parse_model::DescriptorProto;
use std::alloc::Global;

/// How many messages may stand inside one another.
pub const MOST_LEVELS: u32 = 100;

/// A message with at most so many levels of messages, itself one.
#[cycle(message)]
#[tactic(auto, unfolding(crate::specs::Reading::message_of, crate::specs::Reading::message_around))]
fn message(
    alloc: Global,
    types: &TypeNames,
    levels: u32,
    body: &Body<'_>,
) -> Result<DescriptorProto, SetError>
    ensures { Gives model.message_view result
        (spec.message_of (types_view types.now) levels (body_view body.now)) }
{
    if levels == 0 {
        return Err(fault(body.start, SetFaultKind::TooDeep));
    }
    Ok(DescriptorProto {
        name: declared_name(alloc, body)?,
        field: parts(alloc, types, body, 2)?,
        nested_type: messages(alloc, types, levels - 1, body, 3)?,
        enum_type: parts(alloc, types, body, 4)?,
        extension_range: parts(alloc, types, body, 5)?,
        extension: parts(alloc, types, body, 6)?,
        options: merged(alloc, types, body, 7)?,
        oneof_decl: parts(alloc, types, body, 8)?,
        reserved_range: parts(alloc, types, body, 9)?,
        reserved_name: texts(alloc, body, 10)?,
    })
}

/// The messages of a repeated field, each with at most so many levels of messages.
#[cycle(message)]
pub fn messages(
    alloc: Global,
    types: &TypeNames,
    levels: u32,
    body: &Body<'_>,
    number: u32,
) -> Result<Vec<DescriptorProto>, SetError>
    ensures { Gives (λ v. map model.message_view v.items) result
        (values.parts (spec.message_of (types_view types.now) levels) number
        (body_view body.now)) }
{
    let mut all = Vec::new(alloc);
    for record in &body.records {
        if record.number == number {
            let inside = body_inside(alloc, *record)?;
            let each = message(alloc, types, levels, &inside)?;
            all.push(each)?;
        }
    }
    Ok(all)
}
