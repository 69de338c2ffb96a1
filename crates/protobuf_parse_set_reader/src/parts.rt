//! Messages inside a message.

ghost use Rattle.std.specs.Prelude.{◌≡◌, map, option_map};
ghost use Rattle.protobuf_parse_records.specs.Views.{record_view};
ghost use Rattle.protobuf_parse_set_reader.specs.Answers.{Answer, Gives};
ghost use Rattle.protobuf_parse_set_reader.specs.Bodies.{body_view, types_view};
ghost use Rattle.protobuf_parse_set_reader.specs.TypeNames.{Types};
ghost use Rattle.protobuf_parse_set_reader.specs.Values as spec;
ghost use Rattle.protobuf_parse_set_reader.specs.Values.{BodyView};

use crate::body::{Body, body_inside, last};
use crate::fault::SetError;
use crate::type_names::TypeNames;
use protobuf_parse_records::Record;
use std::alloc::Global;

/// What is a message of `descriptor.proto`.
pub trait Part: Sized + Drop {
    /// What its fields are told by.
    ghost View: { Type 0 };

    ghost view: { Self → View };

    /// What a message says, where names are those of these types.
    ghost of: { Types → BodyView → Answer View };

    /// Reads it.
    fn read(alloc: Global, types: &TypeNames, body: &Body<'_>) -> Result<Self, SetError>
        ensures { Gives view result (of (types_view types.now) (body_view body.now)) };
}

/// The message that the record holds.
#[tactic(auto, unfolding(crate::specs::Values::part_in))]
pub fn part_of<P: Part>(alloc: Global, types: &TypeNames, record: Record<'_>) -> Result<P, SetError>
    ensures { Gives P.view result
        (spec.part_in (P.of (types_view types.now)) (record_view record.entry)) }
{
    let body = body_inside(alloc, record)?;
    P::read(alloc, types, &body)
}

/// The messages of a repeated field.
pub fn parts<P: Part>(
    alloc: Global,
    types: &TypeNames,
    body: &Body<'_>,
    number: u32,
) -> Result<Vec<P>, SetError>
    ensures { Gives (λ v. map P.view v.items) result
        (spec.parts (P.of (types_view types.now)) number (body_view body.now)) }
{
    let mut all = Vec::new(alloc);
    for record in &body.records {
        if record.number == number {
            let part = part_of(alloc, types, *record)?;
            all.push(part)?;
        }
    }
    Ok(all)
}

/// The message of a field that is not repeated: what all records with the number say together.
#[tactic(auto, unfolding(crate::specs::Values::merged))]
pub fn merged<P: Part>(
    alloc: Global,
    types: &TypeNames,
    body: &Body<'_>,
    number: u32,
) -> Result<Option<P>, SetError>
    ensures { Gives (option_map P.view) result
        (spec.merged (P.of (types_view types.now)) number (body_view body.now)) }
{
    if last(body, number).is_none() {
        return Ok(None);
    }
    let whole = together(alloc, body, number)?;
    let part = P::read(alloc, types, &whole)?;
    Ok(Some(part))
}

/// The message whose records all messages with that number have together.
fn together<'a>(alloc: Global, body: &Body<'a>, number: u32) -> Result<Body<'a>, SetError>
    ensures { Gives body_view result (spec.together body.now.start
        (spec.numbered number (body_view body.now).records)) }
{
    let mut all = Vec::new(alloc);
    for record in &body.records {
        if record.number == number {
            let mut inside = body_inside(alloc, *record)?;
            all.append(&mut inside.records)?;
        }
    }
    Ok(Body {
        start: body.start,
        records: all,
    })
}
