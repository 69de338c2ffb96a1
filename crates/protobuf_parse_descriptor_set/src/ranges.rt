//! Ranges of a message's numbers.

ghost use Rattle.std.specs.Prelude.{◌≡◌, OnOk, flat_map, map};
ghost use Rattle.protobuf_parse_model.specs.Descriptors as model;
ghost use Rattle.protobuf_parse_model.specs.MessageParts.{message_parts};
ghost use Rattle.protobuf_parse_descriptor_set.specs.Items.{part};
ghost use Rattle.protobuf_parse_descriptor_set.specs.Writing.{Writes};
ghost use Rattle.protobuf_parse_descriptor_set.specs.RangeEnds as spec;
ghost use Rattle.protobuf_parse_descriptor_set.specs.DescriptorItems.{range_items};

use crate::parts::{begin_message, end_message};
use crate::records::put_int;
use protobuf_parse_model::{DescriptorProto, ExtensionRange, ReservedRange};
use std::alloc::AllocError;

/// The end of `max` in a descriptor.
const MAX_END: i32 = 536870912;

/// A range of numbers of a message, whose end is behind it.
pub trait NumberRange {
    ghost view: { Self → model.Range };

    fn start(&self) -> &i32
        ensures { result.now ≡ (view self.now).start };

    fn end(&self) -> &i32
        ensures { result.now ≡ (view self.now).end };
}

impl NumberRange for ExtensionRange {
    ghost view = { model.extension_range_view };

    fn start(&self) -> &i32 {
        &self.start
    }

    fn end(&self) -> &i32 {
        &self.end
    }
}

impl NumberRange for ReservedRange {
    ghost view = { model.reserved_range_view };

    fn start(&self) -> &i32 {
        &self.start
    }

    fn end(&self) -> &i32 {
        &self.end
    }
}

/// Whether the message has the wire format of message sets.
pub fn is_message_set(message: &DescriptorProto) -> bool
    ensures { result ≡ spec.is_message_set (message_parts message.now) }
{
    match &message.options {
        Some(options) => options.message_set_wire_format.unwrap_or(false),
        None => false,
    }
}

/// Writes each range of a message with that field number, as the set has it.
pub fn put_ranges<R: NumberRange>(
    out: &mut Vec<u8>,
    number: u32,
    ranges: &[R],
    message_set: bool,
) -> Result<(), AllocError>
    ensures { OnOk result
        (Writes (flat_map (λ r. part number (range_items r))
        (map (spec.range_in_set message_set) (map R.view ranges.now)))
        out.old.items out.new.items) }
{
    for range in ranges {
        let start = begin_message(out, number)?;
        put_range(out, range.start(), end_in_set(range.end(), message_set))?;
        end_message(out, start)?;
    }
    Ok(())
}

/// The end as the set has it: `max` of a message set is the largest `i32`.
fn end_in_set(end: &i32, message_set: bool) -> &i32
    ensures { result.now ≡ spec.end_in_set message_set end.now }
{
    if message_set && *end == MAX_END {
        &i32::MAX
    } else {
        end
    }
}

/// Writes the numbers of a range.
#[tactic(auto, unfolding(crate::specs::DescriptorItems::range_items))]
fn put_range(out: &mut Vec<u8>, start: &i32, end: &i32) -> Result<(), AllocError>
    ensures { OnOk result
        (Writes (range_items (record { start = start.now; end = end.now }))
        out.old.items out.new.items) }
{
    put_int(out, 1, start)?;
    put_int(out, 2, end)
}
