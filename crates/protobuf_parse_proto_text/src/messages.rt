//! Messages, and the fields and the messages in them.

ghost use Rattle.std.specs.Prelude.{◌≡◌, ◌+◌, ◌^◌, ◌<◌, ◌++◌, IfOk, Some, None, codes, flat_map};
ghost use Rattle.std.specs.Prelude.{map};
ghost use Rattle.protobuf_parse_model.specs.Descriptors.{extension_range_view, file_view};
ghost use Rattle.protobuf_parse_model.specs.Descriptors.{message_view, reserved_range_view};
ghost use Rattle.protobuf_parse_model.specs.MessageParts.{message_parts};
ghost use Rattle.protobuf_parse_proto_text.specs.Made.{inner_seen, inside_text, order_inside};
ghost use Rattle.protobuf_parse_proto_text.specs.OrderViews.{block_view, member_view, part_view};
ghost use Rattle.protobuf_parse_proto_text.specs.Pieces.{close};
ghost use Rattle.protobuf_parse_proto_text.specs.ProtoText as spec;
ghost use Rattle.protobuf_parse_proto_text.specs.Puts.{Puts};

use crate::declarations::put_enums;
use crate::fields::{is_group, put_closing, put_member_front, put_opening};
use crate::items::{message_said, put_said};
use crate::members::{Block, Member, message_members};
use crate::order::{Part, parts_of};
use crate::pieces::{put_blank, put_close, put_line, put_range, put_reserved_names};
use protobuf_parse_index::Index;
use protobuf_parse_model::{DescriptorProto, ExtensionRange, ReservedRange};
use protobuf_parse_wire::name_within;
use std::alloc::{AllocError, Global};

/// A message, with that scope around it.
#[cycle(messages)]
fn put_message(
    alloc: Global,
    text: &mut String,
    index: &Index<'_>,
    proto3: bool,
    level: usize,
    scope: &str,
    message: &DescriptorProto,
) -> Result<(), AllocError>
    ensures { Puts result text.old text.new (spec.message_text level
        (spec.inner_of (map file_view index.now) proto3 scope.now (message_view message.now))) }
{
    put_blank(text, level)?;
    put_line(text, level, "message ", &message.name, " {")?;
    put_body(alloc, text, index, proto3, level + 1, scope, message)?;
    put_close(text, level)
}

/// What stands in the braces of a message, with that scope around it.
#[cycle(messages)]
fn put_body(
    alloc: Global,
    text: &mut String,
    index: &Index<'_>,
    proto3: bool,
    level: usize,
    around: &str,
    message: &DescriptorProto,
) -> Result<(), AllocError>
    requires { level < 2 ^ 63 }
    ensures { Puts result text.old text.new
        ((spec.inner_of (map file_view index.now) proto3 around.now
        (message_view message.now)).body level) }
{
    put_body_front(alloc, text, index, level, message)?;
    let scope = name_within(alloc, around, &message.name)?;
    put_inside(alloc, text, index, proto3, level, &scope, message)?;
    put_ranges(alloc, text, level, message)
}

/// The fields, the extensions and the messages of a message that has the full name.
#[cycle(messages)]
fn put_inside(
    alloc: Global,
    text: &mut String,
    index: &Index<'_>,
    proto3: bool,
    level: usize,
    scope: &str,
    message: &DescriptorProto,
) -> Result<(), AllocError>
    requires { level < 2 ^ 63 }
    ensures { Puts result text.old text.new
        (inside_text (map file_view index.now) proto3 level scope.now message.now) }
{
    let parts = message_order(alloc, scope, message)?;
    put_parts(
        alloc,
        text,
        index,
        proto3,
        level,
        scope,
        &message.nested_type,
        &parts,
    )
}

/// What stands in a message that has the full name, in order.
fn message_order<'a>(
    alloc: Global,
    scope: &str,
    message: &'a DescriptorProto,
) -> Result<Vec<Part<'a>>, AllocError>
    ensures { IfOk result (λ v. map part_view v.items ≡ order_inside scope.now message.now) }
{
    let nested = &message.nested_type;
    let members = message_members(alloc, scope, message, nested)?;
    parts_of(alloc, nested.len(), &members)
}

/// The options and the enums of a message.
#[tactic(auto, unfolding(crate::specs::ProtoText::body_front))]
fn put_body_front(
    alloc: Global,
    text: &mut String,
    index: &Index<'_>,
    level: usize,
    message: &DescriptorProto,
) -> Result<(), AllocError>
    ensures { Puts result text.old text.new
        (spec.body_front (map file_view index.now) level (message_parts message.now)) }
{
    let said = message_said(alloc, index, &message.options)?;
    put_said(text, level, &said)?;
    put_enums(alloc, text, index, level, &message.enum_type)
}

/// What stands in a body or in a file, where these messages are.
#[cycle(messages)]
pub fn put_parts(
    alloc: Global,
    text: &mut String,
    index: &Index<'_>,
    proto3: bool,
    level: usize,
    scope: &str,
    nested: &[DescriptorProto],
    parts: &[Part<'_>],
) -> Result<(), AllocError>
    requires { level < 2 ^ 63 }
    ensures { Puts result text.old text.new
        (flat_map (spec.part_text (map file_view index.now) proto3 level
        (inner_seen (map file_view index.now) proto3 scope.now nested.now))
        (map part_view parts.now)) }
{
    'parts: for part in parts {
        put_part(alloc, text, index, proto3, level, scope, nested, part)?;
    }
    Ok(())
}

#[cycle(messages)]
fn put_part(
    alloc: Global,
    text: &mut String,
    index: &Index<'_>,
    proto3: bool,
    level: usize,
    scope: &str,
    nested: &[DescriptorProto],
    part: &Part<'_>,
) -> Result<(), AllocError>
    requires { level < 2 ^ 63 }
    ensures { Puts result text.old text.new
        (spec.part_text (map file_view index.now) proto3 level
        (inner_seen (map file_view index.now) proto3 scope.now nested.now)
        (part_view part.now)) }
{
    match part {
        Part::Begins(block) => put_opening(alloc, text, index, level, *block),
        Part::Ends(block) => put_closing(text, level, *block),
        Part::Declares(member) => {
            put_member(alloc, text, index, proto3, level, scope, nested, member)
        }
        Part::Holds(at) => match nested.get(*at) {
            Some(message) => put_message(alloc, text, index, proto3, level, scope, message),
            None => Ok(()),
        },
    }
}

/// A field or an extension.
#[cycle(messages)]
fn put_member(
    alloc: Global,
    text: &mut String,
    index: &Index<'_>,
    proto3: bool,
    level: usize,
    scope: &str,
    nested: &[DescriptorProto],
    member: &Member<'_>,
) -> Result<(), AllocError>
    requires { level < 2 ^ 63 }
    ensures { Puts result text.old text.new
        (spec.member_text (map file_view index.now) proto3 level
        (inner_seen (map file_view index.now) proto3 scope.now nested.now)
        (member_view member.now)) }
{
    let level = level_in(level, member.block);
    match member.made {
        None => put_plain(alloc, text, index, proto3, level, member),
        Some(at) => match nested.get(at) {
            None => put_plain(alloc, text, index, proto3, level, member),
            Some(message) => put_made(alloc, text, index, proto3, level, scope, member, message),
        },
    }
}

/// A field that makes no message.
fn put_plain(
    alloc: Global,
    text: &mut String,
    index: &Index<'_>,
    proto3: bool,
    level: usize,
    member: &Member<'_>,
) -> Result<(), AllocError>
    ensures { Puts result text.old text.new
        (spec.member_at (map file_view index.now) proto3 level (member_view member.now) None) }
{
    put_member_front(alloc, text, index, proto3, level, member, None)?;
    text.push_str(";\n")
}

/// A group, or a map, with the message that it makes.
#[cycle(messages)]
fn put_made(
    alloc: Global,
    text: &mut String,
    index: &Index<'_>,
    proto3: bool,
    level: usize,
    scope: &str,
    member: &Member<'_>,
    message: &DescriptorProto,
) -> Result<(), AllocError>
    ensures { Puts result text.old text.new
        (spec.member_at (map file_view index.now) proto3 level (member_view member.now)
        (Some (spec.inner_of (map file_view index.now) proto3 scope.now
        (message_view message.now)))) }
{
    put_member_front(alloc, text, index, proto3, level, member, Some(message))?;
    if is_group(member.field) {
        put_group_body(alloc, text, index, proto3, level, scope, message)
    } else {
        text.push_str(";\n")
    }
}

/// The braces of a group.
#[cycle(messages)]
fn put_group_body(
    alloc: Global,
    text: &mut String,
    index: &Index<'_>,
    proto3: bool,
    level: usize,
    scope: &str,
    message: &DescriptorProto,
) -> Result<(), AllocError>
    requires { level + 1 < 2 ^ 63 }
    ensures { Puts result text.old text.new
        (codes " {\n" ++ (spec.inner_of (map file_view index.now) proto3 scope.now
        (message_view message.now)).body (level + 1) ++ close level) }
{
    text.push_str(" {\n")?;
    put_body(alloc, text, index, proto3, level + 1, scope, message)?;
    put_close(text, level)
}

/// How far in the fields of the block stand.
fn level_in(level: usize, block: Block<'_>) -> usize
    requires { level < 2 ^ 63 }
    ensures { result ≡ spec.level_in level (block_view block.entry) }
{
    match block {
        Block::Alone => level,
        Block::Oneof(_, _) => level + 1,
        Block::Extend(_) => level + 1,
    }
}

/// The ranges and the reserved names of a message.
#[tactic(auto, unfolding(crate::specs::ProtoText::message_ranges))]
fn put_ranges(
    alloc: Global,
    text: &mut String,
    level: usize,
    message: &DescriptorProto,
) -> Result<(), AllocError>
    ensures { Puts result text.old text.new
        (spec.message_ranges level (message_parts message.now)) }
{
    put_extension_ranges(text, level, &message.extension_range)?;
    put_reserved_ranges(text, level, &message.reserved_range)?;
    put_reserved_names(alloc, text, level, &message.reserved_name)
}

fn put_extension_ranges(
    text: &mut String,
    level: usize,
    ranges: &[ExtensionRange],
) -> Result<(), AllocError>
    ensures { Puts result text.old text.new
        (flat_map (spec.numbers_line level (codes "extensions "))
        (map extension_range_view ranges.now)) }
{
    for range in ranges {
        put_extension_range(text, level, range)?;
    }
    Ok(())
}

fn put_extension_range(
    text: &mut String,
    level: usize,
    range: &ExtensionRange,
) -> Result<(), AllocError>
    ensures { Puts result text.old text.new
        (spec.numbers_line level (codes "extensions ") (extension_range_view range.now)) }
{
    put_numbers(text, level, "extensions ", &range.start, &range.end)
}

fn put_reserved_ranges(
    text: &mut String,
    level: usize,
    ranges: &[ReservedRange],
) -> Result<(), AllocError>
    ensures { Puts result text.old text.new
        (flat_map (spec.numbers_line level (codes "reserved "))
        (map reserved_range_view ranges.now)) }
{
    for range in ranges {
        put_reserved_range(text, level, range)?;
    }
    Ok(())
}

fn put_reserved_range(
    text: &mut String,
    level: usize,
    range: &ReservedRange,
) -> Result<(), AllocError>
    ensures { Puts result text.old text.new
        (spec.numbers_line level (codes "reserved ") (reserved_range_view range.now)) }
{
    put_numbers(text, level, "reserved ", &range.start, &range.end)
}

/// A range whose end is behind it.
fn put_numbers(
    text: &mut String,
    level: usize,
    words: &str,
    start: &i32,
    end: &i32,
) -> Result<(), AllocError>
    ensures { Puts result text.old text.new
        (spec.numbers_line level words.now (record { start = start.now; end = end.now })) }
{
    let first = i128::from(*start);
    let last = i128::from(*end) - 1;
    put_range(text, level, words, first, last, *end == 536870912)
}
