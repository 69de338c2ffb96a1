//! Fields and extensions.

ghost use Rattle.std.specs.Prelude.{◌≡◌, ◌+◌, ◌^◌, ◌<◌, ◌++◌, IfOk, OnOk, codes, map, option_map};
ghost use Rattle.std.specs.Fmt.{signed_decimal};
ghost use Rattle.std.specs.String.{string_bytes};
ghost use Rattle.protobuf_parse_model.specs.Descriptors.{field_view, file_view};
ghost use Rattle.protobuf_parse_model.specs.MessageParts.{message_parts};
ghost use Rattle.protobuf_parse_listing.specs.Listing.{quoted};
ghost use Rattle.protobuf_parse_proto_text.specs.Items.{brackets, item};
ghost use Rattle.protobuf_parse_proto_text.specs.Made.{parts_made};
ghost use Rattle.protobuf_parse_proto_text.specs.OrderViews.{block_view, member_view};
ghost use Rattle.protobuf_parse_proto_text.specs.ProtoText as spec;
ghost use Rattle.protobuf_parse_proto_text.specs.Puts.{Puts};
ghost use Rattle.protobuf_parse_proto_text.specs.SaidViews.{said_view};

use crate::items::{Said, field_said, oneof_said, put_brackets, put_said, put_untold};
use crate::members::{Block, Member, is_repeated};
use crate::pieces::{put_blank, put_close, put_indent, put_line, put_number, put_quoted};
use crate::values::type_name_of;
use protobuf_parse_base::text::json_name;
use protobuf_parse_index::{Index, label_word, type_word};
use protobuf_parse_model::{DescriptorProto, FieldDescriptorProto, FieldType};
use std::alloc::{AllocError, Global};

/// The opening of a block, with the options of a oneof.
#[tactic(auto, unfolding(crate::specs::ProtoText::opening))]
pub fn put_opening(
    alloc: Global,
    text: &mut String,
    index: &Index<'_>,
    level: usize,
    block: Block<'_>,
) -> Result<(), AllocError>
    ensures { Puts result text.old text.new
        (spec.opening (map file_view index.now) level (block_view block.entry)) }
{
    match block {
        Block::Alone => Ok(()),
        Block::Oneof(_, oneof) => {
            put_line(text, level, "oneof ", &oneof.name, " {")?;
            let said = oneof_said(alloc, index, &oneof.options)?;
            put_said(text, level + 1, &said)
        }
        Block::Extend(extendee) => {
            put_blank(text, level)?;
            put_line(text, level, "extend ", extendee, " {")
        }
    }
}

/// The end of a block.
#[tactic(auto, unfolding(crate::specs::ProtoText::closing))]
pub fn put_closing(text: &mut String, level: usize, block: Block<'_>) -> Result<(), AllocError>
    ensures { Puts result text.old text.new (spec.closing level (block_view block.entry)) }
{
    match block {
        Block::Alone => Ok(()),
        Block::Oneof(_, _) => put_close(text, level),
        Block::Extend(_) => put_close(text, level),
    }
}

/// A field up to its end, which is a semicolon or the body of a group.
#[tactic(auto, unfolding(crate::specs::ProtoText::member_front))]
pub fn put_member_front(
    alloc: Global,
    text: &mut String,
    index: &Index<'_>,
    proto3: bool,
    level: usize,
    member: &Member<'_>,
    made: Option<&DescriptorProto>,
) -> Result<(), AllocError>
    ensures text { Puts result text.old text.new
        (spec.member_front (map file_view index.now) proto3 level (member_view member.now)
        (parts_made made.entry)) }
    ensures room { OnOk result (level + 1 < 2 ^ 63) }
{
    let said = said_of(alloc, index, member.field)?;
    put_untold(text, level, &said.untold)?;
    put_indent(text, level)?;
    put_words(text, proto3, member, made)?;
    put_number_and_options(text, member.field.number, &said)
}

/// ` = NUMBER [OPTIONS]`.
fn put_number_and_options(text: &mut String, number: i32, said: &Said) -> Result<(), AllocError>
    ensures { Puts result text.old text.new
        (codes " = " ++ signed_decimal number ++ brackets (said_view said.now).items) }
{
    text.push_str(" = ")?;
    put_number(text, i128::from(number))?;
    put_brackets(text, &said.items)
}

/// What stands before the number.
fn put_words(
    text: &mut String,
    proto3: bool,
    member: &Member<'_>,
    made: Option<&DescriptorProto>,
) -> Result<(), AllocError>
    ensures { Puts result text.old text.new
        (spec.member_words proto3 (member_view member.now) (parts_made made.entry)) }
{
    match made {
        None => {
            put_label(text, proto3, member.block, member.field)?;
            put_type(text, member.field)?;
            text.push(' ')?;
            text.push_str(&member.field.name)
        }
        Some(message) => put_made_words(text, proto3, member, message),
    }
}

/// What stands before the number of a group or a map.
fn put_made_words(
    text: &mut String,
    proto3: bool,
    member: &Member<'_>,
    message: &DescriptorProto,
) -> Result<(), AllocError>
    ensures { Puts result text.old text.new
        (spec.made_words proto3 (member_view member.now) (message_parts message.now)) }
{
    if is_group(member.field) {
        put_label(text, proto3, member.block, member.field)?;
        text.push_str("group ")?;
        text.push_str(&message.name)
    } else {
        put_map(text, &message.field)?;
        text.push_str(&member.field.name)
    }
}

/// Whether the field is a group.
pub fn is_group(field: &FieldDescriptorProto) -> bool
    ensures { result ≡ spec.is_group field.now.type_ }
{
    match field.type_ {
        FieldType::Group => true,
        _ => false,
    }
}

/// `map<KEY, VALUE> `.
fn put_map(text: &mut String, entry: &[FieldDescriptorProto]) -> Result<(), AllocError>
    ensures { Puts result text.old text.new (spec.map_text (map field_view entry.now)) }
{
    match entry {
        [key, value] => {
            text.push_str("map<")?;
            put_type(text, key)?;
            text.push_str(", ")?;
            put_type(text, value)?;
            text.push_str("> ")
        }
        _ => Ok(()),
    }
}

/// A type: the full name of one that is declared elsewhere.
fn put_type(text: &mut String, field: &FieldDescriptorProto) -> Result<(), AllocError>
    ensures { Puts result text.old text.new (spec.type_text (field_view field.now)) }
{
    match field.type_ {
        FieldType::Message | FieldType::Enum | FieldType::Group => {
            text.push_str(type_name_of(field))
        }
        _ => text.push_str(type_word(field.type_)),
    }
}

/// A label, which no field of a oneof has.
fn put_label(
    text: &mut String,
    proto3: bool,
    block: Block<'_>,
    field: &FieldDescriptorProto,
) -> Result<(), AllocError>
    ensures { Puts result text.old text.new
        (spec.label_in proto3 (block_view block.entry) (field_view field.now)) }
{
    match block {
        Block::Oneof(_, _) => Ok(()),
        Block::Extend(_) => put_label_word(text, proto3, field),
        Block::Alone => put_label_word(text, proto3, field),
    }
}

fn put_label_word(
    text: &mut String,
    proto3: bool,
    field: &FieldDescriptorProto,
) -> Result<(), AllocError>
    ensures { Puts result text.old text.new (spec.label_text proto3 (field_view field.now)) }
{
    if hides_label(proto3, field) {
        return Ok(());
    }
    text.push_str(label_word(field.label))?;
    text.push(' ')
}

/// Whether the field has no label in the text.
fn hides_label(proto3: bool, field: &FieldDescriptorProto) -> bool
    ensures { result ≡ spec.hides_label proto3 (field_view field.now) }
{
    proto3 && !is_repeated(field.label) && !field.proto3_optional
}

/// What stands in brackets behind a field, and above it.
fn said_of(
    alloc: Global,
    index: &Index<'_>,
    field: &FieldDescriptorProto,
) -> Result<Said, AllocError>
    ensures { IfOk result (λ s. said_view s
        ≡ spec.said_of_field (map file_view index.now) (field_view field.now)) }
{
    let mut items = Vec::new(alloc);
    add_default(alloc, &mut items, field)?;
    add_json_name(alloc, &mut items, field)?;
    field_said(alloc, index, items, &field.options)
}

fn add_default(
    alloc: Global,
    items: &mut Vec<String>,
    field: &FieldDescriptorProto,
) -> Result<(), AllocError>
    ensures { OnOk result (map string_bytes items.new.items ≡ map string_bytes items.old.items
        ++ spec.default_items field.now.type_ (field_view field.now).default_value) }
{
    match &field.default_value {
        None => Ok(()),
        Some(value) => {
            let item = default_item(alloc, field.type_, value)?;
            items.push(item)?;
            Ok(())
        }
    }
}

fn default_item(alloc: Global, type_: FieldType, value: &str) -> Result<String, AllocError>
    ensures { IfOk result (λ s. string_bytes s
        ≡ item (codes "default") (spec.default_text type_ value.now)) }
{
    let mut item = String::new(alloc);
    item.push_str("default = ")?;
    put_default(alloc, &mut item, type_, value)?;
    Ok(item)
}

/// A string is escaped and in quotes, and bytes, which are escaped already, in quotes.
fn put_default(
    alloc: Global,
    text: &mut String,
    type_: FieldType,
    value: &str,
) -> Result<(), AllocError>
    ensures { Puts result text.old text.new (spec.default_text type_ value.now) }
{
    match type_ {
        FieldType::String => put_quoted(alloc, text, value.as_bytes()),
        FieldType::Bytes => {
            text.push('"')?;
            text.push_str(value)?;
            text.push('"')
        }
        _ => text.push_str(value),
    }
}

/// The name in JSON, where it isn't the one that comes of the field's name.
fn add_json_name(
    alloc: Global,
    items: &mut Vec<String>,
    field: &FieldDescriptorProto,
) -> Result<(), AllocError>
    ensures { OnOk result (map string_bytes items.new.items ≡ map string_bytes items.old.items
        ++ spec.json_items (field_view field.now)) }
{
    let usual = json_name(alloc, &field.name)?;
    if usual.as_str() == field.json_name.as_str() {
        return Ok(());
    }
    let item = json_item(alloc, &field.json_name)?;
    items.push(item)?;
    Ok(())
}

fn json_item(alloc: Global, name: &str) -> Result<String, AllocError>
    ensures { IfOk result (λ s. string_bytes s
        ≡ item (codes "json_name") (quoted name.now)) }
{
    let mut item = String::new(alloc);
    item.push_str("json_name = ")?;
    put_quoted(alloc, &mut item, name.as_bytes())?;
    Ok(item)
}
