//! Enums and services.

ghost use Rattle.std.specs.Prelude.{◌≡◌, ◌++◌, codes, flat_map, map, option_map};
ghost use Rattle.std.specs.String.{string_bytes};
ghost use Rattle.protobuf_parse_model.specs.Descriptors.{enum_range_view, enum_value_view};
ghost use Rattle.protobuf_parse_model.specs.Descriptors.{enum_view, file_view, method_view};
ghost use Rattle.protobuf_parse_model.specs.Descriptors.{service_view};
ghost use Rattle.protobuf_parse_proto_text.specs.ProtoText as spec;
ghost use Rattle.protobuf_parse_proto_text.specs.Puts.{Puts};
ghost use Rattle.protobuf_parse_proto_text.specs.SaidViews.{said_view};

use crate::items::{
    Said, enum_said, method_said, put_brackets, put_said, put_untold, service_said, value_said,
};
use crate::pieces::{
    put_blank, put_close, put_indent, put_line, put_number, put_range, put_reserved_names,
};
use protobuf_parse_index::Index;
use protobuf_parse_model::{
    EnumDescriptorProto, EnumReservedRange, EnumValueDescriptorProto, MethodDescriptorProto,
    ServiceDescriptorProto,
};
use std::alloc::{AllocError, Global};

/// Enums that stand side by side.
pub fn put_enums(
    alloc: Global,
    text: &mut String,
    index: &Index<'_>,
    level: usize,
    enums: &[EnumDescriptorProto],
) -> Result<(), AllocError>
    ensures { Puts result text.old text.new
        (flat_map (spec.enum_text (map file_view index.now) level) (map enum_view enums.now)) }
{
    for each in enums {
        put_enum(alloc, text, index, level, each)?;
    }
    Ok(())
}

fn put_enum(
    alloc: Global,
    text: &mut String,
    index: &Index<'_>,
    level: usize,
    of: &EnumDescriptorProto,
) -> Result<(), AllocError>
    ensures { Puts result text.old text.new
        (spec.enum_text (map file_view index.now) level (enum_view of.now)) }
{
    put_blank(text, level)?;
    put_line(text, level, "enum ", &of.name, " {")?;
    put_enum_body(alloc, text, index, level + 1, of)?;
    put_close(text, level)
}

/// What stands in the braces of an enum.
#[tactic(auto, unfolding(crate::specs::ProtoText::enum_body))]
fn put_enum_body(
    alloc: Global,
    text: &mut String,
    index: &Index<'_>,
    level: usize,
    of: &EnumDescriptorProto,
) -> Result<(), AllocError>
    ensures { Puts result text.old text.new
        (spec.enum_body (map file_view index.now) level (enum_view of.now)) }
{
    let said = enum_said(alloc, index, &of.options)?;
    put_said(text, level, &said)?;
    put_enum_values(alloc, text, index, level, &of.value)?;
    put_enum_ranges(text, level, &of.reserved_range)?;
    put_reserved_names(alloc, text, level, &of.reserved_name)
}

fn put_enum_values(
    alloc: Global,
    text: &mut String,
    index: &Index<'_>,
    level: usize,
    values: &[EnumValueDescriptorProto],
) -> Result<(), AllocError>
    ensures { Puts result text.old text.new
        (flat_map (spec.value_line (map file_view index.now) level)
        (map enum_value_view values.now)) }
{
    for value in values {
        put_enum_value(alloc, text, index, level, value)?;
    }
    Ok(())
}

fn put_enum_value(
    alloc: Global,
    text: &mut String,
    index: &Index<'_>,
    level: usize,
    value: &EnumValueDescriptorProto,
) -> Result<(), AllocError>
    ensures { Puts result text.old text.new
        (spec.value_line (map file_view index.now) level (enum_value_view value.now)) }
{
    let said = value_said(alloc, index, &value.options)?;
    put_untold(text, level, &said.untold)?;
    put_indent(text, level)?;
    put_value_words(text, &said, value)
}

/// `NAME = NUMBER [OPTIONS];`.
#[tactic(auto, unfolding(crate::specs::ProtoText::value_words))]
fn put_value_words(
    text: &mut String,
    said: &Said,
    value: &EnumValueDescriptorProto,
) -> Result<(), AllocError>
    ensures { Puts result text.old text.new
        (spec.value_words (said_view said.now) (enum_value_view value.now)) }
{
    text.push_str(&value.name)?;
    text.push_str(" = ")?;
    put_number(text, i128::from(value.number))?;
    put_brackets(text, &said.items)?;
    text.push_str(";\n")
}

fn put_enum_ranges(
    text: &mut String,
    level: usize,
    ranges: &[EnumReservedRange],
) -> Result<(), AllocError>
    ensures { Puts result text.old text.new
        (flat_map (spec.enum_range_line level) (map enum_range_view ranges.now)) }
{
    for range in ranges {
        put_enum_range(text, level, range)?;
    }
    Ok(())
}

/// The largest number of an enum's value is written as it is, since tools differ on what `max` is.
fn put_enum_range(
    text: &mut String,
    level: usize,
    range: &EnumReservedRange,
) -> Result<(), AllocError>
    ensures { Puts result text.old text.new
        (spec.enum_range_line level (enum_range_view range.now)) }
{
    let first = i128::from(range.start);
    let last = i128::from(range.end);
    put_range(text, level, "reserved ", first, last, false)
}

/// Services that stand side by side.
pub fn put_services(
    alloc: Global,
    text: &mut String,
    index: &Index<'_>,
    services: &[ServiceDescriptorProto],
) -> Result<(), AllocError>
    ensures { Puts result text.old text.new
        (flat_map (spec.service_text (map file_view index.now)) (map service_view services.now)) }
{
    for service in services {
        put_service(alloc, text, index, service)?;
    }
    Ok(())
}

fn put_service(
    alloc: Global,
    text: &mut String,
    index: &Index<'_>,
    service: &ServiceDescriptorProto,
) -> Result<(), AllocError>
    ensures { Puts result text.old text.new
        (spec.service_text (map file_view index.now) (service_view service.now)) }
{
    put_blank(text, 0)?;
    put_line(text, 0, "service ", &service.name, " {")?;
    let said = service_said(alloc, index, &service.options)?;
    put_said(text, 1, &said)?;
    put_methods(alloc, text, index, &service.method)?;
    put_close(text, 0)
}

fn put_methods(
    alloc: Global,
    text: &mut String,
    index: &Index<'_>,
    methods: &[MethodDescriptorProto],
) -> Result<(), AllocError>
    ensures { Puts result text.old text.new
        (flat_map (spec.method_text (map file_view index.now)) (map method_view methods.now)) }
{
    for method in methods {
        put_method(alloc, text, index, method)?;
    }
    Ok(())
}

fn put_method(
    alloc: Global,
    text: &mut String,
    index: &Index<'_>,
    method: &MethodDescriptorProto,
) -> Result<(), AllocError>
    ensures { Puts result text.old text.new
        (spec.method_text (map file_view index.now) (method_view method.now)) }
{
    put_method_front(text, method)?;
    let said = method_said(alloc, index, &method.options)?;
    let mut inside = String::new(alloc);
    put_said(&mut inside, 2, &said)?;
    put_method_back(text, &inside)
}

/// `rpc F(stream .a.Q) returns (.a.R)`.
#[tactic(auto, unfolding(crate::specs::ProtoText::method_front))]
fn put_method_front(text: &mut String, method: &MethodDescriptorProto) -> Result<(), AllocError>
    ensures { Puts result text.old text.new (spec.method_front (method_view method.now)) }
{
    text.push_str("  rpc ")?;
    text.push_str(&method.name)?;
    put_payload(text, method.client_streaming, &method.input_type)?;
    text.push_str(" returns ")?;
    put_payload(text, method.server_streaming, &method.output_type)
}

fn put_payload(text: &mut String, is_stream: bool, type_name: &str) -> Result<(), AllocError>
    ensures { Puts result text.old text.new (spec.payload is_stream type_name.now) }
{
    if is_stream {
        put_in_parentheses(text, "(stream ", type_name)
    } else {
        put_in_parentheses(text, "(", type_name)
    }
}

fn put_in_parentheses(text: &mut String, words: &str, type_name: &str) -> Result<(), AllocError>
    ensures { Puts result text.old text.new (words.now ++ type_name.now ++ codes ")") }
{
    text.push_str(words)?;
    text.push_str(type_name)?;
    text.push(')')
}

/// The end of a method, with these statements in braces if there are any.
fn put_method_back(text: &mut String, inside: &str) -> Result<(), AllocError>
    ensures { Puts result text.old text.new (spec.method_back inside.now) }
{
    if inside.is_empty() {
        return text.push_str(";\n");
    }
    text.push_str(" {\n")?;
    text.push_str(inside)?;
    put_close(text, 1)
}
