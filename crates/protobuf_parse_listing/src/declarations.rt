//! The lines of files, messages, enums and services.

ghost use Rattle.std.specs.Prelude.{◌≡◌, ℕ, ◌+◌, ◌++◌, IfOk, codes, flat_map, map};
ghost use Rattle.std.specs.String.{string_bytes};
ghost use Rattle.protobuf_parse_model.specs.Descriptors.{enum_range_view, enum_value_view};
ghost use Rattle.protobuf_parse_model.specs.Descriptors.{enum_view, extension_range_view};
ghost use Rattle.protobuf_parse_model.specs.Descriptors.{file_view, message_view};
ghost use Rattle.protobuf_parse_model.specs.MessageParts.{message_parts};
ghost use Rattle.protobuf_parse_model.specs.Descriptors.{method_view, oneof_view};
ghost use Rattle.protobuf_parse_model.specs.Descriptors.{reserved_range_view, service_view};
ghost use Rattle.protobuf_parse_listing.specs.Listing as spec;
ghost use Rattle.protobuf_parse_listing.specs.Puts.{Puts};

use crate::fields::{put_extensions, put_fields, put_words_if};
use crate::imports::{import_words, positions};
use crate::options::{
    put_enum_options, put_enum_value_options, put_file_options, put_message_options,
    put_method_options, put_oneof_options, put_service_options,
};
use crate::pieces::{
    begin_line, end_line, put_line, put_line_if_some, put_number, put_optional_line,
    put_range_line, put_reserved_names,
};
use protobuf_parse_model::{
    DescriptorProto, EnumDescriptorProto, EnumReservedRange, EnumValueDescriptorProto,
    ExtensionRange, FileDescriptorProto, MethodDescriptorProto, OneofDescriptorProto,
    ReservedRange, ServiceDescriptorProto,
};
use std::alloc::{AllocError, Global};

/// Adds the lines of a file: what it says itself, then what it declares.
pub fn put_file(
    alloc: Global,
    text: &mut String,
    file: &FileDescriptorProto,
) -> Result<(), AllocError>
    ensures { Puts result text.old text.new (spec.file_lines (file_view file.now)) }
{
    put_file_front(alloc, text, file)?;
    put_file_options(alloc, text, 1, &file.options)?;
    put_file_back(alloc, text, file)
}

/// `file NAME`, and below it the syntax, the package and the imports.
#[tactic(auto, unfolding(crate::specs::Listing::file_front))]
fn put_file_front(
    alloc: Global,
    text: &mut String,
    file: &FileDescriptorProto,
) -> Result<(), AllocError>
    ensures { Puts result text.old text.new (spec.file_front (file_view file.now)) }
{
    put_optional_line(text, 0, "file ", &file.name)?;
    put_optional_line(text, 1, "syntax ", &file.syntax)?;
    put_line_if_some(text, 1, "package ", &file.package)?;
    put_imports(
        alloc,
        text,
        &file.dependency,
        &file.public_dependency,
        &file.weak_dependency,
    )
}

fn put_imports(
    alloc: Global,
    text: &mut String,
    paths: &[String],
    public: &[i32],
    weak: &[i32],
) -> Result<(), AllocError>
    ensures { Puts result text.old text.new
        (spec.import_lines public.now weak.now 0 (map string_bytes paths.now)) }
{
    let public = positions(alloc, public)?;
    let weak = positions(alloc, weak)?;
    for (i, path) in paths.iter().enumerate() {
        let words = import_words(public.contains(&i), weak.contains(&i));
        put_line(text, 1, words, path)?;
    }
    Ok(())
}

/// What a file declares.
#[tactic(auto, unfolding(crate::specs::Listing::file_back))]
fn put_file_back(
    alloc: Global,
    text: &mut String,
    file: &FileDescriptorProto,
) -> Result<(), AllocError>
    ensures { Puts result text.old text.new (spec.file_back (file_view file.now)) }
{
    put_messages(alloc, text, 1, &file.message_type)?;
    put_enums(alloc, text, 1, &file.enum_type)?;
    put_services(alloc, text, 1, &file.service)?;
    put_extensions(alloc, text, 1, &file.extension)
}

#[cycle(message_lines)]
fn put_messages(
    alloc: Global,
    text: &mut String,
    level: usize,
    messages: &[DescriptorProto],
) -> Result<(), AllocError>
    ensures { Puts result text.old text.new
        (flat_map (spec.message_lines level) (map message_view messages.now)) }
{
    for message in messages {
        put_message(alloc, text, level, message)?;
    }
    Ok(())
}

/// `message NAME`, and what stands below it.
#[cycle(message_lines)]
#[tactic(auto, using(crate::specs::Parts::message_lines_is))]
fn put_message(
    alloc: Global,
    text: &mut String,
    level: usize,
    message: &DescriptorProto,
) -> Result<(), AllocError>
    ensures { Puts result text.old text.new (spec.message_lines level (message_view message.now)) }
{
    put_line(text, level, "message ", &message.name)?;
    put_message_front(alloc, text, level + 1, message)?;
    put_messages(alloc, text, level + 1, &message.nested_type)?;
    put_message_middle(alloc, text, level + 1, message)?;
    put_message_back(alloc, text, level + 1, message)
}

/// The options, fields and oneofs of a message.
#[tactic(auto, unfolding(crate::specs::Listing::message_front))]
fn put_message_front(
    alloc: Global,
    text: &mut String,
    level: usize,
    message: &DescriptorProto,
) -> Result<(), AllocError>
    ensures { Puts result text.old text.new
        (spec.message_front level (message_parts message.now)) }
{
    put_message_options(alloc, text, level, &message.options)?;
    put_fields(alloc, text, level, &message.field)?;
    put_oneofs(alloc, text, level, &message.oneof_decl)
}

/// Its enums and extensions.
#[tactic(auto, unfolding(crate::specs::Listing::message_middle))]
fn put_message_middle(
    alloc: Global,
    text: &mut String,
    level: usize,
    message: &DescriptorProto,
) -> Result<(), AllocError>
    ensures { Puts result text.old text.new
        (spec.message_middle level (message_parts message.now)) }
{
    put_enums(alloc, text, level, &message.enum_type)?;
    put_extensions(alloc, text, level, &message.extension)
}

/// Its ranges and reserved names.
#[tactic(auto, unfolding(crate::specs::Listing::message_back))]
fn put_message_back(
    alloc: Global,
    text: &mut String,
    level: usize,
    message: &DescriptorProto,
) -> Result<(), AllocError>
    ensures { Puts result text.old text.new (spec.message_back level (message_parts message.now)) }
{
    put_extension_ranges(text, level, &message.extension_range)?;
    put_reserved_ranges(text, level, &message.reserved_range)?;
    put_reserved_names(alloc, text, level, &message.reserved_name)
}

fn put_extension_ranges(
    text: &mut String,
    level: usize,
    ranges: &[ExtensionRange],
) -> Result<(), AllocError>
    ensures { Puts result text.old text.new
        (flat_map (spec.range_line level (codes "extension_range "))
        (map extension_range_view ranges.now)) }
{
    for range in ranges {
        put_extension_range(text, level, range)?;
    }
    Ok(())
}

fn put_extension_range(
    text: &mut String,
    level: usize,
    range: &ExtensionRange,
) -> Result<(), AllocError>
    ensures { Puts result text.old text.new
        (spec.range_line level (codes "extension_range ") (extension_range_view range.now)) }
{
    put_range_line(text, level, "extension_range ", &range.start, &range.end)
}

fn put_reserved_ranges(
    text: &mut String,
    level: usize,
    ranges: &[ReservedRange],
) -> Result<(), AllocError>
    ensures { Puts result text.old text.new
        (flat_map (spec.range_line level (codes "reserved_range "))
        (map reserved_range_view ranges.now)) }
{
    for range in ranges {
        put_reserved_range(text, level, range)?;
    }
    Ok(())
}

fn put_reserved_range(
    text: &mut String,
    level: usize,
    range: &ReservedRange,
) -> Result<(), AllocError>
    ensures { Puts result text.old text.new
        (spec.range_line level (codes "reserved_range ") (reserved_range_view range.now)) }
{
    put_range_line(text, level, "reserved_range ", &range.start, &range.end)
}

fn put_oneofs(
    alloc: Global,
    text: &mut String,
    level: usize,
    oneofs: &[OneofDescriptorProto],
) -> Result<(), AllocError>
    ensures { Puts result text.old text.new
        (flat_map (spec.oneof_lines level) (map oneof_view oneofs.now)) }
{
    for oneof in oneofs {
        put_line(text, level, "oneof ", &oneof.name)?;
        put_oneof_options(alloc, text, level + 1, &oneof.options)?;
    }
    Ok(())
}

fn put_enums(
    alloc: Global,
    text: &mut String,
    level: usize,
    enums: &[EnumDescriptorProto],
) -> Result<(), AllocError>
    ensures { Puts result text.old text.new
        (flat_map (spec.enum_lines level) (map enum_view enums.now)) }
{
    for each in enums {
        put_line(text, level, "enum ", &each.name)?;
        put_enum_parts(alloc, text, level + 1, each)?;
    }
    Ok(())
}

/// What stands below an enum's line.
#[tactic(auto, unfolding(crate::specs::Listing::enum_parts))]
fn put_enum_parts(
    alloc: Global,
    text: &mut String,
    level: usize,
    of: &EnumDescriptorProto,
) -> Result<(), AllocError>
    ensures { Puts result text.old text.new (spec.enum_parts level (enum_view of.now)) }
{
    put_enum_options(alloc, text, level, &of.options)?;
    put_enum_values(alloc, text, level, &of.value)?;
    put_enum_ranges(text, level, &of.reserved_range)?;
    put_reserved_names(alloc, text, level, &of.reserved_name)
}

fn put_enum_values(
    alloc: Global,
    text: &mut String,
    level: usize,
    values: &[EnumValueDescriptorProto],
) -> Result<(), AllocError>
    ensures { Puts result text.old text.new
        (flat_map (spec.enum_value_lines level) (map enum_value_view values.now)) }
{
    for value in values {
        put_enum_value(alloc, text, level, value)?;
    }
    Ok(())
}

fn put_enum_value(
    alloc: Global,
    text: &mut String,
    level: usize,
    value: &EnumValueDescriptorProto,
) -> Result<(), AllocError>
    ensures { Puts result text.old text.new
        (spec.enum_value_lines level (enum_value_view value.now)) }
{
    begin_line(text, level, "value ")?;
    put_enum_value_words(text, value)?;
    end_line(text)?;
    put_enum_value_options(alloc, text, level + 1, &value.options)
}

/// `NAME = NUMBER`.
#[tactic(auto, unfolding(crate::specs::Listing::enum_value_words))]
fn put_enum_value_words(
    text: &mut String,
    value: &EnumValueDescriptorProto,
) -> Result<(), AllocError>
    ensures { Puts result text.old text.new (spec.enum_value_words (enum_value_view value.now)) }
{
    text.push_str(&value.name)?;
    text.push_str(" = ")?;
    put_number(text, value.number)
}

fn put_enum_ranges(
    text: &mut String,
    level: usize,
    ranges: &[EnumReservedRange],
) -> Result<(), AllocError>
    ensures { Puts result text.old text.new
        (flat_map (spec.range_line level (codes "reserved_range "))
        (map enum_range_view ranges.now)) }
{
    for range in ranges {
        put_enum_range(text, level, range)?;
    }
    Ok(())
}

fn put_enum_range(
    text: &mut String,
    level: usize,
    range: &EnumReservedRange,
) -> Result<(), AllocError>
    ensures { Puts result text.old text.new
        (spec.range_line level (codes "reserved_range ") (enum_range_view range.now)) }
{
    put_range_line(text, level, "reserved_range ", &range.start, &range.end)
}

fn put_services(
    alloc: Global,
    text: &mut String,
    level: usize,
    services: &[ServiceDescriptorProto],
) -> Result<(), AllocError>
    ensures { Puts result text.old text.new
        (flat_map (spec.service_lines level) (map service_view services.now)) }
{
    for service in services {
        put_service(alloc, text, level, service)?;
    }
    Ok(())
}

fn put_service(
    alloc: Global,
    text: &mut String,
    level: usize,
    service: &ServiceDescriptorProto,
) -> Result<(), AllocError>
    ensures { Puts result text.old text.new (spec.service_lines level (service_view service.now)) }
{
    put_line(text, level, "service ", &service.name)?;
    put_service_options(alloc, text, level + 1, &service.options)?;
    put_methods(alloc, text, level + 1, &service.method)
}

fn put_methods(
    alloc: Global,
    text: &mut String,
    level: usize,
    methods: &[MethodDescriptorProto],
) -> Result<(), AllocError>
    ensures { Puts result text.old text.new
        (flat_map (spec.method_lines level) (map method_view methods.now)) }
{
    for method in methods {
        put_method(alloc, text, level, method)?;
    }
    Ok(())
}

fn put_method(
    alloc: Global,
    text: &mut String,
    level: usize,
    method: &MethodDescriptorProto,
) -> Result<(), AllocError>
    ensures { Puts result text.old text.new (spec.method_lines level (method_view method.now)) }
{
    begin_line(text, level, "method ")?;
    put_method_words(text, method)?;
    end_line(text)?;
    put_method_options(alloc, text, level + 1, &method.options)
}

/// `NAME INPUT OUTPUT`, and on which side the method streams.
#[tactic(auto, unfolding(crate::specs::Listing::method_words))]
fn put_method_words(text: &mut String, method: &MethodDescriptorProto) -> Result<(), AllocError>
    ensures { Puts result text.old text.new (spec.method_words (method_view method.now)) }
{
    put_names(text, &method.name, &method.input_type, &method.output_type)?;
    put_words_if(text, method.client_streaming, " client_streaming")?;
    put_words_if(text, method.server_streaming, " server_streaming")
}

/// Three names with a space between them.
fn put_names(text: &mut String, name: &str, input: &str, output: &str) -> Result<(), AllocError>
    ensures { Puts result text.old text.new
        (name.now ++ codes " " ++ input.now ++ codes " " ++ output.now) }
{
    text.push_str(name)?;
    text.push(' ')?;
    text.push_str(input)?;
    text.push(' ')?;
    text.push_str(output)
}
