//! Descriptors for the tests.

use protobuf_parse_base::Name;
use protobuf_parse_index::{
    empty_enum, empty_field, empty_field_options, empty_file, empty_file_options, empty_message,
    empty_message_options, empty_method, empty_method_options, empty_oneof, empty_service,
    empty_value,
};
use protobuf_parse_model::{
    DescriptorProto, EnumDescriptorProto, EnumReservedRange, ExtensionRange, FieldDescriptorProto,
    FieldOptions, FieldType, FileDescriptorProto, IdempotencyLevel, JSType, Label, OptimizeMode,
    ReservedRange, ServiceDescriptorProto,
};
use std::alloc::{AllocError, Global};

/// The text as one of its own.
pub fn text(alloc: Global, text: &str) -> Result<Option<String>, AllocError> {
    Ok(Some(String::from_str(alloc, text)?))
}

/// A field of that type, whose type name is given where it has one.
pub fn field(
    alloc: Global,
    name: &str,
    number: i32,
    type_: FieldType,
    type_name: &str,
) -> Result<FieldDescriptorProto, AllocError> {
    let mut field = empty_field(alloc, name, number, type_)?;
    if type_name.len() > 0 {
        field.type_name = text(alloc, type_name)?;
    }
    Ok(field)
}

/// The field with that label.
pub fn with_label(field: FieldDescriptorProto, label: Label) -> FieldDescriptorProto {
    let mut field = field;
    field.label = label;
    field
}

/// The field in the oneof at that position.
pub fn in_oneof(field: FieldDescriptorProto, index: i32) -> FieldDescriptorProto {
    let mut field = field;
    field.oneof_index = Some(index);
    field
}

/// The field as an extension of that message.
pub fn extending(
    alloc: Global,
    extendee: &str,
    field: FieldDescriptorProto,
) -> Result<FieldDescriptorProto, AllocError> {
    let mut field = field;
    field.extendee = text(alloc, extendee)?;
    Ok(field)
}

/// The field with that default.
pub fn with_default(
    alloc: Global,
    field: FieldDescriptorProto,
    value: &str,
) -> Result<FieldDescriptorProto, AllocError> {
    let mut field = field;
    field.default_value = text(alloc, value)?;
    Ok(field)
}

/// The options of a field whose custom ones are these bytes.
pub fn custom_field_options(alloc: Global, bytes: &[u8]) -> Result<FieldOptions, AllocError> {
    let mut options = empty_field_options(alloc);
    options.custom.extend_from_slice(bytes)?;
    Ok(options)
}

/// The message behind a map from a string to the type.
pub fn entry(
    alloc: Global,
    name: &str,
    value: FieldType,
    value_name: &str,
) -> Result<DescriptorProto, AllocError> {
    let mut entry = empty_message(alloc, name)?;
    entry
        .field
        .push(field(alloc, "key", 1, FieldType::String, "")?)?;
    entry
        .field
        .push(field(alloc, "value", 2, value, value_name)?)?;
    let mut options = empty_message_options(alloc);
    options.map_entry = Some(true);
    entry.options = Some(options);
    Ok(entry)
}

/// A message with one field.
pub fn with_field(
    alloc: Global,
    name: &str,
    field: FieldDescriptorProto,
) -> Result<DescriptorProto, AllocError> {
    let mut message = empty_message(alloc, name)?;
    message.field.push(field)?;
    Ok(message)
}

/// An enum with two values, ranges and a name.
pub fn colors(alloc: Global) -> Result<EnumDescriptorProto, AllocError> {
    let mut color = empty_enum(alloc, "Color")?;
    color.value.push(empty_value(alloc, "RED", 0)?)?;
    color.value.push(empty_value(alloc, "BLUE", -3)?)?;
    color
        .reserved_range
        .push(EnumReservedRange { start: 5, end: 7 })?;
    color
        .reserved_range
        .push(EnumReservedRange { start: -9, end: -9 })?;
    color.reserved_range.push(EnumReservedRange {
        start: 20,
        end: 2147483647,
    })?;
    color.reserved_name.push(String::from_str(alloc, "GREEN")?)?;
    Ok(color)
}

/// A service with a method of each kind.
pub fn orders(alloc: Global) -> Result<ServiceDescriptorProto, AllocError> {
    let mut service = empty_service(alloc, "Orders")?;
    service
        .method
        .push(empty_method(alloc, "Place", ".shop.Item", ".shop.Item")?)?;
    let mut watch = empty_method(alloc, "Watch", ".shop.Item", ".shop.Item")?;
    watch.client_streaming = true;
    watch.server_streaming = true;
    let mut options = empty_method_options(alloc);
    options.deprecated = Some(true);
    options.idempotency_level = Some(IdempotencyLevel::NoSideEffects);
    watch.options = Some(options);
    service.method.push(watch)?;
    Ok(service)
}

/// The options messages of `descriptor.proto`, with nothing in them.
pub fn descriptor_file(alloc: Global) -> Result<FileDescriptorProto, AllocError> {
    let mut file = empty_file(alloc, "google/protobuf/descriptor.proto")?;
    file.package = text(alloc, "google.protobuf")?;
    let names = [
        "FileOptions",
        "MessageOptions",
        "FieldOptions",
        "OneofOptions",
        "EnumOptions",
        "EnumValueOptions",
        "ServiceOptions",
        "MethodOptions",
    ];
    for name in &names {
        file.message_type.push(empty_message(alloc, name)?)?;
    }
    Ok(file)
}

/// A message with all that can stand in one but fields.
pub fn ranged(alloc: Global) -> Result<DescriptorProto, AllocError> {
    let mut message = empty_message(alloc, "Ranged")?;
    let extensions = [(4, 10), (12, 13), (20, 536870912), (30, 2147483647)];
    for (start, end) in &extensions {
        message.extension_range.push(ExtensionRange {
            start: *start,
            end: *end,
        })?;
    }
    message
        .reserved_range
        .push(ReservedRange { start: 1, end: 2 })?;
    message
        .reserved_range
        .push(ReservedRange { start: 2, end: 4 })?;
    message.reserved_name.push(String::from_str(alloc, "a")?)?;
    message.enum_type.push(colors(alloc)?)?;
    Ok(message)
}

/// A message with maps, groups, a oneof and messages between them.
pub fn mixed(alloc: Global) -> Result<DescriptorProto, AllocError> {
    let mut mixed = empty_message(alloc, "Mixed")?;
    let prices = field(
        alloc,
        "prices",
        1,
        FieldType::Message,
        ".shop.Mixed.PricesEntry",
    )?;
    let part = field(alloc, "part", 2, FieldType::Group, ".shop.Mixed.Part")?;
    let one = field(alloc, "one", 3, FieldType::Int32, "")?;
    let inner = field(alloc, "inner", 4, FieldType::Group, ".shop.Mixed.Inner")?;
    let first = field(alloc, "first", 5, FieldType::Message, ".shop.Mixed.First")?;
    mixed.field.push(with_label(prices, Label::Repeated))?;
    mixed.field.push(with_label(part, Label::Required))?;
    mixed.field.push(in_oneof(one, 0))?;
    mixed.field.push(in_oneof(inner, 0))?;
    mixed.field.push(with_label(first, Label::Repeated))?;
    mixed.oneof_decl.push(empty_oneof(alloc, "choice")?)?;
    let x = field(alloc, "x", 1, FieldType::Bool, "")?;
    mixed.nested_type.push(empty_message(alloc, "First")?)?;
    mixed.nested_type.push(entry(alloc, "PricesEntry", FieldType::Message, ".shop.Item")?)?;
    mixed.nested_type.push(empty_message(alloc, "Second")?)?;
    mixed.nested_type.push(with_field(alloc, "Part", x)?)?;
    let y = field(alloc, "y", 2, FieldType::Double, "")?;
    mixed.nested_type.push(with_field(alloc, "Inner", y)?)?;
    mixed.nested_type.push(empty_message(alloc, "Third")?)?;
    let grouped = field(
        alloc,
        "grouped",
        100,
        FieldType::Group,
        ".shop.Mixed.Grouped",
    )?;
    let z = field(alloc, "z", 1, FieldType::Int32, "")?;
    let plain = field(alloc, "plain", 101, FieldType::Int32, "")?;
    mixed
        .extension
        .push(extending(alloc, ".shop.Ranged", plain)?)?;
    mixed
        .extension
        .push(extending(alloc, ".shop.Ranged", grouped)?)?;
    mixed.nested_type.push(with_field(alloc, "Grouped", z)?)?;
    mixed.nested_type.push(empty_message(alloc, "Last")?)?;
    Ok(mixed)
}

/// Fields with labels, defaults, names in JSON and options.
pub fn item(alloc: Global) -> Result<DescriptorProto, AllocError> {
    let mut item = empty_message(alloc, "Item")?;
    let name = field(alloc, "item_name", 1, FieldType::String, "")?;
    item.field.push(with_default(alloc, name, "it's \"x\"\n")?)?;
    let mut raw = field(alloc, "raw", 2, FieldType::Bytes, "")?;
    raw.json_name = Name::new(alloc, "RAW")?;
    raw.options = Some(custom_field_options(alloc, b"\xa8\x06\x01")?);
    item.field.push(with_default(alloc, raw, "\\001\\\"")?)?;
    let color = field(alloc, "color", 3, FieldType::Enum, ".shop.Color")?;
    let mut color = with_default(alloc, color, "RED")?;
    let mut options = custom_field_options(alloc, b"\xa0\x06\x01")?;
    options.deprecated = Some(true);
    color.options = Some(options);
    item.field.push(color)?;
    let mut count = field(alloc, "count", 4, FieldType::Sint64, "")?;
    let mut options = custom_field_options(alloc, b"\xb0\x06\x01")?;
    options.jstype = Some(JSType::JsString);
    count.options = Some(options);
    item.field.push(with_label(count, Label::Required))?;
    let mut options = empty_message_options(alloc);
    options.deprecated = Some(false);
    options.custom.extend_from_slice(b"\xa2\x06\x02a\"")?;
    options
        .custom
        .extend_from_slice(b"\xaa\x06\x0b\x08\x07\x12\x00\xa2\x06\x02kg\x1a\x00")?;
    item.options = Some(options);
    Ok(item)
}

/// An extension of an options message.
fn option(
    alloc: Global,
    message: &str,
    name: &str,
    number: i32,
    type_: FieldType,
    type_name: &str,
) -> Result<FieldDescriptorProto, AllocError> {
    let extendee = format!(in alloc; ".google.protobuf.{message}")?;
    let field = field(alloc, name, number, type_, type_name)?;
    extending(alloc, &extendee, field)
}

/// `.shop.Size`, which is an option's.
fn size(alloc: Global) -> Result<DescriptorProto, AllocError> {
    let max = field(alloc, "max", 1, FieldType::Uint32, "")?;
    let mut size = with_field(alloc, "Size", max)?;
    size.field
        .push(field(alloc, "note", 2, FieldType::Bytes, "")?)?;
    size.field
        .push(field(alloc, "sub", 3, FieldType::Message, ".shop.Size")?)?;
    Ok(size)
}

/// `shop.proto`, in proto2.
pub fn shop(alloc: Global) -> Result<FileDescriptorProto, AllocError> {
    let mut file = empty_file(alloc, "shop.proto")?;
    file.package = text(alloc, "shop")?;
    for path in &["a.proto", "b.proto", "c.proto"] {
        file.dependency.push(String::from_str(alloc, path)?)?;
    }
    file.public_dependency.push(1)?;
    file.weak_dependency.push(2)?;
    let mut options = empty_file_options(alloc);
    options.java_package = text(alloc, "x.\"y\"")?;
    options.optimize_for = Some(OptimizeMode::CodeSize);
    options.cc_enable_arenas = Some(true);
    options.ruby_package = text(alloc, "R")?;
    options.custom.extend_from_slice(b"\xa0\x06\x96\x01")?;
    file.options = Some(options);
    file.message_type.push(item(alloc)?)?;
    file.message_type.push(size(alloc)?)?;
    file.enum_type.push(colors(alloc)?)?;
    file.service.push(orders(alloc)?)?;
    let rows = [
        ("FileOptions", "version", 100, FieldType::Int32, ""),
        ("MessageOptions", "owner", 100, FieldType::String, ""),
        (
            "MessageOptions",
            "size",
            101,
            FieldType::Message,
            ".shop.Size",
        ),
        ("FieldOptions", "paint", 100, FieldType::Enum, ".shop.Color"),
        ("FieldOptions", "ok", 101, FieldType::Bool, ""),
    ];
    for (message, name, number, type_, type_name) in &rows {
        file.extension
            .push(option(alloc, message, name, *number, *type_, type_name)?)?;
    }
    let unit = field(alloc, "unit", 100, FieldType::String, "")?;
    file.extension.push(extending(alloc, ".shop.Size", unit)?)?;
    Ok(file)
}

/// `more.proto`, with groups, maps and a oneof, and a group of an extension of the file.
pub fn more(alloc: Global) -> Result<FileDescriptorProto, AllocError> {
    let mut file = empty_file(alloc, "more.proto")?;
    file.package = text(alloc, "shop")?;
    file.syntax = text(alloc, "proto2")?;
    file.message_type.push(mixed(alloc)?)?;
    let tag = field(alloc, "tag", 7, FieldType::Int32, "")?;
    file.message_type.push(with_field(alloc, "Tag", tag)?)?;
    file.message_type.push(ranged(alloc)?)?;
    let tag = field(alloc, "tag", 20, FieldType::Group, ".shop.Tag")?;
    file.extension.push(extending(alloc, ".shop.Ranged", with_label(tag, Label::Repeated))?)?;
    Ok(file)
}

/// `three.proto`, in proto3, with no package.
pub fn three(alloc: Global) -> Result<FileDescriptorProto, AllocError> {
    let mut file = empty_file(alloc, "three.proto")?;
    file.syntax = text(alloc, "proto3")?;
    let mut m = with_field(alloc, "M", field(alloc, "a", 1, FieldType::Int32, "")?)?;
    let b = in_oneof(field(alloc, "b", 2, FieldType::Int32, "")?, 1);
    let mut b = b;
    b.proto3_optional = true;
    m.field.push(b)?;
    let c = field(alloc, "c", 3, FieldType::Message, ".M")?;
    m.field.push(with_label(c, Label::Repeated))?;
    m.field
        .push(in_oneof(field(alloc, "d", 4, FieldType::Int32, "")?, 0))?;
    m.field
        .push(in_oneof(field(alloc, "e", 5, FieldType::Int32, "")?, 0))?;
    m.field.push(field(alloc, "f", 6, FieldType::Int32, "")?)?;
    m.oneof_decl.push(empty_oneof(alloc, "one")?)?;
    m.oneof_decl.push(empty_oneof(alloc, "_b")?)?;
    file.message_type.push(m)?;
    Ok(file)
}
