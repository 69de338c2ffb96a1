//! Descriptors that say nothing yet, to be filled in: each field that may be absent is `None`, and
//! each list is empty. The one error is that memory is short.

ghost use Rattle.std.specs.Prelude.{◌≡◌, IfOk};
ghost use Rattle.protobuf_parse_model.specs.Descriptors.{enum_value_view, enum_view, field_view};
ghost use Rattle.protobuf_parse_model.specs.Descriptors.{file_view, message_view, method_view};
ghost use Rattle.protobuf_parse_model.specs.Descriptors.{oneof_view, service_view};
ghost use Rattle.protobuf_parse_index.specs.Empty as spec;

use protobuf_parse_base::Name;
use protobuf_parse_base::text::json_name;
use protobuf_parse_model::{
    DescriptorProto, EnumDescriptorProto, EnumValueDescriptorProto, FieldDescriptorProto,
    FieldType, FileDescriptorProto, Label, MethodDescriptorProto, OneofDescriptorProto,
    ServiceDescriptorProto,
};
use std::alloc::{AllocError, Global};

/// A file that is known by that path, in which nothing stands.
///
/// ```text
/// let mut file = empty_file(alloc, "shop/order.proto")?;
/// file.message_type.push(empty_message(alloc, "Order")?)?;
/// ```
pub fn empty_file(alloc: Global, path: &str) -> Result<FileDescriptorProto, AllocError>
    ensures { IfOk result (λ file. file_view file ≡ spec.empty_file path.now) }
{
    Ok(FileDescriptorProto {
        name: Some(String::from_str(alloc, path)?),
        package: None,
        syntax: None,
        dependency: Vec::new(alloc),
        public_dependency: Vec::new(alloc),
        weak_dependency: Vec::new(alloc),
        message_type: Vec::new(alloc),
        enum_type: Vec::new(alloc),
        service: Vec::new(alloc),
        extension: Vec::new(alloc),
        options: None,
    })
}

/// A message of that name, in which nothing stands.
pub fn empty_message(alloc: Global, name: &str) -> Result<DescriptorProto, AllocError>
    ensures { IfOk result (λ message. message_view message ≡ spec.empty_message name.now) }
{
    Ok(DescriptorProto {
        name: Name::new(alloc, name)?,
        field: Vec::new(alloc),
        oneof_decl: Vec::new(alloc),
        nested_type: Vec::new(alloc),
        enum_type: Vec::new(alloc),
        extension: Vec::new(alloc),
        extension_range: Vec::new(alloc),
        reserved_range: Vec::new(alloc),
        reserved_name: Vec::new(alloc),
        options: None,
    })
}

/// An optional field of that name, number and type. Its name in JSON is the one that comes of its
/// name (Protocol Buffers Language Guide, "ProtoJSON Format"). A field of a message, of a group or
/// of an enum needs its `type_name` too.
///
/// ```text
/// let field = empty_field(alloc, "order_id", 1, FieldType::String)?;
/// ```
pub fn empty_field(
    alloc: Global,
    name: &str,
    number: i32,
    type_: FieldType,
) -> Result<FieldDescriptorProto, AllocError>
    ensures { IfOk result (λ field. field_view field ≡ spec.empty_field name.now number type_) }
{
    Ok(FieldDescriptorProto {
        name: Name::new(alloc, name)?,
        number,
        label: Label::Optional,
        type_,
        proto3_optional: false,
        type_name: None,
        extendee: None,
        default_value: None,
        oneof_index: None,
        json_name: json_name(alloc, name)?,
        options: None,
    })
}

/// A oneof of that name. Fields stand in it that have its position as `oneof_index`.
pub fn empty_oneof(alloc: Global, name: &str) -> Result<OneofDescriptorProto, AllocError>
    ensures { IfOk result (λ oneof. oneof_view oneof ≡ spec.empty_oneof name.now) }
{
    Ok(OneofDescriptorProto {
        name: Name::new(alloc, name)?,
        options: None,
    })
}

/// An enum of that name, without values.
pub fn empty_enum(alloc: Global, name: &str) -> Result<EnumDescriptorProto, AllocError>
    ensures { IfOk result (λ empty. enum_view empty ≡ spec.empty_enum name.now) }
{
    Ok(EnumDescriptorProto {
        name: Name::new(alloc, name)?,
        value: Vec::new(alloc),
        reserved_range: Vec::new(alloc),
        reserved_name: Vec::new(alloc),
        options: None,
    })
}

/// A value of an enum, of that name and number.
pub fn empty_value(
    alloc: Global,
    name: &str,
    number: i32,
) -> Result<EnumValueDescriptorProto, AllocError>
    ensures { IfOk result (λ value. enum_value_view value ≡ spec.empty_value name.now number) }
{
    Ok(EnumValueDescriptorProto {
        name: Name::new(alloc, name)?,
        number,
        options: None,
    })
}

/// A service of that name, without methods.
pub fn empty_service(alloc: Global, name: &str) -> Result<ServiceDescriptorProto, AllocError>
    ensures { IfOk result (λ service. service_view service ≡ spec.empty_service name.now) }
{
    Ok(ServiceDescriptorProto {
        name: Name::new(alloc, name)?,
        method: Vec::new(alloc),
        options: None,
    })
}

/// A method of that name, from one message to one message, both by their full names with their
/// first dots.
pub fn empty_method(
    alloc: Global,
    name: &str,
    input: &str,
    output: &str,
) -> Result<MethodDescriptorProto, AllocError>
    ensures { IfOk result (λ method. method_view method
        ≡ spec.empty_method name.now input.now output.now) }
{
    Ok(MethodDescriptorProto {
        name: Name::new(alloc, name)?,
        input_type: String::from_str(alloc, input)?,
        output_type: String::from_str(alloc, output)?,
        client_streaming: false,
        server_streaming: false,
        options: None,
    })
}
