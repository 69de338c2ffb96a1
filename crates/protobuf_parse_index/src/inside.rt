//! What stands inside a declaration, by its name or its position.

ghost use Rattle.std.specs.Prelude.{◌≡◌, map};
ghost use Rattle.protobuf_parse_model.specs.Descriptors.{enum_value_view, field_view};
ghost use Rattle.protobuf_parse_model.specs.Descriptors.{message_view, method_view, oneof_view};
ghost use Rattle.protobuf_parse_index.specs.Lookups as spec;
ghost use Rattle.protobuf_parse_index.specs.Views.{method_found, oneof_found, value_found};

use protobuf_parse_model::{
    DescriptorProto, EnumValueDescriptorProto, FieldDescriptorProto, MethodDescriptorProto,
    OneofDescriptorProto,
};

/// The first of the methods that has the name.
pub fn method_with<'m>(
    methods: &'m [MethodDescriptorProto],
    name: &str,
) -> Option<&'m MethodDescriptorProto>
    ensures { method_found result ≡ spec.method_with name.now (map method_view methods.now) }
{
    'methods: for method in methods {
        if name == method.name.as_str() {
            return Some(method);
        }
    }
    None
}

/// The first of the values that has the name.
pub fn value_called<'v>(
    values: &'v [EnumValueDescriptorProto],
    name: &str,
) -> Option<&'v EnumValueDescriptorProto>
    ensures { value_found result ≡ spec.value_called name.now (map enum_value_view values.now) }
{
    'values: for value in values {
        if name == value.name.as_str() {
            return Some(value);
        }
    }
    None
}

/// The oneof that the field of the message stands in, if it stands in one. That of a field with the
/// label `optional` in proto3 is the one that was made for it.
///
/// ```text
/// if let Some(oneof) = oneof_of(message.descriptor, field) {
///     println!(rt; "{} is in {}", field.name, oneof.name)?;
/// }
/// ```
pub fn oneof_of<'m>(
    message: &'m DescriptorProto,
    field: &FieldDescriptorProto,
) -> Option<&'m OneofDescriptorProto>
    ensures { oneof_found result
        ≡ spec.oneof_of (message_view message.now) (field_view field.now) }
{
    match field.oneof_index {
        Some(index) => at_index(&message.oneof_decl, index),
        None => None,
    }
}

fn at_index(oneofs: &[OneofDescriptorProto], index: i32) -> Option<&OneofDescriptorProto>
    ensures { oneof_found result ≡ spec.at_index (map oneof_view oneofs.now) index }
{
    match usize::try_from(index) {
        Ok(index) => oneofs.get(index),
        Err(_) => None,
    }
}
