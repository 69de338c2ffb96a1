//! Copies of descriptors, which say the same. The one error is that memory is short.

mod options;

ghost use Rattle.std.specs.Prelude.{◌≡◌, IfOk, option_map, string_bytes};
ghost use Rattle.protobuf_parse_model.specs.Descriptors.{enum_value_view, enum_view, field_view};
ghost use Rattle.protobuf_parse_model.specs.Descriptors.{file_view, message_view, method_view};
ghost use Rattle.protobuf_parse_model.specs.Descriptors.{oneof_view, service_view};

use super::{
    DescriptorProto, EnumDescriptorProto, EnumValueDescriptorProto, FieldDescriptorProto,
    FileDescriptorProto, MethodDescriptorProto, OneofDescriptorProto, ServiceDescriptorProto,
};
use std::alloc::AllocError;

/// One that says the same.
impl Clone for FileDescriptorProto {
    ghost is_clone = { λ file copy. file_view copy ≡ file_view file };

    fn clone(&self) -> Result<FileDescriptorProto, AllocError> {
        Ok(FileDescriptorProto {
            name: text_copy(&self.name)?,
            package: text_copy(&self.package)?,
            syntax: text_copy(&self.syntax)?,
            dependency: self.dependency.clone()?,
            public_dependency: self.public_dependency.clone()?,
            weak_dependency: self.weak_dependency.clone()?,
            message_type: self.message_type.clone()?,
            enum_type: self.enum_type.clone()?,
            service: self.service.clone()?,
            extension: self.extension.clone()?,
            options: self.options.clone()?,
        })
    }
}

/// One that says the same.
impl Clone for FieldDescriptorProto {
    ghost is_clone = { λ field copy. field_view copy ≡ field_view field };

    fn clone(&self) -> Result<FieldDescriptorProto, AllocError> {
        Ok(FieldDescriptorProto {
            name: self.name.clone()?,
            number: self.number,
            label: self.label,
            type_: self.type_,
            proto3_optional: self.proto3_optional,
            type_name: text_copy(&self.type_name)?,
            extendee: text_copy(&self.extendee)?,
            default_value: text_copy(&self.default_value)?,
            oneof_index: self.oneof_index,
            json_name: self.json_name.clone()?,
            options: self.options.clone()?,
        })
    }
}

/// One that says the same.
impl Clone for OneofDescriptorProto {
    ghost is_clone = { λ oneof copy. oneof_view copy ≡ oneof_view oneof };

    fn clone(&self) -> Result<OneofDescriptorProto, AllocError> {
        Ok(OneofDescriptorProto {
            name: self.name.clone()?,
            options: self.options.clone()?,
        })
    }
}

/// One that says the same.
impl Clone for EnumDescriptorProto {
    ghost is_clone = { λ declared copy. enum_view copy ≡ enum_view declared };

    fn clone(&self) -> Result<EnumDescriptorProto, AllocError> {
        Ok(EnumDescriptorProto {
            name: self.name.clone()?,
            value: self.value.clone()?,
            reserved_range: self.reserved_range.clone()?,
            reserved_name: self.reserved_name.clone()?,
            options: self.options.clone()?,
        })
    }
}

/// One that says the same.
impl Clone for EnumValueDescriptorProto {
    ghost is_clone = { λ value copy. enum_value_view copy ≡ enum_value_view value };

    fn clone(&self) -> Result<EnumValueDescriptorProto, AllocError> {
        Ok(EnumValueDescriptorProto {
            name: self.name.clone()?,
            number: self.number,
            options: self.options.clone()?,
        })
    }
}

/// One that says the same.
impl Clone for ServiceDescriptorProto {
    ghost is_clone = { λ service copy. service_view copy ≡ service_view service };

    fn clone(&self) -> Result<ServiceDescriptorProto, AllocError> {
        Ok(ServiceDescriptorProto {
            name: self.name.clone()?,
            method: self.method.clone()?,
            options: self.options.clone()?,
        })
    }
}

/// One that says the same.
impl Clone for MethodDescriptorProto {
    ghost is_clone = { λ method copy. method_view copy ≡ method_view method };

    fn clone(&self) -> Result<MethodDescriptorProto, AllocError> {
        Ok(MethodDescriptorProto {
            name: self.name.clone()?,
            input_type: self.input_type.clone()?,
            output_type: self.output_type.clone()?,
            client_streaming: self.client_streaming,
            server_streaming: self.server_streaming,
            options: self.options.clone()?,
        })
    }
}

/// One that says the same.
impl Clone for DescriptorProto {
    ghost is_clone = { λ message copy. message_view copy ≡ message_view message };

    fn clone(&self) -> Result<DescriptorProto, AllocError> {
        let mut nested_type = Vec::new(*self.nested_type.allocator());
        'nested: for nested in &self.nested_type {
            nested_type.push(nested.clone()?)?;
        }
        Ok(DescriptorProto {
            name: self.name.clone()?,
            field: self.field.clone()?,
            oneof_decl: self.oneof_decl.clone()?,
            nested_type,
            enum_type: self.enum_type.clone()?,
            extension: self.extension.clone()?,
            extension_range: self.extension_range.clone()?,
            reserved_range: self.reserved_range.clone()?,
            reserved_name: self.reserved_name.clone()?,
            options: self.options.clone()?,
        })
    }
}

fn text_copy(text: &Option<String>) -> Result<Option<String>, AllocError>
    ensures { IfOk result (λ copy. option_map string_bytes copy
        ≡ option_map string_bytes text.now) }
{
    match text {
        Some(text) => Ok(Some(text.clone()?)),
        None => Ok(None),
    }
}
