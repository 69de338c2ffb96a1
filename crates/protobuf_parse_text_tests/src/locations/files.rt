//! Descriptors for the tests.

use protobuf_parse_base::Name;
use protobuf_parse_model::{
    DescriptorProto, EnumDescriptorProto, EnumValueDescriptorProto, FieldDescriptorProto,
    FieldType, FileDescriptorProto, Label, MethodDescriptorProto, OneofDescriptorProto,
    ServiceDescriptorProto,
};
use std::alloc::{AllocError, Global};

/// A file of the package `shop`.
pub fn file(alloc: Global) -> Result<FileDescriptorProto, AllocError> {
    Ok(FileDescriptorProto {
        name: Some(String::from_str(alloc, "shop.proto")?),
        package: Some(String::from_str(alloc, "shop")?),
        syntax: None,
        dependency: Vec::new(alloc),
        public_dependency: Vec::new(alloc),
        weak_dependency: Vec::new(alloc),
        message_type: Vec::new(alloc),
        enum_type: Vec::new(alloc),
        service: Vec::new(alloc),
        extension: Vec::new(alloc),
        options: None,
    })
}

/// A field of no oneof.
pub fn field(alloc: Global, name: &str) -> Result<FieldDescriptorProto, AllocError> {
    Ok(FieldDescriptorProto {
        name: Name::new(alloc, name)?,
        number: 1,
        label: Label::Optional,
        type_: FieldType::Int32,
        proto3_optional: false,
        type_name: None,
        extendee: None,
        default_value: None,
        oneof_index: None,
        json_name: Name::new(alloc, name)?,
        options: None,
    })
}

/// A field of the oneof at the index, which is `optional` in proto3 or not.
pub fn field_in(
    alloc: Global,
    name: &str,
    oneof: i32,
    proto3_optional: bool,
) -> Result<FieldDescriptorProto, AllocError> {
    Ok(FieldDescriptorProto {
        proto3_optional,
        oneof_index: Some(oneof),
        ..field(alloc, name)?
    })
}

pub fn fields(alloc: Global, names: &[&str]) -> Result<Vec<FieldDescriptorProto>, AllocError> {
    let mut all = Vec::new(alloc);
    for name in names {
        all.push(field(alloc, name)?)?;
    }
    Ok(all)
}

pub fn oneofs(alloc: Global, names: &[&str]) -> Result<Vec<OneofDescriptorProto>, AllocError> {
    let mut all = Vec::new(alloc);
    for name in names {
        all.push(OneofDescriptorProto {
            name: Name::new(alloc, name)?,
            options: None,
        })?;
    }
    Ok(all)
}

/// A message with these fields.
pub fn message(alloc: Global, name: &str, names: &[&str]) -> Result<DescriptorProto, AllocError> {
    Ok(DescriptorProto {
        name: Name::new(alloc, name)?,
        field: fields(alloc, names)?,
        oneof_decl: Vec::new(alloc),
        nested_type: Vec::new(alloc),
        enum_type: Vec::new(alloc),
        extension: Vec::new(alloc),
        extension_range: Vec::new(alloc),
        reserved_range: Vec::new(alloc),
        reserved_name: Vec::new(alloc),
        options: None,
    })
}

/// An enum with these values.
pub fn enumeration(
    alloc: Global,
    name: &str,
    values: &[&str],
) -> Result<EnumDescriptorProto, AllocError> {
    let mut value = Vec::new(alloc);
    for name in values {
        value.push(EnumValueDescriptorProto {
            name: Name::new(alloc, name)?,
            number: 0,
            options: None,
        })?;
    }
    Ok(EnumDescriptorProto {
        name: Name::new(alloc, name)?,
        value,
        reserved_range: Vec::new(alloc),
        reserved_name: Vec::new(alloc),
        options: None,
    })
}

/// A service with these methods.
pub fn service(
    alloc: Global,
    name: &str,
    methods: &[&str],
) -> Result<ServiceDescriptorProto, AllocError> {
    let mut method = Vec::new(alloc);
    for name in methods {
        method.push(MethodDescriptorProto {
            name: Name::new(alloc, name)?,
            input_type: String::from_str(alloc, ".shop.Item")?,
            output_type: String::from_str(alloc, ".shop.Item")?,
            client_streaming: false,
            server_streaming: false,
            options: None,
        })?;
    }
    Ok(ServiceDescriptorProto {
        name: Name::new(alloc, name)?,
        method,
        options: None,
    })
}
