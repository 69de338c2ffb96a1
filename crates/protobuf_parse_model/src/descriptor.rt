//! Descriptors of files and of what they declare: plain values, with the names of the messages of
//! `google/protobuf/descriptor.proto`. Every list is in source order.

mod clones;
mod options;

ghost use Rattle.std.specs.Prelude.{◌≡◌};
ghost use Rattle.std.specs.Int.{w32};
ghost use Rattle.std.specs.Int.RustNames.{FitsSigned};

pub use options::{
    CType, EnumOptions, EnumValueOptions, FieldOptions, FileOptions, IdempotencyLevel, JSType,
    MessageOptions, MethodOptions, OneofOptions, OptimizeMode, ServiceOptions,
};
use protobuf_parse_base::Name;
pub use protobuf_parse_syntax::Label;
use protobuf_parse_syntax::Scalar;

/// Files.
#[derive(Debug, PartialEq, Eq, Drop)]
pub struct FileDescriptorSet {
    pub file: Vec<FileDescriptorProto>,
}

/// A file.
#[derive(Debug, PartialEq, Eq, Drop)]
pub struct FileDescriptorProto {
    /// The path by which the file is known.
    pub name: Option<String>,
    /// The package, without a first dot.
    pub package: Option<String>,
    /// `proto2` or `proto3`.
    pub syntax: Option<String>,
    /// The paths that the file imports.
    pub dependency: Vec<String>,
    /// The positions in `dependency` of the public imports, ascending.
    pub public_dependency: Vec<i32>,
    /// The positions in `dependency` of the weak imports, ascending.
    pub weak_dependency: Vec<i32>,
    pub message_type: Vec<DescriptorProto>,
    pub enum_type: Vec<EnumDescriptorProto>,
    pub service: Vec<ServiceDescriptorProto>,
    pub extension: Vec<FieldDescriptorProto>,
    pub options: Option<FileOptions>,
}

/// A message.
#[derive(Debug, PartialEq, Eq, Drop)]
pub struct DescriptorProto {
    pub name: Name,
    pub field: Vec<FieldDescriptorProto>,
    pub oneof_decl: Vec<OneofDescriptorProto>,
    pub nested_type: Vec<DescriptorProto>,
    pub enum_type: Vec<EnumDescriptorProto>,
    pub extension: Vec<FieldDescriptorProto>,
    pub extension_range: Vec<ExtensionRange>,
    pub reserved_range: Vec<ReservedRange>,
    pub reserved_name: Vec<String>,
    pub options: Option<MessageOptions>,
}

/// Field numbers kept for extensions: from `start` to before `end`.
#[derive(Clone, Copy, Debug, PartialEq, Eq)]
pub struct ExtensionRange {
    pub start: i32,
    pub end: i32,
}

/// Field numbers that no field may have: from `start` to before `end`.
#[derive(Clone, Copy, Debug, PartialEq, Eq)]
pub struct ReservedRange {
    pub start: i32,
    pub end: i32,
}

/// A field of a message, or an extension.
#[derive(Debug, PartialEq, Eq, Drop)]
pub struct FieldDescriptorProto {
    pub name: Name,
    /// The field's number, from 0 to 2147483647.
    pub number: i32,
    pub label: Label,
    pub type_: FieldType,
    /// Whether the field has the label `optional` in proto3.
    pub proto3_optional: bool,
    /// The full name of the message, enum or group that the field holds, with its first dot.
    pub type_name: Option<String>,
    /// The full name of the message that an extension extends, with its first dot.
    pub extendee: Option<String>,
    /// The default as text; of a bytes field with its bytes escaped.
    pub default_value: Option<String>,
    /// The position in `oneof_decl` of the oneof that the field is in.
    pub oneof_index: Option<i32>,
    /// The name in the JSON mapping.
    pub json_name: Name,
    pub options: Option<FieldOptions>,
}

/// The type of a field's values: the scalar types, and three that are declared elsewhere.
#[derive(Clone, Copy, Debug, PartialEq, Eq)]
pub enum FieldType {
    Int32,
    Int64,
    Uint32,
    Uint64,
    Sint32,
    Sint64,
    Fixed32,
    Sfixed32,
    Fixed64,
    Sfixed64,
    Bool,
    String,
    Bytes,
    Float,
    Double,
    Message,
    Enum,
    Group,
}

/// A oneof of a message.
#[derive(Debug, PartialEq, Eq, Drop)]
pub struct OneofDescriptorProto {
    pub name: Name,
    pub options: Option<OneofOptions>,
}

/// An enum.
#[derive(Debug, PartialEq, Eq, Drop)]
pub struct EnumDescriptorProto {
    pub name: Name,
    pub value: Vec<EnumValueDescriptorProto>,
    pub reserved_range: Vec<EnumReservedRange>,
    pub reserved_name: Vec<String>,
    pub options: Option<EnumOptions>,
}

/// Numbers that no value may have: from `start` to `end`, both among them.
#[derive(Clone, Copy, Debug, PartialEq, Eq)]
pub struct EnumReservedRange {
    pub start: i32,
    pub end: i32,
}

/// A value of an enum.
#[derive(Debug, PartialEq, Eq, Drop)]
pub struct EnumValueDescriptorProto {
    pub name: Name,
    pub number: i32,
    pub options: Option<EnumValueOptions>,
    pub ghost fits: { FitsSigned w32 number },
}

/// A service.
#[derive(Debug, PartialEq, Eq, Drop)]
pub struct ServiceDescriptorProto {
    pub name: Name,
    pub method: Vec<MethodDescriptorProto>,
    pub options: Option<ServiceOptions>,
}

/// A method of a service.
#[derive(Debug, PartialEq, Eq, Drop)]
pub struct MethodDescriptorProto {
    pub name: Name,
    /// The full name of the message that is sent, with its first dot.
    pub input_type: String,
    /// The full name of the message that comes back, with its first dot.
    pub output_type: String,
    pub client_streaming: bool,
    pub server_streaming: bool,
    pub options: Option<MethodOptions>,
}

impl From<Scalar> for FieldType {
    ghost use Rattle.protobuf_parse_model.specs.Descriptors.{kind_of_scalar};

    ghost from_gives = { λ scalar kind. kind ≡ kind_of_scalar scalar };

    fn from(scalar: Scalar) -> FieldType {
        match scalar {
            Scalar::Int32 => FieldType::Int32,
            Scalar::Int64 => FieldType::Int64,
            Scalar::Uint32 => FieldType::Uint32,
            Scalar::Uint64 => FieldType::Uint64,
            Scalar::Sint32 => FieldType::Sint32,
            Scalar::Sint64 => FieldType::Sint64,
            Scalar::Fixed32 => FieldType::Fixed32,
            Scalar::Sfixed32 => FieldType::Sfixed32,
            Scalar::Fixed64 => FieldType::Fixed64,
            Scalar::Sfixed64 => FieldType::Sfixed64,
            Scalar::Bool => FieldType::Bool,
            Scalar::String => FieldType::String,
            Scalar::Bytes => FieldType::Bytes,
            Scalar::Float => FieldType::Float,
            Scalar::Double => FieldType::Double,
        }
    }
}
