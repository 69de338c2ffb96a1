//! The options messages of google/protobuf/descriptor.proto. A field is `None` where no statement
//! sets it. `custom` holds the bytes of the custom options, one record a setting, in the order of
//! writing; it is empty where there are none.

/// The options of a file.
#[derive(Debug, PartialEq, Eq, Drop)]
pub struct FileOptions {
    pub java_package: Option<String>,
    pub java_outer_classname: Option<String>,
    pub optimize_for: Option<OptimizeMode>,
    pub java_multiple_files: Option<bool>,
    pub go_package: Option<String>,
    pub cc_generic_services: Option<bool>,
    pub java_generic_services: Option<bool>,
    pub py_generic_services: Option<bool>,
    pub java_generate_equals_and_hash: Option<bool>,
    pub deprecated: Option<bool>,
    pub java_string_check_utf8: Option<bool>,
    pub cc_enable_arenas: Option<bool>,
    pub objc_class_prefix: Option<String>,
    pub csharp_namespace: Option<String>,
    pub swift_prefix: Option<String>,
    pub php_class_prefix: Option<String>,
    pub php_namespace: Option<String>,
    pub php_metadata_namespace: Option<String>,
    pub ruby_package: Option<String>,
    pub custom: Vec<u8>,
}

/// How a file's classes are generated.
#[derive(Clone, Copy, Debug, PartialEq, Eq)]
pub enum OptimizeMode {
    Speed,
    CodeSize,
    LiteRuntime,
}

/// The options of a message.
#[derive(Debug, PartialEq, Eq, Drop)]
pub struct MessageOptions {
    pub message_set_wire_format: Option<bool>,
    pub no_standard_descriptor_accessor: Option<bool>,
    pub deprecated: Option<bool>,
    pub map_entry: Option<bool>,
    pub custom: Vec<u8>,
}

/// The options of a field.
#[derive(Debug, PartialEq, Eq, Drop)]
pub struct FieldOptions {
    pub ctype: Option<CType>,
    pub packed: Option<bool>,
    pub deprecated: Option<bool>,
    pub lazy: Option<bool>,
    pub jstype: Option<JSType>,
    pub weak: Option<bool>,
    pub unverified_lazy: Option<bool>,
    pub debug_redact: Option<bool>,
    pub custom: Vec<u8>,
}

/// The C++ type of a string field.
#[derive(Clone, Copy, Debug, PartialEq, Eq)]
pub enum CType {
    String,
    Cord,
    StringPiece,
}

/// The JavaScript type of a 64-bit field.
#[derive(Clone, Copy, Debug, PartialEq, Eq)]
pub enum JSType {
    JsNormal,
    JsString,
    JsNumber,
}

/// The options of a oneof.
#[derive(Debug, PartialEq, Eq, Drop)]
pub struct OneofOptions {
    pub custom: Vec<u8>,
}

/// The options of an enum.
#[derive(Debug, PartialEq, Eq, Drop)]
pub struct EnumOptions {
    pub allow_alias: Option<bool>,
    pub deprecated: Option<bool>,
    pub custom: Vec<u8>,
}

/// The options of a value of an enum.
#[derive(Debug, PartialEq, Eq, Drop)]
pub struct EnumValueOptions {
    pub deprecated: Option<bool>,
    pub custom: Vec<u8>,
}

/// The options of a service.
#[derive(Debug, PartialEq, Eq, Drop)]
pub struct ServiceOptions {
    pub deprecated: Option<bool>,
    pub custom: Vec<u8>,
}

/// The options of a method.
#[derive(Debug, PartialEq, Eq, Drop)]
pub struct MethodOptions {
    pub deprecated: Option<bool>,
    pub idempotency_level: Option<IdempotencyLevel>,
    pub custom: Vec<u8>,
}

/// Whether a method has side effects, and whether it may be called twice.
#[derive(Clone, Copy, Debug, PartialEq, Eq)]
pub enum IdempotencyLevel {
    IdempotencyUnknown,
    NoSideEffects,
    Idempotent,
}
