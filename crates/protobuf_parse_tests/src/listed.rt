//! The listing of descriptors made by hand: each construct once, with what may stand below it.

use protobuf_parse::{
    CType, DescriptorProto, EnumDescriptorProto, EnumOptions, EnumReservedRange,
    EnumValueDescriptorProto, EnumValueOptions, ExtensionRange, FieldDescriptorProto, FieldOptions,
    FieldType, FileDescriptorProto, FileOptions, IdempotencyLevel, JSType, Label, MessageOptions,
    MethodDescriptorProto, MethodOptions, Name, OneofDescriptorProto, OneofOptions, OptimizeMode,
    ReservedRange, ServiceDescriptorProto, ServiceOptions, listing,
};
use std::alloc::{AllocError, Global};
use std::test::Fail;

pub fn text(alloc: Global, words: &str) -> Result<String, AllocError> {
    String::from_str(alloc, words)
}

pub fn one<T: Drop>(alloc: Global, item: T) -> Result<Vec<T>, AllocError> {
    let mut items = Vec::new(alloc);
    items.push(item)?;
    Ok(items)
}

pub fn no_file(alloc: Global) -> FileDescriptorProto {
    FileDescriptorProto {
        name: None,
        package: None,
        syntax: None,
        dependency: Vec::new(alloc),
        public_dependency: Vec::new(alloc),
        weak_dependency: Vec::new(alloc),
        message_type: Vec::new(alloc),
        enum_type: Vec::new(alloc),
        service: Vec::new(alloc),
        extension: Vec::new(alloc),
        options: None,
    }
}

pub fn no_message(alloc: Global, name: &str) -> Result<DescriptorProto, AllocError> {
    Ok(DescriptorProto {
        name: Name::new(alloc, name)?,
        field: Vec::new(alloc),
        oneof_decl: Vec::new(alloc),
        nested_type: Vec::new(alloc),
        enum_type: Vec::new(alloc),
        extension: Vec::new(alloc),
        extension_range: Vec::new(alloc),
        reserved_range: Vec::new(alloc),
        reserved_name: Vec::new(alloc),
        options: None,
    })
}

pub fn bool_field(alloc: Global, name: &str) -> Result<FieldDescriptorProto, AllocError> {
    Ok(FieldDescriptorProto {
        name: Name::new(alloc, name)?,
        number: 1,
        label: Label::Optional,
        type_: FieldType::Bool,
        type_name: None,
        extendee: None,
        default_value: None,
        oneof_index: None,
        json_name: Name::new(alloc, name)?,
        proto3_optional: false,
        options: None,
    })
}

fn full_field(alloc: Global) -> Result<FieldDescriptorProto, AllocError> {
    let name = Name::new(alloc, "f")?;
    let json_name = Name::new(alloc, "f")?;
    let type_name = text(alloc, ".M.F")?;
    let extendee = text(alloc, ".Q")?;
    let default_value = text(alloc, "a\"\u{e9}")?;
    let custom = vec![in alloc; 0x0a, 0xff]?;
    let options = FieldOptions {
        ctype: Some(CType::StringPiece),
        packed: Some(true),
        deprecated: None,
        lazy: None,
        jstype: Some(JSType::JsNumber),
        weak: None,
        unverified_lazy: None,
        debug_redact: Some(false),
        custom,
    };
    Ok(FieldDescriptorProto {
        name,
        number: 2147483647,
        label: Label::Required,
        type_: FieldType::Group,
        type_name: Some(type_name),
        extendee: Some(extendee),
        default_value: Some(default_value),
        oneof_index: Some(0),
        json_name,
        proto3_optional: true,
        options: Some(options),
    })
}

fn full_values(alloc: Global) -> Result<Vec<EnumValueDescriptorProto>, AllocError> {
    let name = Name::new(alloc, "V")?;
    let value = EnumValueDescriptorProto {
        name,
        number: -1,
        options: Some(EnumValueOptions {
            deprecated: Some(true),
            custom: Vec::new(alloc),
        }),
    };
    one(alloc, value)
}

fn full_enum(alloc: Global) -> Result<EnumDescriptorProto, AllocError> {
    let name = Name::new(alloc, "E")?;
    let reserved_range = one(alloc, EnumReservedRange { start: -4, end: 4 })?;
    let reserved_name = one(alloc, text(alloc, "x")?)?;
    let value = full_values(alloc)?;
    let options = EnumOptions {
        allow_alias: Some(true),
        deprecated: Some(false),
        custom: Vec::new(alloc),
    };
    Ok(EnumDescriptorProto {
        name,
        value,
        reserved_range,
        reserved_name,
        options: Some(options),
    })
}

fn full_enums(alloc: Global) -> Result<Vec<EnumDescriptorProto>, AllocError> {
    one(alloc, full_enum(alloc)?)
}

fn full_fields(alloc: Global) -> Result<Vec<FieldDescriptorProto>, AllocError> {
    one(alloc, full_field(alloc)?)
}

fn full_oneofs(alloc: Global) -> Result<Vec<OneofDescriptorProto>, AllocError> {
    one(alloc, full_oneof(alloc)?)
}

fn bool_fields(alloc: Global, name: &str) -> Result<Vec<FieldDescriptorProto>, AllocError> {
    one(alloc, bool_field(alloc, name)?)
}

fn no_messages(alloc: Global, name: &str) -> Result<Vec<DescriptorProto>, AllocError> {
    one(alloc, no_message(alloc, name)?)
}

fn full_oneof(alloc: Global) -> Result<OneofDescriptorProto, AllocError> {
    let name = Name::new(alloc, "o")?;
    let custom = vec![in alloc; 1]?;
    Ok(OneofDescriptorProto {
        name,
        options: Some(OneofOptions { custom }),
    })
}

const EXTENSIONS: ExtensionRange = ExtensionRange {
    start: 100,
    end: 536870912,
};

// A message is handed on from step to step, so that none is held over several calls that may fail.

fn with_fields(alloc: Global, mut message: DescriptorProto) -> Result<DescriptorProto, AllocError> {
    message.field = full_fields(alloc)?;
    Ok(message)
}

fn with_oneofs(alloc: Global, mut message: DescriptorProto) -> Result<DescriptorProto, AllocError> {
    message.oneof_decl = full_oneofs(alloc)?;
    Ok(message)
}

fn with_messages(
    alloc: Global,
    mut message: DescriptorProto,
) -> Result<DescriptorProto, AllocError> {
    message.nested_type = no_messages(alloc, "N")?;
    Ok(message)
}

fn with_enums(alloc: Global, mut message: DescriptorProto) -> Result<DescriptorProto, AllocError> {
    message.enum_type = full_enums(alloc)?;
    Ok(message)
}

fn with_extensions(
    alloc: Global,
    mut message: DescriptorProto,
) -> Result<DescriptorProto, AllocError> {
    message.extension = bool_fields(alloc, "y")?;
    Ok(message)
}

fn with_ranges(alloc: Global, mut message: DescriptorProto) -> Result<DescriptorProto, AllocError> {
    message.extension_range = one(alloc, EXTENSIONS)?;
    message.reserved_range = one(alloc, ReservedRange { start: 4, end: 5 })?;
    Ok(message)
}

fn full_names(alloc: Global) -> Result<Vec<String>, AllocError> {
    one(alloc, text(alloc, "foo")?)
}

fn with_names(alloc: Global, mut message: DescriptorProto) -> Result<DescriptorProto, AllocError> {
    message.reserved_name = full_names(alloc)?;
    message.options = Some(MessageOptions {
        message_set_wire_format: None,
        no_standard_descriptor_accessor: None,
        deprecated: None,
        map_entry: Some(true),
        custom: Vec::new(alloc),
    });
    Ok(message)
}

fn full_message(alloc: Global) -> Result<DescriptorProto, AllocError> {
    let message = no_message(alloc, "M")?;
    let message = with_fields(alloc, message)?;
    let message = with_oneofs(alloc, message)?;
    let message = with_messages(alloc, message)?;
    let message = with_enums(alloc, message)?;
    let message = with_extensions(alloc, message)?;
    let message = with_ranges(alloc, message)?;
    with_names(alloc, message)
}

fn full_messages(alloc: Global) -> Result<Vec<DescriptorProto>, AllocError> {
    one(alloc, full_message(alloc)?)
}

fn full_method(alloc: Global) -> Result<MethodDescriptorProto, AllocError> {
    let name = Name::new(alloc, "G")?;
    let input_type = text(alloc, ".A")?;
    let output_type = text(alloc, ".B")?;
    Ok(MethodDescriptorProto {
        name,
        input_type,
        output_type,
        client_streaming: true,
        server_streaming: true,
        options: Some(MethodOptions {
            deprecated: None,
            idempotency_level: Some(IdempotencyLevel::NoSideEffects),
            custom: Vec::new(alloc),
        }),
    })
}

fn full_methods(alloc: Global) -> Result<Vec<MethodDescriptorProto>, AllocError> {
    one(alloc, full_method(alloc)?)
}

fn full_service(alloc: Global) -> Result<ServiceDescriptorProto, AllocError> {
    let name = Name::new(alloc, "S")?;
    let method = full_methods(alloc)?;
    Ok(ServiceDescriptorProto {
        name,
        method,
        options: Some(ServiceOptions {
            deprecated: Some(true),
            custom: Vec::new(alloc),
        }),
    })
}

fn full_services(alloc: Global) -> Result<Vec<ServiceDescriptorProto>, AllocError> {
    one(alloc, full_service(alloc)?)
}

fn file_options(alloc: Global) -> Result<FileOptions, AllocError> {
    let java_package = text(alloc, "a.b")?;
    let ruby_package = text(alloc, "r")?;
    let custom = vec![in alloc; 0x88, 0xb5, 0x18, 0x01]?;
    Ok(FileOptions {
        java_package: Some(java_package),
        java_outer_classname: None,
        optimize_for: Some(OptimizeMode::LiteRuntime),
        java_multiple_files: Some(true),
        go_package: None,
        cc_generic_services: None,
        java_generic_services: None,
        py_generic_services: None,
        java_generate_equals_and_hash: None,
        deprecated: Some(false),
        java_string_check_utf8: None,
        cc_enable_arenas: None,
        objc_class_prefix: None,
        csharp_namespace: None,
        swift_prefix: None,
        php_class_prefix: None,
        php_namespace: None,
        php_metadata_namespace: None,
        ruby_package: Some(ruby_package),
        custom,
    })
}

const FULL: &str = "file f.proto
  syntax proto2
  package p.q
  import a.proto
  import public b.proto
  import weak c.proto
  import public d.proto
  option java_package = \"a.b\"
  option optimize_for = LITE_RUNTIME
  option java_multiple_files = true
  option deprecated = false
  option ruby_package = \"r\"
  custom 88b51801
  message M
    option map_entry = true
    field required group .M.F f = 2147483647 json \"f\" default \"a\\\"\\303\\251\" oneof 0 proto3_optional
      option ctype = STRING_PIECE
      option packed = true
      option jstype = JS_NUMBER
      option debug_redact = false
      custom 0aff
    oneof o
      custom 01
    message N
    enum E
      option allow_alias = true
      option deprecated = false
      value V = -1
        option deprecated = true
      reserved_range -4 4
      reserved_name \"x\"
    extension  optional bool y = 1 json \"y\"
    extension_range 100 536870912
    reserved_range 4 5
    reserved_name \"foo\"
  enum E
    option allow_alias = true
    option deprecated = false
    value V = -1
      option deprecated = true
    reserved_range -4 4
    reserved_name \"x\"
  service S
    option deprecated = true
    method G .A .B client_streaming server_streaming
      option idempotency_level = NO_SIDE_EFFECTS
  extension .Q required group .M.F f = 2147483647 json \"f\" default \"a\\\"\\303\\251\" oneof 0 proto3_optional
    option ctype = STRING_PIECE
    option packed = true
    option jstype = JS_NUMBER
    option debug_redact = false
    custom 0aff
file 
  syntax 
";

fn imported(alloc: Global) -> Result<Vec<String>, AllocError> {
    let mut paths = Vec::new(alloc);
    for path in ["a.proto", "b.proto", "c.proto", "d.proto"] {
        paths.push(text(alloc, path)?)?;
    }
    Ok(paths)
}

/// A file with its texts and its imports.
fn named_file(alloc: Global) -> Result<FileDescriptorProto, AllocError> {
    let name = text(alloc, "f.proto")?;
    let syntax = text(alloc, "proto2")?;
    let package = text(alloc, "p.q")?;
    let dependency = imported(alloc)?;
    // The fourth is both, and positions that no import has are passed over.
    let public_dependency = vec![in alloc; 3, 1, -1, 9]?;
    let weak_dependency = vec![in alloc; 2, 3]?;
    let mut file = no_file(alloc);
    file.name = Some(name);
    file.syntax = Some(syntax);
    file.package = Some(package);
    file.dependency = dependency;
    file.public_dependency = public_dependency;
    file.weak_dependency = weak_dependency;
    Ok(file)
}

fn file_with_options(
    alloc: Global,
    mut file: FileDescriptorProto,
) -> Result<FileDescriptorProto, AllocError> {
    file.options = Some(file_options(alloc)?);
    Ok(file)
}

fn file_with_messages(
    alloc: Global,
    mut file: FileDescriptorProto,
) -> Result<FileDescriptorProto, AllocError> {
    file.message_type = full_messages(alloc)?;
    Ok(file)
}

fn file_with_enums(
    alloc: Global,
    mut file: FileDescriptorProto,
) -> Result<FileDescriptorProto, AllocError> {
    file.enum_type = full_enums(alloc)?;
    Ok(file)
}

fn file_with_services(
    alloc: Global,
    mut file: FileDescriptorProto,
) -> Result<FileDescriptorProto, AllocError> {
    file.service = full_services(alloc)?;
    Ok(file)
}

fn file_with_extensions(
    alloc: Global,
    mut file: FileDescriptorProto,
) -> Result<FileDescriptorProto, AllocError> {
    file.extension = full_fields(alloc)?;
    Ok(file)
}

fn full_file(alloc: Global) -> Result<FileDescriptorProto, AllocError> {
    let file = named_file(alloc)?;
    let file = file_with_options(alloc, file)?;
    let file = file_with_messages(alloc, file)?;
    let file = file_with_enums(alloc, file)?;
    let file = file_with_services(alloc, file)?;
    file_with_extensions(alloc, file)
}

#[test]
fn lists_each_construct(rt: HostRuntime) -> Result<(), Fail> {
    let alloc = rt.alloc();
    let file = full_file(alloc)?;
    let files = vec![in alloc; file, no_file(alloc)]?;
    let listed = listing(alloc, &files)?;
    assert_eq!(rt; listed.as_str(), FULL);
    Ok(())
}
