//! Options messages in which nothing is set: each option is `None`, and there are no bytes of
//! custom options. None takes memory yet.

ghost use Rattle.std.specs.Prelude.{◌≡◌};
ghost use Rattle.protobuf_parse_model.specs.Options.{enum_options_view, enum_value_options_view};
ghost use Rattle.protobuf_parse_model.specs.Options.{field_options_view, file_options_view};
ghost use Rattle.protobuf_parse_model.specs.Options.{message_options_view, method_options_view};
ghost use Rattle.protobuf_parse_model.specs.Options.{oneof_options_view, service_options_view};
ghost use Rattle.protobuf_parse_index.specs.Empty.{no_enum_options, no_field_options};
ghost use Rattle.protobuf_parse_index.specs.Empty.{no_file_options, no_message_options};
ghost use Rattle.protobuf_parse_index.specs.Empty.{no_method_options, no_oneof_options};
ghost use Rattle.protobuf_parse_index.specs.Empty.{no_service_options, no_value_options};

use protobuf_parse_model::{
    EnumOptions, EnumValueOptions, FieldOptions, FileOptions, MessageOptions, MethodOptions,
    OneofOptions, ServiceOptions,
};
use std::alloc::Global;

/// Options of a file, none of them set.
///
/// ```text
/// let mut options = empty_file_options(alloc);
/// options.java_multiple_files = Some(true);
/// file.options = Some(options);
/// ```
pub fn empty_file_options(alloc: Global) -> FileOptions
    ensures { file_options_view result ≡ no_file_options }
{
    FileOptions {
        java_package: None,
        java_outer_classname: None,
        optimize_for: None,
        java_multiple_files: None,
        go_package: None,
        cc_generic_services: None,
        java_generic_services: None,
        py_generic_services: None,
        java_generate_equals_and_hash: None,
        deprecated: None,
        java_string_check_utf8: None,
        cc_enable_arenas: None,
        objc_class_prefix: None,
        csharp_namespace: None,
        swift_prefix: None,
        php_class_prefix: None,
        php_namespace: None,
        php_metadata_namespace: None,
        ruby_package: None,
        custom: Vec::new(alloc),
    }
}

/// Options of a message, none of them set.
pub fn empty_message_options(alloc: Global) -> MessageOptions
    ensures { message_options_view result ≡ no_message_options }
{
    MessageOptions {
        message_set_wire_format: None,
        no_standard_descriptor_accessor: None,
        deprecated: None,
        map_entry: None,
        custom: Vec::new(alloc),
    }
}

/// Options of a field, none of them set.
pub fn empty_field_options(alloc: Global) -> FieldOptions
    ensures { field_options_view result ≡ no_field_options }
{
    FieldOptions {
        ctype: None,
        packed: None,
        deprecated: None,
        lazy: None,
        jstype: None,
        weak: None,
        unverified_lazy: None,
        debug_redact: None,
        custom: Vec::new(alloc),
    }
}

/// Options of a oneof, none of them set.
pub fn empty_oneof_options(alloc: Global) -> OneofOptions
    ensures { oneof_options_view result ≡ no_oneof_options }
{
    OneofOptions {
        custom: Vec::new(alloc),
    }
}

/// Options of an enum, none of them set.
pub fn empty_enum_options(alloc: Global) -> EnumOptions
    ensures { enum_options_view result ≡ no_enum_options }
{
    EnumOptions {
        allow_alias: None,
        deprecated: None,
        custom: Vec::new(alloc),
    }
}

/// Options of a value of an enum, none of them set.
pub fn empty_value_options(alloc: Global) -> EnumValueOptions
    ensures { enum_value_options_view result ≡ no_value_options }
{
    EnumValueOptions {
        deprecated: None,
        custom: Vec::new(alloc),
    }
}

/// Options of a service, none of them set.
pub fn empty_service_options(alloc: Global) -> ServiceOptions
    ensures { service_options_view result ≡ no_service_options }
{
    ServiceOptions {
        deprecated: None,
        custom: Vec::new(alloc),
    }
}

/// Options of a method, none of them set.
pub fn empty_method_options(alloc: Global) -> MethodOptions
    ensures { method_options_view result ≡ no_method_options }
{
    MethodOptions {
        deprecated: None,
        idempotency_level: None,
        custom: Vec::new(alloc),
    }
}
