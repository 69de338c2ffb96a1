//! Copies of options messages, which say the same. The one error is that memory is short.

ghost use Rattle.std.specs.Prelude.{◌≡◌};
ghost use Rattle.protobuf_parse_model.specs.Options.{enum_options_view, enum_value_options_view};
ghost use Rattle.protobuf_parse_model.specs.Options.{field_options_view, file_options_view};
ghost use Rattle.protobuf_parse_model.specs.Options.{message_options_view, method_options_view};
ghost use Rattle.protobuf_parse_model.specs.Options.{oneof_options_view, service_options_view};

use super::text_copy;
use crate::descriptor::options::{
    EnumOptions, EnumValueOptions, FieldOptions, FileOptions, MessageOptions, MethodOptions,
    OneofOptions, ServiceOptions,
};
use std::alloc::AllocError;

/// One that says the same.
impl Clone for FileOptions {
    ghost is_clone = { λ options copy. file_options_view copy ≡ file_options_view options };

    fn clone(&self) -> Result<FileOptions, AllocError> {
        Ok(FileOptions {
            java_package: text_copy(&self.java_package)?,
            java_outer_classname: text_copy(&self.java_outer_classname)?,
            optimize_for: self.optimize_for,
            java_multiple_files: self.java_multiple_files,
            go_package: text_copy(&self.go_package)?,
            cc_generic_services: self.cc_generic_services,
            java_generic_services: self.java_generic_services,
            py_generic_services: self.py_generic_services,
            java_generate_equals_and_hash: self.java_generate_equals_and_hash,
            deprecated: self.deprecated,
            java_string_check_utf8: self.java_string_check_utf8,
            cc_enable_arenas: self.cc_enable_arenas,
            objc_class_prefix: text_copy(&self.objc_class_prefix)?,
            csharp_namespace: text_copy(&self.csharp_namespace)?,
            swift_prefix: text_copy(&self.swift_prefix)?,
            php_class_prefix: text_copy(&self.php_class_prefix)?,
            php_namespace: text_copy(&self.php_namespace)?,
            php_metadata_namespace: text_copy(&self.php_metadata_namespace)?,
            ruby_package: text_copy(&self.ruby_package)?,
            custom: self.custom.clone()?,
        })
    }
}

/// One that says the same.
impl Clone for MessageOptions {
    ghost is_clone = { λ options copy. message_options_view copy ≡ message_options_view options };

    fn clone(&self) -> Result<MessageOptions, AllocError> {
        Ok(MessageOptions {
            message_set_wire_format: self.message_set_wire_format,
            no_standard_descriptor_accessor: self.no_standard_descriptor_accessor,
            deprecated: self.deprecated,
            map_entry: self.map_entry,
            custom: self.custom.clone()?,
        })
    }
}

/// One that says the same.
impl Clone for FieldOptions {
    ghost is_clone = { λ options copy. field_options_view copy ≡ field_options_view options };

    fn clone(&self) -> Result<FieldOptions, AllocError> {
        Ok(FieldOptions {
            ctype: self.ctype,
            packed: self.packed,
            deprecated: self.deprecated,
            lazy: self.lazy,
            jstype: self.jstype,
            weak: self.weak,
            unverified_lazy: self.unverified_lazy,
            debug_redact: self.debug_redact,
            custom: self.custom.clone()?,
        })
    }
}

/// One that says the same.
impl Clone for OneofOptions {
    ghost is_clone = { λ options copy. oneof_options_view copy ≡ oneof_options_view options };

    fn clone(&self) -> Result<OneofOptions, AllocError> {
        Ok(OneofOptions {
            custom: self.custom.clone()?,
        })
    }
}

/// One that says the same.
impl Clone for EnumOptions {
    ghost is_clone = { λ options copy. enum_options_view copy ≡ enum_options_view options };

    fn clone(&self) -> Result<EnumOptions, AllocError> {
        Ok(EnumOptions {
            allow_alias: self.allow_alias,
            deprecated: self.deprecated,
            custom: self.custom.clone()?,
        })
    }
}

/// One that says the same.
impl Clone for EnumValueOptions {
    ghost is_clone = { λ options copy. enum_value_options_view copy ≡ enum_value_options_view options };

    fn clone(&self) -> Result<EnumValueOptions, AllocError> {
        Ok(EnumValueOptions {
            deprecated: self.deprecated,
            custom: self.custom.clone()?,
        })
    }
}

/// One that says the same.
impl Clone for ServiceOptions {
    ghost is_clone = { λ options copy. service_options_view copy ≡ service_options_view options };

    fn clone(&self) -> Result<ServiceOptions, AllocError> {
        Ok(ServiceOptions {
            deprecated: self.deprecated,
            custom: self.custom.clone()?,
        })
    }
}

/// One that says the same.
impl Clone for MethodOptions {
    ghost is_clone = { λ options copy. method_options_view copy ≡ method_options_view options };

    fn clone(&self) -> Result<MethodOptions, AllocError> {
        Ok(MethodOptions {
            deprecated: self.deprecated,
            idempotency_level: self.idempotency_level,
            custom: self.custom.clone()?,
        })
    }
}
