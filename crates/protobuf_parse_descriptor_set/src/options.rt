//! Options messages: the built-in options that are set, and the bytes of the custom ones.

ghost use Rattle.std.specs.Prelude.{◌≡◌, ◌++◌, OnOk, option_map};
ghost use Rattle.protobuf_parse_model.specs.Descriptors.{field_view};
ghost use Rattle.protobuf_parse_model.specs.Options as model;
ghost use Rattle.protobuf_parse_descriptor_set.specs.Items.{choice, options, some};
ghost use Rattle.protobuf_parse_descriptor_set.specs.Writing.{Writes};
ghost use Rattle.protobuf_parse_descriptor_set.specs.Numbers as numbers;
ghost use Rattle.protobuf_parse_descriptor_set.specs.OptionItems as spec;

use crate::numbers::{ctype_number, idempotency_level_number, jstype_number, optimize_mode_number};
use crate::parts::{Options, put_options_message};
use crate::records::{put_choice, put_flag_if_some, put_text_if_some};
use protobuf_parse_model::{
    CType, EnumOptions, EnumValueOptions, FieldDescriptorProto, FieldOptions, FileOptions,
    IdempotencyLevel, JSType, MessageOptions, MethodOptions, OneofOptions, OptimizeMode,
    ServiceOptions,
};
use std::alloc::AllocError;

impl Options for FileOptions {
    ghost View = { model.FileOptionValues };

    ghost view = { model.file_options_view };

    ghost bytes = { spec.file_option_bytes };

    fn put(&self, out: &mut Vec<u8>) -> Result<(), AllocError> {
        put_file_options(out, self)?;
        out.extend_from_slice(&self.custom)
    }
}

#[tactic(auto, unfolding(crate::specs::OptionItems::file_option_items))]
fn put_file_options(out: &mut Vec<u8>, options: &FileOptions) -> Result<(), AllocError>
    ensures { OnOk result
        (Writes (spec.file_option_items (model.file_options_view options.now))
        out.old.items out.new.items) }
{
    put_text_if_some(out, 1, &options.java_package)?;
    put_text_if_some(out, 8, &options.java_outer_classname)?;
    put_optimize_for(out, 9, options.optimize_for)?;
    put_flag_if_some(out, 10, options.java_multiple_files)?;
    put_text_if_some(out, 11, &options.go_package)?;
    put_flag_if_some(out, 16, options.cc_generic_services)?;
    put_flag_if_some(out, 17, options.java_generic_services)?;
    put_flag_if_some(out, 18, options.py_generic_services)?;
    put_flag_if_some(out, 20, options.java_generate_equals_and_hash)?;
    put_flag_if_some(out, 23, options.deprecated)?;
    put_flag_if_some(out, 27, options.java_string_check_utf8)?;
    put_flag_if_some(out, 31, options.cc_enable_arenas)?;
    put_text_if_some(out, 36, &options.objc_class_prefix)?;
    put_text_if_some(out, 37, &options.csharp_namespace)?;
    put_text_if_some(out, 39, &options.swift_prefix)?;
    put_text_if_some(out, 40, &options.php_class_prefix)?;
    put_text_if_some(out, 41, &options.php_namespace)?;
    put_text_if_some(out, 44, &options.php_metadata_namespace)?;
    put_text_if_some(out, 45, &options.ruby_package)
}

impl Options for MessageOptions {
    ghost View = { model.MessageOptionValues };

    ghost view = { model.message_options_view };

    ghost bytes = { spec.message_option_bytes };

    fn put(&self, out: &mut Vec<u8>) -> Result<(), AllocError> {
        put_message_options(out, self)?;
        out.extend_from_slice(&self.custom)
    }
}

#[tactic(auto, unfolding(crate::specs::OptionItems::message_option_items))]
fn put_message_options(out: &mut Vec<u8>, options: &MessageOptions) -> Result<(), AllocError>
    ensures { OnOk result
        (Writes (spec.message_option_items (model.message_options_view options.now))
        out.old.items out.new.items) }
{
    put_flag_if_some(out, 1, options.message_set_wire_format)?;
    put_flag_if_some(out, 2, options.no_standard_descriptor_accessor)?;
    put_flag_if_some(out, 3, options.deprecated)?;
    put_flag_if_some(out, 7, options.map_entry)
}

impl Options for FieldOptions {
    ghost View = { model.FieldOptionValues };

    ghost view = { model.field_options_view };

    ghost bytes = { spec.field_option_bytes };

    fn put(&self, out: &mut Vec<u8>) -> Result<(), AllocError> {
        put_field_options(out, self)?;
        out.extend_from_slice(&self.custom)
    }
}

#[tactic(auto, unfolding(crate::specs::OptionItems::field_option_items))]
fn put_field_options(out: &mut Vec<u8>, options: &FieldOptions) -> Result<(), AllocError>
    ensures { OnOk result
        (Writes (spec.field_option_items (model.field_options_view options.now))
        out.old.items out.new.items) }
{
    put_ctype(out, 1, options.ctype)?;
    put_flag_if_some(out, 2, options.packed)?;
    put_flag_if_some(out, 3, options.deprecated)?;
    put_flag_if_some(out, 5, options.lazy)?;
    put_jstype(out, 6, options.jstype)?;
    put_flag_if_some(out, 10, options.weak)?;
    put_flag_if_some(out, 15, options.unverified_lazy)?;
    put_flag_if_some(out, 16, options.debug_redact)
}

/// Writes the options of a field where any are set.
#[tactic(auto, using(crate::proofs::Joining::none_yet))]
pub fn put_options_of_field(
    out: &mut Vec<u8>,
    number: u32,
    field: &FieldDescriptorProto,
) -> Result<(), AllocError>
    ensures { OnOk result
        (Writes (some (λ o. options number (spec.field_option_bytes o))
        (field_view field.now).options)
        out.old.items out.new.items) }
{
    match &field.options {
        None => Ok(()),
        Some(options) => put_field_options_message(out, number, options),
    }
}

fn put_field_options_message(
    out: &mut Vec<u8>,
    number: u32,
    set: &FieldOptions,
) -> Result<(), AllocError>
    ensures { OnOk result
        (Writes (options number (spec.field_option_bytes (model.field_options_view set.now)))
        out.old.items out.new.items) }
{
    put_options_message(out, number, set)
}

impl Options for OneofOptions {
    ghost View = { model.OneofOptionValues };

    ghost view = { model.oneof_options_view };

    ghost bytes = { spec.oneof_option_bytes };

    fn put(&self, out: &mut Vec<u8>) -> Result<(), AllocError> {
        out.extend_from_slice(&self.custom)
    }
}

impl Options for EnumOptions {
    ghost View = { model.EnumOptionValues };

    ghost view = { model.enum_options_view };

    ghost bytes = { spec.enum_option_bytes };

    fn put(&self, out: &mut Vec<u8>) -> Result<(), AllocError> {
        put_enum_options(out, self)?;
        out.extend_from_slice(&self.custom)
    }
}

#[tactic(auto, unfolding(crate::specs::OptionItems::enum_option_items))]
fn put_enum_options(out: &mut Vec<u8>, options: &EnumOptions) -> Result<(), AllocError>
    ensures { OnOk result
        (Writes (spec.enum_option_items (model.enum_options_view options.now))
        out.old.items out.new.items) }
{
    put_flag_if_some(out, 2, options.allow_alias)?;
    put_flag_if_some(out, 3, options.deprecated)
}

impl Options for EnumValueOptions {
    ghost View = { model.EnumValueOptionValues };

    ghost view = { model.enum_value_options_view };

    ghost bytes = { spec.enum_value_option_bytes };

    fn put(&self, out: &mut Vec<u8>) -> Result<(), AllocError> {
        put_enum_value_options(out, self)?;
        out.extend_from_slice(&self.custom)
    }
}

#[tactic(auto, unfolding(crate::specs::OptionItems::enum_value_option_items))]
fn put_enum_value_options(out: &mut Vec<u8>, options: &EnumValueOptions) -> Result<(), AllocError>
    ensures { OnOk result
        (Writes (spec.enum_value_option_items (model.enum_value_options_view options.now))
        out.old.items out.new.items) }
{
    put_flag_if_some(out, 1, options.deprecated)
}

impl Options for ServiceOptions {
    ghost View = { model.ServiceOptionValues };

    ghost view = { model.service_options_view };

    ghost bytes = { spec.service_option_bytes };

    fn put(&self, out: &mut Vec<u8>) -> Result<(), AllocError> {
        put_service_options(out, self)?;
        out.extend_from_slice(&self.custom)
    }
}

#[tactic(auto, unfolding(crate::specs::OptionItems::service_option_items))]
fn put_service_options(out: &mut Vec<u8>, options: &ServiceOptions) -> Result<(), AllocError>
    ensures { OnOk result
        (Writes (spec.service_option_items (model.service_options_view options.now))
        out.old.items out.new.items) }
{
    put_flag_if_some(out, 33, options.deprecated)
}

impl Options for MethodOptions {
    ghost View = { model.MethodOptionValues };

    ghost view = { model.method_options_view };

    ghost bytes = { spec.method_option_bytes };

    fn put(&self, out: &mut Vec<u8>) -> Result<(), AllocError> {
        put_method_options(out, self)?;
        out.extend_from_slice(&self.custom)
    }
}

#[tactic(auto, unfolding(crate::specs::OptionItems::method_option_items))]
fn put_method_options(out: &mut Vec<u8>, options: &MethodOptions) -> Result<(), AllocError>
    ensures { OnOk result
        (Writes (spec.method_option_items (model.method_options_view options.now))
        out.old.items out.new.items) }
{
    put_flag_if_some(out, 33, options.deprecated)?;
    put_idempotency_level(out, 34, options.idempotency_level)
}

#[tactic(auto, using(crate::proofs::Joining::none_yet))]
fn put_optimize_for(
    out: &mut Vec<u8>,
    number: u32,
    value: Option<OptimizeMode>,
) -> Result<(), AllocError>
    ensures { OnOk result
        (Writes (some (λ v. choice number (numbers.optimize_mode_number v)) value)
        out.old.items out.new.items) }
{
    match value {
        None => Ok(()),
        Some(value) => put_choice(out, number, optimize_mode_number(value)),
    }
}

#[tactic(auto, using(crate::proofs::Joining::none_yet))]
fn put_ctype(out: &mut Vec<u8>, number: u32, value: Option<CType>) -> Result<(), AllocError>
    ensures { OnOk result
        (Writes (some (λ v. choice number (numbers.ctype_number v)) value)
        out.old.items out.new.items) }
{
    match value {
        None => Ok(()),
        Some(value) => put_choice(out, number, ctype_number(value)),
    }
}

#[tactic(auto, using(crate::proofs::Joining::none_yet))]
fn put_jstype(out: &mut Vec<u8>, number: u32, value: Option<JSType>) -> Result<(), AllocError>
    ensures { OnOk result
        (Writes (some (λ v. choice number (numbers.jstype_number v)) value)
        out.old.items out.new.items) }
{
    match value {
        None => Ok(()),
        Some(value) => put_choice(out, number, jstype_number(value)),
    }
}

#[tactic(auto, using(crate::proofs::Joining::none_yet))]
fn put_idempotency_level(
    out: &mut Vec<u8>,
    number: u32,
    value: Option<IdempotencyLevel>,
) -> Result<(), AllocError>
    ensures { OnOk result
        (Writes (some (λ v. choice number (numbers.idempotency_level_number v)) value)
        out.old.items out.new.items) }
{
    match value {
        None => Ok(()),
        Some(value) => put_choice(out, number, idempotency_level_number(value)),
    }
}
