//! Options messages: built-in options, and the bytes of all other records, which are the custom
//! ones.

ghost use Rattle.std.specs.Prelude.{◌≡◌, ◌==◌, Bool, IfOk};
ghost use Rattle.std.specs.List.{list_any};
ghost use Rattle.protobuf_parse_model.specs.Options as model;
ghost use Rattle.protobuf_parse_records.specs.Views.{WireRecord, payload_view, record_view};
ghost use Rattle.protobuf_parse_set_reader.specs.Answers.{Gives};
ghost use Rattle.protobuf_parse_set_reader.specs.Bodies.{body_view};
ghost use Rattle.protobuf_parse_set_reader.specs.OptionReading as spec;

use crate::body::{Body, last};
use crate::fault::SetError;
use crate::parts::Part;
use crate::type_names::TypeNames;
use crate::values::{Choice, int_of_number, text};
use protobuf_parse_model::{
    CType, EnumOptions, EnumValueOptions, FieldOptions, FileOptions, IdempotencyLevel, JSType,
    MessageOptions, MethodOptions, OneofOptions, OptimizeMode, ServiceOptions,
};
use protobuf_parse_records::{Payload, Record};
use std::alloc::{AllocError, Global};

/// An options message.
pub trait BuiltIn {
    ghost sets: { WireRecord → Bool };

    /// Whether the record sets a built-in option.
    fn is_built_in(record: &Record<'_>) -> bool
        ensures { result ≡ sets (record_view record.now) };
}

/// The message of the records that set a built-in option, and the bytes of the others.
fn split<'a, O: BuiltIn>(alloc: Global, body: &Body<'a>) -> Result<(Body<'a>, Vec<u8>), AllocError>
    ensures known { IfOk result (λ x. body_view x.0
        ≡ spec.built_in O.sets (body_view body.now)) }
    ensures others { IfOk result (λ x. x.1.items ≡ spec.custom O.sets (body_view body.now)) }
{
    let mut known = Vec::new(alloc);
    let mut custom = Vec::new(alloc);
    for record in &body.records {
        if O::is_built_in(record) {
            known.push(*record)?;
        } else {
            custom.extend_from_slice(record.whole.bytes)?;
        }
    }
    let known = Body {
        start: body.start,
        records: known,
    };
    Ok((known, custom))
}

fn has_number(numbers: &[u32], number: u32) -> bool
    ensures { result ≡ list_any (λ n. number == n) numbers.now }
{
    numbers.iter().any(|each| number == *each)
}

/// The truth value behind a tag.
fn truth_said(payload: Payload<'_>) -> Option<bool>
    ensures { result ≡ spec.truth_said (payload_view payload.entry) }
{
    match payload {
        Payload::Varint(number) => Some(number > 0),
        _ => None,
    }
}

/// The value of an enum behind a tag.
fn value_said<C: Choice>(payload: Payload<'_>) -> Option<C>
    ensures { result ≡ spec.value_said C.numbered (payload_view payload.entry) }
{
    match payload {
        Payload::Varint(number) => C::of_number(int_of_number(number)),
        _ => None,
    }
}

fn sets_flag(numbers: &[u32], record: &Record<'_>) -> bool
    ensures { result ≡ spec.sets_flag numbers.now (record_view record.now) }
{
    has_number(numbers, record.number) && truth_said(record.payload).is_some()
}

fn sets_text(numbers: &[u32], record: &Record<'_>) -> bool
    ensures { result ≡ spec.sets_text numbers.now (record_view record.now) }
{
    has_number(numbers, record.number) && matches!(record.payload, Payload::Delimited(_))
}

fn sets_value<C: Choice>(numbers: &[u32], record: &Record<'_>) -> bool
    ensures { result ≡ spec.sets_value C.numbered numbers.now (record_view record.now) }
{
    has_number(numbers, record.number) && value_said::<C>(record.payload).is_some()
}

/// A built-in option that is a truth value.
fn flag(known: &Body<'_>, number: u32) -> Option<bool>
    ensures { result ≡ spec.flag number (body_view known.now) }
{
    match last(known, number) {
        Some(record) => truth_said(record.payload),
        None => None,
    }
}

/// A built-in option that is a value of an enum.
fn value<C: Choice>(known: &Body<'_>, number: u32) -> Option<C>
    ensures { result ≡ spec.choice C.numbered number (body_view known.now) }
{
    match last(known, number) {
        Some(record) => value_said(record.payload),
        None => None,
    }
}

impl BuiltIn for FileOptions {
    ghost sets = { spec.sets_file_option };

    fn is_built_in(record: &Record<'_>) -> bool {
        sets_text(&[1, 8, 11, 36, 37, 39, 40, 41, 44, 45], record)
            || sets_flag(&[10, 16, 17, 18, 20, 23, 27, 31], record)
            || sets_value::<OptimizeMode>(&[9], record)
    }
}

impl Part for FileOptions {
    ghost View = { model.FileOptionValues };

    ghost view = { model.file_options_view };

    ghost of = { λ types. spec.file_options_of };

    #[tactic(auto, unfolding(crate::specs::OptionReading::file_options_of))]
    fn read(alloc: Global, _types: &TypeNames, body: &Body<'_>) -> Result<Self, SetError> {
        let (known, custom) = split::<FileOptions>(alloc, body)?;
        file_options(alloc, &known, custom)
    }
}

#[tactic(auto, unfolding(crate::specs::OptionReading::file_options_in))]
fn file_options(alloc: Global, known: &Body<'_>, custom: Vec<u8>) -> Result<FileOptions, SetError>
    ensures { Gives model.file_options_view result
        (spec.file_options_in (body_view known.now) custom.items) }
{
    Ok(FileOptions {
        java_package: text(alloc, known, 1)?,
        java_outer_classname: text(alloc, known, 8)?,
        optimize_for: value(known, 9),
        java_multiple_files: flag(known, 10),
        go_package: text(alloc, known, 11)?,
        cc_generic_services: flag(known, 16),
        java_generic_services: flag(known, 17),
        py_generic_services: flag(known, 18),
        java_generate_equals_and_hash: flag(known, 20),
        deprecated: flag(known, 23),
        java_string_check_utf8: flag(known, 27),
        cc_enable_arenas: flag(known, 31),
        objc_class_prefix: text(alloc, known, 36)?,
        csharp_namespace: text(alloc, known, 37)?,
        swift_prefix: text(alloc, known, 39)?,
        php_class_prefix: text(alloc, known, 40)?,
        php_namespace: text(alloc, known, 41)?,
        php_metadata_namespace: text(alloc, known, 44)?,
        ruby_package: text(alloc, known, 45)?,
        custom,
    })
}

impl BuiltIn for MessageOptions {
    ghost sets = { spec.sets_message_option };

    fn is_built_in(record: &Record<'_>) -> bool {
        sets_flag(&[1, 2, 3, 7], record)
    }
}

impl Part for MessageOptions {
    ghost View = { model.MessageOptionValues };

    ghost view = { model.message_options_view };

    ghost of = { λ types. spec.message_options_of };

    #[tactic(auto, unfolding(crate::specs::OptionReading::message_options_of))]
    fn read(alloc: Global, _types: &TypeNames, body: &Body<'_>) -> Result<Self, SetError> {
        let (known, custom) = split::<MessageOptions>(alloc, body)?;
        Ok(MessageOptions {
            message_set_wire_format: flag(&known, 1),
            no_standard_descriptor_accessor: flag(&known, 2),
            deprecated: flag(&known, 3),
            map_entry: flag(&known, 7),
            custom,
        })
    }
}

impl BuiltIn for FieldOptions {
    ghost sets = { spec.sets_field_option };

    fn is_built_in(record: &Record<'_>) -> bool {
        sets_flag(&[2, 3, 5, 10, 15, 16], record)
            || sets_value::<CType>(&[1], record)
            || sets_value::<JSType>(&[6], record)
    }
}

impl Part for FieldOptions {
    ghost View = { model.FieldOptionValues };

    ghost view = { model.field_options_view };

    ghost of = { λ types. spec.field_options_of };

    #[tactic(auto, unfolding(crate::specs::OptionReading::field_options_of))]
    fn read(alloc: Global, _types: &TypeNames, body: &Body<'_>) -> Result<Self, SetError> {
        let (known, custom) = split::<FieldOptions>(alloc, body)?;
        Ok(FieldOptions {
            ctype: value(&known, 1),
            packed: flag(&known, 2),
            deprecated: flag(&known, 3),
            lazy: flag(&known, 5),
            jstype: value(&known, 6),
            weak: flag(&known, 10),
            unverified_lazy: flag(&known, 15),
            debug_redact: flag(&known, 16),
            custom,
        })
    }
}

impl BuiltIn for OneofOptions {
    ghost sets = { spec.sets_oneof_option };

    fn is_built_in(_record: &Record<'_>) -> bool {
        false
    }
}

impl Part for OneofOptions {
    ghost View = { model.OneofOptionValues };

    ghost view = { model.oneof_options_view };

    ghost of = { λ types. spec.oneof_options_of };

    #[tactic(auto, unfolding(crate::specs::OptionReading::oneof_options_of))]
    fn read(alloc: Global, _types: &TypeNames, body: &Body<'_>) -> Result<Self, SetError> {
        let (_, custom) = split::<OneofOptions>(alloc, body)?;
        Ok(OneofOptions { custom })
    }
}

impl BuiltIn for EnumOptions {
    ghost sets = { spec.sets_enum_option };

    fn is_built_in(record: &Record<'_>) -> bool {
        sets_flag(&[2, 3], record)
    }
}

impl Part for EnumOptions {
    ghost View = { model.EnumOptionValues };

    ghost view = { model.enum_options_view };

    ghost of = { λ types. spec.enum_options_of };

    #[tactic(auto, unfolding(crate::specs::OptionReading::enum_options_of))]
    fn read(alloc: Global, _types: &TypeNames, body: &Body<'_>) -> Result<Self, SetError> {
        let (known, custom) = split::<EnumOptions>(alloc, body)?;
        Ok(EnumOptions {
            allow_alias: flag(&known, 2),
            deprecated: flag(&known, 3),
            custom,
        })
    }
}

impl BuiltIn for EnumValueOptions {
    ghost sets = { spec.sets_enum_value_option };

    fn is_built_in(record: &Record<'_>) -> bool {
        sets_flag(&[1], record)
    }
}

impl Part for EnumValueOptions {
    ghost View = { model.EnumValueOptionValues };

    ghost view = { model.enum_value_options_view };

    ghost of = { λ types. spec.enum_value_options_of };

    #[tactic(auto, unfolding(crate::specs::OptionReading::enum_value_options_of))]
    fn read(alloc: Global, _types: &TypeNames, body: &Body<'_>) -> Result<Self, SetError> {
        let (known, custom) = split::<EnumValueOptions>(alloc, body)?;
        Ok(EnumValueOptions {
            deprecated: flag(&known, 1),
            custom,
        })
    }
}

impl BuiltIn for ServiceOptions {
    ghost sets = { spec.sets_service_option };

    fn is_built_in(record: &Record<'_>) -> bool {
        sets_flag(&[33], record)
    }
}

impl Part for ServiceOptions {
    ghost View = { model.ServiceOptionValues };

    ghost view = { model.service_options_view };

    ghost of = { λ types. spec.service_options_of };

    #[tactic(auto, unfolding(crate::specs::OptionReading::service_options_of))]
    fn read(alloc: Global, _types: &TypeNames, body: &Body<'_>) -> Result<Self, SetError> {
        let (known, custom) = split::<ServiceOptions>(alloc, body)?;
        Ok(ServiceOptions {
            deprecated: flag(&known, 33),
            custom,
        })
    }
}

impl BuiltIn for MethodOptions {
    ghost sets = { spec.sets_method_option };

    fn is_built_in(record: &Record<'_>) -> bool {
        sets_flag(&[33], record) || sets_value::<IdempotencyLevel>(&[34], record)
    }
}

impl Part for MethodOptions {
    ghost View = { model.MethodOptionValues };

    ghost view = { model.method_options_view };

    ghost of = { λ types. spec.method_options_of };

    #[tactic(auto, unfolding(crate::specs::OptionReading::method_options_of))]
    fn read(alloc: Global, _types: &TypeNames, body: &Body<'_>) -> Result<Self, SetError> {
        let (known, custom) = split::<MethodOptions>(alloc, body)?;
        Ok(MethodOptions {
            deprecated: flag(&known, 33),
            idempotency_level: value(&known, 34),
            custom,
        })
    }
}
