//! Options of fields that can't stand at every field.

ghost use Rattle.std.specs.Prelude.{◌≡◌, option_map};
ghost use Rattle.protobuf_parse_model.specs.Descriptors.{field_view};
ghost use Rattle.protobuf_parse_model.specs.Options.{field_options_view};
ghost use Rattle.protobuf_parse_rules.specs.FieldOptions as spec;
ghost use Rattle.protobuf_parse_rules.specs.Findings.{finding_view};

use crate::finding::{Finding, found_if};
use crate::rule::Rule;
use protobuf_parse_model::{FieldDescriptorProto, FieldOptions, FieldType, JSType, Label};

/// Whether the label is `repeated`.
pub fn is_repeated(label: Label) -> bool
    ensures { result ≡ spec.is_repeated label }
{
    matches!(label, Label::Repeated)
}

fn is_packable(type_: FieldType) -> bool
    ensures { result ≡ spec.is_packable type_ }
{
    !matches!(
        type_,
        FieldType::String | FieldType::Bytes | FieldType::Message | FieldType::Group
    )
}

/// Whether the field type is that of a message, groups left out.
pub fn is_message(type_: FieldType) -> bool
    ensures { result ≡ spec.is_message type_ }
{
    matches!(type_, FieldType::Message)
}

fn is_64_bits(type_: FieldType) -> bool
    ensures { result ≡ spec.is_64_bits type_ }
{
    matches!(
        type_,
        FieldType::Int64
            | FieldType::Uint64
            | FieldType::Sint64
            | FieldType::Fixed64
            | FieldType::Sfixed64
    )
}

fn says_packed(options: &FieldOptions) -> bool
    ensures { result ≡ spec.says_packed (field_options_view options.now) }
{
    options.packed.unwrap_or(false)
}

fn says_lazy(options: &FieldOptions) -> bool
    ensures { result ≡ spec.says_lazy (field_options_view options.now) }
{
    options.lazy.unwrap_or(false) || options.unverified_lazy.unwrap_or(false)
}

fn is_js_type(type_: Option<JSType>) -> bool
    ensures { result ≡ spec.is_js_type type_ }
{
    !matches!(type_, None | Some(JSType::JsNormal))
}

/// `packed` is set for what can't be packed.
pub fn packed_option<'a>(field: &FieldDescriptorProto) -> Option<Finding<'a>>
    ensures { option_map finding_view result
        ≡ spec.option_of (spec.packed_option field.now.label field.now.type_)
        (field_view field.now) }
{
    match &field.options {
        Some(options) => found_if(
            says_packed(options) && !(is_repeated(field.label) && is_packable(field.type_)),
            Rule::PackedNotPackable,
        ),
        None => None,
    }
}

/// `lazy` is set for what is no message.
pub fn lazy_option<'a>(field: &FieldDescriptorProto) -> Option<Finding<'a>>
    ensures { option_map finding_view result
        ≡ spec.option_of (spec.lazy_option field.now.type_) (field_view field.now) }
{
    match &field.options {
        Some(options) => found_if(
            says_lazy(options) && !is_message(field.type_),
            Rule::LazyNotMessage,
        ),
        None => None,
    }
}

/// `jstype` is set for what is no integer of 64 bits.
pub fn js_type_option<'a>(field: &FieldDescriptorProto) -> Option<Finding<'a>>
    ensures { option_map finding_view result
        ≡ spec.option_of (spec.js_type_option field.now.type_) (field_view field.now) }
{
    match &field.options {
        Some(options) => found_if(
            is_js_type(options.jstype) && !is_64_bits(field.type_),
            Rule::JsTypeNotLarge,
        ),
        None => None,
    }
}
