//! Which defaults a field may have.

ghost use Rattle.std.specs.Prelude.{◌≡◌, IsTrue, option_map};
ghost use Rattle.protobuf_parse_model.specs.Descriptors.{field_view};
ghost use Rattle.protobuf_parse_rules.specs.Defaults as spec;
ghost use Rattle.protobuf_parse_rules.specs.Findings.{finding_view};
ghost use Rattle.protobuf_parse_rules.specs.NumberTexts.{is_digits};

use crate::field_options::is_repeated;
use crate::finding::{Finding, found, found_by};
use crate::number_text::{exceeds, has_minus, is_digits, is_unsigned_number, without_minus};
use crate::rule::Rule;
use protobuf_parse_model::{FieldDescriptorProto, FieldType};

/// What is wrong with the default of a field, if it has one.
pub fn default_of(field: &FieldDescriptorProto) -> Option<Finding<'_>>
    ensures { option_map finding_view result
        ≡ spec.default_of (field_view field.now) (field_view field.now).default_value }
{
    match &field.default_value {
        Some(_) if is_repeated(field.label) => found(Rule::DefaultOfRepeated),
        Some(text) => typed_default(field.type_, text),
        None => None,
    }
}

fn typed_default(type_: FieldType, text: &str) -> Option<Finding<'_>>
    ensures { option_map finding_view result ≡ spec.typed_default type_ text.now }
{
    match type_ {
        FieldType::Message | FieldType::Group => found(Rule::DefaultOfMessage),
        FieldType::Bool => truth_default(text),
        FieldType::Int32 | FieldType::Sint32 | FieldType::Sfixed32 => {
            integer_default(Some(2147483648), 2147483647, text)
        }
        FieldType::Int64 | FieldType::Sint64 | FieldType::Sfixed64 => {
            integer_default(Some(9223372036854775808), 9223372036854775807, text)
        }
        FieldType::Uint32 | FieldType::Fixed32 => integer_default(None, 4294967295, text),
        FieldType::Uint64 | FieldType::Fixed64 => {
            integer_default(None, 18446744073709551615, text)
        }
        FieldType::Float | FieldType::Double => number_default(text),
        FieldType::String | FieldType::Bytes | FieldType::Enum => None,
    }
}

/// The integers of a type reach as far from 0, the negative ones to `least` if there are any.
fn integer_default(least: Option<u64>, most: u64, text: &str) -> Option<Finding<'_>>
    ensures { option_map finding_view result ≡ spec.integer_default least most text.now }
{
    let digits = without_minus(text);
    if !is_digits(digits) {
        found_by(Rule::DefaultNotNumber, text)
    } else if has_minus(text) {
        negative_default(least, text, digits)
    } else {
        out_of_range(most, text, digits)
    }
}

fn negative_default<'a>(least: Option<u64>, text: &'a str, digits: &str) -> Option<Finding<'a>>
    requires { IsTrue (is_digits digits.now) }
    ensures { option_map finding_view result ≡ spec.negative_default least text.now digits.now }
{
    match least {
        Some(least) => out_of_range(least, text, digits),
        None => found_by(Rule::DefaultNegative, text),
    }
}

fn out_of_range<'a>(most: u64, text: &'a str, digits: &str) -> Option<Finding<'a>>
    requires { IsTrue (is_digits digits.now) }
    ensures { option_map finding_view result ≡ spec.out_of_range most text.now digits.now }
{
    if exceeds(digits, most) {
        found_by(Rule::DefaultOutOfRange, text)
    } else {
        None
    }
}

fn number_default(text: &str) -> Option<Finding<'_>>
    ensures { option_map finding_view result ≡ spec.number_default text.now }
{
    if is_unsigned_number(without_minus(text)) {
        None
    } else {
        found_by(Rule::DefaultNotNumber, text)
    }
}

fn truth_default(text: &str) -> Option<Finding<'_>>
    ensures { option_map finding_view result ≡ spec.truth_default text.now }
{
    if text == "true" || text == "false" {
        None
    } else {
        found_by(Rule::DefaultNotBool, text)
    }
}
