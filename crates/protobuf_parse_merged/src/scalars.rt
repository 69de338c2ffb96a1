//! Values that hold no message.

ghost use Rattle.std.specs.Prelude.{◌≡◌, [], ◌∷◌, map};
ghost use Rattle.protobuf_parse_merged.specs.Answers.{Gives};
ghost use Rattle.protobuf_parse_merged.specs.Merging as spec;
ghost use Rattle.protobuf_parse_merged.specs.Inside.{scalar_view, value_view};

use crate::fault::MergeError;
use crate::message::FieldValue;
use crate::occurrences::Scalar;
use std::alloc::Global;

/// The value of a field.
pub fn field_value<'a>(scalar: Scalar<'a>) -> FieldValue<'a>
    ensures { value_view result ≡ scalar_view scalar.entry }
{
    match scalar {
        Scalar::Number { word, number } => FieldValue::Number { word, number },
        Scalar::Float(bits) => FieldValue::Float(bits),
        Scalar::Double(bits) => FieldValue::Double(bits),
        Scalar::Bool(value) => FieldValue::Bool(value),
        Scalar::Text(text) => FieldValue::Text(text),
        Scalar::Bytes(bytes) => FieldValue::Bytes(bytes),
    }
}

/// Whether it is what a field with implicit presence has where nothing is there.
fn is_zero(scalar: Scalar<'_>) -> bool
    ensures { result ≡ spec.is_zero (scalar_view scalar.entry) }
{
    match scalar {
        Scalar::Number { number, .. } => number == 0,
        Scalar::Float(bits) => bits == 0,
        Scalar::Double(bits) => bits == 0,
        Scalar::Bool(value) => !value,
        Scalar::Text(text) => text.is_empty(),
        Scalar::Bytes(bytes) => bytes.is_empty(),
    }
}

/// One value.
pub fn one<'a>(alloc: Global, value: FieldValue<'a>) -> Result<Vec<FieldValue<'a>>, MergeError>
    ensures { Gives (λ v. map value_view v.items) result (Some (value_view value.entry ∷ [])) }
{
    let mut values = Vec::new(alloc);
    values.push(value)?;
    Ok(values)
}

/// The last value of a field, if it is present.
pub fn present_scalar<'a>(
    alloc: Global,
    implicit: bool,
    scalar: Scalar<'a>,
) -> Result<Vec<FieldValue<'a>>, MergeError>
    ensures { Gives (λ v. map value_view v.items) result
        (Some (spec.unless_zero implicit (scalar_view scalar.entry))) }
{
    if implicit && is_zero(scalar) {
        return Ok(Vec::new(alloc));
    }
    one(alloc, field_value(scalar))
}
