//! Which constants options and fields take.

use protobuf_parse_model::{C_TYPES, IDEMPOTENCY_LEVELS, JS_TYPES, OPTIMIZE_MODES};
use protobuf_parse_syntax::{Scalar, Type};
use std::alloc::{AllocError, Global};

/// Which values the built-in option of that name has, as messages say it, whatever it is an option
/// of.
pub fn values_of_option(alloc: Global, name: &str) -> Result<String, AllocError> {
    match name {
        "optimize_for" => alternatives(alloc, OPTIMIZE_MODES),
        "ctype" => alternatives(alloc, C_TYPES),
        "jstype" => alternatives(alloc, JS_TYPES),
        "idempotency_level" => alternatives(alloc, IDEMPOTENCY_LEVELS),
        "java_package"
        | "java_outer_classname"
        | "go_package"
        | "objc_class_prefix"
        | "csharp_namespace"
        | "swift_prefix"
        | "php_class_prefix"
        | "php_namespace"
        | "php_metadata_namespace"
        | "ruby_package" => String::from_str(alloc, "a string"),
        _ => String::from_str(alloc, "`true` or `false`"),
    }
}

/// The words of a table: `A, B or C`.
fn alternatives<T>(alloc: Global, words: &[(&str, T)]) -> Result<String, AllocError> {
    let mut text = String::new(alloc);
    for (position, (word, _)) in words.iter().enumerate() {
        if position > 0 {
            let is_last = position == words.len() - 1;
            text.push_str(if is_last { " or " } else { ", " })?;
        }
        text.push_str(word)?;
    }
    Ok(text)
}

/// Which constants a field of the type takes, as messages say it.
pub fn values_of_type(alloc: Global, type_: &Type) -> Result<String, AllocError> {
    match type_ {
        Type::Scalar(Scalar::Bool) => String::from_str(alloc, "`true` or `false`"),
        Type::Scalar(Scalar::String) => String::from_str(alloc, "a string"),
        Type::Scalar(Scalar::Bytes) => String::from_str(alloc, "a string, for its bytes"),
        Type::Scalar(Scalar::Float | Scalar::Double) => String::from_str(alloc, "a float"),
        Type::Scalar(scalar) => {
            let (from, to) = limits_of(*scalar);
            format!(in alloc; "an integer from {from} to {to}")
        }
        Type::Named(name) => {
            format!(in alloc;
                "a value of `{name}`: a message's fields in braces, or an enum's name"
            )
        }
        Type::Map(_, _) => String::from_str(
            alloc,
            "entries, each with its key and value in braces",
        ),
    }
}

/// The least and the largest number of a type of integers.
fn limits_of(scalar: Scalar) -> (&'static str, &'static str) {
    match scalar {
        Scalar::Int32 | Scalar::Sint32 | Scalar::Sfixed32 => ("-2147483648", "2147483647"),
        Scalar::Uint32 | Scalar::Fixed32 => ("0", "4294967295"),
        Scalar::Int64 | Scalar::Sint64 | Scalar::Sfixed64 => {
            ("-9223372036854775808", "9223372036854775807")
        }
        _ => ("0", "18446744073709551615"),
    }
}
