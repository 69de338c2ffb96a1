//! The words by which schemas spell labels, types and the values of options that are enums.

ghost use Rattle.std.specs.Prelude.{◌≡◌};
ghost use Rattle.protobuf_parse_model.specs.Words as spec;

use crate::descriptor::{CType, FieldType, IdempotencyLevel, JSType, Label, OptimizeMode};

/// The modes of `optimize_for`, each behind its word.
pub const OPTIMIZE_MODES: &[(&str, OptimizeMode)] = &[
    ("SPEED", OptimizeMode::Speed),
    ("CODE_SIZE", OptimizeMode::CodeSize),
    ("LITE_RUNTIME", OptimizeMode::LiteRuntime),
];

/// The types of `ctype`, each behind its word.
pub const C_TYPES: &[(&str, CType)] = &[
    ("STRING", CType::String),
    ("CORD", CType::Cord),
    ("STRING_PIECE", CType::StringPiece),
];

/// The types of `jstype`, each behind its word.
pub const JS_TYPES: &[(&str, JSType)] = &[
    ("JS_NORMAL", JSType::JsNormal),
    ("JS_STRING", JSType::JsString),
    ("JS_NUMBER", JSType::JsNumber),
];

/// The levels of `idempotency_level`, each behind its word.
pub const IDEMPOTENCY_LEVELS: &[(&str, IdempotencyLevel)] = &[
    ("IDEMPOTENCY_UNKNOWN", IdempotencyLevel::IdempotencyUnknown),
    ("NO_SIDE_EFFECTS", IdempotencyLevel::NoSideEffects),
    ("IDEMPOTENT", IdempotencyLevel::Idempotent),
];

/// The word of a mode of `optimize_for`.
pub fn optimize_mode_word(mode: OptimizeMode) -> &'static str
    ensures { result.now ≡ spec.optimize_mode_word mode }
{
    match mode {
        OptimizeMode::Speed => "SPEED",
        OptimizeMode::CodeSize => "CODE_SIZE",
        OptimizeMode::LiteRuntime => "LITE_RUNTIME",
    }
}

/// The word of a type of `ctype`.
pub fn c_type_word(type_: CType) -> &'static str
    ensures { result.now ≡ spec.c_type_word type_ }
{
    match type_ {
        CType::String => "STRING",
        CType::Cord => "CORD",
        CType::StringPiece => "STRING_PIECE",
    }
}

/// The word of a type of `jstype`.
pub fn js_type_word(type_: JSType) -> &'static str
    ensures { result.now ≡ spec.js_type_word type_ }
{
    match type_ {
        JSType::JsNormal => "JS_NORMAL",
        JSType::JsString => "JS_STRING",
        JSType::JsNumber => "JS_NUMBER",
    }
}

/// The word of a level of `idempotency_level`.
pub fn idempotency_level_word(level: IdempotencyLevel) -> &'static str
    ensures { result.now ≡ spec.idempotency_level_word level }
{
    match level {
        IdempotencyLevel::IdempotencyUnknown => "IDEMPOTENCY_UNKNOWN",
        IdempotencyLevel::NoSideEffects => "NO_SIDE_EFFECTS",
        IdempotencyLevel::Idempotent => "IDEMPOTENT",
    }
}

/// The word of a type as schemas spell it, `int32` or `group`; and `message` or `enum`, where the
/// type has a name.
///
/// ```text
/// type_word(FieldType::Sfixed64) // "sfixed64"
/// ```
pub fn type_word(type_: FieldType) -> &'static str
    ensures { result.now ≡ spec.type_word type_ }
{
    match type_ {
        FieldType::Int32 => "int32",
        FieldType::Int64 => "int64",
        FieldType::Uint32 => "uint32",
        FieldType::Uint64 => "uint64",
        FieldType::Sint32 => "sint32",
        FieldType::Sint64 => "sint64",
        FieldType::Fixed32 => "fixed32",
        FieldType::Sfixed32 => "sfixed32",
        FieldType::Fixed64 => "fixed64",
        FieldType::Sfixed64 => "sfixed64",
        FieldType::Bool => "bool",
        FieldType::String => "string",
        FieldType::Bytes => "bytes",
        FieldType::Float => "float",
        FieldType::Double => "double",
        FieldType::Message => "message",
        FieldType::Enum => "enum",
        FieldType::Group => "group",
    }
}

/// The word of a label: `optional`, `required` or `repeated`.
pub fn label_word(label: Label) -> &'static str
    ensures { result.now ≡ spec.label_word label }
{
    match label {
        Label::Optional => "optional",
        Label::Required => "required",
        Label::Repeated => "repeated",
    }
}
