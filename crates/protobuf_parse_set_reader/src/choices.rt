//! The values of the enums of `descriptor.proto` by their numbers there.

ghost use Rattle.std.specs.Prelude.{◌≡◌};
ghost use Rattle.protobuf_parse_set_reader.specs.Choices as spec;

use crate::values::Choice;
use protobuf_parse_model::{CType, FieldType, IdempotencyLevel, JSType, Label, OptimizeMode};

impl Choice for Label {
    ghost numbered = { spec.label_numbered };

    #[tactic(auto, unfolding(crate::specs::Choices::label_numbered))]
    fn of_number(number: i32) -> Option<Self> {
        match number {
            1 => Some(Label::Optional),
            2 => Some(Label::Required),
            3 => Some(Label::Repeated),
            _ => None,
        }
    }
}

impl Choice for FieldType {
    ghost numbered = { spec.type_numbered };

    #[tactic(auto, unfolding(crate::specs::Choices::type_numbered))]
    fn of_number(number: i32) -> Option<Self> {
        match number {
            1 => Some(FieldType::Double),
            2 => Some(FieldType::Float),
            3 => Some(FieldType::Int64),
            4 => Some(FieldType::Uint64),
            5 => Some(FieldType::Int32),
            6 => Some(FieldType::Fixed64),
            7 => Some(FieldType::Fixed32),
            8 => Some(FieldType::Bool),
            9 => Some(FieldType::String),
            10 => Some(FieldType::Group),
            11 => Some(FieldType::Message),
            12 => Some(FieldType::Bytes),
            13 => Some(FieldType::Uint32),
            14 => Some(FieldType::Enum),
            15 => Some(FieldType::Sfixed32),
            16 => Some(FieldType::Sfixed64),
            17 => Some(FieldType::Sint32),
            18 => Some(FieldType::Sint64),
            _ => None,
        }
    }
}

impl Choice for OptimizeMode {
    ghost numbered = { spec.optimize_mode_numbered };

    #[tactic(auto, unfolding(crate::specs::Choices::optimize_mode_numbered))]
    fn of_number(number: i32) -> Option<Self> {
        match number {
            1 => Some(OptimizeMode::Speed),
            2 => Some(OptimizeMode::CodeSize),
            3 => Some(OptimizeMode::LiteRuntime),
            _ => None,
        }
    }
}

impl Choice for CType {
    ghost numbered = { spec.ctype_numbered };

    #[tactic(auto, unfolding(crate::specs::Choices::ctype_numbered))]
    fn of_number(number: i32) -> Option<Self> {
        match number {
            0 => Some(CType::String),
            1 => Some(CType::Cord),
            2 => Some(CType::StringPiece),
            _ => None,
        }
    }
}

impl Choice for JSType {
    ghost numbered = { spec.jstype_numbered };

    #[tactic(auto, unfolding(crate::specs::Choices::jstype_numbered))]
    fn of_number(number: i32) -> Option<Self> {
        match number {
            0 => Some(JSType::JsNormal),
            1 => Some(JSType::JsString),
            2 => Some(JSType::JsNumber),
            _ => None,
        }
    }
}

impl Choice for IdempotencyLevel {
    ghost numbered = { spec.idempotency_level_numbered };

    #[tactic(auto, unfolding(crate::specs::Choices::idempotency_level_numbered))]
    fn of_number(number: i32) -> Option<Self> {
        match number {
            0 => Some(IdempotencyLevel::IdempotencyUnknown),
            1 => Some(IdempotencyLevel::NoSideEffects),
            2 => Some(IdempotencyLevel::Idempotent),
            _ => None,
        }
    }
}
