//! Refusals: what is wrong in an option.

ghost use Rattle.std.specs.Prelude.{◌≡◌};
ghost use Rattle.protobuf_parse_model.specs.Descriptors.{field_view};
ghost use Rattle.protobuf_parse_model.specs.Duplicates.{fault};
ghost use Rattle.protobuf_parse_options.specs.CustomFaults.{not_taken};
ghost use Rattle.protobuf_parse_options.specs.OptionFields.{type_takes};
ghost use Rattle.protobuf_parse_options.specs.Refusals.{Refuses};
ghost use Rattle.protobuf_parse_options.specs.declared.refuse.OptionFailure.TheVariants.{Memory};

use protobuf_parse_model::{ElabErrorKind, FieldDescriptorProto, FieldType};
use std::alloc::{AllocError, AllocFailed, Global};

/// What is wrong in an option, and the text that it speaks of.
#[derive(Drop)]
pub struct OptionError {
    pub kind: ElabErrorKind,
    pub what: String,
}

/// Why an option became no bytes.
#[derive(Drop)]
pub enum OptionFailure {
    Memory,
    Wrong(OptionError),
}

impl From<AllocError> for OptionFailure {
    ghost from_gives = { λ _ e. e ≡ Memory };

    fn from(_error: AllocError) -> OptionFailure {
        OptionFailure::Memory
    }
}

impl<T: Drop> From<AllocFailed<T>> for OptionFailure {
    ghost from_gives = { λ _ e. e ≡ Memory };

    fn from(_error: AllocFailed<T>) -> OptionFailure {
        OptionFailure::Memory
    }
}

/// The failure that tells that kind, and the text that it speaks of.
#[tactic(auto, using(crate::proofs::Refusing::first_wrong))]
pub fn wrong(alloc: Global, kind: ElabErrorKind, what: &str) -> OptionFailure
    ensures { Refuses result (fault kind what.now) }
{
    match String::from_str(alloc, what) {
        Ok(what) => OptionFailure::Wrong(OptionError { kind, what }),
        Err(_) => OptionFailure::Memory,
    }
}

/// The failure for a value that the field doesn't take: E22 for a float, E19 for any other.
pub fn not_taken(alloc: Global, field: &FieldDescriptorProto) -> OptionFailure
    ensures { let f = field_view field.now in
        Refuses result (not_taken f.name (type_takes f.type_)) }
{
    match field.type_ {
        FieldType::Float | FieldType::Double => {
            wrong(alloc, ElabErrorKind::FloatOptionValue, &field.name)
        }
        _ => wrong(alloc, ElabErrorKind::UnsupportedExtensionType, &field.name),
    }
}
