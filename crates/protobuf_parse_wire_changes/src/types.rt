//! Types that can take one another's place.

ghost use Rattle.std.specs.Prelude.{◌≡◌};
ghost use Rattle.protobuf_parse_wire_changes.specs.Types as spec;

use crate::strength::Strength;
use protobuf_parse_model::FieldType;

/// Whether the new type can take the old one's place.
pub fn takes_place(strength: Strength, old: FieldType, new: FieldType) -> bool
    ensures { result ≡ spec.takes_place strength old new }
{
    same_type(type_for(strength, old), type_for(strength, new))
}

fn same_type(a: FieldType, b: FieldType) -> bool
    ensures { result ≡ spec.same_type a b }
{
    a == b
}

/// One type for those that can take one another's place.
fn type_for(strength: Strength, field_type: FieldType) -> FieldType
    ensures { result ≡ spec.type_for strength field_type }
{
    match strength {
        Strength::Exact => type_of_values(field_type),
        Strength::Family => type_of_family(field_type),
    }
}

fn type_of_values(field_type: FieldType) -> FieldType
    ensures { result ≡ spec.type_of_values field_type }
{
    match field_type {
        FieldType::Enum => FieldType::Int32,
        FieldType::Bytes => FieldType::String,
        _ => field_type,
    }
}

fn type_of_family(field_type: FieldType) -> FieldType
    ensures { result ≡ spec.type_of_family field_type }
{
    match field_type {
        FieldType::Int64
        | FieldType::Uint32
        | FieldType::Uint64
        | FieldType::Bool
        | FieldType::Enum => FieldType::Int32,
        FieldType::Sint64 => FieldType::Sint32,
        FieldType::Sfixed32 => FieldType::Fixed32,
        FieldType::Sfixed64 => FieldType::Fixed64,
        FieldType::Bytes => FieldType::String,
        _ => field_type,
    }
}
