//! The kinds of values that are written.

ghost use Rattle.std.specs.Prelude.{◌≡◌, ◌↔◌, IsTrue};
ghost use Rattle.protobuf_parse_wire.specs.Kinds.{InRange, kind_of_field_type, shape_of_kind};

use protobuf_parse_model::FieldType;

/// A type of a field whose values can be written: all but float, double and group.
#[derive(Clone, Copy, Debug, PartialEq, Eq)]
pub enum Kind {
    Int32,
    Int64,
    Uint32,
    Uint64,
    Sint32,
    Sint64,
    Fixed32,
    Sfixed32,
    Fixed64,
    Sfixed64,
    Bool,
    String,
    Bytes,
    Enum,
    Message,
}

impl Kind {
    /// The kind of a field of this type, if there is one.
    pub fn of(field_type: FieldType) -> Option<Kind>
        ensures { result ≡ kind_of_field_type field_type }
    {
        match field_type {
            FieldType::Int32 => Some(Kind::Int32),
            FieldType::Int64 => Some(Kind::Int64),
            FieldType::Uint32 => Some(Kind::Uint32),
            FieldType::Uint64 => Some(Kind::Uint64),
            FieldType::Sint32 => Some(Kind::Sint32),
            FieldType::Sint64 => Some(Kind::Sint64),
            FieldType::Fixed32 => Some(Kind::Fixed32),
            FieldType::Sfixed32 => Some(Kind::Sfixed32),
            FieldType::Fixed64 => Some(Kind::Fixed64),
            FieldType::Sfixed64 => Some(Kind::Sfixed64),
            FieldType::Bool => Some(Kind::Bool),
            FieldType::String => Some(Kind::String),
            FieldType::Bytes => Some(Kind::Bytes),
            FieldType::Enum => Some(Kind::Enum),
            FieldType::Message => Some(Kind::Message),
            FieldType::Float | FieldType::Double | FieldType::Group => None,
        }
    }

    /// Whether the number is a value of the kind.
    pub fn has_number(self, number: i128) -> bool
        ensures { IsTrue result ↔ InRange (shape_of_kind self) number }
    {
        match self {
            Kind::Int32 | Kind::Sint32 | Kind::Sfixed32 | Kind::Enum => {
                i32::try_from(number).is_ok()
            }
            Kind::Int64 | Kind::Sint64 | Kind::Sfixed64 => i64::try_from(number).is_ok(),
            Kind::Uint32 | Kind::Fixed32 => u32::try_from(number).is_ok(),
            Kind::Uint64 | Kind::Fixed64 => u64::try_from(number).is_ok(),
            Kind::Bool | Kind::String | Kind::Bytes | Kind::Message => false,
        }
    }
}
