//! Which types the keys of maps have.

ghost use Rattle.std.specs.Prelude.{◌≡◌, option_map};
ghost use Rattle.protobuf_parse_model.specs.Descriptors.{field_view};
ghost use Rattle.protobuf_parse_rules.specs.Findings.{finding_view};
ghost use Rattle.protobuf_parse_rules.specs.Maps as spec;
ghost use Rattle.protobuf_parse_rules.specs.BodyViews.{content_view};

use crate::bodies::Holds;
use crate::finding::{Finding, found_if};
use crate::rule::Rule;
use protobuf_parse_model::{FieldDescriptorProto, FieldType};

/// Whether the message stands behind a map.
pub fn is_entry(holds: Holds<'_>) -> bool
    ensures { result ≡ spec.is_entry (content_view holds.entry) }
{
    match holds {
        Holds::Message(message) => match &message.options {
            Some(options) => options.map_entry.unwrap_or(false),
            None => false,
        },
        Holds::File(_) => false,
    }
}

/// Whether no map's key is of this type.
pub fn is_no_key(type_: FieldType) -> bool
    ensures { result ≡ spec.is_no_key type_ }
{
    matches!(
        type_,
        FieldType::Float
            | FieldType::Double
            | FieldType::Bytes
            | FieldType::Message
            | FieldType::Group
            | FieldType::Enum
    )
}

/// The key of a map, where it has a type that no key has.
pub fn key_type<'a>(holds: Holds<'_>, field: &FieldDescriptorProto) -> Option<Finding<'a>>
    ensures { option_map finding_view result
        ≡ spec.key_type (content_view holds.entry) (field_view field.now) }
{
    found_if(
        is_entry(holds) && (field.number == 1 && is_no_key(field.type_)),
        Rule::MapKey,
    )
}
