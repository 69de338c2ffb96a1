//! Fields of enums.

ghost use Rattle.std.specs.Borrow.{Bor};
ghost use Rattle.std.specs.Prelude.{◌≡◌, List, map, option_map};
ghost use Rattle.protobuf_parse_model.specs.Descriptors.{field_view};
ghost use Rattle.protobuf_parse_rules.specs.EnumUses as spec;
ghost use Rattle.protobuf_parse_rules.specs.Findings.{finding_view};
ghost use Rattle.protobuf_parse_rules.specs.Known.{known_enum};
ghost use Rattle.protobuf_parse_rules.specs.KnownTables.{Knows};
ghost use Rattle.protobuf_parse_rules.specs.declared.known.KnownEnum.{KnownEnum};
ghost use Rattle.protobuf_parse_rules.specs.Bodies.{BodyParts};
ghost use Rattle.protobuf_parse_rules.specs.BodyViews.{content_view};

use crate::bodies::Holds;
use crate::enums::not_zero;
use crate::finding::{Finding, found_by};
use crate::known::KnownEnum;
use crate::maps::is_entry;
use crate::rule::Rule;
use crate::tables::Tables;
use protobuf_parse_model::{FieldDescriptorProto, FieldType};

/// The enum of the field, if that is known.
fn enum_of_field<'t, 'a>(
    tables: &'t Tables<'a>,
    field: &'a FieldDescriptorProto,
) -> Option<&'t KnownEnum<'a>>
    ensures { (all : List BodyParts) → Knows tables.now all →
        option_map (λ (e : Bor KnownEnum). known_enum e.now) result
        ≡ spec.enum_of_field all (field_view field.now) }
{
    if !is_enum(field.type_) {
        return None;
    }
    match &field.type_name {
        Some(name) => tables.enumeration(name.as_str()),
        None => None,
    }
}

/// Whether the field type is that of an enum.
pub fn is_enum(type_: FieldType) -> bool
    ensures { result ≡ spec.is_enum type_ }
{
    matches!(type_, FieldType::Enum)
}

/// A field of proto3 is of an enum that isn't.
pub fn enum_of_proto2<'a>(
    tables: &Tables<'a>,
    proto3: bool,
    field: &'a FieldDescriptorProto,
) -> Option<Finding<'a>>
    ensures { (all : List BodyParts) → Knows tables.now all → option_map finding_view result
        ≡ spec.of_enum all (spec.enum_of_proto2 proto3) (field_view field.now) }
{
    if !proto3 {
        return None;
    }
    match enum_of_field(tables, field) {
        Some(known) => known_of_proto2(proto3, known),
        None => None,
    }
}

fn known_of_proto2<'a>(proto3: bool, known: &KnownEnum<'a>) -> Option<Finding<'a>>
    ensures { option_map finding_view result
        ≡ spec.enum_of_proto2 proto3 (known_enum known.now) }
{
    if proto3 && !known.proto3 {
        found_by(Rule::EnumOfProto2, known.name)
    } else {
        None
    }
}

/// A default is no value of the enum.
pub fn default_value<'a>(
    tables: &Tables<'a>,
    field: &'a FieldDescriptorProto,
) -> Option<Finding<'a>>
    ensures { (all : List BodyParts) → Knows tables.now all → option_map finding_view result
        ≡ spec.of_enum all (spec.default_value (field_view field.now)) (field_view field.now) }
{
    if field.default_value.is_none() {
        return None;
    }
    match enum_of_field(tables, field) {
        Some(known) => known_default(field, known),
        None => None,
    }
}

fn known_default<'a>(field: &'a FieldDescriptorProto, known: &KnownEnum<'a>) -> Option<Finding<'a>>
    ensures { option_map finding_view result
        ≡ spec.default_value (field_view field.now) (known_enum known.now) }
{
    match &field.default_value {
        Some(text) => {
            if has_value(known, text) {
                None
            } else {
                found_by(Rule::NoValueOfName, text)
            }
        }
        None => None,
    }
}

fn has_value<'a>(known: &KnownEnum<'a>, name: &'a str) -> bool
    ensures { result ≡ spec.has_value (known_enum known.now) name.now }
{
    known.values.contains(name)
}

/// The values of a map are of an enum whose first value is not 0.
pub fn map_value<'a>(
    tables: &Tables<'a>,
    holds: Holds<'_>,
    field: &'a FieldDescriptorProto,
) -> Option<Finding<'a>>
    ensures { (all : List BodyParts) → Knows tables.now all → option_map finding_view result
        ≡ spec.of_enum all (spec.map_value (content_view holds.entry) (field_view field.now))
        (field_view field.now) }
{
    if !is_entry(holds) {
        return None;
    }
    match enum_of_field(tables, field) {
        Some(known) => known_map_value(holds, field, known),
        None => None,
    }
}

fn known_map_value<'a>(
    holds: Holds<'_>,
    field: &FieldDescriptorProto,
    known: &KnownEnum<'a>,
) -> Option<Finding<'a>>
    ensures { option_map finding_view result
        ≡ spec.map_value (content_view holds.entry) (field_view field.now)
        (known_enum known.now) }
{
    let is_value = is_entry(holds) && field.number == 2;
    if is_value && not_zero(&known.each.value).is_some() {
        found_by(Rule::MapValueNotZero, known.name)
    } else {
        None
    }
}
