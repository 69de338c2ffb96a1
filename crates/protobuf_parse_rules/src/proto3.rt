//! What proto3 leaves out.

ghost use Rattle.std.specs.Prelude.{◌≡◌, ◌&&◌, is_some, map, option_map, string_bytes};
ghost use Rattle.protobuf_parse_rules.specs.Findings.{finding_view};
ghost use Rattle.protobuf_parse_rules.specs.BodyViews.{content_view};
ghost use Rattle.protobuf_parse_rules.specs.Proto3 as spec;

use crate::bodies::Holds;
use crate::finding::{Finding, found_by, found_if};
use crate::message_sets::is_message_set;
use crate::rule::Rule;
use protobuf_parse_model::{FieldType, Label};

/// Whether the label is `required`.
pub fn is_required(label: Label) -> bool
    ensures { result ≡ spec.is_required label }
{
    matches!(label, Label::Required)
}

/// A required field in proto3.
pub fn required_field<'a>(proto3: bool, label: Label) -> Option<Finding<'a>>
    ensures { option_map finding_view result ≡ spec.required_field proto3 label }
{
    found_if(proto3 && is_required(label), Rule::RequiredInProto3)
}

/// A group in proto3.
pub fn group_field<'a>(proto3: bool, type_: FieldType) -> Option<Finding<'a>>
    ensures { option_map finding_view result ≡ spec.group_field proto3 type_ }
{
    found_if(
        proto3 && matches!(type_, FieldType::Group),
        Rule::GroupInProto3,
    )
}

/// A default in proto3.
pub fn default_field<'a>(proto3: bool, default: &Option<String>) -> Option<Finding<'a>>
    ensures { option_map finding_view result
        ≡ spec.default_field proto3 (option_map string_bytes default.now) }
{
    found_if(proto3 && default.is_some(), Rule::DefaultInProto3)
}

/// Extension ranges in a message of proto3.
pub fn ranges_kept<'a>(proto3: bool, holds: Holds<'_>) -> Option<Finding<'a>>
    ensures { option_map finding_view result ≡ spec.ranges_kept proto3 (content_view holds.entry) }
{
    found_if(
        proto3 && !holds.extension_ranges().is_empty(),
        Rule::ExtensionRangeInProto3,
    )
}

/// A message set in proto3.
pub fn set_in_proto3<'a>(proto3: bool, holds: Holds<'_>) -> Option<Finding<'a>>
    ensures { option_map finding_view result
        ≡ spec.set_in_proto3 proto3 (content_view holds.entry) }
{
    found_if(proto3 && is_message_set(holds), Rule::MessageSetInProto3)
}

/// An extension in proto3 of what isn't an options message.
pub fn extended<'a>(proto3: bool, extendee: &'a Option<String>) -> Option<Finding<'a>>
    ensures { option_map finding_view result
        ≡ spec.extended proto3 (option_map string_bytes extendee.now) }
{
    match extendee {
        Some(name) if proto3 && !is_of_options(name) => found_by(Rule::ExtensionInProto3, name),
        _ => None,
    }
}

/// Whether that is the full name of a message of options.
fn is_of_options(name: &str) -> bool
    ensures { result ≡ spec.is_of_options name.now }
{
    name == ".google.protobuf.FileOptions"
        || name == ".google.protobuf.MessageOptions"
        || name == ".google.protobuf.FieldOptions"
        || name == ".google.protobuf.OneofOptions"
        || name == ".google.protobuf.EnumOptions"
        || name == ".google.protobuf.EnumValueOptions"
        || name == ".google.protobuf.ServiceOptions"
        || name == ".google.protobuf.MethodOptions"
        || name == ".google.protobuf.ExtensionRangeOptions"
}
