//! Extensions.

ghost use Rattle.std.specs.Borrow.{Bor};
ghost use Rattle.std.specs.Prelude.{◌≡◌, List, option_map, if◌then◌else◌, Some, None};
ghost use Rattle.protobuf_parse_model.specs.Descriptors.{field_view};
ghost use Rattle.protobuf_parse_rules.specs.Extensions as spec;
ghost use Rattle.protobuf_parse_rules.specs.Findings.{finding_view};
ghost use Rattle.protobuf_parse_rules.specs.Known.{known_message};
ghost use Rattle.protobuf_parse_rules.specs.KnownTables.{Knows};
ghost use Rattle.protobuf_parse_rules.specs.Methods.{is_enum_alone};
ghost use Rattle.protobuf_parse_rules.specs.Rules.{broken_by};
ghost use Rattle.protobuf_parse_rules.specs.declared.rule.Rule.TheVariants as rule;
ghost use Rattle.protobuf_parse_rules.specs.declared.known.KnownMessage.{KnownMessage};
ghost use Rattle.protobuf_parse_rules.specs.Bodies.{BodyParts};

use crate::field_options::is_message;
use crate::finding::{Finding, found_by, found_if};
use crate::known::KnownMessage;
use crate::message_sets::is_message_set;
use crate::methods::is_enum_alone;
use crate::proto3::is_required;
use crate::rule::Rule;
use crate::tables::Tables;
use protobuf_parse_model::{FieldDescriptorProto, Label};

/// A required extension.
pub fn required_extension<'a>(label: Label) -> Option<Finding<'a>>
    ensures { option_map finding_view result ≡ spec.required_extension label }
{
    found_if(is_required(label), Rule::RequiredExtension)
}

/// The message that it extends, if that is known.
fn extendee_of<'t, 'a>(
    tables: &'t Tables<'a>,
    extension: &'a FieldDescriptorProto,
) -> Option<&'t KnownMessage<'a>>
    ensures { (all : List BodyParts) → Knows tables.now all →
        option_map (λ (m : Bor KnownMessage). known_message m.now) result
        ≡ spec.extendee_of all (field_view extension.now) }
{
    match &extension.extendee {
        Some(name) => tables.message(name.as_str()),
        None => None,
    }
}

/// Its number is none that the message keeps for extensions.
pub fn outside_ranges<'a>(
    tables: &Tables<'a>,
    extension: &'a FieldDescriptorProto,
) -> Option<Finding<'a>>
    ensures { (all : List BodyParts) → Knows tables.now all → option_map finding_view result
        ≡ spec.of_extendee all (spec.outside_ranges extension.now.number)
        (field_view extension.now) }
{
    match extendee_of(tables, extension) {
        Some(message) => outside(message, &extension.number),
        None => None,
    }
}

fn outside<'a>(message: &KnownMessage<'a>, number: &i32) -> Option<Finding<'a>>
    ensures { option_map finding_view result
        ≡ spec.outside_ranges number.now (known_message message.now) }
{
    if message.keeps(number) {
        None
    } else {
        found_by(
            Rule::NumberNotForExtensions { number: *number },
            message.name,
        )
    }
}

/// It extends an enum.
pub fn of_enum_extended<'a>(
    tables: &Tables<'a>,
    extension: &'a FieldDescriptorProto,
) -> Option<Finding<'a>>
    ensures { (all : List BodyParts) → Knows tables.now all → option_map finding_view result
        ≡ spec.of_enum_extended all (field_view extension.now) }
{
    match &extension.extendee {
        Some(name) => enum_extended(tables, name),
        None => None,
    }
}

fn enum_extended<'a>(tables: &Tables<'a>, name: &'a str) -> Option<Finding<'a>>
    ensures { (all : List BodyParts) → Knows tables.now all → option_map finding_view result
        ≡ (if is_enum_alone all name.now
        then Some (broken_by rule.ExtendeeNotMessage name.now) else None) }
{
    if is_enum_alone(tables, name) {
        found_by(Rule::ExtendeeNotMessage, name)
    } else {
        None
    }
}

/// The message is a message set, and the extension no optional message.
pub fn of_message_set<'a>(
    tables: &Tables<'a>,
    extension: &'a FieldDescriptorProto,
) -> Option<Finding<'a>>
    ensures { (all : List BodyParts) → Knows tables.now all → option_map finding_view result
        ≡ spec.of_extendee all (spec.of_message_set (field_view extension.now))
        (field_view extension.now) }
{
    match extendee_of(tables, extension) {
        Some(message) => in_message_set(message, extension),
        None => None,
    }
}

fn in_message_set<'a>(
    message: &KnownMessage<'a>,
    extension: &FieldDescriptorProto,
) -> Option<Finding<'a>>
    ensures { option_map finding_view result
        ≡ spec.of_message_set (field_view extension.now) (known_message message.now) }
{
    let is_optional_message = is_optional(extension.label) && is_message(extension.type_);
    if is_message_set(message.holds) && !is_optional_message {
        found_by(Rule::ExtensionOfMessageSet, message.name)
    } else {
        None
    }
}

fn is_optional(label: Label) -> bool
    ensures { result ≡ spec.is_optional label }
{
    matches!(label, Label::Optional)
}
