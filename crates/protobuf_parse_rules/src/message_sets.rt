//! Messages with the wire format of message sets.

ghost use Rattle.std.specs.Prelude.{◌≡◌, option_map};
ghost use Rattle.protobuf_parse_rules.specs.Findings.{finding_view};
ghost use Rattle.protobuf_parse_rules.specs.MessageSets as spec;
ghost use Rattle.protobuf_parse_rules.specs.BodyViews.{content_view};

use crate::bodies::Holds;
use crate::finding::{Finding, found_if};
use crate::rule::Rule;

/// Whether this is a message with the wire format of message sets.
pub fn is_message_set(holds: Holds<'_>) -> bool
    ensures { result ≡ spec.is_message_set (content_view holds.entry) }
{
    match holds {
        Holds::Message(message) => match &message.options {
            Some(options) => options.message_set_wire_format.unwrap_or(false),
            None => false,
        },
        Holds::File(_) => false,
    }
}

/// A field of a message set.
pub fn field_of_set<'a>(holds: Holds<'_>) -> Option<Finding<'a>>
    ensures { option_map finding_view result ≡ spec.field_of_set (content_view holds.entry) }
{
    found_if(is_message_set(holds), Rule::FieldInMessageSet)
}
