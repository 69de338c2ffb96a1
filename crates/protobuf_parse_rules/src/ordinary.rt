//! What no rule of fields speaks of: most fields, so that their rules are passed over at once. That
//! spared 70 million instructions for 100,000 fields.

ghost use Rattle.std.specs.Prelude.{◌≡◌, false, is_none};
ghost use Rattle.protobuf_parse_model.specs.Descriptors.{field_view};
ghost use Rattle.protobuf_parse_rules.specs.Limits.{limit};
ghost use Rattle.protobuf_parse_rules.specs.Ordinary as spec;
ghost use Rattle.protobuf_parse_rules.specs.BodyViews.{content_view};

use crate::bars::Bars;
use crate::bodies::Holds;
use crate::defaults::default_of;
use crate::enum_uses::is_enum;
use crate::field_options::{js_type_option, lazy_option, packed_option};
use crate::limits::limit;
use crate::maps::{is_entry, is_no_key};
use crate::message_sets::is_message_set;
use protobuf_parse_model::{FieldDescriptorProto, FieldType, Label};

/// Whether the body reserves and keeps no numbers and no names, and is neither a message set nor
/// the message behind a map.
pub fn bars_nothing(bars: &Bars<'_>) -> bool
    ensures { result ≡ spec.bars_nothing (content_view bars.now.body.now.holds) }
{
    let holds = bars.body.holds;
    keeps_nothing(holds) && !is_message_set(holds) && !is_entry(holds)
}

fn keeps_nothing(holds: Holds<'_>) -> bool
    ensures { result ≡ spec.keeps_nothing (content_view holds.entry) }
{
    holds.reserved_ranges().is_empty()
        && holds.extension_ranges().is_empty()
        && holds.reserved_names().is_empty()
}

/// Whether the body bars neither the number nor the name of the field, and is neither a message set
/// nor behind a map in which the field breaks a rule. That spared some 14 million instructions for
/// 36,000 fields of messages with ranges or behind maps.
pub fn allows<'a>(bars: &Bars<'a>, field: &'a FieldDescriptorProto) -> bool
    ensures { result
        ≡ spec.allows (content_view bars.now.body.now.holds) (field_view field.now) }
{
    let holds = bars.body.holds;
    is_free(bars, field) && !is_message_set(holds) && !(is_entry(holds) && is_odd_in_map(field))
}

/// Whether the field's number is neither reserved nor kept, and its name not reserved.
fn is_free<'a>(bars: &Bars<'a>, field: &'a FieldDescriptorProto) -> bool
    ensures { result
        ≡ spec.is_free (content_view bars.now.body.now.holds) (field_view field.now) }
{
    !bars.reserves(&field.number) && !bars.keeps(&field.number) && !bars.names.contains(&field.name)
}

/// Whether the field is a key of no such type, or of an enum.
fn is_odd_in_map(field: &FieldDescriptorProto) -> bool
    ensures { result ≡ spec.is_odd_in_map (field_view field.now) }
{
    is_enum(field.type_) || (field.number == 1 && is_no_key(field.type_))
}

/// Whether the field's number is one that fields may have.
pub fn has_allowed_number(field: &FieldDescriptorProto) -> bool
    ensures { result ≡ is_none (limit false (field_view field.now).number) }
{
    limit(field.number, false).is_none()
}

/// Whether the field or the extension is neither required nor a group nor of an enum, and has
/// neither options nor a default.
pub fn is_ordinary(field: &FieldDescriptorProto) -> bool
    ensures { result ≡ spec.is_ordinary (field_view field.now) }
{
    field.options.is_none()
        && field.default_value.is_none()
        && !matches!(field.label, Label::Required)
        && !matches!(field.type_, FieldType::Group | FieldType::Enum)
}

/// Whether the options and the default of the field or the extension break no rule, and it needs no
/// enum to be looked up. That spared some 6 million instructions for 21,000 such fields.
pub fn is_common(proto3: bool, field: &FieldDescriptorProto) -> bool
    ensures { result ≡ spec.is_common proto3 (field_view field.now) }
{
    !(proto3 && is_noted(field))
        && !(field.default_value.is_some() && is_enum(field.type_))
        && default_of(field).is_none()
        && has_common_options(field)
}

/// Whether a rule of proto3 may speak of it.
fn is_noted(field: &FieldDescriptorProto) -> bool
    ensures { result ≡ spec.is_noted (field_view field.now) }
{
    matches!(field.label, Label::Required)
        || matches!(field.type_, FieldType::Group | FieldType::Enum)
        || field.default_value.is_some()
}

fn has_common_options(field: &FieldDescriptorProto) -> bool
    ensures { result ≡ spec.has_common_options (field_view field.now) }
{
    packed_option(field).is_none()
        && lazy_option(field).is_none()
        && js_type_option(field).is_none()
}
