//! Fields and extensions, each by itself.

ghost use Rattle.std.specs.Prelude.{◌≡◌, ◌++◌, List, map, flat_map, OnOk};
ghost use Rattle.protobuf_parse_model.specs.Descriptors.{field_view};
ghost use Rattle.protobuf_parse_rules.specs.KnownTables.{Knows};
ghost use Rattle.protobuf_parse_rules.specs.Bodies.{BodyParts};
ghost use Rattle.protobuf_parse_rules.specs.BodyViews.{body_view, content_view};
ghost use Rattle.protobuf_parse_rules.specs.Rules.{breaches_at, breaches_told};
ghost use Rattle.protobuf_parse_rules.specs.Violations.{common_rules, extension_breaches};
ghost use Rattle.protobuf_parse_rules.specs.Violations.{extension_rules, field_breaches};
ghost use Rattle.protobuf_parse_rules.specs.Violations.{field_rules, site_in};

use crate::bars::Bars;
use crate::bodies::Body;
use crate::defaults::default_of;
use crate::enum_uses::{default_value, enum_of_proto2, map_value};
use crate::extensions::{of_enum_extended, of_message_set, outside_ranges, required_extension};
use crate::field_options::{js_type_option, lazy_option, packed_option};
use crate::limits::limit;
use crate::maps::key_type;
use crate::message_sets::field_of_set;
use crate::ordinary::{allows, bars_nothing, has_allowed_number, is_common, is_ordinary};
use crate::proto3::{default_field, extended, group_field, required_field};
use crate::ranges::{kept_number, reserved_name, reserved_number};
use crate::tables::Tables;
use crate::tell::tell_each;
use crate::violation::Violation;
use protobuf_parse_model::FieldDescriptorProto;
use std::alloc::{AllocError, Global};

/// Tells what the fields of a body break, in their order. The one error is that memory is short.
pub fn check_fields<'a>(
    alloc: Global,
    told: &mut Vec<Violation>,
    tables: &Tables<'a>,
    bars: &Bars<'a>,
    fields: &'a [FieldDescriptorProto],
) -> Result<(), AllocError>
    ensures { OnOk result ((all : List BodyParts) → Knows tables.now all →
        breaches_told told.new ≡ breaches_told told.old
        ++ flat_map (field_breaches all (body_view bars.now.body.now))
        (map field_view fields.now)) }
{
    'fields: for field in fields {
        check_field(alloc, told, tables, bars, field)?;
    }
    Ok(())
}

/// Tells what is wrong with the field by itself.
fn check_field<'a>(
    alloc: Global,
    told: &mut Vec<Violation>,
    tables: &Tables<'a>,
    bars: &Bars<'a>,
    field: &'a FieldDescriptorProto,
) -> Result<(), AllocError>
    ensures { OnOk result ((all : List BodyParts) → Knows tables.now all →
        breaches_told told.new ≡ breaches_told told.old
        ++ field_breaches all (body_view bars.now.body.now) (field_view field.now)) }
{
    check_in_message(alloc, told, tables, bars, field)?;
    check_common(alloc, told, tables, bars.body, field)
}

/// Tells what is wrong with the field, and with no extension.
fn check_in_message<'a>(
    alloc: Global,
    told: &mut Vec<Violation>,
    tables: &Tables<'a>,
    bars: &Bars<'a>,
    field: &'a FieldDescriptorProto,
) -> Result<(), AllocError>
    ensures { OnOk result ((all : List BodyParts) → Knows tables.now all →
        breaches_told told.new ≡ breaches_told told.old
        ++ breaches_at (site_in (body_view bars.now.body.now) (field_view field.now).name)
        (field_rules all (content_view bars.now.body.now.holds) (field_view field.now))) }
{
    if bars_nothing(bars) && has_allowed_number(field) {
        return Ok(());
    }
    check_allowed(alloc, told, tables, bars, field)
}

/// Tells the same where the message bars something.
fn check_allowed<'a>(
    alloc: Global,
    told: &mut Vec<Violation>,
    tables: &Tables<'a>,
    bars: &Bars<'a>,
    field: &'a FieldDescriptorProto,
) -> Result<(), AllocError>
    ensures { OnOk result ((all : List BodyParts) → Knows tables.now all →
        breaches_told told.new ≡ breaches_told told.old
        ++ breaches_at (site_in (body_view bars.now.body.now) (field_view field.now).name)
        (field_rules all (content_view bars.now.body.now.holds) (field_view field.now))) }
{
    if allows(bars, field) && has_allowed_number(field) {
        return Ok(());
    }
    check_barred(alloc, told, tables, bars, field)
}

/// Tells the same rule by rule. It stands apart so that the room of what is found is not cleared
/// for each field.
// Kept apart: 0.2 % of the instructions for fields of all kinds.
#[inline(never)]
fn check_barred<'a>(
    alloc: Global,
    told: &mut Vec<Violation>,
    tables: &Tables<'a>,
    bars: &Bars<'a>,
    field: &'a FieldDescriptorProto,
) -> Result<(), AllocError>
    ensures { OnOk result ((all : List BodyParts) → Knows tables.now all →
        breaches_told told.new ≡ breaches_told told.old
        ++ breaches_at (site_in (body_view bars.now.body.now) (field_view field.now).name)
        (field_rules all (content_view bars.now.body.now.holds) (field_view field.now))) }
{
    let body = bars.body;
    let found = [
        limit(field.number, false),
        reserved_number(&field.number, bars),
        reserved_name(&field.name, bars),
        kept_number(&field.number, bars),
        field_of_set(body.holds),
        key_type(body.holds, field),
        map_value(tables, body.holds, field),
    ];
    tell_each(alloc, told, body.spot(&field.name), &found)
}

/// Tells what the extensions of a body break, in their order. The one error is that memory is
/// short.
pub fn check_extensions<'a>(
    alloc: Global,
    told: &mut Vec<Violation>,
    tables: &Tables<'a>,
    body: &'a Body<'a>,
    extensions: &'a [FieldDescriptorProto],
) -> Result<(), AllocError>
    ensures { OnOk result ((all : List BodyParts) → Knows tables.now all →
        breaches_told told.new ≡ breaches_told told.old
        ++ flat_map (extension_breaches all (body_view body.now))
        (map field_view extensions.now)) }
{
    'extensions: for extension in extensions {
        check_extension(alloc, told, tables, body, extension)?;
    }
    Ok(())
}

/// Tells what is wrong with the extension by itself.
fn check_extension<'a>(
    alloc: Global,
    told: &mut Vec<Violation>,
    tables: &Tables<'a>,
    body: &'a Body<'a>,
    extension: &'a FieldDescriptorProto,
) -> Result<(), AllocError>
    ensures { OnOk result ((all : List BodyParts) → Knows tables.now all →
        breaches_told told.new ≡ breaches_told told.old
        ++ extension_breaches all (body_view body.now) (field_view extension.now)) }
{
    check_as_extension(alloc, told, tables, body, extension)?;
    check_common(alloc, told, tables, body, extension)
}

/// Tells what is wrong with the extension, and with no field of a message.
fn check_as_extension<'a>(
    alloc: Global,
    told: &mut Vec<Violation>,
    tables: &Tables<'a>,
    body: &'a Body<'a>,
    extension: &'a FieldDescriptorProto,
) -> Result<(), AllocError>
    ensures { OnOk result ((all : List BodyParts) → Knows tables.now all →
        breaches_told told.new ≡ breaches_told told.old
        ++ breaches_at (site_in (body_view body.now) (field_view extension.now).name)
        (extension_rules all body.now.proto3 (field_view extension.now))) }
{
    let found = [
        limit(extension.number, true),
        required_extension(extension.label),
        extended(body.proto3, &extension.extendee),
        of_enum_extended(tables, extension),
        outside_ranges(tables, extension),
        of_message_set(tables, extension),
    ];
    tell_each(alloc, told, body.spot(&extension.name), &found)
}

/// Tells what is wrong with the field or the extension, and may be with either.
fn check_common<'a>(
    alloc: Global,
    told: &mut Vec<Violation>,
    tables: &Tables<'a>,
    body: &'a Body<'a>,
    field: &'a FieldDescriptorProto,
) -> Result<(), AllocError>
    ensures { OnOk result ((all : List BodyParts) → Knows tables.now all →
        breaches_told told.new ≡ breaches_told told.old
        ++ breaches_at (site_in (body_view body.now) (field_view field.now).name)
        (common_rules all body.now.proto3 (field_view field.now))) }
{
    if is_ordinary(field) {
        return Ok(());
    }
    check_less_ordinary(alloc, told, tables, body, field)
}

/// Tells the same where the field or the extension has options, say, or a default.
fn check_less_ordinary<'a>(
    alloc: Global,
    told: &mut Vec<Violation>,
    tables: &Tables<'a>,
    body: &'a Body<'a>,
    field: &'a FieldDescriptorProto,
) -> Result<(), AllocError>
    ensures { OnOk result ((all : List BodyParts) → Knows tables.now all →
        breaches_told told.new ≡ breaches_told told.old
        ++ breaches_at (site_in (body_view body.now) (field_view field.now).name)
        (common_rules all body.now.proto3 (field_view field.now))) }
{
    if is_common(body.proto3, field) {
        return Ok(());
    }
    check_unusual(alloc, told, tables, body, field)
}

/// Tells the same rule by rule.
// Kept apart: 0.3 % of the instructions for fields of all kinds.
#[inline(never)]
fn check_unusual<'a>(
    alloc: Global,
    told: &mut Vec<Violation>,
    tables: &Tables<'a>,
    body: &'a Body<'a>,
    field: &'a FieldDescriptorProto,
) -> Result<(), AllocError>
    ensures { OnOk result ((all : List BodyParts) → Knows tables.now all →
        breaches_told told.new ≡ breaches_told told.old
        ++ breaches_at (site_in (body_view body.now) (field_view field.now).name)
        (common_rules all body.now.proto3 (field_view field.now))) }
{
    let found = [
        required_field(body.proto3, field.label),
        group_field(body.proto3, field.type_),
        default_field(body.proto3, &field.default_value),
        default_of(field),
        packed_option(field),
        lazy_option(field),
        js_type_option(field),
        enum_of_proto2(tables, body.proto3, field),
        default_value(tables, field),
    ];
    tell_each(alloc, told, body.spot(&field.name), &found)
}
