//! What stands at spots, in the files that are picked.

ghost use Rattle.std.specs.Prelude.{◌≡◌, map, option_map, slice_get};
ghost use Rattle.protobuf_parse_model.specs.Descriptors.{enum_value_view, enum_view, field_view};
ghost use Rattle.protobuf_parse_model.specs.Descriptors.{message_view, parts_seen};
ghost use Rattle.protobuf_parse_options.specs.HoldingParts.{at_spot, at_spots, enum_seen};
ghost use Rattle.protobuf_parse_options.specs.HoldingParts.{field_there};
ghost use Rattle.protobuf_parse_options.specs.Holding.{file_seen};
ghost use Rattle.protobuf_parse_options.specs.HoldingParts.{file_numbered, found_by};
ghost use Rattle.protobuf_parse_options.specs.HoldingParts.{inside_of};
ghost use Rattle.protobuf_parse_options.specs.HoldingParts.{members_view, message_seen};
ghost use Rattle.protobuf_parse_options.specs.HoldingParts.{number_there};
ghost use Rattle.protobuf_parse_options.specs.Holding.{spot_view};
ghost use Rattle.protobuf_parse_options.specs.HoldingParts.{option_join};
ghost use Rattle.protobuf_parse_options.specs.Views.{field_seen};
ghost use Rattle.protobuf_parse_options.specs.ByName.{first};
ghost use Rattle.protobuf_parse_options.specs.Spots.{enums_inside, extensions_inside};
ghost use Rattle.protobuf_parse_options.specs.SpotsInside.{messages_inside};
ghost use Rattle.protobuf_parse_options.specs.Positioned.{field_by, number_by, value_number};

use crate::lookup::{field_among, number_among};
use crate::spots::Spot;
use crate::spots::members::{Members, members_down};
use crate::spots::parts::FEW;
use crate::spots::picked::PickedFiles;
use protobuf_parse_model::{
    DescriptorProto, EnumDescriptorProto, EnumValueDescriptorProto, FieldDescriptorProto,
    FileDescriptorProto,
};

/// The file with the number, if it is among them.
fn file_numbered<'a>(picked: &PickedFiles<'a>, number: u32) -> Option<&'a FileDescriptorProto>
    ensures { option_map file_seen result ≡ file_numbered picked.now number }
{
    match picked.numbers.binary_search(&number) {
        Ok(position) => file_at(picked.files, position),
        Err(_) => None,
    }
}

fn file_at<'a>(
    files: &[Option<&'a FileDescriptorProto>],
    position: usize,
) -> Option<&'a FileDescriptorProto>
    ensures { option_map file_seen result ≡ option_join (slice_get
        (map (option_map file_seen) files.now) position) }
{
    match files.get(position) {
        Some(file) => *file,
        None => None,
    }
}

fn members_at<'a>(picked: &PickedFiles<'a>, spot: &Spot) -> Option<Members<'a>>
    ensures { option_map members_view result ≡ inside_of
        (file_numbered picked.now spot.now.file) spot.now.path.items }
{
    match file_numbered(picked, spot.file) {
        Some(file) => members_down(file, &spot.path),
        None => None,
    }
}

fn message_at<'a>(picked: &PickedFiles<'a>, spot: &Spot) -> Option<&'a DescriptorProto>
    ensures { option_map message_seen result ≡ at_spot messages_inside picked.now
        (spot_view spot.now) }
{
    match members_at(picked, spot) {
        Some(members) => members.messages.get(spot.index),
        None => None,
    }
}

fn enum_at<'a>(picked: &PickedFiles<'a>, spot: &Spot) -> Option<&'a EnumDescriptorProto>
    ensures { option_map enum_seen result ≡ at_spot enums_inside picked.now (spot_view spot.now) }
{
    match members_at(picked, spot) {
        Some(members) => members.enums.get(spot.index),
        None => None,
    }
}

fn extension_at<'a>(picked: &PickedFiles<'a>, spot: &Spot) -> Option<&'a FieldDescriptorProto>
    ensures { option_map field_seen result ≡ at_spot extensions_inside picked.now
        (spot_view spot.now) }
{
    match members_at(picked, spot) {
        Some(members) => members.extensions.get(spot.index),
        None => None,
    }
}

// ---- the first of several spots

/// The first message that stands at one of the spots.
pub fn first_message<'a>(picked: &PickedFiles<'a>, spots: &[Spot]) -> Option<&'a DescriptorProto>
    ensures { option_map message_seen result ≡ first
        (at_spots messages_inside picked.now (map spot_view spots.now)) }
{
    'spots: for spot in spots {
        let message = message_at(picked, spot);
        if message.is_some() {
            return message;
        }
    }
    None
}

/// The first extension that stands at one of the spots.
pub fn first_extension<'a>(
    picked: &PickedFiles<'a>,
    spots: &[Spot],
) -> Option<&'a FieldDescriptorProto>
    ensures { option_map field_seen result ≡ first
        (at_spots extensions_inside picked.now (map spot_view spots.now)) }
{
    'spots: for spot in spots {
        let extension = extension_at(picked, spot);
        if extension.is_some() {
            return extension;
        }
    }
    None
}

/// The first field of that name in the messages at the spots.
pub fn field_of<'a>(
    picked: &PickedFiles<'a>,
    spots: &[Spot],
    name: &str,
) -> Option<&'a FieldDescriptorProto>
    ensures { option_map field_seen result
        ≡ found_by (field_there picked.now name.now) (map spot_view spots.now) }
{
    'spots: for spot in spots {
        let field = field_at(picked, spot, name);
        if field.is_some() {
            return field;
        }
    }
    None
}

fn field_at<'a>(
    picked: &PickedFiles<'a>,
    spot: &Spot,
    name: &str,
) -> Option<&'a FieldDescriptorProto>
    ensures { option_map field_seen result ≡ field_there picked.now name.now (spot_view spot.now) }
{
    match message_at(picked, spot) {
        Some(message) => field_in(message, spot, name),
        None => None,
    }
}

/// The first field of that name in the message, which stands at the spot.
fn field_in<'a>(
    message: &'a DescriptorProto,
    spot: &Spot,
    name: &str,
) -> Option<&'a FieldDescriptorProto>
    ensures { option_map field_seen result ≡ field_by (spot_view spot.now).position
        (parts_seen (message_view message.now)).field name.now }
{
    field_by(&message.field, spot, name)
}

fn field_by<'a>(
    fields: &'a [FieldDescriptorProto],
    spot: &Spot,
    name: &str,
) -> Option<&'a FieldDescriptorProto>
    ensures { option_map field_seen result ≡ field_by (spot_view spot.now).position
        (map field_view fields.now) name.now }
{
    if fields.len() <= FEW {
        return field_among(fields, name);
    }
    match spot.positions.get(name) {
        Some(position) => fields.get(*position),
        None => None,
    }
}

/// The number of the first value of that name in the enums at the spots.
pub fn number_of(picked: &PickedFiles<'_>, spots: &[Spot], name: &str) -> Option<i32>
    ensures { result ≡ found_by (number_there picked.now name.now) (map spot_view spots.now) }
{
    'spots: for spot in spots {
        let number = number_at(picked, spot, name);
        if number.is_some() {
            return number;
        }
    }
    None
}

fn number_at(picked: &PickedFiles<'_>, spot: &Spot, name: &str) -> Option<i32>
    ensures { result ≡ number_there picked.now name.now (spot_view spot.now) }
{
    match enum_at(picked, spot) {
        Some(declared) => number_in(declared, spot, name),
        None => None,
    }
}

/// The number of the first value of that name in the enum, which stands at the spot.
fn number_in(declared: &EnumDescriptorProto, spot: &Spot, name: &str) -> Option<i32>
    ensures { result ≡ number_by (spot_view spot.now).position (enum_view declared.now).value
        name.now }
{
    if declared.value.len() <= FEW {
        return number_among(&declared.value, name);
    }
    match spot.positions.get(name) {
        Some(position) => number_at_position(&declared.value, *position),
        None => None,
    }
}

fn number_at_position(values: &[EnumValueDescriptorProto], position: usize) -> Option<i32>
    ensures { result ≡ option_map value_number (slice_get (map enum_value_view values.now)
        position) }
{
    match values.get(position) {
        Some(value) => Some(value.number),
        None => None,
    }
}
