//! Looking up what files declare, by name.

ghost use Rattle.std.specs.Prelude.{◌≡◌, flat_map, map, option_map, IfOk};
ghost use Rattle.protobuf_parse_model.specs.SeenFiles.{name_texts};
ghost use Rattle.protobuf_parse_model.specs.Descriptors.{enum_value_view, field_view};
ghost use Rattle.protobuf_parse_model.specs.Lookup.{declared, meaning};
ghost use Rattle.protobuf_parse_wire.specs.Declarations.{declared_extensions};
ghost use Rattle.protobuf_parse_options.specs.Holding.{files_seen};
ghost use Rattle.protobuf_parse_options.specs.Views.{extension_under_name, field_among, field_seen};
ghost use Rattle.protobuf_parse_options.specs.Views.{number_among, undeclared};
ghost use Rattle.protobuf_parse_options.specs.OptionFields.{field_named, names_message};
ghost use Rattle.protobuf_parse_options.specs.OptionFields.{number_of_value};

use crate::spots::found::{field_of, first_extension, first_message, number_of};
use crate::with_customs::WithCustoms;
use protobuf_parse_base::multimap;
use protobuf_parse_model::{EnumValueDescriptorProto, FieldDescriptorProto, Outward};
use std::alloc::{AllocError, Global};

// ---- fields of messages

/// The field of that name of the message of that full name.
pub fn field_named<'a>(
    customs: &WithCustoms<'a>,
    message: &str,
    name: &str,
) -> Option<&'a FieldDescriptorProto>
    ensures { option_map field_seen result ≡ field_named
        (files_seen customs.now.reach) message.now name.now }
{
    field_of(
        &customs.reach,
        multimap::values(&customs.spots.messages, message),
        name,
    )
}

/// The first field of that name.
pub fn field_among<'a>(
    fields: &'a [FieldDescriptorProto],
    name: &str,
) -> Option<&'a FieldDescriptorProto>
    ensures { option_map field_seen result ≡ field_among (map field_view fields.now) name.now }
{
    'fields: for field in fields {
        if field.name.as_str() == name {
            return Some(field);
        }
    }
    None
}

/// Whether a message has the full name.
pub fn is_message(customs: &WithCustoms<'_>, name: &str) -> bool
    ensures { result ≡ names_message (files_seen customs.now.reach) name.now }
{
    first_message(
        &customs.reach,
        multimap::values(&customs.spots.messages, name),
    )
    .is_some()
}

// ---- values of enums

/// The number of the value of that name, in the enum of that full name.
pub fn number_of_value(customs: &WithCustoms<'_>, enum_name: &str, name: &str) -> Option<i32>
    ensures { result ≡ number_of_value (files_seen customs.now.reach) enum_name.now name.now }
{
    let enums = multimap::values(&customs.spots.enums, enum_name);
    number_of(&customs.reach, enums, name)
}

/// The number of the first value of that name.
pub fn number_among(values: &[EnumValueDescriptorProto], name: &str) -> Option<i32>
    ensures { result ≡ number_among (map enum_value_view values.now) name.now }
{
    'values: for value in values {
        if value.name.as_str() == name {
            return Some(value.number);
        }
    }
    None
}

// ---- extensions

/// The extension that the name means in the scope.
pub fn extension_meant<'a>(
    alloc: Global,
    customs: &WithCustoms<'a>,
    scope: &[&str],
    name: &str,
) -> Result<Option<&'a FieldDescriptorProto>, AllocError>
    ensures { IfOk result (λ f. option_map field_seen f ≡ undeclared
        (meaning (flat_map declared_extensions (files_seen customs.now.sight))
        (name_texts scope.now) name.now)) }
{
    let mut names = Outward::new(alloc, scope, name)?;
    'names: loop {
        if let Some(field) = declared(customs, names.first()) {
            return Ok(Some(field));
        }
        match names.rest()? {
            Some(rest) => names = rest,
            None => return Ok(None),
        }
    }
}

/// The extension of that full name.
fn declared<'a>(customs: &WithCustoms<'a>, name: &str) -> Option<&'a FieldDescriptorProto>
    ensures { option_map (extension_under_name name.now) result ≡ declared
        (flat_map declared_extensions (files_seen customs.now.sight)) name.now }
{
    first_extension(
        &customs.sight,
        multimap::values(&customs.spots.extensions, name),
    )
}
