//! Fields and values by their numbers: of those that have a number, the first. Numbers are keys of
//! 128 bits, which hold those of descriptors and of what was read alike.

ghost use Rattle.std.specs.Prelude.{◌≡◌, ℕ, ℤ, List, map, OnOk, IfOk, string_bytes};
ghost use Rattle.std.specs.Option.{option_map_or};
ghost use Rattle.protobuf_parse_model.specs.Descriptors.{enum_value_view, field_view};
ghost use Rattle.protobuf_parse_index.specs.Kept.{HasExtensions};
ghost use Rattle.protobuf_parse_index.specs.Puts.{PutsExtended, PutsNumber};
ghost use Rattle.protobuf_parse_index.specs.Kept.{extended_at, field_at, own_fields, own_values};
ghost use Rattle.protobuf_parse_index.specs.Kept.{value_at};
ghost use Rattle.protobuf_parse_index.specs.Puts.{PutsExtension};
ghost use Rattle.protobuf_parse_index.specs.Lookups.{field_with, value_with};
ghost use Rattle.protobuf_parse_index.specs.Views.{standing_enum, standing_extension};
ghost use Rattle.protobuf_parse_index.specs.Views.{standing_message};

use crate::declared::Declared;
use protobuf_parse_model::{
    DescriptorProto, EnumDescriptorProto, EnumValueDescriptorProto, FieldDescriptorProto,
};
use std::alloc::{AllocError, Global};
use std::collections::BTreeMap;

/// What has each number.
pub type ByNumber<'a, T> = BTreeMap<i128, &'a T>;

/// The fields of each of the messages, by their numbers.
pub fn fields_of_each<'a>(
    alloc: Global,
    messages: &[Declared<'a, DescriptorProto>],
) -> Result<Vec<ByNumber<'a, FieldDescriptorProto>>, AllocError>
    ensures { IfOk result (λ v. map field_at v.items
        ≡ map own_fields (map standing_message messages.now)) }
{
    let mut fields = Vec::new(alloc);
    'messages: for message in messages {
        fields.push(fields_by_number(alloc, &message.descriptor.field)?)?;
    }
    Ok(fields)
}

fn fields_by_number(
    alloc: Global,
    fields: &[FieldDescriptorProto],
) -> Result<ByNumber<'_, FieldDescriptorProto>, AllocError>
    ensures { IfOk result (λ m. (q : ℤ) → field_at m q ≡ field_with q (map field_view fields.now)) }
{
    let mut numbers = BTreeMap::new(alloc);
    'fields: for field in fields {
        put_number(&mut numbers, i128::from(field.number), field)?;
    }
    Ok(numbers)
}

/// The values of each of the enums, by their numbers.
pub fn values_of_each<'a>(
    alloc: Global,
    enums: &[Declared<'a, EnumDescriptorProto>],
) -> Result<Vec<ByNumber<'a, EnumValueDescriptorProto>>, AllocError>
    ensures { IfOk result (λ v. map value_at v.items
        ≡ map own_values (map standing_enum enums.now)) }
{
    let mut values = Vec::new(alloc);
    'enums: for each in enums {
        values.push(values_by_number(alloc, &each.descriptor.value)?)?;
    }
    Ok(values)
}

fn values_by_number(
    alloc: Global,
    values: &[EnumValueDescriptorProto],
) -> Result<ByNumber<'_, EnumValueDescriptorProto>, AllocError>
    ensures { IfOk result
        (λ m. (q : ℤ) → value_at m q ≡ value_with q (map enum_value_view values.now)) }
{
    let mut numbers = BTreeMap::new(alloc);
    'values: for value in values {
        put_number(&mut numbers, i128::from(value.number), value)?;
    }
    Ok(numbers)
}

/// The number is that of this one, unless another has it already.
fn put_number<V: Drop>(
    numbers: &mut BTreeMap<i128, V>,
    number: i128,
    what: V,
) -> Result<(), AllocError>
    ensures { OnOk result (PutsNumber numbers.old numbers.new number what) }
{
    match numbers.get(&number) {
        Some(_first) => Ok(()),
        None => {
            numbers.insert(number, what)?;
            Ok(())
        }
    }
}

/// The positions of extensions, by the names of what they extend, and then by their numbers.
pub type ByExtendee = BTreeMap<String, BTreeMap<i128, usize>>;

/// The positions of these extensions.
pub fn extension_numbers(
    alloc: Global,
    extensions: &[Declared<'_, FieldDescriptorProto>],
) -> Result<ByExtendee, AllocError>
    ensures { IfOk result (λ m. HasExtensions m (map standing_extension extensions.now)) }
{
    let mut numbers = BTreeMap::new(alloc);
    'extensions: for (at, each) in extensions.iter().enumerate() {
        put_extension(alloc, &mut numbers, each.descriptor, at)?;
    }
    Ok(numbers)
}

fn put_extension(
    alloc: Global,
    numbers: &mut ByExtendee,
    field: &FieldDescriptorProto,
    at: usize,
) -> Result<(), AllocError>
    ensures { OnOk result ((q : List ℕ) (n : ℤ)
        → PutsExtension numbers.old numbers.new q n (field_view field.now) at) }
{
    match &field.extendee {
        Some(extendee) => put_extended(alloc, numbers, extendee, i128::from(field.number), at),
        None => Ok(()),
    }
}

/// The number of that message is that of the extension at this position, unless another has it
/// already.
fn put_extended(
    alloc: Global,
    numbers: &mut ByExtendee,
    extendee: &String,
    number: i128,
    at: usize,
) -> Result<(), AllocError>
    ensures { OnOk result (PutsExtended numbers.old numbers.new (string_bytes extendee.now)
        number at) }
{
    let key = extendee.clone()?;
    let inside = numbers.entry(key)?.or_insert(BTreeMap::new(alloc));
    put_number(inside, number, at)?;
    Ok(())
}

/// The position of the extension of that message that has the number.
pub fn extension_at(numbers: &ByExtendee, extendee: &str, number: i128) -> Option<usize>
    ensures { result ≡ extended_at numbers.now extendee.now number }
{
    match numbers.get(extendee) {
        Some(inside) => inside.get(&number).copied(),
        None => None,
    }
}
