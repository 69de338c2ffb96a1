//! The fields of a message by their numbers.

ghost use Rattle.std.specs.Prelude.{◌≡◌, ◌≢◌, ◌<◌, ◌^◌, List, [], ◌∷◌, ◌++◌, map, option_map};
ghost use Rattle.std.specs.Prelude.{IsSome, MatchResult};
ghost use Rattle.std.specs.Borrow.{Bor};
ghost use Rattle.protobuf_parse_model.specs.Descriptors.{FieldDescriptor, field_view};
ghost use Rattle.protobuf_parse_model.specs.declared.descriptor.FieldDescriptorProto.{FieldDescriptorProto};
ghost use Rattle.protobuf_parse_wire.specs.Reading.{ReaderGives, by_number};
ghost use Rattle.protobuf_parse_wire.specs.Indexed.{IsByNumber, entered_by, numbered};

use super::index::Index;
use crate::fault::ReadFault;
use protobuf_parse_base::multimap;
use protobuf_parse_model::FieldDescriptorProto;
use std::alloc::Global;
use std::collections::BTreeMap;

/// Fields under their numbers.
pub type ByNumber<'a> = BTreeMap<i32, &'a FieldDescriptorProto>;

/// The fields and the extensions of the one message that has the name, by their numbers.
pub fn numbers_of<'a>(
    alloc: Global,
    index: &Index<'a>,
    name: &str,
) -> Result<ByNumber<'a>, ReadFault>
    ensures { ReaderGives numbered result (entered_by index.now (Some name.now)) }
{
    match multimap::values(&index.messages, name) {
        [message] => by_number(
            alloc,
            &message.field,
            multimap::values(&index.extensions, name),
        ),
        _ => Err(ReadFault::UnknownMessage),
    }
}

fn by_number<'a>(
    alloc: Global,
    fields: &'a [FieldDescriptorProto],
    extensions: &[&'a FieldDescriptorProto],
) -> Result<ByNumber<'a>, ReadFault>
    ensures { ReaderGives numbered result
        (by_number (map field_view fields.now
        ++ map (λ (f : Bor FieldDescriptorProto). field_view f.now) extensions.now)) }
{
    let mut numbers = BTreeMap::new(alloc);
    'fields: for field in fields {
        add_field(&mut numbers, field)?;
    }
    'extensions: for extension in extensions {
        add_field(&mut numbers, extension)?;
    }
    Ok(numbers)
}

/// Puts the field behind those whose numbers differ from its number, or says that one has it
/// already.
fn add_field<'a>(
    numbers: &mut ByNumber<'a>,
    field: &'a FieldDescriptorProto,
) -> Result<(), ReadFault>
    ensures { (fs : List FieldDescriptor) → IsByNumber numbers.old fs
        → MatchResult result (λ _. IsByNumber numbers.new (fs ++ field_view field.now ∷ []))
        (λ e. e ≢ ReadFault.Memory → (more : List FieldDescriptor)
        → by_number (fs ++ field_view field.now ∷ more) ≡ Err e) }
{
    match numbers.insert(field.number, field)? {
        None => Ok(()),
        Some(_) => Err(ReadFault::AmbiguousNumber),
    }
}

/// The field that the number names.
pub fn field_numbered<'a>(numbers: &ByNumber<'a>, number: u64) -> Option<&'a FieldDescriptorProto>
    ensures found { option_map (λ (f : Bor FieldDescriptorProto). field_view f.now) result
        ≡ numbered numbers.now number }
    ensures small { IsSome result → number < 2 ^ 31 }
{
    let number = i32::try_from(number).ok()?;
    numbers.get(&number).copied()
}
