//! Where the parts of a message or an enum stand, by their names: the fields of a message, the
//! values of an enum.

ghost use Rattle.std.specs.Prelude.{◌≡◌, ℕ, List, map, Some, None, if◌then◌else◌, IfOk, OnOk};
ghost use Rattle.std.specs.BTreeMap.{get_by_text};
ghost use Rattle.std.specs.Option.{option_or};
ghost use Rattle.std.specs.Str.{bytes_eq};
ghost use Rattle.protobuf_parse_model.specs.Descriptors.{enum_value_view, enum_view, field_view};
ghost use Rattle.protobuf_parse_model.specs.Descriptors.{message_view};
ghost use Rattle.protobuf_parse_options.specs.Spots.{field_name};
ghost use Rattle.protobuf_parse_options.specs.Positions.{extension_parts, field_names};
ghost use Rattle.protobuf_parse_options.specs.Positions.{kept_position, name_of_value, value_names};

use protobuf_parse_model::{
    DescriptorProto, EnumDescriptorProto, EnumValueDescriptorProto, FieldDescriptorProto,
};
use std::alloc::{AllocError, Global};
use std::collections::BTreeMap;

/// Of up to so many parts no positions are kept: to go through them is as fast.
pub const FEW: usize = 16;

/// What may have parts with names.
pub trait HasParts {
    /// The names of its parts, in their order.
    ghost part_names: { Self → List (List ℕ) };

    /// The position of the first part of each name, where there are more than a few.
    fn positions(&self, alloc: Global) -> Result<BTreeMap<String, usize>, AllocError>
        ensures { IfOk result (λ m. (name : List ℕ) →
            get_by_text m name ≡ kept_position (part_names self.now) name) };
}

impl HasParts for DescriptorProto {
    ghost part_names = { λ m. field_names (message_view m) };

    fn positions(&self, alloc: Global) -> Result<BTreeMap<String, usize>, AllocError> {
        positions_of_fields(alloc, &self.field)
    }
}

impl HasParts for EnumDescriptorProto {
    ghost part_names = { λ e. value_names (enum_view e) };

    fn positions(&self, alloc: Global) -> Result<BTreeMap<String, usize>, AllocError> {
        positions_of_values(alloc, &self.value)
    }
}

/// An extension has no parts.
impl HasParts for FieldDescriptorProto {
    ghost part_names = { λ f. extension_parts (field_view f) };

    fn positions(&self, alloc: Global) -> Result<BTreeMap<String, usize>, AllocError> {
        Ok(BTreeMap::new(alloc))
    }
}

fn positions_of_fields(
    alloc: Global,
    fields: &[FieldDescriptorProto],
) -> Result<BTreeMap<String, usize>, AllocError>
    ensures { IfOk result (λ m. (name : List ℕ) → get_by_text m name
        ≡ kept_position (map field_name (map field_view fields.now)) name) }
{
    let mut positions = BTreeMap::new(alloc);
    if fields.len() <= FEW {
        return Ok(positions);
    }
    for (index, field) in fields.iter().enumerate() {
        put_first(&mut positions, alloc, &field.name, index)?;
    }
    Ok(positions)
}

fn positions_of_values(
    alloc: Global,
    values: &[EnumValueDescriptorProto],
) -> Result<BTreeMap<String, usize>, AllocError>
    ensures { IfOk result (λ m. (name : List ℕ) → get_by_text m name
        ≡ kept_position (map name_of_value (map enum_value_view values.now)) name) }
{
    let mut positions = BTreeMap::new(alloc);
    if values.len() <= FEW {
        return Ok(positions);
    }
    for (index, value) in values.iter().enumerate() {
        put_first(&mut positions, alloc, &value.name, index)?;
    }
    Ok(positions)
}

/// Puts the position under the name, unless one stands there.
fn put_first(
    positions: &mut BTreeMap<String, usize>,
    alloc: Global,
    name: &str,
    position: usize,
) -> Result<(), AllocError>
    ensures { OnOk result ((q : List ℕ) → get_by_text positions.new q
        ≡ option_or (get_by_text positions.old q)
        (if bytes_eq name.now q then Some position else None)) }
{
    if positions.get(name).is_none() {
        let key = String::from_str(alloc, name)?;
        positions.insert(key, position)?;
    }
    Ok(())
}
