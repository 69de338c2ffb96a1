//! The messages and enums that the files of a set declare.

ghost use Rattle.std.specs.Prelude.{◌≡◌, ◌++◌, [], ◌∷◌, IfOk, OnOk, flat_map, map, string_bytes};
ghost use Rattle.protobuf_parse_model.specs.Descriptors.{enum_view, file_view, message_view};
ghost use Rattle.protobuf_parse_set_rules.specs.Types as spec;
ghost use Rattle.protobuf_parse_set_rules.specs.Held.{texts_of, type_view};

use crate::names::{package_scope, within};
use protobuf_parse_model::{DescriptorProto, EnumDescriptorProto, FileDescriptorProto, TypeKind};
use std::alloc::{AllocError, Global};

/// A message or an enum: its full name, and the position of its file in the set.
#[derive(Drop)]
pub struct TypeName {
    pub name: String,
    pub kind: TypeKind,
    pub file: usize,
}

/// Those of the files, in order.
pub fn types_of(alloc: Global, files: &[FileDescriptorProto]) -> Result<Vec<TypeName>, AllocError>
    ensures { IfOk result (λ v. map type_view v.items ≡ spec.set_types (map file_view files.now)) }
{
    let mut types = Vec::new(alloc);
    'files: for (position, file) in files.iter().enumerate() {
        add_file(alloc, &mut types, position, file)?;
    }
    Ok(types)
}

/// Their names.
pub fn names_of<'a>(alloc: Global, types: &'a [TypeName]) -> Result<Vec<&'a str>, AllocError>
    ensures { IfOk result (λ v. texts_of v.items ≡ map spec.type_name (map type_view types.now)) }
{
    let mut names = Vec::with_capacity(alloc, types.len())?;
    'types: for each in types {
        names.push(each.name.as_str())?;
    }
    Ok(names)
}

fn add_file(
    alloc: Global,
    types: &mut Vec<TypeName>,
    position: usize,
    file: &FileDescriptorProto,
) -> Result<(), AllocError>
    ensures { OnOk result (map type_view types.new.items
        ≡ map type_view types.old.items ++ spec.file_types position (file_view file.now)) }
{
    let scope = package_scope(alloc, &file.package)?;
    add_messages(alloc, types, position, &scope, &file.message_type)?;
    add_enums(alloc, types, position, &scope, &file.enum_type)
}

#[cycle(messages)]
fn add_messages(
    alloc: Global,
    types: &mut Vec<TypeName>,
    position: usize,
    scope: &str,
    messages: &[DescriptorProto],
) -> Result<(), AllocError>
    ensures { OnOk result (map type_view types.new.items ≡ map type_view types.old.items
        ++ flat_map (spec.types_around position scope.now) (map message_view messages.now)) }
{
    'messages: for message in messages {
        add_message(alloc, types, position, scope, message)?;
    }
    Ok(())
}

#[cycle(messages)]
fn add_message(
    alloc: Global,
    types: &mut Vec<TypeName>,
    position: usize,
    scope: &str,
    message: &DescriptorProto,
) -> Result<(), AllocError>
    ensures { OnOk result (map type_view types.new.items ≡ map type_view types.old.items
        ++ spec.types_around position scope.now (message_view message.now)) }
{
    let name = within(alloc, scope, &message.name)?;
    add_one(types, position, TypeKind::Message, name.clone()?)?;
    add_enums(alloc, types, position, &name, &message.enum_type)?;
    add_messages(alloc, types, position, &name, &message.nested_type)
}

fn add_enums(
    alloc: Global,
    types: &mut Vec<TypeName>,
    position: usize,
    scope: &str,
    enums: &[EnumDescriptorProto],
) -> Result<(), AllocError>
    ensures { OnOk result (map type_view types.new.items ≡ map type_view types.old.items
        ++ map (spec.enum_declared position scope.now) (map enum_view enums.now)) }
{
    'enums: for each in enums {
        let name = within(alloc, scope, &each.name)?;
        add_one(types, position, TypeKind::Enum, name)?;
    }
    Ok(())
}

fn add_one(
    types: &mut Vec<TypeName>,
    position: usize,
    kind: TypeKind,
    name: String,
) -> Result<(), AllocError>
    ensures { OnOk result (map type_view types.new.items ≡ map type_view types.old.items
        ++ record { name = string_bytes name; kind = kind; file = position } ∷ []) }
{
    types.push(TypeName {
        name,
        kind,
        file: position,
    })?;
    Ok(())
}
