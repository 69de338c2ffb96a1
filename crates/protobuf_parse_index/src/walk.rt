//! A walk over all that files declare.

ghost use Rattle.std.specs.Prelude.{◌≡◌, ◌++◌, [], map, flat_map, OnOk, IfOk, string_bytes};
ghost use Rattle.protobuf_parse_model.specs.Descriptors.{enum_view, field_view, file_view};
ghost use Rattle.protobuf_parse_model.specs.Descriptors.{message_view};
ghost use Rattle.protobuf_parse_index.specs.Kept.{Walks};
ghost use Rattle.protobuf_parse_index.specs.Puts.{WalkAdds};
ghost use Rattle.protobuf_parse_index.specs.Puts.{WalkAddsMessages};
ghost use Rattle.protobuf_parse_index.specs.Views.{standing_enum, standing_extension};
ghost use Rattle.protobuf_parse_index.specs.Walk.{enums_of, enums_within, extensions_of};
ghost use Rattle.protobuf_parse_index.specs.Walk.{extensions_within, message_within, messages_of};
ghost use Rattle.protobuf_parse_index.specs.Walk.{path_of};

use crate::declared::Declared;
use protobuf_parse_model::{
    DescriptorProto, EnumDescriptorProto, FieldDescriptorProto, FileDescriptorProto,
};
use protobuf_parse_wire::package_scope;
use std::alloc::{AllocError, Global};

/// What the files declare, in order: each message before what stands inside it, and what stands in
/// a file outside of its messages behind those.
#[derive(Drop)]
pub struct Walk<'a> {
    pub messages: Vec<Declared<'a, DescriptorProto>>,
    pub enums: Vec<Declared<'a, EnumDescriptorProto>>,
    pub extensions: Vec<Declared<'a, FieldDescriptorProto>>,
}

/// The walk over the files.
pub fn walk_of(alloc: Global, files: &[FileDescriptorProto]) -> Result<Walk<'_>, AllocError>
    ensures { IfOk result (Walks (map file_view files.now)) }
{
    let mut walk = Walk {
        messages: Vec::new(alloc),
        enums: Vec::new(alloc),
        extensions: Vec::new(alloc),
    };
    'files: for file in files {
        add_file(alloc, &mut walk, file)?;
    }
    Ok(walk)
}

fn add_file<'a>(
    alloc: Global,
    walk: &mut Walk<'a>,
    file: &'a FileDescriptorProto,
) -> Result<(), AllocError>
    ensures { OnOk result (WalkAdds walk.old walk.new (messages_of (file_view file.now))
        (enums_of (file_view file.now)) (extensions_of (file_view file.now))) }
{
    let path = path_of(file);
    let scope = package_scope(alloc, file)?;
    add_messages(alloc, walk, path, &scope, &file.message_type)?;
    add_within(alloc, walk, path, &scope, &file.enum_type, &file.extension)
}

/// The path by which the file is known, or no text where its descriptor has none.
pub fn path_of(file: &FileDescriptorProto) -> &str
    ensures { result.now ≡ path_of (file_view file.now) }
{
    match &file.name {
        Some(name) => name,
        None => "",
    }
}

#[cycle(messages)]
fn add_messages<'a>(
    alloc: Global,
    walk: &mut Walk<'a>,
    path: &'a str,
    scope: &str,
    messages: &'a [DescriptorProto],
) -> Result<(), AllocError>
    ensures { OnOk result (WalkAddsMessages walk.old walk.new
        (flat_map (message_within path.now scope.now) (map message_view messages.now))) }
{
    'messages: for message in messages {
        add_message(alloc, walk, path, scope, message)?;
    }
    Ok(())
}

#[cycle(messages)]
fn add_message<'a>(
    alloc: Global,
    walk: &mut Walk<'a>,
    path: &'a str,
    scope: &str,
    message: &'a DescriptorProto,
) -> Result<(), AllocError>
    ensures { OnOk result (WalkAddsMessages walk.old walk.new
        (message_within path.now scope.now (message_view message.now))) }
{
    let name = format!(in alloc; "{scope}.{}", message.name)?;
    walk.messages.push(Declared {
        file: path,
        full_name: name.clone()?,
        descriptor: message,
    })?;
    add_within(
        alloc,
        walk,
        path,
        &name,
        &message.enum_type,
        &message.extension,
    )?;
    add_messages(alloc, walk, path, &name, &message.nested_type)
}

/// Adds the enums and the extensions that stand in the scope.
fn add_within<'a>(
    alloc: Global,
    walk: &mut Walk<'a>,
    path: &'a str,
    scope: &str,
    enums: &'a [EnumDescriptorProto],
    extensions: &'a [FieldDescriptorProto],
) -> Result<(), AllocError>
    ensures { OnOk result (WalkAdds walk.old walk.new []
        (enums_within path.now scope.now (map enum_view enums.now))
        (extensions_within path.now scope.now (map field_view extensions.now))) }
{
    add_enums(alloc, &mut walk.enums, path, scope, enums)?;
    add_extensions(alloc, &mut walk.extensions, path, scope, extensions)
}

fn add_enums<'a>(
    alloc: Global,
    enums: &mut Vec<Declared<'a, EnumDescriptorProto>>,
    path: &'a str,
    scope: &str,
    declared: &'a [EnumDescriptorProto],
) -> Result<(), AllocError>
    ensures { OnOk result (map standing_enum enums.new.items ≡ map standing_enum enums.old.items
        ++ enums_within path.now scope.now (map enum_view declared.now)) }
{
    'declared: for each in declared {
        let full_name = format!(in alloc; "{scope}.{}", each.name)?;
        enums.push(Declared {
            file: path,
            full_name,
            descriptor: each,
        })?;
    }
    Ok(())
}

fn add_extensions<'a>(
    alloc: Global,
    extensions: &mut Vec<Declared<'a, FieldDescriptorProto>>,
    path: &'a str,
    scope: &str,
    declared: &'a [FieldDescriptorProto],
) -> Result<(), AllocError>
    ensures { OnOk result (map standing_extension extensions.new.items
        ≡ map standing_extension extensions.old.items
        ++ extensions_within path.now scope.now (map field_view declared.now)) }
{
    'declared: for each in declared {
        let full_name = format!(in alloc; "{scope}.{}", each.name)?;
        extensions.push(Declared {
            file: path,
            full_name,
            descriptor: each,
        })?;
    }
    Ok(())
}
