//! The messages and the extensions of files by name, found in one pass.

ghost use Rattle.std.specs.Prelude.{◌≡◌, [], ◌∷◌, map, OnOk, IfOk, string_bytes};
ghost use Rattle.std.specs.List.{flat_map};
ghost use Rattle.protobuf_parse_model.specs.Descriptors.{field_view, file_view, message_view};
ghost use Rattle.protobuf_parse_wire.specs.Declarations.{declared_message, messages_declared_in};
ghost use Rattle.protobuf_parse_wire.specs.Declarations.{extensions_declared_in, package_scope};
ghost use Rattle.protobuf_parse_wire.specs.Indexed.{IndexAdds, AddsMessages, Indexes};

use protobuf_parse_base::multimap;
use protobuf_parse_model::{DescriptorProto, FieldDescriptorProto, FileDescriptorProto};
use std::alloc::{AllocError, Global};
use std::collections::BTreeMap;

/// What files declare. A name may be declared several times.
#[derive(Drop)]
pub struct Index<'a> {
    pub messages: BTreeMap<String, Vec<&'a DescriptorProto>>,
    /// Under the name of the message that they extend.
    pub extensions: BTreeMap<String, Vec<&'a FieldDescriptorProto>>,
}

/// The index of the files.
pub fn index_of<'a>(
    alloc: Global,
    files: &'a [FileDescriptorProto],
) -> Result<Index<'a>, AllocError>
    ensures { IfOk result (Indexes (map file_view files.now)) }
{
    let mut index = Index {
        messages: BTreeMap::new(alloc),
        extensions: BTreeMap::new(alloc),
    };
    'files: for file in files {
        add_file(alloc, &mut index, file)?;
    }
    Ok(index)
}

fn add_file<'a>(
    alloc: Global,
    index: &mut Index<'a>,
    file: &'a FileDescriptorProto,
) -> Result<(), AllocError>
    ensures { OnOk result
        (IndexAdds index.old index.new (messages_declared_in (file_view file.now))
        (extensions_declared_in (file_view file.now))) }
{
    let scope = package_scope(alloc, file)?;
    add_messages(alloc, index, &scope, &file.message_type)?;
    add_extensions(index, &file.extension)
}

/// The package, if any, after a dot.
fn package_scope(alloc: Global, file: &FileDescriptorProto) -> Result<String, AllocError>
    ensures { IfOk result (λ s. string_bytes s ≡ package_scope (file_view file.now).«package») }
{
    match &file.package {
        Some(package) => format!(in alloc; ".{package}"),
        None => Ok(String::new(alloc)),
    }
}

#[cycle(messages)]
fn add_messages<'a>(
    alloc: Global,
    index: &mut Index<'a>,
    scope: &str,
    messages: &'a [DescriptorProto],
) -> Result<(), AllocError>
    ensures { OnOk result
        (AddsMessages index.old index.new
        (flat_map (declared_message scope.now) (map message_view messages.now))) }
{
    'messages: for message in messages {
        add_message(alloc, index, scope, message)?;
    }
    Ok(())
}

#[cycle(messages)]
fn add_message<'a>(
    alloc: Global,
    index: &mut Index<'a>,
    scope: &str,
    message: &'a DescriptorProto,
) -> Result<(), AllocError>
    ensures { OnOk result
        (AddsMessages index.old index.new (declared_message scope.now (message_view message.now))) }
{
    let name = format!(in alloc; "{scope}.{}", message.name)?;
    multimap::put(&mut index.messages, name.clone()?, message)?;
    add_extensions(index, &message.extension)?;
    add_messages(alloc, index, &name, &message.nested_type)
}

fn add_extensions<'a>(
    index: &mut Index<'a>,
    extensions: &'a [FieldDescriptorProto],
) -> Result<(), AllocError>
    ensures { OnOk result (IndexAdds index.old index.new [] (map field_view extensions.now)) }
{
    'extensions: for extension in extensions {
        add_extension(index, extension)?;
    }
    Ok(())
}

fn add_extension<'a>(
    index: &mut Index<'a>,
    extension: &'a FieldDescriptorProto,
) -> Result<(), AllocError>
    ensures { OnOk result (IndexAdds index.old index.new [] (field_view extension.now ∷ [])) }
{
    match &extension.extendee {
        Some(extendee) => multimap::put(&mut index.extensions, extendee.clone()?, extension),
        None => Ok(()),
    }
}
