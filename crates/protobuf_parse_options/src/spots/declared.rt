//! What a file declares, in lists.

ghost use Rattle.std.specs.Prelude.{◌≡◌, ◌++◌, ◌∷◌, [], ℕ, List, map, string_bytes, IfOk, OnOk};
ghost use Rattle.protobuf_parse_model.specs.Descriptors.{EnumDescriptor, FieldDescriptor};
ghost use Rattle.protobuf_parse_model.specs.Descriptors.{enum_view, field_view, file_view};
ghost use Rattle.protobuf_parse_model.specs.Descriptors.{message_view};
ghost use Rattle.protobuf_parse_options.specs.HoldingParts.{members_view, messages_spotted};
ghost use Rattle.protobuf_parse_options.specs.HoldingParts.{spotted_by};
ghost use Rattle.protobuf_parse_options.specs.Spots.{Inside, enum_name, enums_inside};
ghost use Rattle.protobuf_parse_options.specs.Spots.{extensions_inside, field_name, spotted_each};
ghost use Rattle.protobuf_parse_options.specs.Spots.{spotted_in, spotted_inside, spotted_list};
ghost use Rattle.protobuf_parse_options.specs.Spots.{spotted_message, spotted_messages};

use crate::spots::members::{Members, of_file, of_message};
use protobuf_parse_model::{
    DescriptorProto, EnumDescriptorProto, FieldDescriptorProto, FileDescriptorProto,
};
use protobuf_parse_wire::{name_within, package_scope};
use std::alloc::{AllocError, Global};

/// Something that a file declares.
#[derive(Drop)]
pub struct Spotted<T> {
    /// The full name.
    pub name: String,
    /// The way to the message around it: the number of a message in its list, then that of a
    /// message in it, and so on. Empty for what stands in no message.
    pub path: Vec<usize>,
    /// Its number in its list.
    pub index: usize,
    pub what: T,
}

/// The same path.
pub fn copied(alloc: Global, path: &[usize]) -> Result<Vec<usize>, AllocError>
    ensures { IfOk result (λ v. v.items ≡ path.now) }
{
    let mut copy = Vec::new(alloc);
    copy.extend_from_slice(path)?;
    Ok(copy)
}

/// The path to the message with this number behind the path to what is around it.
fn path_to(alloc: Global, path: &[usize], index: usize) -> Result<Vec<usize>, AllocError>
    ensures { IfOk result (λ v. v.items ≡ path.now ++ index ∷ []) }
{
    let mut copy = copied(alloc, path)?;
    copy.push(index)?;
    Ok(copy)
}

// ---- messages

/// The messages of the file.
pub fn messages_of(
    alloc: Global,
    file: &FileDescriptorProto,
) -> Result<Vec<Spotted<&DescriptorProto>>, AllocError>
    ensures { IfOk result (λ v. messages_spotted v.items ≡ spotted_messages (file_view file.now)) }
{
    let mut list = Vec::new(alloc);
    let scope = package_scope(alloc, file)?;
    add_messages(alloc, &scope, &[], &file.message_type, &mut list)?;
    Ok(list)
}

#[cycle(messages)]
fn add_messages<'a>(
    alloc: Global,
    scope: &str,
    path: &[usize],
    messages: &'a [DescriptorProto],
    list: &mut Vec<Spotted<&'a DescriptorProto>>,
) -> Result<(), AllocError>
    ensures { OnOk result (messages_spotted list.new.items ≡ messages_spotted list.old.items
        ++ spotted_list scope.now path.now 0 (map message_view messages.now)) }
{
    for (index, message) in messages.iter().enumerate() {
        add_message(alloc, scope, path, index, message, list)?;
    }
    Ok(())
}

#[cycle(messages)]
fn add_message<'a>(
    alloc: Global,
    scope: &str,
    path: &[usize],
    index: usize,
    message: &'a DescriptorProto,
    list: &mut Vec<Spotted<&'a DescriptorProto>>,
) -> Result<(), AllocError>
    ensures { OnOk result (messages_spotted list.new.items ≡ messages_spotted list.old.items
        ++ spotted_message scope.now path.now index (message_view message.now)) }
{
    list.push(Spotted {
        name: name_within(alloc, scope, &message.name)?,
        path: copied(alloc, path)?,
        index,
        what: message,
    })?;
    if message.nested_type.is_empty() {
        return Ok(());
    }
    let name = name_within(alloc, scope, &message.name)?;
    let inner = path_to(alloc, path, index)?;
    add_messages(alloc, &name, &inner, &message.nested_type, list)
}

// ---- enums and extensions

/// What may stand in a file and in a message, beside messages: an enum or an extension.
pub trait Member: Sized {
    ghost View: { Type 0 };

    ghost view: { Self → View };

    ghost name_of: { View → List ℕ };

    ghost inside: { Inside → List View };

    fn name(&self) -> &str
        ensures { result.now ≡ name_of (view self.now) };

    /// Those among what stands in a file or in a message.
    fn among<'a>(members: Members<'a>) -> &'a [Self]
        ensures { map view result.now ≡ inside (members_view members.entry) };
}

impl Member for EnumDescriptorProto {
    ghost View = { EnumDescriptor };

    ghost view = { enum_view };

    ghost name_of = { enum_name };

    ghost inside = { enums_inside };

    fn name(&self) -> &str {
        &self.name
    }

    fn among<'a>(members: Members<'a>) -> &'a [Self] {
        members.enums
    }
}

impl Member for FieldDescriptorProto {
    ghost View = { FieldDescriptor };

    ghost view = { field_view };

    ghost name_of = { field_name };

    ghost inside = { extensions_inside };

    fn name(&self) -> &str {
        &self.name
    }

    fn among<'a>(members: Members<'a>) -> &'a [Self] {
        members.extensions
    }
}

/// The enums or the extensions of the file, which has these messages.
pub fn members_of<'a, T: Member>(
    alloc: Global,
    file: &'a FileDescriptorProto,
    messages: &[Spotted<&'a DescriptorProto>],
) -> Result<Vec<Spotted<&'a T>>, AllocError>
    ensures { IfOk result (λ v. messages_spotted messages.now
        ≡ spotted_messages (file_view file.now)
        → spotted_by T.view v.items ≡ spotted_in T.name_of T.inside (file_view file.now)) }
{
    let mut list = Vec::new(alloc);
    'messages: for message in messages {
        add_inside(alloc, message, &mut list)?;
    }
    let scope = package_scope(alloc, file)?;
    add_each(alloc, &scope, &[], T::among(of_file(file)), &mut list)?;
    Ok(list)
}

/// Adds those inside the message.
fn add_inside<'a, T: Member>(
    alloc: Global,
    message: &Spotted<&'a DescriptorProto>,
    list: &mut Vec<Spotted<&'a T>>,
) -> Result<(), AllocError>
    ensures { OnOk result (spotted_by T.view list.new.items ≡ spotted_by T.view list.old.items
        ++ spotted_inside T.name_of T.inside (messages_spotted (message.now ∷ []))) }
{
    let members = T::among(of_message(message.what));
    if members.is_empty() {
        return Ok(());
    }
    let path = path_to(alloc, &message.path, message.index)?;
    add_each(alloc, &message.name, &path, members, list)
}

/// Adds those of one scope.
fn add_each<'a, T: Member>(
    alloc: Global,
    scope: &str,
    path: &[usize],
    members: &'a [T],
    list: &mut Vec<Spotted<&'a T>>,
) -> Result<(), AllocError>
    ensures { OnOk result (spotted_by T.view list.new.items ≡ spotted_by T.view list.old.items
        ++ spotted_each T.name_of scope.now path.now 0 (map T.view members.now)) }
{
    for (index, what) in members.iter().enumerate() {
        list.push(Spotted {
            name: name_within(alloc, scope, what.name())?,
            path: copied(alloc, path)?,
            index,
            what,
        })?;
    }
    Ok(())
}
