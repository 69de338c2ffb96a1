//! On what options stand, by their paths.

ghost use Rattle.std.specs.Prelude.{◌≡◌, IfOk, map};
ghost use Rattle.protobuf_parse_model.specs.Declarations as declarations;
ghost use Rattle.protobuf_parse_model.specs.Descriptors.{file_view, message_view};
ghost use Rattle.protobuf_parse_model.specs.SeenFiles.{name_texts};
ghost use Rattle.protobuf_parse_option_paths.specs.InnerViews.{inside_bearer, bearer_at};
ghost use Rattle.protobuf_parse_option_paths.specs.InnerViews.{bearer_of_found};
ghost use Rattle.protobuf_parse_option_paths.specs.Bearers as spec;
ghost use Rattle.protobuf_parse_option_paths.specs.Views.{bearer_seen};

use protobuf_parse_model::{Construct, DescriptorProto, FileDescriptorProto, scope_of_package};
use std::alloc::{AllocError, Global};

/// On what options stand, and from where the names of custom ones are looked up.
#[derive(Drop)]
pub struct OptionBearer<'a> {
    pub construct: Construct,
    /// The names of the package and of the messages around it, the outermost first.
    pub scope: Vec<&'a str>,
}

/// On what the options at the path stand, if the path is that of an options message in the
/// descriptor of the file. The options of a range of extensions are of no construct. The one error
/// is that memory is short.
pub fn option_bearer<'a>(
    alloc: Global,
    file: &'a FileDescriptorProto,
    path: &[u32],
) -> Result<Option<OptionBearer<'a>>, AllocError>
    ensures { IfOk result
        (λ p. bearer_seen p ≡ spec.bearer_of (file_view file.now) path.now) }
{
    let mut scope = package_of(alloc, file)?;
    match bearer_in(&mut scope, &file.message_type, path)? {
        Some(construct) => Ok(Some(OptionBearer { construct, scope })),
        None => Ok(None),
    }
}

/// The names of the file's package.
fn package_of(alloc: Global, file: &FileDescriptorProto) -> Result<Vec<&str>, AllocError>
    ensures { IfOk result (λ v. name_texts v.items
        ≡ declarations.scope_of_package (file_view file.now).«package») }
{
    match &file.package {
        Some(package) => scope_of_package(alloc, Some(package)),
        None => scope_of_package(alloc, None),
    }
}

/// In a file with these messages. The names of the messages around what has the options go to the
/// scope.
fn bearer_in<'a>(
    scope: &mut Vec<&'a str>,
    messages: &'a [DescriptorProto],
    path: &[u32],
) -> Result<Option<Construct>, AllocError>
    ensures { IfOk result (λ c. bearer_at scope.new.items c ≡ spec.bearer_in
        (name_texts scope.old.items) (map message_view messages.now) path.now) }
{
    let [field, inner @ ..] = path else {
        return Ok(None);
    };
    let [index, rest @ ..] = inner else {
        return Ok(if_options(8, Construct::File, path));
    };
    if *field == 4 {
        match messages.get(*index as usize) {
            Some(message) => message_bearer(rest, scope, message),
            None => Ok(None),
        }
    } else {
        Ok(file_part_bearer(*field, rest))
    }
}

/// In a message of the scope.
#[cycle(bearer)]
fn message_bearer<'a>(
    path: &[u32],
    scope: &mut Vec<&'a str>,
    message: &'a DescriptorProto,
) -> Result<Option<Construct>, AllocError>
    ensures { IfOk result (λ c. bearer_at scope.new.items c ≡ spec.message_bearer
        (name_texts scope.old.items) (message_view message.now) path.now) }
{
    let [field, inner @ ..] = path else {
        return Ok(None);
    };
    let [index, rest @ ..] = inner else {
        return Ok(if_options(7, Construct::Message, path));
    };
    scope.push(&message.name)?;
    inside_bearer(rest, scope, &message.nested_type, *field, *index)
}

/// In a message that is the scope and has these messages inside it, behind the number of a field
/// and an index.
#[cycle(bearer)]
fn inside_bearer<'a>(
    path: &[u32],
    scope: &mut Vec<&'a str>,
    nested: &'a [DescriptorProto],
    field: u32,
    index: u32,
) -> Result<Option<Construct>, AllocError>
    ensures { IfOk result (λ c. bearer_at scope.new.items c ≡ inside_bearer
        (name_texts scope.old.items) (map message_view nested.now) field index path.now) }
{
    if field != 3 {
        return Ok(part_bearer(field, path));
    }
    match nested.get(index as usize) {
        Some(message) => message_bearer(path, scope, message),
        None => Ok(None),
    }
}

/// The construct, if the path has this number alone.
fn if_options(number: u32, construct: Construct, path: &[u32]) -> Option<Construct>
    ensures { (scope : declarations.Scope)
        → bearer_of_found scope result ≡ spec.options_at number construct scope path.now }
{
    match path {
        [only] if *only == number => Some(construct),
        _ => None,
    }
}

/// In an enum.
fn enum_bearer(path: &[u32]) -> Option<Construct>
    ensures { (scope : declarations.Scope)
        → bearer_of_found scope result ≡ spec.enum_bearer scope path.now }
{
    match path {
        [field, _, rest @ ..] if *field == 2 => if_options(3, Construct::EnumValue, rest),
        _ => if_options(3, Construct::Enum, path),
    }
}

/// In a service.
fn service_bearer(path: &[u32]) -> Option<Construct>
    ensures { (scope : declarations.Scope)
        → bearer_of_found scope result ≡ spec.service_bearer scope path.now }
{
    match path {
        [field, _, rest @ ..] if *field == 2 => if_options(4, Construct::Method, rest),
        _ => if_options(3, Construct::Service, path),
    }
}

/// In a part of a message that is no message.
fn part_bearer(field: u32, path: &[u32]) -> Option<Construct>
    ensures { (scope : declarations.Scope)
        → bearer_of_found scope result ≡ spec.part_bearer scope field path.now }
{
    match field {
        2 | 6 => if_options(8, Construct::Field, path),
        8 => if_options(2, Construct::Oneof, path),
        4 => enum_bearer(path),
        _ => None,
    }
}

/// In a part of a file that is no message.
fn file_part_bearer(field: u32, path: &[u32]) -> Option<Construct>
    ensures { (scope : declarations.Scope)
        → bearer_of_found scope result ≡ spec.file_part_bearer scope field path.now }
{
    match field {
        5 => enum_bearer(path),
        6 => service_bearer(path),
        7 => if_options(8, Construct::Field, path),
        _ => None,
    }
}
