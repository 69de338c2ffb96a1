//! Descriptors for the tests.

use protobuf_parse_index::{empty_field, empty_file, empty_message};
use protobuf_parse_model::{
    DescriptorProto, FieldDescriptorProto, FieldType, FileDescriptorProto, Label,
};
use std::alloc::{AllocError, Global};

/// An extension of the message.
fn extension(
    alloc: Global,
    extendee: &str,
    name: &str,
    number: i32,
) -> Result<FieldDescriptorProto, AllocError> {
    let mut field = empty_field(alloc, name, number, FieldType::Int32)?;
    field.extendee = Some(String::from_str(alloc, extendee)?);
    Ok(field)
}

/// The field, which holds `Owner`.
fn of_owner(
    alloc: Global,
    field: FieldDescriptorProto,
) -> Result<FieldDescriptorProto, AllocError> {
    let mut field = field;
    field.type_ = FieldType::Message;
    field.type_name = Some(String::from_str(alloc, ".rules.Owner")?);
    Ok(field)
}

fn repeated(field: FieldDescriptorProto) -> FieldDescriptorProto {
    let mut field = field;
    field.label = Label::Repeated;
    field
}

fn owner(alloc: Global) -> Result<DescriptorProto, AllocError> {
    let mut owner = empty_message(alloc, "Owner")?;
    owner
        .field
        .push(empty_field(alloc, "name", 1, FieldType::String)?)?;
    let teams = empty_field(alloc, "teams", 2, FieldType::String)?;
    owner.field.push(repeated(teams))?;
    let parent = empty_field(alloc, "parent", 3, FieldType::Message)?;
    owner.field.push(of_owner(alloc, parent)?)?;
    let tag = extension(alloc, ".google.protobuf.FieldOptions", "tag", 50002)?;
    owner.extension.push(tag)?;
    Ok(owner)
}

/// `rules.proto`, with options of each construct.
fn rules(alloc: Global) -> Result<FileDescriptorProto, AllocError> {
    let mut file = empty_file(alloc, "rules.proto")?;
    file.package = Some(String::from_str(alloc, "rules")?);
    file.message_type.push(owner(alloc)?)?;
    let rows = [
        ("FileOptions", "codes", 50001, true, false),
        ("MessageOptions", "owner", 50000, false, true),
        ("MessageOptions", "marks", 50003, true, false),
        ("OneofOptions", "one", 50004, false, false),
        ("EnumOptions", "enumeration", 50005, false, true),
        ("EnumValueOptions", "values", 50006, true, false),
        ("ServiceOptions", "service", 50007, false, false),
        ("MethodOptions", "method", 50008, false, true),
    ];
    for (message, name, number, is_repeated, is_owner) in &rows {
        let extendee = format!(in alloc; ".google.protobuf.{message}")?;
        let mut field = extension(alloc, &extendee, name, *number)?;
        if *is_repeated {
            field = repeated(field);
        }
        if *is_owner {
            field = of_owner(alloc, field)?;
        }
        file.extension.push(field)?;
    }
    let level = extension(alloc, ".rules.Owner", "level", 100)?;
    file.extension.push(level)?;
    Ok(file)
}

/// `rules.proto`, and a file with the message `Item` and `Inner` in it.
pub fn files_of_shop(alloc: Global) -> Result<Vec<FileDescriptorProto>, AllocError> {
    let mut file = empty_file(alloc, "shop.proto")?;
    file.package = Some(String::from_str(alloc, "rules.shop")?);
    let mut item = empty_message(alloc, "Item")?;
    item.nested_type.push(empty_message(alloc, "Inner")?)?;
    file.message_type.push(item)?;
    let mut files = Vec::new(alloc);
    files.push(rules(alloc)?)?;
    files.push(file)?;
    Ok(files)
}

/// A file of the package `a` with the extension `x`, and one of that name in the message `M`.
pub fn two_levels(alloc: Global) -> Result<Vec<FileDescriptorProto>, AllocError> {
    let mut file = empty_file(alloc, "a.proto")?;
    file.package = Some(String::from_str(alloc, "a")?);
    let options = ".google.protobuf.MessageOptions";
    let mut message = empty_message(alloc, "M")?;
    let inner = extension(alloc, options, "x", 2)?;
    message.extension.push(repeated(inner))?;
    file.message_type.push(message)?;
    file.extension.push(extension(alloc, options, "x", 1)?)?;
    let mut files = Vec::new(alloc);
    files.push(file)?;
    Ok(files)
}

/// A file that imports these, of which those at the positions publicly.
pub fn importing(
    alloc: Global,
    path: &str,
    imports: &[&str],
    public: &[i32],
) -> Result<FileDescriptorProto, AllocError> {
    let mut file = empty_file(alloc, path)?;
    for import in imports {
        file.dependency.push(String::from_str(alloc, import)?)?;
    }
    file.public_dependency.extend_from_slice(public)?;
    Ok(file)
}
