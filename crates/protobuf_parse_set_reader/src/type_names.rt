//! The full names of messages and enums, by which the types of fields are known that don't say
//! them.

ghost use Rattle.std.specs.Prelude.{◌≡◌, ◌++◌, ◌∷◌, IfOk, OnOk, map, option_map, string_bytes};
ghost use Rattle.protobuf_parse_set_reader.specs.Answers.{Gives};
ghost use Rattle.protobuf_parse_set_reader.specs.Bodies.{Puts, body_view, type_name_view};
ghost use Rattle.protobuf_parse_set_reader.specs.Bodies.{types_view};
ghost use Rattle.protobuf_parse_set_reader.specs.TypeNames as spec;
ghost use Rattle.protobuf_parse_set_reader.specs.Values as values;

use crate::body::{Body, body_inside};
use crate::fault::{SetError, SetFaultKind, fault};
use crate::messages::MOST_LEVELS;
use crate::values::{needed_str, text};
use protobuf_parse_base::joins::join_at_dot;
use protobuf_parse_model::FieldType;
use std::alloc::{AllocError, Global};
use std::collections::BTreeMap;

/// What is declared by full names: messages and enums.
pub type TypeNames = BTreeMap<String, FieldType>;

/// A full name, and what is declared by it.
#[derive(Drop)]
pub struct TypeName {
    pub name: String,
    pub type_: FieldType,
}

/// What the files of a set declare.
pub fn types_of(alloc: Global, set: &Body<'_>) -> Result<TypeNames, SetError>
    ensures { Gives types_view result (spec.set_types (body_view set.now)) }
{
    let names = set_names(alloc, set)?;
    Ok(by_name(alloc, &names)?)
}

/// The same, of several with one name the first.
fn by_name(alloc: Global, names: &[TypeName]) -> Result<TypeNames, AllocError>
    ensures { IfOk result (λ types. types_view types
        ≡ spec.type_named (map type_name_view names.now)) }
{
    let mut types = BTreeMap::new(alloc);
    for each in names {
        put(alloc, &mut types, each)?;
    }
    Ok(types)
}

/// The name is declared, unless it is already.
fn put(alloc: Global, types: &mut TypeNames, name: &TypeName) -> Result<(), AllocError>
    ensures { OnOk result (Puts types.old types.new (type_name_view name.now)) }
{
    match types.get(name.name.as_str()) {
        Some(_first) => Ok(()),
        None => {
            types.insert(String::from_str(alloc, name.name.as_str())?, name.type_)?;
            Ok(())
        }
    }
}

fn set_names(alloc: Global, set: &Body<'_>) -> Result<Vec<TypeName>, SetError>
    ensures { Gives (λ v. map type_name_view v.items) result
        (spec.set_names (body_view set.now)) }
{
    let mut all = Vec::new(alloc);
    for record in &set.records {
        if record.number == 1 {
            let file = body_inside(alloc, *record)?;
            let mut names = file_names(alloc, &file)?;
            all.append(&mut names)?;
        }
    }
    Ok(all)
}

#[tactic(auto, unfolding(crate::specs::TypeNames::file_names))]
fn file_names(alloc: Global, file: &Body<'_>) -> Result<Vec<TypeName>, SetError>
    ensures { Gives (λ v. map type_name_view v.items) result
        (spec.file_names (body_view file.now)) }
{
    let package = text(alloc, file, 2)?;
    let scope = package_scope(alloc, &package)?;
    let mut names = messages_names(alloc, MOST_LEVELS, &scope, file, 4)?;
    let mut enums = enum_names(alloc, &scope, file, 5)?;
    names.append(&mut enums)?;
    Ok(names)
}

/// The scope of a file of that package.
fn package_scope(alloc: Global, said: &Option<String>) -> Result<String, AllocError>
    ensures { IfOk result (λ scope. string_bytes scope
        ≡ spec.package_scope (option_map string_bytes said.now)) }
{
    match said {
        Some(package) if !package.is_empty() => join_at_dot(alloc, "", package.as_str()),
        _ => Ok(String::new(alloc)),
    }
}

/// Of a message in that scope, with at most so many levels of messages, itself one.
#[cycle(message_names)]
#[tactic(auto, unfolding(crate::specs::TypeNames::message_names, crate::specs::TypeNames::names_around))]
fn message_names(
    alloc: Global,
    levels: u32,
    scope: &str,
    message: &Body<'_>,
) -> Result<Vec<TypeName>, SetError>
    ensures { Gives (λ v. map type_name_view v.items) result
        (spec.message_names levels scope.now (body_view message.now)) }
{
    if levels == 0 {
        return Err(fault(message.start, SetFaultKind::TooDeep));
    }
    let name = needed_str(message, 1, SetFaultKind::NoName)?;
    let full = join_at_dot(alloc, scope, name)?;
    let mut nested = messages_names(alloc, levels - 1, full.as_str(), message, 3)?;
    let mut enums = enum_names(alloc, full.as_str(), message, 4)?;
    let mut names = Vec::new(alloc);
    names.push(TypeName {
        name: full,
        type_: FieldType::Message,
    })?;
    names.append(&mut nested)?;
    names.append(&mut enums)?;
    Ok(names)
}

/// Of the messages of a repeated field, each with at most so many levels of messages.
#[cycle(message_names)]
fn messages_names(
    alloc: Global,
    levels: u32,
    scope: &str,
    body: &Body<'_>,
    number: u32,
) -> Result<Vec<TypeName>, SetError>
    ensures { Gives (λ v. map type_name_view v.items) result
        (values.all_of (values.part_in (spec.message_names levels scope.now))
        (values.numbered number (body_view body.now).records)) }
{
    let mut all = Vec::new(alloc);
    for record in &body.records {
        if record.number == number {
            let message = body_inside(alloc, *record)?;
            let mut names = message_names(alloc, levels, scope, &message)?;
            all.append(&mut names)?;
        }
    }
    Ok(all)
}

/// Of the enums of a repeated field.
fn enum_names(
    alloc: Global,
    scope: &str,
    body: &Body<'_>,
    number: u32,
) -> Result<Vec<TypeName>, SetError>
    ensures { Gives (λ v. map type_name_view v.items) result
        (values.parts (spec.enum_name scope.now) number (body_view body.now)) }
{
    let mut all = Vec::new(alloc);
    for record in &body.records {
        if record.number == number {
            let inside = body_inside(alloc, *record)?;
            let name = enum_name(alloc, scope, &inside)?;
            all.push(name)?;
        }
    }
    Ok(all)
}

#[tactic(auto, unfolding(crate::specs::TypeNames::enum_name))]
fn enum_name(alloc: Global, scope: &str, body: &Body<'_>) -> Result<TypeName, SetError>
    ensures { Gives type_name_view result (spec.enum_name scope.now (body_view body.now)) }
{
    let name = needed_str(body, 1, SetFaultKind::NoName)?;
    Ok(TypeName {
        name: join_at_dot(alloc, scope, name)?,
        type_: FieldType::Enum,
    })
}
