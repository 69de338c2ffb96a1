//! The walk over a tree.

use crate::outline::{Declared, DeclaredKind, Outline, Ranges, ReservedNames};
use protobuf_parse_model::{entry_name, group_field_name};
use protobuf_parse_syntax::{
    EnumStatement, Enumeration, Extend, Field, FieldNumberRange, FieldStatement, FileStatement,
    FileTree, Group, Message, MessageStatement, Method, OneOf, OneOfStatement, Place, Reserved,
    ReservedStatement, Service, ServiceStatement, Type,
};
use protobuf_parse_wire::name_within;
use std::alloc::{AllocError, Global};

/// Where a statement stands: the full name around it, and the number of the body.
#[derive(Clone, Copy)]
struct Scope<'s> {
    name: &'s str,
    body: usize,
}

/// Notes what the tree of a file has.
pub fn walk_file<'a>(
    alloc: Global,
    outline: &mut Outline<'a>,
    tree: &'a FileTree,
) -> Result<(), AllocError> {
    let name = match tree.package() {
        Some(package) => format!(in alloc; ".{package}")?,
        None => String::new(alloc),
    };
    let scope = next_scope(outline, &name);
    for statement in &tree.statements {
        walk_file_statement(alloc, outline, scope, statement)?;
    }
    Ok(())
}

fn walk_file_statement<'a>(
    alloc: Global,
    outline: &mut Outline<'a>,
    scope: Scope<'_>,
    statement: &'a FileStatement,
) -> Result<(), AllocError> {
    match statement {
        FileStatement::Import(_) | FileStatement::Package(_) | FileStatement::Option(_) => Ok(()),
        FileStatement::Message(message) => walk_message(alloc, outline, scope, message),
        FileStatement::Enumeration(each) => walk_enum(alloc, outline, scope, each),
        FileStatement::Extend(extend) => walk_extend(alloc, outline, scope, extend),
        FileStatement::Service(service) => walk_service(alloc, outline, scope, service),
    }
}

/// A body of its own, of what has this full name.
fn next_scope<'s>(outline: &mut Outline<'_>, name: &'s str) -> Scope<'s> {
    let body = outline.bodies;
    outline.bodies = body.saturating_add(1);
    Scope { name, body }
}

/// Notes a declaration, and answers nothing.
fn declare<'a>(
    alloc: Global,
    outline: &mut Outline<'a>,
    scope: Scope<'_>,
    kind: DeclaredKind,
    name: &str,
    place: Place,
) -> Result<(), AllocError> {
    declare_typed(alloc, outline, scope, kind, name, place, None)
}

fn declare_typed<'a>(
    alloc: Global,
    outline: &mut Outline<'a>,
    scope: Scope<'_>,
    kind: DeclaredKind,
    name: &str,
    place: Place,
    type_: Option<&'a Type>,
) -> Result<(), AllocError> {
    outline.declared.push(Declared {
        kind,
        full: name_within(alloc, scope.name, name)?,
        body: scope.body,
        place,
        type_,
    })?;
    Ok(())
}

fn note_ranges<'a>(
    alloc: Global,
    outline: &mut Outline<'a>,
    scope: Scope<'_>,
    ranges: &'a [FieldNumberRange],
    place: Place,
) -> Result<(), AllocError> {
    outline.ranges.push(Ranges {
        of: String::from_str(alloc, scope.name)?,
        ranges,
        place,
    })?;
    Ok(())
}

fn note_reserved<'a>(
    alloc: Global,
    outline: &mut Outline<'a>,
    scope: Scope<'_>,
    statement: &'a ReservedStatement,
) -> Result<(), AllocError> {
    let place = statement.place;
    match &statement.reserved {
        Reserved::Ranges(ranges) => note_ranges(alloc, outline, scope, ranges, place),
        Reserved::Names(names) => {
            outline.reserved.push(ReservedNames {
                of: String::from_str(alloc, scope.name)?,
                names,
                place,
            })?;
            Ok(())
        }
    }
}

#[cycle(messages)]
fn walk_message<'a>(
    alloc: Global,
    outline: &mut Outline<'a>,
    scope: Scope<'_>,
    message: &'a Message,
) -> Result<(), AllocError> {
    let kind = DeclaredKind::Message;
    declare(
        alloc,
        outline,
        scope,
        kind,
        message.name.as_str(),
        message.place,
    )?;
    let name = name_within(alloc, scope.name, message.name.as_str())?;
    let inside = next_scope(outline, &name);
    for statement in &message.body {
        walk_message_statement(alloc, outline, inside, statement)?;
    }
    Ok(())
}

#[cycle(messages)]
fn walk_message_statement<'a>(
    alloc: Global,
    outline: &mut Outline<'a>,
    scope: Scope<'_>,
    statement: &'a MessageStatement,
) -> Result<(), AllocError> {
    match statement {
        MessageStatement::Reserved(it) => note_reserved(alloc, outline, scope, it),
        MessageStatement::OneOf(oneof) => walk_oneof(alloc, outline, scope, oneof),
        MessageStatement::Extend(extend) => walk_extend(alloc, outline, scope, extend),
        MessageStatement::Message(message) => walk_message(alloc, outline, scope, message),
        MessageStatement::Enumeration(each) => walk_enum(alloc, outline, scope, each),
        MessageStatement::Extensions(it) => {
            note_ranges(alloc, outline, scope, &it.ranges, it.place)
        }
        MessageStatement::Option(_) => Ok(()),
        MessageStatement::Field(field) => {
            walk_field(alloc, outline, scope, DeclaredKind::Field, field)
        }
    }
}

fn walk_oneof<'a>(
    alloc: Global,
    outline: &mut Outline<'a>,
    scope: Scope<'_>,
    oneof: &'a OneOf,
) -> Result<(), AllocError> {
    let kind = DeclaredKind::Oneof;
    declare(
        alloc,
        outline,
        scope,
        kind,
        oneof.name.as_str(),
        oneof.place,
    )?;
    for statement in &oneof.body {
        if let OneOfStatement::Field(field) = statement {
            walk_field(alloc, outline, scope, DeclaredKind::Field, field)?;
        }
    }
    Ok(())
}

fn walk_extend<'a>(
    alloc: Global,
    outline: &mut Outline<'a>,
    scope: Scope<'_>,
    extend: &'a Extend,
) -> Result<(), AllocError> {
    outline.extends.push(extend.place)?;
    for field in &extend.fields {
        walk_field(alloc, outline, scope, DeclaredKind::Extension, field)?;
    }
    Ok(())
}

#[cycle(fields)]
fn walk_field<'a>(
    alloc: Global,
    outline: &mut Outline<'a>,
    scope: Scope<'_>,
    kind: DeclaredKind,
    field: &'a FieldStatement,
) -> Result<(), AllocError> {
    match field {
        FieldStatement::Field(field) => walk_normal_field(alloc, outline, scope, kind, field),
        FieldStatement::Group(group) => walk_group(alloc, outline, scope, kind, group),
    }
}

fn walk_normal_field<'a>(
    alloc: Global,
    outline: &mut Outline<'a>,
    scope: Scope<'_>,
    kind: DeclaredKind,
    field: &'a Field,
) -> Result<(), AllocError> {
    let name = field.name.as_str();
    declare_typed(
        alloc,
        outline,
        scope,
        kind,
        name,
        field.place,
        Some(&field.type_),
    )?;
    match &field.type_ {
        Type::Scalar(_) | Type::Named(_) => Ok(()),
        Type::Map(_, _) => walk_map(alloc, outline, scope, name, field.place),
    }
}

/// The message behind a map, and its two fields.
fn walk_map(
    alloc: Global,
    outline: &mut Outline<'_>,
    scope: Scope<'_>,
    name: &str,
    place: Place,
) -> Result<(), AllocError> {
    let entry = entry_name(alloc, name)?;
    declare(alloc, outline, scope, DeclaredKind::Message, &entry, place)?;
    let name = name_within(alloc, scope.name, &entry)?;
    let inside = next_scope(outline, &name);
    declare(alloc, outline, inside, DeclaredKind::Field, "key", place)?;
    declare(alloc, outline, inside, DeclaredKind::Field, "value", place)
}

/// A group is a message and a field.
#[cycle(fields)]
fn walk_group<'a>(
    alloc: Global,
    outline: &mut Outline<'a>,
    scope: Scope<'_>,
    kind: DeclaredKind,
    group: &'a Group,
) -> Result<(), AllocError> {
    let name = group.name.as_str();
    let field = group_field_name(alloc, name)?;
    declare(alloc, outline, scope, kind, &field, group.place)?;
    declare(
        alloc,
        outline,
        scope,
        DeclaredKind::Message,
        name,
        group.place,
    )?;
    let name = name_within(alloc, scope.name, name)?;
    let inside = next_scope(outline, &name);
    for field in &group.fields {
        walk_field(alloc, outline, inside, DeclaredKind::Field, field)?;
    }
    Ok(())
}

fn walk_enum<'a>(
    alloc: Global,
    outline: &mut Outline<'a>,
    scope: Scope<'_>,
    each: &'a Enumeration,
) -> Result<(), AllocError> {
    declare(
        alloc,
        outline,
        scope,
        DeclaredKind::Enum,
        each.name.as_str(),
        each.place,
    )?;
    let values = next_scope(outline, scope.name);
    let name = name_within(alloc, scope.name, each.name.as_str())?;
    for statement in &each.body {
        match statement {
            EnumStatement::Reserved(it) => {
                let inside = Scope {
                    name: &name,
                    body: values.body,
                };
                note_reserved(alloc, outline, inside, it)?;
            }
            EnumStatement::Option(_) => {}
            EnumStatement::Value(value) => {
                let kind = DeclaredKind::EnumValue;
                declare(
                    alloc,
                    outline,
                    values,
                    kind,
                    value.name.as_str(),
                    value.place,
                )?;
            }
        }
    }
    Ok(())
}

fn walk_service<'a>(
    alloc: Global,
    outline: &mut Outline<'a>,
    scope: Scope<'_>,
    service: &'a Service,
) -> Result<(), AllocError> {
    let kind = DeclaredKind::Service;
    declare(
        alloc,
        outline,
        scope,
        kind,
        service.name.as_str(),
        service.place,
    )?;
    let name = name_within(alloc, scope.name, service.name.as_str())?;
    let inside = next_scope(outline, &name);
    for statement in &service.body {
        if let ServiceStatement::Method(method) = statement {
            let kind = DeclaredKind::Method;
            let name = method.name.as_str();
            declare(alloc, outline, inside, kind, name, method.place)?;
        }
    }
    Ok(())
}
