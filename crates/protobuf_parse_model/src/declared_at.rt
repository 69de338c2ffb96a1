//! What a file declares, by full name, in the order of its text.

ghost use Rattle.std.specs.Prelude.{◌≡◌, ◌&&◌, ◌++◌, ◌∷◌, [], map, flat_map, IfOk, OnOk};
ghost use Rattle.std.specs.BTreeMap.{get_by_text};
ghost use Rattle.std.specs.Prelude.{List, ℕ, bytes_eq, string_bytes};
ghost use Rattle.protobuf_parse_model.specs.Descriptors.{Text};
ghost use Rattle.protobuf_parse_syntax.specs.Trees as tree;
ghost use Rattle.protobuf_parse_syntax.specs.Trees.{extend_syntax, field_statement_syntax};
ghost use Rattle.protobuf_parse_syntax.specs.Trees.{field_syntax, file_syntax};
ghost use Rattle.protobuf_parse_syntax.specs.Trees.{message_syntax};
ghost use Rattle.protobuf_parse_syntax.specs.InnerViews.{message_statement_syntax};
ghost use Rattle.protobuf_parse_syntax.specs.Trees.{nested_message, oneof_statement_syntax};
ghost use Rattle.protobuf_parse_syntax.specs.Trees.{oneof_syntax, statement_syntax};
ghost use Rattle.protobuf_parse_model.specs.DeclaredAt.{behind_at, body_at, declare_at};
ghost use Rattle.protobuf_parse_model.specs.DeclaredAt.{extend_at, file_at};
ghost use Rattle.protobuf_parse_model.specs.DeclaredAtViews.{declared_at_view};
ghost use Rattle.protobuf_parse_model.specs.DeclaredAt.{oneof_at, statement_at};
ghost use Rattle.protobuf_parse_model.specs.LastDeclared as spec;
ghost use Rattle.protobuf_parse_model.specs.SeenFiles.{name_texts};
ghost use Rattle.protobuf_parse_model.specs.Tables.{is_of};

use crate::linking::is_of;
use crate::made_names::{entry_name, group_field_name};
use crate::scope::{DeclarationKind, file_scope, full_name};
use protobuf_parse_lexer::Place;
use protobuf_parse_syntax::{
    Extend, Field, FieldStatement, FileStatement, FileTree, Message, MessageStatement, OneOf,
    OneOfStatement, Type,
};
use std::alloc::{AllocError, Global};
use std::collections::BTreeMap;

/// Something that a file declares.
#[derive(Drop)]
pub struct DeclaredAt {
    /// The full name, with its first dot.
    pub name: String,
    pub kind: DeclarationKind,
    /// Where it begins; what stands behind a map or a group, where that begins.
    pub place: Place,
}

/// Where the last declaration in the file of this full name begins, which has its first dot: of an
/// extension, or else of a message or an enum, those behind maps and groups with them. The one
/// error is that memory is short.
pub fn last_declared(
    alloc: Global,
    tree: &FileTree,
    name: &str,
    extension: bool,
) -> Result<Option<Place>, AllocError>
    ensures { IfOk result
        (λ place. place ≡ spec.last_declared extension name.now (file_syntax tree.now)) }
{
    let mut found = None;
    for declared in declared_in_order(alloc, tree)? {
        if is_meant(&declared, name, extension) {
            found = Some(declared.place);
        }
    }
    Ok(found)
}

/// Where the last declaration in the file of each full name begins: of extensions, or else of
/// messages and enums, as [`last_declared`] says of one name. The one error is that memory is
/// short.
pub fn last_places(
    alloc: Global,
    tree: &FileTree,
    extension: bool,
) -> Result<BTreeMap<String, Place>, AllocError>
    ensures { IfOk result (λ places. (name : Text)
        → get_by_text places name ≡ spec.last_declared extension name (file_syntax tree.now)) }
{
    let mut places = BTreeMap::new(alloc);
    for declared in declared_in_order(alloc, tree)? {
        if is_of(declared.kind, extension) {
            places.insert(declared.name, declared.place)?;
        }
    }
    Ok(places)
}

/// Whether this has the full name, and is an extension or else a type.
fn is_meant(declared: &DeclaredAt, name: &str, extension: bool) -> bool
    ensures { result ≡ (is_of extension declared.now.kind
        && bytes_eq (string_bytes declared.now.name) name.now) }
{
    is_of(declared.kind, extension) && declared.name.as_str() == name
}

/// The messages, enums and extensions that a file declares and the messages behind its maps and
/// groups, in the order of its text. The one error is that memory is short.
pub fn declared_in_order(alloc: Global, tree: &FileTree) -> Result<Vec<DeclaredAt>, AllocError>
    ensures { IfOk result (λ v. map declared_at_view v.items ≡ file_at (file_syntax tree.now)) }
{
    let mut list = Vec::new(alloc);
    let mut scope = file_scope(alloc, tree)?;
    for statement in &tree.statements {
        add_statement(&mut list, alloc, &mut scope, statement)?;
    }
    Ok(list)
}

/// Adds what a statement of a file declares.
fn add_statement<'a>(
    list: &mut Vec<DeclaredAt>,
    alloc: Global,
    scope: &mut Vec<&'a str>,
    statement: &'a FileStatement,
) -> Result<(), AllocError>
    ensures scope { OnOk result (name_texts scope.new.items ≡ name_texts scope.old.items) }
    ensures adds { OnOk result (map declared_at_view list.new.items
        ≡ map declared_at_view list.old.items
        ++ statement_at (name_texts scope.old.items) (statement_syntax statement.now)) }
{
    match statement {
        FileStatement::Message(message) => add_message(list, alloc, scope, message),
        FileStatement::Enumeration(inner) => {
            add(
                list,
                alloc,
                scope,
                &inner.name,
                DeclarationKind::Enum,
                inner.place,
            )
        }
        FileStatement::Extend(extend) => add_extend(list, alloc, scope, extend),
        FileStatement::Import(_)
        | FileStatement::Package(_)
        | FileStatement::Option(_)
        | FileStatement::Service(_) => Ok(()),
    }
}

/// Adds a message of the scope, and what it declares.
#[cycle(body)]
fn add_message<'a>(
    list: &mut Vec<DeclaredAt>,
    alloc: Global,
    scope: &mut Vec<&'a str>,
    message: &'a Message,
) -> Result<(), AllocError>
    ensures scope { OnOk result (name_texts scope.new.items ≡ name_texts scope.old.items) }
    ensures adds { OnOk result (map declared_at_view list.new.items
        ≡ map declared_at_view list.old.items
        ++ body_at (name_texts scope.old.items) (nested_message (message_syntax message.now))) }
{
    add(
        list,
        alloc,
        scope,
        &message.name,
        DeclarationKind::Message,
        message.place,
    )?;
    scope.push(&message.name)?;
    for statement in &message.body {
        add_body_statement(list, alloc, scope, statement)?;
    }
    scope.pop();
    Ok(())
}

/// Adds what a statement inside the message that ends the scope declares.
#[cycle(body)]
fn add_body_statement<'a>(
    list: &mut Vec<DeclaredAt>,
    alloc: Global,
    scope: &mut Vec<&'a str>,
    statement: &'a MessageStatement,
) -> Result<(), AllocError>
    ensures scope { OnOk result (name_texts scope.new.items ≡ name_texts scope.old.items) }
    ensures adds { OnOk result (map declared_at_view list.new.items
        ≡ map declared_at_view list.old.items
        ++ body_at (name_texts scope.old.items) (message_statement_syntax statement.now)) }
{
    match statement {
        MessageStatement::Message(message) => add_message(list, alloc, scope, message),
        MessageStatement::Enumeration(inner) => {
            add(
                list,
                alloc,
                scope,
                &inner.name,
                DeclarationKind::Enum,
                inner.place,
            )
        }
        MessageStatement::Field(field) => add_behind(list, alloc, scope, field),
        MessageStatement::OneOf(oneof) => add_oneof(list, alloc, scope, oneof),
        MessageStatement::Extend(extend) => add_extend(list, alloc, scope, extend),
        MessageStatement::Reserved(_)
        | MessageStatement::Extensions(_)
        | MessageStatement::Option(_) => Ok(()),
    }
}

/// Adds what stands behind the fields of a oneof.
fn add_oneof(
    list: &mut Vec<DeclaredAt>,
    alloc: Global,
    scope: &[&str],
    oneof: &OneOf,
) -> Result<(), AllocError>
    ensures { OnOk result (map declared_at_view list.new.items
        ≡ map declared_at_view list.old.items
        ++ flat_map (oneof_at (name_texts scope.now)) (oneof_syntax oneof.now).body) }
{
    for statement in &oneof.body {
        add_oneof_statement(list, alloc, scope, statement)?;
    }
    Ok(())
}

/// Adds what stands behind a statement of a oneof.
fn add_oneof_statement(
    list: &mut Vec<DeclaredAt>,
    alloc: Global,
    scope: &[&str],
    statement: &OneOfStatement,
) -> Result<(), AllocError>
    ensures { OnOk result (map declared_at_view list.new.items
        ≡ map declared_at_view list.old.items
        ++ oneof_at (name_texts scope.now) (oneof_statement_syntax statement.now)) }
{
    match statement {
        OneOfStatement::Field(field) => add_behind(list, alloc, scope, field),
        OneOfStatement::Option(_) => Ok(()),
    }
}

/// Adds the extensions of an `extend`, and what stands behind its groups.
fn add_extend(
    list: &mut Vec<DeclaredAt>,
    alloc: Global,
    scope: &[&str],
    extend: &Extend,
) -> Result<(), AllocError>
    ensures { OnOk result (map declared_at_view list.new.items
        ≡ map declared_at_view list.old.items
        ++ flat_map (extend_at (name_texts scope.now)) (extend_syntax extend.now).fields) }
{
    for statement in &extend.fields {
        add_extension(list, alloc, scope, statement)?;
    }
    Ok(())
}

/// Adds an extension, behind its message where it is a group.
fn add_extension(
    list: &mut Vec<DeclaredAt>,
    alloc: Global,
    scope: &[&str],
    statement: &FieldStatement,
) -> Result<(), AllocError>
    ensures { OnOk result (map declared_at_view list.new.items
        ≡ map declared_at_view list.old.items
        ++ extend_at (name_texts scope.now) (field_statement_syntax statement.now)) }
{
    match statement {
        FieldStatement::Field(field) => {
            add(
                list,
                alloc,
                scope,
                &field.name,
                DeclarationKind::Extension,
                field.place,
            )
        }
        FieldStatement::Group(group) => {
            let kind = DeclarationKind::Generated;
            add(list, alloc, scope, &group.name, kind, group.place)?;
            let name = group_field_name(alloc, &group.name)?;
            add(
                list,
                alloc,
                scope,
                &name,
                DeclarationKind::Extension,
                group.place,
            )
        }
    }
}

/// Adds the message behind a statement that declares a field, if one stands there.
fn add_behind(
    list: &mut Vec<DeclaredAt>,
    alloc: Global,
    scope: &[&str],
    statement: &FieldStatement,
) -> Result<(), AllocError>
    ensures { OnOk result (map declared_at_view list.new.items
        ≡ map declared_at_view list.old.items
        ++ behind_at (name_texts scope.now) (field_statement_syntax statement.now)) }
{
    match statement {
        FieldStatement::Field(field) => add_entry(list, alloc, scope, field),
        FieldStatement::Group(group) => {
            add(
                list,
                alloc,
                scope,
                &group.name,
                DeclarationKind::Generated,
                group.place,
            )
        }
    }
}

/// Adds the message of a map's entries, where the field is a map.
fn add_entry(
    list: &mut Vec<DeclaredAt>,
    alloc: Global,
    scope: &[&str],
    field: &Field,
) -> Result<(), AllocError>
    ensures { OnOk result (map declared_at_view list.new.items
        ≡ map declared_at_view list.old.items
        ++ behind_at (name_texts scope.now) (tree.field (field_syntax field.now))) }
{
    match &field.type_ {
        Type::Map(_, _) => {
            let name = entry_name(alloc, &field.name)?;
            add(
                list,
                alloc,
                scope,
                &name,
                DeclarationKind::Generated,
                field.place,
            )
        }
        Type::Scalar(_) | Type::Named(_) => Ok(()),
    }
}

/// Adds what has that name in the scope.
fn add(
    list: &mut Vec<DeclaredAt>,
    alloc: Global,
    scope: &[&str],
    name: &str,
    kind: DeclarationKind,
    place: Place,
) -> Result<(), AllocError>
    ensures { OnOk result (map declared_at_view list.new.items
        ≡ map declared_at_view list.old.items
        ++ declare_at (name_texts scope.now) name.now kind place ∷ []) }
{
    let name = full_name(alloc, scope, name)?;
    list.push(DeclaredAt { name, kind, place })?;
    Ok(())
}
