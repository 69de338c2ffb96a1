//! Messages.

ghost use Rattle.std.specs.Prelude.{◌≡◌, [], ◌∷◌, ◌++◌, ◌<◌, ◌≤◌, ◌^◌, length, map, flat_map};
ghost use Rattle.std.specs.Prelude.{sum_by, IfOk, OnOk};
ghost use Rattle.protobuf_parse_syntax.specs.Counts.{in_message, message_statement_count};
ghost use Rattle.protobuf_parse_syntax.specs.Trees.{message_syntax};
ghost use Rattle.protobuf_parse_syntax.specs.InnerViews.{message_statement_syntax};
ghost use Rattle.protobuf_parse_syntax.specs.Trees.{nested_message};
ghost use Rattle.protobuf_parse_model.specs.SeenFiles.{name_texts};
ghost use Rattle.protobuf_parse_model.specs.Declarations as names;
ghost use Rattle.protobuf_parse_model.specs.Descriptors as described;
ghost use Rattle.protobuf_parse_model.specs.Environment.{env_inside};
ghost use Rattle.protobuf_parse_elaboration.specs.Parts as contexts;
ghost use Rattle.protobuf_parse_elaboration.specs.Parts.{body_view, with_body_statement};
ghost use Rattle.protobuf_parse_elaboration.specs.Messages as messages;
ghost use Rattle.protobuf_parse_elaboration.specs.Viewpoints.{seen_from};
ghost use Rattle.protobuf_parse_elaboration.specs.Telling.{Tells};

use crate::constructs::body::{Body, add_enum, add_extend, add_field, add_oneof};
use crate::constructs::declared::DeclaredAs;
use crate::constructs::rest::rest_of_message;
use crate::constructs::told::tell_names;
use crate::constructs::viewpoint::Viewpoint;
use protobuf_parse_base::Name;
use protobuf_parse_model::{Context, CustomOptions, DescriptorProto, ElabError};
use protobuf_parse_syntax::{Message, MessageStatement};
use std::alloc::{AllocError, Global};

/// The descriptor of a message, with all that stands inside it.
///
/// E1 where two fields, oneofs, extensions, enums or messages of one body have one name, E7 where a
/// range ends at the largest number, and the faults of what stands in it.
#[cycle(message)]
pub fn message_descriptor<C: CustomOptions>(
    at: &Viewpoint<'_, '_, C>,
    faults: &mut Vec<ElabError>,
    message: &Message,
) -> Result<DescriptorProto, AllocError>
    requires few { in_message (message_syntax message.now) ≤ 2147483647 }
    ensures value { let env = seen_from C.customs at.now in
        IfOk result (λ d. described.message_view d ∷ []
        ≡ messages.nested_of env (nested_message (message_syntax message.now))) }
    ensures faults { let env = seen_from C.customs at.now in
        Tells result faults.old faults.new
        (messages.statement_faults env (nested_message (message_syntax message.now))) }
{
    message_of_body(at, faults, &message.name, &message.body)
}

/// The descriptor of the message of that name and body.
#[cycle(message)]
fn message_of_body<C: CustomOptions>(
    at: &Viewpoint<'_, '_, C>,
    faults: &mut Vec<ElabError>,
    name: &str,
    body: &[MessageStatement],
) -> Result<DescriptorProto, AllocError>
    requires few { sum_by message_statement_count (map message_statement_syntax body.now)
        ≤ 2147483647 }
    ensures value { let env = seen_from C.customs at.now in
        let ss = map message_statement_syntax body.now in
        let nested = flat_map (messages.nested_of (env_inside env name.now)) ss in
        IfOk result
        (λ d. described.message_view d ≡ messages.message_from env name.now ss nested) }
    ensures faults { let env = seen_from C.customs at.now in
        let ss = map message_statement_syntax body.now in
        Tells result faults.old faults.new
        (flat_map (messages.statement_faults (env_inside env name.now)) ss
        ++ messages.whole_faults env name.now ss) }
{
    let parts = body_inside(at, faults, name, body)?;
    finished(at, faults, name, body, parts)
}

/// The message of that name, body and parts. What is wrong in its names, ranges and options is
/// told.
fn finished<C: CustomOptions>(
    at: &Viewpoint<'_, '_, C>,
    faults: &mut Vec<ElabError>,
    name: &str,
    body: &[MessageStatement],
    parts: Body,
) -> Result<DescriptorProto, AllocError>
    requires { let env = seen_from C.customs at.now in
        body_view parts
        ≡ contexts.body_of (env_inside env name.now) (map message_statement_syntax body.now) }
    ensures value { let env = seen_from C.customs at.now in
        let ss = map message_statement_syntax body.now in
        IfOk result (λ d. described.message_view d ≡ contexts.message_of_both name.now
        (body_view parts) (contexts.rest_of env ss)) }
    ensures faults { let env = seen_from C.customs at.now in
        Tells result faults.old faults.new
        (messages.whole_faults env name.now (map message_statement_syntax body.now)) }
{
    tell_body_names(at, faults, name, body, &parts)?;
    let copy = Name::new(at.alloc, name)?;
    let rest = rest_of_message(at, faults, name, body)?;
    Ok(parts.into_message(copy, rest))
}

/// E1 where two of a kind have one name inside the message of that name.
fn tell_body_names<C: CustomOptions>(
    at: &Viewpoint<'_, '_, C>,
    faults: &mut Vec<ElabError>,
    name: &str,
    statements: &[MessageStatement],
    body: &Body,
) -> Result<(), AllocError>
    requires { let env = seen_from C.customs at.now in
        body_view body.now
        ≡ contexts.body_of (env_inside env name.now) (map message_statement_syntax statements.now) }
    ensures { let env = seen_from C.customs at.now in
        Tells result faults.old faults.new
        (messages.body_duplicates env.syntax (map message_statement_syntax statements.now)) }
{
    let alloc = at.alloc;
    let syntax = at.context.syntax;
    tell_names(
        alloc,
        faults,
        DeclaredAs::Field,
        syntax,
        statements,
        &body.field,
    )?;
    tell_names(
        alloc,
        faults,
        DeclaredAs::Oneof,
        syntax,
        statements,
        &body.oneof_decl,
    )?;
    tell_names(
        alloc,
        faults,
        DeclaredAs::Extension,
        syntax,
        statements,
        &body.extension,
    )?;
    tell_names(
        alloc,
        faults,
        DeclaredAs::Enum,
        syntax,
        statements,
        &body.enum_type,
    )?;
    tell_names(
        alloc,
        faults,
        DeclaredAs::Message,
        syntax,
        statements,
        &body.nested_type,
    )
}

/// The scope inside the message of that name.
fn scope_inside<'a>(
    alloc: Global,
    scope: &[&'a str],
    name: &'a str,
) -> Result<Vec<&'a str>, AllocError>
    ensures { IfOk result (λ v. name_texts v.items ≡ names.inside (name_texts scope.now) name.now) }
{
    let mut inner = Vec::with_capacity(alloc, scope.len() + 1)?;
    inner.extend_from_slice(scope)?;
    inner.push(name)?;
    Ok(inner)
}

/// What the statements inside the message of that name declare.
#[cycle(message)]
fn body_inside<C: CustomOptions>(
    at: &Viewpoint<'_, '_, C>,
    faults: &mut Vec<ElabError>,
    name: &str,
    body: &[MessageStatement],
) -> Result<Body, AllocError>
    requires few { sum_by message_statement_count (map message_statement_syntax body.now)
        ≤ 2147483647 }
    ensures value { let env = seen_from C.customs at.now in
        let ss = map message_statement_syntax body.now in
        IfOk result (λ b. body_view b ≡ contexts.body_of (env_inside env name.now) ss) }
    ensures faults { let env = seen_from C.customs at.now in
        let ss = map message_statement_syntax body.now in
        Tells result faults.old faults.new
        (flat_map (messages.statement_faults (env_inside env name.now)) ss) }
{
    let scope = scope_inside(at.alloc, at.context.scope, name)?;
    let inner = Viewpoint {
        alloc: at.alloc,
        context: Context {
            syntax: at.context.syntax,
            seen: at.context.seen,
            scope: &scope,
        },
        custom: at.custom,
    };
    body_of(&inner, faults, body)
}

/// What the statements of a body declare, seen from there.
#[cycle(message)]
fn body_of<C: CustomOptions>(
    at: &Viewpoint<'_, '_, C>,
    faults: &mut Vec<ElabError>,
    statements: &[MessageStatement],
) -> Result<Body, AllocError>
    requires few { sum_by message_statement_count (map message_statement_syntax statements.now)
        ≤ 2147483647 }
    ensures value { let env = seen_from C.customs at.now in
        IfOk result (λ b. body_view b
        ≡ contexts.body_of env (map message_statement_syntax statements.now)) }
    ensures faults { let env = seen_from C.customs at.now in
        Tells result faults.old faults.new
        (flat_map (messages.statement_faults env) (map message_statement_syntax statements.now)) }
{
    let mut body = Body {
        field: Vec::with_capacity(at.alloc, statements.len())?,
        oneof_decl: Vec::new(at.alloc),
        nested_type: Vec::new(at.alloc),
        enum_type: Vec::new(at.alloc),
        extension: Vec::new(at.alloc),
    };
    for statement in statements {
        add_statement(at, faults, &mut body, statement)?;
    }
    Ok(body)
}

/// Adds what a statement declares.
#[cycle(message)]
fn add_statement<C: CustomOptions>(
    at: &Viewpoint<'_, '_, C>,
    faults: &mut Vec<ElabError>,
    body: &mut Body,
    statement: &MessageStatement,
) -> Result<(), AllocError>
    requires room { length body.old.oneof_decl.items < 2 ^ 31 }
    requires few { message_statement_count (message_statement_syntax statement.now) ≤ 2147483647 }
    ensures value { let env = seen_from C.customs at.now in
        let s = message_statement_syntax statement.now in
        OnOk result (body_view body.new ≡ with_body_statement env (body_view body.old) s) }
    ensures faults { let env = seen_from C.customs at.now in
        Tells result faults.old faults.new
        (messages.statement_faults env (message_statement_syntax statement.now)) }
{
    match statement {
        MessageStatement::Field(field) => add_field(at, faults, body, field),
        MessageStatement::OneOf(oneof) => add_oneof(at, faults, body, oneof),
        MessageStatement::Extend(extend) => add_extend(at, faults, body, extend),
        MessageStatement::Message(message) => add_message(at, faults, body, message),
        MessageStatement::Enumeration(inner) => add_enum(at, faults, body, inner),
        MessageStatement::Reserved(_)
        | MessageStatement::Extensions(_)
        | MessageStatement::Option(_) => Ok(()),
    }
}

/// Adds a message inside this one.
#[cycle(message)]
fn add_message<C: CustomOptions>(
    at: &Viewpoint<'_, '_, C>,
    faults: &mut Vec<ElabError>,
    body: &mut Body,
    message: &Message,
) -> Result<(), AllocError>
    requires few { in_message (message_syntax message.now) ≤ 2147483647 }
    ensures value { let env = seen_from C.customs at.now in
        let s = nested_message (message_syntax message.now) in
        OnOk result (body_view body.new ≡ with_body_statement env (body_view body.old) s) }
    ensures faults { let env = seen_from C.customs at.now in
        Tells result faults.old faults.new
        (messages.statement_faults env (nested_message (message_syntax message.now))) }
{
    let nested = message_descriptor(at, faults, message)?;
    body.nested_type.push(nested)?;
    Ok(())
}
