//! What statements declare, and where.

ghost use Rattle.std.specs.Prelude.{◌≡◌, [], ◌∷◌, ◌++◌, List, flat_map, map, IfOk, OnOk};
ghost use Rattle.protobuf_parse_syntax.specs.Trees as tree;
ghost use Rattle.protobuf_parse_syntax.specs.InnerViews.{message_statement_syntax};
ghost use Rattle.protobuf_parse_syntax.specs.declared.tree.Syntax.{Syntax};
ghost use Rattle.protobuf_parse_model.specs.Duplicates.{NamedAt};
ghost use Rattle.protobuf_parse_model.specs.Statements.{groups, oneof_fields};
ghost use Rattle.protobuf_parse_elaboration.specs.declared.constructs.declared.DeclaredAs.{DeclaredAs};
ghost use Rattle.protobuf_parse_elaboration.specs.Declaring.{named_by, named_by_file};
ghost use Rattle.protobuf_parse_elaboration.specs.Enums.{enum_values, value_named};
ghost use Rattle.protobuf_parse_elaboration.specs.Fields.{field_named};
ghost use Rattle.protobuf_parse_elaboration.specs.Messages as messages;
ghost use Rattle.protobuf_parse_elaboration.specs.Services.{method_named};

use crate::constructs::oneof::has_own_oneof;
use protobuf_parse_lexer::Place;
use protobuf_parse_syntax::{
    EnumStatement, Enumeration, Extend, FieldStatement, FileStatement, Message, MessageStatement,
    Method, OneOf, OneOfStatement, Service, Syntax, Type,
};
use std::alloc::{AllocError, Global};

/// As what something is declared. Names of one kind differ in one scope.
#[derive(Clone, Copy)]
pub enum DeclaredAs {
    Field,
    Oneof,
    Extension,
    Enum,
    Message,
    /// A service, a method of a service, or a value of an enum.
    Other,
}

/// What may declare something.
pub trait Declares {
    ghost named_as: { DeclaredAs → Syntax → Self → List NamedAt };

    /// Adds the place of each thing that is declared so.
    fn push_places(
        &self,
        declared: DeclaredAs,
        syntax: Syntax,
        places: &mut Vec<Place>,
    ) -> Result<(), AllocError>
        ensures { OnOk result (places.new.items ≡ places.old.items
            ++ map (λ (d : NamedAt). d.place) (named_as declared syntax self.now)) };
}

/// The place of each thing that the statements declare so, in their order.
pub fn places_of<S: Declares>(
    alloc: Global,
    declared: DeclaredAs,
    syntax: Syntax,
    statements: &[S],
) -> Result<Vec<Place>, AllocError>
    ensures { IfOk result (λ v. v.items ≡ map (λ (d : NamedAt). d.place)
        (flat_map (S.named_as declared syntax) statements.now)) }
{
    let mut places = Vec::new(alloc);
    for statement in statements {
        statement.push_places(declared, syntax, &mut places)?;
    }
    Ok(places)
}

impl Declares for EnumStatement {
    ghost named_as = { λ declared syntax s.
        map value_named (enum_values (tree.enum_statement_syntax s)) };

    fn push_places(
        &self,
        _declared: DeclaredAs,
        _syntax: Syntax,
        places: &mut Vec<Place>,
    ) -> Result<(), AllocError> {
        match self {
            EnumStatement::Value(value) => push(places, value.place),
            EnumStatement::Reserved(_) | EnumStatement::Option(_) => Ok(()),
        }
    }
}

impl Declares for &Method {
    ghost named_as = { λ declared syntax m. method_named (tree.method_syntax m.now) ∷ [] };

    fn push_places(
        &self,
        _declared: DeclaredAs,
        _syntax: Syntax,
        places: &mut Vec<Place>,
    ) -> Result<(), AllocError> {
        places.push(self.place)?;
        Ok(())
    }
}

impl Declares for FieldStatement {
    ghost named_as = { λ declared syntax f. field_named (tree.field_statement_syntax f) ∷ [] };

    fn push_places(
        &self,
        _declared: DeclaredAs,
        _syntax: Syntax,
        places: &mut Vec<Place>,
    ) -> Result<(), AllocError> {
        places.push(place_of(self))?;
        Ok(())
    }
}

/// Where a field stands.
fn place_of(field: &FieldStatement) -> Place
    ensures { result ≡ (field_named (tree.field_statement_syntax field.now)).place }
{
    match field {
        FieldStatement::Field(field) => field.place,
        FieldStatement::Group(group) => group.place,
    }
}

impl Declares for MessageStatement {
    ghost named_as = { λ declared syntax s.
        named_by declared syntax (message_statement_syntax s) };

    fn push_places(
        &self,
        declared: DeclaredAs,
        syntax: Syntax,
        places: &mut Vec<Place>,
    ) -> Result<(), AllocError> {
        match self {
            MessageStatement::Field(field) => push_of_field(declared, syntax, field, places),
            MessageStatement::OneOf(oneof) => push_of_oneof(declared, oneof, places),
            MessageStatement::Extend(extend) => push_of_extend(declared, extend, places),
            MessageStatement::Message(message) => push_of_message(declared, message, places),
            MessageStatement::Enumeration(inner) => push_of_enum(declared, inner, places),
            MessageStatement::Reserved(_)
            | MessageStatement::Extensions(_)
            | MessageStatement::Option(_) => Ok(()),
        }
    }
}

impl Declares for FileStatement {
    ghost named_as = { λ declared syntax s. named_by_file declared (tree.statement_syntax s) };

    fn push_places(
        &self,
        declared: DeclaredAs,
        _syntax: Syntax,
        places: &mut Vec<Place>,
    ) -> Result<(), AllocError> {
        match self {
            FileStatement::Message(message) => push_of_message(declared, message, places),
            FileStatement::Enumeration(inner) => push_of_enum(declared, inner, places),
            FileStatement::Extend(extend) => push_of_extend(declared, extend, places),
            FileStatement::Service(service) => push_of_service(declared, service, places),
            FileStatement::Import(_) | FileStatement::Package(_) | FileStatement::Option(_) => {
                Ok(())
            }
        }
    }
}

fn push_of_field(
    declared: DeclaredAs,
    syntax: Syntax,
    field: &FieldStatement,
    places: &mut Vec<Place>,
) -> Result<(), AllocError>
    ensures { let s = tree.message_field (tree.field_statement_syntax field.now) in
        OnOk result (places.new.items ≡ places.old.items
        ++ map (λ (d : NamedAt). d.place) (named_by declared syntax s)) }
{
    match declared {
        DeclaredAs::Field => push(places, place_of(field)),
        DeclaredAs::Oneof => {
            if has_own_oneof(syntax, field) {
                push(places, place_of(field))
            } else {
                Ok(())
            }
        }
        DeclaredAs::Message => push_behind(field, places),
        _ => Ok(()),
    }
}

fn push_of_oneof(
    declared: DeclaredAs,
    oneof: &OneOf,
    places: &mut Vec<Place>,
) -> Result<(), AllocError>
    ensures { (syntax : Syntax) → let s = tree.message_oneof (tree.oneof_syntax oneof.now) in
        OnOk result (places.new.items ≡ places.old.items
        ++ map (λ (d : NamedAt). d.place) (named_by declared syntax s)) }
{
    match declared {
        DeclaredAs::Field => push_fields_in(&oneof.body, places),
        DeclaredAs::Oneof => push(places, oneof.place),
        DeclaredAs::Message => push_behind_fields_in(&oneof.body, places),
        _ => Ok(()),
    }
}

fn push_of_extend(
    declared: DeclaredAs,
    extend: &Extend,
    places: &mut Vec<Place>,
) -> Result<(), AllocError>
    ensures inside { (syntax : Syntax) → let s =
        tree.message_extend (tree.extend_syntax extend.now) in
        OnOk result (places.new.items ≡ places.old.items
        ++ map (λ (d : NamedAt). d.place) (named_by declared syntax s)) }
    ensures outside { let s = tree.file_extend (tree.extend_syntax extend.now) in
        OnOk result (places.new.items ≡ places.old.items
        ++ map (λ (d : NamedAt). d.place) (named_by_file declared s)) }
{
    match declared {
        DeclaredAs::Extension => push_fields(&extend.fields, places),
        DeclaredAs::Message => push_groups(&extend.fields, places),
        _ => Ok(()),
    }
}

fn push_of_message(
    declared: DeclaredAs,
    message: &Message,
    places: &mut Vec<Place>,
) -> Result<(), AllocError>
    ensures inside { (syntax : Syntax) → let s =
        tree.nested_message (tree.message_syntax message.now) in
        OnOk result (places.new.items ≡ places.old.items
        ++ map (λ (d : NamedAt). d.place) (named_by declared syntax s)) }
    ensures outside { let s = tree.file_message (tree.message_syntax message.now) in
        OnOk result (places.new.items ≡ places.old.items
        ++ map (λ (d : NamedAt). d.place) (named_by_file declared s)) }
{
    match declared {
        DeclaredAs::Message => push(places, message.place),
        _ => Ok(()),
    }
}

fn push_of_enum(
    declared: DeclaredAs,
    inner: &Enumeration,
    places: &mut Vec<Place>,
) -> Result<(), AllocError>
    ensures inside { (syntax : Syntax) → let s = tree.message_enum (tree.enum_syntax inner.now) in
        OnOk result (places.new.items ≡ places.old.items
        ++ map (λ (d : NamedAt). d.place) (named_by declared syntax s)) }
    ensures outside { let s = tree.file_enum (tree.enum_syntax inner.now) in
        OnOk result (places.new.items ≡ places.old.items
        ++ map (λ (d : NamedAt). d.place) (named_by_file declared s)) }
{
    match declared {
        DeclaredAs::Enum => push(places, inner.place),
        _ => Ok(()),
    }
}

fn push_of_service(
    declared: DeclaredAs,
    service: &Service,
    places: &mut Vec<Place>,
) -> Result<(), AllocError>
    ensures { let s = tree.file_service (tree.service_syntax service.now) in
        OnOk result (places.new.items ≡ places.old.items
        ++ map (λ (d : NamedAt). d.place) (named_by_file declared s)) }
{
    match declared {
        DeclaredAs::Other => push(places, service.place),
        _ => Ok(()),
    }
}

fn push(places: &mut Vec<Place>, place: Place) -> Result<(), AllocError>
    ensures { OnOk result (places.new.items ≡ places.old.items ++ place ∷ []) }
{
    places.push(place)?;
    Ok(())
}

/// Where each field stands.
fn push_fields(fields: &[FieldStatement], places: &mut Vec<Place>) -> Result<(), AllocError>
    ensures { OnOk result (places.new.items ≡ places.old.items ++ map (λ (d : NamedAt). d.place)
        (map field_named (map tree.field_statement_syntax fields.now))) }
{
    for field in fields {
        places.push(place_of(field))?;
    }
    Ok(())
}

/// Where each field of a oneof stands.
fn push_fields_in(body: &[OneOfStatement], places: &mut Vec<Place>) -> Result<(), AllocError>
    ensures { OnOk result (places.new.items ≡ places.old.items ++ map (λ (d : NamedAt). d.place)
        (map field_named (flat_map oneof_fields (map tree.oneof_statement_syntax body.now)))) }
{
    for statement in body {
        if let OneOfStatement::Field(field) = statement {
            places.push(place_of(field))?;
        }
    }
    Ok(())
}

/// Where the message behind each field of a oneof stands.
fn push_behind_fields_in(body: &[OneOfStatement], places: &mut Vec<Place>) -> Result<(), AllocError>
    ensures { OnOk result (places.new.items ≡ places.old.items ++ map (λ (d : NamedAt). d.place)
        (flat_map messages.behind_named
        (flat_map oneof_fields (map tree.oneof_statement_syntax body.now)))) }
{
    for statement in body {
        if let OneOfStatement::Field(field) = statement {
            push_behind(field, places)?;
        }
    }
    Ok(())
}

/// Where the message behind each group among the fields of an `extend` stands.
fn push_groups(fields: &[FieldStatement], places: &mut Vec<Place>) -> Result<(), AllocError>
    ensures { OnOk result (places.new.items ≡ places.old.items ++ map (λ (d : NamedAt). d.place)
        (flat_map messages.behind_named
        (flat_map groups (map tree.field_statement_syntax fields.now)))) }
{
    for field in fields {
        if let FieldStatement::Group(group) = field {
            places.push(group.place)?;
        }
    }
    Ok(())
}

/// Where the message behind a field stands, if there is one.
fn push_behind(field: &FieldStatement, places: &mut Vec<Place>) -> Result<(), AllocError>
    ensures { OnOk result (places.new.items ≡ places.old.items ++ map (λ (d : NamedAt). d.place)
        (messages.behind_named (tree.field_statement_syntax field.now))) }
{
    match field {
        FieldStatement::Field(field) => match field.type_ {
            Type::Map(_, _) => push(places, field.place),
            _ => Ok(()),
        },
        FieldStatement::Group(group) => push(places, group.place),
    }
}
