//! What the statements of a file declare.

ghost use Rattle.std.specs.Prelude.{◌≡◌, ◌++◌, ◌≤◌, List, map, flat_map, sum_by, IfOk, OnOk};
ghost use Rattle.protobuf_parse_syntax.specs.Counts.{statement_count};
ghost use Rattle.protobuf_parse_syntax.specs.Trees.{StatementSyntax, extend_syntax, file_extend};
ghost use Rattle.protobuf_parse_syntax.specs.Trees.{statement_syntax};
ghost use Rattle.protobuf_parse_model.specs.Environment.{Environment};
ghost use Rattle.protobuf_parse_model.specs.Descriptors as described;
ghost use Rattle.protobuf_parse_elaboration.specs.FileDescriptor.{file_duplicates, file_faults_of};
ghost use Rattle.protobuf_parse_elaboration.specs.FileParts.{AreFilePlaces, parts_of_file};
ghost use Rattle.protobuf_parse_elaboration.specs.FileParts.{parts_view, file_with, heading_view};
ghost use Rattle.protobuf_parse_elaboration.specs.FileParts.{no_parts, with_file_statement};
ghost use Rattle.protobuf_parse_elaboration.specs.Messages.{extend_faults};
ghost use Rattle.protobuf_parse_elaboration.specs.Viewpoints.{seen_from};
ghost use Rattle.protobuf_parse_elaboration.specs.Telling.{Tells};

use crate::constructs::declared::{DeclaredAs, places_of};
use crate::constructs::enumeration::enum_descriptor;
use crate::constructs::heading::Heading;
use crate::constructs::lists::{append_declared, fields_of_extend, shrunk};
use crate::constructs::message::message_descriptor;
use crate::constructs::service::service_descriptor;
use crate::constructs::told::tell_repeated;
use crate::constructs::viewpoint::Viewpoint;
use protobuf_parse_lexer::Place;
use protobuf_parse_model::{
    CustomOptions, DescriptorProto, ElabError, EnumDescriptorProto, FieldDescriptorProto,
    FileDescriptorProto, ServiceDescriptorProto,
};
use protobuf_parse_syntax::{Extend, FileStatement, Syntax};
use std::alloc::{AllocError, Global};

/// What the statements of a file declare, each list in source order.
pub struct Contents {
    pub message_type: Vec<DescriptorProto>,
    pub enum_type: Vec<EnumDescriptorProto>,
    pub service: Vec<ServiceDescriptorProto>,
    pub extension: Vec<FieldDescriptorProto>,
}

// Written out: what drops it calls this, and need not prove anew how each list is dropped.
impl Drop for Contents {
    fn drop(self) {
        let Contents {
            message_type: _,
            enum_type: _,
            service: _,
            extension: _,
        } = self;
    }
}

impl Contents {
    /// None.
    fn new(alloc: Global) -> Self
        ensures { parts_view result ≡ no_parts }
    {
        Contents {
            message_type: Vec::new(alloc),
            enum_type: Vec::new(alloc),
            service: Vec::new(alloc),
            extension: Vec::new(alloc),
        }
    }

    /// The file with this heading and these contents.
    pub fn into_file(self, heading: Heading) -> FileDescriptorProto
        ensures { described.file_view result ≡ file_with (heading_view heading) (parts_view self) }
    {
        let Contents {
            message_type,
            enum_type,
            service,
            extension,
        } = self;
        let imports = heading.imports;
        FileDescriptorProto {
            name: Some(heading.name),
            package: heading.package_name,
            syntax: Some(heading.syntax),
            dependency: imports.dependency,
            public_dependency: imports.public_dependency,
            weak_dependency: imports.weak_dependency,
            message_type: shrunk(message_type),
            enum_type: shrunk(enum_type),
            service: shrunk(service),
            extension: shrunk(extension),
            options: heading.options,
        }
    }
}

/// Where what the statements of a file declare stands, by kinds, each list in source order.
#[derive(Drop)]
struct FilePlaces {
    messages: Vec<Place>,
    enums: Vec<Place>,
    extensions: Vec<Place>,
    services: Vec<Place>,
}

fn file_places(
    alloc: Global,
    syntax: Syntax,
    statements: &[FileStatement],
) -> Result<FilePlaces, AllocError>
    ensures { IfOk result
        (λ p. AreFilePlaces p (map statement_syntax statements.now)) }
{
    let messages = places_of(alloc, DeclaredAs::Message, syntax, statements)?;
    let enums = places_of(alloc, DeclaredAs::Enum, syntax, statements)?;
    let extensions = places_of(alloc, DeclaredAs::Extension, syntax, statements)?;
    let services = places_of(alloc, DeclaredAs::Other, syntax, statements)?;
    Ok(FilePlaces {
        messages,
        enums,
        extensions,
        services,
    })
}

/// What these statements declare. E1 where two of a kind have one name, and the faults inside each.
pub fn contents_of<C: CustomOptions>(
    at: &Viewpoint<'_, '_, C>,
    faults: &mut Vec<ElabError>,
    statements: &[FileStatement],
) -> Result<Contents, AllocError>
    requires few { sum_by statement_count (map statement_syntax statements.now) ≤ 2147483647 }
    ensures value { let env = seen_from C.customs at.now in
        IfOk result (λ c. parts_view c ≡ parts_of_file env (map statement_syntax statements.now)) }
    ensures faults { let env = seen_from C.customs at.now in
        let ss = map statement_syntax statements.now in
        Tells result faults.old faults.new
        (flat_map (file_faults_of env) ss ++ file_duplicates ss) }
{
    let places = file_places(at.alloc, at.context.syntax, statements)?;
    let contents = declared(at, faults, statements)?;
    tell_file_names(at.alloc, faults, &contents, &places)?;
    Ok(contents)
}

/// E1 where two messages, enums, extensions or services have one name.
fn tell_file_names(
    alloc: Global,
    faults: &mut Vec<ElabError>,
    contents: &Contents,
    places: &FilePlaces,
) -> Result<(), AllocError>
    requires { (ss : List StatementSyntax) × (env : Environment)
        × (parts_view contents.now ≡ parts_of_file env ss) × AreFilePlaces places.now ss }
    ensures { (ss : List StatementSyntax) (env : Environment)
        → parts_view contents.now ≡ parts_of_file env ss → AreFilePlaces places.now ss
        → Tells result faults.old faults.new (file_duplicates ss) }
{
    tell_repeated(alloc, faults, &contents.message_type, &places.messages)?;
    tell_repeated(alloc, faults, &contents.enum_type, &places.enums)?;
    tell_repeated(alloc, faults, &contents.extension, &places.extensions)?;
    tell_repeated(alloc, faults, &contents.service, &places.services)
}

/// What these statements declare.
fn declared<C: CustomOptions>(
    at: &Viewpoint<'_, '_, C>,
    faults: &mut Vec<ElabError>,
    statements: &[FileStatement],
) -> Result<Contents, AllocError>
    requires few { sum_by statement_count (map statement_syntax statements.now) ≤ 2147483647 }
    ensures value { let env = seen_from C.customs at.now in
        IfOk result (λ c. parts_view c ≡ parts_of_file env (map statement_syntax statements.now)) }
    ensures faults { let env = seen_from C.customs at.now in
        Tells result faults.old faults.new
        (flat_map (file_faults_of env) (map statement_syntax statements.now)) }
{
    let mut contents = Contents::new(at.alloc);
    for statement in statements {
        add_statement(at, faults, &mut contents, statement)?;
    }
    Ok(contents)
}

/// As `contents_of`, of statements that are dropped one by one, so that not all of them stand
/// beside all that they become.
pub fn contents_of_owned<C: CustomOptions>(
    at: &Viewpoint<'_, '_, C>,
    faults: &mut Vec<ElabError>,
    statements: Vec<FileStatement>,
) -> Result<Contents, AllocError>
    requires few { sum_by statement_count (map statement_syntax statements.items) ≤ 2147483647 }
    ensures value { let env = seen_from C.customs at.now in
        IfOk result
        (λ c. parts_view c ≡ parts_of_file env (map statement_syntax statements.items)) }
    ensures faults { let env = seen_from C.customs at.now in
        let ss = map statement_syntax statements.items in
        Tells result faults.old faults.new
        (flat_map (file_faults_of env) ss ++ file_duplicates ss) }
{
    let places = file_places(at.alloc, at.context.syntax, &statements)?;
    let contents = declared_by_owned(at, faults, statements)?;
    tell_file_names(at.alloc, faults, &contents, &places)?;
    Ok(contents)
}

/// What these statements declare, each dropped once that is known.
fn declared_by_owned<C: CustomOptions>(
    at: &Viewpoint<'_, '_, C>,
    faults: &mut Vec<ElabError>,
    statements: Vec<FileStatement>,
) -> Result<Contents, AllocError>
    requires few { sum_by statement_count (map statement_syntax statements.items) ≤ 2147483647 }
    ensures value { let env = seen_from C.customs at.now in
        IfOk result
        (λ c. parts_view c ≡ parts_of_file env (map statement_syntax statements.items)) }
    ensures faults { let env = seen_from C.customs at.now in
        Tells result faults.old faults.new
        (flat_map (file_faults_of env) (map statement_syntax statements.items)) }
{
    let mut contents = Contents::new(at.alloc);
    for statement in statements {
        add_statement(at, faults, &mut contents, &statement)?;
    }
    Ok(contents)
}

/// Adds what a statement declares.
fn add_statement<C: CustomOptions>(
    at: &Viewpoint<'_, '_, C>,
    faults: &mut Vec<ElabError>,
    contents: &mut Contents,
    statement: &FileStatement,
) -> Result<(), AllocError>
    requires few { statement_count (statement_syntax statement.now) ≤ 2147483647 }
    ensures value { let env = seen_from C.customs at.now in
        let s = statement_syntax statement.now in
        OnOk result (parts_view contents.new
        ≡ with_file_statement env (parts_view contents.old) s) }
    ensures faults { let env = seen_from C.customs at.now in
        Tells result faults.old faults.new (file_faults_of env (statement_syntax statement.now)) }
{
    match statement {
        FileStatement::Message(message) => {
            let descriptor = message_descriptor(at, faults, message)?;
            contents.message_type.push(descriptor)?;
        }
        FileStatement::Enumeration(enumeration) => {
            let descriptor = enum_descriptor(at, faults, enumeration)?;
            contents.enum_type.push(descriptor)?;
        }
        FileStatement::Service(service) => {
            let descriptor = service_descriptor(at, faults, service)?;
            contents.service.push(descriptor)?;
        }
        FileStatement::Extend(extend) => add_extensions(at, faults, contents, extend)?,
        FileStatement::Import(_) | FileStatement::Package(_) | FileStatement::Option(_) => {}
    }
    Ok(())
}

/// Adds the extensions of an `extend`, and the messages behind their groups.
fn add_extensions<C: CustomOptions>(
    at: &Viewpoint<'_, '_, C>,
    faults: &mut Vec<ElabError>,
    contents: &mut Contents,
    extend: &Extend,
) -> Result<(), AllocError>
    ensures value { let env = seen_from C.customs at.now in
        let s = file_extend (extend_syntax extend.now) in
        OnOk result (parts_view contents.new
        ≡ with_file_statement env (parts_view contents.old) s) }
    ensures faults { let env = seen_from C.customs at.now in
        Tells result faults.old faults.new (extend_faults env (extend_syntax extend.now)) }
{
    let declared = fields_of_extend(at, faults, extend.place, &extend.extendee, &extend.fields)?;
    append_declared(
        &mut contents.extension,
        &mut contents.message_type,
        declared,
    )
}
