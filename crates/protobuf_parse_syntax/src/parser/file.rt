//! Files: their version, imports and packages.

ghost use Rattle.std.specs.Prelude.{map};
ghost use Rattle.protobuf_parse_base.specs.PathViews.{path_buf_text};
ghost use Rattle.protobuf_parse_lexer.specs.Text.{seen_by};
ghost use Rattle.protobuf_parse_syntax.specs.Productions as read;
ghost use Rattle.protobuf_parse_syntax.specs.Trees as view;
ghost use Rattle.protobuf_parse_syntax.specs.Code.{left, Gives, GivesOr, IsWrong, Unsaid};
ghost use Rattle.protobuf_parse_syntax.specs.Code.{NoVersion, of_version, of_path, FileFails};
ghost use Rattle.protobuf_parse_syntax.specs.Code.{ToldAs};
ghost use Rattle.protobuf_parse_syntax.specs.Nested as nest;

use crate::parser::cursor::Cursor;
use crate::parser::enumeration::enumeration;
use crate::parser::list::push_some;
use crate::parser::message::{extend, message};
use crate::parser::name::{dotted, text};
use crate::parser::option::option;
use crate::parser::refusal::Refusal;
use crate::parser::service::service;
use crate::parser::words::{begins_file_statement, field_fault, group_fault, oneof_fault};
use crate::tree::{FileStatement, FileTree, Import, ImportVis, Package, Syntax};
use protobuf_parse_base::proto_path::ProtoPathBuf;
use protobuf_parse_lexer::ParserError;
use std::alloc::Global;

/// `file = [ syntax ] { import | package | option | message | enum | extend | service | ";" }`.
/// Tokens may be left behind it.
#[tactic(auto, unfolding(crate::specs::Nested::file), using(crate::specs::Code::fails_first))]
pub fn file(alloc: Global, tokens: &mut Cursor<'_>, levels: usize) -> Result<FileTree, Refusal>
    ensures { GivesOr (FileFails (left tokens.old)) view.file_syntax result (left tokens.new)
        ((nest.files levels).low.run (left tokens.old)) }
{
    let syntax = version(alloc, tokens)?;
    match file_statements(alloc, tokens, syntax, levels) {
        Ok(statements) => Ok(FileTree { syntax, statements }),
        Err(refusal) => Err(told(refusal, tokens, syntax)),
    }
}

/// The refusal with its fault, where no field begins with the next token in a file of this version.
fn told(refusal: Refusal, tokens: &Cursor<'_>, syntax: Syntax) -> Refusal
    ensures { ToldAs syntax refusal (left tokens.now) result }
{
    match refusal {
        Refusal::Memory | Refusal::Fault(_) => refusal,
        Refusal::NoField => Refusal::Fault(field_fault(tokens, syntax)),
        Refusal::NoGroupField => Refusal::Fault(group_fault(tokens, syntax)),
        Refusal::NoOneofField => Refusal::Fault(oneof_fault(tokens)),
    }
}

/// `[ "syntax" "=" str ";" ]`; proto2 where it is absent.
#[tactic(auto, unfolding(crate::specs::Productions::version_statement, crate::specs::Productions::syntax), using(crate::specs::Code::fails_first))]
fn version(alloc: Global, tokens: &mut Cursor<'_>) -> Result<Syntax, Refusal>
    ensures { GivesOr (IsWrong NoVersion (left tokens.old)) (λ s. s) result (left tokens.new)
        (read.version_statement.run (left tokens.old)) }
{
    if !tokens.sees_word("syntax") {
        return Ok(Syntax::Proto2);
    }
    tokens.word("syntax")?;
    tokens.symbol('=')?;
    let syntax = said(alloc, tokens)?;
    tokens.symbol(';')?;
    Ok(syntax)
}

/// The version that a string says: S15 at one that does not decode, S10 at any other text.
#[tactic(auto, using(crate::specs::Code::fails_first))]
fn said(alloc: Global, tokens: &mut Cursor<'_>) -> Result<Syntax, Refusal>
    ensures { GivesOr (IsWrong (Unsaid of_version) (left tokens.old)) (λ s. s) result (left tokens.new)
        (read.version.run (left tokens.old)) }
{
    let before = *tokens;
    let said = text(alloc, tokens)?;
    match said.as_str() {
        "proto2" => Ok(Syntax::Proto2),
        "proto3" => Ok(Syntax::Proto3),
        _ => {
            *tokens = before;
            Err(Refusal::Fault(ParserError::UnknownSyntax))
        }
    }
}

/// The statements of a file, up to the first token that begins none.
fn file_statements(
    alloc: Global,
    tokens: &mut Cursor<'_>,
    syntax: Syntax,
    levels: usize,
) -> Result<Vec<FileStatement>, Refusal>
    ensures { Gives (λ v. map view.statement_syntax v.items) result (left tokens.new)
        ((nest.file_items syntax levels).low.run (left tokens.old)) }
{
    let mut statements = Vec::new(alloc);
    'items: while begins_file_statement(tokens) {
        let item = file_item(alloc, tokens, syntax, levels)?;
        push_some(&mut statements, item)?;
    }
    Ok(statements)
}

/// A statement of a file, or nothing at a semicolon.
#[tactic(auto, unfolding(crate::specs::Nested::file_item), using(crate::specs::Code::fails_first))]
fn file_item(
    alloc: Global,
    tokens: &mut Cursor<'_>,
    syntax: Syntax,
    levels: usize,
) -> Result<Option<FileStatement>, Refusal>
    ensures { Gives (seen_by view.statement_syntax) result (left tokens.new)
        ((nest.file_item syntax levels).low.run (left tokens.old)) }
{
    if tokens.sees_symbol(';') {
        tokens.symbol(';')?;
        return Ok(None);
    }
    Ok(Some(file_statement(alloc, tokens, syntax, levels)?))
}

/// `import | package | option | message | enum | extend | service`
#[tactic(auto, unfolding(crate::specs::Nested::file_statement), using(crate::specs::Code::fails_first))]
fn file_statement(
    alloc: Global,
    tokens: &mut Cursor<'_>,
    syntax: Syntax,
    levels: usize,
) -> Result<FileStatement, Refusal>
    ensures { Gives view.statement_syntax result (left tokens.new)
        ((nest.file_statement syntax levels).low.run (left tokens.old)) }
{
    if tokens.sees_word("import") {
        return Ok(FileStatement::Import(import(alloc, tokens)?));
    }
    if tokens.sees_word("package") {
        return Ok(FileStatement::Package(package(alloc, tokens)?));
    }
    if tokens.sees_word("option") {
        return Ok(FileStatement::Option(option(alloc, tokens, levels)?));
    }
    if tokens.sees_word("message") {
        return Ok(FileStatement::Message(message(alloc, tokens, syntax, levels)?));
    }
    if tokens.sees_word("enum") {
        return Ok(FileStatement::Enumeration(enumeration(alloc, tokens, levels)?));
    }
    if tokens.sees_word("extend") {
        return Ok(FileStatement::Extend(extend(alloc, tokens, syntax, levels)?));
    }
    Ok(FileStatement::Service(service(alloc, tokens, syntax, levels)?))
}

/// `import = "import" [ "weak" | "public" ] str ";"`
#[tactic(auto, unfolding(crate::specs::Productions::import_parts), using(crate::specs::Code::fails_first))]
fn import(alloc: Global, tokens: &mut Cursor<'_>) -> Result<Import, Refusal>
    ensures { Gives view.import_syntax result (left tokens.new)
        (read.imported.run (left tokens.old)) }
{
    let place = tokens.place();
    tokens.word("import")?;
    let vis = visibility(tokens)?;
    let path = path(alloc, tokens)?;
    tokens.symbol(';')?;
    Ok(Import { place, vis, path })
}

/// `[ "weak" | "public" ]`
#[tactic(auto, unfolding(crate::specs::Productions::visibility), using(crate::specs::Code::fails_first))]
fn visibility(tokens: &mut Cursor<'_>) -> Result<ImportVis, Refusal>
    ensures { Gives (λ v. v) result (left tokens.new) (read.visibility.run (left tokens.old)) }
{
    if tokens.sees_word("weak") {
        tokens.word("weak")?;
        return Ok(ImportVis::Weak);
    }
    if tokens.sees_word("public") {
        tokens.word("public")?;
        return Ok(ImportVis::Public);
    }
    Ok(ImportVis::Default)
}

/// The proto path that a string says: S15 at one that does not decode, S19 at any other text.
#[tactic(auto, using(crate::specs::Code::fails_first))]
fn path(alloc: Global, tokens: &mut Cursor<'_>) -> Result<ProtoPathBuf, Refusal>
    ensures { GivesOr (IsWrong (Unsaid of_path) (left tokens.old)) path_buf_text result (left tokens.new)
        (read.path.run (left tokens.old)) }
{
    let before = *tokens;
    let text = text(alloc, tokens)?;
    match ProtoPathBuf::new(text) {
        Ok(path) => Ok(path),
        Err(fault) => {
            *tokens = before;
            Err(Refusal::Fault(ParserError::BadImportPath(fault)))
        }
    }
}

/// `package = "package" ident { "." ident } ";"`
#[tactic(auto, unfolding(crate::specs::Productions::package_name), using(crate::specs::Code::fails_first))]
fn package(alloc: Global, tokens: &mut Cursor<'_>) -> Result<Package, Refusal>
    ensures { Gives view.package_syntax result (left tokens.new)
        (read.package_name.run (left tokens.old)) }
{
    let place = tokens.place();
    tokens.word("package")?;
    let name = dotted(alloc, tokens)?;
    tokens.symbol(';')?;
    Ok(Package { place, name })
}
