//! Messages and files.

ghost use Rattle.std.specs.Prelude.{◌≡◌, ◌++◌, flat_map, map, IfOk, OnOk};
ghost use Rattle.protobuf_parse_syntax.specs.InnerViews.{message_statement_syntax};
ghost use Rattle.protobuf_parse_syntax.specs.Trees.{file_syntax, message_syntax, nested_message};
ghost use Rattle.protobuf_parse_syntax.specs.Trees.{statement_syntax};
ghost use Rattle.protobuf_parse_text_rules.specs.Files as bodies;
ghost use Rattle.protobuf_parse_text_rules.specs.OptionViews.{options_view};
ghost use Rattle.protobuf_parse_text_rules.specs.Views.{told};
ghost use Rattle.protobuf_parse_name_rules.specs.Files as spec;
ghost use Rattle.protobuf_parse_name_rules.specs.InnerViews.{viewpoint_view};
ghost use Rattle.protobuf_parse_name_rules.specs.Views.{files_view};

use crate::declarations::{check_enum, check_extend, check_oneof, check_statement};
use crate::files::{NameFiles, NameViewpoint, scope_within, sight_of};
use crate::options::check_options;
use crate::services::check_service;
use protobuf_parse_model::{Construct, file_scope};
use protobuf_parse_syntax::{FileStatement, FileTree, Message, MessageStatement, ProtobufOption};
use protobuf_parse_text_rules::TextViolation;
use std::alloc::{AllocError, Global};

/// Every violation of the rules T13 to T18 in a file that has this tree, in the order of the text:
/// of each declaration first its names, then its options, then what stands inside it. Of options in
/// one list or body the names come first, then those that are set again, then what their message
/// constants break; all of these stand at the option. The one error is that memory is short.
///
/// The tree is that of a file that `files` sees. A name that means nothing is passed over, and what
/// would be inside of it: a run tells of it. T15 is told whatever the values are, where `protoc`
/// takes a field again that tells no zero from none and was set to zero.
///
/// ```text
/// let files = NameFiles { index: &index, seen: &["shop.proto", "rules.proto"] };
/// for violation in &name_violations(alloc, &files, &tree)? {
///     println!(rt; "{violation}")?;
/// }
/// ```
pub fn name_violations(
    alloc: Global,
    files: &NameFiles<'_, '_>,
    tree: &FileTree,
) -> Result<Vec<TextViolation>, AllocError>
    ensures { IfOk result
        (λ v. told v ≡ spec.name_breaches (files_view files.now) (file_syntax tree.now)) }
{
    let sight = sight_of(alloc, files)?;
    let scope = file_scope(alloc, tree)?;
    let at = NameViewpoint {
        alloc,
        sight: &sight,
        scope: &scope,
    };
    let mut found = Vec::new(alloc);
    check_statements(&at, &mut found, &tree.statements)?;
    Ok(found)
}

fn check_statements(
    at: &NameViewpoint<'_, '_, '_>,
    found: &mut Vec<TextViolation>,
    statements: &[FileStatement],
) -> Result<(), AllocError>
    ensures { OnOk result (told found.new ≡ told found.old
        ++ spec.statements_breaches (viewpoint_view at.now) (map statement_syntax statements.now)) }
{
    let options = options_of_file(at.alloc, statements)?;
    check_options(at, found, Construct::File, &options)?;
    check_each(at, found, statements)
}

fn options_of_file<'a>(
    alloc: Global,
    statements: &'a [FileStatement],
) -> Result<Vec<&'a ProtobufOption>, AllocError>
    ensures { IfOk result (λ v. options_view v.items
        ≡ flat_map bodies.option_in_file (map statement_syntax statements.now)) }
{
    let mut options = Vec::new(alloc);
    'statements: for statement in statements {
        if let FileStatement::Option(statement) = statement {
            options.push(&statement.option)?;
        }
    }
    Ok(options)
}

fn check_each(
    at: &NameViewpoint<'_, '_, '_>,
    found: &mut Vec<TextViolation>,
    statements: &[FileStatement],
) -> Result<(), AllocError>
    ensures { OnOk result (told found.new ≡ told found.old
        ++ flat_map (spec.inside_file (viewpoint_view at.now))
        (map statement_syntax statements.now)) }
{
    'statements: for statement in statements {
        check_file_statement(at, found, statement)?;
    }
    Ok(())
}

fn check_file_statement(
    at: &NameViewpoint<'_, '_, '_>,
    found: &mut Vec<TextViolation>,
    statement: &FileStatement,
) -> Result<(), AllocError>
    ensures { OnOk result (told found.new ≡ told found.old
        ++ spec.inside_file (viewpoint_view at.now) (statement_syntax statement.now)) }
{
    match statement {
        FileStatement::Message(message) => check_message(at, found, message),
        FileStatement::Enumeration(each) => check_enum(at, found, each),
        FileStatement::Extend(extend) => check_extend(at, found, extend),
        FileStatement::Service(service) => check_service(at, found, service),
        FileStatement::Import(_) | FileStatement::Package(_) | FileStatement::Option(_) => Ok(()),
    }
}

#[cycle(message)]
fn check_message<'t>(
    at: &NameViewpoint<'t, '_, '_>,
    found: &mut Vec<TextViolation>,
    message: &'t Message,
) -> Result<(), AllocError>
    ensures { OnOk result (told found.new ≡ told found.old
        ++ spec.inside_message (viewpoint_view at.now)
        (nested_message (message_syntax message.now))) }
{
    let options = options_of_message(at.alloc, &message.body)?;
    check_options(at, found, Construct::Message, &options)?;
    let scope = scope_within(at, message.name.as_str())?;
    let inside = NameViewpoint {
        alloc: at.alloc,
        sight: at.sight,
        scope: &scope,
    };
    check_body(&inside, found, &message.body)
}

fn options_of_message<'a>(
    alloc: Global,
    body: &'a [MessageStatement],
) -> Result<Vec<&'a ProtobufOption>, AllocError>
    ensures { IfOk result (λ v. options_view v.items
        ≡ flat_map bodies.option_in_message (map message_statement_syntax body.now)) }
{
    let mut options = Vec::new(alloc);
    'body: for statement in body {
        if let MessageStatement::Option(statement) = statement {
            options.push(&statement.option)?;
        }
    }
    Ok(options)
}

#[cycle(message)]
fn check_body<'t>(
    at: &NameViewpoint<'t, '_, '_>,
    found: &mut Vec<TextViolation>,
    body: &'t [MessageStatement],
) -> Result<(), AllocError>
    ensures { OnOk result (told found.new ≡ told found.old
        ++ flat_map (spec.inside_message (viewpoint_view at.now))
        (map message_statement_syntax body.now)) }
{
    'body: for statement in body {
        check_message_statement(at, found, statement)?;
    }
    Ok(())
}

#[cycle(message)]
fn check_message_statement<'t>(
    at: &NameViewpoint<'t, '_, '_>,
    found: &mut Vec<TextViolation>,
    statement: &'t MessageStatement,
) -> Result<(), AllocError>
    ensures { OnOk result (told found.new ≡ told found.old
        ++ spec.inside_message (viewpoint_view at.now)
        (message_statement_syntax statement.now)) }
{
    match statement {
        MessageStatement::Field(field) => check_statement(at, found, field),
        MessageStatement::OneOf(oneof) => check_oneof(at, found, oneof),
        MessageStatement::Extend(extend) => check_extend(at, found, extend),
        MessageStatement::Enumeration(each) => check_enum(at, found, each),
        MessageStatement::Message(message) => check_message(at, found, message),
        MessageStatement::Extensions(_)
        | MessageStatement::Reserved(_)
        | MessageStatement::Option(_) => Ok(()),
    }
}
