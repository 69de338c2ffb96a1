//! Messages and files.

ghost use Rattle.std.specs.Prelude.{◌≡◌, ◌++◌, [], false, flat_map, map, IfOk, OnOk, if◌then◌else◌};
ghost use Rattle.std.specs.Prelude.{Bool, List};
ghost use Rattle.protobuf_parse_syntax.specs.InnerViews.{message_statement_syntax};
ghost use Rattle.protobuf_parse_syntax.specs.Trees.{file_syntax, message_syntax, nested_message};
ghost use Rattle.protobuf_parse_syntax.specs.Trees.{statement_syntax};
ghost use Rattle.protobuf_parse_text_rules.specs.Files as spec;
ghost use Rattle.protobuf_parse_text_rules.specs.OptionViews.{options_view};
ghost use Rattle.protobuf_parse_text_rules.specs.Views.{told};

use crate::declarations::{check_enum, check_oneof, check_service};
use crate::fields::{check_extend, check_statement};
use crate::options::{check_options, tell_named};
use crate::rule::TextRule;
use crate::violation::{TextViolation, tell, tell_if};
use protobuf_parse_syntax::{FileStatement, FileTree, Message, MessageStatement, ProtobufOption};
use std::alloc::{AllocError, Global};

/// What the tree shows: each violation, and each statement of which the tokens tell more.
pub fn check_tree(
    alloc: Global,
    found: &mut Vec<TextViolation>,
    tree: &FileTree,
) -> Result<(), AllocError>
    ensures { OnOk result (told found.new ≡ told found.old
        ++ spec.tree_breaches (file_syntax tree.now)) }
{
    check_packages(alloc, found, &tree.statements)?;
    let options = options_of_file(alloc, &tree.statements)?;
    check_options(alloc, found, &options)?;
    check_file_statements(alloc, found, &tree.statements)
}

/// Tells each `package` statement behind another one.
fn check_packages(
    alloc: Global,
    found: &mut Vec<TextViolation>,
    statements: &[FileStatement],
) -> Result<(), AllocError>
    ensures { OnOk result (told found.new ≡ told found.old
        ++ spec.packages_behind false (map statement_syntax statements.now)) }
{
    let mut before = false;
    let mut left = statements;
    'left: while let [statement, rest @ ..] = left {
        if let FileStatement::Package(package) = statement {
            let rule = TextRule::PackageTwice;
            tell_if(alloc, found, before, rule, package.place, &package.name)?;
            before = true;
        }
        left = rest;
    }
    Ok(())
}

fn options_of_file<'a>(
    alloc: Global,
    statements: &'a [FileStatement],
) -> Result<Vec<&'a ProtobufOption>, AllocError>
    ensures { IfOk result (λ v. options_view v.items
        ≡ flat_map spec.option_in_file (map statement_syntax statements.now)) }
{
    let mut options = Vec::new(alloc);
    'statements: for statement in statements {
        if let FileStatement::Option(statement) = statement {
            options.push(&statement.option)?;
        }
    }
    Ok(options)
}

fn check_file_statements(
    alloc: Global,
    found: &mut Vec<TextViolation>,
    statements: &[FileStatement],
) -> Result<(), AllocError>
    ensures { OnOk result (told found.new ≡ told found.old
        ++ flat_map spec.inside_file (map statement_syntax statements.now)) }
{
    'statements: for statement in statements {
        check_file_statement(alloc, found, statement)?;
    }
    Ok(())
}

fn check_file_statement(
    alloc: Global,
    found: &mut Vec<TextViolation>,
    statement: &FileStatement,
) -> Result<(), AllocError>
    ensures { OnOk result (told found.new ≡ told found.old
        ++ spec.inside_file (statement_syntax statement.now)) }
{
    match statement {
        FileStatement::Message(message) => check_message(alloc, found, message),
        FileStatement::Enumeration(each) => check_enum(alloc, found, each),
        FileStatement::Extend(extend) => check_extend(alloc, found, extend),
        FileStatement::Service(service) => check_service(alloc, found, service),
        FileStatement::Import(_) | FileStatement::Package(_) | FileStatement::Option(_) => Ok(()),
    }
}

#[cycle(message)]
fn check_message(
    alloc: Global,
    found: &mut Vec<TextViolation>,
    message: &Message,
) -> Result<(), AllocError>
    ensures { OnOk result (told found.new ≡ told found.old
        ++ spec.inside_message (nested_message (message_syntax message.now))) }
{
    check_own(alloc, found, &message.body)?;
    check_body(alloc, found, &message.body)
}

#[cycle(message)]
fn check_body(
    alloc: Global,
    found: &mut Vec<TextViolation>,
    body: &[MessageStatement],
) -> Result<(), AllocError>
    ensures { OnOk result (told found.new ≡ told found.old
        ++ flat_map spec.inside_message (map message_statement_syntax body.now)) }
{
    'body: for statement in body {
        check_message_statement(alloc, found, statement)?;
    }
    Ok(())
}

#[cycle(message)]
fn check_message_statement(
    alloc: Global,
    found: &mut Vec<TextViolation>,
    statement: &MessageStatement,
) -> Result<(), AllocError>
    ensures { OnOk result (told found.new ≡ told found.old
        ++ spec.inside_message (message_statement_syntax statement.now)) }
{
    match statement {
        MessageStatement::Field(field) => check_statement(alloc, found, field),
        MessageStatement::OneOf(oneof) => check_oneof(alloc, found, oneof),
        MessageStatement::Extend(extend) => check_extend(alloc, found, extend),
        MessageStatement::Enumeration(each) => check_enum(alloc, found, each),
        MessageStatement::Message(message) => check_message(alloc, found, message),
        MessageStatement::Extensions(it) => {
            tell(
                alloc,
                found,
                TextRule::StatementWithoutSemicolon,
                it.place,
                "",
            )
        }
        MessageStatement::Reserved(_) | MessageStatement::Option(_) => Ok(()),
    }
}

/// Tells what is wrong with a message's own options.
fn check_own(
    alloc: Global,
    found: &mut Vec<TextViolation>,
    body: &[MessageStatement],
) -> Result<(), AllocError>
    ensures { OnOk result (told found.new ≡ told found.old
        ++ spec.own_breaches
        (flat_map spec.option_in_message (map message_statement_syntax body.now))) }
{
    let options = options_of_message(alloc, body)?;
    if options.is_empty() {
        return Ok(());
    }
    check_options(alloc, found, &options)?;
    tell_named(alloc, found, TextRule::MapEntrySet, "map_entry", &options)
}

fn options_of_message<'a>(
    alloc: Global,
    body: &'a [MessageStatement],
) -> Result<Vec<&'a ProtobufOption>, AllocError>
    ensures { IfOk result (λ v. options_view v.items
        ≡ flat_map spec.option_in_message (map message_statement_syntax body.now)) }
{
    let mut options = Vec::new(alloc);
    'body: for statement in body {
        if let MessageStatement::Option(statement) = statement {
            options.push(&statement.option)?;
        }
    }
    Ok(options)
}
