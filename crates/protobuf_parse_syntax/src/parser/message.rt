//! Messages, oneofs and extensions.

ghost use Rattle.std.specs.Prelude.{map};
ghost use Rattle.protobuf_parse_lexer.specs.Text.{seen_by};
ghost use Rattle.protobuf_parse_syntax.specs.Trees as view;
ghost use Rattle.protobuf_parse_syntax.specs.InnerViews.{message_statement_syntax};
ghost use Rattle.protobuf_parse_syntax.specs.Code.{left, Gives, Puts, PutsSome};
ghost use Rattle.protobuf_parse_syntax.specs.Nested as nest;

use crate::parser::cursor::Cursor;
use crate::parser::enumeration::{enumeration, extensions, reserved};
use crate::parser::field::{extend_body, field, oneof_field};
use crate::parser::list::push_some;
use crate::parser::name::name;
use crate::parser::option::option;
use crate::parser::refusal::Refusal;
use crate::parser::words::{begins_message_statement, begins_oneof_statement, sees_statement_word};
use crate::tree::{Extend, Message, MessageStatement, OneOf, OneOfStatement, Syntax};
use protobuf_parse_lexer::ParserError;
use std::alloc::Global;

/// A message of at most so many levels.
#[cycle(message)]
#[tactic(auto, using(crate::specs::Nested::message_zero, crate::specs::Nested::message_more))]
pub fn message(
    alloc: Global,
    tokens: &mut Cursor<'_>,
    syntax: Syntax,
    levels: usize,
) -> Result<Message, Refusal>
    ensures { Gives view.message_syntax result (left tokens.new)
        ((nest.message syntax levels).run (left tokens.old)) }
{
    if levels == 0 {
        return Err(Refusal::Fault(ParserError::NestingTooDeep));
    }
    message_of(alloc, tokens, syntax, levels - 1)
}

/// `message = "message" ident "{" { statement } "}"`, where
/// `statement = ";" | reserved | oneof | extend | message | enum | extensions | option | field`
#[cycle(message)]
#[tactic(auto, using(crate::specs::Code::fails_first, crate::proofs::Versions::message_in_runs, crate::proofs::Messages::view_parts))]
fn message_of(
    alloc: Global,
    tokens: &mut Cursor<'_>,
    syntax: Syntax,
    levels: usize,
) -> Result<Message, Refusal>
    ensures { Gives view.message_syntax result (left tokens.new)
        ((nest.message_in syntax levels).low.run (left tokens.old)) }
{
    let place = tokens.place();
    tokens.word("message")?;
    let name = tokens.ident_name(alloc)?;
    tokens.symbol('{')?;
    let body = message_statements(alloc, tokens, syntax, levels)?;
    tokens.symbol_or('}', Refusal::NoField)?;
    Ok(Message { place, name, body })
}

/// The statements of a message, up to the first token that begins none.
#[cycle(message)]
fn message_statements(
    alloc: Global,
    tokens: &mut Cursor<'_>,
    syntax: Syntax,
    levels: usize,
) -> Result<Vec<MessageStatement>, Refusal>
    ensures { Gives (λ v. map message_statement_syntax v.items) result (left tokens.new)
        ((nest.message_items syntax levels).low.run (left tokens.old)) }
{
    let mut body = Vec::new(alloc);
    'items: while begins_message_statement(tokens, syntax) {
        message_item(alloc, tokens, syntax, levels, &mut body)?;
    }
    Ok(body)
}

/// Puts a statement of a message behind those of its body, or nothing at a semicolon.
#[cycle(message)]
#[tactic(auto, using(crate::specs::Code::fails_first, crate::proofs::Versions::message_item_runs))]
fn message_item(
    alloc: Global,
    tokens: &mut Cursor<'_>,
    syntax: Syntax,
    levels: usize,
    body: &mut Vec<MessageStatement>,
) -> Result<(), Refusal>
    ensures { PutsSome message_statement_syntax result body.old.items body.new.items
        (left tokens.new) ((nest.message_item syntax levels).low.run (left tokens.old)) }
{
    if tokens.sees_symbol(';') {
        tokens.symbol(';')?;
        return Ok(());
    }
    message_statement(alloc, tokens, syntax, levels, body)
}

/// Puts a statement of a message behind those of its body. Most are fields, for which the room that
/// other statements need is not cleared.
#[cycle(message)]
fn message_statement(
    alloc: Global,
    tokens: &mut Cursor<'_>,
    syntax: Syntax,
    levels: usize,
    body: &mut Vec<MessageStatement>,
) -> Result<(), Refusal>
    ensures { Puts message_statement_syntax result body.old.items body.new.items
        (left tokens.new) ((nest.message_statement syntax levels).low.run (left tokens.old)) }
{
    if sees_statement_word(tokens) {
        return put_other_statement(alloc, tokens, syntax, levels, body);
    }
    let field = field(alloc, tokens, syntax, levels)?;
    body.push(MessageStatement::Field(field))?;
    Ok(())
}

/// The same of a statement that may be no field.
#[cycle(message)]
fn put_other_statement(
    alloc: Global,
    tokens: &mut Cursor<'_>,
    syntax: Syntax,
    levels: usize,
    body: &mut Vec<MessageStatement>,
) -> Result<(), Refusal>
    ensures { Puts message_statement_syntax result body.old.items body.new.items
        (left tokens.new) ((nest.message_statement syntax levels).low.run (left tokens.old)) }
{
    let statement = other_statement(alloc, tokens, syntax, levels)?;
    body.push(statement)?;
    Ok(())
}

/// `reserved | oneof | extend | message | enum | extensions | option | field`, where `extensions`
/// stand in proto2 alone.
#[cycle(message)]
fn other_statement(
    alloc: Global,
    tokens: &mut Cursor<'_>,
    syntax: Syntax,
    levels: usize,
) -> Result<MessageStatement, Refusal>
    ensures { Gives message_statement_syntax result (left tokens.new)
        ((nest.message_statement syntax levels).low.run (left tokens.old)) }
{
    if tokens.sees_word("reserved") {
        return Ok(MessageStatement::Reserved(reserved(alloc, tokens)?));
    }
    if tokens.sees_word("oneof") {
        return Ok(MessageStatement::OneOf(oneof(alloc, tokens, syntax, levels)?));
    }
    if tokens.sees_word("extend") {
        return Ok(MessageStatement::Extend(extend(alloc, tokens, syntax, levels)?));
    }
    if tokens.sees_word("message") {
        return Ok(MessageStatement::Message(message(alloc, tokens, syntax, levels)?));
    }
    if tokens.sees_word("enum") {
        return Ok(MessageStatement::Enumeration(enumeration(alloc, tokens, levels)?));
    }
    if matches!(syntax, Syntax::Proto2) && tokens.sees_word("extensions") {
        return Ok(MessageStatement::Extensions(extensions(alloc, tokens)?));
    }
    if tokens.sees_word("option") {
        return Ok(MessageStatement::Option(option(alloc, tokens, levels)?));
    }
    Ok(MessageStatement::Field(field(alloc, tokens, syntax, levels)?))
}

/// `oneof = "oneof" ident "{" { ";" | option | field } "}"`
#[tactic(auto, unfolding(crate::specs::Nested::oneof_pair), using(crate::specs::Code::fails_first))]
fn oneof(
    alloc: Global,
    tokens: &mut Cursor<'_>,
    syntax: Syntax,
    levels: usize,
) -> Result<OneOf, Refusal>
    ensures { Gives view.oneof_syntax result (left tokens.new)
        ((nest.oneof syntax levels).low.run (left tokens.old)) }
{
    let place = tokens.place();
    tokens.word("oneof")?;
    let name = tokens.ident_name(alloc)?;
    tokens.symbol('{')?;
    let body = oneof_statements(alloc, tokens, syntax, levels)?;
    tokens.symbol_or('}', Refusal::NoOneofField)?;
    Ok(OneOf { place, name, body })
}

/// The statements of a oneof, up to the first token that begins none.
fn oneof_statements(
    alloc: Global,
    tokens: &mut Cursor<'_>,
    syntax: Syntax,
    levels: usize,
) -> Result<Vec<OneOfStatement>, Refusal>
    ensures { Gives (λ v. map view.oneof_statement_syntax v.items) result (left tokens.new)
        ((nest.oneof_items syntax levels).low.run (left tokens.old)) }
{
    let mut body = Vec::new(alloc);
    'items: while begins_oneof_statement(tokens) {
        let item = oneof_item(alloc, tokens, syntax, levels)?;
        push_some(&mut body, item)?;
    }
    Ok(body)
}

/// A statement of a oneof, or nothing at a semicolon.
#[tactic(auto, unfolding(crate::specs::Nested::oneof_item, crate::specs::Nested::oneof_statement), using(crate::specs::Code::fails_first))]
fn oneof_item(
    alloc: Global,
    tokens: &mut Cursor<'_>,
    syntax: Syntax,
    levels: usize,
) -> Result<Option<OneOfStatement>, Refusal>
    ensures { Gives (seen_by view.oneof_statement_syntax) result (left tokens.new)
        ((nest.oneof_item syntax levels).low.run (left tokens.old)) }
{
    if tokens.sees_symbol(';') {
        tokens.symbol(';')?;
        return Ok(None);
    }
    if tokens.sees_word("option") {
        let option = option(alloc, tokens, levels)?;
        return Ok(Some(OneOfStatement::Option(option)));
    }
    let field = oneof_field(alloc, tokens, syntax, levels)?;
    Ok(Some(OneOfStatement::Field(field)))
}

/// `extend = "extend" name "{" { ";" | field } "}"`
#[tactic(auto, unfolding(crate::specs::Nested::extend_pair), using(crate::specs::Code::fails_first))]
pub fn extend(
    alloc: Global,
    tokens: &mut Cursor<'_>,
    syntax: Syntax,
    levels: usize,
) -> Result<Extend, Refusal>
    ensures { Gives view.extend_syntax result (left tokens.new)
        ((nest.extend syntax levels).low.run (left tokens.old)) }
{
    let place = tokens.place();
    tokens.word("extend")?;
    let extendee = name(alloc, tokens)?;
    let fields = extend_body(alloc, tokens, syntax, levels)?;
    Ok(Extend {
        place,
        extendee,
        fields,
    })
}
