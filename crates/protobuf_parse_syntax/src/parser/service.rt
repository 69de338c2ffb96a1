//! Services and their methods.

ghost use Rattle.std.specs.Prelude.{map, string_bytes};
ghost use Rattle.protobuf_parse_lexer.specs.Text.{seen_by};
ghost use Rattle.protobuf_parse_syntax.specs.Productions as read;
ghost use Rattle.protobuf_parse_syntax.specs.Trees as view;
ghost use Rattle.protobuf_parse_syntax.specs.Code.{left, Gives};
ghost use Rattle.protobuf_parse_syntax.specs.Nested as nest;

use crate::parser::cursor::Cursor;
use crate::parser::list::push_some;
use crate::parser::name::name;
use crate::parser::option::{option, option_body};
use crate::parser::refusal::Refusal;
use crate::parser::words::begins_service_statement;
use crate::tree::{Method, OptionStatement, Service, ServiceStatement, Syntax};
use std::alloc::Global;

/// `service = "service" ident "{" { rpc | stream | option | ";" } "}"`
#[tactic(auto, using(crate::specs::Code::fails_first, crate::proofs::Versions::service_runs))]
pub fn service(
    alloc: Global,
    tokens: &mut Cursor<'_>,
    syntax: Syntax,
    levels: usize,
) -> Result<Service, Refusal>
    ensures { Gives view.service_syntax result (left tokens.new)
        ((nest.service syntax levels).low.run (left tokens.old)) }
{
    let place = tokens.place();
    tokens.word("service")?;
    let name = tokens.ident_name(alloc)?;
    tokens.symbol('{')?;
    let body = service_statements(alloc, tokens, syntax, levels)?;
    tokens.symbol('}')?;
    Ok(Service { place, name, body })
}

/// The statements of a service, up to the first token that begins none.
fn service_statements(
    alloc: Global,
    tokens: &mut Cursor<'_>,
    syntax: Syntax,
    levels: usize,
) -> Result<Vec<ServiceStatement>, Refusal>
    ensures { Gives (λ v. map view.service_statement_syntax v.items) result (left tokens.new)
        ((nest.service_items syntax levels).low.run (left tokens.old)) }
{
    let mut body = Vec::new(alloc);
    'items: while begins_service_statement(tokens, syntax) {
        let item = service_item(alloc, tokens, syntax, levels)?;
        push_some(&mut body, item)?;
    }
    Ok(body)
}

/// A statement of a service, or nothing at a semicolon.
#[tactic(auto, using(crate::specs::Code::fails_first, crate::proofs::Versions::service_item_runs))]
fn service_item(
    alloc: Global,
    tokens: &mut Cursor<'_>,
    syntax: Syntax,
    levels: usize,
) -> Result<Option<ServiceStatement>, Refusal>
    ensures { Gives (seen_by view.service_statement_syntax) result (left tokens.new)
        ((nest.service_item syntax levels).low.run (left tokens.old)) }
{
    if tokens.sees_symbol(';') {
        tokens.symbol(';')?;
        return Ok(None);
    }
    Ok(Some(service_statement(alloc, tokens, syntax, levels)?))
}

/// `rpc | stream | option`, where `stream` stands in proto2 alone.
#[tactic(auto, using(crate::specs::Code::fails_first, crate::proofs::Versions::service_statement_runs))]
fn service_statement(
    alloc: Global,
    tokens: &mut Cursor<'_>,
    syntax: Syntax,
    levels: usize,
) -> Result<ServiceStatement, Refusal>
    ensures { Gives view.service_statement_syntax result (left tokens.new)
        ((nest.service_statement syntax levels).low.run (left tokens.old)) }
{
    if tokens.sees_word("rpc") {
        return Ok(ServiceStatement::Method(rpc(alloc, tokens, levels)?));
    }
    if matches!(syntax, Syntax::Proto2) && tokens.sees_word("stream") {
        return Ok(ServiceStatement::Method(stream(alloc, tokens, levels)?));
    }
    Ok(ServiceStatement::Option(option(alloc, tokens, levels)?))
}

/// `rpc = "rpc" ident "(" [ "stream" ] name ")" "returns" "(" [ "stream" ] name ")" end`
#[tactic(auto, unfolding(crate::specs::Nested::rpc), using(crate::specs::Code::fails_first))]
fn rpc(alloc: Global, tokens: &mut Cursor<'_>, levels: usize) -> Result<Method, Refusal>
    ensures { Gives view.method_syntax result (left tokens.new)
        ((nest.rpc levels).low.run (left tokens.old)) }
{
    let place = tokens.place();
    tokens.word("rpc")?;
    let name = tokens.ident_name(alloc)?;
    let (client_streaming, input) = streamed(alloc, tokens)?;
    tokens.word("returns")?;
    let (server_streaming, output) = streamed(alloc, tokens)?;
    let options = method_end(alloc, tokens, levels)?;
    Ok(Method {
        place,
        name,
        input,
        output,
        client_streaming,
        server_streaming,
        options,
    })
}

/// `"(" [ "stream" ] name ")"`: whether the word stands there, and the name.
#[tactic(auto, unfolding(crate::specs::Productions::streamed), using(crate::specs::Code::fails_first))]
fn streamed(alloc: Global, tokens: &mut Cursor<'_>) -> Result<(bool, String), Refusal>
    ensures { Gives (λ s. (s.0, string_bytes s.1)) result (left tokens.new)
        (read.streamed.run (left tokens.old)) }
{
    tokens.symbol('(')?;
    let streaming = tokens.sees_word("stream");
    if streaming {
        tokens.word("stream")?;
    }
    let name = name(alloc, tokens)?;
    tokens.symbol(')')?;
    Ok((streaming, name))
}

/// `stream = "stream" ident "(" name "," name ")" end`
#[tactic(auto, unfolding(crate::specs::Nested::stream), using(crate::specs::Code::fails_first))]
fn stream(alloc: Global, tokens: &mut Cursor<'_>, levels: usize) -> Result<Method, Refusal>
    ensures { Gives view.method_syntax result (left tokens.new)
        ((nest.stream levels).low.run (left tokens.old)) }
{
    let place = tokens.place();
    tokens.word("stream")?;
    let method_name = tokens.ident_name(alloc)?;
    tokens.symbol('(')?;
    let input = name(alloc, tokens)?;
    tokens.symbol(',')?;
    let output = name(alloc, tokens)?;
    tokens.symbol(')')?;
    let options = method_end(alloc, tokens, levels)?;
    Ok(Method {
        place,
        name: method_name,
        input,
        output,
        client_streaming: true,
        server_streaming: true,
        options,
    })
}

/// `end = ";" | "{" { option | ";" } "}"`
#[tactic(auto, unfolding(crate::specs::Nested::method_end), using(crate::specs::Code::fails_first))]
fn method_end(
    alloc: Global,
    tokens: &mut Cursor<'_>,
    levels: usize,
) -> Result<Vec<OptionStatement>, Refusal>
    ensures { Gives (λ v. map view.option_statement_syntax v.items) result (left tokens.new)
        ((nest.method_end levels).low.run (left tokens.old)) }
{
    if tokens.sees_symbol(';') {
        tokens.symbol(';')?;
        return Ok(Vec::new(alloc));
    }
    option_body(alloc, tokens, levels)
}
