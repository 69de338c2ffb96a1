//! Options.

ghost use Rattle.std.specs.Prelude.{◌≡◌, ◌∷◌, [], map, codes};
ghost use Rattle.protobuf_parse_base.specs.Characters as char;
ghost use Rattle.protobuf_parse_grammar.specs.Readers.{starts};
ghost use Rattle.protobuf_parse_grammar.specs.Combinators.{with_first};
ghost use Rattle.protobuf_parse_lexer.specs.Classes as class;
ghost use Rattle.protobuf_parse_lexer.specs.Text.{seen_by};
ghost use Rattle.protobuf_parse_syntax.specs.ClassLaws.{lexicon};
ghost use Rattle.protobuf_parse_syntax.specs.Productions as read;
ghost use Rattle.protobuf_parse_syntax.specs.Trees as view;
ghost use Rattle.protobuf_parse_syntax.specs.Code.{left, Gives, GivesOr, TooMany, IsWrong};
ghost use Rattle.protobuf_parse_syntax.specs.Code.{LongName, InOption, Behind, AreEarlier};
ghost use Rattle.protobuf_parse_syntax.specs.Code.{IsListFront, IsCommaAlone, begins_part};
ghost use Rattle.protobuf_parse_syntax.specs.Grammar.{IsAssignment};
ghost use Rattle.protobuf_parse_syntax.specs.Nested as nest;

use crate::parser::constant::constant;
use crate::parser::cursor::Cursor;
use crate::parser::list::push_some;
use crate::parser::name::name;
use crate::parser::refusal::Refusal;
use crate::tree::{OptionStatement, ProtobufOption, ProtobufOptionName, ProtobufOptionNamePart};
use protobuf_parse_lexer::ParserError;
use std::alloc::Global;

/// The most parts that an option's name may have behind its first.
const MAX_OTHER_PARTS: usize = 99;

/// `option = "option" optname "=" constant ";"`
#[tactic(auto, unfolding(crate::specs::Nested::option_parts))]
pub fn option(
    alloc: Global,
    tokens: &mut Cursor<'_>,
    levels: usize,
) -> Result<OptionStatement, Refusal>
    ensures { Gives view.option_statement_syntax result (left tokens.new)
        ((nest.option levels).low.run (left tokens.old)) }
{
    let place = tokens.place();
    tokens.word("option")?;
    let option = assignment(alloc, tokens, levels)?;
    tokens.symbol(';')?;
    Ok(OptionStatement { place, option })
}

/// `[ "[" optname "=" constant { "," optname "=" constant } "]" ]`
#[tactic(auto, unfolding(crate::specs::Nested::options_pair))]
pub fn options(
    alloc: Global,
    tokens: &mut Cursor<'_>,
    levels: usize,
) -> Result<Vec<ProtobufOption>, Refusal>
    ensures { GivesOr (IsWrong (Behind (IsListFront levels) InOption) (left tokens.old))
        (λ v. map view.option_syntax v.items) result (left tokens.new)
        ((nest.options levels).low.run (left tokens.old)) }
{
    if !tokens.sees_symbol('[') {
        return Ok(Vec::new(alloc));
    }
    bracketed_options(alloc, tokens, levels)
}

/// `"[" optname "=" constant { "," optname "=" constant } "]"`
#[tactic(auto, unfolding(crate::specs::Nested::bracketed_options))]
fn bracketed_options(
    alloc: Global,
    tokens: &mut Cursor<'_>,
    levels: usize,
) -> Result<Vec<ProtobufOption>, Refusal>
    ensures { GivesOr (IsWrong (Behind (IsListFront levels) InOption) (left tokens.old))
        (λ v. map view.option_syntax v.items) result (left tokens.new)
        ((nest.bracketed_options levels).low.run (left tokens.old)) }
{
    tokens.symbol('[')?;
    let options = assignments(alloc, tokens, levels)?;
    tokens.symbol(']')?;
    Ok(options)
}

fn assignments(
    alloc: Global,
    tokens: &mut Cursor<'_>,
    levels: usize,
) -> Result<Vec<ProtobufOption>, Refusal>
    ensures { GivesOr (IsWrong (Behind (AreEarlier (IsAssignment levels)) InOption)
        (left tokens.old)) (λ v. map view.option_syntax v.items) result (left tokens.new)
        ((nest.assignments levels).low.run (left tokens.old)) }
{
    let mut options = Vec::with_capacity(alloc, 1)?;
    options.push(assignment(alloc, tokens, levels)?)?;
    'others: while tokens.sees_symbol(',') {
        let option = comma_assignment(alloc, tokens, levels)?;
        options.push(option)?;
    }
    Ok(options)
}

/// `"," optname "=" constant`
fn comma_assignment(
    alloc: Global,
    tokens: &mut Cursor<'_>,
    levels: usize,
) -> Result<ProtobufOption, Refusal>
    ensures { GivesOr (IsWrong (Behind IsCommaAlone InOption) (left tokens.old))
        view.option_syntax result (left tokens.new)
        ((nest.comma_assignment levels).low.run (left tokens.old)) }
{
    tokens.symbol(',')?;
    assignment(alloc, tokens, levels)
}

/// `optname "=" constant`
#[tactic(auto, unfolding(crate::specs::Nested::assignment), using(crate::specs::Code::fails_first))]
fn assignment(
    alloc: Global,
    tokens: &mut Cursor<'_>,
    levels: usize,
) -> Result<ProtobufOption, Refusal>
    ensures { GivesOr (IsWrong InOption (left tokens.old)) view.option_syntax result
        (left tokens.new) ((nest.assignment levels).low.run (left tokens.old)) }
{
    let place = tokens.place();
    let name = option_name(alloc, tokens)?;
    tokens.symbol('=')?;
    let value = constant(alloc, tokens, levels)?;
    Ok(ProtobufOption { place, name, value })
}

/// `optname = optpart { "." optpart }`, of at most 100 parts
#[tactic(auto, unfolding(crate::specs::Productions::option_name), using(crate::specs::Code::fails_first))]
fn option_name(alloc: Global, tokens: &mut Cursor<'_>) -> Result<ProtobufOptionName, Refusal>
    ensures { GivesOr (IsWrong LongName (left tokens.old)) view.option_name_syntax result
        (left tokens.new) (read.option_name.run (left tokens.old)) }
{
    let first = option_part(alloc, tokens)?;
    if tokens.sees_symbol('.') {
        return Ok(ProtobufOptionName::Custom(parts(alloc, tokens, first)?));
    }
    match first {
        ProtobufOptionNamePart::Direct(name) => Ok(ProtobufOptionName::Builtin(name)),
        ProtobufOptionNamePart::Ext(_) => {
            let mut parts = Vec::with_capacity(alloc, 1)?;
            parts.push(first)?;
            Ok(ProtobufOptionName::Custom(parts))
        }
    }
}

/// The first part and `{ "." optpart }` behind it.
fn parts(
    alloc: Global,
    tokens: &mut Cursor<'_>,
    first: ProtobufOptionNamePart,
) -> Result<Vec<ProtobufOptionNamePart>, Refusal>
    ensures { GivesOr TooMany (λ v. map view.option_part_syntax v.items) result (left tokens.new)
        (with_first (view.option_part_syntax first) ((read.parts_up_to 99).run (left tokens.old))) }
{
    let mut parts = Vec::with_capacity(alloc, 2)?;
    parts.push(first)?;
    let mut room = MAX_OTHER_PARTS;
    'others: while room > 0 {
        if !tokens.sees_symbol('.') {
            return Ok(parts);
        }
        let part = next_part(alloc, tokens)?;
        parts.push(part)?;
        room -= 1;
    }
    no_more_parts(tokens)?;
    Ok(parts)
}

/// `"." optpart`
#[tactic(auto, unfolding(crate::specs::Productions::next_part), using(crate::specs::Code::fails_first))]
fn next_part(alloc: Global, tokens: &mut Cursor<'_>) -> Result<ProtobufOptionNamePart, Refusal>
    ensures { Gives view.option_part_syntax result (left tokens.new)
        (read.next_part.run (left tokens.old)) }
{
    tokens.symbol('.')?;
    option_part(alloc, tokens)
}

/// That no part follows the 100th. S7 at the first token of another part, S8 at a dot with no part
/// behind it.
fn no_more_parts(tokens: &mut Cursor<'_>) -> Result<(), Refusal>
    ensures { GivesOr TooMany (λ u. []) result (left tokens.new)
        ((read.parts_up_to 0).run (left tokens.old)) }
{
    if !tokens.sees_symbol('.') {
        return Ok(());
    }
    let before = *tokens;
    tokens.symbol('.')?;
    if begins_option_part(tokens) {
        return Err(Refusal::Fault(ParserError::OptionNameTooLong));
    }
    *tokens = before;
    Err(Refusal::Fault(ParserError::IncorrectInput))
}

/// Whether a part of an option's name comes next.
#[tactic(auto, unfolding(protobuf_parse_grammar::specs::Readers::starts))]
fn begins_option_part(tokens: &Cursor<'_>) -> bool
    ensures { result ≡ begins_part (left tokens.now) }
{
    tokens.sees_ident() || tokens.sees_symbol('(')
}

/// `optpart = ident | "(" name ")"`
#[tactic(auto, unfolding(crate::specs::Productions::option_part), using(crate::specs::Code::fails_first))]
fn option_part(alloc: Global, tokens: &mut Cursor<'_>) -> Result<ProtobufOptionNamePart, Refusal>
    ensures { Gives view.option_part_syntax result (left tokens.new)
        (read.option_part.run (left tokens.old)) }
{
    if tokens.sees_ident() {
        return Ok(ProtobufOptionNamePart::Direct(tokens.ident_name(alloc)?));
    }
    tokens.symbol('(')?;
    let name = name(alloc, tokens)?;
    tokens.symbol(')')?;
    Ok(ProtobufOptionNamePart::Ext(name))
}

/// `"{" { option | ";" } "}"`
#[tactic(auto, unfolding(crate::specs::Nested::option_body), using(crate::specs::Code::fails_first))]
pub fn option_body(
    alloc: Global,
    tokens: &mut Cursor<'_>,
    levels: usize,
) -> Result<Vec<OptionStatement>, Refusal>
    ensures { Gives (λ v. map view.option_statement_syntax v.items) result (left tokens.new)
        ((nest.option_body levels).low.run (left tokens.old)) }
{
    tokens.symbol('{')?;
    let options = option_statements(alloc, tokens, levels)?;
    tokens.symbol('}')?;
    Ok(options)
}

#[tactic(auto, unfolding(crate::specs::Nested::option_items))]
fn option_statements(
    alloc: Global,
    tokens: &mut Cursor<'_>,
    levels: usize,
) -> Result<Vec<OptionStatement>, Refusal>
    ensures { Gives (λ v. map view.option_statement_syntax v.items) result (left tokens.new)
        ((nest.option_items levels).low.run (left tokens.old)) }
{
    let mut options = Vec::new(alloc);
    'items: while begins_option_item(tokens) {
        let item = option_item(alloc, tokens, levels)?;
        push_some(&mut options, item)?;
    }
    Ok(options)
}

#[tactic(auto, using(crate::proofs::Left::starts_more))]
fn begins_option_item(tokens: &Cursor<'_>) -> bool
    ensures { result ≡ starts lexicon
        (class.symbol char.semicolon ∷ class.word (codes "option") ∷ []) (left tokens.now) }
{
    tokens.sees_symbol(';') || tokens.sees_word("option")
}

/// An option, or nothing at a semicolon.
#[tactic(auto, unfolding(crate::specs::Nested::option_item), using(crate::specs::Code::fails_first))]
fn option_item(
    alloc: Global,
    tokens: &mut Cursor<'_>,
    levels: usize,
) -> Result<Option<OptionStatement>, Refusal>
    ensures { Gives (seen_by view.option_statement_syntax) result (left tokens.new)
        ((nest.option_item levels).low.run (left tokens.old)) }
{
    if tokens.sees_symbol(';') {
        tokens.symbol(';')?;
        return Ok(None);
    }
    Ok(Some(option(alloc, tokens, levels)?))
}
