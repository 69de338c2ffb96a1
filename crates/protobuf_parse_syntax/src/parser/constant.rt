//! Constants.

ghost use Rattle.std.specs.Prelude.{◌≡◌, ◌≤◌, ◌∷◌, [], map, string_bytes, pos, false};
ghost use Rattle.protobuf_parse_base.specs.Characters as char;
ghost use Rattle.protobuf_parse_grammar.specs.Readers.{starts};
ghost use Rattle.protobuf_parse_grammar.specs.Pairs.{both};
ghost use Rattle.protobuf_parse_lexer.specs.Classes as class;
ghost use Rattle.protobuf_parse_syntax.specs.ClassLaws.{lexicon};
ghost use Rattle.protobuf_parse_syntax.specs.Grammar as grammar;
ghost use Rattle.protobuf_parse_syntax.specs.Productions as read;
ghost use Rattle.protobuf_parse_syntax.specs.Trees as view;
ghost use Rattle.protobuf_parse_syntax.specs.InnerViews.{constant_field_syntax};
ghost use Rattle.protobuf_parse_syntax.specs.Grammar.{IsConstant};
ghost use Rattle.protobuf_parse_syntax.specs.Code.{left, Gives, GivesOr, Stands, IsWrong};
ghost use Rattle.protobuf_parse_syntax.specs.Code.{InConstant, InValue, InField, AreFields};
ghost use Rattle.protobuf_parse_syntax.specs.Code.{AreEarlier, Behind};
ghost use Rattle.protobuf_parse_syntax.specs.Nested as nest;

use crate::parser::cursor::Cursor;
use crate::parser::name::{dotted, name, string};
use crate::parser::refusal::Refusal;
use crate::tree::{ConstantField, ConstantFieldName, ProtobufConstant};
use protobuf_parse_lexer::ParserError;
use std::alloc::Global;

/// A constant of at most so many levels. S9 where a token begins none, S18 at a float.
#[cycle(constant)]
#[tactic(auto, using(crate::specs::Nested::constant_zero, crate::specs::Nested::constant_more))]
pub fn constant(
    alloc: Global,
    tokens: &mut Cursor<'_>,
    levels: usize,
) -> Result<ProtobufConstant, Refusal>
    ensures { GivesOr (IsWrong InConstant (left tokens.old)) view.constant_syntax result
        (left tokens.new) ((nest.constant levels).run (left tokens.old)) }
{
    if levels == 0 {
        return Err(Refusal::Fault(ParserError::NestingTooDeep));
    }
    constant_of(alloc, tokens, levels - 1)
}

/// `constant = msgconst | list | "true" | "false" | [ "+" | "-" ] int | str | ident { "." ident }`
#[cycle(constant)]
#[tactic(auto, unfolding(crate::specs::Nested::constant_of, crate::specs::Productions::integer_constant), using(crate::specs::Code::fails_first, crate::proofs::Views::views_text, crate::proofs::Constants::str_absent, crate::proofs::Constants::none_begins))]
fn constant_of(
    alloc: Global,
    tokens: &mut Cursor<'_>,
    levels: usize,
) -> Result<ProtobufConstant, Refusal>
    ensures { GivesOr (IsWrong InConstant (left tokens.old)) view.constant_syntax result
        (left tokens.new) ((nest.constant_in levels).run (left tokens.old)) }
{
    if tokens.sees_symbol('{') {
        return message_constant(alloc, tokens, levels);
    }
    if tokens.sees_symbol('[') {
        return list(alloc, tokens, levels);
    }
    if tokens.sees_ident() {
        return word_constant(alloc, tokens);
    }
    if begins_integer(tokens) {
        return integer(tokens);
    }
    if tokens.sees_str() {
        return Ok(ProtobufConstant::String(string(alloc, tokens)?));
    }
    if tokens.sees_float() {
        return Err(Refusal::Fault(ParserError::FloatConstant));
    }
    Err(Refusal::Fault(constant_fault(tokens)))
}

/// Why no constant begins with the next token, which is no float.
#[tactic(auto, using(crate::proofs::Constants::begins_none))]
fn constant_fault(tokens: &Cursor<'_>) -> ParserError
    requires { starts lexicon nest.item_firsts (left tokens.now) ≡ false }
    ensures { Stands result (left tokens.now) }
{
    if tokens.is_empty() {
        ParserError::IncorrectInput
    } else {
        ParserError::ExpectConstant
    }
}

/// `true`, `false`, or a name that begins with neither.
#[tactic(auto, unfolding(crate::specs::Productions::word_constant), using(crate::specs::Code::fails_first, crate::specs::Productions::word_constant_name))]
fn word_constant(alloc: Global, tokens: &mut Cursor<'_>) -> Result<ProtobufConstant, Refusal>
    ensures { Gives view.constant_syntax result (left tokens.new)
        (read.word_constant.run (left tokens.old)) }
{
    if tokens.sees_word("true") {
        tokens.word("true")?;
        return Ok(ProtobufConstant::Bool(true));
    }
    if tokens.sees_word("false") {
        tokens.word("false")?;
        return Ok(ProtobufConstant::Bool(false));
    }
    Ok(ProtobufConstant::Ident(dotted(alloc, tokens)?))
}

/// Whether a constant may begin with the next token.
#[tactic(auto, using(crate::proofs::Left::starts_more))]
fn begins_constant(tokens: &Cursor<'_>) -> bool
    ensures { result ≡ starts lexicon nest.constant_firsts (left tokens.now) }
{
    tokens.sees_symbol('{')
        || tokens.sees_symbol('[')
        || tokens.sees_ident()
        || begins_integer(tokens)
        || tokens.sees_str()
}

/// Whether a constant may begin with the next token, or it is a float, which is told where a
/// constant is read.
#[tactic(auto, using(crate::proofs::Constants::item_starts))]
fn begins_item(tokens: &Cursor<'_>) -> bool
    ensures { result ≡ starts lexicon nest.item_firsts (left tokens.now) }
{
    begins_constant(tokens) || tokens.sees_float()
}

#[tactic(auto, using(crate::proofs::Left::starts_more))]
fn begins_integer(tokens: &Cursor<'_>) -> bool
    ensures { result ≡ starts lexicon
        (class.integer ∷ class.symbol char.plus ∷ class.symbol char.minus ∷ [])
        (left tokens.now) }
{
    tokens.sees_integer() || tokens.sees_symbol('+') || tokens.sees_symbol('-')
}

/// `[ "+" | "-" ] int`
#[tactic(auto, unfolding(crate::specs::Productions::integer_constant, crate::specs::Productions::signed), using(crate::specs::Code::fails_first, crate::proofs::Views::views_number, crate::proofs::Views::views_signed))]
fn integer(tokens: &mut Cursor<'_>) -> Result<ProtobufConstant, Refusal>
    ensures { GivesOr (IsWrong InConstant (left tokens.old)) view.constant_syntax result
        (left tokens.new) (read.integer_constant.run (left tokens.old)) }
{
    if tokens.sees_integer() {
        return Ok(ProtobufConstant::U64(tokens.number()?));
    }
    if tokens.sees_symbol('+') {
        return Ok(ProtobufConstant::U64(plus(tokens)?));
    }
    Ok(ProtobufConstant::I64(minus(tokens)?))
}

/// `"+" int`. S18 at the sign before a float, `inf` or `nan`.
#[tactic(auto, using(crate::specs::Code::fails_first, crate::proofs::Constants::plus_absent, crate::proofs::Constants::plus_fails, crate::proofs::Constants::plus_plain))]
fn plus(tokens: &mut Cursor<'_>) -> Result<u64, Refusal>
    ensures { GivesOr (IsWrong InConstant (left tokens.old)) pos result (left tokens.new)
        (read.plus.run (left tokens.old)) }
{
    if !tokens.sees_symbol('+') {
        return Err(Refusal::Fault(ParserError::IncorrectInput));
    }
    if tokens.sees_float_second() {
        return Err(Refusal::Fault(ParserError::FloatConstant));
    }
    tokens.symbol('+')?;
    Ok(tokens.number()?)
}

/// `"-" int`. S18 at the sign before a float, `inf` or `nan`.
#[tactic(auto, using(crate::specs::Code::fails_first, crate::proofs::Constants::minus_absent, crate::proofs::Constants::minus_fails, crate::proofs::Constants::minus_plain))]
fn minus(tokens: &mut Cursor<'_>) -> Result<i64, Refusal>
    ensures { GivesOr (IsWrong InConstant (left tokens.old)) (λ n. n) result (left tokens.new)
        (read.minus.run (left tokens.old)) }
{
    if !tokens.sees_symbol('-') {
        return Err(Refusal::Fault(ParserError::IncorrectInput));
    }
    if tokens.sees_float_second() {
        return Err(Refusal::Fault(ParserError::FloatConstant));
    }
    tokens.symbol('-')?;
    let number = tokens.number_up_to(1 << 63)?;
    Ok(negative(number))
}

/// The number with a minus sign.
#[tactic(auto, using(crate::specs::Code::fails_first))]
fn negative(number: u64) -> i64
    requires { number ≤ 9223372036854775808 }
    ensures { result ≡ grammar.negative number }
{
    if number == 0 {
        0
    } else {
        -1 - (number - 1) as i64
    }
}

/// `list = "[" "]" | "[" constant { "," constant } "]"`
#[cycle(constant)]
#[tactic(auto, unfolding(crate::specs::Nested::list_of), using(crate::specs::Code::fails_first, crate::proofs::Views::views_list, crate::proofs::Constants::symbol_absent))]
fn list(alloc: Global, tokens: &mut Cursor<'_>, levels: usize) -> Result<ProtobufConstant, Refusal>
    ensures { GivesOr (IsWrong InConstant (left tokens.old)) view.constant_syntax result
        (left tokens.new)
        ((nest.list_of (both (nest.constant levels))).low.run (left tokens.old)) }
{
    tokens.symbol('[')?;
    if begins_item(tokens) {
        let mut items = constants(alloc, tokens, levels)?;
        tokens.symbol(']')?;
        items.shrink_to_fit();
        return Ok(ProtobufConstant::List(items));
    }
    if !tokens.sees_symbol(']') {
        return Err(Refusal::Fault(constant_fault(tokens)));
    }
    tokens.symbol(']')?;
    Ok(ProtobufConstant::List(Vec::new(alloc)))
}

/// `constant { "," constant }`
#[cycle(constant)]
#[tactic(auto, unfolding(crate::specs::Nested::constants_of), using(crate::specs::Code::fails_first))]
fn constants(
    alloc: Global,
    tokens: &mut Cursor<'_>,
    levels: usize,
) -> Result<Vec<ProtobufConstant>, Refusal>
    ensures { GivesOr (IsWrong (Behind (AreEarlier (IsConstant levels)) InConstant)
        (left tokens.old)) (λ v. map view.constant_syntax v.items) result (left tokens.new)
        ((nest.constants_of (both (nest.constant levels))).low.run (left tokens.old)) }
{
    let mut items = Vec::new(alloc);
    items.push(constant(alloc, tokens, levels)?)?;
    'others: while tokens.sees_symbol(',') {
        tokens.symbol(',')?;
        let item = constant(alloc, tokens, levels)?;
        items.push(item)?;
    }
    Ok(items)
}

/// `msgconst = "{" { cname ( ":" constant | msgconst ) [ "," | ";" ] } "}"`
#[cycle(constant)]
#[tactic(auto, unfolding(crate::specs::Nested::message_constant_of), using(crate::specs::Code::fails_first, crate::proofs::Views::views_fields))]
fn message_constant(
    alloc: Global,
    tokens: &mut Cursor<'_>,
    levels: usize,
) -> Result<ProtobufConstant, Refusal>
    ensures { GivesOr (IsWrong InConstant (left tokens.old)) view.constant_syntax result
        (left tokens.new)
        ((nest.message_constant_of (both (nest.constant levels))).low.run (left tokens.old)) }
{
    tokens.symbol('{')?;
    let mut fields = constant_fields(alloc, tokens, levels)?;
    tokens.symbol('}')?;
    fields.shrink_to_fit();
    Ok(ProtobufConstant::Message(fields))
}

#[cycle(constant)]
#[tactic(auto, unfolding(crate::specs::Nested::constant_fields_of), using(crate::proofs::Loops::with_all))]
fn constant_fields(
    alloc: Global,
    tokens: &mut Cursor<'_>,
    levels: usize,
) -> Result<Vec<ConstantField>, Refusal>
    ensures { GivesOr (IsWrong (Behind (AreFields levels) InField) (left tokens.old))
        (λ v. map constant_field_syntax v.items) result (left tokens.new)
        ((nest.constant_fields_of (both (nest.constant levels))).low.run (left tokens.old)) }
{
    let mut fields = Vec::new(alloc);
    'fields: while begins_constant_name(tokens) {
        let field = constant_field(alloc, tokens, levels)?;
        fields.push(field)?;
    }
    Ok(fields)
}

/// `cname ( ":" constant | msgconst ) [ "," | ";" ]`
#[cycle(constant)]
#[tactic(auto, unfolding(crate::specs::Nested::constant_field_of), using(crate::specs::Code::fails_first))]
fn constant_field(
    alloc: Global,
    tokens: &mut Cursor<'_>,
    levels: usize,
) -> Result<ConstantField, Refusal>
    ensures { GivesOr (IsWrong InField (left tokens.old)) constant_field_syntax result (left tokens.new)
        ((nest.constant_field_of (both (nest.constant levels))).low.run (left tokens.old)) }
{
    let name = constant_name(alloc, tokens)?;
    let value = field_value(alloc, tokens, levels)?;
    field_end(tokens)?;
    Ok(ConstantField { name, value })
}

/// `":" constant | msgconst`
#[cycle(constant)]
#[tactic(auto, unfolding(crate::specs::Nested::value_of), using(crate::specs::Code::fails_first, crate::proofs::Constants::no_other_constant))]
fn field_value(
    alloc: Global,
    tokens: &mut Cursor<'_>,
    levels: usize,
) -> Result<ProtobufConstant, Refusal>
    ensures { GivesOr (IsWrong InValue (left tokens.old)) view.constant_syntax result (left tokens.new)
        ((nest.value_of (both (nest.constant levels))).low.run (left tokens.old)) }
{
    if tokens.sees_symbol(':') {
        tokens.symbol(':')?;
        return constant(alloc, tokens, levels);
    }
    if !tokens.sees_symbol('{') {
        return Err(Refusal::Fault(ParserError::IncorrectInput));
    }
    constant(alloc, tokens, levels)
}

/// `[ "," | ";" ]`
#[tactic(auto, unfolding(crate::specs::Productions::field_end), using(crate::specs::Code::fails_first))]
fn field_end(tokens: &mut Cursor<'_>) -> Result<(), Refusal>
    ensures { Gives (λ u. tt) result (left tokens.new) (read.field_end.run (left tokens.old)) }
{
    if tokens.sees_symbol(',') {
        tokens.symbol(',')
    } else if tokens.sees_symbol(';') {
        tokens.symbol(';')
    } else {
        Ok(())
    }
}

#[tactic(auto, using(crate::proofs::Left::starts_more))]
fn begins_constant_name(tokens: &Cursor<'_>) -> bool
    ensures { result ≡ starts lexicon (class.ident [] ∷ class.symbol char.open_bracket ∷ [])
        (left tokens.now) }
{
    tokens.sees_ident() || tokens.sees_symbol('[')
}

/// `cname = ident | "[" name "]" | "[" name "/" name "]"`
#[tactic(auto, unfolding(crate::specs::Productions::constant_name, crate::specs::Productions::bracketed_name), using(crate::specs::Code::fails_first))]
fn constant_name(alloc: Global, tokens: &mut Cursor<'_>) -> Result<ConstantFieldName, Refusal>
    ensures { Gives view.constant_name_syntax result (left tokens.new)
        (read.constant_name.run (left tokens.old)) }
{
    if tokens.sees_ident() {
        return Ok(ConstantFieldName::Regular(tokens.ident_name(alloc)?));
    }
    tokens.symbol('[')?;
    let first = name(alloc, tokens)?;
    let name = after_slash(alloc, tokens, first)?;
    tokens.symbol(']')?;
    Ok(name)
}

/// `[ "/" name ]` behind a name
#[tactic(auto, unfolding(crate::specs::Productions::after_slash), using(crate::specs::Code::fails_first))]
fn after_slash(
    alloc: Global,
    tokens: &mut Cursor<'_>,
    first: String,
) -> Result<ConstantFieldName, Refusal>
    ensures { Gives view.constant_name_syntax result (left tokens.new)
        ((read.after_slash (string_bytes first)).run (left tokens.old)) }
{
    if !tokens.sees_symbol('/') {
        return Ok(ConstantFieldName::Extension(first));
    }
    tokens.symbol('/')?;
    let second = name(alloc, tokens)?;
    let mut url = first;
    url.push('/')?;
    url.push_str(second.as_str())?;
    Ok(ConstantFieldName::AnyUrl(url))
}
