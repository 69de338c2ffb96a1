//! Enums, reserved numbers and names, and ranges.

ghost use Rattle.std.specs.Prelude.{◌≡◌, map, string_bytes};
ghost use Rattle.protobuf_parse_base.specs.DeclaredNames.{name_bytes};
ghost use Rattle.protobuf_parse_grammar.specs.Readers.{starts};
ghost use Rattle.protobuf_parse_lexer.specs.Text.{seen_by};
ghost use Rattle.protobuf_parse_syntax.specs.ClassLaws.{lexicon};
ghost use Rattle.protobuf_parse_syntax.specs.Productions as read;
ghost use Rattle.protobuf_parse_syntax.specs.Trees as view;
ghost use Rattle.protobuf_parse_syntax.specs.Code.{left, Gives, GivesOr, IsWrong, Behind};
ghost use Rattle.protobuf_parse_syntax.specs.Code.{AreEarlier, IsCommaAlone, Unsaid, of_text};
ghost use Rattle.protobuf_parse_syntax.specs.Grammar.{IsReservedName};
ghost use Rattle.protobuf_parse_syntax.specs.Nested as nest;

use crate::parser::cursor::Cursor;
use crate::parser::list::push_some;
use crate::parser::name::text;
use crate::parser::option::{option, options};
use crate::parser::refusal::Refusal;
use crate::tree::{
    EnumStatement, EnumValue, Enumeration, Extensions, FieldNumberRange, Reserved,
    ReservedStatement,
};
use protobuf_parse_base::Name;
use protobuf_parse_lexer::ParserError;
use std::alloc::Global;

/// The last number that a field may have.
const MAX_FIELD_NUMBER: i32 = 536870911;

/// `enum = "enum" ident "{" { ";" | reserved | option | value } "}"`
#[tactic(auto, unfolding(crate::specs::Nested::enumeration_pair), using(crate::specs::Code::fails_first))]
pub fn enumeration(
    alloc: Global,
    tokens: &mut Cursor<'_>,
    levels: usize,
) -> Result<Enumeration, Refusal>
    ensures { Gives view.enum_syntax result (left tokens.new)
        ((nest.enumeration levels).low.run (left tokens.old)) }
{
    let place = tokens.place();
    tokens.word("enum")?;
    let name = tokens.ident_name(alloc)?;
    tokens.symbol('{')?;
    let mut body = enum_statements(alloc, tokens, levels)?;
    tokens.symbol('}')?;
    body.shrink_to_fit();
    Ok(Enumeration { place, name, body })
}

#[tactic(auto, unfolding(crate::specs::Nested::enum_items), using(crate::specs::Code::fails_first))]
fn enum_statements(
    alloc: Global,
    tokens: &mut Cursor<'_>,
    levels: usize,
) -> Result<Vec<EnumStatement>, Refusal>
    ensures { Gives (λ v. map view.enum_statement_syntax v.items) result (left tokens.new)
        ((nest.enum_items levels).low.run (left tokens.old)) }
{
    let mut body = Vec::new(alloc);
    'items: while begins_enum_item(tokens) {
        let item = enum_item(alloc, tokens, levels)?;
        push_some(&mut body, item)?;
    }
    Ok(body)
}

/// Whether a statement of an enum, or a semicolon, comes next.
#[tactic(auto, unfolding(protobuf_parse_grammar::specs::Readers::starts))]
fn begins_enum_item(tokens: &Cursor<'_>) -> bool
    ensures { result ≡ starts lexicon nest.enum_firsts (left tokens.now) }
{
    tokens.sees_symbol(';') || tokens.sees_ident()
}

/// A statement of an enum, or nothing at a semicolon.
#[tactic(auto, unfolding(crate::specs::Nested::enum_item), using(crate::specs::Code::fails_first))]
fn enum_item(
    alloc: Global,
    tokens: &mut Cursor<'_>,
    levels: usize,
) -> Result<Option<EnumStatement>, Refusal>
    ensures { Gives (seen_by view.enum_statement_syntax) result (left tokens.new)
        ((nest.enum_item levels).low.run (left tokens.old)) }
{
    if tokens.sees_symbol(';') {
        tokens.symbol(';')?;
        return Ok(None);
    }
    Ok(Some(enum_statement(alloc, tokens, levels)?))
}

#[tactic(auto, unfolding(crate::specs::Nested::enum_statement), using(crate::specs::Code::fails_first))]
fn enum_statement(
    alloc: Global,
    tokens: &mut Cursor<'_>,
    levels: usize,
) -> Result<EnumStatement, Refusal>
    ensures { Gives view.enum_statement_syntax result (left tokens.new)
        ((nest.enum_statement levels).low.run (left tokens.old)) }
{
    if tokens.sees_word("reserved") {
        return Ok(EnumStatement::Reserved(reserved(alloc, tokens)?));
    }
    if tokens.sees_word("option") {
        return Ok(EnumStatement::Option(option(alloc, tokens, levels)?));
    }
    Ok(EnumStatement::Value(enum_value(alloc, tokens, levels)?))
}

/// `value = ident "=" [ "-" ] int [ options ]`
#[tactic(auto, unfolding(crate::specs::Nested::enum_value_parts), using(crate::specs::Code::fails_first))]
fn enum_value(alloc: Global, tokens: &mut Cursor<'_>, levels: usize) -> Result<EnumValue, Refusal>
    ensures { Gives view.value_syntax result (left tokens.new)
        ((nest.enum_value levels).low.run (left tokens.old)) }
{
    let place = tokens.place();
    let name = value_name(alloc, tokens)?;
    tokens.symbol('=')?;
    let number = enum_number(tokens)?;
    let options = options(alloc, tokens, levels)?;
    Ok(EnumValue {
        place,
        name,
        number,
        options,
    })
}

/// `ident`, but `reserved` or `option`
#[tactic(auto, unfolding(crate::specs::Productions::value_name), using(crate::specs::Code::fails_first))]
fn value_name(alloc: Global, tokens: &mut Cursor<'_>) -> Result<Name, Refusal>
    ensures { Gives name_bytes result (left tokens.new) (read.value_name.run (left tokens.old)) }
{
    if begins_other_statement(tokens) {
        return Err(Refusal::Fault(ParserError::IncorrectInput));
    }
    tokens.ident_name(alloc)
}

/// Whether `reserved` or `option` comes next.
#[tactic(auto, unfolding(protobuf_parse_grammar::specs::Readers::starts))]
fn begins_other_statement(tokens: &Cursor<'_>) -> bool
    ensures { result ≡ starts lexicon read.other_statements (left tokens.now) }
{
    tokens.sees_word("reserved") || tokens.sees_word("option")
}

/// `[ "-" ] int`, from -2147483648 to 2147483647
#[tactic(auto, unfolding(crate::specs::Productions::enum_number), using(crate::specs::Code::fails_first))]
fn enum_number(tokens: &mut Cursor<'_>) -> Result<i32, Refusal>
    ensures { Gives (λ n. n) result (left tokens.new) (read.enum_number.run (left tokens.old)) }
{
    if tokens.sees_integer() {
        return tokens.field_number();
    }
    tokens.symbol('-')?;
    let number = tokens.number_up_to(2147483648)?;
    Ok((-(number as i64)) as i32)
}

/// `reserved = "reserved" ( str { "," str } | range { "," range } ) ";"`
#[tactic(auto, unfolding(crate::specs::Productions::reserved_parts), using(crate::specs::Code::fails_first))]
pub fn reserved(alloc: Global, tokens: &mut Cursor<'_>) -> Result<ReservedStatement, Refusal>
    ensures { Gives view.reserved_statement_syntax result (left tokens.new)
        (read.reserved.run (left tokens.old)) }
{
    let place = tokens.place();
    tokens.word("reserved")?;
    let reserved = reserved_items(alloc, tokens)?;
    tokens.symbol(';')?;
    Ok(ReservedStatement { place, reserved })
}

/// `str { "," str } | range { "," range }`
#[tactic(auto, unfolding(crate::specs::Productions::reserved_items), using(crate::specs::Code::fails_first))]
fn reserved_items(alloc: Global, tokens: &mut Cursor<'_>) -> Result<Reserved, Refusal>
    ensures { GivesOr (IsWrong (Behind (AreEarlier IsReservedName) (Unsaid of_text))
        (left tokens.old)) view.reserved_syntax result (left tokens.new)
        (read.reserved_items.run (left tokens.old)) }
{
    if tokens.sees_str() {
        return Ok(Reserved::Names(names(alloc, tokens)?));
    }
    Ok(Reserved::Ranges(ranges(alloc, tokens)?))
}

/// `str { "," str }`, each of which is a text
#[tactic(auto, unfolding(crate::specs::Productions::names), using(crate::specs::Code::fails_first))]
fn names(alloc: Global, tokens: &mut Cursor<'_>) -> Result<Vec<String>, Refusal>
    ensures { GivesOr (IsWrong (Behind (AreEarlier IsReservedName) (Unsaid of_text))
        (left tokens.old)) (λ v. map string_bytes v.items) result (left tokens.new)
        (read.names.run (left tokens.old)) }
{
    let mut names = Vec::new(alloc);
    names.push(text(alloc, tokens)?)?;
    'others: while tokens.sees_symbol(',') {
        let name = comma_name(alloc, tokens)?;
        names.push(name)?;
    }
    Ok(names)
}

/// `"," str`
#[tactic(auto, using(crate::specs::Code::fails_first))]
fn comma_name(alloc: Global, tokens: &mut Cursor<'_>) -> Result<String, Refusal>
    ensures { GivesOr (IsWrong (Behind IsCommaAlone (Unsaid of_text)) (left tokens.old))
        string_bytes result (left tokens.new) (read.comma_name.run (left tokens.old)) }
{
    tokens.symbol(',')?;
    text(alloc, tokens)
}

/// `extensions = "extensions" range { "," range }`
#[tactic(auto, unfolding(crate::specs::Productions::extensions), using(crate::specs::Code::fails_first))]
pub fn extensions(alloc: Global, tokens: &mut Cursor<'_>) -> Result<Extensions, Refusal>
    ensures { Gives view.extensions_syntax result (left tokens.new)
        (read.extensions.run (left tokens.old)) }
{
    let place = tokens.place();
    tokens.word("extensions")?;
    let ranges = ranges(alloc, tokens)?;
    Ok(Extensions { place, ranges })
}

/// `range { "," range }`
#[tactic(auto, unfolding(crate::specs::Productions::ranges), using(crate::specs::Code::fails_first))]
fn ranges(alloc: Global, tokens: &mut Cursor<'_>) -> Result<Vec<FieldNumberRange>, Refusal>
    ensures { Gives (λ v. map view.range_syntax v.items) result (left tokens.new)
        (read.ranges.run (left tokens.old)) }
{
    let mut ranges = Vec::new(alloc);
    ranges.push(range(tokens)?)?;
    'others: while tokens.sees_symbol(',') {
        let range = comma_range(tokens)?;
        ranges.push(range)?;
    }
    Ok(ranges)
}

/// `"," range`
#[tactic(auto, using(crate::specs::Code::fails_first))]
fn comma_range(tokens: &mut Cursor<'_>) -> Result<FieldNumberRange, Refusal>
    ensures { Gives view.range_syntax result (left tokens.new)
        (read.comma_range.run (left tokens.old)) }
{
    tokens.symbol(',')?;
    range(tokens)
}

/// `range = int [ "to" ( int | "max" ) ]`
#[tactic(auto, unfolding(crate::specs::Productions::range), using(crate::specs::Code::fails_first))]
fn range(tokens: &mut Cursor<'_>) -> Result<FieldNumberRange, Refusal>
    ensures { Gives view.range_syntax result (left tokens.new) (read.range.run (left tokens.old)) }
{
    let from = tokens.field_number()?;
    let to = range_end(tokens, from)?;
    Ok(FieldNumberRange { from, to })
}

/// `[ "to" ( int | "max" ) ]`
#[tactic(auto, unfolding(crate::specs::Productions::range_end), using(crate::specs::Code::fails_first))]
fn range_end(tokens: &mut Cursor<'_>, from: i32) -> Result<i32, Refusal>
    ensures { Gives (λ n. n) result (left tokens.new)
        ((read.range_end from).run (left tokens.old)) }
{
    if !tokens.sees_word("to") {
        return Ok(from);
    }
    tokens.word("to")?;
    if tokens.sees_integer() {
        return tokens.field_number();
    }
    tokens.word("max")?;
    Ok(MAX_FIELD_NUMBER)
}
