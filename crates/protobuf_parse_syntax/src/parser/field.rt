//! Fields, groups and types.
//!
//! What reads a normal field stands in its callers (`#[inline(always)]`), so that a result of 112
//! bytes is not handed up from call to call; what is rare is kept out of them, so that its room is
//! not cleared for each field: docs/PERFORMANCE.md.

ghost use Rattle.std.specs.Prelude.{◌≡◌, suc, false, map, slice_index};
ghost use Rattle.protobuf_parse_grammar.specs.Readers.{starts};
ghost use Rattle.protobuf_parse_lexer.specs.Text.{seen_by};
ghost use Rattle.protobuf_parse_syntax.specs.ClassLaws.{lexicon};
ghost use Rattle.protobuf_parse_base.specs.DeclaredNames.{name_bytes};
ghost use Rattle.protobuf_parse_syntax.specs.Grammar as grammar;
ghost use Rattle.protobuf_parse_syntax.specs.Productions as read;
ghost use Rattle.protobuf_parse_syntax.specs.Trees as view;
ghost use Rattle.protobuf_parse_syntax.specs.InnerViews.{group_syntax};
ghost use Rattle.protobuf_parse_syntax.specs.Code.{left, Gives};
ghost use Rattle.protobuf_parse_syntax.specs.Words.{Finds};
ghost use Rattle.protobuf_parse_syntax.specs.Fields.{type_in, map_in, after_label_in};
ghost use Rattle.protobuf_parse_syntax.specs.Fields.{reads_map_field, labels_in, group_firsts};
ghost use Rattle.protobuf_parse_syntax.specs.Fields.{field_in};
ghost use Rattle.protobuf_parse_syntax.specs.Nested as nest;

use crate::parser::cursor::Cursor;
use crate::parser::list::push_some;
use crate::parser::name::name;
use crate::parser::option::options;
use crate::parser::refusal::Refusal;
use crate::parser::words::{
    begins_field, begins_field_item, begins_no_oneof_field, label_of, scalar_of,
};
use crate::tree::{Field, FieldStatement, Group, Label, Scalar, Syntax, Type};
use protobuf_parse_base::Name;
use protobuf_parse_lexer::{ParserError, Place};
use std::alloc::Global;

/// A field of a message, a group or an `extend`, of at most so many levels.
// Inlined: 1.1 % of the instructions for scalars.
#[inline(always)]
#[cycle(field)]
#[tactic(auto, using(crate::specs::Fields::field_zero, crate::specs::Fields::field_more))]
pub fn field(
    alloc: Global,
    tokens: &mut Cursor<'_>,
    syntax: Syntax,
    levels: usize,
) -> Result<FieldStatement, Refusal>
    ensures { Gives view.field_statement_syntax result (left tokens.new)
        ((nest.field syntax levels).run (left tokens.old)) }
{
    if levels == 0 {
        return Err(Refusal::Fault(ParserError::NestingTooDeep));
    }
    field_of(alloc, tokens, syntax, levels, levels - 1)
}

/// A label word that begins a field is its label. In proto2 every field has a label, unless it
/// begins with `map`; in proto3 none has the label `required`. The fields of a group have one level
/// less.
// Inlined: 1.1 % of the instructions for scalars.
#[inline(always)]
#[cycle(field)]
fn field_of(
    alloc: Global,
    tokens: &mut Cursor<'_>,
    syntax: Syntax,
    levels: usize,
    inner: usize,
) -> Result<FieldStatement, Refusal>
    requires { levels ≡ suc inner }
    ensures { Gives view.field_statement_syntax result (left tokens.new)
        ((field_in syntax inner).run (left tokens.old)) }
{
    if !begins_field(tokens, syntax) {
        return Err(Refusal::NoField);
    }
    let place = tokens.place();
    let label = label(tokens, syntax);
    if label.is_none() && matches!(syntax, Syntax::Proto2) {
        return map_field(alloc, tokens, levels, inner, place);
    }
    after_label(alloc, tokens, syntax, levels, inner, place, label)
}

/// The label that begins a field, if one does.
fn label(tokens: &mut Cursor<'_>, syntax: Syntax) -> Option<Label>
    ensures { Finds (labels_in syntax) result (left tokens.old) (left tokens.new) }
{
    match tokens.next_word() {
        None => None,
        Some(word) => match label_of(word, syntax) {
            None => None,
            Some(label) => {
                tokens.skip();
                Some(label)
            }
        },
    }
}

/// A field directly in a oneof. It has no label, and does not begin with `map`.
#[tactic(auto, using(crate::proofs::Fields::oneof_field_law))]
pub fn oneof_field(
    alloc: Global,
    tokens: &mut Cursor<'_>,
    syntax: Syntax,
    levels: usize,
) -> Result<FieldStatement, Refusal>
    ensures { Gives view.field_statement_syntax result (left tokens.new)
        ((nest.oneof_field syntax levels).low.run (left tokens.old)) }
{
    if begins_no_oneof_field(tokens) {
        return Err(Refusal::NoOneofField);
    }
    let place = tokens.place();
    after_label(alloc, tokens, syntax, levels, levels, place, None)
}

/// `group ident "=" int "{" { ";" | field } "}"` with fields of the inner levels, or
/// `type ident "=" int [ options ] ";"`
// Inlined: 0.8 % of the instructions for scalars.
#[inline(always)]
#[cycle(field)]
#[tactic(auto, unfolding(crate::specs::Nested::after_label), using(crate::specs::Code::fails_first, crate::proofs::FieldViews::views_group))]
fn after_label(
    alloc: Global,
    tokens: &mut Cursor<'_>,
    syntax: Syntax,
    levels: usize,
    inner: usize,
    place: Place,
    label: Option<Label>,
) -> Result<FieldStatement, Refusal>
    ensures { Gives view.field_statement_syntax result (left tokens.new)
        ((after_label_in syntax levels inner place label).low.run (left tokens.old)) }
{
    if tokens.sees_word("group") {
        let group = group(alloc, tokens, syntax, inner, place, label)?;
        Ok(FieldStatement::Group(group))
    } else {
        normal_field(alloc, tokens, levels, place, label)
    }
}

/// `group ident "=" int "{" { ";" | field } "}"`
#[cycle(field)]
#[tactic(auto, unfolding(crate::specs::Nested::group_of), using(crate::specs::Code::fails_first))]
fn group(
    alloc: Global,
    tokens: &mut Cursor<'_>,
    syntax: Syntax,
    levels: usize,
    place: Place,
    label: Option<Label>,
) -> Result<Group, Refusal>
    ensures { Gives (λ g. view.group_of (group_syntax g)) result (left tokens.new)
        ((nest.group_of syntax place label (nest.fields syntax levels)).low.run (left tokens.old)) }
{
    let name = group_name(alloc, tokens)?;
    tokens.symbol('=')?;
    let number = tokens.field_number()?;
    let fields = group_body(alloc, tokens, syntax, levels)?;
    Ok(Group {
        place,
        label,
        name,
        number,
        fields,
    })
}

/// `"group" ident`, where the name begins with an ASCII capital. S13 at any other identifier, S8 at
/// any other token.
fn group_name(alloc: Global, tokens: &mut Cursor<'_>) -> Result<Name, Refusal>
    ensures { Gives name_bytes result (left tokens.new) (read.group_name.run (left tokens.old)) }
{
    tokens.word("group")?;
    match tokens.next_word() {
        Some(name) if begins_with_capital(name) => tokens.ident_name(alloc),
        Some(_) => Err(Refusal::Fault(ParserError::GroupNameShouldStartWithUpperCase)),
        None => Err(Refusal::Fault(ParserError::IncorrectInput)),
    }
}

fn begins_with_capital(name: &str) -> bool
    ensures { result ≡ grammar.is_capital (slice_index name.now 0) }
{
    let bytes = name.as_bytes();
    !bytes.is_empty() && bytes[0].is_ascii_uppercase()
}

/// `"{" { ";" | field } "}"` of a group
#[cycle(field)]
#[tactic(auto, using(crate::specs::Code::fails_first, crate::proofs::Fields::field_block_law))]
fn group_body(
    alloc: Global,
    tokens: &mut Cursor<'_>,
    syntax: Syntax,
    levels: usize,
) -> Result<Vec<FieldStatement>, Refusal>
    ensures { Gives (λ v. map view.field_statement_syntax v.items) result (left tokens.new)
        ((nest.field_block_of syntax (nest.fields syntax levels)).low.run (left tokens.old)) }
{
    tokens.symbol('{')?;
    let fields = field_statements(alloc, tokens, syntax, levels)?;
    tokens.symbol_or('}', Refusal::NoGroupField)?;
    Ok(fields)
}

/// `"{" { ";" | field } "}"` of an `extend`
#[tactic(auto, unfolding(crate::specs::Nested::extend_body), using(crate::specs::Code::fails_first, crate::proofs::Fields::field_block_law))]
pub fn extend_body(
    alloc: Global,
    tokens: &mut Cursor<'_>,
    syntax: Syntax,
    levels: usize,
) -> Result<Vec<FieldStatement>, Refusal>
    ensures { Gives (λ v. map view.field_statement_syntax v.items) result (left tokens.new)
        ((nest.extend_body syntax levels).low.run (left tokens.old)) }
{
    tokens.symbol('{')?;
    let fields = field_statements(alloc, tokens, syntax, levels)?;
    tokens.symbol_or('}', Refusal::NoField)?;
    Ok(fields)
}

#[cycle(field)]
fn field_statements(
    alloc: Global,
    tokens: &mut Cursor<'_>,
    syntax: Syntax,
    levels: usize,
) -> Result<Vec<FieldStatement>, Refusal>
    ensures { Gives (λ v. map view.field_statement_syntax v.items) result (left tokens.new)
        ((nest.field_items_of syntax (nest.fields syntax levels)).low.run (left tokens.old)) }
{
    let mut fields = Vec::new(alloc);
    'items: while begins_field_item(tokens, syntax) {
        let item = field_item(alloc, tokens, syntax, levels)?;
        push_some(&mut fields, item)?;
    }
    Ok(fields)
}

/// A field, or nothing at a semicolon.
#[cycle(field)]
#[tactic(auto, using(crate::specs::Code::fails_first, crate::proofs::Fields::field_item_law))]
fn field_item(
    alloc: Global,
    tokens: &mut Cursor<'_>,
    syntax: Syntax,
    levels: usize,
) -> Result<Option<FieldStatement>, Refusal>
    ensures { Gives (seen_by view.field_statement_syntax) result (left tokens.new)
        ((nest.field_item_of syntax (nest.fields syntax levels)).low.run (left tokens.old)) }
{
    if tokens.sees_symbol(';') {
        tokens.symbol(';')?;
        return Ok(None);
    }
    Ok(Some(field(alloc, tokens, syntax, levels)?))
}

/// `type ident "=" int [ options ] ";"`, where the word `group` does not come next.
// Inlined: 1.5 % of the instructions for scalars.
#[inline(always)]
#[tactic(auto, unfolding(crate::specs::Nested::normal_field), using(crate::specs::Code::fails_first))]
fn normal_field(
    alloc: Global,
    tokens: &mut Cursor<'_>,
    levels: usize,
    place: Place,
    label: Option<Label>,
) -> Result<FieldStatement, Refusal>
    requires { starts lexicon group_firsts (left tokens.old) ≡ false }
    ensures { Gives view.field_statement_syntax result (left tokens.new)
        ((nest.normal_field levels place label).low.run (left tokens.old)) }
{
    let type_ = field_type(alloc, tokens, levels)?;
    after_type(alloc, tokens, levels, place, label, type_)
}

/// `map ident "=" int [ options ] ";"` with types of the inner levels.
#[tactic(auto, using(crate::specs::Code::fails_first))]
fn map_field(
    alloc: Global,
    tokens: &mut Cursor<'_>,
    levels: usize,
    inner: usize,
    place: Place,
) -> Result<FieldStatement, Refusal>
    ensures { Gives view.field_statement_syntax result (left tokens.new)
        (reads_map_field levels inner place (left tokens.old)) }
{
    let type_ = map(alloc, tokens, inner)?;
    after_type(alloc, tokens, levels, place, None, type_)
}

/// What follows the type of a field: `ident "=" int [ options ] ";"`
// Inlined: 2.7 % of the instructions for scalars.
#[inline(always)]
#[tactic(auto, unfolding(crate::specs::Nested::after_type_parts), using(crate::specs::Code::fails_first, crate::proofs::FieldViews::views_normal))]
fn after_type(
    alloc: Global,
    tokens: &mut Cursor<'_>,
    levels: usize,
    place: Place,
    label: Option<Label>,
    type_: Type,
) -> Result<FieldStatement, Refusal>
    ensures { Gives view.field_statement_syntax result (left tokens.new)
        ((nest.after_type levels place label (view.type_syntax type_)).low.run (left tokens.old)) }
{
    let name = tokens.ident_name(alloc)?;
    tokens.symbol('=')?;
    let number = tokens.field_number()?;
    let options = options(alloc, tokens, levels)?;
    tokens.symbol(';')?;
    Ok(FieldStatement::Field(Field {
        place,
        label,
        type_,
        name,
        number,
        options,
    }))
}

/// A type of at most so many levels.
// Inlined: 2.0 % of the instructions for scalars.
#[inline(always)]
#[cycle(types)]
#[tactic(auto, using(crate::specs::Fields::type_zero, crate::specs::Fields::type_more))]
fn field_type(alloc: Global, tokens: &mut Cursor<'_>, levels: usize) -> Result<Type, Refusal>
    ensures { Gives view.type_syntax result (left tokens.new)
        ((nest.type_ levels).run (left tokens.old)) }
{
    if levels == 0 {
        return Err(Refusal::Fault(ParserError::NestingTooDeep));
    }
    type_of(alloc, tokens, levels - 1)
}

/// `type = scalar | "map" "<" type "," type ">" | name`
// Inlined: 1.5 % of the instructions for scalars.
#[inline(always)]
#[cycle(types)]
#[tactic(auto, unfolding(crate::specs::Nested::type_of))]
fn type_of(alloc: Global, tokens: &mut Cursor<'_>, levels: usize) -> Result<Type, Refusal>
    ensures { Gives view.type_syntax result (left tokens.new)
        ((type_in levels).run (left tokens.old)) }
{
    match scalar(tokens) {
        Some(scalar) => Ok(Type::Scalar(scalar)),
        None => {
            if tokens.sees_word("map") {
                return map(alloc, tokens, levels);
            }
            Ok(Type::Named(name(alloc, tokens)?))
        }
    }
}

/// The scalar type that comes next, if one does.
fn scalar(tokens: &mut Cursor<'_>) -> Option<Scalar>
    ensures { Finds grammar.scalars result (left tokens.old) (left tokens.new) }
{
    match tokens.next_word() {
        None => None,
        Some(word) => match scalar_of(word) {
            None => None,
            Some(scalar) => {
                tokens.skip();
                Some(scalar)
            }
        },
    }
}

/// `"map" "<" type "," type ">"`
#[cycle(types)]
#[tactic(auto, unfolding(crate::specs::Nested::map_of), using(crate::specs::Code::fails_first))]
fn map(alloc: Global, tokens: &mut Cursor<'_>, levels: usize) -> Result<Type, Refusal>
    ensures { Gives view.type_syntax result (left tokens.new)
        ((map_in levels).run (left tokens.old)) }
{
    tokens.word("map")?;
    tokens.symbol('<')?;
    let key = field_type(alloc, tokens, levels)?;
    tokens.symbol(',')?;
    let value = field_type(alloc, tokens, levels)?;
    tokens.symbol('>')?;
    Ok(Type::Map(Box::new(alloc, key)?, Box::new(alloc, value)?))
}
