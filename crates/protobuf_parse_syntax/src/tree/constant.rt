//! Constants, and how they are written.

ghost use Rattle.std.specs.Prelude.{◌≡◌, ◌==◌, ◌&&◌, ◌++◌, [], false, Some, IfOk, map};
ghost use Rattle.std.specs.Prelude.{flat_map, not, encode_utf8, if◌then◌else◌};
ghost use Rattle.std.specs.Fmt.{DisplaysOnOk};
ghost use Rattle.std.specs.String.{string_bytes};
ghost use Rattle.protobuf_parse_base.specs.Characters as char;
ghost use Rattle.protobuf_parse_syntax.specs.Formats as spec;
ghost use Rattle.protobuf_parse_syntax.specs.ListTexts as lists;
ghost use Rattle.protobuf_parse_syntax.specs.Trees.{constant_syntax};
ghost use Rattle.protobuf_parse_syntax.specs.InnerViews.{constant_field_syntax};
ghost use Rattle.protobuf_parse_syntax.specs.Trees.{constant_name_syntax, pieces_of};

use protobuf_parse_base::Name;
use protobuf_parse_lexer::StrLit;
use std::alloc::{AllocError, Global};
use std::fmt;

/// The value of an option.
#[derive(Drop)]
#[cycle(constant)]
pub enum ProtobufConstant {
    /// A number without a minus sign.
    U64(u64),
    /// A number with a minus sign.
    I64(i64),
    Bool(bool),
    /// Identifiers with dots between them.
    Ident(String),
    String(StrLit),
    List(Vec<ProtobufConstant>),
    Message(Vec<ConstantField>),
}

/// A field of a message constant.
#[derive(Drop)]
#[cycle(constant)]
pub struct ConstantField {
    pub name: ConstantFieldName,
    pub value: ProtobufConstant,
}

/// The name of a field in a message constant.
#[derive(Drop)]
pub enum ConstantFieldName {
    Regular(Name),
    /// The name of an extension, which stands in brackets.
    Extension(String),
    /// A type URL, which stands in brackets: two names with a slash between them.
    AnyUrl(String),
}

impl ProtobufConstant {
    /// The constant as it is written in a `.proto` file. A string keeps its pieces, each in double
    /// quotes; a message has a blank after each of its fields but those that are messages
    /// themselves. The one error is that memory is short.
    pub fn format(&self, alloc: Global) -> Result<String, AllocError>
        ensures { IfOk result (λ text. string_bytes text ≡ spec.format (constant_syntax self.now)) }
    {
        self.to_string(alloc)
    }
}

/// As [`ProtobufConstant::format`] gives it.
impl fmt::Display for ProtobufConstant {
    ghost output = { λ c. Some (spec.format (constant_syntax c)) };

    fn fmt<W: fmt::Write>(&self, f: &mut fmt::Formatter<W>) -> fmt::Result {
        write_constant(f, self)
    }
}

#[cycle(display)]
fn write_constant<W: fmt::Write>(
    f: &mut fmt::Formatter<W>,
    constant: &ProtobufConstant,
) -> fmt::Result
    ensures { DisplaysOnOk W.write_str_gives f.old result
        (Some (spec.format (constant_syntax constant.now))) f.new }
{
    match constant {
        ProtobufConstant::U64(number) => write!(f, "{number}"),
        ProtobufConstant::I64(number) => write!(f, "{number}"),
        ProtobufConstant::Bool(value) => write!(f, "{value}"),
        ProtobufConstant::Ident(name) => write!(f, "{name}"),
        ProtobufConstant::String(string) => write_string(f, string),
        ProtobufConstant::List(items) => write_list(f, items.as_slice()),
        ProtobufConstant::Message(fields) => write_message(f, fields.as_slice()),
    }
}

/// The items in brackets.
#[cycle(display)]
fn write_list<W: fmt::Write>(f: &mut fmt::Formatter<W>, items: &[ProtobufConstant]) -> fmt::Result
    ensures { DisplaysOnOk W.write_str_gives f.old result
        (Some (lists.list_text (map constant_syntax items.now))) f.new }
{
    write!(f, "[")?;
    write_items(f, items)?;
    write!(f, "]")
}

/// The items with a comma between each two.
#[cycle(display)]
fn write_items<W: fmt::Write>(f: &mut fmt::Formatter<W>, items: &[ProtobufConstant]) -> fmt::Result
    ensures { DisplaysOnOk W.write_str_gives f.old result
        (Some (lists.items_text (map constant_syntax items.now))) f.new }
{
    for (i, item) in items.iter().enumerate() {
        write_between(f, i, ",")?;
        write_constant(f, item)?;
    }
    Ok(())
}

/// The fields in braces.
#[cycle(display)]
fn write_message<W: fmt::Write>(f: &mut fmt::Formatter<W>, fields: &[ConstantField]) -> fmt::Result
    ensures { DisplaysOnOk W.write_str_gives f.old result
        (Some (lists.message_text (map constant_field_syntax fields.now))) f.new }
{
    write!(f, "{{ ")?;
    write_fields(f, fields)?;
    write!(f, "}}")
}

#[cycle(display)]
fn write_fields<W: fmt::Write>(f: &mut fmt::Formatter<W>, fields: &[ConstantField]) -> fmt::Result
    ensures { DisplaysOnOk W.write_str_gives f.old result
        (Some (flat_map lists.constant_field_text (map constant_field_syntax fields.now))) f.new }
{
    for field in fields {
        write_field(f, field)?;
    }
    Ok(())
}

#[cycle(display)]
fn write_field<W: fmt::Write>(f: &mut fmt::Formatter<W>, field: &ConstantField) -> fmt::Result
    ensures { DisplaysOnOk W.write_str_gives f.old result
        (Some (lists.constant_field_text (constant_field_syntax field.now))) f.new }
{
    let name = &field.name;
    let value = &field.value;
    if is_message(value) {
        write!(f, "{name} ")?;
        write_constant(f, value)
    } else {
        write!(f, "{name}: ")?;
        write_constant(f, value)?;
        write!(f, " ")
    }
}

fn is_message(constant: &ProtobufConstant) -> bool
    ensures { result ≡ spec.is_message (constant_syntax constant.now) }
{
    matches!(constant, ProtobufConstant::Message(_))
}

impl fmt::Display for ConstantFieldName {
    ghost output = { λ n. Some (spec.name_text (constant_name_syntax n)) };

    fn fmt<W: fmt::Write>(&self, f: &mut fmt::Formatter<W>) -> fmt::Result {
        match self {
            ConstantFieldName::Regular(name) => write!(f, "{name}"),
            ConstantFieldName::Extension(name) => write!(f, "[{name}]"),
            ConstantFieldName::AnyUrl(name) => write!(f, "[{name}]"),
        }
    }
}

/// The pieces with a blank between each two.
fn write_string<W: fmt::Write>(f: &mut fmt::Formatter<W>, string: &StrLit) -> fmt::Result
    ensures { DisplaysOnOk W.write_str_gives f.old result
        (Some (spec.string_text (pieces_of string.now))) f.new }
{
    for (i, piece) in string.pieces.iter().enumerate() {
        write_between(f, i, " ")?;
        write_piece(f, piece.as_str())?;
    }
    Ok(())
}

/// What stands between the part at a position and the one before it.
fn write_between<W: fmt::Write>(
    f: &mut fmt::Formatter<W>,
    position: usize,
    between: &str,
) -> fmt::Result
    ensures { DisplaysOnOk W.write_str_gives f.old result
        (Some (if position == 0 then [] else between.now)) f.new }
{
    if position == 0 {
        Ok(())
    } else {
        f.write_str(between)
    }
}

/// A piece in double quotes.
fn write_piece<W: fmt::Write>(f: &mut fmt::Formatter<W>, piece: &str) -> fmt::Result
    ensures { DisplaysOnOk W.write_str_gives f.old result (Some (spec.piece_text piece.now)) f.new }
{
    f.write_str("\"")?;
    write_escaped(f, piece)?;
    f.write_str("\"")
}

/// A piece with a backslash before each `"` that no backslash takes with it.
fn write_escaped<W: fmt::Write>(f: &mut fmt::Formatter<W>, piece: &str) -> fmt::Result
    ensures { DisplaysOnOk W.write_str_gives f.old result
        (Some (spec.quotes_escaped false piece.now)) f.new }
{
    let mut taken = false;
    for character in piece.chars() {
        write_character(f, taken, character)?;
        taken = takes_next(taken, character);
    }
    Ok(())
}

/// Whether a character of a piece takes the next one with it.
fn takes_next(taken: bool, character: char) -> bool
    ensures { result ≡ (character == char.backslash && not taken) }
{
    character == '\\' && !taken
}

/// A character of a piece, where `taken` says that a backslash takes it.
fn write_character<W: fmt::Write>(
    f: &mut fmt::Formatter<W>,
    taken: bool,
    character: char,
) -> fmt::Result
    ensures { DisplaysOnOk W.write_str_gives f.old result
        (Some (spec.escape_before taken character ++ encode_utf8 character)) f.new }
{
    if character == '"' && !taken {
        f.write_str("\\")?;
    }
    write!(f, "{character}")
}
