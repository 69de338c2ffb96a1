//! Fields, groups and types.

use crate::tree::option::ProtobufOption;
use protobuf_parse_base::Name;
use protobuf_parse_lexer::Place;

/// How many values a field has: at most one, just one, or any number.
#[derive(Clone, Copy, Debug, PartialEq, Eq)]
pub enum Label {
    Optional,
    Required,
    Repeated,
}

/// A type that has a word of its own in the language.
#[derive(Clone, Copy, Debug, PartialEq, Eq)]
pub enum Scalar {
    Int32,
    Int64,
    Uint32,
    Uint64,
    Sint32,
    Sint64,
    Fixed32,
    Sfixed32,
    Fixed64,
    Sfixed64,
    Bool,
    String,
    Bytes,
    Float,
    Double,
}

/// The type of a field's values.
#[derive(Drop)]
pub enum Type {
    Scalar(Scalar),
    /// `map<KEY, VALUE>`.
    Map(Box<Type>, Box<Type>),
    /// The name of a message or an enum, without blanks: identifiers with dots between them, and a
    /// dot before the first if the name begins at the root.
    Named(String),
}

/// `[LABEL] TYPE NAME = NUMBER [OPTIONS];`.
#[derive(Drop)]
pub struct Field {
    /// The place of the label, or of the type where there is none.
    pub place: Place,
    pub label: Option<Label>,
    /// From 0 to 2147483647.
    pub number: i32,
    pub type_: Type,
    pub name: Name,
    pub options: Vec<ProtobufOption>,
}

/// `[LABEL] group NAME = NUMBER { .. }`.
#[derive(Drop)]
#[cycle(field)]
pub struct Group {
    /// The place of the label, or of the word `group` where there is none.
    pub place: Place,
    pub label: Option<Label>,
    pub name: Name,
    /// From 0 to 2147483647.
    pub number: i32,
    pub fields: Vec<FieldStatement>,
}

/// A statement that declares a field.
#[derive(Drop)]
#[cycle(field)]
pub enum FieldStatement {
    Field(Field),
    Group(Group),
}
