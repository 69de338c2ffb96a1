//! Messages, enums, extensions and services.

use crate::tree::field::FieldStatement;
use crate::tree::option::{OptionStatement, ProtobufOption};
use protobuf_parse_base::Name;
use protobuf_parse_lexer::Place;

/// `message NAME { .. }`.
#[derive(Drop)]
#[cycle(message)]
pub struct Message {
    /// The place of the word `message`.
    pub place: Place,
    pub name: Name,
    pub body: Vec<MessageStatement>,
}

/// A statement of a message's body.
#[derive(Drop)]
#[cycle(message)]
pub enum MessageStatement {
    Reserved(ReservedStatement),
    OneOf(OneOf),
    Extend(Extend),
    Message(Message),
    Enumeration(Enumeration),
    Extensions(Extensions),
    Option(OptionStatement),
    Field(FieldStatement),
}

/// `oneof NAME { .. }`.
#[derive(Drop)]
pub struct OneOf {
    /// The place of the word `oneof`.
    pub place: Place,
    pub name: Name,
    pub body: Vec<OneOfStatement>,
}

/// A statement of a oneof's body.
#[derive(Drop)]
pub enum OneOfStatement {
    Option(OptionStatement),
    Field(FieldStatement),
}

/// `extend NAME { .. }`.
#[derive(Drop)]
pub struct Extend {
    /// The place of the word `extend`.
    pub place: Place,
    /// The name of the message that is extended.
    pub extendee: String,
    pub fields: Vec<FieldStatement>,
}

/// Numbers of fields or of enum values, from the first to the last with both.
/// The first may be above the last.
#[derive(Clone, Copy)]
pub struct FieldNumberRange {
    pub from: i32,
    pub to: i32,
}

/// `extensions RANGES`.
#[derive(Drop)]
pub struct Extensions {
    /// The place of the word `extensions`.
    pub place: Place,
    pub ranges: Vec<FieldNumberRange>,
}

/// What is reserved.
#[derive(Drop)]
pub enum Reserved {
    Ranges(Vec<FieldNumberRange>),
    /// The texts that the strings stand for.
    Names(Vec<String>),
}

/// `reserved RANGES;` or `reserved NAMES;`.
#[derive(Drop)]
pub struct ReservedStatement {
    /// The place of the word `reserved`.
    pub place: Place,
    pub reserved: Reserved,
}

/// `enum NAME { .. }`.
#[derive(Drop)]
pub struct Enumeration {
    /// The place of the word `enum`.
    pub place: Place,
    pub name: Name,
    pub body: Vec<EnumStatement>,
}

/// A statement of an enum's body.
#[derive(Drop)]
pub enum EnumStatement {
    Reserved(ReservedStatement),
    Option(OptionStatement),
    Value(EnumValue),
}

/// `NAME = NUMBER [OPTIONS]`.
#[derive(Drop)]
pub struct EnumValue {
    /// The place of the name.
    pub place: Place,
    pub name: Name,
    pub number: i32,
    pub options: Vec<ProtobufOption>,
}

/// `service NAME { .. }`.
#[derive(Drop)]
pub struct Service {
    /// The place of the word `service`.
    pub place: Place,
    pub name: Name,
    pub body: Vec<ServiceStatement>,
}

/// A statement of a service's body.
#[derive(Drop)]
pub enum ServiceStatement {
    Method(Method),
    Option(OptionStatement),
}

/// `rpc NAME ([stream] INPUT) returns ([stream] OUTPUT)`, or `stream NAME (INPUT, OUTPUT)`, which
/// streams both ways.
#[derive(Drop)]
pub struct Method {
    /// The place of the word `rpc` or `stream`.
    pub place: Place,
    pub name: Name,
    pub input: String,
    pub output: String,
    pub client_streaming: bool,
    pub server_streaming: bool,
    pub options: Vec<OptionStatement>,
}
