//! Options.

use crate::tree::constant::ProtobufConstant;
use protobuf_parse_base::Name;
use protobuf_parse_lexer::Place;

/// A part of an option's name.
#[derive(Drop)]
pub enum ProtobufOptionNamePart {
    /// A field's name.
    Direct(Name),
    /// The name of an extension, which stands in parentheses: identifiers with dots between them,
    /// and a dot before the first if the name begins at the root.
    Ext(String),
}

/// The name of an option.
#[derive(Drop)]
pub enum ProtobufOptionName {
    /// One part without parentheses.
    Builtin(Name),
    /// One to 100 parts, the first in parentheses or followed by others.
    Custom(Vec<ProtobufOptionNamePart>),
}

/// `NAME = VALUE`.
#[derive(Drop)]
pub struct ProtobufOption {
    /// The place of the first token of its name.
    pub place: Place,
    pub name: ProtobufOptionName,
    pub value: ProtobufConstant,
}

/// `option NAME = VALUE;`.
#[derive(Drop)]
pub struct OptionStatement {
    /// The place of the word `option`.
    pub place: Place,
    pub option: ProtobufOption,
}
