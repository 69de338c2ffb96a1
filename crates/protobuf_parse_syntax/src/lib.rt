//! The syntax of `.proto` files: from the tokens of a text to its tree.
#![tactic(auto)]

mod dependencies;
mod parser;
mod tree;

pub use dependencies::{Dependencies, imports_of, parse_dependencies};
pub use parser::laws::trees_are_shallow;
pub use parser::parse_file;
pub use protobuf_parse_base::Name;
pub use protobuf_parse_lexer::{
    ParserError, ParserErrorWithLocation, Place, StrLit, StrLitDecodeError, Token, TokenKind,
    TokenStream, cuts_are_unique, decoding_is_unique, escaped_bytes_decode,
    places_count_characters, strings_are_decoded, strings_are_quoted, texts_tell_kinds, tokenize,
    unquoted,
};
pub use tree::{
    ConstantField, ConstantFieldName, EnumStatement, EnumValue, Enumeration, Extend, Extensions,
    Field, FieldNumberRange, FieldStatement, FileStatement, FileTree, Group, Import, ImportVis,
    Label, Message, MessageStatement, Method, OneOf, OneOfStatement, OptionStatement, Package,
    ProtobufConstant, ProtobufOption, ProtobufOptionName, ProtobufOptionNamePart, Reserved,
    ReservedStatement, Scalar, Service, ServiceStatement, Syntax, Type,
};
