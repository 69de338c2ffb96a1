//! The tokens of a `.proto` file's text: what each is, where it stands, and what string literals
//! stand for; and the faults for which a text is refused.
#![tactic(auto)]

mod error;
mod lexer;

pub use error::{ParserError, ParserErrorWithLocation};
pub use lexer::bytes::byte_at;
pub use lexer::laws::{
    cuts_are_unique, decoding_is_unique, escaped_bytes_decode, one_stream_lies_ahead,
    places_count_characters, strings_are_decoded, strings_are_quoted, texts_tell_kinds,
    tokens_are_found,
};
pub use lexer::str_lit::{StrLit, StrLitDecodeError, stands_for_itself, unquoted};
pub use lexer::token::{Place, Token, TokenKind, TokenStream};
pub use lexer::tokenize;
pub use lexer::tokenizer::{NextToken, Tokenizer};
