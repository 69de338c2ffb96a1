//! The words of the language, and why no statement begins with a token.
//!
//! Words are told apart by tests in a row: of these the compiler makes a switch over lengths, where
//! it would go through a table in a loop.

ghost use Rattle.std.specs.Prelude.{◌≡◌, ◌∷◌, take, drop};
ghost use Rattle.protobuf_parse_base.specs.Characters as char;
ghost use Rattle.protobuf_parse_grammar.specs.Readers.{starts};
ghost use Rattle.protobuf_parse_lexer.specs.Classes as class;
ghost use Rattle.protobuf_parse_syntax.specs.ClassLaws.{lexicon};
ghost use Rattle.protobuf_parse_syntax.specs.Words.{takes};
ghost use Rattle.protobuf_parse_syntax.specs.Fields.{labels_in};
ghost use Rattle.protobuf_parse_syntax.specs.Grammar as grammar;
ghost use Rattle.protobuf_parse_syntax.specs.Code.{left, Unfit, UnfitInBoth};
ghost use Rattle.protobuf_parse_syntax.specs.Nested as nest;

use crate::parser::cursor::Cursor;
use crate::parser::same::is_same;
use crate::tree::{Label, Scalar, Syntax};
use protobuf_parse_lexer::ParserError;

/// The label that a word is. In proto3 `required` is none.
pub fn label_of(word: &str, syntax: Syntax) -> Option<Label>
    ensures { result ≡ grammar.lookup (labels_in syntax) word.now }
{
    if is_same(word, "optional") {
        Some(Label::Optional)
    } else if is_same(word, "repeated") {
        Some(Label::Repeated)
    } else if is_same(word, "required") && matches!(syntax, Syntax::Proto2) {
        Some(Label::Required)
    } else {
        None
    }
}

/// Whether a word is a label.
pub fn is_label(word: &str) -> bool
    ensures { result ≡ class.is_among word.now (grammar.table_words grammar.labels) }
{
    is_same(word, "optional") || is_same(word, "required") || is_same(word, "repeated")
}

/// The scalar type of integers that a word is.
fn integer_of(word: &str) -> Option<Scalar>
    ensures { result ≡ grammar.lookup (take 10 grammar.scalars) word.now }
{
    if is_same(word, "int32") {
        Some(Scalar::Int32)
    } else if is_same(word, "int64") {
        Some(Scalar::Int64)
    } else if is_same(word, "uint32") {
        Some(Scalar::Uint32)
    } else if is_same(word, "uint64") {
        Some(Scalar::Uint64)
    } else if is_same(word, "sint32") {
        Some(Scalar::Sint32)
    } else if is_same(word, "sint64") {
        Some(Scalar::Sint64)
    } else if is_same(word, "fixed32") {
        Some(Scalar::Fixed32)
    } else if is_same(word, "sfixed32") {
        Some(Scalar::Sfixed32)
    } else if is_same(word, "fixed64") {
        Some(Scalar::Fixed64)
    } else if is_same(word, "sfixed64") {
        Some(Scalar::Sfixed64)
    } else {
        None
    }
}

/// The scalar type of other values that a word is.
fn other_scalar_of(word: &str) -> Option<Scalar>
    ensures { result ≡ grammar.lookup (drop 10 grammar.scalars) word.now }
{
    if is_same(word, "bool") {
        Some(Scalar::Bool)
    } else if is_same(word, "string") {
        Some(Scalar::String)
    } else if is_same(word, "bytes") {
        Some(Scalar::Bytes)
    } else if is_same(word, "float") {
        Some(Scalar::Float)
    } else if is_same(word, "double") {
        Some(Scalar::Double)
    } else {
        None
    }
}

/// The scalar type that a word is.
pub fn scalar_of(word: &str) -> Option<Scalar>
    ensures { result ≡ grammar.lookup grammar.scalars word.now }
{
    match integer_of(word) {
        Some(scalar) => Some(scalar),
        None => other_scalar_of(word),
    }
}

/// Whether a statement of another kind begins with the word, so that no field does.
pub fn is_statement_word(word: &str) -> bool
    ensures among { result ≡ class.is_among word.now grammar.statement_words }
    ensures taken { result ≡ takes (class.words grammar.statement_words) word.now }
{
    is_same(word, "reserved")
        || is_same(word, "oneof")
        || is_same(word, "extend")
        || is_same(word, "message")
        || is_same(word, "enum")
        || is_same(word, "extensions")
        || is_same(word, "option")
}

/// Whether a word comes next with which a statement of another kind than a field begins.
#[tactic(auto, using(crate::proofs::Words::word_starts, crate::proofs::Words::signs_start, crate::proofs::Words::nothing_starts))]
pub fn sees_statement_word(tokens: &Cursor<'_>) -> bool
    ensures { result ≡ starts lexicon (class.words grammar.statement_words) (left tokens.now) }
{
    match tokens.next_word() {
        Some(word) => is_statement_word(word),
        None => false,
    }
}

/// Whether a field of a message, a group or an `extend` begins with the word.
// Inlined: 0.8 % of the instructions for scalars.
#[inline(always)]
fn word_begins_field(word: &str, syntax: Syntax) -> bool
    ensures { result ≡ takes (nest.field_firsts syntax) word.now }
{
    match syntax {
        Syntax::Proto2 => is_label(word) || is_same(word, "map"),
        Syntax::Proto3 => !is_same(word, "required") && !is_statement_word(word),
    }
}

/// Whether a field of a message, a group or an `extend` begins with the next token.
// Inlined together with `word_begins_field`.
#[inline(always)]
#[tactic(auto, using(crate::proofs::Words::word_starts, crate::proofs::Words::signs_start, crate::proofs::Words::nothing_starts))]
pub fn begins_field(tokens: &Cursor<'_>, syntax: Syntax) -> bool
    ensures { result ≡ starts lexicon (nest.field_firsts syntax) (left tokens.now) }
{
    match tokens.next_word() {
        Some(word) => word_begins_field(word, syntax),
        None => match syntax {
            Syntax::Proto2 => false,
            Syntax::Proto3 => tokens.sees_symbol('.'),
        },
    }
}

/// Whether a field of a message, a group or an `extend`, or a semicolon, comes next.
#[tactic(auto, using(crate::proofs::Words::semicolon_or))]
pub fn begins_field_item(tokens: &Cursor<'_>, syntax: Syntax) -> bool
    ensures { result ≡ starts lexicon (class.symbol char.semicolon ∷ nest.field_firsts syntax)
        (left tokens.now) }
{
    tokens.sees_symbol(';') || begins_field(tokens, syntax)
}

/// Whether no field of a oneof begins with the word.
fn word_begins_no_oneof_field(word: &str) -> bool
    ensures { result ≡ takes (class.words nest.no_oneof_words) word.now }
{
    is_same(word, "map") || is_label(word) || is_statement_word(word)
}

/// Whether a word with which no field of a oneof begins comes next.
#[tactic(auto, using(crate::proofs::Words::signs_start, crate::proofs::Words::nothing_starts))]
pub fn begins_no_oneof_field(tokens: &Cursor<'_>) -> bool
    ensures { result ≡ starts lexicon (class.words nest.no_oneof_words) (left tokens.now) }
{
    match tokens.next_word() {
        Some(word) => word_begins_no_oneof_field(word),
        None => false,
    }
}

/// Whether a statement of a oneof begins with the word.
fn word_begins_oneof_statement(word: &str) -> bool
    ensures { result ≡ takes nest.oneof_firsts word.now }
{
    is_same(word, "option")
        || (!is_same(word, "map") && !is_label(word) && !is_statement_word(word))
}

/// Whether a statement of a oneof begins with the next token.
#[tactic(auto, using(crate::proofs::Words::signs_start, crate::proofs::Words::either_starts))]
pub fn begins_oneof_statement(tokens: &Cursor<'_>) -> bool
    ensures { result ≡ starts lexicon (nest.oneof_firsts) (left tokens.now) }
{
    match tokens.next_word() {
        Some(word) => word_begins_oneof_statement(word),
        None => tokens.sees_symbol(';') || tokens.sees_symbol('.'),
    }
}

/// Whether a statement of a message begins with the word.
fn word_begins_message_statement(word: &str, syntax: Syntax) -> bool
    ensures { result ≡ takes (nest.statement_firsts syntax) word.now }
{
    match syntax {
        Syntax::Proto2 => is_statement_word(word) || is_same(word, "map") || is_label(word),
        Syntax::Proto3 => !is_same(word, "required") && !is_same(word, "extensions"),
    }
}

/// Whether a statement of a message begins with the next token.
#[tactic(auto, using(crate::proofs::Words::signs_start, crate::proofs::Words::either_starts))]
pub fn begins_message_statement(tokens: &Cursor<'_>, syntax: Syntax) -> bool
    ensures { result ≡ starts lexicon (class.symbol char.semicolon ∷ nest.statement_firsts syntax)
        (left tokens.now) }
{
    match tokens.next_word() {
        Some(word) => word_begins_message_statement(word, syntax),
        None => match syntax {
            Syntax::Proto2 => tokens.sees_symbol(';'),
            Syntax::Proto3 => tokens.sees_symbol(';') || tokens.sees_symbol('.'),
        },
    }
}

/// Whether a statement of a service begins with the word.
fn word_begins_service_statement(word: &str, syntax: Syntax) -> bool
    ensures { result ≡ takes (nest.service_firsts syntax) word.now }
{
    match syntax {
        Syntax::Proto2 => matches!(word, "rpc" | "stream" | "option"),
        Syntax::Proto3 => matches!(word, "rpc" | "option"),
    }
}

/// Whether a statement of a service begins with the next token.
#[tactic(auto, using(crate::proofs::Words::signs_start))]
pub fn begins_service_statement(tokens: &Cursor<'_>, syntax: Syntax) -> bool
    ensures { result ≡ starts lexicon (class.symbol char.semicolon ∷ nest.service_firsts syntax)
        (left tokens.now) }
{
    match tokens.next_word() {
        Some(word) => word_begins_service_statement(word, syntax),
        None => tokens.sees_symbol(';'),
    }
}

/// Whether a statement of a file begins with the word.
fn word_begins_file_statement(word: &str) -> bool
    ensures { result ≡ takes nest.file_firsts word.now }
{
    matches!(
        word,
        "import" | "package" | "option" | "message" | "enum" | "extend" | "service"
    )
}

/// Whether a statement of a file begins with the next token.
#[tactic(auto, using(crate::proofs::Words::signs_start))]
pub fn begins_file_statement(tokens: &Cursor<'_>) -> bool
    ensures { result ≡ starts lexicon (class.symbol char.semicolon ∷ nest.file_firsts)
        (left tokens.now) }
{
    match tokens.next_word() {
        Some(word) => word_begins_file_statement(word),
        None => tokens.sees_symbol(';'),
    }
}

/// Why no statement of a message and no field of an `extend` begins with the next token: S11 at a
/// label that is not allowed, S12 where a label lacks, else S8.
pub fn field_fault(tokens: &Cursor<'_>, syntax: Syntax) -> ParserError
    ensures { Unfit syntax result (left tokens.now) }
{
    match tokens.next_word() {
        Some(word) => match syntax {
            Syntax::Proto3 if is_label(word) => ParserError::LabelNotAllowed,
            Syntax::Proto2 if !is_label(word) && !is_statement_word(word) => {
                ParserError::LabelRequired
            }
            _ => ParserError::IncorrectInput,
        },
        None => match syntax {
            Syntax::Proto2 if tokens.sees_symbol('.') => ParserError::LabelRequired,
            _ => ParserError::IncorrectInput,
        },
    }
}

/// Why no statement of a group begins with the next token: S16 at `oneof`, S17 at the word of
/// another statement, else as for a field.
pub fn group_fault(tokens: &Cursor<'_>, syntax: Syntax) -> ParserError
    ensures { Unfit syntax result (left tokens.now) }
{
    match tokens.next_word() {
        Some("oneof") => ParserError::OneOfInGroup,
        Some(word) if is_statement_word(word) => ParserError::OnlyFieldsInGroup,
        _ => field_fault(tokens, syntax),
    }
}

/// Why no statement of a oneof begins with the next token: S11 at a label, S14 at `map`, else S8.
pub fn oneof_fault(tokens: &Cursor<'_>) -> ParserError
    ensures { UnfitInBoth result (left tokens.now) }
{
    match tokens.next_word() {
        Some("map") => ParserError::MapFieldNotAllowed,
        Some(word) if is_label(word) => ParserError::LabelNotAllowed,
        _ => ParserError::IncorrectInput,
    }
}
