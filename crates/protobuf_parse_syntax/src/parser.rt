//! From a file's text to its tree: a function for each production of the grammar.

mod constant;
mod cursor;
mod enumeration;
mod field;
mod file;
pub mod laws;
mod list;
mod message;
mod name;
mod option;
mod refusal;
mod same;
mod service;
mod words;

ghost use Rattle.std.specs.Prelude.{◌≡◌, ◌≤◌, ◌⊎◌, IfOk, IfErr};
ghost use Rattle.protobuf_parse_lexer.specs.Cut.{out_of_memory};
ghost use Rattle.protobuf_parse_lexer.specs.Cut.{error_place as place_at};
ghost use Rattle.protobuf_parse_lexer.specs.AheadViews.{lies_ahead};
ghost use Rattle.protobuf_parse_lexer.specs.Tokens.{IsShallow};
ghost use Rattle.protobuf_parse_syntax.specs.Code.{IsFaultOfTokens};
ghost use Rattle.protobuf_parse_syntax.specs.Counts.{statements_in};
ghost use Rattle.protobuf_parse_syntax.specs.Grammar.{IsFile};
ghost use Rattle.protobuf_parse_syntax.specs.Nesting.{ShallowFile};
ghost use Rattle.protobuf_parse_syntax.specs.Parsing.{HasTree, IsFaultOf};
ghost use Rattle.protobuf_parse_syntax.specs.Parsing.{TellsFaults};
ghost use Rattle.protobuf_parse_syntax.specs.Trees.{FileSyntax, file_syntax};

use crate::parser::cursor::Cursor;
use crate::parser::file::file;
use crate::parser::refusal::Refusal;
use crate::tree::FileTree;
use protobuf_parse_lexer::{ParserError, ParserErrorWithLocation, Tokenizer, tokenize};
use std::alloc::Global;

/// How many levels a part may have in which others of its kind stand: a constant, a type, a field
/// or a message. Each but the innermost has a bracket of its own around what stands in it, and at
/// most 100 brackets are open inside one another, so no part needs more. With each level the
/// parser's calls nest deeper, and nowhere else.
const LEVELS: usize = 101;

/// The tree of a file's text, by the Protocol Buffers Language Specifications (proto2 and proto3).
///
/// A text without a tree is refused with a fault and the place where it stands, a line and a column
/// that count from 1, the column in characters. A fault of the tokens comes before any of the
/// grammar; it is not promised that no other fault of the grammar stands before the one that is
/// named. Want of memory is [`ParserError::Memory`](crate::ParserError::Memory) at 0:0.
pub fn parse_file(alloc: Global, text: &str) -> Result<FileTree, ParserErrorWithLocation>
    // What is read is the one tree of the text.
    ensures found { IfOk result (λ t. HasTree text.now (file_syntax t)) }
    ensures only { IfOk result (λ t. (u : FileSyntax) → HasTree text.now u → u ≡ file_syntax t) }

    // It has at most 2147483647 statements, those of all bodies counted.
    ensures few { IfOk result (λ t. statements_in (file_syntax t) ≤ 2147483647) }

    // Its constants nest at most 100 deep, and so do its messages and groups.
    ensures shallow { IfOk result (λ t. ShallowFile (file_syntax t)) }

    // What is refused has no tree, and that fault stands there.
    ensures none { IfErr result (λ e. (e ≡ out_of_memory)
        ⊎ ((u : FileSyntax) → HasTree text.now u → ⊥)) }
    ensures refused { IfErr result (λ e. (e ≡ out_of_memory)
        ⊎ IsFaultOf text.now e.error (place_at e)) }

    // A text that has no tokens is refused with its fault.
    ensures tells { TellsFaults text.now result }
{
    let tokens = Tokenizer::new(text)?;
    match tree_of(alloc, tokens) {
        Ok(tree) => Ok(tree),
        Err(error) => {
            // A fault of the tokens comes before any of the grammar, wherever it stands.
            tokenize(alloc, text)?;
            Err(error)
        }
    }
}

/// The tree of the tokens.
fn tree_of(alloc: Global, tokens: Tokenizer<'_>) -> Result<FileTree, ParserErrorWithLocation>
    requires { ((lies_ahead tokens).end.line ≡ 0) ⊎ IsShallow (lies_ahead tokens).tokens }
    // What is read is the one tree that the tokens say, and they go on to the text's end.
    ensures found { IfOk result (λ t. IsFile (lies_ahead tokens.entry).tokens (file_syntax t)) }
    ensures only { IfOk result (λ t. (u : FileSyntax) → IsFile (lies_ahead tokens.entry).tokens u
        → u ≡ file_syntax t) }
    ensures whole { IfOk result (λ t. (lies_ahead tokens.entry).end.line ≡ 0 → ⊥) }

    // What is refused has that fault there, or the tokens don't go on to the text's end.
    ensures refused { IfErr result (λ e. (e ≡ out_of_memory)
        ⊎ ((lies_ahead tokens.entry).end.line ≡ 0)
        ⊎ IsFaultOfTokens (lies_ahead tokens.entry) e) }
{
    let mut left = Cursor::new(tokens);
    let tree = match file(alloc, &mut left, LEVELS) {
        Ok(tree) => tree,
        Err(refusal) => return Err(refusal.located(left.place())),
    };
    let end = left.place();
    if left.is_empty() && end.line > 0 {
        return Ok(tree);
    }
    Err(Refusal::Fault(ParserError::IncorrectInput).located(end))
}
