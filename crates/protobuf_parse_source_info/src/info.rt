//! `SourceCodeInfo` of `descriptor.proto`.

ghost use Rattle.std.specs.Prelude.{◌≡◌, ◌⊎◌, List, IfOk, IfErr};
ghost use Rattle.protobuf_parse_lexer.specs.Cut.{IsShort, IsRefused, error_place};
ghost use Rattle.protobuf_parse_lexer.specs.Cut.{out_of_memory};
ghost use Rattle.protobuf_parse_syntax.specs.Trees.{file_syntax};
ghost use Rattle.protobuf_parse_source_info.specs.Info.{info};
ghost use Rattle.protobuf_parse_source_info.specs.Spots.{Spot, HasSpots};
ghost use Rattle.protobuf_parse_source_info.specs.Views.{info_view};

use crate::locate::located;
use crate::token::{Cut, tokens_of};
use crate::walker::found_in;
use protobuf_parse_comments::BytePlace;
use protobuf_parse_lexer::ParserErrorWithLocation;
use protobuf_parse_syntax::{FileTree, ProtobufOptionName};
use std::alloc::Global;

/// Where tokens stand: from the first byte of the first up to behind the last byte of the last.
/// `SourceCodeInfo` writes the line and the column of the start, then the line of the end if it is
/// another one, and then its column. Of a file without tokens the start is the end of its text, and
/// the end is its front.
#[derive(Clone, Copy, Debug, PartialEq, Eq)]
pub struct Span {
    pub start: BytePlace,
    pub end: BytePlace,
}

/// Where a construct stands, or a part of one, and the comments of a declaration. A comment is its
/// bytes, which are UTF-8.
#[derive(Drop)]
pub struct Location<'tree> {
    /// The numbers of fields, and indexes, that lead from the file's descriptor to the part. An
    /// option's goes up to the message of options.
    pub path: Vec<u32>,
    pub span: Span,
    /// The one in front of it, unless it is empty.
    pub leading_comments: Option<Vec<u8>>,
    /// The one behind the `{` or the `;` that ends its head, unless it is empty.
    pub trailing_comments: Option<Vec<u8>>,
    /// Those in front of it that touch neither it nor what stands before.
    pub leading_detached_comments: Vec<Vec<u8>>,
    /// Of an option its name. What that is resolved to goes on the path.
    pub option: Option<&'tree ProtobufOptionName>,
}

/// The locations of a file, in the order in which its parts begin to be read.
#[derive(Drop)]
pub struct SourceCodeInfo<'tree> {
    pub location: Vec<Location<'tree>>,
}

/// Where the constructs of a text stand, and which comments are theirs, by the text and its tree:
/// what `protoc --include_source_info` has in `SourceCodeInfo`, but that the path of an option goes
/// up to the message of options.
///
/// S20 at 1:1 if the text has over 2147483647 bytes; else the one error is that memory is short.
pub fn source_info<'tree>(
    alloc: Global,
    text: &str,
    tree: &'tree FileTree,
) -> Result<SourceCodeInfo<'tree>, ParserErrorWithLocation>
    // Those of a text with tokens are just what the definition says.
    ensures found { IfOk result (λ i. (spots : List Spot) → HasSpots text.now spots
        → info_view i ≡ info text.now spots (file_syntax tree.now)) }

    // A text that is too long is refused, and no text but for a fault that it has.
    ensures short { IfOk result (λ i. IsShort text.now) }
    ensures refused { IfErr result (λ e. (e ≡ out_of_memory)
        ⊎ IsRefused text.now e.error (error_place e)) }
{
    let Cut { tokens, end } = tokens_of(alloc, text)?;
    let found = found_in(alloc, tokens.as_slice(), end, tree.statements.as_slice())?;
    let location = located(alloc, text.as_bytes(), found)?;
    Ok(SourceCodeInfo { location })
}
