//! The source info of a file.

ghost use Rattle.std.specs.Prelude.{List, IfOk, map};
ghost use Rattle.protobuf_parse_syntax.specs.Trees.{file_syntax};
ghost use Rattle.protobuf_parse_model.specs.Descriptors.{file_view};
ghost use Rattle.protobuf_parse_source_info.specs.Spots.{Spot, HasSpots};
ghost use Rattle.protobuf_parse_source_info.specs.Views.{info_view};
ghost use Rattle.protobuf_parse_option_paths.specs.Whole.{IsFileInfo};

use crate::names::OptionFiles;
use crate::paths::with_option_paths;
use crate::seen::seen_paths;
use protobuf_parse_index::Index;
use protobuf_parse_model::FileDescriptorProto;
use protobuf_parse_source_info::{SourceCodeInfo, source_info};
use protobuf_parse_syntax::{FileTree, ParserErrorWithLocation};
use std::alloc::Global;

/// Where the constructs of a file stand in its text, which comments are theirs, and which options
/// they set: what `protoc --include_source_info` has.
///
/// `file` is the descriptor that a run hands out for the text, `tree` the text's tree, and the index
/// one of all files that the file reaches, itself among them. S20 at 1:1 if the text has over
/// 2147483647 bytes; else the one error is that memory is short.
///
/// ```text
/// let index = Index::of(alloc, &files)?;
/// let info = file_source_info(alloc, &index, file, text, &tree)?;
/// ```
pub fn file_source_info<'tree, 'a>(
    alloc: Global,
    index: &Index<'a>,
    file: &'a FileDescriptorProto,
    text: &str,
    tree: &'tree FileTree,
) -> Result<SourceCodeInfo<'tree>, ParserErrorWithLocation>
    ensures { IfOk result (λ i. (spots : List Spot) → HasSpots text.now spots
        → IsFileInfo (map file_view index.now) (file_view file.now) text.now spots
        (file_syntax tree.now) (info_view i)) }
{
    let info = source_info(alloc, text, tree)?;
    let seen = seen_paths(alloc, index, file)?;
    let files = OptionFiles {
        reached: index,
        seen: &seen,
    };
    Ok(with_option_paths(alloc, &files, file, info)?)
}
