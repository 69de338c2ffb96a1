//! What stands between two tokens, and whose the comments in it are.

ghost use Rattle.std.specs.Prelude.{◌≡◌, IfOk, false, map};
ghost use Rattle.protobuf_parse_comments.specs.Gaps as gaps;
ghost use Rattle.protobuf_parse_comments.specs.Pieces as pieces;
ghost use Rattle.protobuf_parse_comments.specs.InnerViews.{piece_view};
ghost use Rattle.protobuf_parse_comments.specs.Views.{comments_view};

use crate::divide::{Comments, divided};
use crate::pieces::{Piece, block_text, pieces_of};
use std::alloc::{AllocError, Global};

/// All that stands between a token and the next one: blanks and comments.
#[derive(Clone, Copy)]
pub struct Gap<'text> {
    pub bytes: &'text [u8],
    /// No token stands before it.
    pub is_first: bool,
    /// `}`, `]`, `)` or the end of the text stands behind it, which no comment belongs to.
    pub is_closed: bool,
}

/// The comments of a gap: of the token before, of nobody, and of the token behind. Neighbouring line
/// comments are one. Of a block comment each line but the first has no blanks at its front, nor a
/// `*` behind these.
///
/// A comment on the line of the token before is that token's. Those below it are its own where they
/// are closed, by another comment, a blank line or what stands behind the gap, and no blank line
/// stands before. The last one, if nothing closes it, is of the token behind. Where a block comment
/// stands on the line of the token before and more behind it, nobody has any.
///
/// The one error is that memory is short.
pub fn comments(alloc: Global, gap: Gap<'_>) -> Result<Comments, AllocError>
    ensures { IfOk result (λ c. comments_view c
        ≡ pieces.comments_of gap.entry.is_first gap.entry.is_closed gap.entry.bytes.now) }
{
    let pieces = pieces_of(alloc, gap.bytes)?;
    let pieces = pieces.as_slice();
    if gap.is_first {
        return divided(alloc, false, gap.is_closed, pieces);
    }
    match pieces {
        [Piece::Feed, rest @ ..] => divided(alloc, true, gap.is_closed, rest),
        [Piece::Line(text), rest @ ..] => behind_trailing(alloc, gap.is_closed, text, rest),
        [Piece::Block(inner), Piece::Feed, rest @ ..] => {
            let text = block_text(alloc, inner)?;
            behind_trailing(alloc, gap.is_closed, &text, rest)
        }
        _ => Ok(Comments {
            trailing: None,
            detached: Vec::new(alloc),
            leading: None,
        }),
    }
}

/// The comments behind one that is the token's before.
fn behind_trailing(
    alloc: Global,
    is_closed: bool,
    text: &[u8],
    pieces: &[Piece<'_>],
) -> Result<Comments, AllocError>
    ensures { IfOk result (λ c. comments_view c ≡ gaps.with_trailing text.now
        (gaps.divided false is_closed
        (gaps.marks (gaps.joined (map piece_view pieces.now))))) }
{
    let mut comments = divided(alloc, false, is_closed, pieces)?;
    comments.trailing = Some(Vec::from_slice(alloc, text)?);
    Ok(comments)
}
