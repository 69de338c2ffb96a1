//! The pieces of a gap, one after another.

ghost use Rattle.std.specs.Prelude.{◌≡◌, OnOk, IfOk, map};
ghost use Rattle.protobuf_parse_comments.specs.Gaps as gaps;
ghost use Rattle.protobuf_parse_comments.specs.Pieces as pieces;
ghost use Rattle.protobuf_parse_comments.specs.Machine as machine;
ghost use Rattle.protobuf_parse_comments.specs.InnerViews.{divider_view, piece_view};
ghost use Rattle.protobuf_parse_comments.specs.Views.{comments_view};

use crate::pieces::{Piece, block_text};
use std::alloc::{AllocError, Global};
use std::mem;

/// The comments of a gap, each as its bytes, which are UTF-8.
#[derive(Debug, PartialEq, Eq, Drop)]
pub struct Comments {
    /// Of the token before.
    pub trailing: Option<Vec<u8>>,
    /// Of nobody, in order.
    pub detached: Vec<Vec<u8>>,
    /// Of the token behind.
    pub leading: Option<Vec<u8>>,
}

/// What is being read.
#[derive(Clone, Copy)]
pub enum Pending {
    Nothing,
    /// A line comment, which another one may go on.
    Line,
    /// A block comment.
    Block,
    /// A block comment and the line feed behind it.
    Fed,
}

/// What is known of the pieces so far.
#[derive(Drop)]
struct Divider {
    alloc: Global,
    trailing: Option<Vec<u8>>,
    detached: Vec<Vec<u8>>,
    /// Whether the first comment that is closed is the token's before.
    may_trail: bool,
    pending: Pending,
    /// The comment that is being read.
    text: Vec<u8>,
}

impl Divider {
    /// The comment that is being read is closed.
    fn close(&mut self) -> Result<(), AllocError>
        ensures { OnOk result (divider_view self.new ≡ machine.closed (divider_view self.old)) }
    {
        if matches!(self.pending, Pending::Nothing) {
            return Ok(());
        }
        let text = mem::replace(&mut self.text, Vec::new(self.alloc));
        if self.may_trail {
            self.trailing = Some(text);
        } else {
            self.detached.push(text)?;
        }
        self.may_trail = false;
        self.pending = Pending::Nothing;
        Ok(())
    }

    /// Another comment begins.
    fn begin(&mut self, pending: Pending, text: &[u8]) -> Result<(), AllocError>
        ensures { OnOk result (divider_view self.new
            ≡ machine.begun pending text.now (machine.closed (divider_view self.old))) }
    {
        self.close()?;
        self.text = Vec::from_slice(self.alloc, text)?;
        self.pending = pending;
        Ok(())
    }

    fn see_line(&mut self, text: &[u8]) -> Result<(), AllocError>
        ensures { OnOk result (divider_view self.new
            ≡ machine.step (divider_view self.old) (gaps.line text.now)) }
    {
        match self.pending {
            Pending::Line => self.text.extend_from_slice(text),
            _ => self.begin(Pending::Line, text),
        }
    }

    fn see_block(&mut self, inner: &[u8]) -> Result<(), AllocError>
        ensures { OnOk result (divider_view self.new ≡ machine.step (divider_view self.old)
            (gaps.block (pieces.block_text inner.now))) }
    {
        let text = block_text(self.alloc, inner)?;
        self.begin(Pending::Block, &text)
    }

    fn see_feed(&mut self) -> Result<(), AllocError>
        ensures { OnOk result
            (divider_view self.new ≡ machine.step (divider_view self.old) gaps.feed) }
    {
        match self.pending {
            Pending::Block => {
                self.pending = Pending::Fed;
                Ok(())
            }
            _ => {
                self.close()?;
                self.may_trail = false;
                Ok(())
            }
        }
    }

    fn see(&mut self, piece: Piece<'_>) -> Result<(), AllocError>
        ensures { OnOk result (divider_view self.new
            ≡ machine.step (divider_view self.old) (piece_view piece.entry)) }
    {
        match piece {
            Piece::Line(text) => self.see_line(text),
            Piece::Block(inner) => self.see_block(inner),
            Piece::Feed => self.see_feed(),
        }
    }

    /// The comments. What stands behind the gap closes the last one, or not.
    fn finish(mut self, is_closed: bool) -> Result<Comments, AllocError>
        ensures { IfOk result (λ c. comments_view c
            ≡ machine.finished is_closed (divider_view self)) }
    {
        if is_closed {
            self.close()?;
        }
        let Divider {
            trailing,
            detached,
            pending,
            text,
            ..
        } = self;
        let leading = match pending {
            Pending::Nothing => None,
            _ => Some(text),
        };
        Ok(Comments {
            trailing,
            detached,
            leading,
        })
    }
}

/// The comments of these pieces, where the first may be the token's before.
pub fn divided(
    alloc: Global,
    may_trail: bool,
    is_closed: bool,
    pieces: &[Piece<'_>],
) -> Result<Comments, AllocError>
    ensures { IfOk result (λ c. comments_view c ≡ gaps.divided may_trail is_closed
        (gaps.marks (gaps.joined (map piece_view pieces.now)))) }
{
    let mut divider = Divider {
        alloc,
        trailing: None,
        detached: Vec::new(alloc),
        may_trail,
        pending: Pending::Nothing,
        text: Vec::new(alloc),
    };
    for piece in pieces {
        divider.see(*piece)?;
    }
    divider.finish(is_closed)
}
