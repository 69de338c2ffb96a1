//! The pieces of a gap, from its bytes.

ghost use Rattle.std.specs.Prelude.{◌≡◌, ◌≤◌, ◌<◌, ◌+◌, ◌==◌, ◌&&◌, ◌++◌, IfOk, map, drop, length};
ghost use Rattle.std.specs.Prelude.{option_map, option_to_list, slice_index};
ghost use Rattle.protobuf_parse_comments.specs.Pieces as spec;
ghost use Rattle.protobuf_parse_comments.specs.InnerViews.{piece_view};

use std::alloc::{AllocError, Global};

/// What stands in a gap; other blanks are nothing.
#[derive(Clone, Copy)]
pub enum Piece<'text> {
    /// A line comment: the bytes behind `//`, with its line feed.
    Line(&'text [u8]),
    /// A block comment: the bytes between its marks.
    Block(&'text [u8]),
    /// A line feed outside of comments.
    Feed,
}

/// The pieces of a gap.
pub fn pieces_of(alloc: Global, gap: &[u8]) -> Result<Vec<Piece<'_>>, AllocError>
    ensures { IfOk result (λ v. map piece_view v.items ≡ spec.pieces gap.now) }
{
    let mut pieces = Vec::new(alloc);
    let mut rest = gap;
    'gap: while !rest.is_empty() {
        let (piece, len) = front_piece(rest);
        if let Some(piece) = piece {
            pieces.push(piece)?;
        }
        let (_, behind) = rest.split_at(len);
        rest = behind;
    }
    Ok(pieces)
}

/// The piece at the front, if one stands there, and how many bytes it takes.
fn front_piece(gap: &[u8]) -> (Option<Piece<'_>>, usize)
    requires { 0 < length gap.now }
    ensures some { 0 < result.1 }
    ensures within { result.1 ≤ length gap.now }
    ensures pieces { spec.pieces gap.now
        ≡ option_to_list (option_map piece_view result.0) ++ spec.pieces (drop result.1 gap.now) }
{
    let first = gap[0];
    let second = byte_at(gap, 1);
    if first == b'\n' {
        return (Some(Piece::Feed), 1);
    }
    if first == b'/' && second == b'/' {
        let (_, inner) = gap.split_at(2);
        let len = line_len(inner);
        let (text, _) = inner.split_at(len);
        return (Some(Piece::Line(text)), len + 2);
    }
    if first == b'/' && second == b'*' {
        let (_, inner) = gap.split_at(2);
        let len = block_len(inner);
        let (text, behind) = inner.split_at(len);
        let end = if behind.len() < 2 { behind.len() } else { 2 };
        return (Some(Piece::Block(text)), len + 2 + end);
    }
    (None, 1)
}

/// The byte there, or 0.
fn byte_at(bytes: &[u8], at: usize) -> u8
    ensures { result ≡ slice_index bytes.now at }
{
    if at < bytes.len() { bytes[at] } else { 0 }
}

/// How many bytes stand up to the first line feed and with it.
#[tactic(auto, using(crate::proofs::Scans::line_here, crate::proofs::Scans::line_more, crate::proofs::Scans::line_end))]
fn line_len(bytes: &[u8]) -> usize
    ensures value { result ≡ spec.line_len bytes.now }
    ensures within { result ≤ length bytes.now }
{
    for i in 0..bytes.len() {
        if byte_at(bytes, i) == b'\n' {
            return i + 1;
        }
    }
    bytes.len()
}

/// How many bytes stand before the first `*/`.
#[tactic(auto, using(crate::proofs::Scans::block_here, crate::proofs::Scans::block_more, crate::proofs::Scans::block_end))]
fn block_len(bytes: &[u8]) -> usize
    ensures value { result ≡ spec.block_len bytes.now }
    ensures within { result ≤ length bytes.now }
{
    for i in 0..bytes.len() {
        if ends_block(bytes, i) {
            return i;
        }
    }
    bytes.len()
}

/// Whether a block comment ends there.
fn ends_block(bytes: &[u8], at: usize) -> bool
    requires { at < length bytes.now }
    ensures { result ≡ (slice_index bytes.now at == 42 && slice_index bytes.now (at + 1) == 47) }
{
    byte_at(bytes, at) == b'*' && byte_at(bytes, at + 1) == b'/'
}

/// What a block comment says that has this between its marks.
pub fn block_text(alloc: Global, inner: &[u8]) -> Result<Vec<u8>, AllocError>
    ensures { IfOk result (λ v. v.items ≡ spec.block_text inner.now) }
{
    let mut text = Vec::new(alloc);
    let mut is_front = false;
    for byte in inner {
        if is_said(is_front, *byte) {
            text.push(*byte)?;
        }
        is_front = stays_front(is_front, *byte);
    }
    Ok(text)
}

/// Whether the byte is said, where nothing but blanks stands before it on a line that is not the
/// first, or not.
fn is_said(is_front: bool, byte: u8) -> bool
    ensures { result ≡ spec.is_said is_front byte }
{
    !is_front || byte == b'\n' || !(is_blank(byte) || byte == b'*')
}

/// Whether nothing but blanks stands before the next byte on its line, and that is not the first.
fn stays_front(is_front: bool, byte: u8) -> bool
    ensures { result ≡ spec.stays_front is_front byte }
{
    byte == b'\n' || is_front && is_blank(byte)
}

fn is_blank(byte: u8) -> bool
    ensures { result ≡ spec.is_blank byte }
{
    byte == b' ' || byte == b'\t' || byte == b'\r' || byte == 11 || byte == 12
}
