//! What a walk finds.

use crate::token::Point;
use protobuf_parse_syntax::ProtobufOptionName;

/// All that stands between two tokens: where it begins and ends, in bytes of the text.
#[derive(Clone, Copy)]
pub struct Between {
    pub from: usize,
    pub to: usize,
}

/// Tokens that stand side by side.
#[derive(Clone, Copy)]
pub struct Range {
    pub from: Point,
    pub to: Point,
}

/// Where a location begins.
#[derive(Drop)]
pub struct Mark {
    /// The gaps before the empty statements that stand directly before it.
    pub skipped: Vec<Between>,
    pub before: Between,
    pub from: Point,
}

/// The gaps around a declaration.
#[derive(Drop)]
pub struct Gaps {
    /// Those before the empty statements that stand directly before it.
    pub skipped: Vec<Between>,
    pub before: Between,
    /// The one behind its head.
    pub behind: Between,
}

/// A location without its comments.
#[derive(Drop)]
pub struct Found<'a> {
    pub path: Vec<u32>,
    pub from: Point,
    pub to: Point,
    /// The option's name, if it is an option's.
    pub option: Option<&'a ProtobufOptionName>,
    /// If it is a declaration's.
    pub gaps: Option<Gaps>,
}
