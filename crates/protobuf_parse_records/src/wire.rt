//! What stands on the wire.

use crate::span::Span;

/// A tag and its payload: what a field of a message is, or one of its items.
#[derive(Clone, Copy, Debug, PartialEq, Eq)]
pub struct Record<'a> {
    /// The field's number, from 1 to 2^29 - 1.
    pub number: u32,
    /// All of its bytes, from the tag on.
    pub whole: Span<'a>,
    pub payload: Payload<'a>,
}

/// What stands behind a tag, by its wire type. What it means is the field's type's.
#[derive(Clone, Copy, Debug, PartialEq, Eq)]
pub enum Payload<'a> {
    /// An integer, a truth value or an enum's number, as it was encoded.
    Varint(u64),
    /// Eight bytes, the lowest first.
    Fixed64(u64),
    /// Four bytes, the lowest first.
    Fixed32(u32),
    /// The bytes behind their length: a string, bytes, a message or packed numbers.
    Delimited(Span<'a>),
    /// The bytes between the tags that start and end a group. They are records.
    Group(Span<'a>),
}

/// The low three bits of a tag.
#[derive(Clone, Copy, Debug, PartialEq, Eq)]
pub enum WireType {
    Varint,
    Fixed64,
    Delimited,
    GroupStart,
    GroupEnd,
    Fixed32,
}
