//! What is written.

use crate::kind::Kind;

/// A field's number, its kind and one value of it.
#[derive(Debug, PartialEq, Eq, Drop)]
#[cycle(entry)]
pub struct Entry {
    pub number: u32,
    pub kind: Kind,
    pub value: EntryValue,
}

/// A value that is written.
#[derive(Debug, PartialEq, Eq, Drop)]
#[cycle(entry)]
pub enum EntryValue {
    /// Of an integer kind or an enum.
    Number(i128),
    Bool(bool),
    /// Of a string too.
    Bytes(Vec<u8>),
    Message(Vec<Entry>),
}
