//! What is read.

/// A record: a field's number and the value that stands there.
#[derive(Debug, PartialEq, Eq, Drop)]
#[cycle(field)]
pub struct ReadField {
    pub number: u32,
    pub value: ReadValue,
}

/// A value that was read.
#[derive(Debug, PartialEq, Eq, Drop)]
#[cycle(field)]
pub enum ReadValue {
    /// Of an integer kind or an enum.
    Number(i128),
    Bool(bool),
    /// Of a string too.
    Bytes(Vec<u8>),
    Message(Vec<ReadField>),
}
