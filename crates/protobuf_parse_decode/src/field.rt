//! What a message's bytes mean.

/// A field of a message's bytes, or one item of a field that is repeated.
#[derive(Debug, PartialEq, Eq, Drop)]
#[cycle(field)]
pub struct DecodedField<'a> {
    /// The field's number, from 1 to 2^29 - 1.
    pub number: u32,
    /// The whole record, from its tag on. The records of a message, joined, are its bytes.
    pub bytes: &'a [u8],
    pub meaning: Meaning<'a>,
}

/// What a record means.
#[derive(Debug, PartialEq, Eq, Drop)]
#[cycle(field)]
pub enum Meaning<'a> {
    /// No field and no extension of the message has the number, or the payload is of another sort
    /// than the field's type.
    Unknown,
    /// One value, or all of packed numbers.
    Known(Vec<Value<'a>>),
}

/// A value, by the type of its field.
#[derive(Debug, PartialEq, Eq, Drop)]
#[cycle(field)]
pub enum Value<'a> {
    /// An integer, or the number of a value of an enum.
    Number {
        /// What was on the wire: a varint, or four or eight bytes.
        word: u64,
        number: i128,
    },
    /// The bits of a `float`.
    Float(u32),
    /// The bits of a `double`.
    Double(u64),
    /// A truth value.
    Bool {
        /// The varint that was on the wire: each but 0 is true.
        word: u64,
        value: bool,
    },
    /// A `string` that a file with the syntax `proto3` declares.
    Text(&'a str),
    /// A `bytes`, and a `string` that any other file declares.
    Bytes(&'a [u8]),
    /// The fields of a message or of a group.
    Message(Vec<DecodedField<'a>>),
}
