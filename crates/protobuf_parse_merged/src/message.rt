//! Merged messages.

/// A message, once its records are merged.
#[derive(Debug, PartialEq, Eq, Drop)]
#[cycle(message)]
pub struct Message<'a> {
    /// The fields that are present, in ascending order of their numbers, each number once.
    pub fields: Vec<Field<'a>>,
    /// What is no value of a field, in the order of the records.
    pub unknown: Vec<Unknown<'a>>,
}

/// A field that is present.
#[derive(Debug, PartialEq, Eq, Drop)]
#[cycle(message)]
pub struct Field<'a> {
    /// The field's number, from 1 to 2^29 - 1.
    pub number: u32,
    /// One value, or where the field is repeated one or more, in order. Those of a map are its
    /// entries, one for each key, in ascending order of their keys: numbers by value, false before
    /// true, texts by their bytes. Each is a message with the fields 1 and 2, the key and the value:
    /// where the record has none, the default of its type stands there.
    pub values: Vec<FieldValue<'a>>,
}

/// A value, by the type of its field.
#[derive(Debug, PartialEq, Eq, Drop)]
#[cycle(message)]
pub enum FieldValue<'a> {
    /// An integer, or the number of a value of an enum.
    Number {
        /// What was on the wire: a varint, or four or eight bytes.
        word: u64,
        number: i128,
    },
    /// The bits of a `float`.
    Float(u32),
    /// The bits of a `double`.
    Double(u64),
    Bool(bool),
    /// A `string` that a file with the syntax `proto3` declares.
    Text(&'a str),
    /// A `bytes`, and a `string` that any other file declares.
    Bytes(&'a [u8]),
    /// A message or a group.
    Message(Message<'a>),
}

/// What is no value of a field.
#[derive(Clone, Copy, Debug, PartialEq, Eq)]
pub enum Unknown<'a> {
    /// A record, with all its bytes: its number is no field's, its payload is of another sort than
    /// the field's type, or it is an entry of a map whose value a closed enum doesn't declare.
    Record { number: u32, bytes: &'a [u8] },
    /// The varint of a number that a field's closed enum doesn't declare.
    Word { number: u32, word: u64 },
}
