//! Changes on the wire.

/// How a field changed on the wire.
#[derive(Clone, Copy, Debug, PartialEq, Eq)]
pub enum WireChangeKind {
    /// Its type is one whose values stand otherwise on the wire, or mean something else there.
    OtherKind,
    /// Its numbers may be packed, and the new field isn't repeated.
    NotRepeated,
    /// Its bytes needn't be UTF-8, and those of the new field have to be: it is a `string` that a
    /// file with the syntax `proto3` declares.
    BytesBecameText,
    /// The message that it holds doesn't go with the one that it held.
    OtherMessage,
}

/// A change of a field of a message, or of an extension of it.
#[derive(Debug, PartialEq, Eq, Drop)]
pub struct WireChange<'a> {
    pub kind: WireChangeKind,
    /// The full name of the message in the new files, with its first dot: `.shop.Item`.
    pub message: &'a str,
    /// That of the message in the old files.
    pub old_message: &'a str,
    /// The number of the field in both.
    pub number: i32,
}
