//! How much has to stay.

/// How much has to stay of numbers whose types change.
#[derive(Clone, Copy, Debug, PartialEq, Eq)]
pub enum Strength {
    /// Every value. An enum may become an `int32`, and the other way round.
    Exact,
    /// What stands on the wire, which the new type reads in its own way. Types may change among
    /// `int32`, `int64`, `uint32`, `uint64`, `bool` and enums, among `sint32` and `sint64`, among
    /// `fixed32` and `sfixed32`, and among `fixed64` and `sfixed64`. Numbers that the new type
    /// doesn't have become others.
    Family,
}
