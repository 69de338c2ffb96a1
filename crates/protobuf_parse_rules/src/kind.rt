//! What has a full name.

use std::fmt;

/// What has a full name.
#[derive(Clone, Copy, Debug, PartialEq, Eq)]
pub enum NamedKind {
    /// A package, or a front of one.
    Package,
    Message,
    Field,
    Oneof,
    Enum,
    EnumValue,
    Extension,
    Service,
    Method,
}

impl fmt::Display for NamedKind {
    fn fmt<W: fmt::Write>(&self, f: &mut fmt::Formatter<W>) -> fmt::Result {
        f.write_str(match self {
            NamedKind::Package => "a package",
            NamedKind::Message => "a message",
            NamedKind::Field => "a field",
            NamedKind::Oneof => "a oneof",
            NamedKind::Enum => "an enum",
            NamedKind::EnumValue => "an enum value",
            NamedKind::Extension => "an extension",
            NamedKind::Service => "a service",
            NamedKind::Method => "a method",
        })
    }
}
