//! The rules of sets.

ghost use Rattle.std.specs.Prelude.{◌≡◌};
ghost use Rattle.protobuf_parse_set_rules.specs.Codes.{code_of};

use thiserror::Error;

/// A rule that a descriptor of a set breaks.
#[derive(Clone, Copy, Debug, PartialEq, Eq, Error)]
pub enum SetRule {
    /// D1: a file's path is that of an earlier file of the set.
    #[error("an earlier file of the set has the path")]
    FileTwice,
    /// D2: a file imports a path, `name`, that no earlier file of the set has.
    #[error("no earlier file of the set has the path of the import")]
    ImportNotBefore,
    /// D3: the position of a public or weak import is none of an import.
    #[error("no import has the position {index}")]
    NoSuchImport { index: i32 },
    /// D4: the type of a field or an extension, `name`, is no message, or no enum, of those that
    /// the file sees; or there is no name.
    #[error("a field's type must be a message, or an enum, that the file sees")]
    TypeNotSeen,
    /// D5: what an extension extends, `name`, is no message or enum that the file sees; or there is
    /// no name.
    #[error("what is extended must be a message that the file sees")]
    ExtendeeNotSeen,
    /// D6: a field of a message says that it extends one, `name`.
    #[error("a field of a message extends none")]
    ExtendeeOfField,
    /// D7: what a method takes or gives, `name`, is no message or enum that the file sees.
    #[error("what a method takes and gives must be messages that the file sees")]
    MethodTypeNotSeen,
    /// D8: the position of a field's oneof is none of the message's oneofs; an extension has none.
    #[error("no oneof of the message has the position {index}")]
    NoSuchOneof { index: i32 },
    /// D9: a name, or a part of a package, `name`, is no identifier.
    #[error("a name is a letter or `_`, and then letters, digits and `_`")]
    NotIdentifier,
}

impl SetRule {
    /// Its code, which stays the same.
    pub fn code(&self) -> &'static str
        ensures { result.now ≡ code_of self.now }
    {
        match self {
            SetRule::FileTwice => "D1",
            SetRule::ImportNotBefore => "D2",
            SetRule::NoSuchImport { .. } => "D3",
            SetRule::TypeNotSeen => "D4",
            SetRule::ExtendeeNotSeen => "D5",
            SetRule::ExtendeeOfField => "D6",
            SetRule::MethodTypeNotSeen => "D7",
            SetRule::NoSuchOneof { .. } => "D8",
            SetRule::NotIdentifier => "D9",
        }
    }
}
