//! The kinds of changes, and what each breaks.

ghost use Rattle.std.specs.Prelude.{◌≡◌};
ghost use Rattle.protobuf_parse_changes.specs.Categories.{category_of};

use thiserror::Error;

/// A kind of change, from an old version of files to a new one. As a text it is a sentence.
#[derive(Clone, Copy, Debug, PartialEq, Eq, Error)]
pub enum ChangeKind {
    /// No new file has the path.
    #[error("no new file has the path")]
    FileRemoved,
    /// The file has another package, or one in one version alone.
    #[error("the file's package is another")]
    PackageChanged,
    /// The option of the file, which generated code depends on, has another value: the place's member
    /// is its name.
    #[error("the option of the file has another value")]
    FileOptionChanged,
    /// No new file declares a message of the full name. A message that was made for a map goes with
    /// the map's field, and isn't told.
    #[error("no new file declares the message")]
    MessageRemoved,
    /// No new file declares an enum of the full name.
    #[error("no new file declares the enum")]
    EnumRemoved,
    /// No new file declares a service of the full name.
    #[error("no new file declares the service")]
    ServiceRemoved,
    /// No new file declares an extension of the full name.
    #[error("no new file declares the extension")]
    ExtensionRemoved,
    /// The message has no field of the number.
    #[error("the message has no field of the number")]
    FieldRemoved,
    /// The message has no oneof of the name.
    #[error("the message has no oneof of the name")]
    OneofRemoved,
    /// The enum has no value of the number.
    #[error("the enum has no value of the number")]
    EnumValueRemoved,
    /// The service has no method of the name.
    #[error("the service has no method of the name")]
    MethodRemoved,
    /// The number of a removed field or value isn't reserved.
    #[error("the number isn't reserved")]
    NumberNotReserved,
    /// The name of a removed field or value isn't reserved.
    #[error("the name isn't reserved")]
    NameNotReserved,
    /// A field or value of the new version has a number that was reserved.
    #[error("the number was reserved")]
    ReservedNumberUsed,
    /// A field or value of the new version has a name that was reserved.
    #[error("the name was reserved")]
    ReservedNameUsed,
    /// The field of the number has another name.
    #[error("the field of the number has another name")]
    FieldRenamed,
    /// The values of the number have other names.
    #[error("the values of the number have other names")]
    EnumValueRenamed,
    /// The field of the number has another name in JSON.
    #[error("the field has another name in JSON")]
    JsonNameChanged,
    /// The field of the number, or the extension of the full name, has another type. What that means
    /// for bytes is for other functions to say.
    #[error("the type is another")]
    TypeChanged,
    /// It has the same type with another name: another message, enum or group.
    #[error("the type has another name")]
    TypeNameChanged,
    /// It is repeated in one version alone.
    #[error("it is repeated in one version alone")]
    RepeatedChanged,
    /// It is required in one version alone.
    #[error("it is required in one version alone")]
    RequiredChanged,
    /// It has another default, or a default in one version alone.
    #[error("the default is another")]
    DefaultChanged,
    /// A field of the new version is required, and the old message has no field of the number.
    #[error("the required field is new")]
    RequiredFieldAdded,
    /// The field stands in a oneof of another name, or in a oneof in one version alone.
    #[error("the field's oneof is another")]
    OneofChanged,
    /// The removed field stood in a oneof that the new message has: where it stands in bytes behind
    /// another field of the oneof, that other field shows again.
    #[error("the oneof of the removed field stays")]
    OneofMemberRemoved,
    /// The enum is open, as those of proto3 are, in one version alone.
    #[error("the enum is open in one version alone")]
    OpennessChanged,
    /// The extension of the full name has another number.
    #[error("the extension has another number")]
    ExtensionNumberChanged,
    /// The extension of the full name extends another message.
    #[error("the extension extends another message")]
    ExtendeeChanged,
    /// The method takes another message.
    #[error("the method takes another message")]
    InputChanged,
    /// The method gives another message.
    #[error("the method gives another message")]
    OutputChanged,
    /// The method takes a stream of messages in one version alone.
    #[error("the method takes a stream in one version alone")]
    ClientStreamingChanged,
    /// The method gives a stream of messages in one version alone.
    #[error("the method gives a stream in one version alone")]
    ServerStreamingChanged,
}

/// What a change breaks, at most: what breaks bytes breaks JSON and sources too, and what breaks
/// JSON breaks sources too. Readers of bytes and of JSON are those that pass over what they don't
/// know.
#[derive(Clone, Copy, Debug, PartialEq, Eq)]
pub enum Category {
    /// Bytes or calls of one version mean something else in the other, or are refused; or will, if
    /// a number that is free is taken again.
    Wire,
    /// JSON of one version means something else in the other, or is refused; or will, if a name
    /// that is free is taken again.
    Json,
    /// Programs over generated code, or files that import this one, don't build, or behave
    /// otherwise.
    Source,
}

impl ChangeKind {
    /// What a change of the kind breaks, at most.
    pub fn breaks(self) -> Category
        ensures { result ≡ category_of self }
    {
        match self {
            ChangeKind::ServiceRemoved
            | ChangeKind::MethodRemoved
            | ChangeKind::NumberNotReserved
            | ChangeKind::ReservedNumberUsed
            | ChangeKind::RequiredChanged
            | ChangeKind::DefaultChanged
            | ChangeKind::RequiredFieldAdded
            | ChangeKind::OneofChanged
            | ChangeKind::OneofMemberRemoved
            | ChangeKind::OpennessChanged
            | ChangeKind::ExtensionNumberChanged
            | ChangeKind::ExtendeeChanged
            | ChangeKind::InputChanged
            | ChangeKind::OutputChanged
            | ChangeKind::ClientStreamingChanged
            | ChangeKind::ServerStreamingChanged => Category::Wire,
            ChangeKind::NameNotReserved
            | ChangeKind::ReservedNameUsed
            | ChangeKind::FieldRenamed
            | ChangeKind::EnumValueRenamed
            | ChangeKind::JsonNameChanged
            | ChangeKind::TypeChanged
            | ChangeKind::RepeatedChanged => Category::Json,
            ChangeKind::FileRemoved
            | ChangeKind::PackageChanged
            | ChangeKind::FileOptionChanged
            | ChangeKind::MessageRemoved
            | ChangeKind::EnumRemoved
            | ChangeKind::ExtensionRemoved
            | ChangeKind::FieldRemoved
            | ChangeKind::OneofRemoved
            | ChangeKind::EnumValueRemoved
            | ChangeKind::TypeNameChanged => Category::Source,
        }
    }
}
