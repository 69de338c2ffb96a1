//! The rules.

ghost use Rattle.std.specs.Prelude.{◌≡◌};
ghost use Rattle.protobuf_parse_rules.specs.Codes.{code_of, is_warning};

use crate::kind::NamedKind;
use thiserror::Error;

/// A rule that is broken, with the numbers that it speaks of.
#[derive(Clone, Copy, Debug, PartialEq, Eq, Error)]
pub enum Rule {
    /// C1: the number of a field or an extension is that of another one of the message, which
    /// `name` is, and the first that has it stands in the same file.
    #[error("number {number} has already been used in the message")]
    NumberInUse { number: i32 },
    /// C1: the same where the first that has it stands in another file, of which `protoc` warns.
    #[error("number {number} has already been used in the message, in another file")]
    NumberInUseElsewhere { number: i32 },
    /// C2: a number below 1.
    #[error("the number {number} is not positive")]
    NumberNotPositive { number: i32 },
    /// C3: a field's number above 536870911.
    #[error("the number {number} is greater than 536870911")]
    NumberTooLarge { number: i32 },
    /// C4: a number from 19000 to 19999.
    #[error("the numbers 19000 to 19999 are kept for the implementation, and {number} is one of them")]
    NumberOfImplementation { number: i32 },
    /// C5: in proto3 the JSON name of a field, `name`, is that of another one of the message.
    #[error("another field of the message has the JSON name")]
    JsonNameInUse,
    /// C6: the same in proto2.
    #[error("another field of the message has the JSON name")]
    JsonNameInUseProto2,
    /// C7: the number of a value is that of another one of the enum, which allows no aliases.
    #[error("the enum has already a value of number {number}, and does not allow aliases")]
    ValueInUse { number: i32 },
    /// C8: the first value of an enum of proto3 is not 0.
    #[error("the first value of an enum of proto3 must be 0, not {number}")]
    FirstValueNotZero { number: i32 },
    /// C9: an enum has no values.
    #[error("an enum must have at least one value")]
    EnumWithoutValues,
    /// C10: an enum says that it allows no aliases, as it is without.
    #[error("`allow_alias = false` has no effect")]
    AliasesForbidden,
    /// C11: a field of proto3 has the label `required`.
    #[error("required fields are not allowed in proto3")]
    RequiredInProto3,
    /// C12: a field of proto3 is a group.
    #[error("groups are not allowed in proto3")]
    GroupInProto3,
    /// C13: a field of proto3 has a default.
    #[error("defaults are not allowed in proto3")]
    DefaultInProto3,
    /// C14: a message of proto3 keeps numbers for extensions.
    #[error("extension ranges are not allowed in proto3")]
    ExtensionRangeInProto3,
    /// C15: proto3 extends a message, `name`, which is none of options.
    #[error("in proto3 only messages of options may be extended")]
    ExtensionInProto3,
    /// C16: a message of proto3 has the wire format of message sets.
    #[error("message sets are not allowed in proto3")]
    MessageSetInProto3,
    /// C17: a message set has a field.
    #[error("a message set has extensions alone, and no fields")]
    FieldInMessageSet,
    /// C18: an extension has the label `required`.
    #[error("an extension cannot be required")]
    RequiredExtension,
    /// C19: `packed` is set for what is no repeated field of numbers, truth values or an enum.
    #[error("only a repeated field of numbers, truth values or an enum can be packed")]
    PackedNotPackable,
    /// C20: `lazy` or `unverified_lazy` is set for what is no message.
    #[error("only a field whose type is a message can be lazy")]
    LazyNotMessage,
    /// C21: `jstype` is set for what is no integer of 64 bits.
    #[error("only a field of 64-bit integers can have a `jstype`")]
    JsTypeNotLarge,
    /// C22: a repeated field has a default.
    #[error("a repeated field cannot have a default")]
    DefaultOfRepeated,
    /// C23: a field whose type is a message or a group has a default.
    #[error("a message cannot have a default")]
    DefaultOfMessage,
    /// C24: the default of a `bool`, `name`, is neither `true` nor `false`.
    #[error("the default must be `true` or `false`")]
    DefaultNotBool,
    /// C25: the key of a map is of a floating, `bytes`, message or enum type.
    #[error("the key of a map cannot be of a floating, bytes, message or enum type")]
    MapKey,
    /// C26: a range of numbers begins below 1.
    #[error("a range of numbers begins at {start}, which is not positive")]
    RangeNotPositive { start: i32 },
    /// C27: a range of extensions, or a reserved one of an enum, ends before it begins.
    #[error("the range that begins at {start} ends before it")]
    RangeEmpty { start: i32 },
    /// C28: a range of extensions ends behind 536870911.
    #[error("an extension range ends before {end}, behind 536870911")]
    ExtensionRangeTooLarge { end: i32 },
    /// C29: the number of a field, or of a value of an enum, is reserved.
    #[error("the number {number} is reserved")]
    NumberReserved { number: i32 },
    /// C30: the name of a field, or of a value of an enum, is reserved.
    #[error("the name is reserved")]
    NameReserved,
    /// C31: the number of a field lies in an extension range of its message.
    #[error("the number {number} is kept for extensions")]
    NumberKeptForExtensions { number: i32 },
    /// C32: the number of an extension lies in no extension range of the message, which `name` is.
    #[error("the message does not declare {number} as an extension number")]
    NumberNotForExtensions { number: i32 },
    /// C33: an extension of a message set, `name`, is no optional message.
    #[error("an extension of a message set must be an optional message")]
    ExtensionOfMessageSet,
    /// C34: a field of proto3 is of an enum, `name`, that is none of proto3.
    #[error("the enum is none of proto3, but is used in a field of proto3")]
    EnumOfProto2,
    /// C35: the default, `name`, is no value of the field's enum.
    #[error("the enum has no value of the name of the default")]
    NoValueOfName,
    /// C36: the values of a map are of an enum, `name`, whose first value is not 0.
    #[error("an enum of a map's values must have 0 as its first value")]
    MapValueNotZero,
    /// C37: a file imports a path, `name`, twice.
    #[error("the import was listed twice")]
    ImportedTwice,
    /// C38: a message or an enum reserves a name, `name`, twice.
    #[error("the name is reserved twice")]
    NameReservedTwice,
    /// C39: a range begins at a number that lies in another range of the message, of extensions or
    /// reserved, or in another reserved range of the enum.
    #[error("the range that begins at {start} overlaps another one, which has that number too")]
    RangesOverlap { start: i32 },
    /// C40: an enum allows aliases, and has no two values of one number.
    #[error("`allow_alias = true` without two values of one number")]
    AliasesWithoutNeed,
    /// C41: a oneof in which no field stands.
    #[error("a oneof must have at least one field")]
    OneofWithoutFields,
    /// C42: the default of a field of numbers, `name`, is no number, or none of its type.
    #[error("the default must be a number of the field's type")]
    DefaultNotNumber,
    /// C43: the default, `name`, is none of the integers of the field's type.
    #[error("the default is out of the range of the field's type")]
    DefaultOutOfRange,
    /// C44: the default, `name`, is negative, and the field's type has no sign.
    #[error("a field of a type without a sign cannot have a negative default")]
    DefaultNegative,
    /// C45: the full name is already that of something else, in the file `name`.
    #[error("the full name of {kind} is already that of {first}, in the file")]
    NameInUse { kind: NamedKind, first: NamedKind },
    /// C46: in proto3 the name of an enum's value is that of another one, which has another number,
    /// but for case, underscores and the enum's name at the head.
    #[error("another value has the name, but for case, underscores and the enum's name")]
    ValueNamesAlike,
    /// C47: in proto3 the name of a field is that of another one of the message, but for case and
    /// underscores.
    #[error("another field of the message has the name, but for case and underscores")]
    JsonNamesAlike,
    /// C48: nothing in a file needs its import of a path, `name`.
    #[error("the import is unused")]
    ImportUnused,
    /// C49: a file that is not for the lite runtime imports one, `name`, that is.
    #[error("a file that is not for the lite runtime imports one that is")]
    LiteImport,
    /// C50: an extension in a file for the lite runtime is of a message, `name`, of one that is
    /// not.
    #[error("a file for the lite runtime extends a message of one that is not")]
    LiteExtension,
    /// C51: a service of the generic kind, for C++ or Java, in a file for the lite runtime.
    #[error("a file for the lite runtime cannot have generic services for C++ or Java")]
    LiteService,
    /// C52: as C46, in proto2.
    #[error("another value has the name, but for case, underscores and the enum's name")]
    ValueNamesAlikeProto2,
    /// C53: what a method takes or gives, `name`, is an enum.
    #[error("what a method takes and gives must be messages, and this is an enum")]
    MethodTypeNotMessage,
    /// C54: what an extension extends, `name`, is an enum.
    #[error("only messages can be extended, and this is an enum")]
    ExtendeeNotMessage,
    /// C55: a message is the 32nd of messages inside one another.
    #[error("messages are nested 32 deep or more")]
    NestedTooDeep,
}

impl Rule {
    /// Its code, which stays the same.
    pub fn code(&self) -> &'static str
        ensures { result.now ≡ code_of self.now }
    {
        match self {
            Rule::NumberInUse { .. } | Rule::NumberInUseElsewhere { .. } => "C1",
            Rule::NumberNotPositive { .. } => "C2",
            Rule::NumberTooLarge { .. } => "C3",
            Rule::NumberOfImplementation { .. } => "C4",
            Rule::JsonNameInUse => "C5",
            Rule::JsonNameInUseProto2 => "C6",
            Rule::ValueInUse { .. } => "C7",
            Rule::FirstValueNotZero { .. } => "C8",
            Rule::EnumWithoutValues => "C9",
            Rule::AliasesForbidden => "C10",
            Rule::RequiredInProto3 => "C11",
            Rule::GroupInProto3 => "C12",
            Rule::DefaultInProto3 => "C13",
            Rule::ExtensionRangeInProto3 => "C14",
            Rule::ExtensionInProto3 => "C15",
            Rule::MessageSetInProto3 => "C16",
            Rule::FieldInMessageSet => "C17",
            Rule::RequiredExtension => "C18",
            Rule::PackedNotPackable => "C19",
            Rule::LazyNotMessage => "C20",
            Rule::JsTypeNotLarge => "C21",
            Rule::DefaultOfRepeated => "C22",
            Rule::DefaultOfMessage => "C23",
            Rule::DefaultNotBool => "C24",
            Rule::MapKey => "C25",
            Rule::RangeNotPositive { .. } => "C26",
            Rule::RangeEmpty { .. } => "C27",
            Rule::ExtensionRangeTooLarge { .. } => "C28",
            Rule::NumberReserved { .. } => "C29",
            Rule::NameReserved => "C30",
            Rule::NumberKeptForExtensions { .. } => "C31",
            Rule::NumberNotForExtensions { .. } => "C32",
            Rule::ExtensionOfMessageSet => "C33",
            Rule::EnumOfProto2 => "C34",
            Rule::NoValueOfName => "C35",
            Rule::MapValueNotZero => "C36",
            Rule::ImportedTwice => "C37",
            Rule::NameReservedTwice => "C38",
            Rule::RangesOverlap { .. } => "C39",
            Rule::AliasesWithoutNeed => "C40",
            Rule::OneofWithoutFields => "C41",
            Rule::DefaultNotNumber => "C42",
            Rule::DefaultOutOfRange => "C43",
            Rule::DefaultNegative => "C44",
            Rule::NameInUse { .. } => "C45",
            Rule::ValueNamesAlike => "C46",
            Rule::JsonNamesAlike => "C47",
            Rule::ImportUnused => "C48",
            Rule::LiteImport => "C49",
            Rule::LiteExtension => "C50",
            Rule::LiteService => "C51",
            Rule::ValueNamesAlikeProto2 => "C52",
            Rule::MethodTypeNotMessage => "C53",
            Rule::ExtendeeNotMessage => "C54",
            Rule::NestedTooDeep => "C55",
        }
    }

    /// Whether `protoc` only warns of it.
    pub fn is_warning(&self) -> bool
        ensures { result ≡ is_warning self.now }
    {
        matches!(
            self,
            Rule::NumberInUseElsewhere { .. }
                | Rule::JsonNameInUseProto2
                | Rule::ImportUnused
                | Rule::ValueNamesAlikeProto2
        )
    }
}
