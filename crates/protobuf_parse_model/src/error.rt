//! Why a tree has no descriptor.

ghost use Rattle.std.specs.Prelude.{◌≡◌, ◌++◌, OnOk};
ghost use Rattle.protobuf_parse_model.specs.Duplicates.{fault};
ghost use Rattle.protobuf_parse_model.specs.Faults.{Blames, found, placed};
ghost use Rattle.protobuf_parse_model.specs.declared.error.ElabFailure.TheVariants.{Memory};

use protobuf_parse_lexer::Place;
use std::alloc::{AllocError, AllocFailed, Global};
use std::fmt;
use thiserror::Error;

/// A fault that stands in a file, and the text that it speaks of.
#[derive(Debug, PartialEq, Eq, Drop, Error)]
#[error("{kind}: {what}")]
pub struct ElabError {
    /// Where the statement begins in which it stands, or the option that is wrong. E1: the second
    /// of the declarations. E5, E6: the last statement of the file that declares the name, or,
    /// where the file declares it nowhere, the import with which the last of the files that do is
    /// reached; [`link`](crate::link) alone, which sees no statements, tells the file's beginning.
    pub place: Place,
    pub kind: ElabErrorKind,
    /// E1: the name. E2, E3: the name of the type as written. E4, E8: the field's name. E5, E6: the
    /// full name with its dot. E7: the message's name. E9 to E13: the option's name as written,
    /// with the names of extensions in parentheses. E14, E15: the extension's name as written. E16,
    /// E24: the part as written. E17: the field's name. E18: the value's name. E19 to E23: the name
    /// of the field that was to be set. E26: the name in the constant with its brackets. E28:
    /// `uninterpreted_option`.
    pub what: String,
}

/// What is wrong.
#[derive(Clone, Copy, Debug, PartialEq, Eq, Error)]
pub enum ElabErrorKind {
    /// E1: two constructs of one kind have this name in one scope.
    DuplicateName,
    /// E2: a name that begins with a dot names no message and no enum.
    NotFoundByAbsPath,
    /// E3: a name means no message and no enum from where it stands.
    NotFoundByRelPath,
    /// E4: a map or a group stands in a group, or a map in an `extend` or in a map's key or value.
    DanglingTypeName,
    /// E5: two messages or enums of the reached files have this full name.
    TypeDeclaredTwice,
    /// E6: two extensions of the reached files have this full name.
    ExtensionDeclaredTwice,
    /// E7: a range of a message ends at 2147483647, so that it has no end behind it.
    RangeEndOverflow,
    /// E8: the default of a string or a bytes field is no string.
    DefaultValueIsNotStringLiteral,
    /// E9: a string has an escape that stands for nothing, or is no UTF-8 where a text is wanted.
    StrLitDecode,
    /// E10: the value of `json_name` is no string.
    WrongOptionType,
    /// E11: the construct has no option of this name.
    BuiltinOptionNotFound,
    /// E12: `uninterpreted_option` can't be set.
    BuiltinOptionPointsToNonSingularField,
    /// E13: the value is none of the option's type.
    InconvertibleValue,
    /// E14: the name of an extension means none from where it stands.
    ExtensionNotFound,
    /// E15: the extension extends another message than the one that is set.
    WrongExtensionType,
    /// E16: a part of an option's name that others follow is no message.
    ExtensionIsNotMessage,
    /// E17: the message has no field of this name.
    UnknownFieldName,
    /// E18: the enum has no value of this name.
    UnknownEnumValue,
    /// E19: the value is none of the field's type.
    UnsupportedExtensionType,
    /// E20: the integer is none of the field's type.
    IntegerOutOfRange,
    /// E21: a message constant is given to a field that is no message.
    MessageFieldRequiresMessageConstant,
    /// E22: a value is given to a float or a double.
    FloatOptionValue,
    /// E23: the number of the field is none that stands on the wire: 1 to 536870911.
    OptionFieldNumber,
    /// E24: a part of an option's name that others follow is a group.
    GroupStepInOptionName,
    /// E26: a message constant has a type URL.
    TypeUrlInConstant,
    /// E28: the name of an option goes on from `uninterpreted_option`.
    UninterpretedOptionName,
}

impl ElabErrorKind {
    /// The number and the name of what is wrong.
    fn text(self) -> &'static str {
        match self {
            ElabErrorKind::DuplicateName => "E1 DuplicateName",
            ElabErrorKind::NotFoundByAbsPath => "E2 NotFoundByAbsPath",
            ElabErrorKind::NotFoundByRelPath => "E3 NotFoundByRelPath",
            ElabErrorKind::DanglingTypeName => "E4 DanglingTypeName",
            ElabErrorKind::TypeDeclaredTwice => "E5 TypeDeclaredTwice",
            ElabErrorKind::ExtensionDeclaredTwice => "E6 ExtensionDeclaredTwice",
            ElabErrorKind::RangeEndOverflow => "E7 RangeEndOverflow",
            ElabErrorKind::DefaultValueIsNotStringLiteral => "E8 DefaultValueIsNotStringLiteral",
            ElabErrorKind::StrLitDecode => "E9 StrLitDecode",
            ElabErrorKind::WrongOptionType => "E10 WrongOptionType",
            ElabErrorKind::BuiltinOptionNotFound => "E11 BuiltinOptionNotFound",
            ElabErrorKind::BuiltinOptionPointsToNonSingularField =>
                "E12 BuiltinOptionPointsToNonSingularField",
            ElabErrorKind::InconvertibleValue => "E13 InconvertibleValue",
            ElabErrorKind::ExtensionNotFound => "E14 ExtensionNotFound",
            ElabErrorKind::WrongExtensionType => "E15 WrongExtensionType",
            ElabErrorKind::ExtensionIsNotMessage => "E16 ExtensionIsNotMessage",
            ElabErrorKind::UnknownFieldName => "E17 UnknownFieldName",
            ElabErrorKind::UnknownEnumValue => "E18 UnknownEnumValue",
            ElabErrorKind::UnsupportedExtensionType => "E19 UnsupportedExtensionType",
            ElabErrorKind::IntegerOutOfRange => "E20 IntegerOutOfRange",
            ElabErrorKind::MessageFieldRequiresMessageConstant =>
                "E21 MessageFieldRequiresMessageConstant",
            ElabErrorKind::FloatOptionValue => "E22 FloatOptionValue",
            ElabErrorKind::OptionFieldNumber => "E23 OptionFieldNumber",
            ElabErrorKind::GroupStepInOptionName => "E24 GroupStepInOptionName",
            ElabErrorKind::TypeUrlInConstant => "E26 TypeUrlInConstant",
            ElabErrorKind::UninterpretedOptionName => "E28 UninterpretedOptionName",
        }
    }
}

impl fmt::Display for ElabErrorKind {
    fn fmt<W: fmt::Write>(&self, f: &mut fmt::Formatter<W>) -> fmt::Result {
        f.write_str(self.text())
    }
}

/// Why a call that elaborates gave nothing.
#[derive(Debug, PartialEq, Eq, Drop, Error)]
pub enum ElabFailure {
    #[error("out of memory")]
    Memory,
    #[error(transparent)]
    Fault(ElabError),
}

impl From<AllocError> for ElabFailure {
    ghost from_gives = { λ _ e. e ≡ Memory };

    fn from(_error: AllocError) -> ElabFailure {
        ElabFailure::Memory
    }
}

impl<T: Drop> From<AllocFailed<T>> for ElabFailure {
    ghost from_gives = { λ _ e. e ≡ Memory };

    fn from(_error: AllocFailed<T>) -> ElabFailure {
        ElabFailure::Memory
    }
}

/// The failure that tells a fault of that kind at that place, and the text that it speaks of.
#[tactic(auto, using(crate::proofs::Blaming::among_fault))]
pub fn fault(alloc: Global, place: Place, kind: ElabErrorKind, what: &str) -> ElabFailure
    ensures { Blames result (placed place (fault kind what.now)) }
{
    match String::from_str(alloc, what) {
        Ok(what) => ElabFailure::Fault(ElabError { place, kind, what }),
        Err(_) => ElabFailure::Memory,
    }
}

/// Adds the fault of that kind at that place, and the text that it speaks of.
pub fn tell(
    alloc: Global,
    faults: &mut Vec<ElabError>,
    place: Place,
    kind: ElabErrorKind,
    what: &str,
) -> Result<(), AllocError>
    ensures { OnOk result
        (found faults.new ≡ found faults.old ++ placed place (fault kind what.now)) }
{
    let what = String::from_str(alloc, what)?;
    faults.push(ElabError { place, kind, what })?;
    Ok(())
}
