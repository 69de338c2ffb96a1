//! The texts of all faults of paths, texts, files and option bytes. Each kind has a list of its
//! faults, and a `match` that gives each its place there: it has no arm for the rest, so that a new
//! fault does not compile before it is counted.

use protobuf_parse::{
    ElabError, ElabErrorKind, ParserError, ParserErrorWithLocation, PathError, Place, ReadFault,
};
use protobuf_parse_lexer::StrLitDecodeError;
use protobuf_parse_model::ElabFailure;
use std::alloc::AllocError;
use std::test::Fail;

const PATH_ERRORS: [(PathError, &str); 7] = [
    (PathError::Memory, "out of memory"),
    (PathError::Empty, "path is empty"),
    (PathError::Backslashes, "backslashes in path"),
    (PathError::EmptyComponent, "path contains empty components"),
    (PathError::Dot, "dot in path"),
    (PathError::DotDot, "dot-dot in path"),
    (PathError::Absolute, "path is absolute"),
];

fn place_of_path_error(error: PathError) -> usize {
    match error {
        PathError::Memory => 0,
        PathError::Empty => 1,
        PathError::Backslashes => 2,
        PathError::EmptyComponent => 3,
        PathError::Dot => 4,
        PathError::DotDot => 5,
        PathError::Absolute => 6,
    }
}

#[test]
fn tells_what_is_wrong_with_a_path(rt: HostRuntime) -> Result<(), Fail> {
    for (place, (error, text)) in PATH_ERRORS.iter().enumerate() {
        assert_eq!(rt; place_of_path_error(*error), place);
        assert_eq!(rt; format!(in rt.alloc(); "{error}")?.as_str(), *text);
    }
    Ok(())
}

const PARSER_ERRORS: [(ParserError, &str); 21] = [
    (ParserError::Memory, "out of memory"),
    (ParserError::UnexpectedCharacter, "S1 UnexpectedCharacter"),
    (ParserError::UnterminatedComment, "S2 UnterminatedComment"),
    (ParserError::UnterminatedString, "S3 UnterminatedString"),
    (ParserError::BadNumber, "S4 BadNumber"),
    (ParserError::IntegerOverflow, "S5 IntegerOverflow"),
    (ParserError::NestingTooDeep, "S6 NestingTooDeep"),
    (ParserError::OptionNameTooLong, "S7 OptionNameTooLong"),
    (ParserError::IncorrectInput, "S8 IncorrectInput"),
    (ParserError::ExpectConstant, "S9 ExpectConstant"),
    (ParserError::UnknownSyntax, "S10 UnknownSyntax"),
    (ParserError::LabelNotAllowed, "S11 LabelNotAllowed"),
    (ParserError::LabelRequired, "S12 LabelRequired"),
    (
        ParserError::GroupNameShouldStartWithUpperCase,
        "S13 GroupNameShouldStartWithUpperCase",
    ),
    (ParserError::MapFieldNotAllowed, "S14 MapFieldNotAllowed"),
    (ParserError::StrLitDecode, "S15 StrLitDecode"),
    (ParserError::OneOfInGroup, "S16 OneOfInGroup"),
    (ParserError::OnlyFieldsInGroup, "S17 OnlyFieldsInGroup"),
    (ParserError::FloatConstant, "S18 FloatConstant"),
    (
        ParserError::BadImportPath(PathError::DotDot),
        "S19 BadImportPath: dot-dot in path",
    ),
    (ParserError::TextTooLong, "S20 TextTooLong"),
];

fn place_of_parser_error(error: ParserError) -> usize {
    match error {
        ParserError::Memory => 0,
        ParserError::UnexpectedCharacter => 1,
        ParserError::UnterminatedComment => 2,
        ParserError::UnterminatedString => 3,
        ParserError::BadNumber => 4,
        ParserError::IntegerOverflow => 5,
        ParserError::NestingTooDeep => 6,
        ParserError::OptionNameTooLong => 7,
        ParserError::IncorrectInput => 8,
        ParserError::ExpectConstant => 9,
        ParserError::UnknownSyntax => 10,
        ParserError::LabelNotAllowed => 11,
        ParserError::LabelRequired => 12,
        ParserError::GroupNameShouldStartWithUpperCase => 13,
        ParserError::MapFieldNotAllowed => 14,
        ParserError::StrLitDecode => 15,
        ParserError::OneOfInGroup => 16,
        ParserError::OnlyFieldsInGroup => 17,
        ParserError::FloatConstant => 18,
        ParserError::BadImportPath(_) => 19,
        ParserError::TextTooLong => 20,
    }
}

#[test]
fn tells_what_is_wrong_with_a_text(rt: HostRuntime) -> Result<(), Fail> {
    let alloc = rt.alloc();
    for (place, (error, text)) in PARSER_ERRORS.iter().enumerate() {
        assert_eq!(rt; place_of_parser_error(*error), place);
        assert_eq!(rt; format!(in alloc; "{error}")?.as_str(), *text);
        let located = ParserErrorWithLocation {
            error: *error,
            line: 4,
            col: 13,
        };
        let want = format!(in alloc; "at 4:13: {text}")?;
        assert_eq!(rt; format!(in alloc; "{located}")?, want);
    }
    let short = ParserErrorWithLocation::from(AllocError);
    assert_eq!(rt;
        format!(in alloc; "{short}")?.as_str(),
        "at 0:0: out of memory"
    );
    Ok(())
}

/// What is told of a text that is too long: no text of that length is made here.
#[test]
fn tells_where_a_text_is_too_long(rt: HostRuntime) -> Result<(), Fail> {
    let error = ParserErrorWithLocation {
        error: ParserError::TextTooLong,
        line: 1,
        col: 1,
    };
    assert_eq!(rt;
        format!(in rt.alloc(); "{error}")?.as_str(),
        "at 1:1: S20 TextTooLong"
    );
    Ok(())
}

const ELAB_ERRORS: [(ElabErrorKind, &str); 26] = [
    (ElabErrorKind::DuplicateName, "E1 DuplicateName"),
    (ElabErrorKind::NotFoundByAbsPath, "E2 NotFoundByAbsPath"),
    (ElabErrorKind::NotFoundByRelPath, "E3 NotFoundByRelPath"),
    (ElabErrorKind::DanglingTypeName, "E4 DanglingTypeName"),
    (ElabErrorKind::TypeDeclaredTwice, "E5 TypeDeclaredTwice"),
    (
        ElabErrorKind::ExtensionDeclaredTwice,
        "E6 ExtensionDeclaredTwice",
    ),
    (ElabErrorKind::RangeEndOverflow, "E7 RangeEndOverflow"),
    (
        ElabErrorKind::DefaultValueIsNotStringLiteral,
        "E8 DefaultValueIsNotStringLiteral",
    ),
    (ElabErrorKind::StrLitDecode, "E9 StrLitDecode"),
    (ElabErrorKind::WrongOptionType, "E10 WrongOptionType"),
    (
        ElabErrorKind::BuiltinOptionNotFound,
        "E11 BuiltinOptionNotFound",
    ),
    (
        ElabErrorKind::BuiltinOptionPointsToNonSingularField,
        "E12 BuiltinOptionPointsToNonSingularField",
    ),
    (ElabErrorKind::InconvertibleValue, "E13 InconvertibleValue"),
    (ElabErrorKind::ExtensionNotFound, "E14 ExtensionNotFound"),
    (ElabErrorKind::WrongExtensionType, "E15 WrongExtensionType"),
    (
        ElabErrorKind::ExtensionIsNotMessage,
        "E16 ExtensionIsNotMessage",
    ),
    (ElabErrorKind::UnknownFieldName, "E17 UnknownFieldName"),
    (ElabErrorKind::UnknownEnumValue, "E18 UnknownEnumValue"),
    (
        ElabErrorKind::UnsupportedExtensionType,
        "E19 UnsupportedExtensionType",
    ),
    (ElabErrorKind::IntegerOutOfRange, "E20 IntegerOutOfRange"),
    (
        ElabErrorKind::MessageFieldRequiresMessageConstant,
        "E21 MessageFieldRequiresMessageConstant",
    ),
    (ElabErrorKind::FloatOptionValue, "E22 FloatOptionValue"),
    (ElabErrorKind::OptionFieldNumber, "E23 OptionFieldNumber"),
    (
        ElabErrorKind::GroupStepInOptionName,
        "E24 GroupStepInOptionName",
    ),
    // E25 and E27 are told no more, and their numbers are not used anew.
    (ElabErrorKind::TypeUrlInConstant, "E26 TypeUrlInConstant"),
    (
        ElabErrorKind::UninterpretedOptionName,
        "E28 UninterpretedOptionName",
    ),
];

fn place_of_elab_error(kind: ElabErrorKind) -> usize {
    match kind {
        ElabErrorKind::DuplicateName => 0,
        ElabErrorKind::NotFoundByAbsPath => 1,
        ElabErrorKind::NotFoundByRelPath => 2,
        ElabErrorKind::DanglingTypeName => 3,
        ElabErrorKind::TypeDeclaredTwice => 4,
        ElabErrorKind::ExtensionDeclaredTwice => 5,
        ElabErrorKind::RangeEndOverflow => 6,
        ElabErrorKind::DefaultValueIsNotStringLiteral => 7,
        ElabErrorKind::StrLitDecode => 8,
        ElabErrorKind::WrongOptionType => 9,
        ElabErrorKind::BuiltinOptionNotFound => 10,
        ElabErrorKind::BuiltinOptionPointsToNonSingularField => 11,
        ElabErrorKind::InconvertibleValue => 12,
        ElabErrorKind::ExtensionNotFound => 13,
        ElabErrorKind::WrongExtensionType => 14,
        ElabErrorKind::ExtensionIsNotMessage => 15,
        ElabErrorKind::UnknownFieldName => 16,
        ElabErrorKind::UnknownEnumValue => 17,
        ElabErrorKind::UnsupportedExtensionType => 18,
        ElabErrorKind::IntegerOutOfRange => 19,
        ElabErrorKind::MessageFieldRequiresMessageConstant => 20,
        ElabErrorKind::FloatOptionValue => 21,
        ElabErrorKind::OptionFieldNumber => 22,
        ElabErrorKind::GroupStepInOptionName => 23,
        ElabErrorKind::TypeUrlInConstant => 24,
        ElabErrorKind::UninterpretedOptionName => 25,
    }
}

#[test]
fn tells_what_is_wrong_in_a_file(rt: HostRuntime) -> Result<(), Fail> {
    let alloc = rt.alloc();
    for (place, (kind, text)) in ELAB_ERRORS.iter().enumerate() {
        assert_eq!(rt; place_of_elab_error(*kind), place);
        assert_eq!(rt; format!(in alloc; "{kind}")?.as_str(), *text);
        let error = ElabError {
            place: Place { line: 3, col: 5 },
            kind: *kind,
            what: String::from_str(alloc, "a.B")?,
        };
        let want = format!(in alloc; "{text}: a.B")?;
        assert_eq!(rt; format!(in alloc; "{error}")?, want);
    }
    Ok(())
}

fn place_of_failure(failure: &ElabFailure) -> usize {
    match failure {
        ElabFailure::Memory => 0,
        ElabFailure::Fault(_) => 1,
    }
}

#[test]
fn tells_why_elaboration_gave_nothing(rt: HostRuntime) -> Result<(), Fail> {
    let alloc = rt.alloc();
    let error = ElabError {
        place: Place { line: 3, col: 5 },
        kind: ElabErrorKind::NotFoundByRelPath,
        what: String::from_str(alloc, "Item")?,
    };
    let failures = [
        (ElabFailure::Memory, "out of memory"),
        (ElabFailure::Fault(error), "E3 NotFoundByRelPath: Item"),
    ];
    for (place, (failure, text)) in failures.iter().enumerate() {
        assert_eq!(rt; place_of_failure(failure), place);
        assert_eq!(rt; format!(in alloc; "{failure}")?.as_str(), *text);
    }
    Ok(())
}

const STRING_ERRORS: [(StrLitDecodeError, &str); 3] = [
    (StrLitDecodeError::Memory, "out of memory"),
    (StrLitDecodeError::BadEscape, "bad escape"),
    (StrLitDecodeError::NotUtf8, "not UTF-8"),
];

fn place_of_string_error(error: StrLitDecodeError) -> usize {
    match error {
        StrLitDecodeError::Memory => 0,
        StrLitDecodeError::BadEscape => 1,
        StrLitDecodeError::NotUtf8 => 2,
    }
}

#[test]
fn tells_why_a_string_says_nothing(rt: HostRuntime) -> Result<(), Fail> {
    for (place, (error, text)) in STRING_ERRORS.iter().enumerate() {
        assert_eq!(rt; place_of_string_error(*error), place);
        assert_eq!(rt; format!(in rt.alloc(); "{error}")?.as_str(), *text);
    }
    Ok(())
}

const READ_FAULTS: [(ReadFault, &str); 10] = [
    (ReadFault::Memory, "out of memory"),
    (ReadFault::UnknownMessage, "B1 UnknownMessage"),
    (ReadFault::UnknownNumber, "B2 UnknownNumber"),
    (ReadFault::AmbiguousNumber, "B3 AmbiguousNumber"),
    (ReadFault::Truncated, "B4 Truncated"),
    (ReadFault::WrongWireType, "B5 WrongWireType"),
    (ReadFault::BadVarint, "B6 BadVarint"),
    (ReadFault::BadUtf8, "B7 BadUtf8"),
    (ReadFault::FloatOrGroup, "B8 FloatOrGroup"),
    (ReadFault::TooDeep, "B9 TooDeep"),
];

fn place_of_read_fault(fault: ReadFault) -> usize {
    match fault {
        ReadFault::Memory => 0,
        ReadFault::UnknownMessage => 1,
        ReadFault::UnknownNumber => 2,
        ReadFault::AmbiguousNumber => 3,
        ReadFault::Truncated => 4,
        ReadFault::WrongWireType => 5,
        ReadFault::BadVarint => 6,
        ReadFault::BadUtf8 => 7,
        ReadFault::FloatOrGroup => 8,
        ReadFault::TooDeep => 9,
    }
}

#[test]
fn tells_why_bytes_cannot_be_read(rt: HostRuntime) -> Result<(), Fail> {
    for (place, (fault, text)) in READ_FAULTS.iter().enumerate() {
        assert_eq!(rt; place_of_read_fault(*fault), place);
        assert_eq!(rt; format!(in rt.alloc(); "{fault}")?.as_str(), *text);
    }
    Ok(())
}
