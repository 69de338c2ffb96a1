//! Faults of meaning as sentences: E1 to E28.

ghost use Rattle.std.specs.Prelude.{◌≡◌, IfOk, OnOk, Some, flat_map, map};
ghost use Rattle.protobuf_parse_diagnostics.specs.Codes.{meaning_code_of};
ghost use Rattle.protobuf_parse_diagnostics.specs.Told.{IsOfCode, IsTold, meaning_line};
ghost use Rattle.protobuf_parse_diagnostics.specs.Telling.{Tells};
ghost use Rattle.protobuf_parse_diagnostics.specs.Told.{report_lines};

mod hints;
mod known;
mod near;

use crate::diagnostic::Diagnostic;
use crate::firsts::Firsts;
use crate::kinds::values_of_option;
use crate::loading::told_at;
use crate::meaning::hints::{Hints, declared_twice};
use crate::meaning::known::{Known, Sight, known_files};
use crate::sources::{Sources, Trees, parsed_texts};
use crate::syntax::Sentence;
use protobuf_parse_check::FileReport;
use protobuf_parse_model::{ElabError, ElabErrorKind};
use protobuf_parse_syntax::Place;
use std::alloc::{AllocError, Global};

/// Options that `protoc` has in some version, and this library in none or not for each construct.
const OPTIONS_OF_PROTOC: &[&str] = &[
    "debug_redact",
    "deprecated_legacy_json_field_conflicts",
    "edition_defaults",
    "feature_support",
    "features",
    "php_generic_services",
    "retention",
    "targets",
];

/// The code of a fault of meaning: E1 to E28.
pub fn meaning_code(fault: ElabErrorKind) -> &'static str
    ensures { result.now ≡ meaning_code_of fault }
{
    match fault {
        ElabErrorKind::DuplicateName => "E1",
        ElabErrorKind::NotFoundByAbsPath => "E2",
        ElabErrorKind::NotFoundByRelPath => "E3",
        ElabErrorKind::DanglingTypeName => "E4",
        ElabErrorKind::TypeDeclaredTwice => "E5",
        ElabErrorKind::ExtensionDeclaredTwice => "E6",
        ElabErrorKind::RangeEndOverflow => "E7",
        ElabErrorKind::DefaultValueIsNotStringLiteral => "E8",
        ElabErrorKind::StrLitDecode => "E9",
        ElabErrorKind::WrongOptionType => "E10",
        ElabErrorKind::BuiltinOptionNotFound => "E11",
        ElabErrorKind::BuiltinOptionPointsToNonSingularField => "E12",
        ElabErrorKind::InconvertibleValue => "E13",
        ElabErrorKind::ExtensionNotFound => "E14",
        ElabErrorKind::WrongExtensionType => "E15",
        ElabErrorKind::ExtensionIsNotMessage => "E16",
        ElabErrorKind::UnknownFieldName => "E17",
        ElabErrorKind::UnknownEnumValue => "E18",
        ElabErrorKind::UnsupportedExtensionType => "E19",
        ElabErrorKind::IntegerOutOfRange => "E20",
        ElabErrorKind::MessageFieldRequiresMessageConstant => "E21",
        ElabErrorKind::FloatOptionValue => "E22",
        ElabErrorKind::OptionFieldNumber => "E23",
        ElabErrorKind::GroupStepInOptionName => "E24",
        ElabErrorKind::TypeUrlInConstant => "E26",
        ElabErrorKind::UninterpretedOptionName => "E28",
    }
}

/// What is told of a fault of meaning in the file that lies there. The one error is that memory is
/// short.
pub fn meaning_diagnostic(
    alloc: Global,
    sources: &Sources<'_>,
    origin: &str,
    error: &ElabError,
) -> Result<Diagnostic, AllocError> {
    let parsed = parsed_texts(alloc, sources)?;
    let trees = Trees::of_texts(alloc, sources, &parsed)?;
    let files = known_files(alloc, &trees)?;
    let known = Known::of(alloc, &files)?;
    let at = trees.at_origin(origin);
    match subject_at(alloc, &trees, &known, at)? {
        Some(subject) => subject.diagnostic(alloc, origin, error, &mut Hints::new(alloc)),
        None => error_diagnostic(alloc, origin, error),
    }
}

/// Tells the faults in these reports of a check, in their order. The one error is that memory is
/// short.
#[tactic(auto, using(crate::proofs::Adding::report_next))]
pub fn tell_reports(
    alloc: Global,
    told: &mut Vec<Diagnostic>,
    sources: &Sources<'_>,
    reports: &[FileReport],
) -> Result<(), AllocError>
    ensures { OnOk result (Tells (flat_map (report_lines sources.now) reports.now)
        told.old.items told.new.items) }
{
    let trees = Trees::of_reports(alloc, sources, faulty_trees(reports))?;
    let files = known_files(alloc, &trees)?;
    let known = Known::of(alloc, &files)?;
    let mut hints = Hints::new(alloc);
    for report in reports {
        let subject = subject_of(alloc, &trees, &known, report)?;
        let origin = (&*sources).origin_of(&report.path);
        tell_errors(alloc, told, origin, &subject, &mut hints, &report.repeats)?;
        tell_errors(alloc, told, origin, &subject, &mut hints, &report.faults)?;
    }
    Ok(())
}

/// These reports if something is told in one of them, and else none: what files declare that are
/// told nothing of is not looked at.
fn faulty_trees(reports: &[FileReport]) -> &[FileReport] {
    if reports.iter().any(has_faults) {
        reports
    } else {
        &[]
    }
}

/// Tells these faults of the file that lies there.
fn tell_errors<'e>(
    alloc: Global,
    told: &mut Vec<Diagnostic>,
    origin: &str,
    subject: &Option<Subject<'_, '_, '_, '_>>,
    hints: &mut Hints<'e>,
    errors: &'e [ElabError],
) -> Result<(), AllocError>
    ensures { OnOk result (Tells (map (meaning_line origin.now) errors.now)
        told.old.items told.new.items) }
{
    for error in errors {
        told.push(subject_diagnostic(alloc, origin, subject, error, hints)?)?;
    }
    Ok(())
}

/// What is told of the fault, by what its file knows, if that is at hand.
fn subject_diagnostic<'e>(
    alloc: Global,
    origin: &str,
    subject: &Option<Subject<'_, '_, '_, '_>>,
    error: &'e ElabError,
    hints: &mut Hints<'e>,
) -> Result<Diagnostic, AllocError>
    ensures { IfOk result (IsTold (meaning_line origin.now error.now)) }
{
    match subject {
        Some(subject) => subject.diagnostic(alloc, origin, error, hints),
        None => error_diagnostic(alloc, origin, error),
    }
}

/// Whether something is told of what stands in the file.
fn has_faults(report: &FileReport) -> bool {
    !report.repeats.is_empty() || !report.faults.is_empty()
}

/// The file of the report, if something is told in it.
fn subject_of<'s, 'k, 't, 'a>(
    alloc: Global,
    trees: &Trees<'_, 'a>,
    known: &'s Known<'k, 't, 'a>,
    report: &FileReport,
) -> Result<Option<Subject<'s, 'k, 't, 'a>>, AllocError> {
    if has_faults(report) {
        subject_at(alloc, trees, known, trees.position(&report.path))
    } else {
        Ok(None)
    }
}

/// The file at that position, if there is one.
fn subject_at<'s, 'k, 't, 'a>(
    alloc: Global,
    trees: &Trees<'_, 'a>,
    known: &'s Known<'k, 't, 'a>,
    at: Option<usize>,
) -> Result<Option<Subject<'s, 'k, 't, 'a>>, AllocError> {
    match at {
        Some(at) => Subject::of(alloc, trees, known, at),
        None => Ok(None),
    }
}

/// What is told of the fault by itself.
fn error_diagnostic(
    alloc: Global,
    origin: &str,
    error: &ElabError,
) -> Result<Diagnostic, AllocError>
    ensures { IfOk result (IsTold (meaning_line origin.now error.now)) }
{
    let sentence = error_sentence(alloc, error)?;
    told_at(
        alloc,
        meaning_code(error.kind),
        origin,
        Some(error.place),
        sentence,
    )
}

/// A file whose faults are told.
#[derive(Drop)]
struct Subject<'s, 'k, 't, 'a> {
    sight: Sight<'s, 'k, 't, 'a>,
    firsts: Firsts<'k, 't>,
}

impl<'s, 'k, 't, 'a> Subject<'s, 'k, 't, 'a> {
    /// The file at this position, if there is one.
    fn of(
        alloc: Global,
        trees: &Trees<'_, 'a>,
        known: &'s Known<'k, 't, 'a>,
        at: usize,
    ) -> Result<Option<Self>, AllocError> {
        let sight = Sight::of(alloc, trees, known, at)?;
        let Some(own) = sight.own() else {
            return Ok(None);
        };
        Ok(Some(Subject {
            sight,
            firsts: Firsts::of(alloc, own)?,
        }))
    }

    /// What is told of a fault of the file, which lies there.
    fn diagnostic<'e>(
        &self,
        alloc: Global,
        origin: &str,
        error: &'e ElabError,
        hints: &mut Hints<'e>,
    ) -> Result<Diagnostic, AllocError>
        ensures { IfOk result (IsTold (meaning_line origin.now error.now)) }
    {
        let found = match error.kind {
            ElabErrorKind::DuplicateName => first_one(alloc, &self.firsts, error)?,
            ElabErrorKind::TypeDeclaredTwice | ElabErrorKind::ExtensionDeclaredTwice => {
                declared_twice(alloc, &self.sight, error)?
            }
            _ => hints.hint(alloc, &self.sight, error)?,
        };
        let Sentence { message, help } = error_sentence(alloc, error)?;
        let sentence = Sentence {
            message,
            help: found.or(help),
        };
        told_at(
            alloc,
            meaning_code(error.kind),
            origin,
            Some(error.place),
            sentence,
        )
    }
}

/// Where a name that stands twice stands first.
fn first_one(
    alloc: Global,
    firsts: &Firsts<'_, '_>,
    error: &ElabError,
) -> Result<Option<String>, AllocError> {
    match firsts.of_name_at(&error.what, error.place) {
        Some(first) => {
            let Place { line, col } = first.place;
            let full = first.full.trim_start_matches('.');
            Ok(Some(format!(in alloc; "`{full}` stands at {line}:{col}")?))
        }
        None => Ok(None),
    }
}

/// What is said of the fault by itself.
fn error_sentence(alloc: Global, error: &ElabError) -> Result<Sentence, AllocError> {
    match error.kind {
        ElabErrorKind::DuplicateName
        | ElabErrorKind::NotFoundByAbsPath
        | ElabErrorKind::NotFoundByRelPath
        | ElabErrorKind::DanglingTypeName
        | ElabErrorKind::TypeDeclaredTwice
        | ElabErrorKind::ExtensionDeclaredTwice
        | ElabErrorKind::RangeEndOverflow
        | ElabErrorKind::DefaultValueIsNotStringLiteral => declaration_sentence(alloc, error),
        ElabErrorKind::StrLitDecode
        | ElabErrorKind::WrongOptionType
        | ElabErrorKind::BuiltinOptionNotFound
        | ElabErrorKind::BuiltinOptionPointsToNonSingularField
        | ElabErrorKind::InconvertibleValue
        | ElabErrorKind::UninterpretedOptionName => builtin_sentence(alloc, error),
        _ => custom_sentence(alloc, error),
    }
}

/// Of what is declared, and of the names of types.
fn declaration_sentence(alloc: Global, error: &ElabError) -> Result<Sentence, AllocError> {
    let what = error.what.as_str();
    let message = match error.kind {
        ElabErrorKind::DuplicateName => format!(in alloc; "\"{what}\" is declared already")?,
        ElabErrorKind::DanglingTypeName => {
            return group_or_map(alloc, what);
        }
        ElabErrorKind::TypeDeclaredTwice => {
            let what = what.trim_start_matches('.');
            format!(in alloc; "the type \"{what}\" is declared twice")?
        }
        ElabErrorKind::ExtensionDeclaredTwice => {
            let what = what.trim_start_matches('.');
            format!(in alloc; "the extension \"{what}\" is declared twice")?
        }
        ElabErrorKind::RangeEndOverflow => format!(in alloc;
            "a range of \"{what}\" ends at 2147483647, and no number is behind that"
        )?,
        ElabErrorKind::DefaultValueIsNotStringLiteral => {
            format!(in alloc; "the default of \"{what}\" must be a string")?
        }
        _ => format!(in alloc; "\"{what}\" is not defined")?,
    };
    Ok(Sentence::new(message))
}

fn group_or_map(alloc: Global, what: &str) -> Result<Sentence, AllocError> {
    let message = format!(in alloc; "\"{what}\" cannot be a map or a group here")?;
    let help = "a group has neither, and an `extend` and a map have no maps";
    Ok(Sentence {
        message,
        help: Some(String::from_str(alloc, help)?),
    })
}

/// Of options that the language knows by name.
fn builtin_sentence(alloc: Global, error: &ElabError) -> Result<Sentence, AllocError> {
    let what = error.what.as_str();
    let message = match error.kind {
        ElabErrorKind::StrLitDecode => format!(in alloc;
            "a string for `{what}` has an escape that means nothing, or is no UTF-8"
        )?,
        ElabErrorKind::WrongOptionType => format!(in alloc; "`{what}` takes a string")?,
        ElabErrorKind::BuiltinOptionNotFound => return option_not_found(alloc, what),
        ElabErrorKind::InconvertibleValue => {
            let values = values_of_option(alloc, what)?;
            format!(in alloc; "`{what}` takes {values}")?
        }
        _ => String::from_str(alloc, "`uninterpreted_option` cannot be set")?,
    };
    Ok(Sentence::new(message))
}

/// Of an option that isn't in the table of the built-in ones.
fn option_not_found(alloc: Global, what: &str) -> Result<Sentence, AllocError> {
    let (message, help) = if OPTIONS_OF_PROTOC.contains(&what) {
        let message = format!(in alloc; "the option `{what}` of `protoc` is not known here")?;
        (message, "leave it out, or have `protoc` write the set")
    } else {
        let message = format!(in alloc; "there is no option `{what}` here")?;
        (
            message,
            "the name of an option of one's own stands in parentheses",
        )
    };
    Ok(Sentence {
        message,
        help: Some(String::from_str(alloc, help)?),
    })
}

/// Of a field that a message has not, also of an options message: `features.field_presence`.
fn field_not_found(alloc: Global, what: &str) -> Result<Sentence, AllocError> {
    let message = format!(in alloc; "the message has no field \"{what}\"")?;
    let help = if OPTIONS_OF_PROTOC.contains(&what) {
        Some(format!(in alloc; "the option `{what}` of `protoc` is not known here")?)
    } else {
        None
    };
    Ok(Sentence { message, help })
}

/// Of options that extensions declare.
fn custom_sentence(alloc: Global, error: &ElabError) -> Result<Sentence, AllocError> {
    let what = error.what.as_str();
    let message = match error.kind {
        ElabErrorKind::ExtensionNotFound => {
            format!(in alloc; "the extension \"{what}\" is not defined")?
        }
        ElabErrorKind::WrongExtensionType => format!(in alloc;
            "the extension \"{what}\" is one of another message than is set here"
        )?,
        ElabErrorKind::ExtensionIsNotMessage => format!(in alloc;
            "`{what}` is no message, so nothing in it can be set"
        )?,
        ElabErrorKind::UnknownFieldName => return field_not_found(alloc, what),
        ElabErrorKind::UnknownEnumValue => {
            format!(in alloc; "the enum has no value \"{what}\"")?
        }
        ElabErrorKind::UnsupportedExtensionType => {
            format!(in alloc; "\"{what}\" cannot have a value of this kind")?
        }
        ElabErrorKind::IntegerOutOfRange => {
            format!(in alloc; "the integer is out of range for \"{what}\"")?
        }
        ElabErrorKind::MessageFieldRequiresMessageConstant => format!(in alloc;
            "\"{what}\" is no message, so it cannot have fields in braces"
        )?,
        ElabErrorKind::FloatOptionValue => format!(in alloc;
            "\"{what}\" is a float or a double, and options of these types are not written"
        )?,
        ElabErrorKind::OptionFieldNumber => format!(in alloc;
            "the number of \"{what}\" is none of 1 to 536870911, so no option can be written by it"
        )?,
        ElabErrorKind::GroupStepInOptionName => {
            format!(in alloc; "`{what}` is a group, and an option's name cannot go into it")?
        }
        _ => format!(in alloc; "`{what}`: a type URL cannot be a field of an option")?,
    };
    Ok(Sentence::new(message))
}
