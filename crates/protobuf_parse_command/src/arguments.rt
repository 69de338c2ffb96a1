//! The command line.

use crate::command_line::command_line;
use crate::format::ErrorFormat;
use clap::error::ErrorKind;
use clap::{ArgMatches, Error};
use protobuf_parse::ProtoPath;
use protobuf_parse_diagnostics::RuleLevel;
use std::alloc::{AllocError, Global};
use std::collections::BTreeSet;

/// What the command line says.
#[derive(Drop)]
pub struct Arguments {
    /// Where files are looked for, in order: folders, and with a `=` behind it the front of proto
    /// paths that lie elsewhere.
    pub includes: Vec<String>,
    /// The descriptor sets in which files are looked for behind these, in order.
    pub sets: Vec<String>,
    /// The files.
    pub files: Vec<String>,
    /// Where the descriptor set is written.
    pub set_path: Option<String>,
    pub include_imports: bool,
    /// Whether the files of the set have source info.
    pub include_source_info: bool,
    pub list: bool,
    /// Whether the texts of the files' descriptors are written.
    pub text: bool,
    pub imports: bool,
    pub rules: RuleLevel,
    /// The codes of rules that are not told.
    pub rules_off: BTreeSet<String>,
    /// Whether rules are told of the files alone, and not of what they import.
    pub rules_of_files: bool,
    /// Whether a warning is as bad as an error.
    pub fatal_warnings: bool,
    /// Where it is written which files the set is made of.
    pub dependency_path: Option<String>,
    /// The proto paths that the files may import, if that is bounded.
    pub direct_dependencies: Option<BTreeSet<String>>,
    /// What is told of an import that is none of these, with `%s` for the import.
    pub violation_message: Option<String>,
    pub error_format: ErrorFormat,
    /// The proto path of what standard input has, which is the file `-`.
    pub stdin_path: Option<String>,
}

/// The FILE that is standard input.
pub const STANDARD_INPUT: &str = "-";

/// The FILE of `-o` that is standard output.
pub const STANDARD_OUTPUT: &str = "-";

/// How many rules of descriptors and of texts there are.
const RULES: u32 = 55;

const TEXT_RULES: u32 = 19;

/// The options whose names end in `_out`.
const OUTPUTS: [&str; 2] = ["--descriptor_set_out", "--dependency_out"];

/// What these words say, without the program's own name, where what is told goes to a terminal that
/// has colours, or not. The error is what is told in their place: help and the version too.
pub fn arguments_of(
    alloc: Global,
    words: &[String],
    is_terminal: bool,
) -> Result<Arguments, Error> {
    if let Some(option) = generator_among(words) {
        let message = format!(in alloc;
            "'{option}' makes code, which protoc does of a set: 'protobuf_parse_cli \
             --include_imports -o set.pb FILE', and then 'protoc --descriptor_set_in=set.pb \
             {option}=DIR FILE'"
        )?;
        return Err(command_line(alloc)?.error(ErrorKind::UnknownArgument, &message)?);
    }
    let matches = command_line(alloc)?.try_get_matches_from(words)?;
    let asked = matches.get_strs("rules").unwrap_or(&[]);
    match rules_asked(alloc, asked)? {
        Ok(rules) => agreed(alloc, read(alloc, &matches, rules, is_terminal)?),
        Err(word) => {
            let message = format!(in alloc;
                "invalid value '{word}' for '--rules <WHAT>': it is `error`, `warn`, `off`, or the \
                 code of a rule with `=off` behind it"
            )?;
            Err(command_line(alloc)?.error(ErrorKind::InvalidValue, &message)?)
        }
    }
}

/// The arguments, if standard input has a path and standard output is asked for once.
fn agreed(alloc: Global, arguments: Arguments) -> Result<Arguments, Error> {
    match disagreement(&arguments) {
        None => Ok(arguments),
        Some(message) => Err(command_line(alloc)?.error(ErrorKind::InvalidValue, message)?),
    }
}

/// What doesn't go together.
fn disagreement(arguments: &Arguments) -> Option<&'static str> {
    let has_text = arguments.list || arguments.text;
    if has_text && is_standard_output(arguments) {
        return Some("'-o -' cannot be used with '--list' or '--text', which are written there too");
    }
    let has_file = arguments.set_path.is_some() && !is_standard_output(arguments);
    if arguments.dependency_path.is_some() && !has_file {
        return Some("'--dependency_out <FILE>' needs '-o <FILE>', which is not standard output");
    }
    let reads_input = arguments
        .files
        .iter()
        .any(|file| file.as_str() == STANDARD_INPUT);
    match &arguments.stdin_path {
        None if reads_input => Some("the FILE `-` needs '--stdin_path <PATH>'"),
        Some(path) if ProtoPath::new(path).is_err() => {
            Some("invalid value for '--stdin_path <PATH>': it is no path of a file")
        }
        _ => None,
    }
}

/// Whether the set goes to standard output.
pub fn is_standard_output(arguments: &Arguments) -> bool {
    match &arguments.set_path {
        Some(path) => path.as_str() == STANDARD_OUTPUT,
        None => false,
    }
}

/// The first of the words that asks for code, as `--python_out` does, without its value.
fn generator_among(words: &[String]) -> Option<&str> {
    for word in words {
        let option = match word.split_once('=') {
            Some((option, _)) => option,
            None => word,
        };
        let is_ours = OUTPUTS.contains(&option);
        if option.starts_with("--") && option.ends_with("_out") && !is_ours {
            return Some(option);
        }
    }
    None
}

/// How rules are told.
#[derive(Drop)]
struct RulesAsked {
    level: RuleLevel,
    off: BTreeSet<String>,
}

/// What the words behind `--rules` ask for, the last level of several; or one that asks for nothing.
fn rules_asked<'a>(
    alloc: Global,
    words: &[&'a str],
) -> Result<Result<RulesAsked, &'a str>, AllocError> {
    let mut level = RuleLevel::Error;
    let mut off = BTreeSet::new(alloc);
    for word in words {
        match *word {
            "error" => level = RuleLevel::Error,
            "warn" => level = RuleLevel::Warn,
            "off" => level = RuleLevel::Off,
            other => match other.strip_suffix("=off") {
                Some(code) if is_code(code) => {
                    off.insert(String::from_str(alloc, code)?)?;
                }
                _ => return Ok(Err(other)),
            },
        }
    }
    Ok(Ok(RulesAsked { level, off }))
}

/// Whether it is the code of a rule.
fn is_code(word: &str) -> bool {
    let (digits, most) = match (word.strip_prefix('C'), word.strip_prefix('T')) {
        (Some(digits), _) => (digits, RULES),
        (None, Some(digits)) => (digits, TEXT_RULES),
        (None, None) => return false,
    };
    if digits.starts_with('0') || digits.starts_with('+') {
        return false;
    }
    match digits.parse::<u32>() {
        Ok(number) => 1 <= number && number <= most,
        Err(_) => false,
    }
}

fn read(
    alloc: Global,
    matches: &ArgMatches<'_>,
    rules: RulesAsked,
    is_terminal: bool,
) -> Result<Arguments, AllocError> {
    let RulesAsked { level, off } = rules;
    let mut includes = paths_listed(alloc, matches.get_strs("include").unwrap_or(&[]))?;
    let sets = paths_listed(alloc, matches.get_strs("sets").unwrap_or(&[]))?;
    if includes.is_empty() && sets.is_empty() {
        includes.push(String::new(alloc))?;
    }
    Ok(Arguments {
        includes,
        sets,
        files: copies(alloc, matches.get_strs("file").unwrap_or(&[]))?,
        set_path: copy(alloc, matches.get_str("set"))?,
        include_imports: matches.get_flag("include_imports"),
        include_source_info: matches.get_flag("include_source_info"),
        list: matches.get_flag("list"),
        text: matches.get_flag("text"),
        imports: matches.get_flag("imports"),
        rules: level,
        rules_off: off,
        rules_of_files: matches.get_str("rules_of") == Some("files"),
        fatal_warnings: matches.get_flag("fatal_warnings"),
        dependency_path: copy(alloc, matches.get_str("dependency_out"))?,
        direct_dependencies: paths_allowed(alloc, matches.get_str("direct_dependencies"))?,
        violation_message: copy(alloc, matches.get_str("direct_dependencies_violation_msg"))?,
        error_format: format_of(matches, is_terminal),
        stdin_path: copy(alloc, matches.get_str("stdin_path"))?,
    })
}

fn copy(alloc: Global, text: Option<&str>) -> Result<Option<String>, AllocError> {
    match text {
        Some(text) => Ok(Some(String::from_str(alloc, text)?)),
        None => Ok(None),
    }
}

/// The paths in the text, which have `:` between them.
fn paths_allowed(
    alloc: Global,
    text: Option<&str>,
) -> Result<Option<BTreeSet<String>>, AllocError> {
    let Some(text) = text else {
        return Ok(None);
    };
    let mut paths = BTreeSet::new(alloc);
    for path in text.split(':') {
        paths.insert(String::from_str(alloc, path)?)?;
    }
    Ok(Some(paths))
}

fn format_of(matches: &ArgMatches<'_>, is_terminal: bool) -> ErrorFormat {
    let is_shown = match matches.get_str("color") {
        Some("always") => true,
        Some("never") => false,
        _ => is_terminal,
    };
    match matches.get_str("error_format") {
        Some("json") => ErrorFormat::Json,
        Some("github") => ErrorFormat::Github,
        _ if is_shown => ErrorFormat::Shown,
        _ => ErrorFormat::Text,
    }
}

fn copies(alloc: Global, texts: &[&str]) -> Result<Vec<String>, AllocError> {
    let mut copies = Vec::new(alloc);
    for text in texts {
        copies.push(String::from_str(alloc, text)?)?;
    }
    Ok(copies)
}

/// The paths in these texts, which have `:` between them. An empty text is one, too.
fn paths_listed(alloc: Global, texts: &[&str]) -> Result<Vec<String>, AllocError> {
    let mut paths = Vec::new(alloc);
    for text in texts {
        for path in text.split(':') {
            if !path.is_empty() || text.is_empty() {
                paths.push(String::from_str(alloc, path)?)?;
            }
        }
    }
    Ok(paths)
}
