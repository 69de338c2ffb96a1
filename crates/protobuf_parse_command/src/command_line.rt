//! The options, and what help says of them.

use clap::builder::ValueParser;
use clap::{Arg, ArgAction, Command};
use std::alloc::{AllocError, Global};

const WHOSE_RULES: [&str; 2] = ["all", "files"];

const FORMATS: [&str; 3] = ["text", "json", "github"];

const COLORS: [&str; 3] = ["auto", "always", "never"];

/// What stands behind the options.
const EXAMPLES: &str = "\
Examples:
  protobuf_parse_cli -I schemas schemas/shop/order.proto
  protobuf_parse_cli -I schemas --include_imports -o shop.pb shop/order.proto
  protobuf_parse_cli --descriptor_set_in=shop.pb --text shop/order.proto";

/// The command line, with all options and what they do. The one error is that memory is short.
pub fn command_line<'a>(alloc: Global) -> Result<Command<'a>, AllocError> {
    let about = "Parses .proto files, checks their types, and writes their descriptors.";
    let command = Command::new(alloc, "protobuf_parse_cli")
        .version("0.1.0")
        .about(about)
        .no_binary_name(true)
        .after_help(EXAMPLES)
        .arg(include_argument(alloc))?
        .arg(sets_argument(alloc))?
        .arg(set_argument(alloc))?;
    with_flags(alloc, command)?.arg(file_argument(alloc))
}

fn include_argument<'a>(alloc: Global) -> Arg<'a> {
    Arg::new(alloc, "include")
        .short('I')
        .long("proto_path")
        .value_name("DIR")
        .action(ArgAction::Append)
        .help(
            "Looks for files in this folder; of several, in order. Without one, in the current one. \
             PATH=FILE has the file or folder at this proto path",
        )
}

fn sets_argument<'a>(alloc: Global) -> Arg<'a> {
    Arg::new(alloc, "sets")
        .long("descriptor_set_in")
        .value_name("FILES")
        .action(ArgAction::Append)
        .help(
            "Looks for files in these FileDescriptorSets too, with `:` between them, behind includes",
        )
}

fn set_argument<'a>(alloc: Global) -> Arg<'a> {
    Arg::new(alloc, "set")
        .short('o')
        .long("descriptor_set_out")
        .value_name("FILE")
        .action(ArgAction::Set)
        .help("Writes a FileDescriptorSet of the files; `-` is standard output")
}

fn file_argument<'a>(alloc: Global) -> Arg<'a> {
    Arg::new(alloc, "file")
        .value_name("FILE")
        .action(ArgAction::Append)
        .num_args(1..)
        .required(true)
        .help(
            "A file below an include, or a path that an include has; `-` is standard input. `@FILE` \
             has arguments, one a line",
        )
}

fn with_flags<'a>(alloc: Global, command: Command<'a>) -> Result<Command<'a>, AllocError> {
    let rules = Arg::new(alloc, "rules")
        .long("rules")
        .value_name("WHAT")
        .action(ArgAction::Append)
        .help(
            "How violations of rules are told: `error`, `warn` or `off`; `C48=off`: one of them not",
        );
    let fatal = "Ends with status 1 and writes nothing where a warning is told, too";
    command
        .arg(flag(
            alloc,
            "include_imports",
            "Has all that the files reach in the set, imports first",
        ))?
        .arg(flag(
            alloc,
            "include_source_info",
            "Has places and comments of each file in the set",
        ))?
        .arg(flag(alloc, "list", "Lists the descriptors as text"))?
        .arg(text_flag(alloc)?)?
        .arg(imports_flag(alloc)?)?
        .arg(rules)?
        .arg(rules_of_argument(alloc))?
        .arg(flag(alloc, "fatal_warnings", fatal))?
        .arg(dependency_argument(alloc))?
        .arg(direct_argument(alloc))?
        .arg(message_argument(alloc))?
        .arg(format_argument(alloc))?
        .arg(color_argument(alloc))?
        .arg(stdin_argument(alloc))
}

fn dependency_argument<'a>(alloc: Global) -> Arg<'a> {
    Arg::new(alloc, "dependency_out")
        .long("dependency_out")
        .value_name("FILE")
        .action(ArgAction::Set)
        .help("Writes which files the set is made of, as a rule of make")
}

fn direct_argument<'a>(alloc: Global) -> Arg<'a> {
    Arg::new(alloc, "direct_dependencies")
        .long("direct_dependencies")
        .value_name("PATHS")
        .action(ArgAction::Set)
        .help("The proto paths that the files may import, with `:` between them")
}

fn message_argument<'a>(alloc: Global) -> Arg<'a> {
    Arg::new(alloc, "direct_dependencies_violation_msg")
        .long("direct_dependencies_violation_msg")
        .value_name("TEXT")
        .action(ArgAction::Set)
        .help("What is told of other imports; `%s` is the import")
}

fn format_argument<'a>(alloc: Global) -> Arg<'a> {
    Arg::new(alloc, "error_format")
        .long("error_format")
        .value_name("FORMAT")
        .action(ArgAction::Set)
        .value_parser(ValueParser::Names(&FORMATS))
        .default_value("text")
        .help("How errors and warnings are written: for people, as JSON, or for GitHub's workflows")
}

fn color_argument<'a>(alloc: Global) -> Arg<'a> {
    Arg::new(alloc, "color")
        .long("color")
        .value_name("WHEN")
        .action(ArgAction::Set)
        .value_parser(ValueParser::Names(&COLORS))
        .default_value("auto")
        .help(
            "Shows errors and warnings in colours, with the lines of the texts: `auto` at a \
             terminal where NO_COLOR is not set",
        )
}

fn stdin_argument<'a>(alloc: Global) -> Arg<'a> {
    Arg::new(alloc, "stdin_path")
        .long("stdin_path")
        .value_name("PATH")
        .action(ArgAction::Set)
        .help("The proto path of standard input, which is the FILE `-`")
}

fn rules_of_argument<'a>(alloc: Global) -> Arg<'a> {
    Arg::new(alloc, "rules_of")
        .long("rules_of")
        .value_name("WHICH")
        .action(ArgAction::Set)
        .value_parser(ValueParser::Names(&WHOSE_RULES))
        .default_value("all")
        .help(
            "Of which files violations of rules are told: all that are reached, or the files alone",
        )
}

fn flag<'a>(alloc: Global, name: &'a str, help: &'a str) -> Arg<'a> {
    Arg::new(alloc, name)
        .long(name)
        .action(ArgAction::SetTrue)
        .help(help)
}

fn text_flag<'a>(alloc: Global) -> Result<Arg<'a>, AllocError> {
    let help = "Writes each descriptor as a .proto file; with --include_imports of all files";
    flag(alloc, "text", help).conflicts_with("list")
}

fn imports_flag<'a>(alloc: Global) -> Result<Arg<'a>, AllocError> {
    let help = "Tells what the files import, a line each, and reads no other file";
    flag(alloc, "imports", help)
        .conflicts_with("set")?
        .conflicts_with("include_imports")?
        .conflicts_with("include_source_info")?
        .conflicts_with("text")?
        .conflicts_with("list")
}
