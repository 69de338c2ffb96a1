//! The command.

ghost use Rattle.std.specs.Prelude.{◌≡◌, ◌≤◌, IfOk, true};

use crate::argument_files::expanded;
use crate::arguments::{Arguments, arguments_of, is_standard_output};
use crate::includes::includes_of;
use crate::made::{Made, make};
use crate::words::{NoWords, words_of};
use clap::error::ErrorKind as WordsFault;
use protobuf_parse_files::write_file;
use std::alloc::{AllocError, Global};
use std::env::FillError;
use std::io::{self, ErrorKind, Write};
use std::rt::{Env, Files};

/// What is told where memory is short, which takes none.
const OUT_OF_MEMORY: &str = "protobuf_parse_cli: out of memory\n";

/// Why the command ends with status 1 and no diagnostics.
#[derive(Drop)]
enum Failure<'a> {
    Memory,
    /// Standard output takes no more.
    Output(io::Error),
    /// The file of the descriptor set can't be written.
    File(&'a str, io::Error),
}

impl<'a> From<AllocError> for Failure<'a> {
    fn from(_error: AllocError) -> Failure<'a> {
        Failure::Memory
    }
}

/// The program `protobuf_parse_cli`: [`command`] with the words that the process was given. One
/// that is not UTF-8 is told, and the status is 2. Where `err` is a terminal, and the environment
/// doesn't set NO_COLOR, what is wrong is shown in colours.
pub fn run_program<R: Env + Files + AllocGlobal, O: Write, E: Write>(
    rt: &R,
    is_terminal: bool,
    out: &mut O,
    err: &mut E,
) -> u8
    ensures status { result ≤ 2 }
{
    match words_of(rt) {
        Ok(words) => command_shown(rt, &words, is_terminal && !has_no_color(rt), out, err),
        Err(NoWords::Memory) => tell_failure(err, &Failure::Memory),
        Err(NoWords::NotUtf8(word)) => {
            // Nothing is left to tell where even this line can't be written.
            let _ = writeln!(err, "protobuf_parse_cli: error: {word:?} is not UTF-8");
            2
        }
    }
}

/// Whether the environment sets NO_COLOR to more than nothing.
fn has_no_color<R: Env>(rt: &R) -> bool {
    match rt.var("NO_COLOR", &mut [0]) {
        Ok(used) => used > 0,
        Err(FillError::TooLong) => true,
        Err(FillError::NotPresent) => false,
    }
}

/// The command `protobuf_parse_cli` with these arguments, without its own name: writes what is
/// asked for to `out`, and what is wrong to `err`, which is no terminal, and answers the status.
///
/// The status is 0 where all went well, 1 where an error was told, and 2 where the arguments are
/// wrong. Each error and each warning is one line. All output is made before any is written; where
/// an error is told, no output is. Where memory is short, one line says so, and nothing else is
/// written.
pub fn command<R: Files + AllocGlobal, O: Write, E: Write>(
    rt: &R,
    args: &[String],
    out: &mut O,
    err: &mut E,
) -> u8
    ensures status { result ≤ 2 }
{
    command_shown(rt, args, false, out, err)
}

/// The same, where `err` may be a terminal that has colours.
fn command_shown<R: Files + AllocGlobal, O: Write, E: Write>(
    rt: &R,
    args: &[String],
    is_terminal: bool,
    out: &mut O,
    err: &mut E,
) -> u8
    ensures status { result ≤ 2 }
{
    match expanded(rt, rt.alloc(), args) {
        Ok(Ok(words)) => command_of(rt, &words, is_terminal, out, err),
        Ok(Err(why)) => {
            // Nothing is left to tell where even this line can't be written.
            let _ = writeln!(err, "protobuf_parse_cli: error: {why}");
            2
        }
        Err(_) => tell_failure(err, &Failure::Memory),
    }
}

/// The same, with the words of files in their places.
fn command_of<R: Files + AllocGlobal, O: Write, E: Write>(
    rt: &R,
    words: &[String],
    is_terminal: bool,
    out: &mut O,
    err: &mut E,
) -> u8
    ensures status { result ≤ 2 }
{
    let alloc = rt.alloc();
    match arguments_of(alloc, words, is_terminal) {
        Ok(arguments) => match perform_located(rt, alloc, arguments, out, err) {
            Ok(status) => status,
            Err(_) => tell_failure(err, &Failure::Memory),
        },
        Err(error) => match answer_words(alloc, &error, out, err) {
            Ok(status) => status,
            Err(failure) => tell_failure(err, &failure),
        },
    }
}

/// Tells a failure, and answers the status.
fn tell_failure<E: Write>(err: &mut E, failure: &Failure<'_>) -> u8
    ensures status { result ≡ 1 }
{
    // Nothing is left to tell where even this line can't be written.
    let _ = match failure {
        Failure::Memory => err.write_all(OUT_OF_MEMORY.as_bytes()),
        Failure::Output(error) => {
            writeln!(
                err,
                "protobuf_parse_cli: error: could not write the output: {error}"
            )
        }
        Failure::File(path, error) => {
            writeln!(
                err,
                "protobuf_parse_cli: error: could not write `{path}`: {error}"
            )
        }
    };
    1
}

/// Tells what is wrong with the arguments, or the help or the version that they ask for.
fn answer_words<'a, O: Write, E: Write>(
    alloc: Global,
    error: &clap::Error,
    out: &mut O,
    err: &mut E,
) -> Result<u8, Failure<'a>>
    ensures status { IfOk result (λ status. status ≤ 2) }
{
    if error.kind() == WordsFault::OutOfMemory {
        return Err(Failure::Memory);
    }
    let text = format!(in alloc; "{error}")?;
    if error.use_stderr() {
        let _ = err.write_all(text.as_bytes());
        return Ok(2);
    }
    write_text(out, &text)?;
    Ok(0)
}

/// Makes what is asked for, and then writes it, once it is known what the includes are. The one error
/// is that memory is short.
fn perform_located<R: Files + AllocGlobal, O: Write, E: Write>(
    rt: &R,
    alloc: Global,
    arguments: Arguments,
    out: &mut O,
    err: &mut E,
) -> Result<u8, AllocError>
    ensures status { IfOk result (λ status. status ≤ 1) }
{
    let mut located = arguments;
    located.includes = includes_of(rt, alloc, &located.includes)?;
    match perform(rt, alloc, &located, out, err) {
        Ok(status) => Ok(status),
        Err(failure) => Ok(tell_failure(err, &failure)),
    }
}

/// Makes what is asked for, and then writes it.
fn perform<'a, R: Files + AllocGlobal, O: Write, E: Write>(
    rt: &R,
    alloc: Global,
    arguments: &'a Arguments,
    out: &mut O,
    err: &mut E,
) -> Result<u8, Failure<'a>>
    ensures status { IfOk result (λ status. status ≤ 1) }
{
    let made = make(rt, alloc, arguments)?;
    write_made(rt, arguments, &made, out, err)
}

/// Writes what was made, and answers the status: 1 where an error is told, and where not even
/// warnings could be.
fn write_made<'a, R: Files + AllocGlobal, O: Write, E: Write>(
    rt: &R,
    arguments: &'a Arguments,
    made: &Made,
    out: &mut O,
    err: &mut E,
) -> Result<u8, Failure<'a>>
    ensures error { made.now.has_error ≡ true → IfOk result (λ status. status ≡ 1) }
    ensures status { IfOk result (λ status. status ≤ 1) }
{
    let is_set_written = write_files(rt, arguments, made, out, err);
    if let Err(Failure::Memory) = is_set_written {
        return Err(Failure::Memory);
    }
    let is_told = write_all(err, made.told.as_bytes());
    is_set_written?;
    if made.has_error {
        return Ok(1);
    }
    write_text(out, &made.text)?;
    Ok(status_of(&is_told))
}

/// Writes the descriptor set, and which files it is made of, each where that is asked for. That
/// comes before all else that is written, since it may take memory before it writes.
fn write_files<'a, R: Files + AllocGlobal, O: Write, E: Write>(
    rt: &R,
    arguments: &'a Arguments,
    made: &Made,
    out: &mut O,
    err: &mut E,
) -> Result<(), Failure<'a>> {
    write_set(rt, arguments, made, out, err)?;
    match (&arguments.dependency_path, &made.dependencies) {
        (Some(path), Some(text)) => write_to(rt, path, text.as_bytes(), out, err),
        _ => Ok(()),
    }
}

fn write_set<'a, R: Files + AllocGlobal, O: Write, E: Write>(
    rt: &R,
    arguments: &'a Arguments,
    made: &Made,
    out: &mut O,
    err: &mut E,
) -> Result<(), Failure<'a>> {
    let (Some(path), Some(set)) = (&arguments.set_path, &made.set) else {
        return Ok(());
    };
    if is_standard_output(arguments) {
        return write_bytes(out, set);
    }
    write_to(rt, path, set, out, err)
}

/// Writes a file.
fn write_to<'a, R: Files + AllocGlobal, O: Write, E: Write>(
    rt: &R,
    path: &'a str,
    bytes: &[u8],
    out: &mut O,
    err: &mut E,
) -> Result<(), Failure<'a>> {
    match write_file(rt, path, bytes, out, err) {
        Ok(()) => Ok(()),
        Err(error) if error.kind() == ErrorKind::OutOfMemory => Err(Failure::Memory),
        Err(error) => Err(Failure::File(path, error)),
    }
}

/// The status where no error was told: 1 where not even warnings could be.
fn status_of(is_told: &io::Result<()>) -> u8
    ensures status { result ≤ 1 }
{
    match is_told {
        Ok(()) => 0,
        Err(_) => 1,
    }
}

/// Writes the text, all of it or an error.
fn write_text<'a, O: Write>(out: &mut O, text: &str) -> Result<(), Failure<'a>> {
    write_bytes(out, text.as_bytes())
}

/// Writes the bytes, all of them or an error.
fn write_bytes<'a, O: Write>(out: &mut O, bytes: &[u8]) -> Result<(), Failure<'a>> {
    match write_all(out, bytes) {
        Ok(()) => Ok(()),
        Err(error) if error.kind() == ErrorKind::OutOfMemory => Err(Failure::Memory),
        Err(error) => Err(Failure::Output(error)),
    }
}

fn write_all<W: Write>(writer: &mut W, bytes: &[u8]) -> io::Result<()> {
    if bytes.is_empty() {
        return Ok(());
    }
    writer.write_all(bytes)?;
    writer.flush()
}
