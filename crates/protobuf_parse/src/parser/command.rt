//! The program `parse-and-typecheck`, over any two writers.

use crate::parser::builder::Parser;
use protobuf_parse_listing::listing;
use protobuf_parse_run::RunFault;
use std::io::{self, Write};
use std::mem;
use std::rt::Files;
use thiserror::Error;

/// Why the program ends with status 1.
#[derive(Debug, Drop, Error)]
enum Failure {
    #[error("usage: parse-and-typecheck <input.proto> <include>")]
    Usage,
    #[error(transparent)]
    Run(RunFault),
    #[error("could not write the listing")]
    Write,
}

/// `parse-and-typecheck <input.proto> <include>`: writes the listing of the file and of all that it
/// imports to `out` and answers the status 0, or writes the line of what failed to `err` and
/// answers 1.
///
/// `args` are the two arguments, without the program's own name. They are looked at first, then a
/// [`Parser`] with this one include and this one input runs, and its whole listing is made before
/// any of it is written. The descriptors are left to the end of the process, which is expected to
/// come next: letting go of them one by one would take a tenth of the instructions.
pub fn program<R: Files + AllocGlobal, O: Write, E: Write>(
    rt: &R,
    args: &[String],
    out: &mut O,
    err: &mut E,
) -> u8 {
    match list_input(rt, args, out) {
        Ok(()) => 0,
        Err(failure) => {
            // Nothing is left to tell where even this line can't be written.
            let _ = writeln!(err, "{failure}");
            1
        }
    }
}

fn list_input<R: Files + AllocGlobal, O: Write>(
    rt: &R,
    args: &[String],
    out: &mut O,
) -> Result<(), Failure> {
    let [input, include] = args else {
        return Err(Failure::Usage);
    };
    let text = match listing_of(rt, input, include) {
        Ok(text) => text,
        Err(fault) => return Err(Failure::Run(fault)),
    };
    match write_text(out, &text) {
        Ok(()) => Ok(()),
        Err(_) => Err(Failure::Write),
    }
}

/// Writes the text, all of it or an error.
fn write_text<O: Write>(out: &mut O, text: &str) -> io::Result<()> {
    out.write_all(text.as_bytes())?;
    out.flush()
}

/// The listing of the input and of all files that it reaches.
fn listing_of<R: Files + AllocGlobal>(
    rt: &R,
    input: &str,
    include: &str,
) -> Result<String, RunFault> {
    let mut parser = Parser::new(rt.alloc());
    parser.push_include(include)?;
    parser.push_input(input)?;
    let parsed = parser.parse_and_typecheck(rt)?;
    let text = listing(rt.alloc(), &parsed.file_descriptors)?;
    mem::forget(parsed);
    Ok(text)
}
