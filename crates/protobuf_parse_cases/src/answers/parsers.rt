//! Parsers over the real folders that stand beside the files of cases.

use super::checks::put_check;
use super::google::beside_stored;
use super::texts::without_last_feed;
use super::{Nested, given_of};
use crate::cases::{Case, Row};
use crate::notation::text_of;
use crate::report::Answers;
use anyhow::Result;
use protobuf_parse::{FileDescriptorProto, Parser, RunFault, listing};
use protobuf_parse_command::command;
use std::alloc::{AllocError, Global};
use std::rt::Files;

/// Answers what reads real files too.
#[derive(Clone, Copy)]
pub struct OnFiles<'r, R> {
    pub rt: &'r R,
}

impl<'r, R: Files + AllocGlobal> Answers for OnFiles<'r, R> {
    fn answer(&self, alloc: Global, case: &Case, row: &Row) -> Result<Vec<u8>> {
        let outcome = match case.verb.as_str() {
            "parser" => named(self.rt, text_of(given_of(case, row))?),
            "parsed" => listed(self.rt, text_of(given_of(case, row))?),
            "parser_check" => reported(self.rt, text_of(given_of(case, row))?),
            "command" => return Ok(commanded(self.rt, text_of(given_of(case, row))?)?),
            "google_set" => {
                return Ok(beside_stored(self.rt, text_of(given_of(case, row))?)?.into_bytes());
            }
            _ => return Nested.answer(alloc, case, row),
        };
        Ok(match outcome {
            Ok(text) => text.into_bytes(),
            Err(fault) => format!(in alloc; "{fault}")?.into_bytes(),
        })
    }
}

/// The inputs between blanks, and behind each ` | ` an include.
fn parser_of(alloc: Global, given: &str) -> Result<Parser, AllocError> {
    let (inputs, rest) = given.split_once(" | ").unwrap_or((given, ""));
    let inputs = inputs.split_whitespace().collect::<Vec<_>>(alloc)?;
    let includes = rest.split(" | ").collect::<Vec<_>>(alloc)?;
    let mut parser = Parser::new(alloc);
    parser.pure().includes(&includes)?.inputs(&inputs)?;
    Ok(parser)
}

/// The proto paths of the inputs, the files of all descriptors, and those of the inputs' own ones.
fn named<R: Files + AllocGlobal>(rt: &R, given: &str) -> Result<String, RunFault> {
    let parser = parser_of(rt.alloc(), given)?;
    let parsed = parser.parse_and_typecheck(rt)?;
    let mut text = String::new(rt.alloc());
    for path in &parsed.relative_paths {
        write!(&mut text, "{path} ")?;
    }
    put_names(&mut text, &parsed.file_descriptors)?;
    text.push(' ')?;
    put_names(&mut text, &parser.file_descriptor_set(rt)?.file)?;
    Ok(text)
}

fn put_names(text: &mut String, files: &[FileDescriptorProto]) -> Result<(), AllocError> {
    text.push('|')?;
    for file in files {
        text.push(' ')?;
        text.push_str(file.name.as_deref().unwrap_or("?"))?;
    }
    Ok(())
}

/// Who parsed, the proto paths of the inputs, the listing of all descriptors, and that of the
/// inputs' own ones.
fn listed<R: Files + AllocGlobal>(rt: &R, given: &str) -> Result<String, RunFault> {
    let alloc = rt.alloc();
    let parser = parser_of(alloc, given)?;
    let parsed = parser.parse_and_typecheck(rt)?;
    let mut text = String::new(alloc);
    write!(&mut text, "by {}:", parsed.parser)?;
    for path in &parsed.relative_paths {
        write!(&mut text, " {path}")?;
    }
    text.push('\n')?;
    text.push_str(&listing(alloc, &parsed.file_descriptors)?)?;
    text.push_str("of the inputs:\n")?;
    text.push_str(&listing(alloc, &parser.file_descriptor_set(rt)?.file)?)?;
    Ok(without_last_feed(alloc, &text)?)
}

/// What the parser's check tells.
fn reported<R: Files + AllocGlobal>(rt: &R, given: &str) -> Result<String, RunFault> {
    let check = parser_of(rt.alloc(), given)?.check(rt)?;
    let mut text = String::new(rt.alloc());
    put_check(&mut text, &check)?;
    Ok(text)
}

/// What the command with these arguments writes: its status, then what stands on standard output,
/// and then what stands on standard error.
fn commanded<R: Files + AllocGlobal>(rt: &R, given: &str) -> Result<Vec<u8>, AllocError> {
    let alloc = rt.alloc();
    let mut args = Vec::new(alloc);
    for word in given.split_whitespace() {
        args.push(String::from_str(alloc, word)?)?;
    }
    let mut out = Vec::new(alloc);
    let mut err = Vec::new(alloc);
    let status = command(rt, &args, &mut out, &mut err);
    let mut text = format!(in alloc; "{status}\n")?.into_bytes();
    text.append(&mut out)?;
    text.append(&mut err)?;
    if text.ends_with(b"\n") {
        text.pop();
    }
    Ok(text)
}
