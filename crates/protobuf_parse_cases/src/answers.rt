//! What is run, by its word.

mod again;
mod bytes;
mod calls;
mod checked;
mod checks;
mod customs;
mod decoded;
mod google;
mod imports;
mod names;
pub mod parsers;
mod runs;
mod sets;
mod texts;
mod told;

use crate::cases::{Case, Row};
use crate::notation::text_of;
use crate::report::{Answers, report_of};
use anyhow::{Result, bail};
use protobuf_parse_syntax::unquoted;
use std::alloc::{AllocError, Global};

/// Answers all but files of cases.
#[derive(Clone, Copy)]
pub struct Plain;

impl Answers for Plain {
    fn answer(&self, alloc: Global, case: &Case, row: &Row) -> Result<Vec<u8>> {
        let given = given_of(case, row);
        if case.verb.as_str() == "string" {
            return Ok(texts::string(alloc, text_of(given)?)?);
        }
        let text = match case.verb.as_str() {
            "run" => runs::run(alloc, case, given),
            "check" => checks::check(alloc, case, given),
            "reads" => runs::reads(alloc, case, given),
            "list" => runs::list(alloc, case, row),
            "shipped" => runs::shipped(alloc, case, given),
            "violations" => runs::violated(alloc, case, row),
            "told" => told::told(alloc, case, row),
            "answers" => runs::answers(alloc, case, given),
            "customs" => customs::customs(alloc, case, row),
            "set" => sets::set(alloc, case, row),
            "set_read" => sets::set_read(alloc, case, row),
            "read" => bytes::read(alloc, case, given),
            "decode" => decoded::decoded(alloc, case, given),
            "write" => bytes::write(alloc, case, given),
            "escape" => names::escape(alloc, given),
            _ => text_answer(alloc, case, given),
        };
        Ok(text?.into_bytes())
    }
}

/// What a run is given: what stands in its row, or behind the verb, or else the first file.
fn given_of<'a>(case: &'a Case, row: &'a Row) -> &'a [u8] {
    match (&row.given, case.files.first()) {
        (Some(given), _) => given.as_slice(),
        (None, Some(file)) if case.argument.is_empty() => file.content.as_slice(),
        (None, _) => case.argument.as_bytes(),
    }
}

/// The answer of what looks at one text.
fn text_answer(alloc: Global, case: &Case, given: &[u8]) -> Result<String> {
    let text = text_of(given)?;
    match case.verb.as_str() {
        "constant" => return texts::constant(alloc, text),
        "again" => return again::again(alloc, text),
        "imports" => return imports::imports(alloc, text),
        "checked" => return checked::checked(alloc, text),
        "call" => return calls::called(alloc, text),
        _ => {}
    }
    match answer_by_memory(alloc, &case.verb, text) {
        Some(answer) => Ok(answer?),
        None => bail!("nothing is called {:?}", case.verb),
    }
}

/// The answer of what fails by want of memory alone.
fn answer_by_memory(alloc: Global, verb: &str, text: &str) -> Option<Result<String, AllocError>> {
    Some(match verb {
        "tokens" => texts::tokens(alloc, text),
        "unquoted" => String::from_str(alloc, unquoted(text)),
        "parse" => texts::parse(alloc, text),
        "fronts" => texts::fronts(alloc, text),
        "trees" => texts::trees(alloc, text),
        "package" => texts::package(alloc, text),
        "identifier" => names::identifier(alloc, text),
        "relative" => names::relative(alloc, text),
        "absolute" => names::absolute(alloc, text),
        "path" => names::path(alloc, text),
        "host_path" => names::host_path(alloc, text),
        "camel_case" => protobuf_parse::camel_case(alloc, text),
        "snake_case" => protobuf_parse::snake_case(alloc, text),
        "json_name" => names::json_name(alloc, text),
        _ => return None,
    })
}

/// Answers files of cases too, by what is printed for them and the status that the program ends
/// with.
#[derive(Clone, Copy)]
pub struct Nested;

impl Answers for Nested {
    fn answer(&self, alloc: Global, case: &Case, row: &Row) -> Result<Vec<u8>> {
        if case.verb.as_str() != "cases" {
            return Plain.answer(alloc, case, row);
        }
        let report = report_of(alloc, "inner.cases", given_of(case, row), &Plain)?;
        let status = if report.is_well { 0 } else { 1 };
        let text = report.text;
        Ok(format!(in alloc; "{text}status {status}")?.into_bytes())
    }
}
