//! Calls that change an object, and are made again where memory was short: the object must be as it
//! was.

use anyhow::{Context, Result, bail};
use protobuf_parse::{Parser, ProtobufAbsPath, ProtobufIdentRef, ProtobufRelPathRef};
use std::alloc::{AllocError, Global};

/// What a call makes of an object: the words are the call, and what it is given.
pub fn again(alloc: Global, text: &str) -> Result<String> {
    let words = text.split_whitespace().collect::<Vec<_>>(alloc)?;
    match words.as_slice() {
        ["push_simple", path, ident] => push_simple(alloc, path, ident),
        ["push_relative", path, relative] => push_relative(alloc, path, relative),
        ["pop", path] => pop(alloc, path),
        [call, given @ ..] => built(alloc, call, given),
        [] => bail!("no call"),
    }
}

fn path_of(alloc: Global, text: &str) -> Result<ProtobufAbsPath> {
    ProtobufAbsPath::try_new(alloc, text)?.context("no absolute path")
}

/// What is wrong where a call that was refused is refused again, or has changed its object.
fn check_same(is_same: bool, second: Result<(), AllocError>) -> Result<()> {
    if !is_same {
        bail!("a refused call has changed its object");
    }
    if second.is_err() {
        bail!("refused again");
    }
    Ok(())
}

fn push_simple(alloc: Global, text: &str, ident: &str) -> Result<String> {
    if !ProtobufIdentRef::is_ident(ident) {
        bail!("no identifier");
    }
    let mut path = path_of(alloc, text)?;
    if path.push_simple(ProtobufIdentRef::new(ident)).is_err() {
        let is_same = path == path_of(alloc, text)?;
        check_same(is_same, path.push_simple(ProtobufIdentRef::new(ident)))?;
    }
    Ok(format!(in alloc; "{path}")?)
}

fn push_relative(alloc: Global, text: &str, relative: &str) -> Result<String> {
    if !ProtobufRelPathRef::is_rel(relative) {
        bail!("no relative path");
    }
    let mut path = path_of(alloc, text)?;
    if path
        .push_relative(ProtobufRelPathRef::new(relative))
        .is_err()
    {
        let is_same = path == path_of(alloc, text)?;
        check_same(
            is_same,
            path.push_relative(ProtobufRelPathRef::new(relative)),
        )?;
    }
    Ok(format!(in alloc; "{path}")?)
}

/// The identifier that is taken off, and the path that is left.
fn pop(alloc: Global, text: &str) -> Result<String> {
    let mut path = path_of(alloc, text)?;
    let last = match path.pop(alloc) {
        Ok(last) => last,
        Err(_) => {
            if path != path_of(alloc, text)? {
                bail!("a refused call has changed its object");
            }
            path.pop(alloc).context("refused again")?
        }
    };
    let Some(last) = last else {
        return Ok(format!(in alloc; "none from {path}")?);
    };
    Ok(format!(in alloc; "{last} from {path}")?)
}

/// What a call of a builder that has an include and an input makes of it.
fn built(alloc: Global, call: &str, given: &[&str]) -> Result<String> {
    let mut parser = begun(alloc)?;
    if let Err(error) = build(&mut parser, call, given)? {
        let is_same = parser == begun(alloc)?;
        check_same(is_same, build(&mut parser, call, given)?)?;
        drop(error);
    }
    Ok(format!(in alloc; "{parser:?}")?)
}

fn begun(alloc: Global) -> Result<Parser, AllocError> {
    let mut parser = Parser::new(alloc);
    parser.push_include("an_include")?;
    parser.push_input("an_input")?;
    Ok(parser)
}

fn build(parser: &mut Parser, call: &str, given: &[&str]) -> Result<Result<(), AllocError>> {
    Ok(match (call, given) {
        ("push_include", [include]) => parser.push_include(include),
        ("push_includes", includes) => parser.push_includes(includes),
        ("push_input", [input]) => parser.push_input(input),
        ("push_inputs", inputs) => parser.push_inputs(inputs),
        ("include", [include]) => parser.include(include).map(|_| ()),
        ("includes", includes) => parser.includes(includes).map(|_| ()),
        ("input", [input]) => parser.input(input).map(|_| ()),
        ("inputs", inputs) => parser.inputs(inputs).map(|_| ()),
        _ => bail!("no such call"),
    })
}
