//! What one text says: tokens, strings, trees.

use anyhow::{Result, bail};
use protobuf_parse::pure::parse_dependencies;
use protobuf_parse::{FileDescriptorProto, ParserError, ParserErrorWithLocation, listing};
use protobuf_parse_syntax::{
    FileStatement, ProtobufConstant, StrLit, StrLitDecodeError, parse_file, tokenize,
};
use std::alloc::{AllocError, Global};

/// The tokens with their places, and the place of the end; or the fault.
pub fn tokens(alloc: Global, text: &str) -> Result<String, AllocError> {
    let stream = match tokenize(alloc, text) {
        Ok(stream) => stream,
        Err(error) => return format!(in alloc; "{error}"),
    };
    let mut out = String::new(alloc);
    for token in &stream.tokens {
        let line = token.place.line;
        let col = token.place.col;
        let kind = token.kind();
        let word = token.text;
        write!(&mut out, "{line}:{col} {kind:?} {word}; ")?;
    }
    let line = stream.end.line;
    let col = stream.end.col;
    write!(&mut out, "{line}:{col}")?;
    Ok(out)
}

/// What a string says whose pieces stand between ` | `, without quotes; or the fault.
pub fn string(alloc: Global, pieces: &str) -> Result<Vec<u8>, AllocError> {
    let mut literal = StrLit {
        pieces: Vec::new(alloc),
    };
    for piece in pieces.split(" | ") {
        literal.pieces.push(String::from_str(alloc, piece)?)?;
    }
    match literal.decode_utf8(alloc) {
        Ok(text) => tagged(alloc, "text ", text.as_bytes()),
        Err(StrLitDecodeError::Memory) => Err(AllocError),
        Err(_) => no_text(alloc, &literal),
    }
}

/// What a string says that is no text.
fn no_text(alloc: Global, literal: &StrLit) -> Result<Vec<u8>, AllocError> {
    match literal.decode_bytes(alloc) {
        Ok(bytes) => tagged(alloc, "bytes ", &bytes),
        Err(error) => Ok(format!(in alloc; "{error}")?.into_bytes()),
    }
}

fn tagged(alloc: Global, tag: &str, bytes: &[u8]) -> Result<Vec<u8>, AllocError> {
    let mut out = Vec::from_slice(alloc, tag.as_bytes())?;
    out.extend_from_slice(bytes)?;
    Ok(out)
}

/// `ok`, or the fault. Who asks for the imports alone must be told the same.
pub fn parse(alloc: Global, text: &str) -> Result<String, AllocError> {
    let fault = fault_of(parse_file(alloc, text))?;
    let fault_of_imports = fault_of(parse_dependencies(alloc, text))?;
    if fault != fault_of_imports {
        return format!(in alloc; "{fault:?} of the file, {fault_of_imports:?} of its imports");
    }
    match fault {
        None => String::from_str(alloc, "ok"),
        Some(fault) => format!(in alloc; "{fault}"),
    }
}

/// What is wrong with the text, if anything is.
fn fault_of<T: Drop>(
    outcome: Result<T, ParserErrorWithLocation>,
) -> Result<Option<ParserErrorWithLocation>, AllocError> {
    match outcome {
        Ok(_) => Ok(None),
        Err(error) if error.error == ParserError::Memory => Err(AllocError),
        Err(error) => Ok(Some(error)),
    }
}

/// Of a text whose tokens stand between blanks: whether each front with a `$` behind it is refused
/// at the `$`. If not, the first that isn't.
pub fn fronts(alloc: Global, text: &str) -> Result<String, AllocError> {
    let whole = parse(alloc, text)?;
    if whole.as_str() != "ok" {
        return Ok(whole);
    }
    let mut front = String::new(alloc);
    for word in text.split(' ') {
        let wrong = format!(in alloc; "{front}$ {word}")?;
        let found = parse(alloc, &wrong)?;
        if !is_at(alloc, &found, front.len().saturating_add(1))? {
            return format!(in alloc; "{wrong} is {found}");
        }
        front.push_str(word)?;
        front.push(' ')?;
    }
    String::from_str(alloc, "each is refused behind it")
}

/// Whether the fault stands in the first line at this column.
fn is_at(alloc: Global, fault: &str, col: usize) -> Result<bool, AllocError> {
    Ok(fault.starts_with(format!(in alloc; "at 1:{col}: S")?.as_str()))
}

/// The fronts that have a tree, by their lengths in bytes.
pub fn trees(alloc: Global, text: &str) -> Result<String, AllocError> {
    let mut lengths = String::new(alloc);
    let mut front = String::new(alloc);
    for character in text.chars() {
        put_length(&mut lengths, alloc, &front)?;
        front.push(character)?;
    }
    put_length(&mut lengths, alloc, &front)?;
    String::from_str(alloc, lengths.trim_end())
}

fn put_length(lengths: &mut String, alloc: Global, front: &str) -> Result<(), AllocError> {
    match parse_file(alloc, front) {
        Ok(_) => lengths.push_str(&format!(in alloc; "{} ", front.len())?),
        Err(error) if error.error == ParserError::Memory => Err(AllocError),
        Err(_) => Ok(()),
    }
}

/// The package of the file, `no package`, or the fault.
pub fn package(alloc: Global, text: &str) -> Result<String, AllocError> {
    match parse_file(alloc, text) {
        Ok(tree) => String::from_str(alloc, tree.package().unwrap_or("no package")),
        Err(error) => format!(in alloc; "{error}"),
    }
}

/// How the constant is written out, or the fault of `option o = C;`.
pub fn constant(alloc: Global, text: &str) -> Result<String> {
    let text = format!(in alloc; "option o = {text};")?;
    match parse_file(alloc, &text) {
        Ok(tree) => first_value(alloc, &tree.statements),
        Err(error) => Ok(format!(in alloc; "{error}")?),
    }
}

fn first_value(alloc: Global, statements: &[FileStatement]) -> Result<String> {
    match statements.first() {
        Some(FileStatement::Option(statement)) => written(alloc, &statement.option.value),
        _ => bail!("no option"),
    }
}

/// The constant's format, which is also what it is shown as.
fn written(alloc: Global, value: &ProtobufConstant) -> Result<String> {
    let format = value.format(alloc)?;
    if format!(in alloc; "{value}")? != format {
        bail!("{value} is shown, and {format} is its format");
    }
    Ok(format)
}

/// The listing as a file of cases has it.
pub fn listed(alloc: Global, files: &[FileDescriptorProto]) -> Result<String, AllocError> {
    without_last_feed(alloc, &listing(alloc, files)?)
}

/// The text without the line feed at its end.
pub fn without_last_feed(alloc: Global, text: &str) -> Result<String, AllocError> {
    String::from_str(alloc, text.strip_suffix('\n').unwrap_or(text))
}
