//! How bytes are written in a file of cases.

use anyhow::{Context, Result, bail};
use std::alloc::{AllocError, Global};

/// The bytes that a text of a file of cases stands for: itself, but for the marks in it. `«c3a9»`
/// stands for the bytes of these hexadecimal digits, `«3*ab»` for a text so many times, and in a
/// file with a number `«n»` for that number and `«n+1»` for the next one.
pub fn bytes_of(alloc: Global, text: &str, number: Option<u64>) -> Result<Vec<u8>> {
    let (first, rest) = text.split_once('«').unwrap_or((text, ""));
    let mut bytes = Vec::from_slice(alloc, first.as_bytes())?;
    if first.len() < text.len() {
        for piece in rest.split('«') {
            put_piece(alloc, &mut bytes, piece, number)?;
        }
    }
    Ok(bytes)
}

/// Adds what a mark stands for, and the text behind it.
fn put_piece(alloc: Global, bytes: &mut Vec<u8>, piece: &str, number: Option<u64>) -> Result<()> {
    let (mark, rest) = piece.split_once('»').context("a « without its »")?;
    put_mark(alloc, bytes, mark, number)?;
    bytes.extend_from_slice(rest.as_bytes())?;
    Ok(())
}

fn put_mark(alloc: Global, bytes: &mut Vec<u8>, mark: &str, number: Option<u64>) -> Result<()> {
    if let Some((times, part)) = mark.split_once('*') {
        for _ in 0..times.parse::<u32>()? {
            bytes.extend_from_slice(part.as_bytes())?;
        }
        return Ok(());
    }
    match (number, mark) {
        (Some(number), "n") => put_number(alloc, bytes, number)?,
        (Some(number), "n+1") => put_number(alloc, bytes, number.saturating_add(1))?,
        _ => bytes.extend_from_slice(&hex::decode(alloc, mark)?)?,
    }
    Ok(())
}

fn put_number(alloc: Global, bytes: &mut Vec<u8>, number: u64) -> Result<(), AllocError> {
    bytes.extend_from_slice(format!(in alloc; "{number}")?.as_bytes())
}

/// The bytes as a file of cases may have them: printable ASCII and line feeds stand for themselves.
pub fn shown(alloc: Global, bytes: &[u8]) -> Result<String, AllocError> {
    let mut text = String::new(alloc);
    for byte in bytes {
        match byte {
            b'\n' | b' '..=b'~' => text.push(char::from(*byte))?,
            _ => text.push_str(&format!(in alloc; "«{byte:02x}»")?)?,
        }
    }
    Ok(text)
}

/// The bytes as a text.
pub fn text_of(bytes: &[u8]) -> Result<&str> {
    match std::str::from_utf8(bytes) {
        Ok(text) => Ok(text),
        Err(_) => bail!("the text is not UTF-8"),
    }
}
