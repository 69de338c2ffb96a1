//! Arguments that stand in files.

use protobuf_parse_files::{FileRead, KeptFiles};
use std::alloc::{AllocError, Global};
use std::rt::Files;

/// What begins a word that names a file of arguments.
const MARK: char = '@';

/// The most bytes that such a file may have.
const MOST_BYTES: usize = 2147483647;

/// The words, with those of a file in place of each word that is `@` and its path: an argument a
/// line, as it stands there, and none for an empty line. The words of a file name no further files.
///
/// Of a file that can't be read, or is no text, the inner error says so in a sentence. The outer one
/// is that memory is short.
pub fn expanded<R: Files + AllocGlobal>(
    rt: &R,
    alloc: Global,
    words: &[String],
) -> Result<Result<Vec<String>, String>, AllocError> {
    let kept = KeptFiles::new(rt, alloc, MOST_BYTES);
    let mut expanded = Vec::new(alloc);
    for word in words {
        match word.strip_prefix(MARK) {
            None => expanded.push(word.clone()?)?,
            Some(path) => match argument_text(alloc, &kept, path)? {
                Ok(text) => add_lines(alloc, &mut expanded, &text)?,
                Err(why) => {
                    return Ok(Err(format!(in alloc;
                        "could not read the arguments in `{path}`: {why}"
                    )?));
                }
            },
        }
    }
    Ok(Ok(expanded))
}

/// The text of the file at the path, or why there is none.
fn argument_text<R: Files + AllocGlobal>(
    alloc: Global,
    kept: &KeptFiles<'_, R>,
    path: &str,
) -> Result<Result<String, String>, AllocError> {
    match kept.read(alloc, path)? {
        FileRead::Content(bytes) => match String::from_utf8(bytes) {
            Ok(text) => Ok(Ok(text)),
            Err(_) => Ok(Err(format!(in alloc; "it is not UTF-8")?)),
        },
        FileRead::TooLong => Ok(Err(format!(in alloc; "it is longer than {MOST_BYTES} bytes")?)),
        FileRead::Failed(error) => Ok(Err(format!(in alloc; "{error}")?)),
    }
}

fn add_lines(alloc: Global, words: &mut Vec<String>, text: &str) -> Result<(), AllocError> {
    for line in text.lines() {
        if !line.is_empty() {
            words.push(String::from_str(alloc, line)?)?;
        }
    }
    Ok(())
}
