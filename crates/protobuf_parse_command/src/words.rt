//! The words of the command line, as the system has them.

ghost use Rattle.std.specs.Prelude.{◌≡◌, IfOk, IfErr, IsUtf8, string_bytes};

use std::alloc::{AllocError, AllocFailed, Global};
use std::env::FillError;
use std::rt::Env;

/// How many bytes of a word are asked for at first.
const FIRST_LEN: usize = 256;

/// Why the words can't be read.
#[derive(Debug, Drop)]
pub enum NoWords {
    Memory,
    /// A word that is not UTF-8, with U+FFFD for what is none.
    NotUtf8(String),
}

impl From<AllocError> for NoWords {
    fn from(_error: AllocError) -> NoWords {
        NoWords::Memory
    }
}

impl<T: Drop> From<AllocFailed<T>> for NoWords {
    fn from(_error: AllocFailed<T>) -> NoWords {
        NoWords::Memory
    }
}

/// The words after the program's own name.
pub fn words_of<R: Env + AllocGlobal>(rt: &R) -> Result<Vec<String>, NoWords> {
    let alloc = rt.alloc();
    let mut words = Vec::new(alloc);
    for index in 1..usize::MAX {
        match word_bytes(rt, alloc, index)? {
            Some(bytes) => words.push(word(alloc, bytes)?)?,
            None => break,
        }
    }
    Ok(words)
}

/// The word of these bytes.
fn word(alloc: Global, bytes: Vec<u8>) -> Result<String, NoWords>
    ensures kept { IfOk result (λ word. string_bytes word ≡ bytes.items) }
    ensures refused { IsUtf8 bytes.items → IfErr result (λ why. why ≡ NoWords.Memory) }
{
    match String::from_utf8(bytes) {
        Ok(word) => Ok(word),
        Err(error) => Err(NoWords::NotUtf8(String::from_utf8_lossy(alloc, error.as_bytes())?)),
    }
}

/// The bytes of the word of this number, or None behind the last one.
fn word_bytes<R: Env>(rt: &R, alloc: Global, index: usize) -> Result<Option<Vec<u8>>, AllocError> {
    let mut len = FIRST_LEN;
    for _ in 0..usize::BITS {
        let mut bytes = vec![in alloc; 0; len]?;
        match rt.arg(index, bytes.as_mut_slice()) {
            Ok(used) => {
                bytes.truncate(used);
                return Ok(Some(bytes));
            }
            Err(FillError::TooLong) => len = len.saturating_mul(2),
            Err(FillError::NotPresent) => return Ok(None),
        }
    }
    Err(AllocError)
}
