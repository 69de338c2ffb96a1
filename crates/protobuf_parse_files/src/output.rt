//! The file that a command writes.

use crate::beside::{Beside, make_beside};
use crate::look::{Target, look};
use crate::overwrite::overwrite;
use crate::target::{Found, How, Refusal, Seen, how_to_write, may_be_replaced};
use std::fs::{self, OpenOptions};
use std::io::{self, ErrorKind, Write};
use std::rt::Files;

/// Writes a file with this content, as [`how_to_write`] says; `out` and `err` are the standard
/// streams of this process. All memory that this takes is asked for before a byte is written.
///
/// The error is that of the call that failed, and then no new file is left. A file that is there
/// has what it had, unless it was written as it stands and took neither the content nor that.
pub fn write_file<R: Files + AllocGlobal, O: Write, E: Write>(
    rt: &R,
    path: &str,
    content: &[u8],
    out: &mut O,
    err: &mut E,
) -> io::Result<()> {
    let target = look(rt, path)?;
    let beside = if may_be_replaced(target.found, target.way) {
        make_beside(rt, &target)?
    } else {
        None
    };
    let seen = Seen {
        found: target.found,
        way: target.way,
        takes_files: beside.is_some(),
    };
    match (how_to_write(&seen), beside) {
        (How::Replaced { mode }, Some(beside)) => replace(rt, &target, beside, content, mode),
        (How::ToOutput, _) => put(out, content),
        (How::ToErrors, _) => put(err, content),
        (How::Refused(refusal), _) => Err(io::Error::from(kind_of(refusal))),
        (How::InPlace | How::Replaced { .. }, _) => write_in_place(rt, &target, content),
    }
}

fn put<W: Write>(writer: &mut W, content: &[u8]) -> io::Result<()> {
    writer.write_all(content)?;
    writer.flush()
}

fn kind_of(refusal: Refusal) -> ErrorKind {
    match refusal {
        Refusal::IsFolder => ErrorKind::IsADirectory,
        Refusal::ReadOnly => ErrorKind::PermissionDenied,
    }
}

/// Fills the new file and has it take the place of the target. A file that can't be replaced, as in
/// a folder where each may remove its own files alone, is written as it stands.
fn replace<R: Files + AllocGlobal>(
    rt: &R,
    target: &Target,
    mut beside: Beside<R::File>,
    content: &[u8],
    mode: Option<u32>,
) -> io::Result<()> {
    if let Err(error) = beside.fill(content, mode) {
        beside.remove(rt);
        return Err(error);
    }
    match fs::rename(rt, &beside.path, &target.path) {
        Ok(()) => Ok(()),
        Err(error) => {
            beside.remove(rt);
            match error.kind() {
                ErrorKind::PermissionDenied | ErrorKind::ResourceBusy => {
                    write_in_place(rt, target, content)
                }
                _ => Err(error),
            }
        }
    }
}

fn write_in_place<R: Files + AllocGlobal>(
    rt: &R,
    target: &Target,
    content: &[u8],
) -> io::Result<()> {
    if let Found::File { .. } = target.found {
        return overwrite(rt, &target.path, content);
    }
    let is_new = target.found == Found::Nothing;
    let mut options = OpenOptions::new();
    options.write(true).create(is_new);
    let mut file = options.open(rt, &target.path)?;
    put(&mut file, content)
}
