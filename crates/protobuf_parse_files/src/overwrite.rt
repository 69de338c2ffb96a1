//! A file that is written as it stands.

use crate::bounded::read_up_to;
use std::fs::{File, OpenFile, OpenOptions};
use std::io::{self, ErrorKind, Seek, Write};
use std::rt::Files;

/// What a file has, as far as it will be overwritten.
#[derive(Drop)]
struct Old {
    front: Vec<u8>,
    len: u64,
}

/// Writes this content over a file. Where the file does not take all of it, it gets back what it
/// had, if this process may read it.
///
/// The error is that of the call that failed.
pub fn overwrite<R: Files + AllocGlobal>(rt: &R, path: &str, content: &[u8]) -> io::Result<()> {
    let old = old_of(rt, path, content.len())?;
    let mut file = OpenOptions::new().write(true).open(rt, path)?;
    let written = put(&mut file, content);
    if let (Err(_), Some(old)) = (&written, &old) {
        // What can't be given back is lost: the first error is told.
        let _ = put_back(&mut file, old);
    }
    written
}

/// What the file has, but for what stands behind so many bytes. None where it can't be read.
fn old_of<R: Files + AllocGlobal>(rt: &R, path: &str, most: usize) -> io::Result<Option<Old>> {
    let mut file = match File::open(rt, path) {
        Ok(file) => file,
        Err(error) if error.kind() == ErrorKind::PermissionDenied => return Ok(None),
        Err(error) => return Err(error),
    };
    let len = file.metadata()?.len();
    let room = len.min(most as u64) as usize;
    let front = read_up_to(rt.alloc(), &mut file, room, most)?;
    Ok(Some(Old { front, len }))
}

/// Nothing that stands behind is cut off before all is on the disk.
fn put<F: Write + OpenFile>(file: &mut F, content: &[u8]) -> io::Result<()> {
    file.write_all(content)?;
    file.flush()?;
    file.sync_all()?;
    file.set_len(content.len() as u64)
}

fn put_back<F: Write + Seek + OpenFile>(file: &mut F, old: &Old) -> io::Result<()> {
    file.rewind()?;
    file.write_all(&old.front)?;
    file.flush()?;
    file.set_len(old.len)
}
