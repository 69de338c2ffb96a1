//! Files that are opened once, and what came of reading them.

use crate::bounded::read_up_to;
use std::alloc::{AllocError, Global};
use std::cell::RefCell;
use std::collections::BTreeMap;
use std::fs::{File, OpenFile};
use std::io::{self, ErrorKind};
use std::rt::Files;

/// What came of reading a file.
#[derive(Debug, Drop)]
pub enum FileRead {
    Content(Vec<u8>),
    /// It has more bytes than are of use.
    TooLong,
    /// It could not be read, for this reason.
    Failed(io::Error),
}

impl FileRead {
    fn copy(&self, alloc: Global) -> Result<FileRead, AllocError> {
        match self {
            FileRead::Content(content) => {
                Ok(FileRead::Content(Vec::from_slice(alloc, content.as_slice())?))
            }
            FileRead::TooLong => Ok(FileRead::TooLong),
            FileRead::Failed(error) => Ok(FileRead::Failed(*error)),
        }
    }
}

/// Files by the paths by which they are asked for. Each path is opened and read once, at the first
/// call for it, so that a pipe gives the same each time.
#[derive(Drop)]
pub struct KeptFiles<'r, R> {
    rt: &'r R,
    /// How many bytes of a file are of use.
    most: usize,
    kept: RefCell<BTreeMap<String, FileRead>>,
}

impl<'r, R: Files + AllocGlobal> KeptFiles<'r, R> {
    /// Nothing is read yet. Of a file at most so many bytes are of use.
    pub fn new(rt: &'r R, alloc: Global, most: usize) -> Self {
        KeptFiles {
            rt,
            most,
            kept: RefCell::new(BTreeMap::new(alloc)),
        }
    }

    /// What came of reading the file. The one error is that memory is short.
    pub fn read(&self, alloc: Global, path: &str) -> Result<FileRead, AllocError> {
        if let Some(read) = self.kept_copy(alloc, path)? {
            return Ok(read);
        }
        let read = read_file(self.rt, alloc, path, self.most)?;
        self.keep(String::from_str(alloc, path)?, read.copy(alloc)?)?;
        Ok(read)
    }

    /// Why the file could not be read, if it was asked for and couldn't.
    pub fn reason(&self, path: &str) -> Option<io::Error> {
        match self.kept.try_borrow() {
            Ok(kept) => match kept.get(path) {
                Some(FileRead::Failed(error)) => Some(*error),
                _ => None,
            },
            Err(_) => None,
        }
    }

    /// Whether the file was asked for and has more bytes than are of use.
    pub fn is_too_long(&self, path: &str) -> bool {
        match self.kept.try_borrow() {
            Ok(kept) => matches!(kept.get(path), Some(FileRead::TooLong)),
            Err(_) => false,
        }
    }

    fn kept_copy(&self, alloc: Global, path: &str) -> Result<Option<FileRead>, AllocError> {
        match self.kept.try_borrow() {
            Ok(kept) => match kept.get(path) {
                Some(read) => Ok(Some(read.copy(alloc)?)),
                None => Ok(None),
            },
            Err(_) => Ok(None),
        }
    }

    fn keep(&self, path: String, read: FileRead) -> Result<(), AllocError> {
        if let Ok(mut kept) = self.kept.try_borrow_mut() {
            kept.insert(path, read)?;
        }
        Ok(())
    }
}

fn read_file<R: Files>(
    rt: &R,
    alloc: Global,
    path: &str,
    most: usize,
) -> Result<FileRead, AllocError> {
    match content_of(rt, alloc, path, most) {
        Ok(Some(content)) => Ok(FileRead::Content(content)),
        Ok(None) => Ok(FileRead::TooLong),
        Err(error) if error.kind() == ErrorKind::OutOfMemory => Err(AllocError),
        Err(error) => Ok(FileRead::Failed(error)),
    }
}

/// The bytes of a file. None where it has more than `most`: a regular file says so, and of anything
/// else so many are read.
fn content_of<R: Files>(
    rt: &R,
    alloc: Global,
    path: &str,
    most: usize,
) -> io::Result<Option<Vec<u8>>> {
    let mut file = File::open(rt, path)?;
    let metadata = file.metadata()?;
    if metadata.is_file() && metadata.len() > most as u64 {
        return Ok(None);
    }
    let room = metadata.len().min(most as u64) as usize;
    let content = read_up_to(alloc, &mut file, room, most.saturating_add(1))?;
    Ok((content.len() <= most).then_some(content))
}
