//! The new file that takes the place of a target.

use crate::look::{Owner, Target, folder_of};
use std::alloc::AllocError;
use std::fs::{self, OpenFile, OpenOptions, Permissions};
use std::io::{self, ErrorKind, Write};
use std::os::unix::fs::{MetadataExt, OpenOptionsExt, PermissionsExt, chown};
use std::rt::Files;

/// How many names are tried for it.
const MOST_TRIED: u32 = 1000;

/// The mode of a new file, of which the system takes what its user leaves out.
const USUAL_MODE: u32 = 0o666;

/// The mode, while it is written, of a file that takes the place of another.
const OWN_MODE: u32 = 0o600;

/// A new file, in the folder of the target.
#[derive(Drop)]
pub struct Beside<F> {
    pub path: String,
    file: F,
}

/// Makes a new file in the folder of the target, of the owner of the file that is there. None, and
/// no file, where the folder takes none.
pub fn make_beside<R: Files + AllocGlobal>(
    rt: &R,
    target: &Target,
) -> io::Result<Option<Beside<R::File>>> {
    let mode = match target.owner {
        Some(_) => OWN_MODE,
        None => USUAL_MODE,
    };
    for number in 0..MOST_TRIED {
        let path = path_beside(rt, &target.path, number)?;
        match new_file(rt, &path, mode) {
            Ok(file) => return Ok(with_owner(rt, Beside { path, file }, target.owner)),
            Err(error) => match error.kind() {
                ErrorKind::AlreadyExists => {}
                kind if is_refusal(kind) => return Ok(None),
                _ => return Err(error),
            },
        }
    }
    Err(io::Error::from(ErrorKind::AlreadyExists))
}

/// `.protobuf_parse.0.part` in the folder of that path, or the like: a name that is never longer
/// than a name may be.
fn path_beside<R: AllocGlobal>(rt: &R, path: &str, number: u32) -> Result<String, AllocError> {
    let folder = folder_of(path);
    format!(in rt.alloc(); "{folder}.protobuf_parse.{number}.part")
}

fn new_file<R: Files>(rt: &R, path: &str, mode: u32) -> io::Result<R::File> {
    let mut options = OpenOptions::new();
    options.write(true).create_new(true).mode(mode);
    options.open(rt, path)
}

/// Whether a folder says so of a file that it does not take: it can't be written to, or the name
/// would be too long there.
fn is_refusal(kind: ErrorKind) -> bool {
    matches!(
        kind,
        ErrorKind::PermissionDenied | ErrorKind::ReadOnlyFilesystem | ErrorKind::InvalidFilename
    )
}

/// The file with this owner. None, and no file, where it can't be given away.
fn with_owner<R: Files>(
    rt: &R,
    beside: Beside<R::File>,
    owner: Option<Owner>,
) -> Option<Beside<R::File>> {
    let Some(owner) = owner else {
        return Some(beside);
    };
    if beside.is_of(owner) || chown(rt, &beside.path, Some(owner.user), Some(owner.group)).is_ok() {
        return Some(beside);
    }
    beside.remove(rt);
    None
}

impl<F: Write + OpenFile + Drop> Beside<F> {
    fn is_of(&self, owner: Owner) -> bool {
        match self.file.metadata() {
            Ok(metadata) => Owner::of(&metadata) == owner,
            Err(_) => false,
        }
    }

    /// Writes the content to the disk, and gives the file this mode.
    pub fn fill(&mut self, content: &[u8], mode: Option<u32>) -> io::Result<()> {
        self.file.write_all(content)?;
        self.file.flush()?;
        if let Some(mode) = mode {
            if self.file.metadata()?.mode() & 0o7777 != mode {
                self.file.set_permissions(Permissions::from_mode(mode))?;
            }
        }
        self.file.sync_all()
    }

    /// Takes the file away. Where that fails it is left, and nothing is told of it: what came
    /// before is.
    pub fn remove<R: Files>(self, rt: &R) {
        let _ = fs::remove_file(rt, &self.path);
    }
}
