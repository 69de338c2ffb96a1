//! What is seen of a target.

use crate::target::{Found, Way};
use std::alloc::Global;
use std::fs::{self, Metadata, OpenOptions};
use std::io::{self, ErrorKind};
use std::os::unix::fs::MetadataExt;
use std::rt::Files;

/// How many links are followed to a target.
const MOST_LINKS: u32 = 40;

/// A target as it stands.
#[derive(Drop)]
pub struct Target {
    /// Where it stands, links followed.
    pub path: String,
    pub found: Found,
    pub way: Way,
    /// The owner and the group of a file that is there.
    pub owner: Option<Owner>,
}

/// To whom a file belongs.
#[derive(Clone, Copy, PartialEq, Eq)]
pub struct Owner {
    pub user: u32,
    pub group: u32,
}

impl Owner {
    pub fn of(metadata: &Metadata) -> Owner {
        Owner {
            user: metadata.uid(),
            group: metadata.gid(),
        }
    }
}

/// Looks at what stands at the path. Nothing is changed.
///
/// The error is that of a call that failed: the system has to follow the links too, and a file that
/// is there is opened, so that one to which this process may not write is told.
pub fn look<R: Files + AllocGlobal>(rt: &R, path: &str) -> io::Result<Target> {
    let metadata = match fs::metadata(rt, path) {
        Ok(metadata) => Some(metadata),
        Err(error) if error.kind() == ErrorKind::NotFound => None,
        Err(error) => return Err(error),
    };
    let (path, way) = follow(rt, rt.alloc(), path)?;
    let Some(metadata) = metadata else {
        return Ok(Target {
            path,
            found: Found::Nothing,
            way,
            owner: None,
        });
    };
    let way = standard_way(rt, &metadata).unwrap_or(way);
    let found = found_of(&metadata);
    if matches!(found, Found::File { .. }) && matches!(way, Way::Named | Way::Open) {
        OpenOptions::new().write(true).open(rt, &path)?;
    }
    Ok(Target {
        path,
        found,
        way,
        owner: Some(Owner::of(&metadata)),
    })
}

/// The path to which the links at this one lead, and how.
fn follow<R: Files + AllocGlobal>(rt: &R, alloc: Global, path: &str) -> io::Result<(String, Way)> {
    let mut path = String::from_str(alloc, path)?;
    for _ in 0..MOST_LINKS {
        match fs::symlink_metadata(rt, &path) {
            Ok(metadata) if metadata.is_symlink() => {
                if lies_in_proc(rt, &metadata) {
                    return Ok((path, Way::Open));
                }
                let link = fs::read_link(rt, &path)?;
                path = behind_link(alloc, &path, link.as_str())?;
            }
            Ok(_) => return Ok((path, Way::Named)),
            Err(error) if error.kind() == ErrorKind::NotFound => return Ok((path, Way::Named)),
            Err(error) => return Err(error),
        }
    }
    Err(io::Error::from(ErrorKind::FilesystemLoop))
}

/// Whether the link is one of `/proc`, which leads to an open file and not to what it says.
fn lies_in_proc<R: Files>(rt: &R, link: &Metadata) -> bool {
    match fs::metadata(rt, "/proc/self") {
        Ok(own) => own.dev() != 0 && own.dev() == link.dev(),
        Err(_) => false,
    }
}

/// The path that a link at this path says: one that isn't absolute begins in the link's folder.
fn behind_link(alloc: Global, path: &str, link: &str) -> io::Result<String> {
    let mut behind = String::new(alloc);
    if !link.starts_with('/') {
        behind.push_str(folder_of(path))?;
    }
    behind.push_str(link)?;
    Ok(behind)
}

/// The path up to its last slash, with it.
pub fn folder_of(path: &str) -> &str {
    match path.rsplit_once('/') {
        Some((folder, _)) => path.get(..folder.len() + 1).unwrap_or("/"),
        None => "",
    }
}

/// The standard stream that is the very file with this metadata.
fn standard_way<R: Files>(rt: &R, metadata: &Metadata) -> Option<Way> {
    if is_file_at(rt, "/proc/self/fd/1", metadata) {
        Some(Way::Output)
    } else if is_file_at(rt, "/proc/self/fd/2", metadata) {
        Some(Way::Errors)
    } else {
        None
    }
}

/// Whether the path leads to the very file with this metadata.
fn is_file_at<R: Files>(rt: &R, path: &str, metadata: &Metadata) -> bool {
    match fs::metadata(rt, path) {
        Ok(other) => {
            let ino = other.ino();
            ino != 0 && ino == metadata.ino() && other.dev() == metadata.dev()
        }
        Err(_) => false,
    }
}

fn found_of(metadata: &Metadata) -> Found {
    if metadata.is_dir() {
        Found::Folder
    } else if metadata.is_file() {
        Found::File {
            mode: metadata.mode() & 0o7777,
            names: metadata.nlink(),
        }
    } else {
        Found::Other
    }
}
