//! What programs write, over two writers in memory.

use std::alloc::{AllocError, Global};
use std::io::{ErrorKind, Write};
use std::{io, process};

/// What a run of a program wrote, and its status.
#[derive(Drop)]
pub struct Outcome {
    pub out: Vec<u8>,
    pub err: Vec<u8>,
    pub status: u8,
}

/// The arguments as a program has them.
pub fn words(alloc: Global, args: &[&str]) -> Result<Vec<String>, AllocError> {
    let mut words = Vec::new(alloc);
    for arg in args {
        words.push(String::from_str(alloc, arg)?)?;
    }
    Ok(words)
}

/// A path for a file of this process alone, below the folder where the tests run.
pub fn own_path(rt: &HostRuntime, name: &str) -> io::Result<String> {
    let own = process::id(rt.process());
    Ok(format!(in rt.alloc(); "protobuf_parse_{own}_{name}")?)
}

/// A writer that takes so many bytes and then fails.
#[derive(Drop)]
pub struct Full {
    pub room: usize,
}

impl Write for Full {
    fn write(&mut self, bytes: &[u8]) -> io::Result<usize> {
        let taken = bytes.len().min(self.room);
        if taken == 0 {
            return Err(io::Error::from(ErrorKind::StorageFull));
        }
        self.room -= taken;
        Ok(taken)
    }

    fn flush(&mut self) -> io::Result<()> {
        Ok(())
    }
}
