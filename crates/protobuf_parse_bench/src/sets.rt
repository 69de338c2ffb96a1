//! How long a descriptor set takes.

use anyhow::Result;
use protobuf_parse::{FileDescriptorProto, descriptor_set};
use std::alloc::Global;
use std::rt::Runtime;
use std::time::Instant;

/// Prints how long the set of the files takes.
pub fn measure_set<R: Runtime<A = Global>>(rt: &R, files: &[FileDescriptorProto]) -> Result<()> {
    let start = Instant::now(rt)?;
    let count = descriptor_set(rt.alloc(), files)?.len();
    let writing = start.elapsed(rt)?.as_micros();
    println!(rt; "{count} bytes of set in {writing} microseconds")?;
    Ok(())
}
