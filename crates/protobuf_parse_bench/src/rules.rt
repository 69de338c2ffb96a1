//! How long the rules take.

use anyhow::{Result, anyhow};
use protobuf_parse::{Parser, violations};
use std::alloc::Global;
use std::rt::Runtime;
use std::time::Instant;

/// Prints how long the file below the folder, with all that it imports, takes, and how long the
/// violations in all of that take.
pub fn measure_rules<R: Runtime<A = Global>>(rt: &R, folder: &str, input: &str) -> Result<()> {
    let mut parser = Parser::new(rt.alloc());
    parser.push_include(folder)?;
    parser.push_input(input)?;
    let start = Instant::now(rt)?;
    let files = match parser.parse_and_typecheck(rt) {
        Ok(parsed) => parsed.file_descriptors,
        Err(fault) => return Err(anyhow!("{fault}")),
    };
    let running = start.elapsed(rt)?.as_micros();
    println!(rt; "{} files in {running} microseconds", files.len())?;
    let start = Instant::now(rt)?;
    let count = violations(rt.alloc(), &files)?.len();
    let telling = start.elapsed(rt)?.as_micros();
    println!(rt; "{count} violations in {telling} microseconds")?;
    Ok(())
}
