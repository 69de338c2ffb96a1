//! Damaged texts and damaged option bytes, and what becomes of them.

use crate::mutate::mutated;
use crate::numbers::Numbers;
use crate::same::described;
use anyhow::{Context, Result, anyhow, bail};
use protobuf_parse::{
    FileDescriptorProto, ParserErrorWithLocation, ProtobufAbsPathRef, ReadFault, RunFault,
    read_custom,
};
use protobuf_parse_syntax::parse_file;
use std::alloc::Global;
use std::fmt;
use std::rt::Runtime;
use std::time::Instant;

/// Below so many bytes a text's time is that of beginning and ending.
const FEW: usize = 50;

/// What became of texts.
#[derive(Clone, Copy)]
pub struct Damage {
    not_text: u64,
    trees: u64,
    refused: u64,
    described: u64,
    faults: u64,
    other: u64,
    /// To parse.
    slowest: Slowest,
    /// To parse and describe.
    slowest_run: Slowest,
}

/// The text that took the longest for each of its bytes.
#[derive(Clone, Copy)]
pub struct Slowest {
    nanoseconds: u128,
    bytes: usize,
}

impl fmt::Display for Damage {
    fn fmt<W: fmt::Write>(&self, f: &mut fmt::Formatter<W>) -> fmt::Result {
        write!(f, "no UTF-8: {}; trees: {}; ", self.not_text, self.trees)?;
        write!(f, "refused at a place inside: {}; ", self.refused)?;
        write!(f, "descriptors: {}; ", self.described)?;
        write!(
            f,
            "E1 to E28: {}; other faults: {}; ",
            self.faults, self.other
        )?;
        write!(f, "longest: {} to parse, ", self.slowest)?;
        write!(f, "{} to describe", self.slowest_run)
    }
}

impl fmt::Display for Slowest {
    fn fmt<W: fmt::Write>(&self, f: &mut fmt::Formatter<W>) -> fmt::Result {
        write!(f, "{} ns for {} bytes", self.nanoseconds, self.bytes)
    }
}

impl Damage {
    fn new() -> Damage {
        Damage {
            not_text: 0,
            trees: 0,
            refused: 0,
            described: 0,
            faults: 0,
            other: 0,
            slowest: Slowest::NONE,
            slowest_run: Slowest::NONE,
        }
    }
}

impl Slowest {
    const NONE: Slowest = Slowest {
        nanoseconds: 0,
        bytes: 1,
    };

    /// Notes that so many bytes took so long.
    fn note(&mut self, nanoseconds: u128, bytes: usize) {
        if self.is_passed(nanoseconds, bytes) {
            self.nanoseconds = nanoseconds;
            self.bytes = bytes;
        }
    }

    /// Whether so many bytes, if they aren't few, took longer, each of them.
    fn is_passed(&self, nanoseconds: u128, bytes: usize) -> bool {
        bytes >= FEW
            && nanoseconds.saturating_mul(self.bytes as u128)
                > self.nanoseconds.saturating_mul(bytes as u128)
    }
}

fn more(count: &mut u64) {
    *count = count.saturating_add(1);
}

/// What becomes of so many texts, each made of one of these. An error tells of a fault that stands
/// at no place of its text.
pub fn damage_texts<R: Runtime<A = Global>>(
    rt: &R,
    texts: &[Vec<u8>],
    count: u64,
) -> Result<Damage> {
    let mut numbers = Numbers::new(21);
    let mut damage = Damage::new();
    for _ in 0..count {
        let Some(of) = texts.get(numbers.below(texts.len())) else {
            bail!("no text to damage");
        };
        let bytes = mutated(rt.alloc(), &mut numbers, of)?;
        try_parse(rt, &bytes, &mut damage)?;
        try_run(rt, &bytes, &mut damage)?;
    }
    Ok(damage)
}

/// What the parser says of the text, and how long it takes.
fn timed<R: Runtime<A = Global>>(
    rt: &R,
    text: &str,
) -> Result<(u128, Result<(), ParserErrorWithLocation>)> {
    let start = Instant::now(rt)?;
    let parsed = parse_file(rt.alloc(), text);
    let nanoseconds = start.elapsed(rt)?.as_nanos();
    Ok((nanoseconds, parsed.map(|_| ())))
}

/// Parses the text; where that seems to take long, several times, since something else may have
/// run.
fn try_parse<R: Runtime<A = Global>>(rt: &R, bytes: &[u8], damage: &mut Damage) -> Result<()> {
    let Ok(text) = str::from_utf8(bytes) else {
        more(&mut damage.not_text);
        return Ok(());
    };
    let (mut nanoseconds, parsed) = timed(rt, text)?;
    for _ in 0..5 {
        if damage.slowest.is_passed(nanoseconds, bytes.len()) {
            nanoseconds = nanoseconds.min(timed(rt, text)?.0);
        }
    }
    damage.slowest.note(nanoseconds, bytes.len());
    match parsed {
        Ok(_) => more(&mut damage.trees),
        Err(error) if is_inside(text, &error) => more(&mut damage.refused),
        Err(error) => bail!("{error} is no place of {text:?}"),
    }
    Ok(())
}

/// Whether the fault stands at a character of the text, or behind the last one of a line.
fn is_inside(text: &str, error: &ParserErrorWithLocation) -> bool {
    let (Some(lines), Some(chars)) = (error.line.checked_sub(1), error.col.checked_sub(1)) else {
        return false;
    };
    match text.split('\n').nth(lines as usize) {
        Some(line) => chars as usize <= line.chars().count(),
        None => false,
    }
}

/// What becomes of the file, and how long that takes.
fn timed_run<R: Runtime<A = Global>>(
    rt: &R,
    bytes: &[u8],
) -> Result<(u128, Result<Vec<FileDescriptorProto>, RunFault>)> {
    let start = Instant::now(rt)?;
    let outcome = described(rt.alloc(), bytes)?;
    Ok((start.elapsed(rt)?.as_nanos(), outcome))
}

/// Describes the file; where that seems to take long, several times.
fn try_run<R: Runtime<A = Global>>(rt: &R, bytes: &[u8], damage: &mut Damage) -> Result<()> {
    let (mut nanoseconds, outcome) = timed_run(rt, bytes)?;
    for _ in 0..5 {
        if damage.slowest_run.is_passed(nanoseconds, bytes.len()) {
            nanoseconds = nanoseconds.min(timed_run(rt, bytes)?.0);
        }
    }
    damage.slowest_run.note(nanoseconds, bytes.len());
    match outcome {
        Ok(_) => more(&mut damage.described),
        Err(RunFault::Elaborate(_, _)) => more(&mut damage.faults),
        Err(RunFault::Memory) => bail!("out of memory"),
        Err(_) => more(&mut damage.other),
    }
    Ok(())
}

/// The option bytes of the last message of the files that has some.
fn option_bytes(files: &[FileDescriptorProto]) -> Option<&[u8]> {
    let mut found = None;
    for file in files {
        for message in &file.message_type {
            if let Some(options) = &message.options {
                found = Some(options.custom.as_slice());
            }
        }
    }
    found
}

/// What `read_custom` says of damaged option bytes.
#[derive(Clone, Copy)]
pub struct Reads {
    read: u64,
    refused: u64,
    slowest: Slowest,
}

impl fmt::Display for Reads {
    fn fmt<W: fmt::Write>(&self, f: &mut fmt::Formatter<W>) -> fmt::Result {
        write!(f, "read: {}; refused: {}; ", self.read, self.refused)?;
        write!(f, "longest: {}", self.slowest)
    }
}

/// What `read_custom` says of the option bytes of the last message of the file of this text, with
/// so many damages.
pub fn damage_bytes<R: Runtime<A = Global>>(rt: &R, text: &[u8], count: u64) -> Result<Reads> {
    let files = match described(rt.alloc(), text)? {
        Ok(files) => files,
        Err(fault) => return Err(anyhow!("{fault}")),
    };
    let of = option_bytes(&files).context("no message has option bytes")?;
    let message = ProtobufAbsPathRef::try_new(".google.protobuf.MessageOptions").context(
        "no name",
    )?;
    let mut numbers = Numbers::new(21);
    let mut reads = Reads {
        read: 0,
        refused: 0,
        slowest: Slowest::NONE,
    };
    for _ in 0..count {
        let bytes = mutated(rt.alloc(), &mut numbers, of)?;
        let start = Instant::now(rt)?;
        let read = read_custom(rt.alloc(), &files, message, &bytes);
        let nanoseconds = start.elapsed(rt)?.as_nanos();
        reads.slowest.note(nanoseconds, bytes.len());
        match read {
            Ok(_) => more(&mut reads.read),
            Err(ReadFault::Memory) => bail!("out of memory"),
            Err(_) => more(&mut reads.refused),
        }
    }
    Ok(reads)
}
