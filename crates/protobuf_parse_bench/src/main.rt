//! Lexes, parses, describes and lists the file that its argument names, and makes its descriptor
//! set; and prints how many tokens, statements and files there are, how long listing and set are,
//! and how long each took; or does what a word says:
//!
//! - `--files N`: loads N files that import each other, and prints how often files were met;
//! - `--same TEXT PATHS`: loads a file of this text for each line of PATHS;
//! - `--read TEXT N`: reads N empty messages in option bytes, each the field 1 of the message
//!   `Wide` of TEXT;
//! - `--rules FOLDER INPUT`: looks for violations in INPUT, below FOLDER, and all that it imports;
//! - `--damage N TEXT..`: N texts that differ in a few bytes from these, and what becomes of them;
//! - `--damage-bytes N TEXT`: the same of the option bytes of the last message of TEXT.
//!
//! With no argument it takes a small text and 2,000 files, and leaves out the times.
#![tactic(auto)]

mod damage;
mod graph;
mod mutate;
mod numbers;
mod rules;
mod same;
mod sets;

use crate::damage::{damage_bytes, damage_texts};
use crate::graph::load;
use crate::rules::measure_rules;
use crate::same::{described, load_same, read_small};
use crate::sets::measure_set;
use anyhow::{Result, anyhow};
use protobuf_parse::listing;
use protobuf_parse_syntax::{parse_file, tokenize};
use std::alloc::Global;
use std::rt::Runtime;
use std::time::Instant;
use std::{env, fs};

/// The text that is read where no file is named, and that larger ones are made of.
const MESSAGE: &str = "// A report of the market, with some words of comment in it.
message TradeReport {
  /* the key, \u{e9} */
  optional string symbol_name = 1 [default = \"caf\\\"\u{e9}\"];
  repeated uint64 volumes = 0x2a [packed = true];
  required int32 price_in_cents = 1844674407;
}

";

/// How many tokens the text has.
fn tokens<R: Runtime<A = Global>>(rt: &R, text: &str) -> Result<usize> {
    match tokenize(rt.alloc(), text) {
        Ok(stream) => Ok(stream.tokens.len()),
        Err(error) => Err(anyhow!("{error}")),
    }
}

/// How many statements the file has.
fn statements<R: Runtime<A = Global>>(rt: &R, text: &str) -> Result<usize> {
    match parse_file(rt.alloc(), text) {
        Ok(tree) => Ok(tree.statements.len()),
        Err(error) => Err(anyhow!("{error}")),
    }
}

/// Prints how long lexing the text takes, how long parsing it with its tokens cut one by one, how
/// long all that leads to descriptors, and how long listing these.
fn measure<R: Runtime<A = Global>>(rt: &R, text: &str) -> Result<()> {
    let start = Instant::now(rt)?;
    let count = tokens(rt, text)?;
    let lexing = start.elapsed(rt)?.as_micros();
    println!(rt; "{count} tokens in {lexing} microseconds")?;
    let start = Instant::now(rt)?;
    let count = statements(rt, text)?;
    let parsing = start.elapsed(rt)?.as_micros();
    println!(rt; "{count} statements in {parsing} microseconds")?;
    let start = Instant::now(rt)?;
    let files = match described(rt.alloc(), text.as_bytes())? {
        Ok(files) => files,
        Err(fault) => return Err(anyhow!("{fault}")),
    };
    let describing = start.elapsed(rt)?.as_micros();
    println!(rt; "{} files in {describing} microseconds", files.len())?;
    let start = Instant::now(rt)?;
    let count = listing(rt.alloc(), &files)?.len();
    let writing = start.elapsed(rt)?.as_micros();
    println!(rt; "{count} bytes of listing in {writing} microseconds")?;
    measure_set(rt, &files)
}

/// Prints how long so many files take.
fn measure_files<R: Runtime<A = Global>>(rt: &R, files: u64) -> Result<()> {
    let start = Instant::now(rt)?;
    let (loaded, meets) = load(rt.alloc(), files)?;
    let time = start.elapsed(rt)?.as_micros();
    println!(rt; "{loaded} files, met {meets} times, in {time} microseconds")?;
    Ok(())
}

/// Prints what does not change from one run to the next.
fn count<R: Runtime<A = Global>>(rt: &R) -> Result<()> {
    let tokens = tokens(rt, MESSAGE)?;
    let statements = statements(rt, MESSAGE)?;
    println!(rt; "{tokens} tokens, {statements} statements")?;
    let (loaded, meets) = load(rt.alloc(), 2000)?;
    println!(rt; "{loaded} files, met {meets} times")?;
    Ok(())
}

/// The arguments behind the program's name.
fn arguments<R: Runtime<A = Global>>(rt: &R) -> Result<Vec<String>> {
    let mut given = Vec::new(rt.alloc());
    for argument in env::args(rt)?.skip(1) {
        given.push(argument)?;
    }
    Ok(given)
}

/// What became of so many damages of the files.
fn damage_files<R: Runtime<A = Global>>(rt: &R, count: u64, names: &[String]) -> Result<()> {
    let mut texts = Vec::new(rt.alloc());
    for name in names {
        texts.push(fs::read(rt, name.as_str())?)?;
    }
    let damage = damage_texts(rt, &texts, count)?;
    println!(rt; "{damage}")?;
    Ok(())
}

/// Does what a word says that is given a file and something else.
fn run_word<R: Runtime<A = Global>>(rt: &R, word: &str, first: &str, second: &str) -> Result<()> {
    match word {
        "--same" => {
            let text = fs::read(rt, first)?;
            let count = load_same(rt.alloc(), &text, fs::read_to_string(rt, second)?.as_str())?;
            println!(rt; "{count} files")?;
        }
        "--read" => {
            let text = fs::read(rt, first)?;
            let count = read_small(rt.alloc(), &text, second.parse()?)?;
            println!(rt; "{count} fields")?;
        }
        "--rules" => measure_rules(rt, first, second)?,
        "--damage-bytes" => {
            let text = fs::read(rt, second)?;
            let start = Instant::now(rt)?;
            let reads = damage_bytes(rt, &text, first.parse()?)?;
            let time = start.elapsed(rt)?.as_micros();
            println!(rt; "{reads}; {time} microseconds in all")?;
        }
        _ => return Err(anyhow!("no such word: {word}")),
    }
    Ok(())
}

fn run<R: Runtime<A = Global>>(rt: &R, given: &[String]) -> Result<()> {
    match given {
        [] => count(rt),
        [name] => measure(rt, fs::read_to_string(rt, name.as_str())?.as_str()),
        [word, files] if word.as_str() == "--files" => measure_files(rt, files.parse()?),
        [word, count, names @ ..] if word.as_str() == "--damage" => {
            damage_files(rt, count.parse()?, names)
        }
        [word, first, second] => run_word(rt, word, first, second),
        _ => Err(anyhow!("what to do?")),
    }
}

fn main(rt: HostRuntime) -> Result<()> {
    let given = arguments(&rt)?;
    run(&rt, &given)
}
