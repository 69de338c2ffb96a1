//! Makes the documentation of schemas as Markdown, a page of each file, with what comments say:
//! `protobuf_parse_docs schemas schemas/item.proto schemas/order.proto`. The first argument is the
//! include, and the others are the inputs. The pages go to standard output, one after another; or
//! with `--out=FOLDER` in front of the include into a folder that is there, each as a file.
#![tactic(auto)]

mod comments;
mod options;
mod page;
mod types;

use crate::page::{page_name, page_of};
use crate::types::is_shipped;
use anyhow::{Result, anyhow, ensure};
use protobuf_parse::{ParsedWithSourceInfo, Parser, numbers_are_unique, violations};
use protobuf_parse_index::Index;
use std::rt::Runtime;
use std::{env, fs};

const USAGE: &str = "usage: protobuf_parse_docs [--out=FOLDER] <include> <input.proto>..";

/// The run over the inputs.
fn parsed_of<R: Runtime<A = std::alloc::Global>>(
    rt: &R,
    include: &str,
    inputs: &[String],
) -> Result<ParsedWithSourceInfo> {
    let mut parser = Parser::new(rt.alloc());
    parser.google_files();
    parser.push_include(include)?;
    for input in inputs {
        parser.push_input(input)?;
    }
    let found = parser.parse_with_source_info(rt)?;
    // Custom options can be read back where each number of a message is in use once.
    let violations = violations(rt.alloc(), &found.parsed.file_descriptors)?;
    ensure!(
        numbers_are_unique(&violations),
        "a number of a field is in use already: see what the command says of these files"
    );
    Ok(found)
}

/// Makes the pages of all files but those that come with the library.
fn make_pages<R: Runtime<A = std::alloc::Global>>(
    rt: &R,
    folder: Option<&str>,
    found: &ParsedWithSourceInfo,
) -> Result<()> {
    let alloc = rt.alloc();
    let files = &found.parsed.file_descriptors;
    let index = Index::of(alloc, files)?;
    for (file, info) in files.iter().zip(&found.source_info) {
        if is_shipped(file.package.as_deref().unwrap_or("")) {
            continue;
        }
        let page = page_of(alloc, &index, file, info)?;
        match folder {
            Some(folder) => {
                let name = page_name(alloc, file.name.as_deref().unwrap_or("?"))?;
                let path = format!(in alloc; "{folder}/{name}")?;
                fs::write(rt, path.as_str(), page.as_bytes())?;
            }
            None => print!(rt; "{page}")?,
        }
    }
    Ok(())
}

/// The folder of `--out=FOLDER`, if that is the first word.
fn folder_of(words: &[String]) -> Option<&str> {
    words.first()?.strip_prefix("--out=")
}

fn run<R: Runtime<A = std::alloc::Global>>(rt: &R) -> Result<()> {
    let mut words = Vec::new(rt.alloc());
    for word in env::args(rt)?.skip(1) {
        words.push(word)?;
    }
    let folder = folder_of(&words);
    let first = usize::from(folder.is_some());
    let Some([include, inputs @ ..]) = words.get(first..) else {
        return Err(anyhow!("{USAGE}"));
    };
    make_pages(rt, folder, &parsed_of(rt, include, inputs)?)
}

fn main(rt: HostRuntime) -> Result<()> {
    run(&rt)
}
