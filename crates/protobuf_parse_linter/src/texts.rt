//! The texts of the files that are linted, and where what they declare stands.

use anyhow::Result;
use protobuf_parse::RunInput;
use protobuf_parse_diagnostics::Sources;
use protobuf_parse_index::Index;
use protobuf_parse_locations::FileLocations;
use protobuf_parse_option_paths::{file_source_info, without_names};
use protobuf_parse_source_info::SourceCodeInfo;
use protobuf_parse_syntax::parse_file;
use std::alloc::{AllocError, Global};
use std::collections::BTreeMap;

/// A file: its proto path, where people open it, its lines, and where in it all stands.
#[derive(Drop)]
pub struct LintedText<'a> {
    path: &'a str,
    pub origin: &'a str,
    pub lines: Vec<&'a str>,
    info: SourceCodeInfo<'static>,
}

/// Those of the inputs of the run.
pub fn texts_of<'a>(
    alloc: Global,
    index: &Index<'_>,
    sources: &'a Sources<'_>,
    inputs: &'a [RunInput],
) -> Result<Vec<LintedText<'a>>> {
    let mut texts = Vec::new(alloc);
    for input in inputs {
        let (RunInput::Named(path) | RunInput::At { name: path, .. }) = input;
        let path = path.as_path().to_str();
        let (Some(text), Some(file)) = (sources.text_of(path), index.file(path)) else {
            continue;
        };
        let tree = parse_file(alloc, text)?;
        let info = file_source_info(alloc, index, file, text, &tree)?;
        texts.push(LintedText {
            path,
            origin: sources.origin_of(path),
            lines: lines_of(alloc, text)?,
            info: without_names(alloc, info)?,
        })?;
    }
    Ok(texts)
}

fn lines_of(alloc: Global, text: &str) -> Result<Vec<&str>, AllocError> {
    let mut lines = Vec::new(alloc);
    for line in text.split('\n') {
        lines.push(line)?;
    }
    Ok(lines)
}

/// Where what the files declare stands, by their proto paths.
pub type Places<'t> = BTreeMap<&'t str, Linted<'t>>;

/// A file, and where what it declares stands.
#[derive(Drop)]
pub struct Linted<'t> {
    pub text: &'t LintedText<'t>,
    pub locations: FileLocations<'t, 'static>,
}

/// Those of the files.
pub fn places_of<'t>(
    alloc: Global,
    index: &Index<'_>,
    texts: &'t [LintedText<'t>],
) -> Result<Places<'t>> {
    let mut places = BTreeMap::new(alloc);
    for text in texts {
        if let Some(file) = index.file(text.path) {
            let locations = FileLocations::of(alloc, file, &text.info)?;
            places.insert(text.path, Linted { text, locations })?;
        }
    }
    Ok(places)
}
