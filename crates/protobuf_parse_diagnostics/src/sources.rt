//! The files that a run read.

ghost use Rattle.std.specs.Prelude.{◌≡◌, option_map};
ghost use Rattle.protobuf_parse_diagnostics.specs.Later.{text_in};
ghost use Rattle.protobuf_parse_diagnostics.specs.Told.{origin_in};

use crate::scan::place_behind;
use protobuf_parse_check::FileReport;
use protobuf_parse_run::{ReadEntry, ReadOutcome};
use protobuf_parse_syntax::{FileStatement, FileTree, Import, ParserError, Place, parse_file};
use std::alloc::{AllocError, Global};
use std::collections::BTreeMap;
use std::str;

/// A file that a run read, and whose content is a text.
#[derive(Clone, Copy)]
pub struct Source<'a> {
    /// Its proto path.
    pub path: &'a str,
    /// Where it lies, as its read said; of a file that the library brings its proto path.
    pub origin: &'a str,
    pub text: &'a str,
}

/// The files that a run read, in the order of its reads.
#[derive(Drop)]
pub struct Sources<'a> {
    files: Vec<Source<'a>>,
    by_path: BTreeMap<&'a str, usize>,
    /// The first file that lies at each origin.
    by_origin: BTreeMap<&'a str, usize>,
    /// Where the files lie by their proto paths, those too that are no texts.
    origins: BTreeMap<&'a str, &'a str>,
    /// Where files stop being UTF-8, by their proto paths.
    ends_of_text: BTreeMap<&'a str, Place>,
}

impl<'a> Sources<'a> {
    /// The files of these reads of a run. `bundled` is the table of files that the run was given.
    /// The one error is that memory is short.
    pub fn of_reads(
        alloc: Global,
        reads: &'a [ReadEntry],
        bundled: &'a [(&'a str, &'a str)],
    ) -> Result<Self, AllocError> {
        let mut sources = Sources {
            files: Vec::new(alloc),
            by_path: BTreeMap::new(alloc),
            by_origin: BTreeMap::new(alloc),
            origins: BTreeMap::new(alloc),
            ends_of_text: BTreeMap::new(alloc),
        };
        for entry in reads {
            if let ReadOutcome::Content { origin, content } = &entry.outcome {
                let path = entry.path.as_path().to_str();
                sources.origins.insert(path, origin)?;
                if let Some(place) = end_of_text(content) {
                    sources.ends_of_text.insert(path, place)?;
                }
            }
            if let Some(source) = source_of(entry, bundled) {
                sources.add(source)?;
            }
        }
        Ok(sources)
    }

    /// Adds a file, unless one of its proto path is there.
    fn add(&mut self, source: Source<'a>) -> Result<(), AllocError> {
        if self.by_path.contains_key(source.path) {
            return Ok(());
        }
        self.by_path.insert(source.path, self.files.len())?;
        if !self.by_origin.contains_key(source.origin) {
            self.by_origin.insert(source.origin, self.files.len())?;
        }
        self.files.push(source)?;
        Ok(())
    }

    /// The files.
    pub fn files(&self) -> &[Source<'a>] {
        &self.files
    }

    /// The file of this proto path.
    pub fn of_path(&self, path: &str) -> Option<&Source<'a>> {
        self.files.get(*self.by_path.get(path)?)
    }

    /// The text of the file of this proto path.
    pub fn text_of(&self, path: &str) -> Option<&'a str>
        ensures { option_map (λ text. text.now) result ≡ text_in self.now path.now }
    {
        let number = self.by_path.get(path)?;
        let source = self.files.get(*number)?;
        Some(source.text)
    }

    /// Where the file of this proto path lies; the path itself where nothing was read for it.
    pub fn origin_of<'p>(&'p self, path: &'p str) -> &'p str
        ensures { result.now ≡ origin_in self.now path.now }
    {
        match self.origins.get(path) {
            Some(origin) => *origin,
            None => path,
        }
    }

    /// Where the file of this proto path stops being UTF-8, if it does.
    pub fn end_of_text(&self, path: &str) -> Option<Place> {
        self.ends_of_text.get(path).copied()
    }

    /// The first file that lies there.
    pub fn at_origin(&self, origin: &str) -> Option<&Source<'a>> {
        self.files.get(*self.by_origin.get(origin)?)
    }
}

/// The place of the first byte that is no part of a text, if there is one.
fn end_of_text(content: &[u8]) -> Option<Place> {
    let Err(error) = str::from_utf8(content) else {
        return None;
    };
    let text = str::from_utf8(content.get(..error.valid_up_to())?).ok()?;
    Some(place_behind(text))
}

/// The file that a read gave, if it gave a text.
fn source_of<'a>(entry: &'a ReadEntry, bundled: &'a [(&'a str, &'a str)]) -> Option<Source<'a>> {
    let path = entry.path.as_path().to_str();
    let origin = entry.origin();
    match str::from_utf8(entry.content(bundled)?) {
        Ok(text) => Some(Source { path, origin, text }),
        Err(_) => None,
    }
}

/// The tree of a text, if it has one. The one error is that memory is short.
pub fn tree_of(alloc: Global, text: &str) -> Result<Option<FileTree>, AllocError> {
    match parse_file(alloc, text) {
        Ok(tree) => Ok(Some(tree)),
        Err(error) => match error.error {
            ParserError::Memory => Err(AllocError),
            _ => Ok(None),
        },
    }
}

/// The tree of a file, by its proto path.
#[derive(Drop)]
pub struct NamedTree {
    pub path: String,
    pub tree: FileTree,
}

/// Of each of the files its tree, if it has one, in their order. The one error is that memory is
/// short.
pub fn parsed_texts(
    alloc: Global,
    sources: &Sources<'_>,
) -> Result<Vec<Option<FileTree>>, AllocError> {
    let mut parsed = Vec::new(alloc);
    for source in &sources.files {
        parsed.push(tree_of(alloc, source.text)?)?;
    }
    Ok(parsed)
}

/// A file with its tree.
#[derive(Clone, Copy)]
pub struct Parsed<'t, 'a> {
    pub source: Source<'a>,
    pub tree: &'t FileTree,
}

/// Files that have a tree.
#[derive(Drop)]
pub struct Trees<'t, 'a> {
    pub files: Vec<Parsed<'t, 'a>>,
    by_path: BTreeMap<&'a str, usize>,
}

impl<'t, 'a> Trees<'t, 'a> {
    /// Those of these files that have a tree, in their order: `parsed` has one for each. The one
    /// error is that memory is short.
    pub fn of_texts(
        alloc: Global,
        sources: &Sources<'a>,
        parsed: &'t [Option<FileTree>],
    ) -> Result<Self, AllocError> {
        let mut trees = Trees::none(alloc);
        for (source, tree) in sources.files.iter().zip(parsed) {
            if let Some(tree) = tree {
                trees.add(*source, tree)?;
            }
        }
        Ok(trees)
    }

    /// The files of these reports, in their order, without the imports that are told. The one error
    /// is that memory is short.
    pub fn of_reports(
        alloc: Global,
        sources: &Sources<'a>,
        reports: &'t [FileReport],
    ) -> Result<Self, AllocError> {
        let mut trees = Trees::none(alloc);
        for report in reports {
            if let Some(source) = sources.of_path(&report.path) {
                trees.add(*source, &report.tree)?;
            }
        }
        Ok(trees)
    }

    fn none(alloc: Global) -> Self {
        Trees {
            files: Vec::new(alloc),
            by_path: BTreeMap::new(alloc),
        }
    }

    fn add(&mut self, source: Source<'a>, tree: &'t FileTree) -> Result<(), AllocError> {
        self.by_path.insert(source.path, self.files.len())?;
        self.files.push(Parsed { source, tree })?;
        Ok(())
    }

    /// The position of the file of this proto path.
    pub fn position(&self, path: &str) -> Option<usize> {
        self.by_path.get(path).copied()
    }

    /// The file of this proto path.
    pub fn of_path(&self, path: &str) -> Option<Parsed<'t, 'a>> {
        self.files.get(self.position(path)?).copied()
    }

    /// The position of the first file that lies there.
    pub fn at_origin(&self, origin: &str) -> Option<usize> {
        for (i, file) in self.files.iter().enumerate() {
            if file.source.origin == origin {
                return Some(i);
            }
        }
        None
    }
}

/// The `import` statements of a tree, in order.
pub fn imports_in(alloc: Global, tree: &FileTree) -> Result<Vec<&Import>, AllocError> {
    let mut imports = Vec::new(alloc);
    for statement in &tree.statements {
        if let FileStatement::Import(import) = statement {
            imports.push(import)?;
        }
    }
    Ok(imports)
}
