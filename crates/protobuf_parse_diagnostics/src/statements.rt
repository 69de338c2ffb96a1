//! Statements of a file that declare nothing.

use protobuf_parse_syntax::{FileStatement, FileTree, Import, Place};
use std::alloc::{AllocError, Global};
use std::collections::BTreeMap;

/// Where a file imports others, and where it names its package.
#[derive(Drop)]
pub struct StatementPlaces<'t> {
    imports: BTreeMap<&'t str, ImportPlaces>,
    /// The last statement that names the package, which is the one that counts.
    pub package: Option<Place>,
}

/// The first two statements that import a path.
#[derive(Clone, Copy)]
struct ImportPlaces {
    first: Place,
    second: Option<Place>,
}

impl<'t> StatementPlaces<'t> {
    /// Those of a tree. The one error is that memory is short.
    pub fn of(alloc: Global, tree: &'t FileTree) -> Result<Self, AllocError> {
        let mut places = StatementPlaces {
            imports: BTreeMap::new(alloc),
            package: None,
        };
        for statement in &tree.statements {
            match statement {
                FileStatement::Import(import) => places.add_import(import)?,
                FileStatement::Package(package) => places.package = Some(package.place),
                _ => {}
            }
        }
        Ok(places)
    }

    fn add_import(&mut self, import: &'t Import) -> Result<(), AllocError> {
        let path = import.path.as_path().to_str();
        let place = import.place;
        let places = match self.imports.get(path) {
            None => ImportPlaces {
                first: place,
                second: None,
            },
            Some(places) => ImportPlaces {
                first: places.first,
                second: Some(places.second.unwrap_or(place)),
            },
        };
        self.imports.insert(path, places)?;
        Ok(())
    }

    /// The place of the first statement that imports the path.
    pub fn import(&self, path: &str) -> Option<Place> {
        Some(self.imports.get(path)?.first)
    }

    /// The place of the second one.
    pub fn repeated_import(&self, path: &str) -> Option<Place> {
        self.imports.get(path)?.second
    }
}
