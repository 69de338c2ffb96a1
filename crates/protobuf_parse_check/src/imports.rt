//! The numbers of the files that a file imports.

ghost use Rattle.std.specs.Prelude.{◌≡◌, ◌++◌, flat_map, map, IfOk, OnOk};
ghost use Rattle.protobuf_parse_syntax.specs.Trees.{file_syntax, statement_syntax};
ghost use Rattle.protobuf_parse_check.specs.Judging.{AddsNumbers, FindsNumbers};

use protobuf_parse_run::loaded::LoadedFiles;
use protobuf_parse_run::reach::ImportNumbers;
use protobuf_parse_syntax::{FileStatement, FileTree};
use std::alloc::{AllocError, Global};

/// The numbers of the files that a file imports, and of those that it imports publicly, in the
/// order of the statements.
#[derive(Drop)]
pub struct FoundImports {
    pub all: Vec<u32>,
    pub public: Vec<u32>,
}

impl FoundImports {
    pub fn numbers(&self) -> ImportNumbers<'_>
        ensures all { result.all.now ≡ self.now.all.items }
        ensures public { result.public.now ≡ self.now.public.items }
    {
        ImportNumbers {
            all: &self.all,
            public: &self.public,
        }
    }
}

/// The numbers of the loaded files that the imports of the tree name.
pub fn imports_of(
    alloc: Global,
    loaded: &LoadedFiles,
    tree: &FileTree,
) -> Result<FoundImports, AllocError>
    ensures { IfOk result
        (λ found. FindsNumbers loaded.now.entries (file_syntax tree.now).statements found) }
{
    let mut found = FoundImports {
        all: Vec::new(alloc),
        public: Vec::new(alloc),
    };
    for statement in &tree.statements {
        add_import(&mut found, loaded, statement)?;
    }
    Ok(found)
}

/// Adds the number of the file that the statement imports, if it is an import.
fn add_import(
    found: &mut FoundImports,
    loaded: &LoadedFiles,
    statement: &FileStatement,
) -> Result<(), AllocError>
    ensures { OnOk result
        (AddsNumbers loaded.now.entries (statement_syntax statement.now) found.old found.new) }
{
    let FileStatement::Import(import) = statement else {
        return Ok(());
    };
    let Some((number, _)) = loaded.find(import.path.as_path().to_str()) else {
        return Ok(());
    };
    found.all.push(number)?;
    if import.vis.is_public() {
        found.public.push(number)?;
    }
    Ok(())
}
