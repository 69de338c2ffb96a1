//! Where a full name is told that the files which a file reaches declare twice.

ghost use Rattle.std.specs.Prelude.{◌≡◌, ◌∷◌, [], List, IfOk, option_map, option_to_list};
ghost use Rattle.protobuf_parse_syntax.specs.Dependencies.{imported, imports};
ghost use Rattle.protobuf_parse_syntax.specs.Trees.{FileSyntax, file_syntax, import_syntax};
ghost use Rattle.protobuf_parse_syntax.specs.Trees.{statement_syntax};
ghost use Rattle.protobuf_parse_model.specs.Faults.{Blames, Passes, fault_view};
ghost use Rattle.protobuf_parse_model.specs.Tables.{TableTells};
ghost use Rattle.protobuf_parse_run.specs.Loading.{reaches_number, repeat_place_over, repeats_over};
ghost use Rattle.protobuf_parse_run.specs.Repeats.{completing_import, is_of_extension};
ghost use Rattle.protobuf_parse_run.specs.Repeats.{out_of_reach, told_at};

use crate::loaded::LoadedFiles;
use protobuf_parse_lexer::Place;
use protobuf_parse_model::{
    BEGINNING, ElabError, ElabErrorKind, ElabFailure, Seen, declaring_files, last_declared, link,
};
use protobuf_parse_syntax::{FileStatement, FileTree, Import};
use std::alloc::{AllocError, Global};

/// Refuses a full name that the files which a file reaches declare more than once, as
/// [`link`](protobuf_parse_model::link) does, and tells it at its place: at the last statement of
/// the file that declares it, or else at the import with which the last of the files that do is
/// reached.
pub fn link_at_places(
    alloc: Global,
    loaded: &LoadedFiles,
    seen: &Seen<'_>,
    tree: &FileTree,
) -> Result<(), ElabFailure>
    ensures { (files : List FileSyntax) → TableTells seen.now.declarations.now files
        → Passes result (repeats_over loaded.now.entries files seen.now.reach.now
        (file_syntax tree.now)) }
{
    match link(alloc, seen) {
        Ok(()) => Ok(()),
        Err(ElabFailure::Memory) => Err(ElabFailure::Memory),
        Err(ElabFailure::Fault(error)) => Err(at_place(alloc, loaded, seen, tree, error)),
    }
}

/// The fault at its place, unless memory runs out.
fn at_place(
    alloc: Global,
    loaded: &LoadedFiles,
    seen: &Seen<'_>,
    tree: &FileTree,
    error: ElabError,
) -> ElabFailure
    ensures { (files : List FileSyntax) → TableTells seen.now.declarations.now files
        → Blames result (told_at (repeat_place_over loaded.now.entries files seen.now.reach.now
        (file_syntax tree.now)) (fault_view error) ∷ []) }
{
    let extension = is_of_extension(error.kind);
    match repeat_place(alloc, loaded, seen, tree, &error.what, extension) {
        Ok(place) => ElabFailure::Fault(ElabError {
            place,
            kind: error.kind,
            what: error.what,
        }),
        Err(AllocError) => ElabFailure::Memory,
    }
}

/// Whether a fault of that kind, E5 or E6, speaks of an extension.
fn is_of_extension(kind: ElabErrorKind) -> bool
    ensures { result ≡ is_of_extension kind }
{
    match kind {
        ElabErrorKind::ExtensionDeclaredTwice => true,
        _ => false,
    }
}

/// Where the file tells that this full name is declared twice: of an extension, or else of a
/// message or an enum.
fn repeat_place(
    alloc: Global,
    loaded: &LoadedFiles,
    seen: &Seen<'_>,
    tree: &FileTree,
    name: &str,
    extension: bool,
) -> Result<Place, AllocError>
    ensures { (files : List FileSyntax) → TableTells seen.now.declarations.now files
        → IfOk result (λ place. place ≡ repeat_place_over loaded.now.entries files
        seen.now.reach.now (file_syntax tree.now) extension name.now) }
{
    if let Some(place) = last_declared(alloc, tree, name, extension)? {
        return Ok(place);
    }
    let files = declaring_files(alloc, seen, name, extension)?;
    match completing_import(alloc, loaded, tree, files)? {
        Some(place) => Ok(place),
        None => Ok(BEGINNING),
    }
}

/// The place of the first import with which each of the files with these numbers is reached.
pub fn completing_import(
    alloc: Global,
    loaded: &LoadedFiles,
    tree: &FileTree,
    mut files: Vec<u32>,
) -> Result<Option<Place>, AllocError>
    ensures { IfOk result (λ place. place ≡ completing_import
        (reaches_number loaded.now.entries) files.items
        (imports (file_syntax tree.now).statements)) }
{
    for statement in &tree.statements {
        let Some(import) = import_in(statement) else {
            continue;
        };
        files = out_of_reach(alloc, loaded, import.path.as_path().to_str(), &files)?;
        if files.is_empty() {
            return Ok(Some(import.place));
        }
    }
    Ok(None)
}

/// The import that the statement is, if it is one.
fn import_in(statement: &FileStatement) -> Option<&Import>
    ensures { option_to_list (option_map (λ i. import_syntax i.now) result)
        ≡ imported (statement_syntax statement.now) }
{
    match statement {
        FileStatement::Import(import) => Some(import),
        _ => None,
    }
}

/// Those of the files with these numbers that the file of this path doesn't reach.
fn out_of_reach(
    alloc: Global,
    loaded: &LoadedFiles,
    path: &str,
    files: &[u32],
) -> Result<Vec<u32>, AllocError>
    ensures { IfOk result (λ rest. rest.items
        ≡ out_of_reach (reaches_number loaded.now.entries) path.now files.now) }
{
    let mut rest = Vec::new(alloc);
    for file in files {
        if !reaches(loaded, path, *file) {
            rest.push(*file)?;
        }
    }
    Ok(rest)
}

/// Whether the loaded file of this path reaches the file with that number.
fn reaches(loaded: &LoadedFiles, path: &str, number: u32) -> bool
    ensures { result ≡ reaches_number loaded.now.entries path.now number }
{
    match loaded.find(path) {
        Some((_, file)) => file.reach.contains(&number),
        None => false,
    }
}
