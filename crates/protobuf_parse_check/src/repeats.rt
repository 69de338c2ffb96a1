//! Full names that a file brings together: E5 and E6, each once.

ghost use Rattle.std.specs.Prelude.{◌≡◌, ◌&&◌, ◌++◌, true, not, map, nat_eq, nat_lt, List, ℕ, IfOk};
ghost use Rattle.std.specs.Prelude.{OnOk, string_bytes, flat_map, length};
ghost use Rattle.std.specs.BTreeMap.{get_by_text};
ghost use Rattle.std.specs.List.{list_any};
ghost use Rattle.std.specs.List.Sorted.{IsStrictlyIncreasing};
ghost use Rattle.protobuf_parse_base.specs.Multimaps.{values_under};
ghost use Rattle.protobuf_parse_syntax.specs.Trees.{FileSyntax, file_syntax};
ghost use Rattle.protobuf_parse_model.specs.Descriptors.{Text};
ghost use Rattle.protobuf_parse_model.specs.Faults.{found};
ghost use Rattle.protobuf_parse_model.specs.LastDeclared as last;
ghost use Rattle.protobuf_parse_model.specs.Tables.{TableTells, listed_names};
ghost use Rattle.protobuf_parse_run.specs.Loading.{repeat_place_over};
ghost use Rattle.protobuf_parse_check.specs.Gathered as gathered;
ghost use Rattle.protobuf_parse_check.specs.Judging.{BringsNames, FindsRepeats, IsBelow, IsBeside};
ghost use Rattle.protobuf_parse_check.specs.Judging.{Bringers, any_of, is_new, listed_for};
ghost use Rattle.protobuf_parse_check.specs.Judging.{repeats_over};

use protobuf_parse_base::multimap;
use protobuf_parse_lexer::Place;
use protobuf_parse_model::{
    BEGINNING, ElabError, ElabErrorKind, Seen, declaring_files, is_declared_twice, is_reached,
    last_places, listed_names,
};
use protobuf_parse_run::loaded::LoadedFiles;
use protobuf_parse_run::repeats::completing_import;
use protobuf_parse_syntax::FileTree;
use std::alloc::{AllocError, Global};
use std::collections::BTreeMap;

/// Full names, and the numbers of the files that bring their declarations together.
pub type Bringers = BTreeMap<String, Vec<u32>>;

/// Which files bring names together.
#[derive(Drop)]
pub struct Brought {
    /// Those of messages and enums.
    pub types: Bringers,
    pub extensions: Bringers,
}

/// E5 and E6 of the next file, which has this tree: of each full name whose declarations it brings
/// together. It is noted that it does so.
pub fn repeats_of(
    alloc: Global,
    loaded: &LoadedFiles,
    brought: &mut Brought,
    seen: &Seen<'_>,
    tree: &FileTree,
) -> Result<Vec<ElabError>, AllocError>
    requires own { list_any (nat_eq (length loaded.now.entries)) seen.now.reach.now ≡ true }
    ensures { (files : List FileSyntax) → TableTells seen.now.declarations.now files
        → IfOk result (λ faults. FindsRepeats loaded.now.entries files seen.now.declarations.now
        seen.now.reach.now (file_syntax tree.now) brought.old brought.new (found faults)) }
{
    let own = loaded.len();
    let files = beside_largest(alloc, loaded, seen.reach)?;
    let types = brought_names(alloc, &mut brought.types, seen, &files, own, false)?;
    let extensions = brought_names(alloc, &mut brought.extensions, seen, &files, own, true)?;
    let mut faults = Vec::new(alloc);
    tell_names(alloc, &mut faults, loaded, seen, tree, &types, false)?;
    tell_names(alloc, &mut faults, loaded, seen, tree, &extensions, true)?;
    Ok(faults)
}

/// The full names whose declarations the file with the number `own` brings together, of those that
/// are listed for these files; it is noted that it does so.
fn brought_names(
    alloc: Global,
    bringers: &mut Bringers,
    seen: &Seen<'_>,
    files: &[u32],
    own: u32,
    extension: bool,
) -> Result<Vec<String>, AllocError>
    requires own { list_any (nat_eq own) seen.now.reach.now ≡ true }
    ensures { (trees : List FileSyntax) → TableTells seen.now.declarations.now trees
        → IfOk result (λ names. BringsNames trees seen.now.reach.now extension
        (listed_for seen.now.declarations.now files.now) own bringers.old bringers.new
        (map string_bytes names.items)) }
{
    let mut names = Vec::new(alloc);
    for file in files {
        add_names(&mut names, bringers, seen, *file, own, extension)?;
    }
    Ok(names)
}

/// Adds those of the names that are listed for this file.
fn add_names(
    names: &mut Vec<String>,
    bringers: &mut Bringers,
    seen: &Seen<'_>,
    file: u32,
    own: u32,
    extension: bool,
) -> Result<(), AllocError>
    requires own { list_any (nat_eq own) seen.now.reach.now ≡ true }
    ensures { (trees : List FileSyntax) (candidates : List Text) (first : Bringers)
        → TableTells seen.now.declarations.now trees
        → let reach = seen.now.reach.now in
        BringsNames trees reach extension candidates own first bringers.old
        (map string_bytes names.old.items)
        → OnOk result (BringsNames trees reach extension
        (candidates ++ listed_names seen.now.declarations.now file) own first bringers.new
        (map string_bytes names.new.items)) }
{
    let listed = listed_names(seen.declarations, file);
    for name in listed {
        if is_new(bringers, seen, name, extension) {
            names.push(name.clone()?)?;
            multimap::put(bringers, name.clone()?, own)?;
        }
    }
    Ok(())
}

/// Whether the files that are reached declare the name more than once, and none of them is noted
/// for it.
fn is_new(bringers: &Bringers, seen: &Seen<'_>, name: &str, extension: bool) -> bool
    ensures { (trees : List FileSyntax) → TableTells seen.now.declarations.now trees
        → result ≡ is_new trees seen.now.reach.now extension bringers.now name.now }
{
    is_declared_twice(seen, name, extension) && !are_reached(seen, multimap::values(bringers, name))
}

/// Whether one of these files is reached.
fn are_reached(seen: &Seen<'_>, files: &[u32]) -> bool
    ensures { result ≡ any_of files.now seen.now.reach.now }
{
    for file in files {
        if is_reached(seen, *file) {
            return true;
        }
    }
    false
}

/// The numbers among these that the loaded file among them that reaches the most files doesn't
/// reach. What it reaches brought together what it could: so a name that is brought together by
/// more is declared in one of the others.
fn beside_largest(
    alloc: Global,
    loaded: &LoadedFiles,
    reach: &[u32],
) -> Result<Vec<u32>, AllocError>
    ensures { IfOk result (λ files. IsBeside loaded.now.entries reach.now files.items) }
{
    let below = largest_reach(loaded, reach);
    let mut files = Vec::new(alloc);
    for file in reach {
        if below.binary_search(file).is_err() {
            files.push(*file)?;
        }
    }
    Ok(files)
}

/// The numbers that the one of these files reaches that reaches the most.
fn largest_reach<'a>(loaded: &'a LoadedFiles, reach: &[u32]) -> &'a [u32]
    ensures { IsBelow loaded.now.entries reach.now result.now }
{
    let mut largest: &[u32] = &[];
    for number in reach {
        if let Some((_, file)) = loaded.at(*number)
            && file.reach.len() > largest.len()
        {
            largest = &file.reach;
        }
    }
    largest
}

/// Tells for each of the names that the file brings its declarations together.
fn tell_names(
    alloc: Global,
    faults: &mut Vec<ElabError>,
    loaded: &LoadedFiles,
    seen: &Seen<'_>,
    tree: &FileTree,
    names: &[String],
    extension: bool,
) -> Result<(), AllocError>
    ensures { (files : List FileSyntax) → TableTells seen.now.declarations.now files
        → OnOk result (found faults.new ≡ found faults.old
        ++ repeats_over loaded.now.entries files seen.now.reach.now (file_syntax tree.now) extension
        (map string_bytes names.now)) }
{
    if names.is_empty() {
        return Ok(());
    }
    let places = last_places(alloc, tree, extension)?;
    for name in names {
        let place = place_of(alloc, loaded, seen, tree, &places, name, extension)?;
        faults.push(ElabError {
            place,
            kind: kind_of(extension),
            what: name.clone()?,
        })?;
    }
    Ok(())
}

/// Where the file tells that the name is declared more than once: of an extension, or else of a
/// message or an enum. `places` are those of its own last declarations.
fn place_of(
    alloc: Global,
    loaded: &LoadedFiles,
    seen: &Seen<'_>,
    tree: &FileTree,
    places: &BTreeMap<String, Place>,
    name: &str,
    extension: bool,
) -> Result<Place, AllocError>
    requires last { (q : Text) → get_by_text places.now q
        ≡ last.last_declared extension q (file_syntax tree.now) }
    ensures { (files : List FileSyntax) → TableTells seen.now.declarations.now files
        → IfOk result (λ place. place ≡ repeat_place_over loaded.now.entries files
        seen.now.reach.now (file_syntax tree.now) extension name.now) }
{
    if let Some(place) = places.get(name) {
        return Ok(*place);
    }
    let files = declaring_files(alloc, seen, name, extension)?;
    match completing_import(alloc, loaded, tree, files)? {
        Some(place) => Ok(place),
        None => Ok(BEGINNING),
    }
}

/// E6, or else E5.
fn kind_of(extension: bool) -> ElabErrorKind
    ensures { result ≡ gathered.kind_of extension }
{
    if extension {
        ElabErrorKind::ExtensionDeclaredTwice
    } else {
        ElabErrorKind::TypeDeclaredTwice
    }
}
