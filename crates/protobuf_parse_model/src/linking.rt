//! Full names that files declare more than once.

ghost use Rattle.std.specs.Prelude.{◌≡◌, true, ◌&&◌, List, filter, map, flat_map, length};
ghost use Rattle.std.specs.Prelude.{◌<◌, ◌^◌, nat_eq, nat_lt, string_bytes};
ghost use Rattle.std.specs.List.{list_any};
ghost use Rattle.protobuf_parse_syntax.specs.Trees.{FileSyntax};
ghost use Rattle.protobuf_parse_model.specs.declared.scope.seen.Declaration as declaration;
ghost use Rattle.protobuf_parse_model.specs.Faults.{Passes};
ghost use Rattle.protobuf_parse_model.specs.FileOrder.{FilesAscend};
ghost use Rattle.protobuf_parse_model.specs.Linking.{full_names, link_faults, occurrences};
ghost use Rattle.protobuf_parse_model.specs.Tables.{TableTells, is_of};
ghost use Rattle.protobuf_parse_model.specs.TableParts.{listed_faults, listed_files};
ghost use Rattle.protobuf_parse_model.specs.Tables.{listed_names};
ghost use Rattle.protobuf_parse_model.specs.TableParts.{reached_faults};
ghost use Rattle.protobuf_parse_model.specs.Tables.{picked};
ghost use Rattle.protobuf_parse_model.specs.TableParts.{name_faults, times};

use crate::error::{ElabErrorKind, ElabFailure, fault};
use crate::scope::{Declaration, DeclarationKind, Declarations, Seen, declarations_of, in_file};
use protobuf_parse_lexer::Place;
use std::alloc::Global;

/// Where a file begins.
pub const BEGINNING: Place = Place { line: 1, col: 1 };

/// Refuses a full name that the files that are reached declare more than once.
///
/// Takes what a file sees: the declarations of files, and the numbers of those among them that it
/// reaches, itself with them. Where the declarations are those that `Declarations::add` made of
/// files one after the other, it tells a fault just where one stands, unless memory runs out, with
/// the beginning of the file as its place:
///
/// - E5: messages and enums, those behind maps and groups among them, have one full name;
/// - E6: extensions have one full name.
pub fn link(alloc: Global, seen: &Seen<'_>) -> Result<(), ElabFailure>
    ensures { (files : List FileSyntax) → TableTells seen.now.declarations.now files →
        Passes result (link_faults (picked files seen.now.reach.now)) }
{
    if seen.declarations.repeated.len() < seen.reach.len() {
        return check_each_listed(alloc, seen);
    }
    check_each_reached(alloc, seen)
}

/// Refuses the first of the full names that are listed that the files that are reached declare more
/// than once: goes through the files for which names are listed.
#[tactic(auto, using(crate::proofs::Blaming::blames_one))]
fn check_each_listed(alloc: Global, seen: &Seen<'_>) -> Result<(), ElabFailure>
    ensures { Passes result
        (flat_map (reached_faults seen.now) (listed_files seen.now.declarations.now)) }
{
    for file in seen.declarations.repeated.keys() {
        check_if_reached(alloc, seen, *file)?;
    }
    Ok(())
}

/// As [`check_file`], if that file is reached.
fn check_if_reached(alloc: Global, seen: &Seen<'_>, file: u32) -> Result<(), ElabFailure>
    ensures { Passes result (reached_faults seen.now file) }
{
    if is_reached(seen, file) {
        return check_file(alloc, seen, file);
    }
    Ok(())
}

/// The same as [`check_each_listed`]: goes through the files that are reached.
#[tactic(auto, using(crate::proofs::Blaming::blames_one))]
fn check_each_reached(alloc: Global, seen: &Seen<'_>) -> Result<(), ElabFailure>
    ensures { Passes result (flat_map (listed_faults seen.now) seen.now.reach.now) }
{
    for file in seen.reach {
        check_file(alloc, seen, *file)?;
    }
    Ok(())
}

/// Refuses the first of the full names that are listed for the file with that number that the files
/// that are reached declare more than once.
fn check_file(alloc: Global, seen: &Seen<'_>, file: u32) -> Result<(), ElabFailure>
    ensures { Passes result (listed_faults seen.now file) }
{
    check_names(alloc, seen, listed_names(seen.declarations, file))
}

/// The full names that are listed for the file with that number: all that it and another declare,
/// and all that it declares twice, are among them.
pub fn listed_names(table: &Declarations, file: u32) -> &[String]
    ensures { map string_bytes result.now ≡ listed_names table.now file }
{
    match table.repeated.get(&file) {
        Some(names) => names,
        None => &[],
    }
}

/// Refuses the first of these full names that the files that are reached declare more than once.
#[tactic(auto, using(crate::proofs::Blaming::blames_at))]
fn check_names(alloc: Global, seen: &Seen<'_>, names: &[String]) -> Result<(), ElabFailure>
    ensures { let texts = map string_bytes names.now in
        Passes result (flat_map (name_faults seen.now) texts) }
{
    for name in names {
        check_name(alloc, seen, name)?;
    }
    Ok(())
}

/// Refuses that full name, where the files that are reached declare it more than once.
#[tactic(auto, using(crate::proofs::Blaming::blames_left, crate::proofs::Blaming::blames_right))]
fn check_name(alloc: Global, seen: &Seen<'_>, name: &str) -> Result<(), ElabFailure>
    ensures { Passes result (name_faults seen.now name.now) }
{
    let declarations = declarations_of(seen.declarations, name);
    if times(seen, declarations, false) > 1 {
        return Err(fault(alloc, BEGINNING, ElabErrorKind::TypeDeclaredTwice, name));
    }
    if times(seen, declarations, true) > 1 {
        return Err(fault(
            alloc,
            BEGINNING,
            ElabErrorKind::ExtensionDeclaredTwice,
            name,
        ));
    }
    Ok(())
}

/// Whether the files that are reached declare the full name more than once: as an extension, or
/// else as a message or an enum, those behind maps and groups among them.
pub fn is_declared_twice(seen: &Seen<'_>, name: &str, extension: bool) -> bool
    ensures { (files : List FileSyntax) → TableTells seen.now.declarations.now files
        → result ≡ nat_lt 1 (occurrences name.now
        (flat_map (full_names extension) (picked files seen.now.reach.now))) }
{
    times(seen, declarations_of(seen.declarations, name), extension) > 1
}

/// How many of the declarations, of extensions or else of types, stand in files that are reached.
pub fn times(seen: &Seen<'_>, declarations: &[Declaration], extension: bool) -> usize
    requires { seen.now.declarations.now.in_order ≡ true → FilesAscend declarations.now }
    ensures { result ≡ times extension seen.now.reach.now declarations.now }
{
    if seen.declarations.in_order && seen.reach.len() < declarations.len() {
        return times_by_file(seen, declarations, extension);
    }
    let mut count = 0;
    for declaration in declarations {
        if counts(seen, *declaration, extension) {
            count += 1;
        }
    }
    count
}

/// The same, where the declarations are in the order of the files, by the files that are reached.
fn times_by_file(seen: &Seen<'_>, declarations: &[Declaration], extension: bool) -> usize
    requires ordered { FilesAscend declarations.now }
    requires few { length declarations.now < 2 ^ 64 }
    ensures { result ≡ times extension seen.now.reach.now declarations.now }
{
    let mut count = 0;
    for file in seen.reach {
        count += number_of(in_file(declarations, *file), extension);
    }
    count
}

/// How many of the declarations are of extensions, or else of types.
fn number_of(declarations: &[Declaration], extension: bool) -> usize
    ensures { result ≡ length (filter
        (λ (d : declaration.Declaration). is_of extension d.kind) declarations.now) }
{
    let mut count = 0;
    for declaration in declarations {
        if is_of(declaration.kind, extension) {
            count += 1;
        }
    }
    count
}

/// Whether the declaration, of an extension or else of a type, stands in a file that is reached.
fn counts(seen: &Seen<'_>, declaration: Declaration, extension: bool) -> bool
    ensures { let reach = seen.now.reach.now in
        result ≡ (is_of extension declaration.kind && list_any (nat_eq declaration.file) reach) }
{
    is_of(declaration.kind, extension) && is_reached(seen, declaration.file)
}

/// Whether this is what an extension is declared as, or else what a type is.
pub fn is_of(kind: DeclarationKind, extension: bool) -> bool
    ensures { result ≡ is_of extension kind }
{
    match kind {
        DeclarationKind::Message | DeclarationKind::Enum | DeclarationKind::Generated => !extension,
        DeclarationKind::Extension => extension,
    }
}

/// Whether the file with that number is reached.
pub fn is_reached(seen: &Seen<'_>, file: u32) -> bool
    ensures { result ≡ list_any (nat_eq file) seen.now.reach.now }
{
    seen.reach.binary_search(&file).is_ok()
}
