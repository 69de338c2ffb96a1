//! Positions of declarations by their names and paths, and of locations by their paths: of several
//! with one name or path, that of the first.

ghost use Rattle.std.specs.Prelude.{◌≡◌, ◌&&◌, ◌==◌, ℕ, List, Some, None, OnOk, IfOk, bytes_eq};
ghost use Rattle.std.specs.Prelude.{slice_get, string_bytes, if◌then◌else◌};
ghost use Rattle.std.specs.BTreeMap.{get_by_text};
ghost use Rattle.std.specs.Option.{option_and_then, option_copied, option_or};
ghost use Rattle.protobuf_parse_source_info.specs.Parts.{at as inside};
ghost use Rattle.protobuf_parse_source_info.specs.Walks.{Path};
ghost use Rattle.protobuf_parse_locations.specs.Kept.{first_at, part_kept, path_kept};

use crate::declaration::Declaration;
use protobuf_parse_source_info::Location;
use std::alloc::{AllocError, Global};
use std::collections::BTreeMap;

/// The position of the first of each name.
pub type ByName = BTreeMap<String, usize>;

/// The position of the first of each path.
pub type ByPath = BTreeMap<Vec<u32>, usize>;

/// The position of the first of each path that is not empty: by its last number, and then by what
/// stands before that.
pub type ByPart = BTreeMap<u32, ByPath>;

/// The positions of the declarations by their full names.
pub fn by_names(alloc: Global, declarations: &[Declaration]) -> Result<ByName, AllocError>
    ensures { IfOk result (λ m. (q : List ℕ) → get_by_text m q
        ≡ first_at (λ d. bytes_eq q (string_bytes d.full_name)) declarations.now) }
{
    let mut positions = BTreeMap::new(alloc);
    'declared: for (at, each) in declarations.iter().enumerate() {
        put_name(alloc, &mut positions, &each.full_name, at)?;
    }
    Ok(positions)
}

/// The positions of the declarations by their paths.
pub fn by_paths(alloc: Global, declarations: &[Declaration]) -> Result<ByPath, AllocError>
    ensures { IfOk result (λ m. (q : Path) → path_kept m q
        ≡ first_at (λ d. bytes_eq q d.path.items) declarations.now) }
{
    let mut positions = BTreeMap::new(alloc);
    'declared: for (at, each) in declarations.iter().enumerate() {
        put_path(alloc, &mut positions, &each.path, at)?;
    }
    Ok(positions)
}

/// The positions of the locations by their paths.
pub fn by_parts(alloc: Global, locations: &[Location<'_>]) -> Result<ByPart, AllocError>
    ensures { IfOk result (λ m. (q : Path) (n : ℕ) → part_kept m q n
        ≡ first_at (λ l. bytes_eq (inside q n) l.path.items) locations.now) }
{
    let mut positions = BTreeMap::new(alloc);
    'locations: for (at, location) in locations.iter().enumerate() {
        put_location(alloc, &mut positions, &location.path, at)?;
    }
    Ok(positions)
}

/// The name has the position, unless it has one already.
fn put_name(alloc: Global, positions: &mut ByName, name: &str, at: usize) -> Result<(), AllocError>
    ensures { OnOk result ((q : List ℕ) → get_by_text positions.new q
        ≡ option_or (get_by_text positions.old q)
        (if bytes_eq q name.now then Some at else None)) }
{
    match positions.get(name) {
        Some(_first) => Ok(()),
        None => {
            positions.insert(String::from_str(alloc, name)?, at)?;
            Ok(())
        }
    }
}

/// The path has the position, unless it has one already.
fn put_path(
    alloc: Global,
    positions: &mut ByPath,
    path: &[u32],
    at: usize,
) -> Result<(), AllocError>
    ensures { OnOk result ((q : Path) → path_kept positions.new q
        ≡ option_or (path_kept positions.old q)
        (if bytes_eq q path.now then Some at else None)) }
{
    match positions.get(path) {
        Some(_first) => Ok(()),
        None => {
            positions.insert(Vec::from_slice(alloc, path)?, at)?;
            Ok(())
        }
    }
}

/// The path, unless it is empty, has the position, unless it has one already.
fn put_location(
    alloc: Global,
    positions: &mut ByPart,
    path: &[u32],
    at: usize,
) -> Result<(), AllocError>
    ensures { OnOk result ((q : Path) (n : ℕ) → part_kept positions.new q n
        ≡ option_or (part_kept positions.old q n)
        (if bytes_eq (inside q n) path.now then Some at else None)) }
{
    match path.split_last() {
        Some((number, before)) => put_part(alloc, positions, before, *number, at),
        None => Ok(()),
    }
}

/// The part of that number has the position, unless it has one already.
fn put_part(
    alloc: Global,
    positions: &mut ByPart,
    before: &[u32],
    number: u32,
    at: usize,
) -> Result<(), AllocError>
    ensures { OnOk result ((q : Path) (n : ℕ) → part_kept positions.new q n
        ≡ option_or (part_kept positions.old q n)
        (if n == number && bytes_eq q before.now then Some at else None)) }
{
    let with_number = positions.entry(number)?.or_insert(BTreeMap::new(alloc));
    put_path(alloc, with_number, before, at)?;
    Ok(())
}

/// The position of the first whose path is this one, with the number behind it.
pub fn position_of_part(positions: &ByPart, path: &[u32], number: u32) -> Option<usize>
    ensures { result ≡ part_kept positions.now path.now number }
{
    match positions.get(&number) {
        Some(with_number) => with_number.get(path).copied(),
        None => None,
    }
}

/// What stands at the position.
pub fn at_position<'i, T>(items: &'i [T], at: Option<usize>) -> Option<&'i T>
    ensures { option_copied result ≡ option_and_then (slice_get items.now) at }
{
    match at {
        Some(at) => items.get(at),
        None => None,
    }
}
