//! Positions of declarations by their full names: of those that have a name, the first.

ghost use Rattle.std.specs.Prelude.{◌≡◌, List, ℕ, OnOk, IfOk, bytes_eq, slice_get, string_bytes};
ghost use Rattle.std.specs.BTreeMap.{get_by_text};
ghost use Rattle.std.specs.Option.{option_and_then, option_copied};
ghost use Rattle.protobuf_parse_index.specs.Kept.{first_at};
ghost use Rattle.protobuf_parse_index.specs.Puts.{PutsPosition};
ghost use Rattle.protobuf_parse_index.specs.Walk.{path_of};
ghost use Rattle.protobuf_parse_index.specs.declared.declared.Declared.{Declared};
ghost use Rattle.protobuf_parse_model.specs.Descriptors.{file_view};

use crate::declared::Declared;
use crate::walk::path_of;
use protobuf_parse_model::FileDescriptorProto;
use std::alloc::{AllocError, Global};
use std::collections::BTreeMap;

/// The position of the first declaration of each name.
pub type Positions = BTreeMap<String, usize>;

/// The positions of the declarations, by their full names.
pub fn positions_of<T>(alloc: Global, declared: &[Declared<'_, T>]) -> Result<Positions, AllocError>
    ensures { IfOk result (λ m. (q : List ℕ) → get_by_text m q
        ≡ first_at (λ d. bytes_eq q (string_bytes d.full_name)) declared.now) }
{
    let mut positions = BTreeMap::new(alloc);
    'declared: for (at, each) in declared.iter().enumerate() {
        put_position(alloc, &mut positions, &each.full_name, at)?;
    }
    Ok(positions)
}

/// The positions of the files, by their paths.
pub fn paths_of(alloc: Global, files: &[FileDescriptorProto]) -> Result<Positions, AllocError>
    ensures { IfOk result (λ m. (q : List ℕ) → get_by_text m q
        ≡ first_at (λ f. bytes_eq q (path_of (file_view f))) files.now) }
{
    let mut positions = BTreeMap::new(alloc);
    'files: for (at, file) in files.iter().enumerate() {
        put_position(alloc, &mut positions, path_of(file), at)?;
    }
    Ok(positions)
}

/// The name has the position, unless it has one already.
fn put_position(
    alloc: Global,
    positions: &mut Positions,
    name: &str,
    at: usize,
) -> Result<(), AllocError>
    ensures { OnOk result (PutsPosition positions.old positions.new name.now at) }
{
    match positions.get(name) {
        Some(_first) => Ok(()),
        None => {
            positions.insert(String::from_str(alloc, name)?, at)?;
            Ok(())
        }
    }
}

/// What has the name.
pub fn at_name<'i, T>(positions: &Positions, items: &'i [T], name: &str) -> Option<&'i T>
    ensures { option_copied result
        ≡ option_and_then (slice_get items.now) (get_by_text positions.now name.now) }
{
    at_position(items, positions.get(name).copied())
}

/// What stands there.
pub fn at_position<'i, T>(items: &'i [T], at: Option<usize>) -> Option<&'i T>
    ensures { option_copied result ≡ option_and_then (slice_get items.now) at }
{
    match at {
        Some(at) => items.get(at),
        None => None,
    }
}
