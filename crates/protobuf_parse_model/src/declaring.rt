//! Which files declare a full name.

ghost use Rattle.std.specs.Prelude.{◌≡◌, ℕ, ◌∷◌, [], List, filter, nat_lt, slice_get, IfOk};
ghost use Rattle.protobuf_parse_syntax.specs.Trees.{FileSyntax};
ghost use Rattle.protobuf_parse_model.specs.Linking.{declares_name};
ghost use Rattle.protobuf_parse_model.specs.SeenFiles.{declared_as};
ghost use Rattle.protobuf_parse_model.specs.Tables.{TableTells};
ghost use Rattle.protobuf_parse_model.specs.TableParts.{times};

use crate::linking::times;
use crate::scope::{Seen, declarations_of};
use std::alloc::{AllocError, Global};
use std::slice;

/// The numbers of the files, among those that are reached, that declare this full name, which has
/// its first dot: as an extension, or else as a message or an enum, those behind maps and groups
/// with them. They ascend. The one error is that memory is short.
pub fn declaring_files(
    alloc: Global,
    seen: &Seen<'_>,
    name: &str,
    extension: bool,
) -> Result<Vec<u32>, AllocError>
    ensures { (files : List FileSyntax) → TableTells seen.now.declarations.now files
        → IfOk result (λ numbers. numbers.items
        ≡ filter (λ (n : ℕ). declares_name extension name.now (slice_get files n))
        seen.now.reach.now) }
{
    let mut numbers = Vec::new(alloc);
    for file in seen.reach {
        if is_declared_in(seen, name, extension, *file) {
            numbers.push(*file)?;
        }
    }
    Ok(numbers)
}

/// Whether the file with that number declares the full name so.
fn is_declared_in(seen: &Seen<'_>, name: &str, extension: bool, file: u32) -> bool
    ensures { result ≡ nat_lt 0 (times extension (file ∷ [])
        (declared_as seen.now.declarations.now name.now)) }
{
    let alone = Seen {
        declarations: seen.declarations,
        sight: seen.sight,
        reach: slice::from_ref(&file),
    };
    times(&alone, declarations_of(seen.declarations, name), extension) > 0
}
