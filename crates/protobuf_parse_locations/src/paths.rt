//! Paths.

ghost use Rattle.std.specs.Prelude.{◌≡◌, IfOk};
ghost use Rattle.protobuf_parse_source_info.specs.Parts as parts;

use std::alloc::{AllocError, Global};

/// The path of an item of the list in a field.
pub fn nth(alloc: Global, path: &[u32], field: u32, index: u32) -> Result<Vec<u32>, AllocError>
    ensures { IfOk result (λ p. p.items ≡ parts.nth path.now field index) }
{
    let mut longer = Vec::from_slice(alloc, path)?;
    longer.extend_from_slice(&[field, index])?;
    Ok(longer)
}

/// The index behind an index, as locations count.
pub fn next(index: u32) -> u32
    ensures { result ≡ parts.next index }
{
    index.saturating_add(1)
}
