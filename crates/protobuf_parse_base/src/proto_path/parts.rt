//! The parts of paths.
ghost use Rattle.std.specs.Prelude.{◌≡◌, ◌++◌, flat_map, IfOk, OnOk};
ghost use Rattle.std.specs.String.{string_bytes};
ghost use Rattle.protobuf_parse_base.specs.PathParts.{part_behind};
ghost use Rattle.protobuf_parse_base.specs.Paths.{joined, kept_parts};
ghost use Rattle.protobuf_parse_base.specs.PathViews.{part_texts};

use std::alloc::{AllocError, Global};

/// The parts of a path: what stands between slashes, without the empty ones and `.`. The one error
/// is that memory is short.
pub fn kept_parts<'a>(alloc: Global, path: &'a str) -> Result<Vec<&'a str>, AllocError>
    ensures { IfOk result (λ v. part_texts v.items ≡ kept_parts path.now) }
{
    let mut parts = Vec::new(alloc);
    for part in path.split('/') {
        if !part.is_empty() && part != "." {
            parts.push(part)?;
        }
    }
    Ok(parts)
}

/// The parts with slashes between them. The one error is that memory is short.
pub fn join_parts(alloc: Global, parts: &[&str]) -> Result<String, AllocError>
    ensures { IfOk result (λ s. string_bytes s ≡ joined (part_texts parts.now)) }
{
    let Some((first, others)) = parts.split_first() else {
        return Ok(String::new(alloc));
    };
    let mut text = String::from_str(alloc, first)?;
    put_next_parts(&mut text, others)?;
    Ok(text)
}

/// Adds each part, after a slash.
fn put_next_parts(text: &mut String, parts: &[&str]) -> Result<(), AllocError>
    ensures { OnOk result (string_bytes text.new
        ≡ string_bytes text.old ++ flat_map part_behind (part_texts parts.now)) }
{
    for part in parts {
        put_next_part(text, part)?;
    }
    Ok(())
}

/// Adds the part, after a slash.
fn put_next_part(text: &mut String, part: &str) -> Result<(), AllocError>
    ensures { OnOk result (string_bytes text.new ≡ string_bytes text.old ++ part_behind part.now) }
{
    text.push_str("/")?;
    text.push_str(part)
}
