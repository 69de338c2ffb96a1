//! Locations as the bytes of a `SourceCodeInfo`.

ghost use Rattle.std.specs.Prelude.{◌≡◌, ◌++◌, IfOk, OnOk, flat_map, map, option_to_list};
ghost use Rattle.std.specs.Prelude.{option_map};
ghost use Rattle.protobuf_parse_wire.specs.Encoded.{varint_of};
ghost use Rattle.protobuf_parse_source_info.specs.Views.{comment_bytes, info_view, location_view};
ghost use Rattle.protobuf_parse_option_paths.specs.Bytes as spec;

use protobuf_parse_source_info::{Location, SourceCodeInfo, Span};
use protobuf_parse_wire::put_message;
use std::alloc::{AllocError, Global};

/// The locations as the bytes of a `SourceCodeInfo`, which a file of a set has as its field 9,
/// `source_code_info`. The one error is that memory is short.
///
/// ```text
/// let bytes = source_info_bytes(alloc, &with_option_paths(alloc, &files, file, info)?)?;
/// ```
pub fn source_info_bytes(alloc: Global, info: &SourceCodeInfo<'_>) -> Result<Vec<u8>, AllocError>
    ensures { IfOk result (λ v. v.items ≡ spec.info_bytes (info_view info.now)) }
{
    let mut out = Vec::new(alloc);
    'locations: for location in &info.location {
        put_message(&mut out, 1, &location_bytes(alloc, location)?)?;
    }
    Ok(out)
}

/// The bytes of one.
fn location_bytes(alloc: Global, location: &Location<'_>) -> Result<Vec<u8>, AllocError>
    ensures { IfOk result (λ v. v.items ≡ spec.location_bytes (location_view location.now)) }
{
    let mut out = Vec::new(alloc);
    put_packed(&mut out, 1, &path_numbers(alloc, &location.path)?)?;
    put_packed(&mut out, 2, &span_numbers(alloc, location.span)?)?;
    put_if_some(&mut out, 3, &location.leading_comments)?;
    put_if_some(&mut out, 4, &location.trailing_comments)?;
    put_all(&mut out, 6, &location.leading_detached_comments)?;
    Ok(out)
}

/// Adds a field with packed numbers, if there are any.
fn put_packed(out: &mut Vec<u8>, number: u32, numbers: &[u8]) -> Result<(), AllocError>
    ensures { OnOk result (out.new.items ≡ out.old.items ++ spec.field_if_any number numbers.now) }
{
    if numbers.is_empty() {
        return Ok(());
    }
    put_message(out, number, numbers)
}

/// Adds a field with the comment, if there is one.
fn put_if_some(out: &mut Vec<u8>, number: u32, comment: &Option<Vec<u8>>) -> Result<(), AllocError>
    ensures { OnOk result (out.new.items ≡ out.old.items
        ++ flat_map (spec.field number) (option_to_list (option_map comment_bytes comment.now))) }
{
    match comment {
        Some(comment) => put_message(out, number, comment),
        None => Ok(()),
    }
}

/// Adds a field with each of the comments.
fn put_all(out: &mut Vec<u8>, number: u32, comments: &[Vec<u8>]) -> Result<(), AllocError>
    ensures { OnOk result (out.new.items ≡ out.old.items
        ++ flat_map (spec.field number) (map comment_bytes comments.now)) }
{
    'each: for comment in comments {
        put_message(out, number, comment)?;
    }
    Ok(())
}

/// The numbers of a path, packed.
fn path_numbers(alloc: Global, path: &[u32]) -> Result<Vec<u8>, AllocError>
    ensures { IfOk result (λ v. v.items ≡ flat_map varint_of path.now) }
{
    let mut out = Vec::new(alloc);
    'numbers: for number in path {
        put_varint(&mut out, u64::from(*number))?;
    }
    Ok(out)
}

/// The numbers of a span, packed.
fn span_numbers(alloc: Global, span: Span) -> Result<Vec<u8>, AllocError>
    ensures { IfOk result (λ v. v.items ≡ flat_map varint_of (spec.span_numbers span)) }
{
    let mut out = Vec::new(alloc);
    put_varint(&mut out, span.start.line)?;
    put_varint(&mut out, span.start.column)?;
    if span.start.line != span.end.line {
        put_varint(&mut out, span.end.line)?;
    }
    put_varint(&mut out, span.end.column)?;
    Ok(out)
}

/// Writes the shortest varint.
fn put_varint(out: &mut Vec<u8>, number: u64) -> Result<(), AllocError>
    ensures { OnOk result (out.new.items ≡ out.old.items ++ varint_of number) }
{
    let mut rest = number;
    'groups: while rest >= 128 {
        out.push((rest & 0x7f) as u8 | 0x80)?;
        rest >>= 7;
    }
    out.push(rest as u8)?;
    Ok(())
}
