//! What is reserved in enums and messages, and the ranges of messages.

ghost use Rattle.std.specs.Prelude.{◌≡◌, ◌++◌, map, string_bytes, OnOk};
ghost use Rattle.std.specs.List.{list_any};
ghost use Rattle.protobuf_parse_syntax.specs.Trees.{range_syntax};
ghost use Rattle.protobuf_parse_model.specs.Descriptors as described;
ghost use Rattle.protobuf_parse_elaboration.specs.Enums.{inclusive};
ghost use Rattle.protobuf_parse_elaboration.specs.Messages.{exclusive, is_endless};

use protobuf_parse_model::{EnumReservedRange, ExtensionRange, ReservedRange};
use protobuf_parse_syntax::FieldNumberRange;
use std::alloc::AllocError;

/// Adds these names.
pub fn push_clones(names: &mut Vec<String>, more: &[String]) -> Result<(), AllocError>
    ensures { OnOk result
        (map string_bytes names.new.items ≡ map string_bytes names.old.items
        ++ map string_bytes more.now) }
{
    for name in more {
        names.push(name.clone()?)?;
    }
    Ok(())
}

/// Adds the ranges of an enum, which have both their ends.
pub fn push_inclusive(
    found: &mut Vec<EnumReservedRange>,
    ranges: &[FieldNumberRange],
) -> Result<(), AllocError>
    ensures { OnOk result (map described.enum_range_view found.new.items
        ≡ map described.enum_range_view found.old.items
        ++ map inclusive (map range_syntax ranges.now)) }
{
    for range in ranges {
        found.push(EnumReservedRange {
            start: range.from,
            end: range.to,
        })?;
    }
    Ok(())
}

/// Adds ranges of extensions of a message.
pub fn push_extensions(
    found: &mut Vec<ExtensionRange>,
    ranges: &[FieldNumberRange],
) -> Result<(), AllocError>
    ensures { OnOk result (map described.extension_range_view found.new.items
        ≡ map described.extension_range_view found.old.items
        ++ map exclusive (map range_syntax ranges.now)) }
{
    for range in ranges {
        found.push(extension_range(range))?;
    }
    Ok(())
}

/// Adds reserved ranges of a message.
pub fn push_exclusive(
    found: &mut Vec<ReservedRange>,
    ranges: &[FieldNumberRange],
) -> Result<(), AllocError>
    ensures { OnOk result (map described.reserved_range_view found.new.items
        ≡ map described.reserved_range_view found.old.items
        ++ map exclusive (map range_syntax ranges.now)) }
{
    for range in ranges {
        found.push(reserved_range(range))?;
    }
    Ok(())
}

/// A range of extensions.
fn extension_range(range: &FieldNumberRange) -> ExtensionRange
    ensures { described.extension_range_view result ≡ exclusive (range_syntax range.now) }
{
    ExtensionRange {
        start: range.from,
        end: end_behind(range),
    }
}

/// A reserved range.
fn reserved_range(range: &FieldNumberRange) -> ReservedRange
    ensures { described.reserved_range_view result ≡ exclusive (range_syntax range.now) }
{
    ReservedRange {
        start: range.from,
        end: end_behind(range),
    }
}

/// The number behind the last; the last itself where there is none.
fn end_behind(range: &FieldNumberRange) -> i32
    ensures { result ≡ (exclusive (range_syntax range.now)).end }
{
    if range.to == i32::MAX {
        range.to
    } else {
        range.to + 1
    }
}

/// Whether a range ends at the largest number.
pub fn has_endless(ranges: &[FieldNumberRange]) -> bool
    ensures { result ≡ list_any is_endless (map range_syntax ranges.now) }
{
    for range in ranges {
        if range.to == i32::MAX {
            return true;
        }
    }
    false
}
