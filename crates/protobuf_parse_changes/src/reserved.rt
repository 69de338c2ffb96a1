//! Numbers and names that messages and enums reserve.

ghost use Rattle.std.specs.Prelude.{◌≡◌, map, string_bytes};
ghost use Rattle.protobuf_parse_changes.specs.Reserved as spec;
ghost use Rattle.protobuf_parse_model.specs.Descriptors.{enum_range_view, reserved_range_view};

use protobuf_parse_model::{EnumReservedRange, ReservedRange};

/// Whether the number is in a range, whose end isn't among its numbers.
pub fn in_ranges(number: i32, ranges: &[ReservedRange]) -> bool
    ensures { result ≡ spec.in_ranges number (map reserved_range_view ranges.now) }
{
    ranges
        .iter()
        .any(|range| range.start <= number && number < range.end)
}

/// Whether the number is in a range of an enum, whose end is among its numbers.
pub fn in_enum_ranges(number: i32, ranges: &[EnumReservedRange]) -> bool
    ensures { result ≡ spec.in_enum_ranges number (map enum_range_view ranges.now) }
{
    ranges
        .iter()
        .any(|range| range.start <= number && number <= range.end)
}

/// Whether the name is one of these.
pub fn is_among(name: &str, names: &[String]) -> bool
    ensures { result ≡ spec.is_among name.now (map string_bytes names.now) }
{
    names.iter().any(|each| name == each.as_str())
}
