//! Ordered maps with any number of values under a name.

ghost use Rattle.std.specs.Prelude.{◌≡◌, ℕ, List, [], ◌∷◌, ◌++◌, OnOk, OnErr, string_bytes};
ghost use Rattle.std.specs.Prelude.{if◌then◌else◌};
ghost use Rattle.std.specs.Str.{bytes_eq};
ghost use Rattle.protobuf_parse_base.specs.Multimaps.{values_under};

use std::alloc::AllocError;
use std::collections::BTreeMap;

/// The values under the name, in the order in which they were put there.
pub fn values<'m, T>(map: &'m BTreeMap<String, Vec<T>>, name: &str) -> &'m [T]
    ensures { result.now ≡ values_under map.now name.now }
{
    match map.get(name) {
        Some(values) => values,
        None => &[],
    }
}

/// Puts the value under the name, behind those that are there. The one error is that memory is
/// short, and then the same values stand under each name.
pub fn put<T: Drop>(
    map: &mut BTreeMap<String, Vec<T>>,
    name: String,
    value: T,
) -> Result<(), AllocError>
    ensures ok { OnOk result ((q : List ℕ)
        → values_under map.new q
        ≡ (if bytes_eq q (string_bytes name) then values_under map.old q ++ value ∷ []
        else values_under map.old q)) }
    ensures kept { OnErr result ((q : List ℕ) → values_under map.new q ≡ values_under map.old q) }
{
    map.entry(name)?.or_default().push(value)?;
    Ok(())
}
