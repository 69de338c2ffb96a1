//! A quick test that names differ.

ghost use Rattle.std.specs.Prelude.{◌≡◌, List, map, true, IfOk, []};
ghost use Rattle.protobuf_parse_model.specs.ByHash.{hash_of};
ghost use Rattle.protobuf_parse_model.specs.Duplicates.{NamedAt, duplicates};

use crate::constructs::names::Named;
use protobuf_parse_model::{are_apart, hash_of};
use std::alloc::{AllocError, Global};

/// Whether the items have names of different hashes, so that no name stands among those before it.
/// Names that differ seldom share a hash; where some do, this is no answer.
// Inlined: 0.6 % of the instructions for scalars, with five more of this crate.
#[inline(always)]
#[tactic(auto, using(crate::proofs::Unlike::few_unlike))]
pub fn are_unlike<T: Named>(alloc: Global, items: &[T]) -> Result<bool, AllocError>
    ensures { IfOk result (λ unlike. unlike ≡ true → (declared : List NamedAt)
        → map T.name_of items.now ≡ map (λ (d : NamedAt). d.name) declared
        → duplicates declared ≡ []) }
{
    if items.len() < 2 {
        return Ok(true);
    }
    have_unlike_hashes(alloc, items)
}

/// The same of two or more, which cost a list of their hashes.
fn have_unlike_hashes<T: Named>(alloc: Global, items: &[T]) -> Result<bool, AllocError>
    ensures { IfOk result (λ unlike. unlike ≡ true → (declared : List NamedAt)
        → map T.name_of items.now ≡ map (λ (d : NamedAt). d.name) declared
        → duplicates declared ≡ []) }
{
    let hashes = hashes_of(alloc, items)?;
    Ok(are_apart(hashes))
}

/// The hashes of the names of these, in their order.
fn hashes_of<T: Named>(alloc: Global, items: &[T]) -> Result<Vec<u64>, AllocError>
    ensures { IfOk result
        (λ hashes. hashes.items ≡ map (λ x. hash_of (T.name_of x)) items.now) }
{
    let mut hashes = Vec::with_capacity(alloc, items.len())?;
    for item in items {
        hashes.push(hash_of(item.name()))?;
    }
    Ok(hashes)
}
