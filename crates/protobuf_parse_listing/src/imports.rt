//! Imports: which are public or weak, and how they begin.

ghost use Rattle.std.specs.Prelude.{◌≡◌, ℕ, IfOk};
ghost use Rattle.std.specs.Ordering.{nat_cmp};
ghost use Rattle.std.specs.BTreeSet.{contains};
ghost use Rattle.protobuf_parse_listing.specs.Listing as spec;

use std::alloc::{AllocError, Global};
use std::collections::BTreeSet;

/// The positions of imports as a set: of public or of weak ones, from 0 on. Numbers below 0 are no
/// positions. The one error is that memory is short.
pub fn positions(alloc: Global, listed: &[i32]) -> Result<BTreeSet<usize>, AllocError>
    ensures { IfOk result (λ s. (i : ℕ) → contains nat_cmp s i ≡ spec.is_position i listed.now) }
{
    let mut positions = BTreeSet::new(alloc);
    for position in listed {
        match position_of(position) {
            Some(position) => {
                positions.insert(position)?;
            }
            None => {}
        }
    }
    Ok(positions)
}

/// The number as a position, from 0 on.
fn position_of(listed: &i32) -> Option<usize>
    ensures { result ≡ spec.position_of listed.now }
{
    if *listed < 0 {
        None
    } else {
        Some(listed.unsigned_abs() as usize)
    }
}

/// The words in front of the path of an import, with a blank at their end.
pub fn import_words(is_public: bool, is_weak: bool) -> &'static str
    ensures { result.now ≡ spec.import_words is_public is_weak }
{
    if is_public {
        "import public "
    } else if is_weak {
        "import weak "
    } else {
        "import "
    }
}
