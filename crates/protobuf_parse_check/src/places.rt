//! Places of faults, to find one among many.

ghost use Rattle.std.specs.Prelude.{◌≡◌, ◌<◌, IfOk, map};
ghost use Rattle.protobuf_parse_model.specs.Faults.{fault_view};
ghost use Rattle.protobuf_parse_check.specs.Places.{HavePlaces, has_place, place_number};

use protobuf_parse_lexer::Place;
use protobuf_parse_model::ElabError;
use std::alloc::{AllocError, Global};
use std::collections::BTreeSet;

/// The places of the faults, as numbers. The one error is that memory is short.
pub fn places_of(alloc: Global, faults: &[ElabError]) -> Result<BTreeSet<u64>, AllocError>
    ensures { IfOk result (HavePlaces (map fault_view faults.now)) }
{
    let mut places = BTreeSet::new(alloc);
    'faults: for fault in faults {
        places.insert(place_number(fault.place))?;
    }
    Ok(places)
}

/// Whether the place is among these.
pub fn has_place(places: &BTreeSet<u64>, place: Place) -> bool
    ensures kept { result ≡ has_place places.now place }
    ensures bound { place.col < 4294967296 }
{
    places.contains(&place_number(place))
}

/// The number of the place: no two have one.
fn place_number(place: Place) -> u64
    ensures number { result ≡ place_number place }
    ensures bound { place.col < 4294967296 }
{
    u64::from(place.line) * 4294967296 + u64::from(place.col)
}
