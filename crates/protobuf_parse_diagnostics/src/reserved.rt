//! Where files reserve names.

use crate::outline::Outline;
use protobuf_parse_syntax::Place;
use std::alloc::{AllocError, Global};
use std::collections::BTreeMap;

/// The statements of a file that reserve names, by the full names of the messages and the enums that
/// they are of.
#[derive(Drop)]
pub struct ReservedPlaces<'o> {
    names: BTreeMap<&'o str, BTreeMap<&'o str, ReservedAt>>,
}

/// The first two statements that reserve a name; one that has it twice counts as both.
#[derive(Clone, Copy)]
struct ReservedAt {
    first: Place,
    second: Option<Place>,
}

impl<'o> ReservedPlaces<'o> {
    /// Those of an outline. The one error is that memory is short.
    pub fn of(alloc: Global, outline: &'o Outline<'_>) -> Result<Self, AllocError> {
        let mut names = BTreeMap::new(alloc);
        for each in &outline.reserved {
            let of = names
                .entry(each.of.as_str())?
                .or_insert(BTreeMap::new(alloc));
            for name in each.names {
                add(of, name, each.place)?;
            }
        }
        Ok(ReservedPlaces { names })
    }

    /// The second statement that reserves the name.
    pub fn second(&self, of: &str, name: &str) -> Option<Place> {
        self.names.get(of)?.get(name)?.second
    }
}

fn add<'o>(
    names: &mut BTreeMap<&'o str, ReservedAt>,
    name: &'o str,
    place: Place,
) -> Result<(), AllocError> {
    let at = match names.get(name) {
        None => ReservedAt {
            first: place,
            second: None,
        },
        Some(at) => ReservedAt {
            first: at.first,
            second: Some(at.second.unwrap_or(place)),
        },
    };
    names.insert(name, at)?;
    Ok(())
}
