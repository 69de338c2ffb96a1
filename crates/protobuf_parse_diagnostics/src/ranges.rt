//! Where files have ranges of numbers.

use crate::outline::Outline;
use protobuf_parse_syntax::{FieldNumberRange, Place};
use std::alloc::{AllocError, Global};
use std::collections::BTreeMap;

/// The statements of a file that have ranges, by the full names of the messages and the enums that
/// they are of.
#[derive(Drop)]
pub struct RangePlaces<'o> {
    sites: BTreeMap<&'o str, Sites>,
}

/// The first statement with each range.
#[derive(Drop)]
struct Sites {
    /// By the number at which the range begins.
    starts: BTreeMap<i32, Place>,
    /// Of ranges that end before they begin, likewise.
    empties: BTreeMap<i32, Place>,
    /// By the number behind the range.
    ends: BTreeMap<i32, Place>,
}

impl<'o> RangePlaces<'o> {
    /// Those of an outline. The one error is that memory is short.
    pub fn of(alloc: Global, outline: &'o Outline<'_>) -> Result<Self, AllocError> {
        let mut sites = BTreeMap::new(alloc);
        for each in &outline.ranges {
            let of = sites.entry(each.of.as_str())?.or_insert(Sites::none(alloc));
            for range in each.ranges {
                of.add(*range, each.place)?;
            }
        }
        Ok(RangePlaces { sites })
    }

    /// The first statement with a range that begins at this number.
    pub fn starting(&self, of: &str, start: i32) -> Option<Place> {
        self.sites.get(of)?.starts.get(&start).copied()
    }

    /// The first statement with a range that begins at this number and ends before it.
    pub fn empty(&self, of: &str, start: i32) -> Option<Place> {
        self.sites.get(of)?.empties.get(&start).copied()
    }

    /// The first statement with a range behind which this number is the next.
    pub fn before(&self, of: &str, end: i32) -> Option<Place> {
        self.sites.get(of)?.ends.get(&end).copied()
    }
}

impl Sites {
    fn none(alloc: Global) -> Self {
        Sites {
            starts: BTreeMap::new(alloc),
            empties: BTreeMap::new(alloc),
            ends: BTreeMap::new(alloc),
        }
    }

    fn add(&mut self, range: FieldNumberRange, place: Place) -> Result<(), AllocError> {
        let FieldNumberRange { from, to } = range;
        self.starts.entry(from)?.or_insert(place);
        if to < from {
            self.empties.entry(from)?.or_insert(place);
        }
        if let Some(end) = to.checked_add(1) {
            self.ends.entry(end)?.or_insert(place);
        }
        Ok(())
    }
}
