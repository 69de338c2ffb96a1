//! Occurrences by their numbers.

ghost use Rattle.std.specs.Prelude.{◌≡◌, ◌≤◌, length, drop, map, slice_range, IfOk, OnOk};
ghost use Rattle.protobuf_parse_merged.specs.Inside.{AreOf, IsByNumber, StartsOtherwise};
ghost use Rattle.protobuf_parse_merged.specs.Inside.{occurrence_view};
ghost use Rattle.protobuf_parse_merged.specs.Oneofs as oneofs;

use crate::occurrences::Occurrence;
use crate::oneofs::counting;
use std::alloc::{AllocError, Global};

/// Puts them in ascending order of their numbers. Those of one number stay in their order.
fn sort_by_number(occurrences: &mut Vec<Occurrence<'_, '_>>) -> Result<(), AllocError>
    ensures { OnOk result (IsByNumber (map occurrence_view occurrences.old.items)
        (map occurrence_view occurrences.new.items)) }
{
    occurrences.sort_by_key(|occurrence| occurrence.number)
}

/// Those that count, in ascending order of their numbers.
pub fn by_number<'r, 'a>(
    alloc: Global,
    occurrences: &[Occurrence<'r, 'a>],
) -> Result<Vec<Occurrence<'r, 'a>>, AllocError>
    ensures { IfOk result (λ v. IsByNumber (oneofs.counting (map occurrence_view occurrences.now))
        (map occurrence_view v.items)) }
{
    let mut sorted = counting(alloc, occurrences)?;
    sort_by_number(&mut sorted)?;
    Ok(sorted)
}

/// Where those end that have that number, from `start` on.
pub fn run_end(occurrences: &[Occurrence<'_, '_>], start: usize, number: u32) -> usize
    requires { start ≤ length occurrences.now }
    ensures bounds { (start ≤ result) × (result ≤ length occurrences.now) }
    ensures run { AreOf number
        (map occurrence_view (slice_range occurrences.now start result)) }
    ensures others { StartsOtherwise number (map occurrence_view (drop result occurrences.now)) }
{
    let mut end = start;
    'run: while end < occurrences.len() && occurrences[end].number == number {
        end += 1;
    }
    end
}
