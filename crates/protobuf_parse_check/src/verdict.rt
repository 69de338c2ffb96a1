//! What is told of a file, by what is wrong in it and what was told of others.

ghost use Rattle.std.specs.Prelude.{◌≡◌, ◌&&◌, ◌||◌, List, not, filter, slice_get, map, IfOk};
ghost use Rattle.std.specs.List.{list_any};
ghost use Rattle.protobuf_parse_model.specs.Faults as elaborating;
ghost use Rattle.protobuf_parse_model.specs.Faults.{fault_view, found};
ghost use Rattle.protobuf_parse_check.specs.Judging as judging;
ghost use Rattle.protobuf_parse_check.specs.Reports as reports;
ghost use Rattle.protobuf_parse_check.specs.Places.{HavePlaces};
ghost use Rattle.protobuf_parse_check.specs.Judging.{any_with, has_fault, has_lost, has_trouble};
ghost use Rattle.protobuf_parse_check.specs.Judging.{is_hidden_by};

use crate::places::{has_place, places_of};
use crate::report::FileState;
use protobuf_parse_model::{ElabError, ElabErrorKind};
use protobuf_parse_syntax::FileTree;
use std::alloc::{AllocError, Global};
use std::collections::BTreeSet;

/// What is told of a file, and what those that import it need to know.
#[derive(Drop)]
pub struct Verdict {
    /// Its tree, without the imports that are told.
    pub tree: FileTree,
    pub state: FileState,
    /// Whether something is wrong in it, its custom options left out.
    pub troubled: bool,
    /// Whether one of its public imports is told.
    pub loses_public: bool,
    /// E5 and E6.
    pub repeats: Vec<ElabError>,
    /// What else is told of it.
    pub faults: Vec<ElabError>,
}

/// Whether something is wrong in one of the files with these numbers, its custom options left out.
pub fn any_troubled(verdicts: &[Verdict], numbers: &[u32]) -> bool
    ensures { result ≡ any_with has_trouble verdicts.now numbers.now }
{
    for number in numbers {
        if is_troubled(verdicts, *number) {
            return true;
        }
    }
    false
}

fn is_troubled(verdicts: &[Verdict], number: u32) -> bool
    ensures { result ≡ has_trouble (slice_get verdicts.now number) }
{
    match verdicts.get(number as usize) {
        Some(verdict) => verdict.troubled,
        None => false,
    }
}

/// Whether something is told of one of the files with these numbers.
pub fn any_faulty(verdicts: &[Verdict], numbers: &[u32]) -> bool
    ensures { result ≡ any_with has_fault verdicts.now numbers.now }
{
    for number in numbers {
        if is_faulty(verdicts, *number) {
            return true;
        }
    }
    false
}

fn is_faulty(verdicts: &[Verdict], number: u32) -> bool
    ensures { result ≡ has_fault (slice_get verdicts.now number) }
{
    match verdicts.get(number as usize) {
        Some(verdict) => is_faulty_state(verdict.state),
        None => false,
    }
}

fn is_faulty_state(state: FileState) -> bool
    ensures { result ≡ judging.is_faulty_state state }
{
    match state {
        FileState::Faulty => true,
        FileState::Sound | FileState::HeldUp => false,
    }
}

/// Whether a public import of one of the files with these numbers is told.
pub fn any_loses_public(verdicts: &[Verdict], numbers: &[u32]) -> bool
    ensures { result ≡ any_with has_lost verdicts.now numbers.now }
{
    for number in numbers {
        if loses_public(verdicts, *number) {
            return true;
        }
    }
    false
}

fn loses_public(verdicts: &[Verdict], number: u32) -> bool
    ensures { result ≡ has_lost (slice_get verdicts.now number) }
{
    match verdicts.get(number as usize) {
        Some(verdict) => verdict.loses_public,
        None => false,
    }
}

/// Those of the faults that aren't hidden: E2 and E3 are where names may be missing, E1 where one
/// of the faults `repeats` stands at its place.
pub fn shown(
    alloc: Global,
    faults: Vec<ElabError>,
    misses: bool,
    repeats: &[ElabError],
) -> Result<Vec<ElabError>, AllocError>
    ensures { IfOk result (λ rest. found rest
        ≡ filter (λ (f : elaborating.Fault). not (is_hidden_by misses (map fault_view repeats.now) f))
        (found faults)) }
{
    if !misses && repeats.is_empty() {
        return Ok(faults);
    }
    let told = places_of(alloc, repeats)?;
    let mut rest = Vec::new(alloc);
    for fault in faults {
        if !is_hidden(&fault, misses, &told) {
            rest.push(fault)?;
        }
    }
    Ok(rest)
}

/// Whether the fault is hidden, where these are the places of some faults that are told.
fn is_hidden(fault: &ElabError, misses: bool, told: &BTreeSet<u64>) -> bool
    ensures { (repeats : List elaborating.Fault) → HavePlaces repeats told.now
        → result ≡ is_hidden_by misses repeats (fault_view fault.now) }
{
    match fault.kind {
        ElabErrorKind::NotFoundByAbsPath | ElabErrorKind::NotFoundByRelPath => misses,
        ElabErrorKind::DuplicateName => has_place(told, fault.place),
        _ => false,
    }
}

/// What became of a file of which something is told or not, and so of one below it.
pub fn state_by(faulty: bool, below: bool) -> FileState
    ensures { result ≡ reports.state_by faulty below }
{
    if faulty {
        FileState::Faulty
    } else if below {
        FileState::HeldUp
    } else {
        FileState::Sound
    }
}
