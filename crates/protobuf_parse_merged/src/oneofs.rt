//! Of the members of a oneof only the one that stands last counts.

ghost use Rattle.std.specs.Prelude.{◌≡◌, ◌==◌, ◌++◌, ℕ, List, ◌∷◌, [], map, IfOk, OnOk};
ghost use Rattle.std.specs.Prelude.{if◌then◌else◌};
ghost use Rattle.std.specs.BTreeMap.{get};
ghost use Rattle.std.specs.List.{list_any};
ghost use Rattle.std.specs.Ordering.{nat_cmp};
ghost use Rattle.protobuf_parse_merged.specs.Occurrences.{Occurrence as spec_occurrence};
ghost use Rattle.protobuf_parse_merged.specs.Oneofs as spec;
ghost use Rattle.protobuf_parse_merged.specs.Inside.{occurrence_view};
ghost use Rattle.protobuf_parse_merged.specs.Behind.{HasMembers, next_members, replaced_by};
ghost use Rattle.protobuf_parse_merged.specs.Behind as inside;

use crate::occurrences::Occurrence;
use std::alloc::{AllocError, Global};
use std::collections::BTreeMap;

/// The members of a oneof among some values.
#[derive(Clone, Copy)]
pub enum Members {
    /// One, with that number.
    One(u32),
    Several,
}

/// The members of each oneof, by its position.
type ByOneof = BTreeMap<u32, Members>;

/// The values that count, in order: those that no value of another member of their oneof follows.
pub fn counting<'r, 'a>(
    alloc: Global,
    occurrences: &[Occurrence<'r, 'a>],
) -> Result<Vec<Occurrence<'r, 'a>>, AllocError>
    ensures { IfOk result (λ v. map occurrence_view v.items
        ≡ spec.counting (map occurrence_view occurrences.now)) }
{
    let mut behind = BTreeMap::new(alloc);
    let mut kept = Vec::new(alloc);
    let mut at = occurrences.len();
    'back: while at > 0 {
        at -= 1;
        let occurrence = occurrences[at];
        let replaced = is_replaced(&mut behind, occurrence)?;
        push_unless(replaced, &mut kept, occurrence)?;
    }
    kept.reverse();
    Ok(kept)
}

fn push_unless<'r, 'a>(
    replaced: bool,
    kept: &mut Vec<Occurrence<'r, 'a>>,
    occurrence: Occurrence<'r, 'a>,
) -> Result<(), AllocError>
    ensures { OnOk result (map occurrence_view kept.new.items
        ≡ map occurrence_view kept.old.items
        ++ (if replaced then [] else occurrence_view occurrence.entry ∷ [])) }
{
    if replaced {
        return Ok(());
    }
    kept.push(occurrence)?;
    Ok(())
}

/// Whether one of the values behind replaces this one, which then is one of them.
fn is_replaced(behind: &mut ByOneof, occurrence: Occurrence<'_, '_>) -> Result<bool, AllocError>
    ensures answer { (os : List spec_occurrence) → HasMembers behind.old os
        → IfOk result (λ b. b ≡ list_any (spec.replaces (occurrence_view occurrence.entry)) os) }
    ensures noted { (os : List spec_occurrence) → HasMembers behind.old os
        → OnOk result (HasMembers behind.new (occurrence_view occurrence.entry ∷ os)) }
{
    match occurrence.oneof {
        Some(oneof) => note(behind, oneof, occurrence.number),
        None => Ok(false),
    }
}

/// The same of a member of that oneof with that number.
fn note(behind: &mut ByOneof, oneof: u32, number: u32) -> Result<bool, AllocError>
    ensures answer { IfOk result (λ b. b ≡ replaced_by (get nat_cmp behind.old oneof) number) }
    ensures noted { OnOk result ((k : ℕ) → get nat_cmp behind.new k
        ≡ next_members (k == oneof) number (get nat_cmp behind.old k)) }
{
    let members = behind.get(&oneof).copied();
    behind.insert(oneof, with_member(members, number))?;
    Ok(have_other(members, number))
}

fn with_member(members: Option<Members>, number: u32) -> Members
    ensures { result ≡ inside.with_member members number }
{
    match members {
        None => Members::One(number),
        Some(Members::One(other)) => {
            if other == number {
                Members::One(other)
            } else {
                Members::Several
            }
        }
        Some(Members::Several) => Members::Several,
    }
}

/// Whether there is another member among these.
fn have_other(members: Option<Members>, number: u32) -> bool
    ensures { result ≡ replaced_by members number }
{
    match members {
        None => false,
        Some(Members::One(other)) => other != number,
        Some(Members::Several) => true,
    }
}
