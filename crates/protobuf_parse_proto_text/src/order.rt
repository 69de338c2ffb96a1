//! The order in which fields, extensions and nested messages are written.

ghost use Rattle.std.specs.Prelude.{◌≡◌, ◌∷◌, ◌++◌, ℕ, IfOk, OnOk, drop, length, map};
ghost use Rattle.std.specs.BTreeSet.{contains};
ghost use Rattle.std.specs.Ordering.{nat_cmp};
ghost use Rattle.protobuf_parse_proto_text.specs.Order as spec;
ghost use Rattle.protobuf_parse_proto_text.specs.OrderViews.{block_view, member_view, part_view};

use crate::members::{Block, Member};
use std::alloc::{AllocError, Global};
use std::collections::BTreeSet;

/// What stands in the braces of a message, or in a file.
#[derive(Clone, Copy)]
pub enum Part<'a> {
    Begins(Block<'a>),
    Ends(Block<'a>),
    /// A field or an extension.
    Declares(Member<'a>),
    /// The message at that position.
    Holds(usize),
}

/// The members and so many messages in order: before a block the messages up to the next that a
/// member makes, which stands with that member.
pub fn parts_of<'a>(
    alloc: Global,
    count: usize,
    members: &[Member<'a>],
) -> Result<Vec<Part<'a>>, AllocError>
    ensures { IfOk result (λ v. map part_view v.items
        ≡ spec.parts_of count (map member_view members.now)) }
{
    let made = made_positions(alloc, members)?;
    let made_set = set_of(alloc, &made)?;
    let mut parts = Vec::new(alloc);
    let mut current = Block::Alone;
    let mut from = 0;
    let mut passed = 0;
    'members: for member in members {
        let to = position_or(&made, passed, count);
        from = add_before(&mut parts, &made_set, current, from, to, member)?;
        parts.push(Part::Declares(*member))?;
        if member.made.is_some() {
            passed += 1;
        }
        current = member.block;
    }
    parts.push(Part::Ends(current))?;
    add_messages(&mut parts, &made_set, from, count)?;
    Ok(parts)
}

/// The positions of the messages that the members make.
fn made_positions(alloc: Global, members: &[Member<'_>]) -> Result<Vec<usize>, AllocError>
    ensures { IfOk result (λ v. v.items ≡ spec.made_positions (map member_view members.now)) }
{
    let mut made = Vec::new(alloc);
    'members: for member in members {
        if let Some(at) = member.made {
            made.push(at)?;
        }
    }
    Ok(made)
}

fn set_of(alloc: Global, made: &[usize]) -> Result<BTreeSet<usize>, AllocError>
    ensures { IfOk result (λ s. (at : ℕ) → contains nat_cmp s at ≡ spec.stands_among made.now at) }
{
    let mut set = BTreeSet::new(alloc);
    for at in made {
        set.insert(*at)?;
    }
    Ok(set)
}

/// The position that stands there, or else the end.
fn position_or(made: &[usize], passed: usize, end: usize) -> usize
    ensures { result ≡ spec.first_or end (drop passed made.now) }
{
    match made.get(passed) {
        Some(at) => *at,
        None => end,
    }
}

/// What stands before a member, where that block is open and the messages from one position to
/// before another are next. It gives the position up to which messages are written then.
fn add_before<'a>(
    parts: &mut Vec<Part<'a>>,
    made: &BTreeSet<usize>,
    current: Block<'a>,
    from: usize,
    to: usize,
    member: &Member<'a>,
) -> Result<usize, AllocError>
    ensures parts { OnOk result (map part_view parts.new.items ≡ map part_view parts.old.items
        ++ spec.parts_before (contains nat_cmp made.now) (block_view current.entry) from to
        (member_view member.now)) }
    ensures written { IfOk result (λ n.
        n ≡ spec.written_before (block_view current.entry) from to (member_view member.now)) }
{
    if goes_on(current, member) {
        return Ok(from);
    }
    parts.push(Part::Ends(current))?;
    add_messages(parts, made, from, to)?;
    parts.push(Part::Begins(member.block))?;
    Ok(from.max(to))
}

/// Whether the member stands in the block that is open. Each group of an extension begins one, so
/// that messages can stand before it.
fn goes_on(current: Block<'_>, member: &Member<'_>) -> bool
    ensures { result ≡ spec.goes_on (block_view current.entry) (member_view member.now) }
{
    match (current, member.block) {
        (Block::Oneof(this, _), Block::Oneof(next, _)) => this == next,
        (Block::Extend(this), Block::Extend(next)) => this == next && member.made.is_none(),
        _ => false,
    }
}

/// The messages from one position to before another that no member makes.
fn add_messages(
    parts: &mut Vec<Part<'_>>,
    made: &BTreeSet<usize>,
    from: usize,
    to: usize,
) -> Result<(), AllocError>
    ensures { OnOk result (map part_view parts.new.items ≡ map part_view parts.old.items
        ++ spec.messages_between (contains nat_cmp made.now) from to) }
{
    for at in from..to {
        if !made.contains(&at) {
            parts.push(Part::Holds(at))?;
        }
    }
    Ok(())
}
