//! From what a walk finds to locations with their comments.

ghost use Rattle.std.specs.Prelude.{◌≡◌, ◌-◌, IfOk, OnOk, map, flat_map, option_map, take, drop};
ghost use Rattle.std.specs.Prelude.{◌++◌, Some};
ghost use Rattle.protobuf_parse_comments.specs.Views.{comments_view};
ghost use Rattle.protobuf_parse_source_info.specs.Info as info;
ghost use Rattle.protobuf_parse_source_info.specs.InnerViews.{found_view, gaps_view};
ghost use Rattle.protobuf_parse_source_info.specs.Views.{comment_bytes, location_view};

use crate::found::{Between, Found, Gaps};
use crate::info::{Location, Span};
use protobuf_parse_comments::{Comments, Gap, comments};
use std::alloc::{AllocError, Global};

/// Whether a bracket that closes, or nothing, stands behind so many bytes.
fn is_closed(text: &[u8], byte: usize) -> bool
    ensures { result ≡ info.is_closed text.now byte }
{
    if text.len() <= byte {
        return true;
    }
    matches!(text[byte], b'}' | b']' | b')')
}

/// The bytes of the gap.
fn bytes_in<'a>(text: &'a [u8], gap: Between) -> &'a [u8]
    ensures { result.now ≡ take (gap.to - gap.from) (drop gap.from text.now) }
{
    if text.len() <= gap.from {
        return &[];
    }
    let behind = &text[gap.from..];
    let len = gap.to.saturating_sub(gap.from);
    if len < behind.len() {
        &behind[..len]
    } else {
        behind
    }
}

/// The comments in the gap.
fn comments_in(alloc: Global, text: &[u8], gap: Between) -> Result<Comments, AllocError>
    ensures { IfOk result (λ c. comments_view c ≡ info.comments_in text.now gap) }
{
    let gap = Gap {
        bytes: bytes_in(text, gap),
        is_first: gap.from == 0,
        is_closed: is_closed(text, gap.to),
    };
    comments(alloc, gap)
}

/// A comment, unless it is empty.
fn said(comment: Option<Vec<u8>>) -> Option<Vec<u8>>
    ensures { option_map comment_bytes result ≡ info.said (option_map comment_bytes comment) }
{
    match comment {
        Some(text) if text.is_empty() => None,
        _ => comment,
    }
}

/// The comments of a declaration.
#[derive(Drop)]
struct Around {
    leading: Option<Vec<u8>>,
    trailing: Option<Vec<u8>>,
    detached: Vec<Vec<u8>>,
}

/// Adds the detached comments in a gap.
fn add_detached(
    alloc: Global,
    text: &[u8],
    gap: &Between,
    detached: &mut Vec<Vec<u8>>,
) -> Result<(), AllocError>
    ensures { OnOk result (map comment_bytes detached.new.items
        ≡ map comment_bytes detached.old.items ++ (info.comments_in text.now gap.now).detached) }
{
    let comments = comments_in(alloc, text, *gap)?;
    let mut more = comments.detached;
    detached.append(&mut more)?;
    Ok(())
}

/// The detached comments in these gaps.
fn detached_in(alloc: Global, text: &[u8], gaps: &[Between]) -> Result<Vec<Vec<u8>>, AllocError>
    ensures { IfOk result (λ v. map comment_bytes v.items
        ≡ flat_map (λ g. (info.comments_in text.now g).detached) gaps.now) }
{
    let mut detached = Vec::new(alloc);
    'gaps: for gap in gaps {
        add_detached(alloc, text, gap, &mut detached)?;
    }
    Ok(detached)
}

/// The comments of a declaration with these gaps around it.
fn comments_around(alloc: Global, text: &[u8], gaps: &Gaps) -> Result<Around, AllocError>
    ensures leading { IfOk result (λ a. option_map comment_bytes a.leading
        ≡ info.leading text.now (Some (gaps_view gaps.now))) }
    ensures trailing { IfOk result (λ a. option_map comment_bytes a.trailing
        ≡ info.trailing text.now (Some (gaps_view gaps.now))) }
    ensures detached { IfOk result (λ a. map comment_bytes a.detached.items
        ≡ info.detached text.now (Some (gaps_view gaps.now))) }
{
    let mut detached = detached_in(alloc, text, gaps.skipped.as_slice())?;
    let before = comments_in(alloc, text, gaps.before)?;
    let behind = comments_in(alloc, text, gaps.behind)?;
    let mut more = before.detached;
    detached.append(&mut more)?;
    Ok(Around {
        leading: said(before.leading),
        trailing: said(behind.trailing),
        detached,
    })
}

/// The comments of a location.
fn comments_of(alloc: Global, text: &[u8], gaps: &Option<Gaps>) -> Result<Around, AllocError>
    ensures leading { IfOk result (λ a. option_map comment_bytes a.leading
        ≡ info.leading text.now (option_map gaps_view gaps.now)) }
    ensures trailing { IfOk result (λ a. option_map comment_bytes a.trailing
        ≡ info.trailing text.now (option_map gaps_view gaps.now)) }
    ensures detached { IfOk result (λ a. map comment_bytes a.detached.items
        ≡ info.detached text.now (option_map gaps_view gaps.now)) }
{
    match gaps {
        Some(gaps) => comments_around(alloc, text, gaps),
        None => Ok(Around {
            leading: None,
            trailing: None,
            detached: Vec::new(alloc),
        }),
    }
}

/// A location with its comments.
fn location<'a>(alloc: Global, text: &[u8], found: Found<'a>) -> Result<Location<'a>, AllocError>
    ensures { IfOk result (λ l. location_view l ≡ info.location text.now (found_view found.entry)) }
{
    let Around {
        leading,
        trailing,
        detached,
    } = comments_of(alloc, text, &found.gaps)?;
    Ok(Location {
        path: found.path,
        span: Span {
            start: found.from.place,
            end: found.to.place,
        },
        leading_comments: leading,
        trailing_comments: trailing,
        leading_detached_comments: detached,
        option: found.option,
    })
}

/// All of them.
pub fn located<'a>(
    alloc: Global,
    text: &[u8],
    found: Vec<Found<'a>>,
) -> Result<Vec<Location<'a>>, AllocError>
    ensures { IfOk result (λ v. map location_view v.items
        ≡ map (info.location text.now) (map found_view found.entry.items)) }
{
    let mut locations = Vec::with_capacity(alloc, found.len())?;
    'found: for one in found {
        locations.push(location(alloc, text, one)?)?;
    }
    Ok(locations)
}
