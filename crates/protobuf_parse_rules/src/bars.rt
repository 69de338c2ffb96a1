//! What a message bars its fields from.

ghost use Rattle.std.specs.Prelude.{◌≡◌, IfOk};
ghost use Rattle.std.proofs.Props.{props};
ghost use Rattle.protobuf_parse_rules.specs.Covers.{AreEnds};
ghost use Rattle.protobuf_parse_rules.specs.Bodies.{extension_ranges};
ghost use Rattle.protobuf_parse_rules.specs.BodyViews.{body_view, content_view};
ghost use Rattle.protobuf_parse_rules.specs.Bodies.{reserved_names, reserved_ranges};
ghost use Rattle.protobuf_parse_rules.specs.Ranges.{in_range, in_ranges};
ghost use Rattle.protobuf_parse_rules.specs.Sets.{AreTexts};

use crate::bodies::Body;
use crate::cover::Cover;
use crate::ranges::{kept_cover, reserved_cover};
use crate::words::{Words, words_of};
use std::alloc::{AllocError, Global};

/// A body with the numbers that it reserves and keeps for extensions, and the names that it
/// reserves.
#[derive(Drop)]
pub struct Bars<'a> {
    pub body: &'a Body<'a>,
    pub reserved: Cover,
    pub kept: Cover,
    pub names: Words<'a>,
    pub ghost are_reserved: { AreEnds in_range (reserved_ranges (content_view body.now.holds))
        reserved.firsts.items reserved.lasts.items } by { Prim.hlevel props },
    pub ghost are_kept: { AreEnds in_range (extension_ranges (content_view body.now.holds))
        kept.firsts.items kept.lasts.items } by { Prim.hlevel props },
    pub ghost are_names: { AreTexts names.sorted.items
        (reserved_names (content_view body.now.holds)) } by { Prim.hlevel props },
}

impl Bars<'_> {
    /// Whether the number is reserved.
    pub fn reserves(&self, number: &i32) -> bool
        ensures { result
            ≡ in_ranges number.now (reserved_ranges (content_view self.now.body.now.holds)) }
    {
        self.reserved.has(number)
    }

    /// Whether the number is kept for extensions.
    pub fn keeps(&self, number: &i32) -> bool
        ensures { result
            ≡ in_ranges number.now (extension_ranges (content_view self.now.body.now.holds)) }
    {
        self.kept.has(number)
    }
}

/// Those of the body.
pub fn bars_of<'a>(alloc: Global, body: &'a Body<'a>) -> Result<Bars<'a>, AllocError>
    ensures { IfOk result (λ b. body_view b.body.now ≡ body_view body.now) }
{
    let reserved = reserved_cover(alloc, body.holds.reserved_ranges())?;
    let kept = kept_cover(alloc, body.holds.extension_ranges())?;
    let names = words_of(alloc, body.holds.reserved_names())?;
    Ok(Bars {
        body,
        reserved,
        kept,
        names,
    })
}
