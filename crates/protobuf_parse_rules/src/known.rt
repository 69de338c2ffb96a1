//! Messages and enums, with what is looked up in them.

ghost use Rattle.std.specs.Prelude.{◌≡◌, IfOk, map};
ghost use Rattle.std.proofs.Props.{props};
ghost use Rattle.protobuf_parse_model.specs.Descriptors.{EnumValueDescriptor, enum_value_view};
ghost use Rattle.protobuf_parse_model.specs.Descriptors.{enum_view};
ghost use Rattle.protobuf_parse_rules.specs.Covers.{AreEnds};
ghost use Rattle.protobuf_parse_rules.specs.EnumUses.{value_names};
ghost use Rattle.protobuf_parse_rules.specs.BodyViews.{content_view};
ghost use Rattle.protobuf_parse_rules.specs.Ranges.{in_range, in_ranges, ranges_for_extensions};
ghost use Rattle.protobuf_parse_rules.specs.Sets.{AreTexts};

use crate::bodies::Holds;
use crate::cover::Cover;
use crate::ranges::extension_cover;
use crate::words::Words;
use protobuf_parse_model::{EnumDescriptorProto, EnumValueDescriptorProto};
use std::alloc::{AllocError, Global};

/// A message with its full name, the path of its file and the numbers that it keeps for extensions.
#[derive(Drop)]
pub struct KnownMessage<'a> {
    pub file: &'a str,
    pub name: &'a str,
    pub holds: Holds<'a>,
    pub kept: Cover,
    pub ghost are_kept: { AreEnds in_range (ranges_for_extensions (content_view holds))
        kept.firsts.items kept.lasts.items } by { Prim.hlevel props },
}

impl KnownMessage<'_> {
    /// Whether the message keeps the number for extensions.
    pub fn keeps(&self, number: &i32) -> bool
        ensures { result
            ≡ in_ranges number.now (ranges_for_extensions (content_view self.now.holds)) }
    {
        self.kept.has(number)
    }
}

/// An enum with its full name, the path of its file, whether that is one of proto3, and the names
/// of its values.
#[derive(Drop)]
pub struct KnownEnum<'a> {
    pub file: &'a str,
    pub name: &'a str,
    pub proto3: bool,
    pub each: &'a EnumDescriptorProto,
    pub values: Words<'a>,
    pub ghost are_values: { AreTexts values.sorted.items
        (value_names (enum_view each.now)) } by { Prim.hlevel props },
}

/// The message of that name in that file.
pub fn message_with<'a>(
    alloc: Global,
    file: &'a str,
    name: &'a str,
    holds: Holds<'a>,
) -> Result<KnownMessage<'a>, AllocError>
    ensures { IfOk result (λ m. (m.file.now ≡ file.now) × (m.name.now ≡ name.now)
        × (content_view m.holds ≡ content_view holds.entry)) }
{
    let kept = extension_cover(alloc, holds)?;
    Ok(KnownMessage {
        file,
        name,
        holds,
        kept,
    })
}

/// The enum of that name in that file.
pub fn enum_with<'a>(
    alloc: Global,
    file: &'a str,
    name: &'a str,
    proto3: bool,
    each: &'a EnumDescriptorProto,
) -> Result<KnownEnum<'a>, AllocError>
    ensures { IfOk result (λ e. (e.file.now ≡ file.now) × (e.name.now ≡ name.now)
        × (e.proto3 ≡ proto3) × (enum_view e.each.now ≡ enum_view each.now)) }
{
    let values = value_words(alloc, &each.value)?;
    Ok(KnownEnum {
        file,
        name,
        proto3,
        each,
        values,
    })
}

/// The names of values.
fn value_words<'a>(
    alloc: Global,
    values: &'a [EnumValueDescriptorProto],
) -> Result<Words<'a>, AllocError>
    ensures { IfOk result (λ w. AreTexts w.sorted.items
        (map (λ (v : EnumValueDescriptor). v.name) (map enum_value_view values.now))) }
{
    let mut words = Vec::new(alloc);
    'values: for value in values {
        words.push(value.name.as_str())?;
    }
    Ok(Words::of(words))
}
