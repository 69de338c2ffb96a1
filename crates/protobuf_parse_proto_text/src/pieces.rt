//! What lines are made of.

ghost use Rattle.std.specs.Prelude.{◌≡◌, ◌*◌, ◌++◌, codes, flat_map, map, replicate};
ghost use Rattle.std.specs.Fmt.{signed_decimal};
ghost use Rattle.std.specs.String.{string_bytes};
ghost use Rattle.protobuf_parse_base.specs.Characters as char;
ghost use Rattle.protobuf_parse_listing.specs.Listing.{line, quoted};
ghost use Rattle.protobuf_parse_proto_text.specs.Pieces as spec;
ghost use Rattle.protobuf_parse_proto_text.specs.Puts.{Puts};

use itoa::Buffer;
use protobuf_parse_base::text::escape_bytes;
use std::alloc::{AllocError, Global};

/// A line of three parts.
pub fn put_line(
    text: &mut String,
    level: usize,
    words: &str,
    rest: &str,
    end: &str,
) -> Result<(), AllocError>
    ensures { Puts result text.old text.new (line level (words.now ++ rest.now ++ end.now)) }
{
    put_indent(text, level)?;
    text.push_str(words)?;
    text.push_str(rest)?;
    text.push_str(end)?;
    text.push('\n')
}

/// Two spaces for each level.
pub fn put_indent(text: &mut String, level: usize) -> Result<(), AllocError>
    ensures { Puts result text.old text.new (replicate (2 * level) char.space) }
{
    for done in 0..level {
        text.push_str("  ")?;
    }
    Ok(())
}

/// An empty line before what stands at the level of the file.
#[tactic(auto, unfolding(crate::specs::Pieces::blank))]
pub fn put_blank(text: &mut String, level: usize) -> Result<(), AllocError>
    ensures { Puts result text.old text.new (spec.blank level) }
{
    if level == 0 { text.push('\n') } else { Ok(()) }
}

/// The end of what has braces.
#[tactic(auto, unfolding(crate::specs::Pieces::close))]
pub fn put_close(text: &mut String, level: usize) -> Result<(), AllocError>
    ensures { Puts result text.old text.new (spec.close level) }
{
    put_line(text, level, "}", "", "")
}

/// A number in decimal digits.
pub fn put_number(text: &mut String, number: i128) -> Result<(), AllocError>
    ensures { Puts result text.old text.new (signed_decimal number) }
{
    let mut digits = Buffer::new();
    text.push_str(digits.format(number))
}

/// The bytes in double quotes, escaped.
#[tactic(auto, unfolding(protobuf_parse_listing::specs::Listing::quoted))]
pub fn put_quoted(alloc: Global, text: &mut String, bytes: &[u8]) -> Result<(), AllocError>
    ensures { Puts result text.old text.new (quoted bytes.now) }
{
    let escaped = escape_bytes(alloc, bytes)?;
    text.push('"')?;
    text.push_str(&escaped)?;
    text.push('"')
}

/// A statement of these words and a text in double quotes.
pub fn put_quoted_line(
    alloc: Global,
    text: &mut String,
    words: &str,
    quoted: &str,
) -> Result<(), AllocError>
    ensures { Puts result text.old text.new (spec.quoted_line words.now quoted.now) }
{
    text.push_str(words)?;
    put_quoted(alloc, text, quoted.as_bytes())?;
    text.push_str(";\n")
}

/// A statement of a range of numbers, both ends among them, of which the last may be the largest.
#[tactic(auto, unfolding(crate::specs::Pieces::range_line))]
pub fn put_range(
    text: &mut String,
    level: usize,
    words: &str,
    first: i128,
    last: i128,
    is_max: bool,
) -> Result<(), AllocError>
    ensures { Puts result text.old text.new (spec.range_line level words.now first last is_max) }
{
    put_indent(text, level)?;
    text.push_str(words)?;
    put_numbers(text, first, last, is_max)?;
    text.push_str(";\n")
}

/// `5`, `5 to 7` or `5 to max`.
#[tactic(auto, unfolding(crate::specs::Pieces::range_words))]
fn put_numbers(text: &mut String, first: i128, last: i128, is_max: bool) -> Result<(), AllocError>
    ensures { Puts result text.old text.new (spec.range_words first last is_max) }
{
    put_number(text, first)?;
    if first == last {
        return Ok(());
    }
    text.push_str(" to ")?;
    put_last(text, last, is_max)
}

/// The last number of a range.
fn put_last(text: &mut String, last: i128, is_max: bool) -> Result<(), AllocError>
    ensures { Puts result text.old text.new (spec.last_words last is_max) }
{
    if is_max {
        text.push_str("max")
    } else {
        put_number(text, last)
    }
}

/// Statements `reserved "a";`, one each.
pub fn put_reserved_names(
    alloc: Global,
    text: &mut String,
    level: usize,
    names: &[String],
) -> Result<(), AllocError>
    ensures { Puts result text.old text.new
        (flat_map (spec.reserved_name_line level) (map string_bytes names.now)) }
{
    for name in names {
        put_reserved_name(alloc, text, level, name)?;
    }
    Ok(())
}

#[tactic(auto, unfolding(crate::specs::Pieces::reserved_name_line))]
fn put_reserved_name(
    alloc: Global,
    text: &mut String,
    level: usize,
    name: &str,
) -> Result<(), AllocError>
    ensures { Puts result text.old text.new (spec.reserved_name_line level name.now) }
{
    put_indent(text, level)?;
    put_quoted_line(alloc, text, "reserved ", name)
}
