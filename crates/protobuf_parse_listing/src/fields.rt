//! The lines of fields and extensions.

ghost use Rattle.std.specs.Prelude.{◌≡◌, ◌*◌, [], ◌∷◌, ◌++◌, codes, flat_map, map};
ghost use Rattle.std.specs.Prelude.{option_map, replicate};
ghost use Rattle.std.specs.String.{string_bytes};
ghost use Rattle.protobuf_parse_base.specs.Characters as char;
ghost use Rattle.protobuf_parse_model.specs.Descriptors.{field_view};
ghost use Rattle.protobuf_parse_model.specs.Words.{label_word};
ghost use Rattle.protobuf_parse_listing.specs.Listing as spec;
ghost use Rattle.protobuf_parse_listing.specs.Parts.{after_label, front_after_label};
ghost use Rattle.protobuf_parse_listing.specs.Puts.{Puts};

use crate::options::put_field_options;
use crate::pieces::{begin_line, end_line, end_quoted, put_number};
use protobuf_parse_model::{FieldDescriptorProto, FieldType, Label, label_word, type_word};
use std::alloc::{AllocError, Global};

/// Adds the lines of fields, which stand at that level.
pub fn put_fields(
    alloc: Global,
    text: &mut String,
    level: usize,
    fields: &[FieldDescriptorProto],
) -> Result<(), AllocError>
    ensures { Puts result text.old text.new
        (flat_map (spec.field_lines level) (map field_view fields.now)) }
{
    for field in fields {
        put_field(alloc, text, level, field)?;
    }
    Ok(())
}

/// Adds the lines of extensions, which stand at that level.
pub fn put_extensions(
    alloc: Global,
    text: &mut String,
    level: usize,
    fields: &[FieldDescriptorProto],
) -> Result<(), AllocError>
    ensures { Puts result text.old text.new
        (flat_map (spec.extension_lines level) (map field_view fields.now)) }
{
    for field in fields {
        put_extension(alloc, text, level, field)?;
    }
    Ok(())
}

/// A field's line, and those of its options.
fn put_field(
    alloc: Global,
    text: &mut String,
    level: usize,
    field: &FieldDescriptorProto,
) -> Result<(), AllocError>
    ensures { Puts result text.old text.new (spec.field_lines level (field_view field.now)) }
{
    begin_field(text, level, field.label)?;
    put_after_label(alloc, text, field)?;
    put_field_options(alloc, text, level + 1, &field.options)
}

/// An extension's line, and those of its options.
fn put_extension(
    alloc: Global,
    text: &mut String,
    level: usize,
    field: &FieldDescriptorProto,
) -> Result<(), AllocError>
    ensures { Puts result text.old text.new (spec.extension_lines level (field_view field.now)) }
{
    begin_extension(text, level, field)?;
    put_after_label(alloc, text, field)?;
    put_field_options(alloc, text, level + 1, &field.options)
}

/// `field LABEL `.
fn begin_field(text: &mut String, level: usize, label: Label) -> Result<(), AllocError>
    ensures { Puts result text.old text.new
        (replicate (2 * level) char.space ++ (codes "field " ++ (label_word label ++ codes " "))) }
{
    begin_line(text, level, "field ")?;
    put_word(text, label_word(label))
}

/// `extension EXTENDEE LABEL `.
fn begin_extension(
    text: &mut String,
    level: usize,
    field: &FieldDescriptorProto,
) -> Result<(), AllocError>
    ensures { Puts result text.old text.new
        (replicate (2 * level) char.space
        ++ (spec.extension_front (field_view field.now)
        ++ (label_word field.now.label ++ codes " "))) }
{
    begin_line(text, level, "extension ")?;
    put_text(text, &field.extendee)?;
    text.push(' ')?;
    put_word(text, label_word(field.label))
}

/// The text, where there is one.
fn put_text(text: &mut String, part: &Option<String>) -> Result<(), AllocError>
    ensures { Puts result text.old text.new
        (spec.text_or_nothing (option_map string_bytes part.now)) }
{
    match part {
        Some(part) => text.push_str(part),
        None => Ok(()),
    }
}

/// `TYPE NAME = NUMBER`, and the rest of the line.
#[tactic(auto, unfolding(crate::specs::Parts::after_label))]
fn put_after_label(
    alloc: Global,
    text: &mut String,
    field: &FieldDescriptorProto,
) -> Result<(), AllocError>
    ensures { Puts result text.old text.new
        (after_label (field_view field.now) ++ char.newline ∷ []) }
{
    put_field_front(text, field)?;
    put_field_back(alloc, text, field)?;
    end_line(text)
}

/// `TYPE NAME = NUMBER`.
fn put_field_front(text: &mut String, field: &FieldDescriptorProto) -> Result<(), AllocError>
    ensures { Puts result text.old text.new (front_after_label (field_view field.now)) }
{
    put_type(text, field.type_, &field.type_name)?;
    text.push_str(&field.name)?;
    text.push_str(" = ")?;
    put_number(text, field.number)
}

/// A type's word, its name where it is declared elsewhere, and a space.
fn put_type(
    text: &mut String,
    type_: FieldType,
    type_name: &Option<String>,
) -> Result<(), AllocError>
    ensures { Puts result text.old text.new
        (spec.type_words type_ (option_map string_bytes type_name.now) ++ codes " ") }
{
    put_word(text, type_word(type_))?;
    if !is_named(type_) {
        return Ok(());
    }
    put_text(text, type_name)?;
    text.push(' ')
}

/// ` json "J"`, and what else is set.
#[tactic(auto, unfolding(crate::specs::Listing::field_back, crate::specs::Listing::quoted))]
fn put_field_back(
    alloc: Global,
    text: &mut String,
    field: &FieldDescriptorProto,
) -> Result<(), AllocError>
    ensures { Puts result text.old text.new (spec.field_back (field_view field.now)) }
{
    text.push_str(" json \"")?;
    end_quoted(alloc, text, &field.json_name)?;
    put_default(alloc, text, &field.default_value)?;
    put_oneof_index(text, field.oneof_index)?;
    put_words_if(text, field.proto3_optional, " proto3_optional")
}

#[tactic(auto, unfolding(crate::specs::Listing::quoted))]
fn put_default(alloc: Global, text: &mut String, value: &Option<String>) -> Result<(), AllocError>
    ensures { Puts result text.old text.new
        (spec.default_words (option_map string_bytes value.now)) }
{
    match value {
        None => Ok(()),
        Some(value) => {
            text.push_str(" default \"")?;
            end_quoted(alloc, text, value)
        }
    }
}

fn put_oneof_index(text: &mut String, index: Option<i32>) -> Result<(), AllocError>
    ensures { Puts result text.old text.new (spec.oneof_words index) }
{
    match index {
        None => Ok(()),
        Some(index) => {
            text.push_str(" oneof ")?;
            put_number(text, index)
        }
    }
}

/// Adds the words, if that is so.
pub fn put_words_if(text: &mut String, is_so: bool, words: &str) -> Result<(), AllocError>
    ensures { Puts result text.old text.new (spec.words_if is_so words.now) }
{
    if is_so { text.push_str(words) } else { Ok(()) }
}

fn is_named(type_: FieldType) -> bool
    ensures { result ≡ spec.is_named type_ }
{
    matches!(
        type_,
        FieldType::Message | FieldType::Enum | FieldType::Group
    )
}

/// A word and a space.
fn put_word(text: &mut String, word: &str) -> Result<(), AllocError>
    ensures { Puts result text.old text.new (word.now ++ codes " ") }
{
    text.push_str(word)?;
    text.push(' ')
}
