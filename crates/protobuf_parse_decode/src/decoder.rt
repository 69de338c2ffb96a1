//! Messages by descriptors.

ghost use Rattle.std.specs.Prelude.{◌≡◌, ◌<◌, ◌^◌, map};
ghost use Rattle.std.specs.Option.{option_copied};
ghost use Rattle.protobuf_parse_model.specs.Descriptors.{file_view};
ghost use Rattle.protobuf_parse_records.specs.Views.{payload_view, record_view, span_view};
ghost use Rattle.protobuf_parse_decode.specs.Answers.{Gives};
ghost use Rattle.protobuf_parse_decode.specs.Declarations.{declared_in, entered};
ghost use Rattle.protobuf_parse_decode.specs.Decoding as spec;
ghost use Rattle.protobuf_parse_decode.specs.Decoding.{decoded_message, message_within};
ghost use Rattle.protobuf_parse_decode.specs.Parts.{HaveSmallNumbers};
ghost use Rattle.protobuf_parse_decode.specs.Sorts.{sort_of};
ghost use Rattle.protobuf_parse_decode.specs.Inside.{declared_view, meaning_view};
ghost use Rattle.protobuf_parse_decode.specs.Views.{fields_view};

use crate::declared::{Declared, declaration_of, message_name};
use crate::fault::{DecodeError, DecodeFaultKind, fault};
use crate::field::{DecodedField, Meaning, Value};
use crate::payloads::{bytes_of, numbers_of, one, string_of};
use protobuf_parse_index::Index;
use protobuf_parse_model::FieldType;
use protobuf_parse_records::{Payload, Record, Span, records_in};
use std::alloc::Global;

/// How many messages and groups may stand inside one another, the outermost one among them.
const MOST_LEVELS: u32 = 100;

/// What the bytes of a message mean: its records in order, each with its values by the declaration
/// of its field, where the files of the index declare one. `message` is the full name, with its
/// first dot: `.shop.Item`.
///
/// A number means the message's own field, or else the first extension of it. A record is `Unknown`
/// where nothing has its number, and where its payload is of another sort than the field's type.
/// Numbers of a repeated field may be packed or not, whatever its declaration says. Enums are
/// numbers, whether they have such a value or not. Nothing is copied, so what is given borrows from
/// `bytes`.
///
/// The time is in proportion to the bytes, with a look-up for each record; each message or group
/// that stands in another one has its bytes passed over again.
///
/// Errors: `Fault` with the first thing that is wrong and its offset. Faults are looked for from
/// the left: whether the message is declared, then its records, and then what each of these holds.
/// `NoRecords` where the bytes of a message are no records, or those of packed numbers are no such
/// numbers; `NotUtf8` of a `string` in proto3; `TooDeep` from the 101st level on; `NoSuchMessage`
/// where no file declares `message`, or the message that a record holds. `Memory`.
///
/// ```text
/// let index = Index::of(alloc, &parsed.file_descriptors)?;
/// for field in &decode(alloc, &index, ".shop.Item", &bytes)? {
///     if let Meaning::Known(values) = &field.meaning { .. }
/// }
/// ```
pub fn decode<'a>(
    alloc: Global,
    index: &Index<'_>,
    message: &str,
    bytes: &'a [u8],
) -> Result<Vec<DecodedField<'a>>, DecodeError>
    ensures { Gives (λ v. fields_view v.items) result
        (decoded_message (map file_view index.now) message.now bytes.now) }
{
    let span = Span { start: 0, bytes };
    message_of(alloc, index, MOST_LEVELS, 0, Some(message), span)
}

/// The message of that name. `at` is where the record stands that holds it.
#[cycle(message)]
fn message_of<'a>(
    alloc: Global,
    index: &Index<'_>,
    levels: u32,
    at: usize,
    name: Option<&str>,
    span: Span<'a>,
) -> Result<Vec<DecodedField<'a>>, DecodeError>
    ensures { Gives (λ v. fields_view v.items) result
        (message_within (entered (map file_view index.now)) levels at (option_copied name.entry)
        (span_view span.entry)) }
{
    if levels == 0 {
        return Err(fault(at, DecodeFaultKind::TooDeep));
    }
    let message = message_name(index, at, name)?;
    let records = records_in(alloc, span)?;
    fields_of(alloc, index, levels - 1, message, &records)
}

/// What each record means, in order.
#[cycle(message)]
fn fields_of<'a>(
    alloc: Global,
    index: &Index<'_>,
    levels: u32,
    message: &str,
    records: &[Record<'a>],
) -> Result<Vec<DecodedField<'a>>, DecodeError>
    requires { HaveSmallNumbers (map record_view records.now) }
    ensures { Gives (λ v. fields_view v.items) result
        (spec.fields_of (message_within (entered (map file_view index.now)) levels)
        (declared_in (map file_view index.now) message.now) (map record_view records.now)) }
{
    let mut fields = Vec::new(alloc);
    'records: for record in records {
        let meaning = meaning_of(alloc, index, levels, message, *record)?;
        fields.push(DecodedField {
            number: record.number,
            bytes: record.whole.bytes,
            meaning,
        })?;
    }
    Ok(fields)
}

/// What a record means.
#[cycle(message)]
#[tactic(auto, unfolding(crate::specs::Decoding::meaning_of))]
fn meaning_of<'a>(
    alloc: Global,
    index: &Index<'_>,
    levels: u32,
    message: &str,
    item: Record<'a>,
) -> Result<Meaning<'a>, DecodeError>
    requires { item.number < 2 ^ 29 }
    ensures { Gives meaning_view result
        (spec.meaning_of (message_within (entered (map file_view index.now)) levels)
        (declared_in (map file_view index.now) message.now item.entry.number)
        (record_view item.entry)) }
{
    match declaration_of(index, message, item.number) {
        None => Ok(Meaning::Unknown),
        Some(field) => known(alloc, index, levels, field, item.whole.start, item.payload),
    }
}

/// What a field's payload means. `at` is where its record stands.
#[cycle(message)]
#[tactic(auto, unfolding(crate::specs::Decoding::by_sort))]
fn known<'a>(
    alloc: Global,
    index: &Index<'_>,
    levels: u32,
    field: Declared<'_>,
    at: usize,
    payload: Payload<'a>,
) -> Result<Meaning<'a>, DecodeError>
    ensures { Gives meaning_view result
        (spec.by_sort (message_within (entered (map file_view index.now)) levels) at
        (declared_view field.entry).type_name field.entry.repeated
        (sort_of field.entry.utf8 field.entry.field_type) (payload_view payload.entry)) }
{
    match field.field_type {
        FieldType::String => string_of(alloc, field.utf8, payload),
        FieldType::Bytes => bytes_of(alloc, payload),
        FieldType::Message => inside_of(alloc, index, levels, at, field.type_name, payload),
        FieldType::Group => group_of(alloc, index, levels, at, field.type_name, payload),
        _ => numbers_of(alloc, field.field_type, field.repeated, payload),
    }
}

/// A message behind its length.
#[cycle(message)]
fn inside_of<'a>(
    alloc: Global,
    index: &Index<'_>,
    levels: u32,
    at: usize,
    name: Option<&str>,
    payload: Payload<'a>,
) -> Result<Meaning<'a>, DecodeError>
    ensures { Gives meaning_view result
        (spec.message_in (message_within (entered (map file_view index.now)) levels) at
        (option_copied name.entry) (payload_view payload.entry)) }
{
    match payload {
        Payload::Delimited(span) => {
            let fields = message_of(alloc, index, levels, at, name, span)?;
            one(alloc, Value::Message(fields))
        }
        _ => Ok(Meaning::Unknown),
    }
}

/// A group.
#[cycle(message)]
fn group_of<'a>(
    alloc: Global,
    index: &Index<'_>,
    levels: u32,
    at: usize,
    name: Option<&str>,
    payload: Payload<'a>,
) -> Result<Meaning<'a>, DecodeError>
    ensures { Gives meaning_view result
        (spec.group_in (message_within (entered (map file_view index.now)) levels) at
        (option_copied name.entry) (payload_view payload.entry)) }
{
    match payload {
        Payload::Group(span) => {
            let fields = message_of(alloc, index, levels, at, name, span)?;
            one(alloc, Value::Message(fields))
        }
        _ => Ok(Meaning::Unknown),
    }
}
