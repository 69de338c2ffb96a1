//! What is left of a message's records.

ghost use Rattle.std.specs.Prelude.{◌≡◌, ◌++◌, ◌^◌, map, OnOk};
ghost use Rattle.protobuf_parse_model.specs.Descriptors.{file_view};
ghost use Rattle.protobuf_parse_decode.specs.Views.{fields_view};
ghost use Rattle.protobuf_parse_merged.specs.Answers.{Gives};
ghost use Rattle.protobuf_parse_merged.specs.Declarations.{declared_in};
ghost use Rattle.protobuf_parse_merged.specs.Merging as spec;
ghost use Rattle.protobuf_parse_merged.specs.Merging.{merged_message, merged_within};
ghost use Rattle.protobuf_parse_merged.specs.Inside.{Ascends, declared_view, field_view};
ghost use Rattle.protobuf_parse_merged.specs.Inside.{held_in, held_view};
ghost use Rattle.protobuf_parse_merged.specs.Inside.{occurrence_view, value_view};
ghost use Rattle.protobuf_parse_merged.specs.Views.{message_view, unknown_view};

use crate::declared::{Declared, declaration_of};
use crate::fault::MergeError;
use crate::maps::arranged;
use crate::message::{Field, FieldValue, Message};
use crate::occurrences::{Held, Occurrence, Told, told_of, told_of_all};
use crate::runs::run_end;
use crate::scalars::{field_value, one, present_scalar};
use protobuf_parse_decode::DecodedField;
use protobuf_parse_index::Index;
use std::alloc::{AllocError, Global};

/// How many messages and groups may stand inside one another, the outermost one among them: the
/// hundred that the decoder gives, and inside these the empty one of an entry that has no value.
const MOST_LEVELS: u32 = 101;

/// A message as people mean it: what is left of its records once they are merged. `fields` is what
/// the decoder gave of the message of that full name, with its first dot: `.shop.Item`.
///
/// A repeated field has all its values, in order. Any other field has its last one; several
/// messages, or groups, of such a field are merged as one. A field with implicit presence, as one of
/// proto3 without a label, isn't there where its last value is zero, false or empty. Of a oneof only
/// the member that stands last is there. A number that a closed enum doesn't declare is no value:
/// it is unknown, as is the entry of a map that has such a value. Of the entries of a map with one
/// key the last counts, and they come in ascending order of their keys. Each has both its fields: a
/// key or a value that isn't there is the default of its type, of an enum the first value that is
/// declared. Where the files of the index don't declare the message, all of it is unknown.
///
/// The time is in proportion to the fields, with the logarithm of their count, and with look-ups for
/// each. Texts and bytes are not copied.
///
/// Errors: `TooDeep` where more than 101 messages stand inside one another, which is one more than
/// the decoder gives, for the empty message of an entry that has no value; `Memory`.
///
/// ```text
/// let fields = decode(alloc, &index, ".shop.Item", &bytes)?;
/// for field in &merged(alloc, &index, ".shop.Item", &fields)?.fields {
///     println!(rt; "{} {}", field.number, field.values.len())?;
/// }
/// ```
pub fn merged<'a>(
    alloc: Global,
    index: &Index<'_>,
    message: &str,
    fields: &[DecodedField<'a>],
) -> Result<Message<'a>, MergeError>
    ensures { Gives message_view result
        (merged_message (map file_view index.now) message.now (fields_view fields.now)) }
{
    message_of(alloc, index, MOST_LEVELS, message, fields)
}

/// The message of that name with these fields.
#[cycle(message)]
fn message_of<'a>(
    alloc: Global,
    index: &Index<'_>,
    levels: u32,
    name: &str,
    fields: &[DecodedField<'a>],
) -> Result<Message<'a>, MergeError>
    ensures { Gives message_view result
        (merged_within (map file_view index.now) levels name.now (fields_view fields.now)) }
{
    if levels == 0 {
        return Err(MergeError::TooDeep);
    }
    let told = told_of(alloc, index, name, fields)?;
    message_told(alloc, index, levels - 1, name, told)
}

/// The message of that name with the fields of all messages that stand there, one message behind
/// the other.
#[cycle(message)]
fn all_as_one<'a>(
    alloc: Global,
    index: &Index<'_>,
    levels: u32,
    name: &str,
    run: &[Occurrence<'_, 'a>],
) -> Result<Message<'a>, MergeError>
    ensures { Gives message_view result
        (merged_within (map file_view index.now) levels name.now
        (spec.joined (held_in (map occurrence_view run.now)))) }
{
    if levels == 0 {
        return Err(MergeError::TooDeep);
    }
    let told = told_of_all(alloc, index, name, run)?;
    message_told(alloc, index, levels - 1, name, told)
}

/// The message of that name that holds what was told.
#[cycle(message)]
fn message_told<'a>(
    alloc: Global,
    index: &Index<'_>,
    levels: u32,
    name: &str,
    told: Told<'_, 'a>,
) -> Result<Message<'a>, MergeError>
    requires { Ascends 0 (map occurrence_view told.occurrences.items) }
    ensures { Gives message_view result
        (spec.with_fields
        (spec.fields_below (merged_within (map file_view index.now) levels)
        (declared_in (map file_view index.now) name.now)
        (map occurrence_view told.entry.occurrences.items) (2 ^ 32))
        (map unknown_view told.entry.unknown.items)) }
{
    let fields = fields_of(alloc, index, levels, name, &told.occurrences)?;
    Ok(Message {
        fields,
        unknown: told.unknown,
    })
}

/// The fields of the message of that name, by occurrences in ascending order of their numbers.
#[cycle(message)]
fn fields_of<'a>(
    alloc: Global,
    index: &Index<'_>,
    levels: u32,
    message: &str,
    occurrences: &[Occurrence<'_, 'a>],
) -> Result<Vec<Field<'a>>, MergeError>
    requires { Ascends 0 (map occurrence_view occurrences.now) }
    ensures { Gives (λ v. map field_view v.items) result
        (spec.fields_below (merged_within (map file_view index.now) levels)
        (declared_in (map file_view index.now) message.now)
        (map occurrence_view occurrences.now) (2 ^ 32)) }
{
    let mut fields = Vec::new(alloc);
    let mut start = 0;
    'runs: while start < occurrences.len() {
        let number = occurrences[start].number;
        let end = run_end(occurrences, start, number);
        let run = &occurrences[start..end];
        let values = values_of(alloc, index, levels, message, number, run)?;
        put_field(&mut fields, number, values)?;
        start = end;
    }
    Ok(fields)
}

/// Puts a field behind the others, if it has values.
fn put_field<'a>(
    fields: &mut Vec<Field<'a>>,
    number: u32,
    values: Vec<FieldValue<'a>>,
) -> Result<(), AllocError>
    ensures { OnOk result (map field_view fields.new.items
        ≡ map field_view fields.old.items
        ++ spec.present number (map value_view values.entry.items)) }
{
    if values.is_empty() {
        return Ok(());
    }
    fields.push(Field { number, values })?;
    Ok(())
}

/// The values of the message's field with that number, of all that stands there.
#[cycle(message)]
fn values_of<'a>(
    alloc: Global,
    index: &Index<'_>,
    levels: u32,
    message: &str,
    number: u32,
    run: &[Occurrence<'_, 'a>],
) -> Result<Vec<FieldValue<'a>>, MergeError>
    ensures { Gives (λ v. map value_view v.items) result
        (spec.field_values (merged_within (map file_view index.now) levels)
        (declared_in (map file_view index.now) message.now number)
        (held_in (map occurrence_view run.now))) }
{
    match declaration_of(index, message, number) {
        None => Ok(Vec::new(alloc)),
        Some(field) => {
            if field.repeated {
                all_values(alloc, index, levels, field, run)
            } else {
                last_value(alloc, index, levels, field, run)
            }
        }
    }
}

/// All values, those of a map by their keys.
#[cycle(message)]
fn all_values<'a>(
    alloc: Global,
    index: &Index<'_>,
    levels: u32,
    field: Declared<'_>,
    run: &[Occurrence<'_, 'a>],
) -> Result<Vec<FieldValue<'a>>, MergeError>
    ensures { Gives (λ v. map value_view v.items) result
        (spec.all_values (merged_within (map file_view index.now) levels)
        (declared_view field.entry) (held_in (map occurrence_view run.now))) }
{
    let values = each_value(alloc, index, levels, field.type_name, run)?;
    arranged(alloc, field.is_map, values)
}

/// Each value.
#[cycle(message)]
fn each_value<'a>(
    alloc: Global,
    index: &Index<'_>,
    levels: u32,
    name: &str,
    run: &[Occurrence<'_, 'a>],
) -> Result<Vec<FieldValue<'a>>, MergeError>
    ensures { Gives (λ v. map value_view v.items) result
        (spec.each_value (merged_within (map file_view index.now) levels) name.now
        (held_in (map occurrence_view run.now))) }
{
    let mut values = Vec::new(alloc);
    'run: for occurrence in run {
        let value = value_of(alloc, index, levels, name, occurrence.held)?;
        values.push(value)?;
    }
    Ok(values)
}

/// What stands there, a message merged.
#[cycle(message)]
fn value_of<'a>(
    alloc: Global,
    index: &Index<'_>,
    levels: u32,
    name: &str,
    held: Held<'_, 'a>,
) -> Result<FieldValue<'a>, MergeError>
    ensures { Gives value_view result
        (spec.value_of (merged_within (map file_view index.now) levels) name.now
        (held_view held.entry)) }
{
    match held {
        Held::Plain(scalar) => Ok(field_value(scalar)),
        Held::Inside(fields) => {
            let message = message_of(alloc, index, levels, name, fields)?;
            Ok(FieldValue::Message(message))
        }
    }
}

/// The value that counts of a field that isn't repeated.
#[cycle(message)]
fn last_value<'a>(
    alloc: Global,
    index: &Index<'_>,
    levels: u32,
    field: Declared<'_>,
    run: &[Occurrence<'_, 'a>],
) -> Result<Vec<FieldValue<'a>>, MergeError>
    ensures { Gives (λ v. map value_view v.items) result
        (spec.by_last (merged_within (map file_view index.now) levels) (declared_view field.entry)
        (held_in (map occurrence_view run.now))
        (spec.last_of (held_in (map occurrence_view run.now)))) }
{
    match run.last() {
        None => Ok(Vec::new(alloc)),
        Some(last) => match last.held {
            Held::Plain(scalar) => present_scalar(alloc, field.implicit, scalar),
            Held::Inside(_) => {
                let message = all_as_one(alloc, index, levels, field.type_name, run)?;
                one(alloc, FieldValue::Message(message))
            }
        },
    }
}
