//! Writing entries at the end of bytes.

ghost use Rattle.std.specs.Prelude.{◌≡◌, ◌+◌, ◌*◌, ◌++◌, [], OnOk, OnErr, IfOk};
ghost use Rattle.protobuf_parse_wire.specs.Kinds.{InRange, shape_of_kind, wire_type};
ghost use Rattle.protobuf_parse_wire.specs.Wire.{Spells, zigzag_of};
ghost use Rattle.protobuf_parse_wire.specs.Writing.{AreWritable, IsWritable};
ghost use Rattle.protobuf_parse_wire.specs.Views.{entries_view};
ghost use Rattle.protobuf_parse_wire.specs.ViewParts.{entry_value_view};
ghost use Rattle.protobuf_parse_wire.specs.Encoded.{varint_of, number_bytes, delimited, payload};
ghost use Rattle.protobuf_parse_wire.specs.Encoded.{BeginsWith, encoded};

use crate::entry::{Entry, EntryValue};
use crate::kind::Kind;
use std::alloc::{AllocError, Global};

/// The bytes that spell the entries. The one error is that memory is short.
pub fn encode(alloc: Global, entries: &[Entry]) -> Result<Vec<u8>, AllocError>
    requires { AreWritable (entries_view entries.now) }
    ensures encoded { IfOk result (λ bytes. bytes.items ≡ encoded (entries_view entries.now)) }
    ensures spells { IfOk result (λ bytes. Spells (entries_view entries.now) bytes.items) }
{
    let mut out = with_room(alloc, entries)?;
    encode_into(alloc, &mut out, entries)?;
    Ok(out)
}

/// No bytes, with room for what most entries take: 16 bytes each, so that few lists have to grow.
fn with_room(alloc: Global, entries: &[Entry]) -> Result<Vec<u8>, AllocError>
    ensures { IfOk result (λ bytes. bytes.items ≡ []) }
{
    Vec::with_capacity(alloc, entries.len().saturating_mul(16))
}

/// Writes the bytes that spell the entries behind those that are there.
///
/// Where memory runs out, a part of them may have been written behind those.
#[cycle(entry)]
#[tactic(auto, using(crate::proofs::Written::begins_self, crate::proofs::Written::begins_behind, crate::proofs::Written::begins_more, crate::proofs::Written::if_refused))]
pub fn encode_into(alloc: Global, out: &mut Vec<u8>, entries: &[Entry]) -> Result<(), AllocError>
    requires { AreWritable (entries_view entries.now) }
    ensures ok { OnOk result (out.new.items ≡ out.old.items ++ encoded (entries_view entries.now)) }
    ensures err { OnErr result (BeginsWith out.old.items out.new.items) }
{
    'entries: for entry in entries {
        put_varint(out, u64::from(entry.number) * 8 + wire_type_of(entry.kind))?;
        put_value(alloc, out, entry.kind, &entry.value)?;
    }
    Ok(())
}

/// Writes the record of a message with that field number, whose bytes are written already.
///
/// Where memory runs out, a part of it may have been written behind what was there.
#[tactic(auto, using(crate::proofs::Written::begins_self, crate::proofs::Written::begins_behind, crate::proofs::Written::begins_more, crate::proofs::Written::if_refused))]
pub fn put_message(out: &mut Vec<u8>, number: u32, inside: &[u8]) -> Result<(), AllocError>
    ensures ok { OnOk result
        (out.new.items ≡ out.old.items ++ (varint_of (number * 8 + 2) ++ delimited inside.now)) }
    ensures err { OnErr result (BeginsWith out.old.items out.new.items) }
{
    put_varint(out, u64::from(number) * 8 + 2)?;
    put_delimited(out, inside)
}

/// Writes the record of a number with that field number: the tag, and the number as a varint. A
/// truth value is 0 or 1, and a signed number the 64 bits of its sign extension.
///
/// Where memory runs out, a part of it may have been written behind what was there.
#[tactic(auto, using(crate::proofs::Written::begins_self, crate::proofs::Written::begins_behind, crate::proofs::Written::begins_more, crate::proofs::Written::if_refused))]
pub fn put_varint_record(out: &mut Vec<u8>, number: u32, value: u64) -> Result<(), AllocError>
    ensures ok { OnOk result
        (out.new.items ≡ out.old.items ++ (varint_of (number * 8) ++ varint_of value)) }
    ensures err { OnErr result (BeginsWith out.old.items out.new.items) }
{
    put_varint(out, u64::from(number) * 8)?;
    put_varint(out, value)
}

#[cycle(entry)]
#[tactic(auto, using(crate::proofs::Written::begins_self, crate::proofs::Written::begins_behind, crate::proofs::Written::begins_more, crate::proofs::Written::if_refused))]
fn put_value(
    alloc: Global,
    out: &mut Vec<u8>,
    kind: Kind,
    value: &EntryValue,
) -> Result<(), AllocError>
    requires { IsWritable (shape_of_kind kind) (entry_value_view value.now) }
    ensures ok { OnOk result (out.new.items
        ≡ out.old.items ++ payload (shape_of_kind kind) (entry_value_view value.now)) }
    ensures err { OnErr result (BeginsWith out.old.items out.new.items) }
{
    match value {
        EntryValue::Number(number) => put_number(out, kind, *number),
        EntryValue::Bool(truth) => put_varint(out, u64::from(*truth)),
        EntryValue::Bytes(bytes) => put_delimited(out, bytes),
        EntryValue::Message(entries) => {
            let mut inside = with_room(alloc, entries)?;
            encode_into(alloc, &mut inside, entries)?;
            put_delimited(out, &inside)
        }
    }
}

/// The wire type of a tag: that of the payload.
fn wire_type_of(kind: Kind) -> u64
    ensures { result ≡ wire_type (shape_of_kind kind) }
{
    match kind {
        Kind::String | Kind::Bytes | Kind::Message => 2,
        Kind::Fixed64 | Kind::Sfixed64 => 1,
        Kind::Fixed32 | Kind::Sfixed32 => 5,
        Kind::Int32
        | Kind::Int64
        | Kind::Uint32
        | Kind::Uint64
        | Kind::Sint32
        | Kind::Sint64
        | Kind::Bool
        | Kind::Enum => 0,
    }
}

#[tactic(auto, using(crate::proofs::Written::begins_self, crate::proofs::Written::begins_behind, crate::proofs::Written::begins_more, crate::proofs::Written::if_refused))]
fn put_number(out: &mut Vec<u8>, kind: Kind, number: i128) -> Result<(), AllocError>
    requires { InRange (shape_of_kind kind) number }
    ensures ok { OnOk result
        (out.new.items ≡ out.old.items ++ number_bytes (shape_of_kind kind) number) }
    ensures err { OnErr result (BeginsWith out.old.items out.new.items) }
{
    match kind {
        Kind::Int32 | Kind::Int64 | Kind::Enum => {
            put_varint(out, (number as i64).cast_unsigned())
        }
        Kind::Uint32 | Kind::Uint64 => put_varint(out, number as u64),
        Kind::Sint32 | Kind::Sint64 => put_varint(out, zigzag_of(number as i64)),
        Kind::Fixed32 => out.extend_from_slice(&(number as u32).to_le_bytes()),
        Kind::Sfixed32 => out.extend_from_slice(&(number as i32).cast_unsigned().to_le_bytes()),
        Kind::Fixed64 => out.extend_from_slice(&(number as u64).to_le_bytes()),
        Kind::Sfixed64 => out.extend_from_slice(&(number as i64).cast_unsigned().to_le_bytes()),
        Kind::Bool | Kind::String | Kind::Bytes | Kind::Message => unreachable!(),
    }
}

/// 0, -1, 1, -2, 2 .. as 0, 1, 2, 3, 4 ..
fn zigzag_of(number: i64) -> u64
    ensures { result ≡ zigzag_of number }
{
    if number >= 0 {
        2 * number as u64
    } else {
        2 * (-1 - number) as u64 + 1
    }
}

/// Writes the length of the bytes, and them.
#[tactic(auto, using(crate::proofs::Written::begins_self, crate::proofs::Written::begins_behind, crate::proofs::Written::begins_more, crate::proofs::Written::if_refused))]
fn put_delimited(out: &mut Vec<u8>, inside: &[u8]) -> Result<(), AllocError>
    ensures ok { OnOk result (out.new.items ≡ out.old.items ++ delimited inside.now) }
    ensures err { OnErr result (BeginsWith out.old.items out.new.items) }
{
    put_varint(out, inside.len() as u64)?;
    out.extend_from_slice(inside)
}

/// Writes the shortest varint.
#[tactic(auto, using(crate::proofs::Written::begins_self, crate::proofs::Written::begins_behind, crate::proofs::Written::begins_more, crate::proofs::Written::if_refused))]
fn put_varint(out: &mut Vec<u8>, number: u64) -> Result<(), AllocError>
    ensures ok { OnOk result (out.new.items ≡ out.old.items ++ varint_of number) }
    ensures err { OnErr result (BeginsWith out.old.items out.new.items) }
{
    let mut rest = number;
    'groups: while rest >= 128 {
        out.push((rest & 0x7f) as u8 | 0x80)?;
        rest >>= 7;
    }
    out.push(rest as u8)?;
    Ok(())
}
