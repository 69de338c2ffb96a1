//! Messages inside messages: each is written where it goes, behind a byte for its length. So no
//! list but the result holds what is written.

ghost use Rattle.std.specs.Prelude.{◌≡◌, ◌++◌, ◌∷◌, ◌+◌, ◌-◌, ◌*◌, ◌<◌, [], List, ℕ, OnOk, IfOk};
ghost use Rattle.std.specs.Prelude.{drop, flat_map, length, map, option_map, take};
ghost use Rattle.protobuf_parse_descriptor_set.specs.Items as spec;
ghost use Rattle.protobuf_parse_descriptor_set.specs.Items.{Items, part, some};
ghost use Rattle.protobuf_parse_descriptor_set.specs.Writing.{Writes};
ghost use Rattle.protobuf_parse_wire.specs.Encoded.{varint_of, delimited};

use crate::records::put_bytes;
use std::alloc::{AllocError, Global};

/// What is a message of `descriptor.proto`.
pub trait Described {
    /// What its fields are told by.
    ghost View: { Type 0 };

    ghost view: { Self → View };

    /// The fields that are written, with their values.
    ghost items: { View → Items };

    /// Writes them at the end.
    fn put(&self, alloc: Global, out: &mut Vec<u8>) -> Result<(), AllocError>
        ensures { OnOk result
            (Writes (items (view self.now)) out.old.items out.new.items) };
}

/// Options of a construct.
pub trait Options {
    ghost View: { Type 0 };

    ghost view: { Self → View };

    /// The bytes of the options message.
    ghost bytes: { View → List ℕ };

    /// Writes them at the end.
    fn put(&self, out: &mut Vec<u8>) -> Result<(), AllocError>
        ensures { OnOk result (out.new.items ≡ out.old.items ++ bytes (view self.now)) };
}

/// Writes each as a message with that field number.
pub fn put_parts<P: Described>(
    alloc: Global,
    out: &mut Vec<u8>,
    number: u32,
    parts: &[P],
) -> Result<(), AllocError>
    ensures { OnOk result
        (Writes (flat_map (λ p. part number (P.items p)) (map P.view parts.now))
        out.old.items out.new.items) }
{
    for each in parts {
        put_part(alloc, out, number, each)?;
    }
    Ok(())
}

/// Writes it as a message with that field number.
pub fn put_part<P: Described>(
    alloc: Global,
    out: &mut Vec<u8>,
    number: u32,
    part: &P,
) -> Result<(), AllocError>
    ensures { OnOk result
        (Writes (spec.part number (P.items (P.view part.now))) out.old.items out.new.items) }
{
    let start = begin_message(out, number)?;
    part.put(alloc, out)?;
    end_message(out, start)
}

/// Writes the options where any are set.
#[tactic(auto, using(crate::proofs::Joining::none_yet))]
pub fn put_options<O: Options>(
    out: &mut Vec<u8>,
    number: u32,
    options: &Option<O>,
) -> Result<(), AllocError>
    ensures { OnOk result
        (Writes (some (λ o. spec.options number (O.bytes o)) (option_map O.view options.now))
        out.old.items out.new.items) }
{
    match options {
        None => Ok(()),
        Some(options) => put_options_message(out, number, options),
    }
}

/// Writes an options message where anything is set in it.
pub fn put_options_message<O: Options>(
    out: &mut Vec<u8>,
    number: u32,
    options: &O,
) -> Result<(), AllocError>
    ensures { OnOk result
        (Writes (spec.options number (O.bytes (O.view options.now))) out.old.items out.new.items) }
{
    let before = out.len();
    let start = begin_message(out, number)?;
    options.put(out)?;
    if out.len() == start + 1 {
        // Nothing is set.
        out.truncate(before);
        return Ok(());
    }
    end_message(out, start)
}

/// Begins a message with that field number: writes its tag, and a byte for its length. Gives the
/// index of that byte.
// Inlined: 0.8 % of the instructions for a set of scalars, with two more of this file.
#[inline(always)]
pub fn begin_message(out: &mut Vec<u8>, number: u32) -> Result<usize, AllocError>
    ensures begun { OnOk result
        (out.new.items ≡ out.old.items ++ (varint_of (number * 8 + 2) ++ 0 ∷ [])) }
    ensures start { IfOk result (λ start. start + 1 ≡ length out.new.items) }
{
    put_bytes(out, number, &[])?;
    Ok(out.len() - 1)
}

/// Ends a message, which goes on to the last byte: writes its length where a byte is kept for it.
// Inlined: 0.8 % of the instructions for a set of scalars, with two more of this file.
#[inline(always)]
pub fn end_message(out: &mut Vec<u8>, start: usize) -> Result<(), AllocError>
    requires { start < length out.old.items }
    ensures { OnOk result (out.new.items
        ≡ take start out.old.items ++ delimited (drop (start + 1) out.old.items)) }
{
    let count = out.len() - start - 1;
    if count < 128 {
        out[start] = count as u8;
        return Ok(());
    }
    put_long_length(out, start, count)
}

/// Writes the length of what stands behind the byte that is kept for it. Its last byte goes there;
/// the others are written behind all, and then moved before it at once.
// Kept apart: 0.8 % of the instructions for a set of scalars, with two more of this file.
#[inline(never)]
fn put_long_length(out: &mut Vec<u8>, start: usize, count: usize) -> Result<(), AllocError>
    requires within { start < length out.old.items }
    requires is_length { count ≡ length out.old.items - start - 1 }
    ensures { OnOk result (out.new.items
        ≡ take start out.old.items ++ delimited (drop (start + 1) out.old.items)) }
{
    let end = out.len();
    let mut rest = count as u64;
    'groups: while rest >= 128 {
        out.push((rest & 0x7f) as u8 | 0x80)?;
        rest >>= 7;
    }
    out[start] = rest as u8;
    let groups = out.len() - end;
    out[start..].rotate_right(groups);
    Ok(())
}
