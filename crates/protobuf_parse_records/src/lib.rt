//! The records of a protobuf message's bytes, by the wire format alone: one level deep, each with
//! the offset at which it starts.
#![tactic(auto)]

mod fault;
mod group;
mod laws;
mod span;
mod split;
mod tag;
mod values;
mod varint;
mod wire;

pub use fault::{Fault, FaultKind, RecordsError};
pub use laws::{groups_hold_records, offsets_count_on, records_are_joined, records_are_the_bytes};
pub use span::Span;
pub use split::{records, records_in};
pub use values::varint as first_varint;
pub use wire::{Payload, Record};
