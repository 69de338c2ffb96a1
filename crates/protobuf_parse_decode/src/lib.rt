//! What the bytes of a message mean by descriptors: a decoder that keeps what it doesn't know.
#![tactic(auto)]

mod declared;
mod decoder;
mod fault;
mod field;
mod laws;
mod numbers;
mod packed;
mod payloads;
#[cfg(test)]
mod tests;

pub use decoder::decode;
pub use fault::{DecodeError, DecodeFault, DecodeFaultKind};
pub use field::{DecodedField, Meaning, Value};
pub use laws::{fields_are_the_bytes, messages_join};
