//! Option bytes on the wire: an encoder of entries, and a reader that goes by descriptors.
#![tactic(auto)]

mod encoder;
mod entry;
mod fault;
mod field;
mod kind;
mod law;
mod names;
mod reader;

pub use encoder::{encode, encode_into, put_message, put_varint_record};
pub use entry::{Entry, EntryValue};
pub use fault::ReadFault;
pub use field::{ReadField, ReadValue};
pub use kind::Kind;
pub use law::{one_spelling, reader_reads_records, reader_reads_varints, spelled_is_read};
pub use names::{name_within, package_scope};
pub use reader::read_custom;
