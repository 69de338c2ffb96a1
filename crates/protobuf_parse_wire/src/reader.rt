//! Reading bytes by descriptors.

mod index;
mod numbers;
mod records;
mod visited;
mod words;

ghost use Rattle.std.specs.Prelude.{map};
ghost use Rattle.protobuf_parse_base.specs.NameViews.{abs_ref_text};
ghost use Rattle.protobuf_parse_model.specs.Descriptors.{file_view};
ghost use Rattle.protobuf_parse_wire.specs.Reading.{ReaderGives, reader};
ghost use Rattle.protobuf_parse_wire.specs.Views.{read_field_view};

use crate::fault::ReadFault;
use crate::field::ReadField;
use protobuf_parse_base::names::ProtobufAbsPathRef;
use protobuf_parse_model::FileDescriptorProto;
use std::alloc::Global;

/// How many messages may stand inside one another, the outer one too.
const MAX_LEVELS: u32 = 256;

/// The fields that the bytes of a message say, in order, or the first thing that is wrong, from the
/// left.
///
/// The message is the one that the files declare with the full name. A record's field is found by
/// its number among the fields of the message and the extensions of it in all files; the message
/// inside a record by the text of the field's type name.
///
/// The errors are B1 to B9 (`docs/wire.md`), or want of memory.
///
/// ```
/// // The custom options of a message, by the descriptors of a run.
/// if let Some(of) = ProtobufAbsPathRef::try_new(".google.protobuf.MessageOptions") {
///     for field in &read_custom(alloc, &files, of, &options.custom)? {
///         write!(text, "{}: {:?}\n", field.number, field.value)?;
///     }
/// }
/// ```
pub fn read_custom(
    alloc: Global,
    files: &[FileDescriptorProto],
    message: ProtobufAbsPathRef<'_>,
    bytes: &[u8],
) -> Result<Vec<ReadField>, ReadFault>
    ensures { ReaderGives (λ v. map read_field_view v.items) result
        (reader (map file_view files.now) (abs_ref_text message.entry) bytes.now) }
{
    read_named(alloc, files, message.as_str(), bytes)
}

fn read_named(
    alloc: Global,
    files: &[FileDescriptorProto],
    name: &str,
    bytes: &[u8],
) -> Result<Vec<ReadField>, ReadFault>
    ensures { ReaderGives (λ v. map read_field_view v.items) result
        (reader (map file_view files.now) name.now bytes.now) }
{
    let index = index::index_of(alloc, files)?;
    let mut visited = visited::none(alloc);
    records::message_of(alloc, &index, &mut visited, MAX_LEVELS, Some(name), bytes)
}
