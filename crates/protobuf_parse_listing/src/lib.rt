//! Descriptors as text: a line a construct, its parts below it and two spaces further in.
#![tactic(auto)]

mod declarations;
mod fields;
pub mod imports;
mod laws;
mod options;
mod pieces;
pub mod settings;

ghost use Rattle.std.specs.Prelude.{◌≡◌, IfOk, map};
ghost use Rattle.std.specs.String.{string_bytes};
ghost use Rattle.protobuf_parse_model.specs.Descriptors.{file_view};
ghost use Rattle.protobuf_parse_listing.specs.Listing.{listing_of};

use declarations::put_file;
pub use laws::builtin_options_are_listed;
use protobuf_parse_model::FileDescriptorProto;
use std::alloc::{AllocError, Global};

/// How many bytes the line of a field has, about.
const LINE_LEN: usize = 72;

/// The listing of the files, in order. Each line ends with a line feed. An absent text prints as
/// nothing. The one error is that memory is short.
///
/// ```
/// let parsed = parser.parse_and_typecheck(&rt)?;
/// print!(rt; "{}", listing(rt.alloc(), &parsed.file_descriptors)?)?;
/// ```
///
/// | construct | line | below it, in this order |
/// |---|---|---|
/// | file | `file NAME` | `syntax S`, `package P` if present, `import PATH`, `import public PATH`
/// or `import weak PATH` each, options, messages, enums, services, extensions |
/// | options | `option NAME = VALUE` in the order of the options' numbers, then `custom HEX` if
/// there are bytes | |
/// | message | `message NAME` | options, fields, oneofs, nested messages, enums, extensions,
/// `extension_range START END`, `reserved_range START END`, `reserved_name "N"` |
/// | field | `field LABEL TYPE NAME = NUMBER json "J"`, and where set ` default "D"`, ` oneof
/// INDEX`, ` proto3_optional` | options |
/// | extension | `extension EXTENDEE` and the same from LABEL on | options |
/// | oneof | `oneof NAME` | options |
/// | enum | `enum NAME` | options, values, `reserved_range START END`, `reserved_name "N"` |
/// | value | `value NAME = NUMBER` | options |
/// | service | `service NAME` | options, methods |
/// | method | `method NAME INPUT OUTPUT`, and where set ` client_streaming`, ` server_streaming` |
/// options |
pub fn listing(alloc: Global, files: &[FileDescriptorProto]) -> Result<String, AllocError>
    ensures { IfOk result (λ s. string_bytes s ≡ listing_of (map file_view files.now)) }
{
    let mut text = String::with_capacity(alloc, room_for(files))?;
    for file in files {
        put_file(alloc, &mut text, file)?;
    }
    Ok(text)
}

/// Room for the lines of the fields, as long as most are, so that a long text is not copied while
/// it grows.
fn room_for(files: &[FileDescriptorProto]) -> usize {
    let mut fields: usize = 0;
    for file in files {
        for message in &file.message_type {
            fields = fields.saturating_add(message.field.len());
        }
    }
    fields.saturating_mul(LINE_LEN)
}
