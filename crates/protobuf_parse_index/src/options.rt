//! Custom options by their names.

ghost use Rattle.std.specs.Prelude.{map};
ghost use Rattle.protobuf_parse_base.specs.NameViews.{abs_ref_text};
ghost use Rattle.protobuf_parse_model.specs.Descriptors.{file_view};
ghost use Rattle.protobuf_parse_wire.specs.Reading.{ReaderGives};
ghost use Rattle.protobuf_parse_wire.specs.Views.{read_field_view};
ghost use Rattle.protobuf_parse_index.specs.Options.{name_each, name_one, named_option_view};
ghost use Rattle.protobuf_parse_index.specs.Options.{options_said};

use crate::index::Index;
use protobuf_parse_base::names::ProtobufAbsPathRef;
use protobuf_parse_model::FieldDescriptorProto;
use protobuf_parse_wire::{ReadFault, ReadField, ReadValue, read_custom};
use std::alloc::Global;

/// A custom option.
#[derive(Drop)]
pub struct NamedOption<'a> {
    /// As statements write it: an extension's full name in parentheses, `(shop.owner)`.
    pub name: String,
    /// The extension.
    pub field: &'a FieldDescriptorProto,
    /// Of a message its fields are by their numbers: `Index::field_name` and `Index::field_read`
    /// tell what they are.
    pub value: ReadValue,
}

/// The custom options that the bytes of an options message say, in order, each by its name; or the
/// first thing that is wrong with the bytes. No bytes say no options.
///
/// `message` is the full name of the options message, as `.google.protobuf.MessageOptions`. Where
/// there are bytes, a call goes through all files of the index once, as `read_custom` does.
///
/// ```text
/// let of = ProtobufAbsPathRef::try_new(".google.protobuf.MessageOptions")?;
/// for option in &custom_options(alloc, &index, of, &options.custom)? {
///     if option.name.as_str() == "(shop.owner)" { .. }
/// }
/// ```
pub fn custom_options<'a>(
    alloc: Global,
    index: &Index<'a>,
    message: ProtobufAbsPathRef<'_>,
    bytes: &[u8],
) -> Result<Vec<NamedOption<'a>>, ReadFault>
    ensures { ReaderGives (λ v. map named_option_view v.items) result
        (options_said (map file_view index.now) (abs_ref_text message.entry) bytes.now) }
{
    if bytes.is_empty() {
        return Ok(Vec::new(alloc));
    }
    let read = read_custom(alloc, index.files(), message, bytes)?;
    named(alloc, index, message.as_str(), read)
}

/// The fields by the names that options call them by.
fn named<'a>(
    alloc: Global,
    index: &Index<'a>,
    message: &str,
    read: Vec<ReadField>,
) -> Result<Vec<NamedOption<'a>>, ReadFault>
    ensures { ReaderGives (λ v. map named_option_view v.items) result
        (name_each (map file_view index.now) message.now (map read_field_view read.items)) }
{
    let mut options = Vec::new(alloc);
    'fields: for field in read {
        options.push(named_one(alloc, index, message, field)?)?;
    }
    Ok(options)
}

fn named_one<'a>(
    alloc: Global,
    index: &Index<'a>,
    message: &str,
    read: ReadField,
) -> Result<NamedOption<'a>, ReadFault>
    ensures { ReaderGives named_option_view result
        (name_one (map file_view index.now) message.now (read_field_view read)) }
{
    let name = index.field_name(alloc, message, &read)?;
    match (name, index.field_read(message, &read)) {
        (Some(name), Some(field)) => Ok(NamedOption {
            name,
            field,
            value: read.value,
        }),
        _ => Err(ReadFault::UnknownNumber),
    }
}
