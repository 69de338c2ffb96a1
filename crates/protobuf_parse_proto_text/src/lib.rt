//! The text of a descriptor in the language of `.proto` files: for registries, where equal
//! descriptors have one text, for people who look into a set, and for imports out of a set.
#![tactic(auto)]

mod declarations;
mod fields;
mod files;
mod items;
mod members;
mod messages;
mod order;
mod pieces;
mod settings;
mod values;

ghost use Rattle.std.specs.Prelude.{◌≡◌, IfOk, map};
ghost use Rattle.std.specs.String.{string_bytes};
ghost use Rattle.protobuf_parse_model.specs.Descriptors.{file_view};
ghost use Rattle.protobuf_parse_proto_text.specs.ProtoText.{file_text};

use protobuf_parse_index::Index;
use protobuf_parse_model::FileDescriptorProto;
use std::alloc::{AllocError, Global};

/// The `.proto` text of the file. The one error is that memory is short.
///
/// ```text
/// let index = Index::of(alloc, &files)?;
/// let text = proto_text(alloc, &index, &files[0])?;
/// ```
///
/// The index tells custom options by their names. It need not hold the file itself.
///
/// # What stands in it
///
/// The syntax, the package, the imports, the options, the enums, the messages and extensions, and
/// the services; in a message the options, the enums, the messages, fields and extensions, the
/// ranges and the reserved names. All that is of one kind stands in the descriptor's order, and
/// built-in options by their numbers. Maps, groups, oneofs, `extend` and the `optional` of proto3
/// are written as such. Messages stand before fields, but for those behind a map or a group in the
/// descriptor, which stand behind that field, so that each has its position again. Types are full
/// names with their first dot, and so are extensions in options.
///
/// Custom options are constants by the descriptors in the index. Where some can't be told, since a
/// number is unknown or a float or a group is among them, none of that construct is, and a comment
/// has their bytes in hexadecimal digits.
///
/// # What it can't say
///
/// Parsing the text gives the descriptor again, but for
///
/// - custom options that can't be told, as above; an option that is an enum and whose number none
///   of its values has, which is written as a number, as parsers don't take it; an extension inside
///   a constant, `[shop.unit]`, whose name a name near the options message hides; and bytes that
///   say one field several times, or otherwise than writers do
/// - options that are there and say nothing
/// - the path of the file; a `syntax` that is not given, which is written as `proto2`; a package
///   whose name is empty, which is left out
/// - positions of public and weak imports that no import has, that are listed twice or out of
///   order; an import that is public and weak, which is written as public
/// - a oneof without fields; one whose fields don't stand side by side, which the language refuses;
///   oneofs in another order than their first fields; a label other than `optional` in one
/// - the oneof of a field with the `optional` of proto3, if it isn't the one that its name makes,
///   at its place behind the others, and with no other field in it; a field with that `optional`
///   in a file of another syntax
/// - a message that is said to be a map's where no field makes it so, for which
///   `option map_entry = true` is written, as parsers refuse; what the entry of a map says besides
///   its types; the default of a field of a map
/// - a message behind a map or a group in another order than the fields, or behind several fields,
///   in which case it is written with each
/// - a group whose field has another name than its message in small letters
/// - defaults that the language lacks, and what is no constant of the field's type: those of
///   numbers, truth values and enums are written as they are, and so is what stands in quotes for
///   bytes
/// - the JSON name of an extension, if it isn't the usual one; the `oneof_index` of an extension,
///   and the `extendee` of a field
/// - what holds in no text that parsers take, as names that are no identifiers, empty ranges, or
///   methods without types
///
/// Some parsers take less of this language: this project's takes no options and only fields in
/// groups, no float constants, and in enums no reserved number below 0.
pub fn proto_text(
    alloc: Global,
    index: &Index<'_>,
    file: &FileDescriptorProto,
) -> Result<String, AllocError>
    ensures { IfOk result (λ s. string_bytes s
        ≡ file_text (map file_view index.now) (file_view file.now)) }
{
    let mut text = String::new(alloc);
    files::put_file(alloc, &mut text, index, file)?;
    Ok(text)
}
