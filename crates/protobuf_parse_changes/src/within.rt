//! What an index holds of the files, for as long as the index is there.

ghost use Rattle.std.specs.Prelude.{◌≡◌};

use protobuf_parse_index::{Declared, Index};
use protobuf_parse_model::FileDescriptorProto;

/// The files.
pub fn files_in<'c>(index: &'c Index<'_>) -> &'c [FileDescriptorProto]
    ensures { result.now ≡ index.now }
{
    index.files()
}

/// The path of the file that declares it.
pub fn file_in<'c, T>(declared: &'c Declared<'_, T>) -> &'c str
    ensures { result.now ≡ declared.now.file.now }
{
    declared.file
}

/// What is declared.
pub fn descriptor_in<'c, T>(declared: &'c Declared<'_, T>) -> &'c T
    ensures { result.now ≡ declared.now.descriptor.now }
{
    declared.descriptor
}
