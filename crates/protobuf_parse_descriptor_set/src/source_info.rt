//! Files with source info.

ghost use Rattle.std.specs.Prelude.{◌≡◌, [], IfOk, map};
ghost use Rattle.protobuf_parse_descriptor_set.specs.DescriptorItems as spec;
ghost use Rattle.protobuf_parse_descriptor_set.specs.SourceInfo.{file_and_info};
ghost use Rattle.protobuf_parse_wire.specs.Wire.{Spells};

use crate::descriptors::put_file;
use crate::parts::{Described, put_parts};
use crate::{FILE, room_of};
use protobuf_parse_model::FileDescriptorProto;
use std::alloc::{AllocError, Global};

/// A file of a set, with what the set has as its source info.
#[derive(Clone, Copy)]
pub struct FileWithInfo<'a> {
    pub file: &'a FileDescriptorProto,
    /// The bytes of its `SourceCodeInfo`, if it is to have one. They are written as they stand.
    pub source_code_info: Option<&'a [u8]>,
}

impl Described for FileWithInfo<'_> {
    ghost View = { spec.FileAndInfo };

    ghost view = { file_and_info };

    ghost items = { spec.file_and_info_items };

    fn put(&self, alloc: Global, out: &mut Vec<u8>) -> Result<(), AllocError> {
        put_file(alloc, out, self.file, self.source_code_info)
    }
}

/// The bytes of a `FileDescriptorSet` that has the files, in order, each with its source info where
/// it is to have one, as `protoc` writes it with `--include_source_info` as well.
///
/// All else is as `descriptor_set` says. Source info stands between the options and the indices of
/// public imports, where its number, 9, has its place; its bytes are not looked at.
///
/// ```
/// let file = FileWithInfo { file: &files[0], source_code_info: Some(&info) };
/// fs::write(&rt, "shop.pb", &descriptor_set_with_info(rt.alloc(), &[file])?)?;
/// ```
pub fn descriptor_set_with_info(
    alloc: Global,
    files: &[FileWithInfo<'_>],
) -> Result<Vec<u8>, AllocError>
    ensures bytes { IfOk result
        (λ bytes. bytes.items ≡ spec.set_bytes_with_info (map file_and_info files.now)) }
    ensures spells { IfOk result
        (λ bytes. Spells (spec.set_entries_with_info (map file_and_info files.now)) bytes.items) }
{
    let mut out = Vec::with_capacity(alloc, room_with_info(files))?;
    put_parts(alloc, &mut out, FILE, files)?;
    Ok(out)
}

/// Room for the fields and for source info.
fn room_with_info(files: &[FileWithInfo<'_>]) -> usize {
    let mut room: usize = 0;
    for each in files {
        let info = each.source_code_info.map_or(0, <[u8]>::len);
        room = room.saturating_add(room_of(each.file)).saturating_add(info);
    }
    room
}
