//! Files of a run, picked by their numbers.

ghost use Rattle.std.specs.List.Sorted.{IsStrictlyIncreasing};

use protobuf_parse_model::FileDescriptorProto;

/// Files of a run, by their numbers.
#[derive(Clone, Copy)]
pub struct PickedFiles<'a> {
    /// The numbers, ascending.
    pub numbers: &'a [u32],
    pub ghost ascends: { IsStrictlyIncreasing numbers.now },
    /// The descriptors of the files with these numbers, in the same order: none where there is no
    /// such file.
    pub files: &'a [Option<&'a FileDescriptorProto>],
}
