//! Laws of the definitions. The functions do nothing.

ghost use Rattle.protobuf_parse_set_laws.specs.Kept.{SetsAreReadBack, SetsWithInfoAreReadBack};

/// What `descriptor_set` writes of files is read by `read_descriptor_set` as these files in the
/// form that sets have: an options message in which nothing is set is none, oneofs stand in the
/// order of the set and fields say their places there, an end of `max` in a message set is
/// 2147483647, and `syntax` is there where it is proto3.
///
/// Asked for is what Rust's types say, that texts are UTF-8 and numbers are `i32`, and besides that
/// each file has a name, that at most 100 messages stand inside one another, that the bytes of
/// custom options are records of which none sets a built-in option, and that the set has fewer than
/// 2^64 bytes.
///
/// The same holds of what `descriptor_set_with_info` writes, and `read_descriptor_set_with_info`
/// reads the source info of each file as well, which may be any bytes.
pub fn sets_are_read_back()
    ensures without_info { SetsAreReadBack }
    ensures with_info { SetsWithInfoAreReadBack }
{}
