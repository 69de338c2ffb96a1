//! The table of the files.

ghost use Rattle.std.specs.Prelude.{◌≡◌};
ghost use Rattle.protobuf_parse_google.specs.Google.{google, rows};

use crate::any_proto::ANY;
use crate::api_proto::API;
use crate::descriptor_proto::DESCRIPTOR;
use crate::duration_proto::DURATION;
use crate::empty_proto::EMPTY;
use crate::field_mask_proto::FIELD_MASK;
use crate::plugin_proto::PLUGIN;
use crate::source_context_proto::SOURCE_CONTEXT;
use crate::struct_proto::STRUCT;
use crate::timestamp_proto::TIMESTAMP;
use crate::type_proto::TYPE;
use crate::wrappers_proto::WRAPPERS;

/// Each file's proto path and text, in the order of paths.
const GOOGLE_FILES: &[(&str, &str)] = &[
    ("google/protobuf/any.proto", ANY),
    ("google/protobuf/api.proto", API),
    ("google/protobuf/compiler/plugin.proto", PLUGIN),
    ("google/protobuf/descriptor.proto", DESCRIPTOR),
    ("google/protobuf/duration.proto", DURATION),
    ("google/protobuf/empty.proto", EMPTY),
    ("google/protobuf/field_mask.proto", FIELD_MASK),
    ("google/protobuf/source_context.proto", SOURCE_CONTEXT),
    ("google/protobuf/struct.proto", STRUCT),
    ("google/protobuf/timestamp.proto", TIMESTAMP),
    ("google/protobuf/type.proto", TYPE),
    ("google/protobuf/wrappers.proto", WRAPPERS),
];

/// The proto path and the text of each file: a table that a run or a check takes.
pub fn google_files() -> &'static [(&'static str, &'static str)]
    ensures { rows result.now ≡ google }
{
    GOOGLE_FILES
}
