//! Files with source info, which is given as bytes.

ghost use Rattle.std.specs.Prelude.{◌≡◌, option_map};
ghost use Rattle.protobuf_parse_set_reader.specs.Answers.{Gives};
ghost use Rattle.protobuf_parse_set_reader.specs.Bodies.{body_view};
ghost use Rattle.protobuf_parse_set_reader.specs.Reading as spec;
ghost use Rattle.protobuf_parse_set_reader.specs.SourceInfo.{set_file_view};
ghost use Rattle.protobuf_parse_set_reader.specs.Values as values;

use crate::body::{Body, inside_of, last};
use crate::fault::SetError;
use crate::parts::Part;
use crate::type_names::TypeNames;
use protobuf_parse_model::FileDescriptorProto;
use std::alloc::Global;

/// The number of the source info in a `FileDescriptorProto`.
const SOURCE_CODE_INFO: u32 = 9;

/// A file of a set, with its source info.
#[derive(Debug, PartialEq, Eq, Drop)]
pub struct SetFile {
    pub file: FileDescriptorProto,
    /// The bytes of its `SourceCodeInfo`, if it has one. They are not looked at.
    pub source_code_info: Option<Vec<u8>>,
}

impl Part for SetFile {
    ghost View = { spec.SetFileView };

    ghost view = { set_file_view };

    ghost of = { spec.set_file_of };

    #[tactic(auto, unfolding(crate::specs::Reading::set_file_of))]
    fn read(alloc: Global, types: &TypeNames, body: &Body<'_>) -> Result<Self, SetError> {
        let file = FileDescriptorProto::read(alloc, types, body)?;
        let source_code_info = merged_bytes(alloc, body, SOURCE_CODE_INFO)?;
        Ok(SetFile {
            file,
            source_code_info,
        })
    }
}

/// The bytes of a message that is not repeated, if it is there.
#[tactic(auto, unfolding(crate::specs::Values::merged_bytes))]
fn merged_bytes(alloc: Global, body: &Body<'_>, number: u32) -> Result<Option<Vec<u8>>, SetError>
    ensures { Gives (option_map (λ v. v.items)) result
        (values.merged_bytes number (body_view body.now)) }
{
    if last(body, number).is_none() {
        return Ok(None);
    }
    let bytes = bytes_together(alloc, body, number)?;
    Ok(Some(bytes))
}

/// The bytes that all records with that number hold, one behind the other.
fn bytes_together(alloc: Global, body: &Body<'_>, number: u32) -> Result<Vec<u8>, SetError>
    ensures { Gives (λ v. v.items) result (values.all_of values.bytes_inside
        (values.numbered number (body_view body.now).records)) }
{
    let mut all = Vec::new(alloc);
    for record in &body.records {
        if record.number == number {
            let inside = inside_of(*record)?;
            all.extend_from_slice(inside.bytes)?;
        }
    }
    Ok(all)
}
