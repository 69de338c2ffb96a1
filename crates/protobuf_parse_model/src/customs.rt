//! Custom options: who says what they become.

ghost use Rattle.std.specs.Prelude.{◌≡◌, ◌++◌, map, string_bytes, IfOk, OnOk};
ghost use Rattle.protobuf_parse_syntax.specs.Trees.{option_part_syntax};
ghost use Rattle.protobuf_parse_model.specs.SeenFiles.{name_texts};
ghost use Rattle.protobuf_parse_model.specs.Environment.{Customs, no_customs};
ghost use Rattle.protobuf_parse_model.specs.Environment.{part_text, option_path_text};
ghost use Rattle.protobuf_parse_model.specs.Faults.{found};
ghost use Rattle.protobuf_parse_model.specs.BuiltinOptions.{options_seen};

use crate::error::ElabError;
use protobuf_parse_syntax::{ProtobufOption, ProtobufOptionNamePart};
use std::alloc::{AllocError, Global};

/// What has options: each kind has an options message of its own in
/// google/protobuf/descriptor.proto.
#[derive(Clone, Copy)]
pub enum Construct {
    File,
    Message,
    Field,
    Oneof,
    Enum,
    EnumValue,
    Service,
    Method,
}

/// Who says what custom options become.
pub trait CustomOptions {
    /// What is wrong in the custom options of constructs, and the bytes that they become.
    ghost customs: { Self → Customs };

    /// The bytes that the custom options become among the statements that set the options of a
    /// construct.
    ///
    /// The names of extensions are looked up from the scope: the names of the package and of the
    /// messages around the construct, the outermost first. What is wrong is added to the faults,
    /// each at its option.
    fn bytes(
        &self,
        alloc: Global,
        faults: &mut Vec<ElabError>,
        construct: Construct,
        scope: &[&str],
        options: &[&ProtobufOption],
    ) -> Result<Vec<u8>, AllocError>
        ensures value { let c = customs self.now in let os = options_seen options.now in
            IfOk result (λ v. v.items ≡ c.bytes construct (name_texts scope.now) os) }
        ensures faults { let c = customs self.now in let os = options_seen options.now in
            OnOk result (found faults.new ≡ found faults.old
            ++ c.faults construct (name_texts scope.now) os) };
}

/// Leaves custom options out: nothing is wrong in any, and each becomes no bytes.
#[derive(Clone, Copy)]
pub struct WithoutCustoms;

impl CustomOptions for WithoutCustoms {
    ghost customs = { λ c. no_customs };

    fn bytes(
        &self,
        alloc: Global,
        _faults: &mut Vec<ElabError>,
        _construct: Construct,
        _scope: &[&str],
        _options: &[&ProtobufOption],
    ) -> Result<Vec<u8>, AllocError> {
        Ok(Vec::new(alloc))
    }
}

/// The name of a custom option as it is written, with extensions in parentheses.
pub fn path_text(alloc: Global, parts: &[ProtobufOptionNamePart]) -> Result<String, AllocError>
    ensures { IfOk result
        (λ s. string_bytes s ≡ option_path_text (map option_part_syntax parts.now)) }
{
    let mut text = String::new(alloc);
    let [first, others @ ..] = parts else {
        return Ok(text);
    };
    push_part(&mut text, first)?;
    for part in others {
        text.push('.')?;
        push_part(&mut text, part)?;
    }
    Ok(text)
}

/// Adds a part, an extension in parentheses.
fn push_part(text: &mut String, part: &ProtobufOptionNamePart) -> Result<(), AllocError>
    ensures { OnOk result
        (string_bytes text.new ≡ string_bytes text.old ++ part_text (option_part_syntax part.now)) }
{
    match part {
        ProtobufOptionNamePart::Direct(name) => text.push_str(name),
        ProtobufOptionNamePart::Ext(name) => {
            text.push('(')?;
            text.push_str(name)?;
            text.push(')')
        }
    }
}
