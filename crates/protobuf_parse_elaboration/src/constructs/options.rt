//! What the statements among options set, and what is wrong in them.

mod builtin;
mod entries;
mod said;
mod sets;
mod statements;
mod strings;
mod tables;
mod tell;
mod texts;

ghost use Rattle.std.specs.Prelude.{◌≡◌, map, IfOk};
ghost use Rattle.protobuf_parse_syntax.specs.Trees.{option_syntax};
ghost use Rattle.protobuf_parse_model.specs.BuiltinOptions.{options_seen};

pub use builtin::has_builtin_option;
use protobuf_parse_syntax::ProtobufOption;
pub use sets::{
    enum_options, enum_value_options, field_options, file_options, message_options, method_options,
    oneof_options, service_options,
};
pub use statements::options_in;
use std::alloc::{AllocError, Global};
pub use strings::{decoded_bytes, decoded_text};
pub use tell::{custom_bytes, custom_field_bytes};
pub use texts::{default_value, json_name_of};

/// The options of a list, one by one.
pub fn options_of(
    alloc: Global,
    options: &[ProtobufOption],
) -> Result<Vec<&ProtobufOption>, AllocError>
    ensures { IfOk result (λ v. options_seen v.items ≡ map option_syntax options.now) }
{
    let mut list = Vec::new(alloc);
    for option in options {
        list.push(option)?;
    }
    Ok(list)
}
