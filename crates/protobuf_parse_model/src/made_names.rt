//! Names that the language makes of others.

ghost use Rattle.std.specs.Prelude.{◌≡◌, IfOk, string_bytes};
ghost use Rattle.protobuf_parse_model.specs.Statements as statements;

use protobuf_parse_base::text::camel_case_and;
use std::alloc::{AllocError, Global};

/// The name of the message behind the map of that name.
pub fn entry_name(alloc: Global, name: &str) -> Result<String, AllocError>
    ensures { IfOk result (λ s. string_bytes s ≡ statements.entry_name name.now) }
{
    camel_case_and(alloc, name, "Entry")
}

/// The name of a group's field.
pub fn group_field_name(alloc: Global, name: &str) -> Result<String, AllocError>
    ensures { IfOk result (λ s. string_bytes s ≡ statements.group_field_name name.now) }
{
    name.to_ascii_lowercase(alloc)
}
