//! The full names of what descriptors declare. The reader makes them by code of its own, since it
//! shares none with what writes.

ghost use Rattle.std.specs.Prelude.{◌≡◌, IfOk, string_bytes};
ghost use Rattle.protobuf_parse_model.specs.Descriptors.{file_view};
ghost use Rattle.protobuf_parse_wire.specs.Declarations.{name_within, package_scope};

use protobuf_parse_base::joins::join_at_dot;
use protobuf_parse_model::FileDescriptorProto;
use std::alloc::{AllocError, Global};

/// The full name of what has the name in the scope, which is a full name or nothing. The one error
/// is that memory is short.
pub fn name_within(alloc: Global, scope: &str, name: &str) -> Result<String, AllocError>
    ensures { IfOk result (λ s. string_bytes s ≡ name_within scope.now name.now) }
{
    join_at_dot(alloc, scope, name)
}

/// The scope of what a file declares: its package, if it has one, after a dot. The one error is
/// that memory is short.
pub fn package_scope(alloc: Global, file: &FileDescriptorProto) -> Result<String, AllocError>
    ensures { IfOk result (λ s. string_bytes s ≡ package_scope (file_view file.now).«package») }
{
    match &file.package {
        Some(package) => name_within(alloc, "", package),
        None => Ok(String::new(alloc)),
    }
}
