//! Declarations in the order of their files.

ghost use Rattle.std.specs.Prelude.{◌≡◌, nat_eq};
ghost use Rattle.std.specs.Prelude.{filter};
ghost use Rattle.protobuf_parse_model.specs.declared.scope.seen.Declaration as declaration;
ghost use Rattle.protobuf_parse_model.specs.FileOrder.{FilesAscend};

use super::seen::Declaration;

/// Those of the declarations that stand in the file with that number.
pub fn in_file(declarations: &[Declaration], file: u32) -> &[Declaration]
    requires { FilesAscend declarations.now }
    ensures { result.now
        ≡ filter (λ (d : declaration.Declaration). nat_eq d.file file) declarations.now }
{
    let start = declarations.partition_point(|d| d.file < file);
    let rest = &declarations[start..];
    let end = rest.partition_point(|d| d.file <= file);
    &rest[..end]
}
