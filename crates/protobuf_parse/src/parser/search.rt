//! Which of several includes has a file.

ghost use Rattle.std.specs.Prelude.{◌≡◌, IfOk, map, string_bytes};
ghost use Rattle.protobuf_parse_base.specs.PathViews.{path_text};
ghost use Rattle.protobuf_parse.specs.Folders.{IsFirstFound, path_tried};

use protobuf_parse_base::proto_path::ProtoPath;
use protobuf_parse_run::{ResolveFault, ResolvedProtoFile};
use std::alloc::{AllocError, Global};

/// Looks for files in one include at a time.
pub trait LooksInIncludes {
    ghost use Rattle.std.specs.Prelude.{ℕ, List, Option, Result};
    ghost use Rattle.protobuf_parse_run.specs.declared.fault.ResolveFault.{ResolveFault};
    ghost use Rattle.protobuf_parse_run.specs.declared.source.ResolvedProtoFile.{ResolvedProtoFile};

    /// What may be answered for an include and a path, at any call.
    ghost may_find: { Self → List ℕ → List ℕ
        → Result (Option ResolvedProtoFile) ResolveFault → Type 0 };

    /// The file of this path in the include. None where there is no such file.
    fn look_in(
        &self,
        alloc: Global,
        include: &str,
        path: ProtoPath<'_>,
    ) -> Result<Option<ResolvedProtoFile>, ResolveFault>
        ensures { may_find self.now include.now (path_text path.entry) result };
}

/// The file of this path in the first include that has it, or the fault of the first include that
/// answers with one before any has it. None where no include has it.
pub fn first_found<L: LooksInIncludes>(
    looks: &L,
    alloc: Global,
    includes: &[String],
    path: ProtoPath<'_>,
) -> Result<Option<ResolvedProtoFile>, ResolveFault>
    ensures { IsFirstFound (λ include answer. L.may_find looks.now include (path_text path.entry)
        answer) (map string_bytes includes.now) result }
{
    for include in includes {
        match looks.look_in(alloc, include, path) {
            Ok(None) => {}
            Ok(Some(file)) => return Ok(Some(file)),
            Err(fault) => return Err(fault),
        }
    }
    Ok(None)
}

/// Where the path is looked for in an include: the include, a slash, and the path. An empty include
/// adds nothing, and a slash at its end isn't doubled. The one error is that memory is short.
pub fn join_include(alloc: Global, include: &str, path: ProtoPath<'_>) -> Result<String, AllocError>
    ensures { IfOk result (λ s. string_bytes s ≡ path_tried include.now (path_text path.entry)) }
{
    let mut file = String::from_str(alloc, include)?;
    if !include.is_empty() && !include.as_bytes().ends_with(b"/") {
        file.push_str("/")?;
    }
    file.push_str(path.to_str())?;
    Ok(file)
}
