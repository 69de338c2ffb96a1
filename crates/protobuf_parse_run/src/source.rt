//! Who is asked for files: a resolver of proto paths, and a reader of the inputs that lie at a path
//! of their own.

ghost use Rattle.std.specs.Prelude.{◌≡◌, Err};
ghost use Rattle.protobuf_parse_run.specs.declared.fault.ReadInputFault.TheVariants.{NotFound};
ghost use Rattle.protobuf_parse_base.specs.PathViews.{path_text};

use crate::fault::{ReadInputFault, ResolveFault};
use protobuf_parse_base::proto_path::ProtoPath;
use std::alloc::Global;
use std::fmt::Display;

/// A file that a resolver found.
#[derive(Debug, PartialEq, Eq, Drop)]
pub struct ResolvedProtoFile {
    /// Where it was found, as faults name it.
    pub path: String,
    pub content: Vec<u8>,
}

/// Finds the files that inputs and imports name by proto paths. Its text tells where it looks.
pub trait ProtoPathResolver: Display {
    ghost use Rattle.std.specs.Prelude.{ℕ, List, Option, Result};
    ghost use Rattle.protobuf_parse_run.specs.declared.fault.ResolveFault.{ResolveFault};
    ghost use Rattle.protobuf_parse_run.specs.declared.source.ResolvedProtoFile.{ResolvedProtoFile};

    /// What may be answered for a path, at any call.
    ghost may_answer: { Self → List ℕ → Result (Option ResolvedProtoFile) ResolveFault → Type 0 };

    /// The file that the path names, or None where there is no such file.
    ///
    /// A fault ends the run: [`ResolveFault::Memory`] as [`RunFault::Memory`](crate::RunFault), any
    /// other as L5.
    fn resolve(
        &self,
        alloc: Global,
        path: ProtoPath<'_>,
    ) -> Result<Option<ResolvedProtoFile>, ResolveFault>
        ensures legal { may_answer self.now (path_text path.entry) result };
}

/// Reads inputs at paths of their own.
pub trait InputReader {
    ghost use Rattle.std.specs.Prelude.{ℕ, List, Result};
    ghost use Rattle.std.specs.Global.{Vec};
    ghost use Rattle.protobuf_parse_run.specs.declared.fault.ReadInputFault.{ReadInputFault};

    /// What may be answered for a path, at any call.
    ghost may_read: { Self → List ℕ → Result (Vec ℕ) ReadInputFault → Type 0 };

    /// The content of the file at this path.
    ///
    /// A fault ends the run: [`ReadInputFault::Memory`] as [`RunFault::Memory`](crate::RunFault),
    /// any other as L4.
    fn read(&self, alloc: Global, path: &str) -> Result<Vec<u8>, ReadInputFault>
        ensures legal { may_read self.now path.now result };
}

/// A reader that finds nothing.
#[derive(Clone, Copy, Debug)]
pub struct NoReader;

impl InputReader for NoReader {
    ghost may_read = { λ _ _ answer. answer ≡ Err NotFound };

    fn read(&self, _alloc: Global, _path: &str) -> Result<Vec<u8>, ReadInputFault> {
        Err(ReadInputFault::NotFound)
    }
}

/// All that a run asks.
#[derive(Drop)]
pub struct Sources<'a, R, I> {
    pub resolver: &'a R,
    pub reader: &'a I,
    /// Proto paths and texts, which stand for what the resolver has no file for.
    pub bundled: &'a [(&'a str, &'a str)],
}
