//! Why a run gave no descriptors.

ghost use Rattle.std.specs.Prelude.{◌≡◌};
ghost use Rattle.protobuf_parse_run.specs.declared.fault.RunFault.TheVariants.{Memory};

use protobuf_parse_base::proto_path::PathError;
use protobuf_parse_model::ElabError;
use protobuf_parse_syntax::ParserErrorWithLocation;
use std::alloc::{AllocError, AllocFailed};
use std::fmt;
use thiserror::Error;

/// Why a run gave no descriptors.
#[derive(Debug, PartialEq, Eq, Drop, Error)]
pub enum RunFault {
    #[error("out of memory")]
    Memory,
    /// L1: the content of the file of this proto path isn't UTF-8.
    #[error("file `{0}` content is not UTF-8")]
    ContentIsNotUtf8(String),
    /// L2: neither the resolver nor the table of bundled files has this proto path. The second text
    /// is the resolver's own.
    #[error("protobuf path `{}` is not found in import path{}", .0, behind_blank(.1))]
    FileNotFoundInImportPath(String, String),
    /// L3: no include is a front of the input. The second text lists the includes, as `["a", "b"]`.
    #[error("file `{0}` must reside in include path {1}")]
    FileMustResideInImportPath(String, String),
    /// L4: the file of this path, an input's own, could not be read.
    #[error("could not read file `{0}`: {1}")]
    CouldNotReadFile(String, ReadInputFault),
    /// L5: the resolver gave a fault for this proto path.
    #[error("could not resolve `{}`:{}", .0, reason_behind_blank(.1))]
    Resolver(String, ResolveFault),
    /// L6: the input's own file, the first path, has other content than was loaded for the proto
    /// path.
    #[error("input `{0}` is shadowed: `{1}` was loaded with other content")]
    Shadowed(String, String),
    /// L7: the file of this proto path imports itself, through others or at once.
    #[error("import cycle at `{0}`")]
    ImportCycle(String),
    /// L8: a chain of imports from the input with this proto path has more than 100 files.
    #[error("import chain too long from `{0}`")]
    ImportChainTooLong(String),
    /// L9: the text of this file has no tree.
    #[error("error in `{0}`: {1}")]
    Parse(String, ParserErrorWithLocation),
    /// L10: a fault stands in this file.
    #[error("error in `{0}`: {1}")]
    Elaborate(String, ElabError),
    /// L11: what is left of this input, once its include is taken off, is no proto path.
    #[error("input `{0}`: {1}")]
    InputPath(String, PathError),
}

/// Why an input's own file could not be read.
#[derive(Clone, Copy, Debug, PartialEq, Eq, Error)]
pub enum ReadInputFault {
    #[error("out of memory")]
    Memory,
    #[error("not found")]
    NotFound,
    #[error("read failed")]
    Failed,
}

/// Why a resolver could not say what a proto path names.
#[derive(Debug, PartialEq, Eq, Drop, Error)]
pub enum ResolveFault {
    #[error("out of memory")]
    Memory,
    /// The file of this path could not be read.
    #[error("could not read file `{0}`")]
    CouldNotRead(String),
    /// The resolver refuses, for this reason.
    #[error("{0}")]
    Refused(String),
}

/// A text behind a blank; where it is empty, nothing, so that no line ends in a blank.
#[derive(Clone, Copy)]
struct Behind<'a>(&'a str);

fn behind_blank(text: &str) -> Behind<'_> {
    Behind(text)
}

impl<'a> fmt::Display for Behind<'a> {
    fn fmt<W: fmt::Write>(&self, f: &mut fmt::Formatter<W>) -> fmt::Result {
        if self.0.is_empty() {
            return Ok(());
        }
        f.write_str(" ")?;
        f.write_str(self.0)
    }
}

/// What a resolver's fault says, behind a blank; of an empty refusal nothing.
#[derive(Clone, Copy)]
struct ReasonBehind<'a>(&'a ResolveFault);

fn reason_behind_blank(fault: &ResolveFault) -> ReasonBehind<'_> {
    ReasonBehind(fault)
}

impl<'a> fmt::Display for ReasonBehind<'a> {
    fn fmt<W: fmt::Write>(&self, f: &mut fmt::Formatter<W>) -> fmt::Result {
        match self.0 {
            ResolveFault::Refused(reason) => fmt::Display::fmt(&Behind(reason), f),
            ResolveFault::Memory | ResolveFault::CouldNotRead(_) => {
                f.write_str(" ")?;
                fmt::Display::fmt(self.0, f)
            }
        }
    }
}

impl From<AllocError> for RunFault {
    ghost from_gives = { λ _ e. e ≡ Memory };

    fn from(_error: AllocError) -> RunFault {
        RunFault::Memory
    }
}

impl<T: Drop> From<AllocFailed<T>> for RunFault {
    ghost from_gives = { λ _ e. e ≡ Memory };

    fn from(_error: AllocFailed<T>) -> RunFault {
        RunFault::Memory
    }
}
