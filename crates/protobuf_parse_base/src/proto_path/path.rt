//! Proto paths.
ghost use Rattle.std.specs.Prelude.{◌≡◌, ◌↔◌, IsOk, ◌≢◌, IfOk, IfErr, None, Some};
ghost use Rattle.std.specs.String.{string_bytes};
ghost use Rattle.protobuf_parse_base.specs.Paths.{path_fault, host_path_fault, kept_parts, joined};
ghost use Rattle.protobuf_parse_base.specs.Paths.{IsProtoPath};

use super::check;
use super::error::PathError;
use super::parts::{join_parts, kept_parts};
use std::alloc::{AllocError, Global};
use std::fmt;

/// A proto path, lent: one or more parts with slashes between them, each nonempty, without
/// backslashes, and neither `.` nor `..`.
///
/// See the Protocol Buffers Language Specification, "Import Statement" (<https://protobuf.dev>).
#[derive(Clone, Copy, Debug, PartialEq, Eq, Hash)]
pub struct ProtoPath<'a> {
    text: &'a str,
    pub ghost well_formed: { path_fault text.now ≡ None },
}

impl<'a> ProtoPath<'a> {
    ghost use Rattle.protobuf_parse_base.specs.PathViews.{path_text, path_buf_text};

    /// The proto path with this text. In this order, the error is [`PathError::Empty`],
    /// [`PathError::Backslashes`], or the fault of the first part that has one:
    /// [`PathError::EmptyComponent`], [`PathError::Dot`] or [`PathError::DotDot`]. It takes no
    /// memory, so it is never [`PathError::Memory`].
    pub fn new(text: &'a str) -> Result<Self, PathError>
        ensures accepted { IsOk result ↔ IsProtoPath text.now }
        ensures text { IfOk result (λ path. path_text path ≡ text.now) }
        ensures fault { IfErr result (λ fault. path_fault text.now ≡ Some fault) }
    {
        match check::fault_of(text) {
            Some(fault) => Err(fault),
            None => Ok(ProtoPath { text }),
        }
    }

    /// The text, for as long as it was lent.
    pub fn to_str(self) -> &'a str
        ensures text { result.now ≡ path_text self.entry }
        ensures proto_path { IsProtoPath result.now }
    {
        self.text
    }

    /// The same text, as a path of the host.
    pub fn to_path(self) -> &'a str
        ensures { result.now ≡ path_text self.entry }
    {
        self.text
    }

    /// A copy that owns its text. The one error is that memory is short.
    pub fn to_proto_path_buf(self, alloc: Global) -> Result<ProtoPathBuf, AllocError>
        ensures { IfOk result (λ path. path_buf_text path ≡ path_text self.entry) }
    {
        let text = String::from_str(alloc, self.text)?;
        Ok(ProtoPathBuf { text })
    }
}

/// A proto path that owns its text.
#[derive(Debug, Drop, PartialEq, Eq, Hash)]
pub struct ProtoPathBuf {
    text: String,
    pub ghost well_formed: { path_fault (string_bytes text) ≡ None },
}

impl ProtoPathBuf {
    ghost use Rattle.protobuf_parse_base.specs.PathViews.{path_text, path_buf_text};

    /// The proto path with this text, without a copy, or the errors of [`ProtoPath::new`].
    pub fn new(text: String) -> Result<Self, PathError>
        ensures accepted { IsOk result ↔ IsProtoPath (string_bytes text) }
        ensures text { IfOk result (λ path. path_buf_text path ≡ string_bytes text) }
        ensures fault { IfErr result (λ fault. path_fault (string_bytes text) ≡ Some fault) }
    {
        match check::fault_of(text.as_str()) {
            Some(fault) => Err(fault),
            None => Ok(ProtoPathBuf { text }),
        }
    }

    /// The proto path that a path of the host names: its parts between slashes without the empty
    /// ones and `.`. In this order, the error is [`PathError::Absolute`] for a first slash,
    /// [`PathError::Backslashes`], [`PathError::DotDot`] for a part `..`, or [`PathError::Empty`]
    /// if no part is left; in place of the last, or of a path, it may be [`PathError::Memory`].
    pub fn from_path(alloc: Global, text: &str) -> Result<Self, PathError>
        ensures ok { IfOk result (λ path. (path_buf_text path ≡ joined (kept_parts text.now))
            × (host_path_fault text.now ≡ None)) }
        ensures fault { IfErr result (λ fault. fault ≢ PathError.Memory
            → host_path_fault text.now ≡ Some fault) }
    {
        if text.starts_with('/') {
            return Err(PathError::Absolute);
        }
        if check::holds_backslash(text) {
            return Err(PathError::Backslashes);
        }
        if check::leads_up(text) {
            return Err(PathError::DotDot);
        }
        let Ok(kept) = without_idle_parts(alloc, text) else {
            return Err(PathError::Memory);
        };
        if kept.is_empty() {
            return Err(PathError::Empty);
        }
        Ok(ProtoPathBuf { text: kept })
    }

    /// The path, lent.
    pub fn as_path(&self) -> ProtoPath<'_>
        ensures { path_text result ≡ path_buf_text self.now }
    {
        ProtoPath {
            text: self.text.as_str(),
        }
    }
}

/// The path without its empty parts and `.`.
fn without_idle_parts(alloc: Global, path: &str) -> Result<String, AllocError>
    ensures { IfOk result (λ kept. string_bytes kept ≡ joined (kept_parts path.now)) }
{
    join_parts(alloc, &kept_parts(alloc, path)?)
}

impl<'a> fmt::Display for ProtoPath<'a> {
    ghost use Rattle.protobuf_parse_base.specs.PathViews.{path_text};

    ghost output = { λ path. Some (path_text path) };

    fn fmt<W: fmt::Write>(&self, f: &mut fmt::Formatter<W>) -> fmt::Result {
        f.write_str(self.text)
    }
}

impl fmt::Display for ProtoPathBuf {
    ghost use Rattle.protobuf_parse_base.specs.PathViews.{path_buf_text};

    ghost output = { λ path. Some (path_buf_text path) };

    fn fmt<W: fmt::Write>(&self, f: &mut fmt::Formatter<W>) -> fmt::Result {
        f.write_str(self.text.as_str())
    }
}
