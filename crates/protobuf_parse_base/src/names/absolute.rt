//! Absolute paths: identifiers with a dot before each.
ghost use Rattle.std.specs.Prelude.{◌≡◌, ◌≢◌, ◌↔◌, ◌||◌, ◌<◌, ℕ, List, [], ◌∷◌, ◌++◌, map, length};
ghost use Rattle.std.specs.Prelude.{IsTrue, IsSome, IfOk, OnOk, OnErr, IfSome, IfNone, MatchOption};
ghost use Rattle.std.specs.Prelude.{Some, is_some};
ghost use Rattle.std.specs.String.{string_bytes};
ghost use Rattle.std.specs.Option.{ForSome};
ghost use Rattle.protobuf_parse_base.specs.Names.{is_absolute, is_relative, looks_absolute};
ghost use Rattle.protobuf_parse_base.specs.Names.{are_idents, absolute_text, absolute_idents};
ghost use Rattle.protobuf_parse_base.specs.Names.{relative_idents, IsAbsolute, fronts};

use super::dots;
use super::ident::{ProtobufIdent, ProtobufIdentRef};
use super::relative::{ProtobufRelPath, ProtobufRelPathRef};
use crate::joins::join_at_dot;
use std::alloc::{AllocError, Global};
use std::fmt;

/// An absolute path, lent: the empty text, which is the root, or identifiers with a dot before
/// each.
///
/// See the Protocol Buffers Language Specification, "Identifiers" (<https://protobuf.dev>).
#[derive(Clone, Copy, Debug, PartialEq, Eq, Hash)]
pub struct ProtobufAbsPathRef<'a> {
    text: &'a str,
    pub ghost well_formed: { IsTrue (is_absolute text.now) },
}

/// Whether the text is that of an absolute path.
fn is_absolute_text(text: &str) -> bool
    ensures test { result ≡ is_absolute text.now }
    ensures meaning { IsTrue result ↔ IsAbsolute text.now }
{
    match text.strip_prefix('.') {
        Some(rest) => dots::parts_are_idents(rest),
        None => text.is_empty(),
    }
}

impl<'a> ProtobufAbsPathRef<'a> {
    ghost use Rattle.protobuf_parse_base.specs.NameViews.{abs_ref_text, abs_ref_idents, abs_text};
    ghost use Rattle.protobuf_parse_base.specs.NameViews.{abs_idents, rel_ref_idents};

    /// The path with this text, if the text is an absolute path.
    pub fn try_new(text: &'a str) -> Option<Self>
        ensures test { is_some result ≡ is_absolute text.now }
        ensures accepted { IsSome result ↔ IsAbsolute text.now }
        ensures text { IfSome result (λ path. abs_ref_text path ≡ text.now) }
    {
        if is_absolute_text(text) {
            Some(ProtobufAbsPathRef { text })
        } else {
            None
        }
    }

    /// The path with this text.
    pub fn new(text: &'a str) -> Self
        requires { IsTrue (is_absolute text.now) }
        ensures { abs_ref_text result ≡ text.now }
    {
        ProtobufAbsPathRef { text }
    }

    /// The path with no identifier.
    pub fn root() -> Self
        ensures text { abs_ref_text result ≡ [] }
        ensures idents { abs_ref_idents result ≡ [] }
    {
        ProtobufAbsPathRef { text: "" }
    }

    /// Whether the path has no identifier.
    pub fn is_root(self) -> bool
        ensures { IsTrue result ↔ (abs_ref_idents self.entry ≡ []) }
    {
        self.text.is_empty()
    }

    /// The text, for as long as it was lent.
    pub fn as_str(self) -> &'a str
        ensures text { result.now ≡ abs_ref_text self.entry }
        ensures joined { result.now ≡ absolute_text (abs_ref_idents self.entry) }
        ensures idents { IsTrue (are_idents (abs_ref_idents self.entry)) }
    {
        self.text
    }

    /// A copy that owns its text. The one error is that memory is short.
    pub fn to_owned(self, alloc: Global) -> Result<ProtobufAbsPath, AllocError>
        ensures { IfOk result (λ path. abs_text path ≡ abs_ref_text self.entry) }
    {
        ProtobufAbsPath::new(alloc, self.text)
    }

    /// What follows `prefix` in this path, or `None` where the path does not begin with it.
    pub fn remove_prefix(self, prefix: ProtobufAbsPathRef<'_>) -> Option<ProtobufRelPathRef<'a>>
        ensures { MatchOption result
            ((rest : List (List ℕ))
            → abs_ref_idents self.entry ≢ abs_ref_idents prefix.entry ++ rest)
            (λ rest. abs_ref_idents self.entry ≡ abs_ref_idents prefix.entry
            ++ rel_ref_idents rest) }
    {
        let rest = self.text.strip_prefix(prefix.text)?;
        if rest.is_empty() {
            return Some(ProtobufRelPathRef::empty());
        }
        let after_dot = rest.strip_prefix('.')?;
        Some(ProtobufRelPathRef::new(after_dot))
    }

    /// Whether the path begins with `prefix`.
    pub fn starts_with(self, prefix: ProtobufAbsPathRef<'_>) -> bool
        ensures { IsTrue result ↔ ((rest : List (List ℕ))
            × (abs_ref_idents self.entry ≡ abs_ref_idents prefix.entry ++ rest)) }
    {
        self.remove_prefix(prefix).is_some()
    }

    /// The path without its last identifier, or `None` of the root.
    pub fn parent(self) -> Option<Self>
        ensures { MatchOption result (abs_ref_idents self.entry ≡ [])
            (λ parent. (last : List ℕ)
            × (abs_ref_idents self.entry ≡ abs_ref_idents parent ++ last ∷ [])) }
    {
        let (parent, _) = dots::cut_last(self.text)?;
        Some(ProtobufAbsPathRef::new(parent))
    }

    /// Every front of the path once, the whole path first and the root last. The one error is that
    /// memory is short.
    pub fn self_and_parents(self, alloc: Global) -> Result<Vec<ProtobufAbsPathRef<'a>>, AllocError>
        ensures { IfOk result
            (λ paths. map abs_ref_idents paths.items ≡ fronts (abs_ref_idents self.entry)) }
    {
        let mut paths = Vec::new(alloc);
        let mut next = Some(self);
        while let Some(path) = next {
            paths.push(path)?;
            next = path.parent();
        }
        Ok(paths)
    }
}

/// An absolute path that owns its text.
#[derive(Debug, Drop, PartialEq, Eq, Hash)]
pub struct ProtobufAbsPath {
    text: String,
    pub ghost well_formed: { IsTrue (is_absolute (string_bytes text)) },
}

impl ProtobufAbsPath {
    ghost use Rattle.protobuf_parse_base.specs.NameViews.{ident_ref_text, ident_text};
    ghost use Rattle.protobuf_parse_base.specs.NameViews.{rel_ref_idents, rel_idents, abs_ref_text};
    ghost use Rattle.protobuf_parse_base.specs.NameViews.{abs_ref_idents, abs_text, abs_idents};

    /// The weak test: whether the text is empty, or begins with a dot and is not `.`.
    pub fn is_abs(text: &str) -> bool
        ensures { result ≡ looks_absolute text.now }
    {
        text.is_empty() || (text.starts_with('.') && text != ".")
    }

    /// A copy of this text as a path, or `None` if the text is no absolute path. The one error is
    /// that memory is short.
    pub fn try_new(alloc: Global, text: &str) -> Result<Option<Self>, AllocError>
        ensures test { IfOk result (λ path. is_some path ≡ is_absolute text.now) }
        ensures accepted { IfOk result (λ path. IsSome path ↔ IsAbsolute text.now) }
        ensures text { IfOk result (λ path. IfSome path (λ path. abs_text path ≡ text.now)) }
    {
        if !is_absolute_text(text) {
            return Ok(None);
        }
        Ok(Some(ProtobufAbsPath::new(alloc, text)?))
    }

    /// A copy of this text, as a path. The one error is that memory is short.
    pub fn new(alloc: Global, text: &str) -> Result<Self, AllocError>
        requires { IsTrue (is_absolute text.now) }
        ensures { IfOk result (λ path. abs_text path ≡ text.now) }
    {
        let text = String::from_str(alloc, text)?;
        Ok(ProtobufAbsPath { text })
    }

    /// The path with the identifiers of a relative path's text. The one error is that memory is
    /// short.
    pub fn new_from_rel(alloc: Global, text: &str) -> Result<Self, AllocError>
        requires { IsTrue (is_relative text.now) }
        ensures { IfOk result (λ path. abs_idents path ≡ relative_idents text.now) }
    {
        if text.is_empty() {
            return Ok(ProtobufAbsPath::root(alloc));
        }
        let text = join_at_dot(alloc, "", text)?;
        Ok(ProtobufAbsPath { text })
    }

    /// The path with no identifier.
    pub fn root(alloc: Global) -> Self
        ensures text { abs_text result ≡ [] }
        ensures idents { abs_idents result ≡ [] }
    {
        ProtobufAbsPath {
            text: String::new(alloc),
        }
    }

    /// The path, lent.
    pub fn as_ref(&self) -> ProtobufAbsPathRef<'_>
        ensures { abs_ref_text result ≡ abs_text self.now }
    {
        ProtobufAbsPathRef::new(self.text.as_str())
    }

    /// The path followed by a relative one. The one error is that memory is short.
    pub fn concat(&self, alloc: Global, path: ProtobufRelPathRef<'_>) -> Result<Self, AllocError>
        ensures { IfOk result
            (λ joined. abs_idents joined ≡ abs_idents self.now ++ rel_ref_idents path.entry) }
    {
        if path.is_empty() {
            return self.as_ref().to_owned(alloc);
        }
        let text = join_at_dot(alloc, self.text.as_str(), path.as_str())?;
        Ok(ProtobufAbsPath { text })
    }

    /// The path with the identifiers of this text, which begins with no dot. The one error is that
    /// memory is short.
    pub fn from_path_without_dot(alloc: Global, text: &str) -> Result<Self, AllocError>
        requires nonempty { 0 < length text.now }
        requires relative { IsTrue (is_relative text.now) }
        ensures { IfOk result (λ path. abs_idents path ≡ relative_idents text.now) }
    {
        ProtobufAbsPath::new_from_rel(alloc, text)
    }

    /// The path with the identifiers of this text, which may begin with a dot. The one error is
    /// that memory is short.
    pub fn from_path_maybe_dot(alloc: Global, text: &str) -> Result<Self, AllocError>
        requires nonempty { 0 < length text.now }
        requires well_formed { IsTrue (is_absolute text.now || is_relative text.now) }
        ensures absolute { IsTrue (is_absolute text.now)
            → IfOk result (λ path. abs_idents path ≡ absolute_idents text.now) }
        ensures relative { IsTrue (is_relative text.now)
            → IfOk result (λ path. abs_idents path ≡ relative_idents text.now) }
    {
        if text.starts_with('.') {
            ProtobufAbsPath::new(alloc, text)
        } else {
            ProtobufAbsPath::from_path_without_dot(alloc, text)
        }
    }

    /// The path of a file's package, the root where the file has none. The one error is that memory
    /// is short.
    pub fn package_from_file_proto(alloc: Global, package: Option<&str>) -> Result<Self, AllocError>
        requires { ForSome «package» (λ text. IsTrue (is_relative text.now)) }
        ensures { IfOk result (λ path. MatchOption «package».entry (abs_idents path ≡ [])
            (λ text. abs_idents path ≡ relative_idents text.now)) }
    {
        match package {
            Some(text) => ProtobufAbsPath::new_from_rel(alloc, text),
            None => Ok(ProtobufAbsPath::root(alloc)),
        }
    }

    /// Adds an identifier at the end. The one error is that memory is short: the path is then as it
    /// was.
    pub fn push_simple(&mut self, simple: ProtobufIdentRef<'_>) -> Result<(), AllocError>
        ensures ok { OnOk result
            (abs_idents self.new ≡ abs_idents self.old ++ ident_ref_text simple.entry ∷ []) }
        ensures err { OnErr result (abs_text self.new ≡ abs_text self.old) }
    {
        self.push_relative(ProtobufRelPathRef::new(simple.as_str()))
    }

    /// Adds a relative path at the end. The one error is that memory is short: the path is then as
    /// it was.
    pub fn push_relative(&mut self, relative: ProtobufRelPathRef<'_>) -> Result<(), AllocError>
        ensures ok { OnOk result
            (abs_idents self.new ≡ abs_idents self.old ++ rel_ref_idents relative.entry) }
        ensures err { OnErr result (abs_text self.new ≡ abs_text self.old) }
    {
        if relative.is_empty() {
            return Ok(());
        }
        let relative = relative.as_str();
        self.text.reserve(relative.len() + 1)?;
        self.text.push('.')?;
        self.text.push_str(relative)?;
        Ok(())
    }

    /// What precedes `suffix` in this path, or `None` where the path does not end with it.
    pub fn remove_suffix(&self, suffix: ProtobufRelPathRef<'_>) -> Option<ProtobufAbsPathRef<'_>>
        ensures { MatchOption result
            ((front : List (List ℕ)) → abs_idents self.now ≢ front ++ rel_ref_idents suffix.entry)
            (λ front. abs_idents self.now ≡ abs_ref_idents front ++ rel_ref_idents suffix.entry) }
    {
        if suffix.is_empty() {
            return Some(self.as_ref());
        }
        let front = self.text.as_str().strip_suffix(suffix.as_str())?;
        let before_dot = front.strip_suffix('.')?;
        Some(ProtobufAbsPathRef::new(before_dot))
    }

    /// Whether the path ends with `suffix`.
    pub fn ends_with(&self, suffix: ProtobufRelPathRef<'_>) -> bool
        ensures { IsTrue result ↔ ((front : List (List ℕ))
            × (abs_idents self.now ≡ front ++ rel_ref_idents suffix.entry)) }
    {
        self.remove_suffix(suffix).is_some()
    }

    /// Takes the last identifier off, or gives `None` at the root. The one error is that memory is
    /// short: the path is then as it was.
    pub fn pop(&mut self, alloc: Global) -> Result<Option<ProtobufIdent>, AllocError>
        ensures root { IfOk result (λ last. IfNone last (abs_idents self.old ≡ [])) }
        ensures kept { IfOk result (λ last. IfNone last (abs_text self.new ≡ abs_text self.old)) }
        ensures popped { IfOk result
            (λ last.
            IfSome last (λ ident. abs_idents self.old ≡ abs_idents self.new ++ ident_text ident
            ∷ [])) }
        ensures err { OnErr result (abs_text self.new ≡ abs_text self.old) }
    {
        let Some((front, last)) = dots::cut_last(self.text.as_str()) else {
            return Ok(None);
        };
        let last = ProtobufIdent::new(alloc, last)?;
        let kept = front.len();
        self.text.truncate(kept);
        Ok(Some(last))
    }

    /// The relative path with the same identifiers. The one error is that memory is short.
    pub fn to_root_rel(&self, alloc: Global) -> Result<ProtobufRelPath, AllocError>
        ensures { IfOk result (λ path. rel_idents path ≡ abs_idents self.now) }
    {
        match self.text.as_str().strip_prefix('.') {
            Some(relative) => ProtobufRelPath::new(alloc, relative),
            None => Ok(ProtobufRelPath::empty(alloc)),
        }
    }
}

impl<'a> fmt::Display for ProtobufAbsPathRef<'a> {
    ghost use Rattle.protobuf_parse_base.specs.NameViews.{abs_ref_text};

    ghost output = { λ path. Some (abs_ref_text path) };

    fn fmt<W: fmt::Write>(&self, f: &mut fmt::Formatter<W>) -> fmt::Result {
        f.write_str(self.text)
    }
}

impl fmt::Display for ProtobufAbsPath {
    ghost use Rattle.protobuf_parse_base.specs.NameViews.{abs_text};

    ghost output = { λ path. Some (abs_text path) };

    fn fmt<W: fmt::Write>(&self, f: &mut fmt::Formatter<W>) -> fmt::Result {
        f.write_str(self.text.as_str())
    }
}
