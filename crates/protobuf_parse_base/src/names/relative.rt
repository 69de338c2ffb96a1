//! Relative paths: identifiers with dots between them.
ghost use Rattle.std.specs.Prelude.{◌≡◌, ◌↔◌, ℕ, List, [], ◌∷◌, ◌++◌, map, IsTrue, IfOk};
ghost use Rattle.std.specs.Prelude.{MatchOption, Some};
ghost use Rattle.std.specs.String.{string_bytes};
ghost use Rattle.protobuf_parse_base.specs.Names.{is_relative, are_idents, relative_text};
ghost use Rattle.protobuf_parse_base.specs.Names.{IsRelative, fronts};

use super::absolute::ProtobufAbsPath;
use super::components::Components;
use super::dots;
use super::ident::{ProtobufIdent, ProtobufIdentRef};
use crate::joins::{join_at_dot, push_part};
use std::alloc::{AllocError, Global};
use std::fmt;

/// A relative path, lent: the empty text, or identifiers with dots between them.
///
/// See the Protocol Buffers Language Specification, "Identifiers" (<https://protobuf.dev>).
#[derive(Clone, Copy, Debug, PartialEq, Eq, Hash)]
pub struct ProtobufRelPathRef<'a> {
    text: &'a str,
    pub ghost well_formed: { IsTrue (is_relative text.now) },
}

impl<'a> ProtobufRelPathRef<'a> {
    ghost use Rattle.protobuf_parse_base.specs.NameViews.{ident_ref_text, rel_ref_text};
    ghost use Rattle.protobuf_parse_base.specs.NameViews.{rel_ref_idents, rel_text, rel_idents};
    ghost use Rattle.protobuf_parse_base.specs.NameViews.{abs_idents, components_left};

    /// Whether the text is a relative path, so that `new` takes it.
    pub fn is_rel(text: &str) -> bool
        ensures test { result ≡ is_relative text.now }
        ensures meaning { IsTrue result ↔ IsRelative text.now }
    {
        text.is_empty() || dots::parts_are_idents(text)
    }

    /// The path with this text.
    pub fn new(text: &'a str) -> Self
        requires { IsTrue (is_relative text.now) }
        ensures { rel_ref_text result ≡ text.now }
    {
        ProtobufRelPathRef { text }
    }

    /// The path with no identifier.
    pub fn empty() -> Self
        ensures text { rel_ref_text result ≡ [] }
        ensures idents { rel_ref_idents result ≡ [] }
    {
        ProtobufRelPathRef { text: "" }
    }

    /// Whether the path has no identifier.
    pub fn is_empty(self) -> bool
        ensures { IsTrue result ↔ (rel_ref_idents self.entry ≡ []) }
    {
        self.text.is_empty()
    }

    /// The text, for as long as it was lent.
    pub fn as_str(self) -> &'a str
        ensures text { result.now ≡ rel_ref_text self.entry }
        ensures joined { result.now ≡ relative_text (rel_ref_idents self.entry) }
        ensures idents { IsTrue (are_idents (rel_ref_idents self.entry)) }
    {
        self.text
    }

    /// The first identifier and the path after it, or `None` of the empty path.
    pub fn split_first_rem(self) -> Option<(ProtobufIdentRef<'a>, ProtobufRelPathRef<'a>)>
        ensures { MatchOption result (rel_ref_idents self.entry ≡ [])
            (λ parts. rel_ref_idents self.entry ≡ ident_ref_text parts.0 ∷ rel_ref_idents parts.1) }
    {
        if self.text.is_empty() {
            return None;
        }
        match dots::cut_first(self.text) {
            Some((first, rest)) => {
                Some((ProtobufIdentRef::new(first), ProtobufRelPathRef::new(rest)))
            }
            None => Some((
                ProtobufIdentRef::new(self.text),
                ProtobufRelPathRef::empty(),
            )),
        }
    }

    /// The identifiers in order.
    pub fn components(self) -> Components<'a>
        ensures { components_left result ≡ rel_ref_idents self.entry }
    {
        Components::new(self)
    }

    /// The path without its last identifier, or `None` of the empty path.
    fn parent(self) -> Option<Self>
        ensures { MatchOption result (rel_ref_idents self.entry ≡ [])
            (λ parent. (last : List ℕ)
            × (rel_ref_idents self.entry ≡ rel_ref_idents parent ++ last ∷ [])) }
    {
        if self.text.is_empty() {
            return None;
        }
        match dots::cut_last(self.text) {
            Some((front, _)) => Some(ProtobufRelPathRef::new(front)),
            None => Some(ProtobufRelPathRef::empty()),
        }
    }

    /// Every front of the path once, the whole path first and the empty path last. The one error is
    /// that memory is short.
    pub fn self_and_parents(self, alloc: Global) -> Result<Vec<ProtobufRelPathRef<'a>>, AllocError>
        ensures { IfOk result
            (λ paths. map rel_ref_idents paths.items ≡ fronts (rel_ref_idents self.entry)) }
    {
        let mut paths = Vec::new(alloc);
        let mut next = Some(self);
        while let Some(path) = next {
            paths.push(path)?;
            next = path.parent();
        }
        Ok(paths)
    }

    /// The path followed by another. The one error is that memory is short.
    pub fn append(
        self,
        alloc: Global,
        path: ProtobufRelPathRef<'_>,
    ) -> Result<ProtobufRelPath, AllocError>
        ensures { IfOk result
            (λ joined. rel_idents joined ≡ rel_ref_idents self.entry ++ rel_ref_idents path.entry) }
    {
        if self.text.is_empty() {
            return path.to_owned(alloc);
        }
        if path.text.is_empty() {
            return self.to_owned(alloc);
        }
        let text = join_at_dot(alloc, self.text, path.text)?;
        Ok(ProtobufRelPath { text })
    }

    /// The path followed by an identifier. The one error is that memory is short.
    pub fn append_ident(
        self,
        alloc: Global,
        ident: ProtobufIdentRef<'_>,
    ) -> Result<ProtobufRelPath, AllocError>
        ensures { IfOk result
            (λ joined. rel_idents joined ≡ rel_ref_idents self.entry ++ ident_ref_text ident.entry
            ∷ []) }
    {
        self.append(alloc, ProtobufRelPathRef::new(ident.as_str()))
    }

    /// The absolute path with the same identifiers. The one error is that memory is short.
    pub fn to_absolute(self, alloc: Global) -> Result<ProtobufAbsPath, AllocError>
        ensures { IfOk result (λ path. abs_idents path ≡ rel_ref_idents self.entry) }
    {
        ProtobufAbsPath::new_from_rel(alloc, self.text)
    }

    /// A copy that owns its text. The one error is that memory is short.
    pub fn to_owned(self, alloc: Global) -> Result<ProtobufRelPath, AllocError>
        ensures { IfOk result (λ path. rel_text path ≡ rel_ref_text self.entry) }
    {
        ProtobufRelPath::new(alloc, self.text)
    }
}

/// A relative path that owns its text.
#[derive(Debug, Drop, PartialEq, Eq, Hash)]
pub struct ProtobufRelPath {
    text: String,
    pub ghost well_formed: { IsTrue (is_relative (string_bytes text)) },
}

impl ProtobufRelPath {
    ghost use Rattle.protobuf_parse_base.specs.NameViews.{ident_ref_text, ident_text, rel_ref_text};
    ghost use Rattle.protobuf_parse_base.specs.NameViews.{rel_text, rel_idents, abs_idents};

    /// A copy of this text, as a path. The one error is that memory is short.
    pub fn new(alloc: Global, text: &str) -> Result<Self, AllocError>
        requires { IsTrue (is_relative text.now) }
        ensures { IfOk result (λ path. rel_text path ≡ text.now) }
    {
        let text = String::from_str(alloc, text)?;
        Ok(ProtobufRelPath { text })
    }

    /// The path with no identifier.
    pub fn empty(alloc: Global) -> Self
        ensures text { rel_text result ≡ [] }
        ensures idents { rel_idents result ≡ [] }
    {
        ProtobufRelPath {
            text: String::new(alloc),
        }
    }

    /// The path, lent.
    pub fn as_ref(&self) -> ProtobufRelPathRef<'_>
        ensures { rel_ref_text result ≡ rel_text self.now }
    {
        ProtobufRelPathRef::new(self.text.as_str())
    }

    /// The path of these identifiers. The one error is that memory is short.
    pub fn from_components(
        alloc: Global,
        components: &[ProtobufIdentRef<'_>],
    ) -> Result<Self, AllocError>
        ensures { IfOk result (λ path. rel_idents path ≡ map ident_ref_text components.now) }
    {
        let room = components.iter().fold(0usize, |room, component| {
            room.saturating_add(component.as_str().len() + 1)
        });
        let mut text = String::with_capacity(alloc, room)?;
        for component in components {
            push_part(&mut text, '.', component.as_str())?;
        }
        Ok(ProtobufRelPath { text })
    }

    /// The path of one identifier, without a copy.
    pub fn from_ident(ident: ProtobufIdent) -> Self
        ensures { rel_idents result ≡ ident_text ident ∷ [] }
    {
        ProtobufRelPath {
            text: ident.into_string(),
        }
    }

    /// The absolute path with the same identifiers. The one error is that memory is short.
    pub fn into_absolute(self, alloc: Global) -> Result<ProtobufAbsPath, AllocError>
        ensures { IfOk result (λ path. abs_idents path ≡ rel_idents self) }
    {
        self.as_ref().to_absolute(alloc)
    }
}

impl<'a> fmt::Display for ProtobufRelPathRef<'a> {
    ghost use Rattle.protobuf_parse_base.specs.NameViews.{rel_ref_text};

    ghost output = { λ path. Some (rel_ref_text path) };

    fn fmt<W: fmt::Write>(&self, f: &mut fmt::Formatter<W>) -> fmt::Result {
        f.write_str(self.text)
    }
}

impl fmt::Display for ProtobufRelPath {
    ghost use Rattle.protobuf_parse_base.specs.NameViews.{rel_text};

    ghost output = { λ path. Some (rel_text path) };

    fn fmt<W: fmt::Write>(&self, f: &mut fmt::Formatter<W>) -> fmt::Result {
        f.write_str(self.text.as_str())
    }
}
