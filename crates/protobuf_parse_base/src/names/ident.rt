//! Identifiers.
ghost use Rattle.std.specs.Prelude.{◌≡◌, IsTrue, IfOk, Some};
ghost use Rattle.std.specs.String.{string_bytes};
ghost use Rattle.protobuf_parse_base.specs.Names.{is_ident};

use super::dots;
use std::alloc::{AllocError, Global};
use std::fmt;

/// An identifier, lent: a nonempty text without `/`, `.`, `:`, `(` and `)`.
///
/// See the Protocol Buffers Language Specification, "Identifiers" (<https://protobuf.dev>), of
/// whose identifiers these are a wider class.
#[derive(Clone, Copy, Debug, PartialEq, Eq, Hash)]
pub struct ProtobufIdentRef<'a> {
    text: &'a str,
    pub ghost well_formed: { IsTrue (is_ident text.now) },
}

impl<'a> ProtobufIdentRef<'a> {
    ghost use Rattle.protobuf_parse_base.specs.NameViews.{ident_ref_text, ident_text};

    /// Whether the text is an identifier, so that `new` takes it.
    pub fn is_ident(text: &str) -> bool
        ensures { result ≡ is_ident text.now }
    {
        !text.is_empty() && dots::are_ident_bytes(text.as_bytes())
    }

    /// The identifier with this text.
    pub fn new(text: &'a str) -> Self
        requires { IsTrue (is_ident text.now) }
        ensures { ident_ref_text result ≡ text.now }
    {
        ProtobufIdentRef { text }
    }

    /// The text, for as long as it was lent.
    pub fn as_str(self) -> &'a str
        ensures text { result.now ≡ ident_ref_text self.entry }
        ensures ident { IsTrue (is_ident result.now) }
    {
        self.text
    }

    /// A copy that owns its text. The one error is that memory is short.
    pub fn to_owned(self, alloc: Global) -> Result<ProtobufIdent, AllocError>
        ensures { IfOk result (λ ident. ident_text ident ≡ ident_ref_text self.entry) }
    {
        ProtobufIdent::new(alloc, self.text)
    }
}

/// An identifier that owns its text.
#[derive(Debug, Drop, PartialEq, Eq, Hash)]
pub struct ProtobufIdent {
    text: String,
    pub ghost well_formed: { IsTrue (is_ident (string_bytes text)) },
}

impl ProtobufIdent {
    ghost use Rattle.protobuf_parse_base.specs.NameViews.{ident_ref_text, ident_text};

    /// A copy of this text, as an identifier. The one error is that memory is short.
    pub fn new(alloc: Global, text: &str) -> Result<Self, AllocError>
        requires { IsTrue (is_ident text.now) }
        ensures { IfOk result (λ ident. ident_text ident ≡ text.now) }
    {
        let text = String::from_str(alloc, text)?;
        Ok(ProtobufIdent { text })
    }

    /// The identifier, lent.
    pub fn as_ref(&self) -> ProtobufIdentRef<'_>
        ensures { ident_ref_text result ≡ ident_text self.now }
    {
        ProtobufIdentRef::new(self.text.as_str())
    }

    /// The text, lent.
    pub fn get(&self) -> &str
        ensures text { result.now ≡ ident_text self.now }
        ensures ident { IsTrue (is_ident result.now) }
    {
        self.text.as_str()
    }

    /// The text, without a copy.
    pub fn into_string(self) -> String
        ensures text { string_bytes result ≡ ident_text self }
        ensures ident { IsTrue (is_ident (string_bytes result)) }
    {
        let ProtobufIdent { text } = self;
        text
    }
}

impl<'a> fmt::Display for ProtobufIdentRef<'a> {
    ghost use Rattle.protobuf_parse_base.specs.NameViews.{ident_ref_text};

    ghost output = { λ ident. Some (ident_ref_text ident) };

    fn fmt<W: fmt::Write>(&self, f: &mut fmt::Formatter<W>) -> fmt::Result {
        f.write_str(self.text)
    }
}

impl fmt::Display for ProtobufIdent {
    ghost use Rattle.protobuf_parse_base.specs.NameViews.{ident_text};

    ghost output = { λ ident. Some (ident_text ident) };

    fn fmt<W: fmt::Write>(&self, f: &mut fmt::Formatter<W>) -> fmt::Result {
        f.write_str(self.text.as_str())
    }
}
