//! Laws of equality and of hashes: the values of each type of a text are told apart by their texts
//! alone. The functions do nothing.
ghost use Rattle.protobuf_parse_base.specs.ByText.{EqualByText, HashedByText};
ghost use Rattle.protobuf_parse_base.specs.DeclaredNames.{name_bytes};
ghost use Rattle.protobuf_parse_base.specs.NameViews.{ident_ref_text, ident_text};
ghost use Rattle.protobuf_parse_base.specs.NameViews.{rel_ref_text, rel_text};
ghost use Rattle.protobuf_parse_base.specs.NameViews.{abs_ref_text, abs_text};
ghost use Rattle.protobuf_parse_base.specs.PathViews.{path_text, path_buf_text};

use crate::name::Name;
use crate::names::{
    ProtobufAbsPath, ProtobufAbsPathRef, ProtobufIdent, ProtobufIdentRef, ProtobufRelPath,
    ProtobufRelPathRef,
};
use crate::proto_path::{ProtoPath, ProtoPathBuf};
use std::hash::Hash;

/// Names of what is declared.
pub fn names()
    ensures equal { EqualByText ⟦<Name as PartialEq>⟧.eq name_bytes }
    ensures hashed { HashedByText ⟦<Name as Hash>⟧.hash_input name_bytes }
{}

/// Identifiers.
pub fn idents()
    ensures equal { EqualByText ⟦<ProtobufIdent as PartialEq>⟧.eq ident_text }
    ensures hashed { HashedByText ⟦<ProtobufIdent as Hash>⟧.hash_input ident_text }
{}

/// Identifiers, lent.
pub fn ident_refs<'a>()
    ensures equal { EqualByText ⟦<ProtobufIdentRef<'a> as PartialEq>⟧.eq ident_ref_text }
    ensures hashed { HashedByText ⟦<ProtobufIdentRef<'a> as Hash>⟧.hash_input ident_ref_text }
{}

/// Relative paths.
pub fn rel_paths()
    ensures equal { EqualByText ⟦<ProtobufRelPath as PartialEq>⟧.eq rel_text }
    ensures hashed { HashedByText ⟦<ProtobufRelPath as Hash>⟧.hash_input rel_text }
{}

/// Relative paths, lent.
pub fn rel_path_refs<'a>()
    ensures equal { EqualByText ⟦<ProtobufRelPathRef<'a> as PartialEq>⟧.eq rel_ref_text }
    ensures hashed { HashedByText ⟦<ProtobufRelPathRef<'a> as Hash>⟧.hash_input rel_ref_text }
{}

/// Absolute paths.
pub fn abs_paths()
    ensures equal { EqualByText ⟦<ProtobufAbsPath as PartialEq>⟧.eq abs_text }
    ensures hashed { HashedByText ⟦<ProtobufAbsPath as Hash>⟧.hash_input abs_text }
{}

/// Absolute paths, lent.
pub fn abs_path_refs<'a>()
    ensures equal { EqualByText ⟦<ProtobufAbsPathRef<'a> as PartialEq>⟧.eq abs_ref_text }
    ensures hashed { HashedByText ⟦<ProtobufAbsPathRef<'a> as Hash>⟧.hash_input abs_ref_text }
{}

/// Proto paths that own their text.
pub fn proto_path_bufs()
    ensures equal { EqualByText ⟦<ProtoPathBuf as PartialEq>⟧.eq path_buf_text }
    ensures hashed { HashedByText ⟦<ProtoPathBuf as Hash>⟧.hash_input path_buf_text }
{}

/// Proto paths, lent.
pub fn proto_paths<'a>()
    ensures equal { EqualByText ⟦<ProtoPath<'a> as PartialEq>⟧.eq path_text }
    ensures hashed { HashedByText ⟦<ProtoPath<'a> as Hash>⟧.hash_input path_text }
{}
