//! What a tree declares, and its ranges, each with the place of the statement in which it stands.

mod walk;

use crate::outline::walk::walk_file;
use protobuf_parse_syntax::{FieldNumberRange, FileTree, Place, Type};
use std::alloc::{AllocError, Global};

/// What is declared.
#[derive(Clone, Copy, Debug, PartialEq, Eq, PartialOrd, Ord)]
pub enum DeclaredKind {
    Message,
    Enum,
    EnumValue,
    Field,
    Extension,
    Oneof,
    Service,
    Method,
}

/// A declaration.
#[derive(Drop)]
pub struct Declared<'a> {
    pub kind: DeclaredKind,
    /// The full name, with its first dot. An enum's value stands beside its enum.
    pub full: String,
    /// Which body it stands in: those of one tree have numbers.
    pub body: usize,
    pub place: Place,
    /// The type of a field or an extension that has one.
    pub type_: Option<&'a Type>,
}

impl<'a> Declared<'a> {
    /// The last part of its full name.
    pub fn name(&self) -> &str {
        match self.full.rsplit_once('.') {
            Some((_, name)) => name,
            None => &self.full,
        }
    }

    /// Whether it is a message or an enum.
    pub fn is_type(&self) -> bool {
        matches!(self.kind, DeclaredKind::Message | DeclaredKind::Enum)
    }
}

/// The ranges of a statement.
#[derive(Drop)]
pub struct Ranges<'a> {
    /// The full name of the message or the enum.
    pub of: String,
    pub ranges: &'a [FieldNumberRange],
    pub place: Place,
}

/// The names of a `reserved` statement.
#[derive(Drop)]
pub struct ReservedNames<'a> {
    /// The full name of the message or the enum.
    pub of: String,
    pub names: &'a [String],
    pub place: Place,
}

/// What a tree declares and reserves, and its ranges, in the order of its text.
#[derive(Drop)]
pub struct Outline<'a> {
    pub declared: Vec<Declared<'a>>,
    pub ranges: Vec<Ranges<'a>>,
    pub reserved: Vec<ReservedNames<'a>>,
    /// Where each `extend` begins.
    pub extends: Vec<Place>,
    /// The number of the next body.
    pub bodies: usize,
}

impl<'a> Outline<'a> {
    /// The outline of a tree. The one error is that memory is short.
    pub fn of(alloc: Global, tree: &'a FileTree) -> Result<Self, AllocError> {
        let mut outline = Outline {
            declared: Vec::new(alloc),
            ranges: Vec::new(alloc),
            reserved: Vec::new(alloc),
            extends: Vec::new(alloc),
            bodies: 0,
        };
        walk_file(alloc, &mut outline, tree)?;
        Ok(outline)
    }
}
