//! What a file sees of what files declare.

ghost use Rattle.std.specs.Prelude.{◌≡◌, ℕ, true, List};
ghost use Rattle.std.specs.List.Sorted.{IsStrictlyIncreasing};
ghost use Rattle.protobuf_parse_model.specs.ByHash.{declared_by_hash};
ghost use Rattle.protobuf_parse_model.specs.FileOrder.{FilesAscend};

use std::collections::BTreeMap;

/// What the name of a type may mean.
#[derive(Clone, Copy)]
pub enum TypeKind {
    Message,
    Enum,
}

/// What a full name may be declared as.
#[derive(Clone, Copy)]
pub enum DeclarationKind {
    Message,
    Enum,
    /// The message behind a map or a group, which no written name means.
    Generated,
    /// A field of an `extend`.
    Extension,
}

/// That a file declares a full name.
#[derive(Clone, Copy)]
pub struct Declaration {
    /// The number of the file.
    pub file: u32,
    pub kind: DeclarationKind,
}

/// The declarations of a full name, as they were added.
#[derive(Drop)]
pub enum Declared {
    /// One alone, as nearly all names have: it needs no list.
    Once(Declaration),
    Often(Vec<Declaration>),
}

/// A full name, which has its first dot, with its declarations.
#[derive(Drop)]
pub struct DeclaredName {
    pub name: String,
    pub declared: Declared,
}

/// The full names of one hash, with their declarations.
#[derive(Drop)]
pub enum OneHash {
    /// One alone, as nearly all hashes have.
    Name(DeclaredName),
    Names(BTreeMap<String, Vec<Declaration>>),
}

/// What files declare: messages, also those behind maps and groups, enums and extensions.
#[derive(Drop)]
pub struct Declarations {
    /// What is declared, by the hashes of full names, since numbers are compared faster than texts:
    /// that saves 12 % of a run's instructions on messages of all kinds. Where hashes agree the
    /// texts decide, so that no choice of names makes the table slow. A map for each highest byte
    /// of a hash, so that most are a node or two: 2 % more, and a fifth where many scopes are
    /// tried.
    pub by_hash: Vec<BTreeMap<u64, OneHash>>,
    /// By the number of a file, those of the full names that it declares which have more than one
    /// declaration.
    pub repeated: BTreeMap<u32, Vec<String>>,
    /// Whether the declarations of each full name are in the order of the files: so they are where
    /// no file was added behind one with a higher number.
    pub in_order: bool,
    pub ghost ordered: { in_order ≡ true →
        (name : List ℕ) → FilesAscend (declared_by_hash by_hash.items name) },
}

/// What a file sees and what it reaches, of all the declarations that were made.
#[derive(Clone, Copy)]
pub struct Seen<'a> {
    pub declarations: &'a Declarations,
    /// The numbers of the files whose names it sees, ascending.
    pub sight: &'a [u32],
    pub ghost sight_ascends: { IsStrictlyIncreasing sight.now },
    /// The numbers of the files that it reaches, ascending.
    pub reach: &'a [u32],
    pub ghost reach_ascends: { IsStrictlyIncreasing reach.now },
}
