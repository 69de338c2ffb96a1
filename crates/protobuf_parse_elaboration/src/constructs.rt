//! From a file's tree to its descriptor.

mod body;
mod contents;
pub mod declared;
mod enumeration;
pub mod field;
mod file;
mod generated;
mod heading;
mod lists;
mod message;
mod names;
mod oneof;
mod options;
mod owner;
mod reserved;
mod rest;
mod service;
mod statement;
mod told;
pub mod types;
mod unlike;
mod viewpoint;

ghost use Rattle.std.specs.Prelude.{List, ◌≡◌, ◌≤◌, ◌++◌, IfOk};
ghost use Rattle.protobuf_parse_syntax.specs.Counts.{statements_in};
ghost use Rattle.protobuf_parse_syntax.specs.Trees.{FileSyntax, file_syntax};
ghost use Rattle.protobuf_parse_model.specs.Descriptors as described;
ghost use Rattle.protobuf_parse_model.specs.Faults.{Elaborates, found};
ghost use Rattle.protobuf_parse_model.specs.Tables.{TableTells, picked};
ghost use Rattle.protobuf_parse_elaboration.specs.FileDescriptor.{environment, file_faults};
ghost use Rattle.protobuf_parse_elaboration.specs.FileDescriptor.{file_of};
ghost use Rattle.protobuf_parse_elaboration.specs.Telling.{Tells};

use crate::constructs::file::{descriptor_of_owned, file_descriptor};
pub use options::{decoded_bytes, decoded_text, has_builtin_option};
use protobuf_parse_model::{CustomOptions, ElabError, ElabFailure, FileDescriptorProto, Seen};
use protobuf_parse_syntax::FileTree;
use std::alloc::{AllocError, Global};

/// The descriptor of a file.
///
/// Takes the path that the file is known by, its tree, what it sees: the declarations of files, and
/// the numbers of those among them whose names it sees, itself with them; and who says what its
/// custom options become. Where the declarations are those that `Declarations::add` made of files
/// one after the other, the answer is what the language says of a file that sees the files with
/// these numbers.
///
/// Where no fault stands in the file it gives the descriptor. Else it tells the first, with its
/// place, unless memory runs out:
///
/// - E1: two things of one kind have one name in one scope;
/// - E2, E3: the name of a type means none;
/// - E4: a map or a group stands where none may;
/// - E7: a range of a message has no end behind it;
/// - E8 to E13: what a built-in option is set to, or its name, is wrong;
/// - what is wrong in a custom option, by who says what they become.
///
/// The tree of a text has at most 2147483647 statements, those of all bodies counted: `parse_file`
/// says so.
///
/// E5 and E6, for full names that the reached files declare twice, are no part of this: `link`
/// tells them, and is to be called first.
pub fn elaborate<C: CustomOptions>(
    alloc: Global,
    name: &str,
    tree: &FileTree,
    seen: &Seen<'_>,
    custom: &C,
) -> Result<FileDescriptorProto, ElabFailure>
    requires few { statements_in (file_syntax tree.now) ≤ 2147483647 }
    ensures { (files : List FileSyntax) → TableTells seen.now.declarations.now files →
        let t = file_syntax tree.now in
        let env = environment (picked files seen.now.sight.now) (C.customs custom.now) t in
        Elaborates described.file_view result (file_faults env t) (file_of env name.now t) }
{
    let mut faults = Vec::new(alloc);
    let descriptor = elaborate_all(alloc, &mut faults, name, tree, seen, custom)?;
    unless_told(faults, descriptor)
}

/// As `elaborate`, of a tree that is not needed any more: each of its statements is dropped as soon
/// as its descriptor stands, so that tree and descriptor don't stand beside each other as a whole.
pub fn elaborate_owned<C: CustomOptions>(
    alloc: Global,
    name: &str,
    tree: FileTree,
    seen: &Seen<'_>,
    custom: &C,
) -> Result<FileDescriptorProto, ElabFailure>
    requires few { statements_in (file_syntax tree) ≤ 2147483647 }
    ensures { (files : List FileSyntax) → TableTells seen.now.declarations.now files →
        let t = file_syntax tree in
        let env = environment (picked files seen.now.sight.now) (C.customs custom.now) t in
        Elaborates described.file_view result (file_faults env t) (file_of env name.now t) }
{
    let mut faults = Vec::new(alloc);
    let descriptor = elaborate_all_owned(alloc, &mut faults, name, tree, seen, custom)?;
    unless_told(faults, descriptor)
}

/// The descriptor of a file, and all its faults, which are added to those that are there: each of
/// `elaborate`, at its place, and no other, in the order that the definitions give.
///
/// Where faults stand, the descriptor is what the definitions say all the same: the type of a name
/// that means nothing is a message without a name, a default that is no string is written as it
/// stands. The one error is that memory is short.
pub fn elaborate_all<C: CustomOptions>(
    alloc: Global,
    faults: &mut Vec<ElabError>,
    name: &str,
    tree: &FileTree,
    seen: &Seen<'_>,
    custom: &C,
) -> Result<FileDescriptorProto, AllocError>
    requires few { statements_in (file_syntax tree.now) ≤ 2147483647 }
    ensures value { (files : List FileSyntax) → TableTells seen.now.declarations.now files →
        let t = file_syntax tree.now in
        let env = environment (picked files seen.now.sight.now) (C.customs custom.now) t in
        IfOk result (λ d. described.file_view d ≡ file_of env name.now t) }
    ensures faults { (files : List FileSyntax) → TableTells seen.now.declarations.now files →
        let t = file_syntax tree.now in
        let env = environment (picked files seen.now.sight.now) (C.customs custom.now) t in
        Tells result faults.old faults.new (file_faults env t) }
{
    file_descriptor(alloc, faults, name, tree, seen, custom)
}

/// As `elaborate_all`, of a tree whose statements are dropped as `elaborate_owned` drops them.
pub fn elaborate_all_owned<C: CustomOptions>(
    alloc: Global,
    faults: &mut Vec<ElabError>,
    name: &str,
    tree: FileTree,
    seen: &Seen<'_>,
    custom: &C,
) -> Result<FileDescriptorProto, AllocError>
    requires few { statements_in (file_syntax tree) ≤ 2147483647 }
    ensures value { (files : List FileSyntax) → TableTells seen.now.declarations.now files →
        let t = file_syntax tree in
        let env = environment (picked files seen.now.sight.now) (C.customs custom.now) t in
        IfOk result (λ d. described.file_view d ≡ file_of env name.now t) }
    ensures faults { (files : List FileSyntax) → TableTells seen.now.declarations.now files →
        let t = file_syntax tree in
        let env = environment (picked files seen.now.sight.now) (C.customs custom.now) t in
        Tells result faults.old faults.new (file_faults env t) }
{
    descriptor_of_owned(alloc, faults, name, tree, seen, custom)
}

/// The descriptor, where no fault was told; else the first.
#[tactic(auto, using(crate::proofs::Gathering::first_told, crate::proofs::Gathering::none_told))]
fn unless_told(
    mut faults: Vec<ElabError>,
    descriptor: FileDescriptorProto,
) -> Result<FileDescriptorProto, ElabFailure>
    ensures { Elaborates (λ d. d) result (found faults) descriptor }
{
    if faults.is_empty() {
        return Ok(descriptor);
    }
    Err(ElabFailure::Fault(faults.swap_remove(0)))
}
