//! Files.

ghost use Rattle.std.specs.Prelude.{◌≡◌, ◌≤◌, ◌++◌, IfOk};
ghost use Rattle.protobuf_parse_syntax.specs.Counts.{statements_in};
ghost use Rattle.protobuf_parse_syntax.specs.Trees.{file_syntax};
ghost use Rattle.protobuf_parse_model.specs.SeenParts.{environment_of_file};
ghost use Rattle.protobuf_parse_model.specs.Descriptors as described;
ghost use Rattle.protobuf_parse_elaboration.specs.FileDescriptor.{file_faults, file_of};
ghost use Rattle.protobuf_parse_elaboration.specs.Viewpoints.{seen_from};
ghost use Rattle.protobuf_parse_elaboration.specs.Telling.{Tells};

use crate::constructs::contents::{contents_of, contents_of_owned};
use crate::constructs::heading::{heading_of, package_of};
use crate::constructs::viewpoint::Viewpoint;
use protobuf_parse_model::{
    Context, CustomOptions, ElabError, FileDescriptorProto, Seen, file_scope, scope_of_package,
};
use protobuf_parse_syntax::FileTree;
use std::alloc::{AllocError, Global};

/// The descriptor of a file that is known by the path `name`, by what it sees; and its faults.
///
/// E1 where two messages, enums, extensions or services of the file have one name, the faults of
/// its options and those inside what it declares.
pub fn file_descriptor<C: CustomOptions>(
    alloc: Global,
    faults: &mut Vec<ElabError>,
    name: &str,
    tree: &FileTree,
    seen: &Seen<'_>,
    custom: &C,
) -> Result<FileDescriptorProto, AllocError>
    requires few { statements_in (file_syntax tree.now) ≤ 2147483647 }
    ensures value { let t = file_syntax tree.now in
        let env = environment_of_file (C.customs custom.now) seen.now t in
        IfOk result (λ d. described.file_view d ≡ file_of env name.now t) }
    ensures faults { let t = file_syntax tree.now in
        let env = environment_of_file (C.customs custom.now) seen.now t in
        Tells result faults.old faults.new (file_faults env t) }
{
    let scope = file_scope(alloc, tree)?;
    let at = Viewpoint {
        alloc,
        context: Context {
            syntax: tree.syntax,
            seen: *seen,
            scope: &scope,
        },
        custom,
    };
    descriptor_in(&at, faults, name, tree)
}

/// The descriptor of a file, of which each construct is seen from there.
fn descriptor_in<C: CustomOptions>(
    at: &Viewpoint<'_, '_, C>,
    faults: &mut Vec<ElabError>,
    name: &str,
    tree: &FileTree,
) -> Result<FileDescriptorProto, AllocError>
    requires few { statements_in (file_syntax tree.now) ≤ 2147483647 }
    ensures value { let env = seen_from C.customs at.now in
        IfOk result (λ d. described.file_view d ≡ file_of env name.now (file_syntax tree.now)) }
    ensures faults { let env = seen_from C.customs at.now in
        Tells result faults.old faults.new (file_faults env (file_syntax tree.now)) }
{
    let heading = heading_of(at, faults, name, tree)?;
    let contents = contents_of(at, faults, &tree.statements)?;
    Ok(contents.into_file(heading))
}

/// As `file_descriptor`, of a tree whose statements are dropped one by one.
pub fn descriptor_of_owned<C: CustomOptions>(
    alloc: Global,
    faults: &mut Vec<ElabError>,
    name: &str,
    tree: FileTree,
    seen: &Seen<'_>,
    custom: &C,
) -> Result<FileDescriptorProto, AllocError>
    requires few { statements_in (file_syntax tree) ≤ 2147483647 }
    ensures value { let t = file_syntax tree in
        let env = environment_of_file (C.customs custom.now) seen.now t in
        IfOk result (λ d. described.file_view d ≡ file_of env name.now t) }
    ensures faults { let t = file_syntax tree in
        let env = environment_of_file (C.customs custom.now) seen.now t in
        Tells result faults.old faults.new (file_faults env t) }
{
    let package_name = package_of(alloc, &tree)?;
    let scope = scope_of_package(alloc, package_name.as_deref())?;
    let at = Viewpoint {
        alloc,
        context: Context {
            syntax: tree.syntax,
            seen: *seen,
            scope: &scope,
        },
        custom,
    };
    owned_in(&at, faults, name, tree)
}

/// The descriptor of a file, of which each construct is seen from there.
fn owned_in<C: CustomOptions>(
    at: &Viewpoint<'_, '_, C>,
    faults: &mut Vec<ElabError>,
    name: &str,
    tree: FileTree,
) -> Result<FileDescriptorProto, AllocError>
    requires few { statements_in (file_syntax tree) ≤ 2147483647 }
    ensures value { let env = seen_from C.customs at.now in
        IfOk result (λ d. described.file_view d ≡ file_of env name.now (file_syntax tree)) }
    ensures faults { let env = seen_from C.customs at.now in
        Tells result faults.old faults.new (file_faults env (file_syntax tree)) }
{
    let heading = heading_of(at, faults, name, &tree)?;
    let contents = contents_of_owned(at, faults, tree.into_statements())?;
    Ok(contents.into_file(heading))
}
