//! What a file says of itself: its path, its syntax, its package, its imports and its options.

ghost use Rattle.std.specs.Prelude.{◌≡◌, ◌≤◌, ◌++◌, length, map, option_map, string_bytes, IfOk};
ghost use Rattle.protobuf_parse_syntax.specs.Trees.{file_syntax, package_of, statement_syntax};
ghost use Rattle.protobuf_parse_model.specs.BuiltinOptions.{file_table};
ghost use Rattle.protobuf_parse_model.specs.Environment.{customs_bytes};
ghost use Rattle.protobuf_parse_model.specs.OptionMessages as sets;
ghost use Rattle.protobuf_parse_model.specs.Options.{file_options_view};
ghost use Rattle.protobuf_parse_model.specs.declared.customs.Construct.TheVariants as of;
ghost use Rattle.protobuf_parse_elaboration.specs.ConstructOptions.{construct_faults};
ghost use Rattle.protobuf_parse_elaboration.specs.FileDescriptor.{options_of_statements};
ghost use Rattle.protobuf_parse_elaboration.specs.FileDescriptor.{syntax_text};
ghost use Rattle.protobuf_parse_elaboration.specs.FileParts.{heading_faults, heading_of};
ghost use Rattle.protobuf_parse_elaboration.specs.FileParts.{heading_view};
ghost use Rattle.protobuf_parse_elaboration.specs.Viewpoints.{seen_from};
ghost use Rattle.protobuf_parse_elaboration.specs.Telling.{Tells};

use crate::constructs::options::{custom_bytes, file_options, options_in};
use crate::constructs::viewpoint::Viewpoint;
use protobuf_parse_model::{Construct, CustomOptions, ElabError, FileOptions};
use protobuf_parse_syntax::{Dependencies, FileStatement, FileTree, Syntax, imports_of};
use std::alloc::{AllocError, Global};

/// What a file says of itself.
#[derive(Drop)]
pub struct Heading {
    pub name: String,
    pub syntax: String,
    pub package_name: Option<String>,
    pub imports: Dependencies,
    pub options: Option<FileOptions>,
}

/// What the file says of itself that is known by the path `name`, and the faults in its options.
#[tactic(auto, unfolding(protobuf_parse_syntax::specs::Dependencies::dependencies_of))]
pub fn heading_of<C: CustomOptions>(
    at: &Viewpoint<'_, '_, C>,
    faults: &mut Vec<ElabError>,
    name: &str,
    tree: &FileTree,
) -> Result<Heading, AllocError>
    requires few { length tree.now.statements.items ≤ 2147483647 }
    ensures value { let env = seen_from C.customs at.now in
        IfOk result (λ h. heading_view h ≡ heading_of env name.now (file_syntax tree.now)) }
    ensures faults { let env = seen_from C.customs at.now in
        Tells result faults.old faults.new (heading_faults env (file_syntax tree.now)) }
{
    let path = String::from_str(at.alloc, name)?;
    let syntax = String::from_str(at.alloc, syntax_text(tree.syntax))?;
    let package_name = package_of(at.alloc, tree)?;
    let imports = imports_of(at.alloc, &tree.statements)?;
    let options = told_options(at, faults, &tree.statements)?;
    Ok(Heading {
        name: path,
        syntax,
        package_name,
        imports,
        options,
    })
}

fn syntax_text(syntax: Syntax) -> &'static str
    ensures { result.now ≡ syntax_text syntax }
{
    match syntax {
        Syntax::Proto2 => "proto2",
        Syntax::Proto3 => "proto3",
    }
}

/// The package of a file, in a text of its own.
pub fn package_of(alloc: Global, tree: &FileTree) -> Result<Option<String>, AllocError>
    ensures { IfOk result (λ p. option_map string_bytes p ≡ package_of (file_syntax tree.now)) }
{
    match tree.package() {
        Some(name) => Ok(Some(String::from_str(alloc, name)?)),
        None => Ok(None),
    }
}

/// What the options of a file set, and the faults in them.
#[tactic(auto, using(crate::proofs::StatedOptions::file_options_set))]
fn told_options<C: CustomOptions>(
    at: &Viewpoint<'_, '_, C>,
    faults: &mut Vec<ElabError>,
    statements: &[FileStatement],
) -> Result<Option<FileOptions>, AllocError>
    ensures value { let env = seen_from C.customs at.now in
        let os = options_of_statements (map statement_syntax statements.now) in
        IfOk result (λ o. option_map file_options_view o
        ≡ sets.file_options (customs_bytes env of.File os) os) }
    ensures faults { let env = seen_from C.customs at.now in
        let os = options_of_statements (map statement_syntax statements.now) in
        Tells result faults.old faults.new (construct_faults env of.File file_table os) }
{
    let options = options_in(at.alloc, statements)?;
    let bytes = custom_bytes(at, faults, Construct::File, &options)?;
    file_options(at.alloc, &options, bytes)
}
