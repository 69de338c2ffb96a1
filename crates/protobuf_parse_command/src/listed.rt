//! What files import, with no other file read.

use crate::arguments::Arguments;
use crate::folders::tell_missing_folders;
use crate::inputs::input_of;
use crate::reading::Folders;
use crate::set_texts::SetTexts;
use crate::sets::{Sets, sets_of};
use crate::walk::files_asked;
use protobuf_parse::{ReadEntry, RunFault, RunInput, google_files};
use protobuf_parse_diagnostics::{Diagnostic, Sources, add_reason, arrange, fault_diagnostic};
use protobuf_parse_run::InputRead;
use protobuf_parse_syntax::{FileStatement, FileTree, ImportVis};
use std::alloc::{AllocError, Global};
use std::rt::Files;
use std::slice;

/// What the files of a command line import.
#[derive(Drop)]
pub struct Imports {
    pub told: Vec<Diagnostic>,
    /// A line for each `import` statement: the file, and the path that it imports.
    pub text: String,
}

/// Reads the files of the command line, and no others. The one error is that memory is short.
pub fn imports_of_files<R: Files + AllocGlobal>(
    rt: &R,
    alloc: Global,
    arguments: &Arguments,
) -> Result<Imports, AllocError> {
    let mut imports = Imports {
        told: Vec::new(alloc),
        text: String::new(alloc),
    };
    let sets = sets_of(rt, alloc, &arguments.sets, &mut imports.told)?;
    if imports.told.is_empty() {
        tell_missing_folders(rt, alloc, &arguments.includes, &mut imports.told)?;
        add_files(rt, alloc, arguments, &sets, &mut imports)?;
    }
    arrange(&mut imports.told)?;
    Ok(imports)
}

fn add_files<R: Files + AllocGlobal>(
    rt: &R,
    alloc: Global,
    arguments: &Arguments,
    sets: &Sets,
    imports: &mut Imports,
) -> Result<(), AllocError> {
    let texts = SetTexts::of(alloc, sets)?;
    let folders = Folders::of(rt, alloc, arguments, texts)?;
    for file in &files_asked(rt, alloc, &arguments.files, &mut imports.told)? {
        match input_of(rt, alloc, arguments, folders.sets(), file)? {
            Ok(input) => add_input(alloc, &folders, file, &input, imports)?,
            Err(told) => imports.told.push(told)?,
        }
    }
    Ok(())
}

fn add_fault<R: Files + AllocGlobal>(
    alloc: Global,
    folders: &Folders<'_, '_, R>,
    reads: &[ReadEntry],
    fault: &RunFault,
    imports: &mut Imports,
) -> Result<(), AllocError> {
    let sources = Sources::of_reads(alloc, reads, google_files())?;
    let mut told = fault_diagnostic(alloc, &sources, fault)?;
    add_reason(alloc, folders, fault, &mut told)?;
    imports.told.push(told)?;
    Ok(())
}

fn add_input<R: Files + AllocGlobal>(
    alloc: Global,
    folders: &Folders<'_, '_, R>,
    file: &str,
    input: &RunInput,
    imports: &mut Imports,
) -> Result<(), AllocError> {
    let InputRead { entry, tree } = folders.read(alloc, input)?;
    match tree {
        Ok(tree) => put_imports(&mut imports.text, file, &tree),
        Err(fault) => add_fault(alloc, folders, slice::from_ref(&entry), &fault, imports),
    }
}

/// Adds a line for each `import` statement: `shop/order.proto: public shop/item.proto`.
fn put_imports(text: &mut String, file: &str, tree: &FileTree) -> Result<(), AllocError> {
    for statement in &tree.statements {
        if let FileStatement::Import(import) = statement {
            let how = match import.vis {
                ImportVis::Default => "",
                ImportVis::Public => "public ",
                ImportVis::Weak => "weak ",
            };
            let path = import.path.as_path().to_str();
            write!(text, "{file}: {how}{path}\n")?;
        }
    }
    Ok(())
}
