//! The imports of a file.

ghost use Rattle.std.specs.Prelude.{◌≡◌, ◌≤◌, ◌⊎◌, ◌++◌, [], ◌∷◌, length, map, IfOk, IfErr, OnOk};
ghost use Rattle.std.specs.Prelude.{if◌then◌else◌};
ghost use Rattle.protobuf_parse_lexer.specs.Cut.{out_of_memory, error_place as place_at};
ghost use Rattle.protobuf_parse_syntax.specs.ImportSteps as steps;
ghost use Rattle.protobuf_parse_syntax.specs.Dependencies.{dependencies_of, dependencies_view};
ghost use Rattle.protobuf_parse_syntax.specs.Parsing.{HasTree, IsFaultOf, TellsFaults};
ghost use Rattle.protobuf_parse_syntax.specs.Trees.{FileSyntax, import_syntax, statement_syntax};

use crate::parser::parse_file;
use crate::tree::{FileStatement, Import};
use protobuf_parse_lexer::ParserErrorWithLocation;
use std::alloc::{AllocError, Global};

/// What a file imports.
#[derive(Drop)]
pub struct Dependencies {
    /// The paths of the imports, in source order.
    pub dependency: Vec<String>,
    /// The positions of the public imports among them, from 0 on, ascending.
    pub public_dependency: Vec<i32>,
    /// The positions of the weak imports, ascending.
    pub weak_dependency: Vec<i32>,
}

/// What a file's text imports, or why it has no tree.
pub fn parse_dependencies(
    alloc: Global,
    text: &str,
) -> Result<Dependencies, ParserErrorWithLocation>
    // What is answered is what the one tree of the text imports.
    ensures found { IfOk result (λ d. (t : FileSyntax) × HasTree text.now t
        × (dependencies_view d ≡ dependencies_of t.statements)) }
    ensures only { IfOk result (λ d. (u : FileSyntax) → HasTree text.now u
        → dependencies_view d ≡ dependencies_of u.statements) }

    // What is refused has no tree, and that fault stands there.
    ensures none { IfErr result (λ e. (e ≡ out_of_memory)
        ⊎ ((u : FileSyntax) → HasTree text.now u → ⊥)) }
    ensures refused { IfErr result (λ e. (e ≡ out_of_memory)
        ⊎ IsFaultOf text.now e.error (place_at e)) }

    // A text that has no tokens is refused with its fault.
    ensures tells { TellsFaults text.now result }
{
    let tree = parse_file(alloc, text)?;
    let found = imports_of(alloc, tree.statements.as_slice())?;
    Ok(found)
}

/// What a file's statements import. The tree of a text has no more of them than a position can
/// count. The one error is that memory is short.
#[tactic(auto, unfolding(crate::specs::Dependencies::dependencies_of))]
pub fn imports_of(alloc: Global, statements: &[FileStatement]) -> Result<Dependencies, AllocError>
    requires { length statements.now ≤ 2147483647 }
    ensures { IfOk result
        (λ d. dependencies_view d ≡ dependencies_of (map statement_syntax statements.now)) }
{
    let mut found = Dependencies {
        dependency: Vec::new(alloc),
        public_dependency: Vec::new(alloc),
        weak_dependency: Vec::new(alloc),
    };
    for statement in statements {
        push_statement(alloc, &mut found, statement)?;
    }
    Ok(found)
}

/// What a statement imports, behind what is found.
fn push_statement(
    alloc: Global,
    found: &mut Dependencies,
    statement: &FileStatement,
) -> Result<(), AllocError>
    requires { length found.old.dependency.items ≤ 2147483647 }
    ensures { OnOk result (dependencies_view found.new
        ≡ steps.with_statement (dependencies_view found.old) (statement_syntax statement.now)) }
{
    match statement {
        FileStatement::Import(import) => push_import(alloc, found, import),
        _ => Ok(()),
    }
}

/// The import's path and position, behind what is found.
fn push_import(alloc: Global, found: &mut Dependencies, import: &Import) -> Result<(), AllocError>
    requires { length found.old.dependency.items ≤ 2147483647 }
    ensures { OnOk result (dependencies_view found.new
        ≡ steps.with_import (dependencies_view found.old) (import_syntax import.now)) }
{
    let position = found.dependency.len() as i32;
    let public = import.vis.is_public();
    let weak = import.vis.is_weak();
    push_position(&mut found.public_dependency, public, position)?;
    push_position(&mut found.weak_dependency, weak, position)?;
    let path = String::from_str(alloc, import.path.as_path().to_str())?;
    found.dependency.push(path)?;
    Ok(())
}

/// A position behind the others, if it is one of them.
fn push_position(positions: &mut Vec<i32>, is_one: bool, position: i32) -> Result<(), AllocError>
    ensures { OnOk result (positions.new.items
        ≡ positions.old.items ++ (if is_one then position ∷ [] else [])) }
{
    if is_one {
        positions.push(position)?;
    }
    Ok(())
}
