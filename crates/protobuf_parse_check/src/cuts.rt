//! Files without the import statements that a load doesn't follow.

ghost use Rattle.std.specs.Prelude.{◌≡◌, ◌&&◌, ◌++◌, ◌∷◌, [], List, ℕ, IfOk, OnOk, not};
ghost use Rattle.std.specs.List.{list_any};
ghost use Rattle.protobuf_parse_base.specs.Multimaps.{values_under};
ghost use Rattle.protobuf_parse_syntax.specs.Trees.{file_syntax, statement_syntax};
ghost use Rattle.protobuf_parse_load.specs.Loads.{step_view, steps_view};
ghost use Rattle.protobuf_parse_check.specs.Trimmed.{same_place};
ghost use Rattle.protobuf_parse_check.specs.Judging.{AddsStep, HasCuts, IsTrimmed, TrimsStatement};

use protobuf_parse_base::multimap;
use protobuf_parse_lexer::Place;
use protobuf_parse_load::{Asker, LoadStep};
use protobuf_parse_syntax::{FileStatement, FileTree};
use std::alloc::{AllocError, Global};
use std::collections::BTreeMap;

/// The import statements that are told.
#[derive(Drop)]
pub struct Cuts {
    /// Their places, by the proto paths of their files.
    pub places: BTreeMap<String, Vec<Place>>,
}

/// A tree without the import statements that are told.
#[derive(Drop)]
pub struct TrimmedTree {
    pub tree: FileTree,
    /// Whether there were any.
    pub loses: bool,
    /// Whether one of them was public.
    pub loses_public: bool,
}

/// The import statements that these steps tell.
pub fn cuts_of(alloc: Global, steps: &[LoadStep]) -> Result<Cuts, AllocError>
    ensures { IfOk result (λ cuts. HasCuts (steps_view steps.now) cuts) }
{
    let mut cuts = Cuts {
        places: BTreeMap::new(alloc),
    };
    for step in steps {
        add_step(&mut cuts, alloc, step)?;
    }
    Ok(cuts)
}

/// Adds the import statement that the step tells, if it tells one.
fn add_step(cuts: &mut Cuts, alloc: Global, step: &LoadStep) -> Result<(), AllocError>
    ensures { OnOk result (AddsStep cuts.old cuts.new (step_view step.now)) }
{
    if let LoadStep::Told {
        asker: Asker::Import { file, place },
        ..
    } = step
    {
        multimap::put(&mut cuts.places, String::from_str(alloc, file)?, *place)?;
    }
    Ok(())
}

/// The tree of the file of that path, without the import statements that are told.
pub fn trimmed(
    alloc: Global,
    cuts: &Cuts,
    path: &str,
    tree: FileTree,
) -> Result<TrimmedTree, AllocError>
    ensures { IfOk result
        (λ t. IsTrimmed (values_under cuts.now.places path.now) (file_syntax tree) t) }
{
    let places = multimap::values(&cuts.places, path);
    if places.is_empty() {
        return Ok(TrimmedTree {
            tree,
            loses: false,
            loses_public: false,
        });
    }
    let mut trimmed = TrimmedTree {
        tree: FileTree {
            syntax: tree.syntax,
            statements: Vec::new(alloc),
        },
        loses: false,
        loses_public: false,
    };
    for statement in tree.statements {
        add_statement(&mut trimmed, places, statement)?;
    }
    Ok(trimmed)
}

/// Adds a statement, unless it is an import at one of these places.
fn add_statement(
    trimmed: &mut TrimmedTree,
    places: &[Place],
    statement: FileStatement,
) -> Result<(), AllocError>
    ensures { OnOk result
        (TrimsStatement places.now trimmed.old trimmed.new (statement_syntax statement)) }
{
    if let FileStatement::Import(import) = &statement
        && is_among(places, import.place)
    {
        trimmed.loses = true;
        if import.vis.is_public() {
            trimmed.loses_public = true;
        }
        return Ok(());
    }
    trimmed.tree.statements.push(statement)?;
    Ok(())
}

/// Whether it is one of these places.
fn is_among(places: &[Place], place: Place) -> bool
    ensures { result ≡ list_any (same_place place) places.now }
{
    for other in places {
        if other.line == place.line && other.col == place.col {
            return true;
        }
    }
    false
}
