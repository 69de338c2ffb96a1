//! An input, read by itself.

ghost use Rattle.std.specs.Prelude.{◌≡◌, None, Some, IfErr, IfOk};
ghost use Rattle.protobuf_parse_base.specs.PathViews.{path_buf_text};
ghost use Rattle.protobuf_parse_syntax.specs.Trees.{file_syntax};
ghost use Rattle.protobuf_parse_run.specs.Loading.{asked_by, legal_by};
ghost use Rattle.protobuf_parse_run.specs.OneRead.{IsReadOf, StandsInRead, text_in};
ghost use Rattle.protobuf_parse_run.specs.Run.{IsTheTree, OrMemory, input_view, rows};
ghost use Rattle.protobuf_parse_run.specs.Walks.{asked_of};

use crate::asking::{answer, tree_given};
use crate::fault::RunFault;
use crate::log::{ReadEntry, RunInput};
use crate::source::{InputReader, ProtoPathResolver, Sources};
use protobuf_parse_base::proto_path::ProtoPathBuf;
use protobuf_parse_syntax::FileTree;
use std::alloc::{AllocError, Global};

/// What was read for an input.
#[derive(Drop)]
pub struct InputRead {
    pub entry: ReadEntry,
    /// The tree of its text, or the fault that a run over the input would tell of it: L1, L2, L4,
    /// L5, L9, or that memory is short.
    pub tree: Result<FileTree, RunFault>,
}

/// Reads and parses an input; what it imports is not read. The one error is that memory is short
/// while it is read.
///
/// ```
/// let read = read_input(alloc, &input, &resolver, &FsReader::new(&rt), bundled_files())?;
/// for statement in &read.tree?.statements {
///     if let FileStatement::Import(import) = statement {
///         println!(rt; "{}", import.path)?;
///     }
/// }
/// ```
pub fn read_input<'a, R: ProtoPathResolver, I: InputReader>(
    alloc: Global,
    input: &RunInput,
    resolver: &'a R,
    reader: &'a I,
    bundled: &'a [(&'a str, &'a str)],
) -> Result<InputRead, AllocError>
    ensures entry { IfOk result (λ r. IsReadOf (R.may_answer resolver.now)
        (I.may_read reader.now) (input_view input.now) r.entry) }
    ensures tree { IfOk result (λ r. IfOk r.tree
        (λ t. IsTheTree (text_in (rows bundled.now) r.entry) (Some (file_syntax t)))) }
    ensures treeless { IfOk result (λ r. IfErr r.tree
        (λ f. OrMemory f (IsTheTree (text_in (rows bundled.now) r.entry) None))) }
    ensures stands { IfOk result (λ r. IfErr r.tree (λ f. OrMemory f
        (StandsInRead (rows bundled.now) (asked_of (input_view input.now)) r.entry f))) }
{
    let sources = Sources {
        resolver,
        reader,
        bundled,
    };
    match input {
        RunInput::Named(name) => read_one(alloc, &sources, name, None),
        RunInput::At { name, fs_path } => read_one(alloc, &sources, name, Some(fs_path.as_str())),
    }
}

/// Reads and parses the file of a path, at `fs_path` if it lies there.
fn read_one<R: ProtoPathResolver, I: InputReader>(
    alloc: Global,
    sources: &Sources<'_, R, I>,
    path: &ProtoPathBuf,
    fs_path: Option<&str>,
) -> Result<InputRead, AllocError>
    ensures path { IfOk result (λ r. path_buf_text r.entry.path ≡ path_buf_text path.now) }
    ensures answer { IfOk result (λ r. legal_by R.may_answer I.may_read sources.now
        (asked_by fs_path.entry) (path_buf_text path.now) r.entry.outcome) }
    ensures tree { IfOk result (λ r. IfOk r.tree
        (λ t. IsTheTree (text_in (rows sources.now.bundled.now) r.entry) (Some (file_syntax t)))) }
    ensures treeless { IfOk result (λ r. IfErr r.tree
        (λ f. OrMemory f (IsTheTree (text_in (rows sources.now.bundled.now) r.entry) None))) }
    ensures stands { IfOk result (λ r. IfErr r.tree (λ f. OrMemory f
        (StandsInRead (rows sources.now.bundled.now) (asked_by fs_path.entry) r.entry f))) }
{
    let outcome = answer(alloc, sources, path, fs_path)?;
    let tree = tree_given(alloc, sources, path.as_path().to_str(), fs_path, &outcome);
    let path = path.as_path().to_proto_path_buf(alloc)?;
    let entry = ReadEntry { path, outcome };
    Ok(InputRead { entry, tree })
}
