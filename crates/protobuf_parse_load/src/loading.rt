//! A load of inputs.

ghost use Rattle.std.specs.Prelude.{◌≡◌, map};
ghost use Rattle.protobuf_parse_run.specs.Run.{HaveTrees, MayAnswer, input_view, rows};
ghost use Rattle.protobuf_parse_load.specs.Loads.{LoadsAsTold};

use crate::loader::{Loader, load_all};
use crate::log::{Load, LoadLog};
use crate::request::Sources;
use protobuf_parse_run::{InputReader, ProtoPathResolver, RunInput};
use std::alloc::Global;

/// Loads the inputs in turn: reads and parses each file that they reach once, its imports first.
/// Nothing ends it but want of memory.
///
/// A file that can't be read or parsed, one on its own chain of imports, and one that makes a chain
/// of more than 100 files, is told at each input and each import statement that asks for it, and is
/// as if it were absent. `bundled` has proto paths and texts: where the resolver has no file, the
/// first row with the path stands for it.
///
/// ```
/// let log = load_inputs(alloc, &inputs, &resolver, &FsReader::new(&rt), bundled_files());
/// for file in &log.result?.files {
///     println!(rt; "{}: {} statements", file.path, file.tree.statements.len())?;
/// }
/// ```
pub fn load_inputs<'a, R: ProtoPathResolver, I: InputReader>(
    alloc: Global,
    inputs: &[RunInput],
    resolver: &'a R,
    reader: &'a I,
    bundled: &'a [(&'a str, &'a str)],
) -> LoadLog
    ensures trees { HaveTrees (rows bundled.now) result.reads.items }
    ensures told { LoadsAsTold (MayAnswer (R.may_answer resolver.now) (I.may_read reader.now))
        (map input_view inputs.now) (rows bundled.now) result.reads.items result.result }
{
    let mut loader = Loader::new(alloc);
    let sources = Sources {
        resolver,
        reader,
        bundled,
    };
    let outcome = load_all(alloc, &mut loader, &sources, inputs);
    let Loader {
        steps,
        reads,
        files,
        unread,
        chain: _,
    } = loader;
    let result = match outcome {
        Ok(()) => Ok(Load {
            steps: steps.into_steps(),
            files,
            unread,
        }),
        Err(error) => Err(error),
    };
    LoadLog { reads, result }
}
