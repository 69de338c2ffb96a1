//! A run: from inputs to the descriptors of all files that they reach.

ghost use Rattle.std.specs.Prelude.{◌≡◌, map, IfOk, IfErr};
ghost use Rattle.protobuf_parse_run.specs.Run.{AreAskedOnce, HaveLists, HaveTrees, IsCaused, IsMet};
ghost use Rattle.protobuf_parse_run.specs.Run.{MayAnswer, RunsAsTold, input_view, rows};
ghost use Rattle.protobuf_parse_run.specs.ReadBack.{OptionsAreReadable};
ghost use Rattle.protobuf_parse_run.specs.Recovered.{OptionsAreHeld};
ghost use Rattle.protobuf_parse_run.specs.Shipped.{IsNeverAsked, RunsByResolver};
ghost use Rattle.protobuf_parse_run.specs.Walks.{named};
ghost use Rattle.protobuf_parse_run.specs.Loading.{LoadedEntry};
ghost use Rattle.protobuf_parse_base.specs.PathViews.{path_buf_text};
ghost use Rattle.protobuf_parse_base.specs.declared.proto_path.path.ProtoPathBuf.{ProtoPathBuf};

use crate::bundled::bundled_files;
use crate::fault::RunFault;
use crate::loaded::LoadedFiles;
use crate::loader::{Loader, load_inputs};
use crate::log::{RunInput, RunLog};
use crate::source::{InputReader, NoReader, ProtoPathResolver, Sources};
use protobuf_parse_base::proto_path::ProtoPathBuf;
use protobuf_parse_model::FileDescriptorProto;
use std::alloc::{AllocError, Global};

/// Loads the inputs in turn, each file that they reach once and after its imports, and gives the
/// descriptors in the order of loading, or the fault of the first step that fails.
///
/// `bundled` has proto paths and texts: where the resolver has no file, the first row with the path
/// stands for it. The fault is L1, L2, L4 to L10 or want of memory.
///
/// ```
/// let resolver = fs_resolver(&rt, alloc, &["schemas", "vendor"])?;
/// let mut inputs = Vec::new(alloc);
/// inputs.push(RunInput::Named(ProtoPathBuf::from_path(alloc, "shop/order.proto")?))?;
/// let log = run_inputs(alloc, &inputs, &resolver, &FsReader::new(&rt), bundled_files());
/// for read in &log.reads {
///     write!(text, "{}\n", read.path)?;
/// }
/// let files = log.result?;
/// ```
pub fn run_inputs<'a, R: ProtoPathResolver, I: InputReader>(
    alloc: Global,
    inputs: &[RunInput],
    resolver: &'a R,
    reader: &'a I,
    bundled: &'a [(&'a str, &'a str)],
) -> RunLog
    ensures trees { HaveTrees (rows bundled.now) result.reads.items }
    ensures lists { HaveLists (rows bundled.now) result.reads.items }
    ensures told { RunsAsTold (MayAnswer (R.may_answer resolver.now) (I.may_read reader.now))
        (map input_view inputs.now) (rows bundled.now) result.reads.items result.result }
    ensures caused { IfErr result.result (λ f.
        IsCaused (R.may_answer resolver.now) (I.may_read reader.now) f) }
    ensures once { AreAskedOnce (MayAnswer (R.may_answer resolver.now) (I.may_read reader.now))
        (map input_view inputs.now) (rows bundled.now) result.reads.items }
    ensures options { OptionsAreHeld (map input_view inputs.now) (rows bundled.now)
        result.reads.items result.result }
    ensures readable { OptionsAreReadable (map input_view inputs.now) (rows bundled.now)
        result.reads.items result.result }
    ensures meets { IsMet (map input_view inputs.now)
        (rows bundled.now) result.reads.items result.meets result.result }
{
    let mut loader = Loader::new(alloc);
    let sources = Sources {
        resolver,
        reader,
        bundled,
    };
    let outcome = load_inputs(alloc, &mut loader, &sources, inputs);
    let Loader {
        loaded,
        reads,
        meets,
        tables: _,
        chain: _,
    } = loader;
    let result = match outcome {
        Ok(()) => match descriptors(alloc, loaded) {
            Ok(descriptors) => Ok(descriptors),
            Err(_) => Err(RunFault::Memory),
        },
        Err(fault) => Err(fault),
    };
    RunLog {
        reads,
        meets,
        result,
    }
}

/// The descriptors of the loaded files, in their order.
fn descriptors(alloc: Global, loaded: LoadedFiles) -> Result<Vec<FileDescriptorProto>, AllocError>
    ensures { IfOk result
        (λ v. v.items ≡ map (λ (e : LoadedEntry). e.1.descriptor) loaded.entries) }
{
    let mut descriptors = Vec::new(alloc);
    for (_, file) in loaded.into_entries() {
        descriptors.push(file.into_descriptor())?;
    }
    Ok(descriptors)
}

/// The result of a run over inputs that the resolver finds, with the files that this library
/// brings. The fault is L1, L2, L5, L7 to L10 or want of memory.
///
/// ```
/// // `registry` is a resolver of one's own, as that of `CALLING.md`.
/// let mut paths = Vec::new(alloc);
/// paths.push(ProtoPathBuf::from_path(alloc, "shop/order.proto")?)?;
/// let files = parse_and_typecheck_custom(alloc, &paths, &registry)?;
/// ```
pub fn parse_and_typecheck_custom<R: ProtoPathResolver>(
    alloc: Global,
    input: &[ProtoPathBuf],
    resolver: &R,
) -> Result<Vec<FileDescriptorProto>, RunFault>
    ensures told { RunsByResolver (R.may_answer resolver.now)
        (map (λ (b : ProtoPathBuf). named (path_buf_text b)) input.now) result }
    ensures caused { IfErr result (λ f. IsCaused (R.may_answer resolver.now) IsNeverAsked f) }
{
    let mut inputs = Vec::new(alloc);
    for path in input {
        inputs.push(RunInput::Named(path.as_path().to_proto_path_buf(alloc)?))?;
    }
    run_inputs(alloc, &inputs, resolver, &NoReader, bundled_files()).result
}
