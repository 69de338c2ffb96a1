//! Loading: each file once, its imports first.

ghost use Rattle.std.specs.Prelude.{◌≡◌, ◌≤◌, ◌<◌, ◌++◌, ◌∷◌, [], true, false, length, map, max};
ghost use Rattle.std.specs.Prelude.{OnOk, OnErr, IfOk, Err};
ghost use Rattle.protobuf_parse_base.specs.PathViews.{path_buf_text, path_text};
ghost use Rattle.protobuf_parse_run.specs.declared.fault.RunFault.TheVariants.{Memory};
ghost use Rattle.protobuf_parse_run.specs.declared.log.ReadEntry.{ReadEntry};
ghost use Rattle.protobuf_parse_run.specs.Loading.{IsDecided, ReadsTree, chain_texts};
ghost use Rattle.protobuf_parse_run.specs.Run.{input_view, rows};
ghost use Rattle.protobuf_parse_run.specs.Walks.{among};
ghost use Rattle.protobuf_parse_load.specs.Frames.{AddsStep, ClosesFile, Loads};
ghost use Rattle.protobuf_parse_load.specs.Frames.{MeetsFile, MissesFile, OpensFile, ReadsNew};
ghost use Rattle.protobuf_parse_load.specs.Frames.{RemembersReads};
ghost use Rattle.protobuf_parse_load.specs.Loads.{steps_view, why_view};
ghost use Rattle.protobuf_parse_load.specs.Requests.{asked_in, asker_in, legal_by, path_in};
ghost use Rattle.protobuf_parse_load.specs.StepLists.{is_loaded};
ghost use Rattle.protobuf_parse_load.specs.Steps.{held, holds, is_too_long, known};
ghost use Rattle.protobuf_parse_load.specs.Steps.{loads, meets_input, told, walks_input};

use crate::known::{Known, KnownSteps};
use crate::log::{LoadedFile, UnreadFile};
use crate::request::{Request, Sources, asker_of, path_of, read_for};
use crate::step::{LoadStep, Unfollowed};
use protobuf_parse_base::proto_path::ProtoPath;
use protobuf_parse_run::{
    InputRead, InputReader, ProtoPathResolver, ReadEntry, ReadOutcome, RunFault, RunInput, read_own,
};
use protobuf_parse_syntax::{FileStatement, FileTree};
use std::alloc::{AllocError, Global};
use std::mem;

/// How many files an import chain may have.
pub const MAX_CHAIN: usize = 100;

/// What a load has so far.
#[derive(Drop)]
pub struct Loader {
    pub steps: KnownSteps,
    pub reads: Vec<ReadEntry>,
    pub files: Vec<LoadedFile>,
    pub unread: Vec<UnreadFile>,
    /// The files whose imports are being met, each imported by the one before it.
    pub chain: Vec<String>,
}

/// A file whose imports are being met.
#[derive(Drop)]
pub struct LoadFrame {
    pub file: LoadedFile,
    /// Which statement is next.
    pub next: usize,
    /// How many files the longest import chain from it has so far, itself not counted.
    pub height: usize,
}

/// What came of meeting what asks for a file.
#[derive(Drop)]
pub enum Met {
    /// The file is loaded: how many files the longest chain from it has. Or it isn't followed, and
    /// has none.
    Joined(usize),
    /// It was read now, and its imports are to be met.
    Opened(LoadedFile),
}

impl Loader {
    /// Nothing is loaded.
    pub fn new(alloc: Global) -> Self
        ensures steps { result.steps.list ≡ [] }
        ensures reads { result.reads.items ≡ [] }
        ensures files { result.files.items ≡ [] }
        ensures unread { result.unread.items ≡ [] }
        ensures chain { result.chain.items ≡ [] }
    {
        Loader {
            steps: KnownSteps::new(alloc),
            reads: Vec::new(alloc),
            files: Vec::new(alloc),
            unread: Vec::new(alloc),
            chain: Vec::new(alloc),
        }
    }
}

/// Loads each input in turn.
pub fn load_all<R: ProtoPathResolver, I: InputReader>(
    alloc: Global,
    loader: &mut Loader,
    sources: &Sources<'_, R, I>,
    inputs: &[RunInput],
) -> Result<(), AllocError>
    requires chain { loader.old.chain.items ≡ [] }
    requires decided { IsDecided (rows sources.now.bundled.now) loader.old.reads.items }
    requires remembers { RemembersReads loader.old }
    ensures { Loads R.may_answer I.may_read sources.now
        (λ trees. loads trees 0 (map input_view inputs.now)) loader.old loader.new result }
{
    for (number, input) in inputs.iter().enumerate() {
        load_input(alloc, loader, sources, number, input)?;
    }
    Ok(())
}

/// Loads an input and the files that it reaches.
fn load_input<R: ProtoPathResolver, I: InputReader>(
    alloc: Global,
    loader: &mut Loader,
    sources: &Sources<'_, R, I>,
    number: usize,
    input: &RunInput,
) -> Result<(), AllocError>
    requires chain { loader.old.chain.items ≡ [] }
    requires decided { IsDecided (rows sources.now.bundled.now) loader.old.reads.items }
    requires remembers { RemembersReads loader.old }
    ensures { Loads R.may_answer I.may_read sources.now
        (λ trees. meets_input trees number (input_view input.now)) loader.old loader.new result }
{
    hold(alloc, loader, sources, number, input)?;
    load_file(alloc, loader, sources, number, input)
}

/// Where the file of an input that lies at a path of its own is loaded already, reads it there too.
fn hold<R: ProtoPathResolver, I: InputReader>(
    alloc: Global,
    loader: &mut Loader,
    sources: &Sources<'_, R, I>,
    number: usize,
    input: &RunInput,
) -> Result<(), AllocError>
    requires chain { loader.old.chain.items ≡ [] }
    requires decided { IsDecided (rows sources.now.bundled.now) loader.old.reads.items }
    requires remembers { RemembersReads loader.old }
    ensures { Loads R.may_answer I.may_read sources.now
        (λ trees. holds number (input_view input.now)) loader.old loader.new result }
{
    let RunInput::At { name, fs_path } = input else {
        return Ok(());
    };
    let path = name.as_path();
    if !is_loaded(&loader.steps, path.to_str()) {
        return Ok(());
    }
    let outcome = read_own(alloc, sources.reader, fs_path)?;
    let read = loader.reads.len();
    note(alloc, &mut loader.reads, path, outcome)?;
    add_held(alloc, &mut loader.steps, number, path.to_str(), read)
}

/// Whether the file of the path is loaded.
fn is_loaded(steps: &KnownSteps, path: &str) -> bool
    ensures { result ≡ is_loaded (known path.now (steps_view steps.now.list)) }
{
    match steps.find(path) {
        Some(Known::Loaded(_)) => true,
        _ => false,
    }
}

/// Notes a read.
fn note(
    alloc: Global,
    reads: &mut Vec<ReadEntry>,
    path: ProtoPath<'_>,
    outcome: ReadOutcome,
) -> Result<(), AllocError>
    ensures ok { OnOk result ((e : ReadEntry) × (reads.new.items ≡ reads.old.items ++ e ∷ [])
        × (path_buf_text e.path ≡ path_text path.entry) × (e.outcome ≡ outcome)) }
    ensures err { OnErr result (reads.new.items ≡ reads.old.items) }
{
    let path = path.to_proto_path_buf(alloc)?;
    reads.push(ReadEntry { path, outcome })?;
    Ok(())
}

/// Tells that an input's own file was read as the read with this number.
fn add_held(
    alloc: Global,
    steps: &mut KnownSteps,
    input: usize,
    path: &str,
    read: usize,
) -> Result<(), AllocError>
    ensures { OnOk result (AddsStep steps.old.list steps.new.list (held input path.now read)) }
{
    let path = String::from_str(alloc, path)?;
    steps.push(LoadStep::Held { input, path, read })
}

/// Loads an input, its imports first.
fn load_file<R: ProtoPathResolver, I: InputReader>(
    alloc: Global,
    loader: &mut Loader,
    sources: &Sources<'_, R, I>,
    number: usize,
    input: &RunInput,
) -> Result<(), AllocError>
    requires chain { loader.old.chain.items ≡ [] }
    requires decided { IsDecided (rows sources.now.bundled.now) loader.old.reads.items }
    requires remembers { RemembersReads loader.old }
    ensures { Loads R.may_answer I.may_read sources.now
        (λ trees. walks_input trees number (input_view input.now)) loader.old loader.new result }
{
    let request = Request::Input(number, input);
    let name = path_of(&request);
    let first = meet(alloc, loader, sources, name, &request)?;
    let mut top = match first {
        Met::Joined(_) => return Ok(()),
        Met::Opened(file) => opened(file),
    };
    let mut stack: Vec<LoadFrame> = Vec::new(alloc);
    'files: loop {
        let Some(statement) = top.file.tree.statements.get(top.next) else {
            let height = close(loader, top)?;
            let Some(parent) = stack.pop() else {
                return Ok(());
            };
            top = parent;
            top.height = larger(top.height, height);
            continue;
        };
        top.next += 1;
        let FileStatement::Import(import) = statement else {
            continue;
        };
        let request = Request::Import(top.file.path.as_str(), import);
        let met = meet(alloc, loader, sources, name, &request)?;
        match met {
            Met::Joined(height) => top.height = larger(top.height, height),
            Met::Opened(file) => {
                let parent = mem::replace(&mut top, opened(file));
                stack.push(parent)?;
            }
        }
    }
}

/// A file none of whose imports is met so far.
fn opened(file: LoadedFile) -> LoadFrame
    ensures file { result.file ≡ file }
    ensures next { result.next ≡ 0 }
    ensures height { result.height ≡ 0 }
{
    LoadFrame {
        file,
        next: 0,
        height: 0,
    }
}

fn larger(a: usize, b: usize) -> usize
    ensures { result ≡ max a b }
{
    if b > a { b } else { a }
}

/// Meets what asks for a file, at the end of the chain from this input.
fn meet<R: ProtoPathResolver, I: InputReader>(
    alloc: Global,
    loader: &mut Loader,
    sources: &Sources<'_, R, I>,
    input: &str,
    request: &Request<'_>,
) -> Result<Met, AllocError>
    requires chain { length loader.old.chain.items ≤ MAX_CHAIN }
    requires decided { IsDecided (rows sources.now.bundled.now) loader.old.reads.items }
    requires remembers { RemembersReads loader.old }
    ensures { MeetsFile R.may_answer I.may_read sources.now input.now request.now
        loader.old loader.new result }
{
    let path = path_of(request);
    if is_on_chain(&loader.chain, path) {
        return tell(alloc, &mut loader.steps, request, Unfollowed::Cycle);
    }
    let room = MAX_CHAIN - loader.chain.len();
    match loader.steps.find(path) {
        Some(Known::Unreadable(number)) => {
            tell(
                alloc,
                &mut loader.steps,
                request,
                Unfollowed::Unread(number),
            )
        }
        Some(Known::Loaded(height)) if height <= room => Ok(Met::Joined(height)),
        Some(Known::Loaded(_)) => tell_long(alloc, &mut loader.steps, input, request),
        None if room == 0 => tell_long(alloc, &mut loader.steps, input, request),
        None => read_new(alloc, loader, sources, request),
    }
}

/// Whether the path is among those of the chain.
fn is_on_chain(chain: &[String], path: &str) -> bool
    ensures { result ≡ among path.now (chain_texts chain.now) }
{
    for above in chain {
        if path == above.as_str() {
            return true;
        }
    }
    false
}

/// Tells that what asks for a file isn't followed, and why.
fn tell(
    alloc: Global,
    steps: &mut KnownSteps,
    request: &Request<'_>,
    why: Unfollowed,
) -> Result<Met, AllocError>
    ensures joined { IfOk result (λ m. m ≡ Met.Joined 0) }
    ensures step { OnOk result (AddsStep steps.old.list steps.new.list
        (told (asker_in request.now) (path_in request.now) (why_view why))) }
{
    let asker = asker_of(alloc, request)?;
    let path = String::from_str(alloc, path_of(request))?;
    steps.push(LoadStep::Told { asker, path, why })?;
    Ok(Met::Joined(0))
}

/// Tells that it makes a chain too long, from this input.
fn tell_long(
    alloc: Global,
    steps: &mut KnownSteps,
    input: &str,
    request: &Request<'_>,
) -> Result<Met, AllocError>
    ensures joined { IfOk result (λ m. m ≡ Met.Joined 0) }
    ensures step { OnOk result (AddsStep steps.old.list steps.new.list
        (told (asker_in request.now) (path_in request.now) (is_too_long input.now))) }
{
    let input = String::from_str(alloc, input)?;
    tell(alloc, steps, request, Unfollowed::TooLong(input))
}

/// Reads a file of which nothing is known, and opens it if it has a tree.
fn read_new<R: ProtoPathResolver, I: InputReader>(
    alloc: Global,
    loader: &mut Loader,
    sources: &Sources<'_, R, I>,
    request: &Request<'_>,
) -> Result<Met, AllocError>
    ensures { ReadsNew (legal_by R.may_answer I.may_read sources.now)
        (rows sources.now.bundled.now) request.now loader.old loader.new result }
{
    let read = loader.reads.len();
    match read_tree(alloc, &mut loader.reads, sources, request) {
        Ok(tree) => open(alloc, loader, request, read, tree),
        Err(fault) => {
            if is_memory(&fault) {
                return Err(AllocError);
            }
            miss(alloc, loader, request, read, fault)
        }
    }
}

/// Reads and parses the file, and notes the read.
fn read_tree<R: ProtoPathResolver, I: InputReader>(
    alloc: Global,
    reads: &mut Vec<ReadEntry>,
    sources: &Sources<'_, R, I>,
    request: &Request<'_>,
) -> Result<FileTree, RunFault>
    ensures { ReadsTree (legal_by R.may_answer I.may_read sources.now)
        (rows sources.now.bundled.now) (asked_in request.now) (path_in request.now)
        reads.old.items reads.new.items result }
{
    let InputRead { entry, tree } = read_for(alloc, sources, request)?;
    if ran_out(&tree) {
        return tree;
    }
    reads.push(entry)?;
    tree
}

/// Whether memory ran out before there was an answer.
fn ran_out(answer: &Result<FileTree, RunFault>) -> bool
    ensures memory { result ≡ true → answer.now ≡ Err Memory }
    ensures other { result ≡ false → answer.now ≡ Err Memory → ⊥ }
{
    match answer {
        Ok(_) => false,
        Err(fault) => is_memory(fault),
    }
}

fn is_memory(fault: &RunFault) -> bool
    ensures memory { result ≡ true → fault.now ≡ Memory }
    ensures other { result ≡ false → fault.now ≡ Memory → ⊥ }
{
    match fault {
        RunFault::Memory => true,
        _ => false,
    }
}

/// A file has a tree, which this read gave, and its imports are to be met.
fn open(
    alloc: Global,
    loader: &mut Loader,
    request: &Request<'_>,
    read: usize,
    tree: FileTree,
) -> Result<Met, AllocError>
    ensures { OpensFile request.now read tree loader.old loader.new result }
{
    let asker = asker_of(alloc, request)?;
    let path = path_of(request);
    let step = LoadStep::Opened {
        asker,
        path: String::from_str(alloc, path)?,
    };
    loader.steps.push(step)?;
    loader.chain.push(String::from_str(alloc, path)?)?;
    let path = String::from_str(alloc, path)?;
    Ok(Met::Opened(LoadedFile { path, read, tree }))
}

/// A file has no tree, since this fault stands at this read of it.
fn miss(
    alloc: Global,
    loader: &mut Loader,
    request: &Request<'_>,
    read: usize,
    fault: RunFault,
) -> Result<Met, AllocError>
    ensures { MissesFile request.now read fault loader.old loader.new result }
{
    let why = Unfollowed::Unread(loader.unread.len());
    let path = String::from_str(alloc, path_of(request))?;
    loader.unread.push(UnreadFile { path, read, fault })?;
    tell(alloc, &mut loader.steps, request, why)
}

/// Closes the last file of the chain, whose imports are met.
fn close(loader: &mut Loader, frame: LoadFrame) -> Result<usize, AllocError>
    requires { frame.height < MAX_CHAIN }
    ensures { ClosesFile frame loader.old loader.new result }
{
    let LoadFrame {
        file,
        next: _,
        height,
    } = frame;
    let height = height + 1;
    let path = file.path.clone()?;
    loader.steps.push(LoadStep::Closed { path, height })?;
    loader.files.push(file)?;
    let _ = loader.chain.pop();
    Ok(height)
}
