//! Loading: each file once, its imports first.

ghost use Rattle.std.specs.Prelude.{◌≡◌, true, false, ◌≤◌, ◌<◌, ◌+◌, ◌^◌, ◌++◌, ◌∷◌, [], ℕ, List};
ghost use Rattle.std.specs.Prelude.{map, length, Result, Ok, Option, Some, option_map, IfOk, IfErr};
ghost use Rattle.std.specs.Prelude.{OnOk, OnErr, String, slice_get, string_bytes};
ghost use Rattle.std.specs.Borrow.{Bor};
ghost use Rattle.std.specs.Global.{Global};
ghost use Rattle.std.specs.List.Sorted.{IsStrictlyIncreasing};
ghost use Rattle.protobuf_parse_base.specs.declared.proto_path.path.ProtoPathBuf.{ProtoPathBuf};
ghost use Rattle.protobuf_parse_base.specs.PathViews.{path_buf_text};
ghost use Rattle.protobuf_parse_syntax.specs.Counts.{statements_in};
ghost use Rattle.protobuf_parse_syntax.specs.Trees.{file_syntax, FileSyntax};
ghost use Rattle.protobuf_parse_model.specs.Descriptors.{file_view};
ghost use Rattle.protobuf_parse_model.specs.Faults.{fault_view};
ghost use Rattle.protobuf_parse_model.specs.Tables.{TableTells};
ghost use Rattle.protobuf_parse_run.specs.declared.fault.RunFault.TheVariants.{Memory};
ghost use Rattle.protobuf_parse_run.specs.declared.log.ReadEntry.{ReadEntry};
ghost use Rattle.protobuf_parse_run.specs.Walks.{among, at, with_check, with_input};
ghost use Rattle.protobuf_parse_run.specs.Run.{OrMemory, StandsInCheck, StandsInCycle};
ghost use Rattle.protobuf_parse_run.specs.Run.{StandsInElab, StandsInLong, are_same_bytes};
ghost use Rattle.protobuf_parse_run.specs.Run.{input_view, origin_given, rows, text_given};
ghost use Rattle.protobuf_parse_run.specs.Loading.{ElaboratesTo, Grows, IndexBegins, IsDecided};
ghost use Rattle.protobuf_parse_run.specs.Loading.{IsElabFault, IsPlaced, IsReaders, IsShadowed};
ghost use Rattle.protobuf_parse_run.specs.Loading.{ReadsTree, ElaboratesOver, asked_by};
ghost use Rattle.protobuf_parse_run.specs.Loading.{IsToldOver, chain_texts, legal_by, named_trees};
ghost use Rattle.protobuf_parse_run.specs.Loading.{descriptors_over, descriptors_with, trees_of};
ghost use Rattle.protobuf_parse_run.specs.Frames.{Joined, is_public_at, number_if};
ghost use Rattle.protobuf_parse_run.specs.Calls.{CanMeet, CountsThrough, ElaboratesFrame};
ghost use Rattle.protobuf_parse_run.specs.Calls.{GoesThrough, GoesTo, HasIndex, KnowsFiles, Loads};
ghost use Rattle.protobuf_parse_run.specs.Calls.{MeetsFile, StaysDecided, with_file};

use crate::asking::{answer, tree_given, unreadable};
use crate::elaborated::elaborated;
use crate::fault::RunFault;
use crate::frame::LoadFrame;
use crate::loaded::LoadedFiles;
use crate::log::{ReadEntry, ReadOutcome, RunInput};
use crate::reach::{ImportNumbers, Sights, sights_of};
use crate::source::{InputReader, ProtoPathResolver, Sources};
use crate::tables::Tables;
use protobuf_parse_base::proto_path::ProtoPathBuf;
use protobuf_parse_model::{ElabError, ElabFailure, FileDescriptorProto};
use protobuf_parse_syntax::{FileStatement, FileTree};
use std::alloc::{AllocError, Global};
use std::mem;
use std::snapshot::Snapshot;

/// How many files an import chain may have.
pub const MAX_CHAIN: usize = 100;

/// A file whose imports are loaded, and which became a descriptor.
pub struct LoadedFile {
    /// Its tree, for clauses alone: it has no bytes here.
    pub tree: Snapshot<FileTree>,
    /// How many files the longest import chain from it has, itself counted.
    pub height: usize,
    /// The numbers of the files that it reaches, its own among them, ascending.
    pub reach: Vec<u32>,
    /// The numbers of the files that it hands on to those that import it, likewise.
    pub handed_on: Vec<u32>,
    /// Which read gave it.
    pub read: usize,
    pub descriptor: FileDescriptorProto,
}

// Written out: what drops it calls this, and need not prove anew how descriptors are dropped.
impl Drop for LoadedFile {
    fn drop(self) {
        let LoadedFile {
            tree: _,
            height: _,
            reach: _,
            handed_on: _,
            read: _,
            descriptor: _,
        } = self;
    }
}

impl LoadedFile {
    /// What it became.
    pub fn into_descriptor(self) -> FileDescriptorProto
        ensures { result ≡ self.descriptor }
    {
        let LoadedFile {
            tree: _,
            height: _,
            reach: _,
            handed_on: _,
            read: _,
            descriptor,
        } = self;
        descriptor
    }
}

/// The number and the height of a loaded file.
#[derive(Clone, Copy)]
pub struct LoadedAs {
    pub number: u32,
    pub height: usize,
}

/// What a run has so far.
#[derive(Drop)]
pub struct Loader {
    pub loaded: LoadedFiles,
    /// What the loaded files declare, by their numbers.
    pub tables: Tables,
    pub reads: Vec<ReadEntry>,
    /// The files whose imports are being loaded, each imported by the one before it.
    pub chain: Vec<String>,
    pub meets: u128,
}

impl Loader {
    /// Nothing is loaded.
    pub fn new(alloc: Global) -> Self
        ensures loaded { result.loaded.entries ≡ [] }
        ensures names { TableTells result.tables.names [] }
        ensures spots { IndexBegins result.tables.spots [] }
        ensures reads { result.reads.items ≡ [] }
        ensures chain { result.chain.items ≡ [] }
        ensures meets { result.meets ≡ 0 }
    {
        Loader {
            loaded: LoadedFiles::new(alloc),
            tables: Tables::new(alloc),
            reads: Vec::new(alloc),
            chain: Vec::new(alloc),
            meets: 0,
        }
    }
}

/// What came of meeting a file.
#[derive(Drop)]
pub enum Met {
    /// It is loaded already.
    Loaded(LoadedAs),
    /// It was read now, and its imports are to be met.
    Opened(LoadFrame),
}

/// Loads each input in turn.
pub fn load_inputs<R: ProtoPathResolver, I: InputReader>(
    alloc: Global,
    loader: &mut Loader,
    sources: &Sources<'_, R, I>,
    inputs: &[RunInput],
) -> Result<(), RunFault>
    requires loaded { loader.old.loaded.entries ≡ [] }
    requires names { TableTells loader.old.tables.names [] }
    requires spots { IndexBegins loader.old.tables.spots [] }
    requires reads { loader.old.reads.items ≡ [] }
    requires chain { loader.old.chain.items ≡ [] }
    requires meets { loader.old.meets ≡ 0 }
    ensures goes { GoesThrough R.may_answer I.may_read sources.now (map input_view inputs.now)
        loader.new result }
    ensures count { CountsThrough sources.now (map input_view inputs.now) loader.new result }
    ensures decided { IsDecided (rows sources.now.bundled.now) loader.new.reads.items }
    ensures known { OnOk result (KnowsFiles loader.new) }
{
    for input in inputs {
        load_input(alloc, loader, sources, input)?;
    }
    Ok(())
}

/// Loads an input and the files that it reaches.
fn load_input<R: ProtoPathResolver, I: InputReader>(
    alloc: Global,
    loader: &mut Loader,
    sources: &Sources<'_, R, I>,
    input: &RunInput,
) -> Result<(), RunFault>
    requires chain { loader.old.chain.items ≡ [] }
    requires known { KnowsFiles loader.old }
    requires room { CanMeet loader.old }
    ensures { Loads R.may_answer I.may_read sources.now (with_input (input_view input.now))
        loader.old loader.new result }
{
    match input {
        RunInput::Named(name) => load_file(alloc, loader, sources, name, None),
        RunInput::At { name, fs_path } => {
            check_loaded(alloc, loader, sources, name, fs_path)?;
            load_file(alloc, loader, sources, name, Some(fs_path.as_str()))
        }
    }
}

/// Where the file of an input that lies at a path of its own is loaded already, reads it there too:
/// other content is L6.
fn check_loaded<R: ProtoPathResolver, I: InputReader>(
    alloc: Global,
    loader: &mut Loader,
    sources: &Sources<'_, R, I>,
    name: &ProtoPathBuf,
    fs_path: &str,
) -> Result<(), RunFault>
    requires known { KnowsFiles loader.old }
    ensures chain { loader.new.chain ≡ loader.old.chain }
    ensures loaded { loader.new.loaded ≡ loader.old.loaded }
    ensures tables { loader.new.tables ≡ loader.old.tables }
    ensures meets { loader.new.meets ≡ loader.old.meets }
    ensures grows { Grows loader.old.reads.items loader.new.reads.items }
    ensures more { length loader.old.reads.items ≤ length loader.new.reads.items }
    ensures goes { GoesTo R.may_answer I.may_read sources.now
        (with_check (at (path_buf_text name.now) fs_path.now)) loader.old loader.new result }
    ensures decided { StaysDecided sources.now loader.old loader.new }
{
    let read = match loader.loaded.find(name.as_path().to_str()) {
        Some((_, file)) => file.read,
        None => return Ok(()),
    };
    let outcome = answer(alloc, sources, name, Some(fs_path))?;
    let loaded = content_of(&loader.reads, read, sources.bundled);
    let same = compared(alloc, name, fs_path, &outcome, loaded);
    if ran_out(&same) {
        return same;
    }
    note(alloc, loader, name, outcome)?;
    same
}

/// The content that the read with this number gave.
pub fn content_of<'a>(
    reads: &'a [ReadEntry],
    read: usize,
    bundled: &[(&'a str, &'a str)],
) -> Option<&'a [u8]>
    ensures { (e : ReadEntry) → slice_get reads.now read ≡ Some e
        → option_map (λ (b : Bor (List ℕ)). b.now) result
        ≡ text_given (rows bundled.now) (path_buf_text e.path) (Some e.outcome) }
{
    match reads.get(read) {
        Some(entry) => entry.content(bundled),
        None => None,
    }
}

/// L4 where the reader gave a fault, and L6 where it gave other bytes than were loaded.
pub fn compared(
    alloc: Global,
    name: &ProtoPathBuf,
    fs_path: &str,
    outcome: &ReadOutcome,
    loaded: Option<&[u8]>,
) -> Result<(), RunFault>
    requires { IsReaders outcome.now }
    ensures same { OnOk result
        (are_same_bytes (text_given [] [] (Some outcome.now))
        (option_map (λ (b : Bor (List ℕ)). b.now) loaded.entry) ≡ true) }
    ensures other { IfErr result
        (λ f. OrMemory f
        (are_same_bytes (text_given [] [] (Some outcome.now))
        (option_map (λ (b : Bor (List ℕ)). b.now) loaded.entry) ≡ false)) }
    ensures stands { IfErr result
        (λ f. OrMemory f
        (StandsInCheck fs_path.now (path_buf_text name.now) (Some outcome.now) f)) }
{
    match outcome {
        ReadOutcome::ReaderFault(fault) => Err(unreadable(alloc, fs_path, *fault)),
        ReadOutcome::Content { content, .. } => match loaded {
            Some(bytes) if content.as_slice() == bytes => Ok(()),
            _ => Err(shadowed(alloc, name, fs_path)),
        },
        _ => Err(RunFault::Memory),
    }
}

/// L6.
fn shadowed(alloc: Global, name: &ProtoPathBuf, fs_path: &str) -> RunFault
    ensures { OrMemory result (IsShadowed fs_path.now (path_buf_text name.now) result) }
{
    let Ok(input) = String::from_str(alloc, fs_path) else {
        return RunFault::Memory;
    };
    match String::from_str(alloc, name.as_path().to_str()) {
        Ok(path) => RunFault::Shadowed(input, path),
        Err(_) => RunFault::Memory,
    }
}

/// Notes a read.
fn note(
    alloc: Global,
    loader: &mut Loader,
    path: &ProtoPathBuf,
    outcome: ReadOutcome,
) -> Result<(), AllocError>
    ensures loaded { loader.new.loaded ≡ loader.old.loaded }
    ensures tables { loader.new.tables ≡ loader.old.tables }
    ensures chain { loader.new.chain ≡ loader.old.chain }
    ensures meets { loader.new.meets ≡ loader.old.meets }
    ensures ok { OnOk result ((e : ReadEntry)
        × (loader.new.reads.items ≡ loader.old.reads.items ++ e ∷ [])
        × (path_buf_text e.path ≡ path_buf_text path.now) × (e.outcome ≡ outcome)) }
    ensures err { OnErr result (loader.new.reads.items ≡ loader.old.reads.items) }
{
    let path = path.as_path().to_proto_path_buf(alloc)?;
    loader.reads.push(ReadEntry { path, outcome })?;
    Ok(())
}

/// Loads an input, its imports first. `fs_path` is where it lies, if it isn't found by the
/// resolver.
fn load_file<R: ProtoPathResolver, I: InputReader>(
    alloc: Global,
    loader: &mut Loader,
    sources: &Sources<'_, R, I>,
    input: &ProtoPathBuf,
    fs_path: Option<&str>,
) -> Result<(), RunFault>
    requires chain { loader.old.chain.items ≡ [] }
    requires known { KnowsFiles loader.old }
    requires room { CanMeet loader.old }
    ensures { Loads R.may_answer I.may_read sources.now
        (with_file (path_buf_text input.now) fs_path.entry) loader.old loader.new result }
{
    let first = meet(alloc, loader, sources, input, input, fs_path)?;
    let mut top = match first {
        Met::Loaded(_) => return Ok(()),
        Met::Opened(frame) => frame,
    };
    let mut stack: Vec<LoadFrame> = Vec::new(alloc);
    'files: loop {
        let Some(statement) = top.tree.statements.get(top.next) else {
            let placed = elaborate_last(alloc, loader, top)?;
            let Some(parent) = stack.pop() else {
                return Ok(());
            };
            top = parent;
            join(&mut top, placed)?;
            continue;
        };
        let FileStatement::Import(import) = statement else {
            top.next += 1;
            continue;
        };
        let met = meet(alloc, loader, sources, input, &import.path, None)?;
        match met {
            Met::Loaded(placed) => join(&mut top, placed)?,
            Met::Opened(frame) => {
                let parent = mem::replace(&mut top, frame);
                stack.push(parent)?;
            }
        }
    }
}

/// Meets a file: as `input`, or as an import of the last file of the chain. Opens it if it isn't
/// loaded.
fn meet<R: ProtoPathResolver, I: InputReader>(
    alloc: Global,
    loader: &mut Loader,
    sources: &Sources<'_, R, I>,
    input: &ProtoPathBuf,
    path: &ProtoPathBuf,
    fs_path: Option<&str>,
) -> Result<Met, RunFault>
    requires chain { length loader.old.chain.items ≤ MAX_CHAIN }
    requires room { loader.old.meets + 1 < 2 ^ 128 }
    ensures { MeetsFile R.may_answer I.may_read sources.now (path_buf_text input.now)
        (asked_by fs_path.entry) (path_buf_text path.now) loader.old loader.new result }
{
    loader.meets += 1;
    let text = path.as_path().to_str();
    if is_on_chain(&loader.chain, text) {
        return Err(cycle(alloc, text));
    }
    if let Some(placed) = placed_at(&loader.loaded, text) {
        if placed.height > MAX_CHAIN - loader.chain.len() {
            return Err(too_long(alloc, input));
        }
        return Ok(Met::Loaded(placed));
    }
    if loader.chain.len() == MAX_CHAIN {
        return Err(too_long(alloc, input));
    }
    let read = loader.reads.len();
    let tree = read_tree(alloc, loader, sources, path, fs_path)?;
    enter(alloc, &mut loader.chain, text)?;
    let frame = LoadFrame {
        path: String::from_str(alloc, text)?,
        tree,
        read,
        next: 0,
        height: 0,
        below: Vec::new(alloc),
        public: Vec::new(alloc),
    };
    Ok(Met::Opened(frame))
}

/// Takes the import that is next, which is loaded.
fn join(frame: &mut LoadFrame, placed: LoadedAs) -> Result<(), AllocError>
    requires { frame.old.next < length frame.old.tree.statements.items }
    ensures { OnOk result (Joined frame.old placed frame.new) }
{
    frame.below.push(placed.number)?;
    let public = is_public_next(&frame.tree.statements, frame.next);
    push_if(&mut frame.public, public, placed.number)?;
    if placed.height > frame.height {
        frame.height = placed.height;
    }
    frame.next += 1;
    Ok(())
}

/// Whether the statement with this number is a public import.
fn is_public_next(statements: &[FileStatement], number: usize) -> bool
    ensures { result ≡ is_public_at (slice_get statements.now number) }
{
    match statements.get(number) {
        Some(FileStatement::Import(import)) => import.vis.is_public(),
        _ => false,
    }
}

/// Puts the number behind the others, if `public` is true.
fn push_if(numbers: &mut Vec<u32>, public: bool, number: u32) -> Result<(), AllocError>
    ensures { OnOk result (numbers.new.items ≡ numbers.old.items ++ number_if public number) }
{
    if public {
        numbers.push(number)?;
    }
    Ok(())
}

/// Elaborates the last file of the chain, whose imports are loaded, and adds it to the loaded ones.
fn elaborate_last(
    alloc: Global,
    loader: &mut Loader,
    frame: LoadFrame,
) -> Result<LoadedAs, RunFault>
    requires low { frame.height < MAX_CHAIN }
    requires few { statements_in (file_syntax frame.tree) ≤ 2147483647 }
    requires begins { HasIndex loader.old }
    ensures { ElaboratesFrame frame loader.old loader.new result }
{
    let LoadFrame {
        path,
        tree,
        read,
        next: _,
        height,
        below,
        public,
    } = frame;
    let _ = loader.chain.pop();
    let imports = ImportNumbers {
        all: &below,
        public: &public,
    };
    elaborate_and_add(alloc, loader, path, tree, height + 1, &imports, read)
}

/// L7.
fn cycle(alloc: Global, path: &str) -> RunFault
    ensures { OrMemory result (StandsInCycle path.now result) }
{
    match String::from_str(alloc, path) {
        Ok(path) => RunFault::ImportCycle(path),
        Err(_) => RunFault::Memory,
    }
}

/// L8 from the input.
fn too_long(alloc: Global, input: &ProtoPathBuf) -> RunFault
    ensures { OrMemory result (StandsInLong (path_buf_text input.now) result) }
{
    match String::from_str(alloc, input.as_path().to_str()) {
        Ok(input) => RunFault::ImportChainTooLong(input),
        Err(_) => RunFault::Memory,
    }
}

fn is_on_chain(chain: &[String], path: &str) -> bool
    ensures { result ≡ among path.now (chain_texts chain.now) }
{
    for above in chain {
        if path == above.as_str() {
            return true;
        }
    }
    false
}

/// Where the file of this path stands, if it is loaded.
fn placed_at(loaded: &LoadedFiles, path: &str) -> Option<LoadedAs>
    ensures { IsPlaced path.now loaded.now.entries result }
{
    match loaded.find(path) {
        Some((number, file)) => Some(LoadedAs {
            number,
            height: file.height,
        }),
        None => None,
    }
}

/// Adds a file to the end of the chain.
fn enter(alloc: Global, chain: &mut Vec<String>, path: &str) -> Result<(), AllocError>
    ensures { OnOk result ((s : String Global) × (chain.new.items ≡ chain.old.items ++ s ∷ [])
        × (string_bytes s ≡ path.now)) }
{
    chain.push(String::from_str(alloc, path)?)?;
    Ok(())
}

/// Reads a file that isn't loaded, and notes the read.
fn read_tree<R: ProtoPathResolver, I: InputReader>(
    alloc: Global,
    loader: &mut Loader,
    sources: &Sources<'_, R, I>,
    path: &ProtoPathBuf,
    fs_path: Option<&str>,
) -> Result<FileTree, RunFault>
    ensures loaded { loader.new.loaded ≡ loader.old.loaded }
    ensures tables { loader.new.tables ≡ loader.old.tables }
    ensures chain { loader.new.chain ≡ loader.old.chain }
    ensures meets { loader.new.meets ≡ loader.old.meets }
    ensures read { ReadsTree (legal_by R.may_answer I.may_read sources.now)
        (rows sources.now.bundled.now) (asked_by fs_path.entry)
        (path_buf_text path.now) loader.old.reads.items loader.new.reads.items result }
{
    let outcome = answer(alloc, sources, path, fs_path)?;
    let tree = tree_given(alloc, sources, path.as_path().to_str(), fs_path, &outcome);
    if ran_out(&tree) {
        return tree;
    }
    note(alloc, loader, path, outcome)?;
    tree
}

/// Whether memory ran out before there was an answer.
fn ran_out<T>(answer: &Result<T, RunFault>) -> bool
    ensures memory { result ≡ true → answer.now ≡ Err Memory }
    ensures other { result ≡ false → answer.now ≡ Err Memory → ⊥ }
{
    match answer {
        Ok(_) => false,
        Err(fault) => is_memory(fault),
    }
}

fn is_memory(fault: &RunFault) -> bool
    ensures memory { result ≡ true → fault.now ≡ Memory }
    ensures other { result ≡ false → fault.now ≡ Memory → ⊥ }
{
    match fault {
        RunFault::Memory => true,
        _ => false,
    }
}

/// Elaborates a file whose imports are loaded, and adds it to the loaded ones.
fn elaborate_and_add(
    alloc: Global,
    loader: &mut Loader,
    path: String,
    tree: FileTree,
    height: usize,
    imports: &ImportNumbers<'_>,
    read: usize,
) -> Result<LoadedAs, RunFault>
    requires few { statements_in (file_syntax tree) ≤ 2147483647 }
    requires begins { HasIndex loader.old }
    ensures reads { loader.new.reads ≡ loader.old.reads }
    ensures chain { loader.new.chain ≡ loader.old.chain }
    ensures meets { loader.new.meets ≡ loader.old.meets }
    ensures height { IfOk result (λ placed. placed.height ≡ height) }
    ensures elaborates { TableTells loader.old.tables.names
        (trees_of (named_trees loader.old.loaded.entries))
        → ElaboratesOver (string_bytes path)
        (file_syntax tree) height read imports.now.all.now imports.now.public.now
        loader.old.reads.items loader.old.loaded.entries loader.new.loaded.entries loader.new.tables
        result }
{
    let sights = sights_of(alloc, &loader.loaded, imports)?;
    loader.tables.names.add(alloc, loader.loaded.len(), &tree)?;
    let kept = Snapshot::of(&tree);
    let descriptor = descriptor_of(alloc, loader, &sights, &path, tree, read)?;
    let Sights {
        reach,
        handed_on,
        ..
    } = sights;
    let file = LoadedFile {
        tree: kept,
        height,
        reach,
        handed_on,
        read,
        descriptor,
    };
    let placed = add(&mut loader.loaded, path, file)?;
    Ok(placed)
}

/// Adds a file to the loaded ones.
fn add(loaded: &mut LoadedFiles, path: String, file: LoadedFile) -> Result<LoadedAs, AllocError>
    ensures height { IfOk result (λ placed. placed.height ≡ file.height) }
    ensures added { IfOk result
        (λ placed. (loaded.new.entries ≡ loaded.old.entries ++ (path, file) ∷ [])
        × (placed.number ≡ length loaded.old.entries)) }
{
    let height = file.height;
    let number = loaded.add(path, file)?;
    Ok(LoadedAs { number, height })
}

/// What a file becomes over the files that it reaches and sees, or L10 of this read.
fn descriptor_of(
    alloc: Global,
    loader: &mut Loader,
    sights: &Sights,
    path: &str,
    tree: FileTree,
    read: usize,
) -> Result<FileDescriptorProto, RunFault>
    requires few { statements_in (file_syntax tree) ≤ 2147483647 }
    requires reach { IsStrictlyIncreasing sights.now.reach.items }
    requires sight { IsStrictlyIncreasing sights.now.sight.items }
    requires begins { HasIndex loader.old }
    ensures loaded { loader.new.loaded ≡ loader.old.loaded }
    ensures names { loader.new.tables.names ≡ loader.old.tables.names }
    ensures reads { loader.new.reads ≡ loader.old.reads }
    ensures chain { loader.new.chain ≡ loader.old.chain }
    ensures meets { loader.new.meets ≡ loader.old.meets }
    ensures ok { (files : List FileSyntax) → TableTells loader.old.tables.names files →
        IfOk result
        (λ d. ElaboratesTo loader.old.loaded.entries files sights.now.reach.items
        sights.now.sight.items path.now (file_syntax tree) (Ok d)) }
    ensures err { (files : List FileSyntax) → TableTells loader.old.tables.names files
        → let t = file_syntax tree in
        IfErr result (λ f. (e : ReadEntry) → slice_get loader.old.reads.items read ≡ Some e
        → path_buf_text e.path ≡ path.now
        → OrMemory f (StandsInElab (origin_given path.now (Some e.outcome))
        (IsToldOver loader.old.loaded.entries files
        (descriptors_over loader.old.loaded.entries files sights.now.sight.items path.now t)
        sights.now.reach.items sights.now.sight.items t) f)) }
    ensures begins { (files : List FileSyntax) → TableTells loader.old.tables.names files
        → IfOk result (λ d. IndexBegins loader.new.tables.spots
        (descriptors_with loader.old.loaded.entries (file_view d))) }
{
    match elaborated(
        alloc,
        &loader.loaded,
        &mut loader.tables,
        sights,
        path,
        tree,
    ) {
        Ok(descriptor) => Ok(descriptor),
        Err(ElabFailure::Memory) => Err(RunFault::Memory),
        Err(ElabFailure::Fault(error)) => Err(refused(alloc, &loader.reads, read, path, error)),
    }
}

/// L10 of the file that this read gave.
fn refused(
    alloc: Global,
    reads: &[ReadEntry],
    read: usize,
    path: &str,
    error: ElabError,
) -> RunFault
    ensures { (e : ReadEntry) → slice_get reads.now read ≡ Some e → path_buf_text e.path ≡ path.now
        → OrMemory result
        (IsElabFault (origin_given path.now (Some e.outcome)) (fault_view error) result) }
{
    let file = match reads.get(read) {
        Some(entry) => entry.origin(),
        None => path,
    };
    match String::from_str(alloc, file) {
        Ok(file) => RunFault::Elaborate(file, error),
        Err(_) => RunFault::Memory,
    }
}
