//! What a check answers.

use protobuf_parse_load::{LoadStep, UnreadFile};
use protobuf_parse_model::{ElabError, FileDescriptorProto};
use protobuf_parse_run::{ReadEntry, RunFault};
use protobuf_parse_syntax::FileTree;
use std::alloc::AllocError;

/// What became of a file.
#[derive(Clone, Copy, Debug, PartialEq, Eq)]
pub enum FileState {
    /// Nothing is told of it, nor of a file that it reaches.
    Sound,
    /// Nothing is told of it, but something of a file that it reaches.
    HeldUp,
    /// Something is told of it.
    Faulty,
}

/// All that is told of a file that was loaded, and what it became.
#[derive(Drop)]
pub struct FileReport {
    /// Its proto path.
    pub path: String,
    /// Which read gave it.
    pub read: usize,
    /// Its tree, without the import statements that are told.
    pub tree: FileTree,
    /// It is faulty too where one of its import statements is told: which ones the steps say.
    pub state: FileState,
    /// E5 and E6: the full names whose declarations it brings together, each once.
    pub repeats: Vec<ElabError>,
    /// What else is wrong in it, in the order of the definitions.
    pub faults: Vec<ElabError>,
    /// What it becomes: with its custom options where nothing else is wrong in it and in the files
    /// that it reaches. Where something is wrong it is what the definitions say all the same.
    pub descriptor: FileDescriptorProto,
}

/// What is wrong with an input that lies at a path of its own.
#[derive(Drop)]
pub struct InputFault {
    /// Its number among the inputs.
    pub input: usize,
    /// L6: another file was loaded for its proto path. L4: it can't be read.
    pub fault: RunFault,
}

/// What a check tells.
#[derive(Drop)]
pub struct Check {
    /// The steps of the load, in order: what of them is [`LoadStep::Told`] is wrong.
    pub steps: Vec<LoadStep>,
    /// The files that can't be read or parsed, by the numbers that the steps have.
    pub unread: Vec<UnreadFile>,
    /// The inputs for which other files were loaded.
    pub clashes: Vec<InputFault>,
    /// A report of each file that was loaded, in the order of loading: each behind those that it
    /// imports.
    pub files: Vec<FileReport>,
}

/// What a check did.
#[derive(Drop)]
pub struct CheckLog {
    /// The reads, in order. One that was answered by want of memory is not among them.
    pub reads: Vec<ReadEntry>,
    /// The one error is that memory is short.
    pub result: Result<Check, AllocError>,
}
