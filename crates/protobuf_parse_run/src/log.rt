//! What a run is given, what it reads, and what it answers.

use crate::fault::{ReadInputFault, ResolveFault, RunFault};
use protobuf_parse_base::proto_path::ProtoPathBuf;
use protobuf_parse_model::FileDescriptorProto;

/// An input of a run.
#[derive(Debug, Drop)]
pub enum RunInput {
    /// The resolver finds it.
    Named(ProtoPathBuf),
    /// The file at `fs_path`, by the name of a proto path.
    At { name: ProtoPathBuf, fs_path: String },
}

/// A read: which proto path it was for, and what was answered.
#[derive(Debug, PartialEq, Eq, Drop)]
pub struct ReadEntry {
    pub path: ProtoPathBuf,
    pub outcome: ReadOutcome,
}

/// The answer to a read.
#[derive(Debug, PartialEq, Eq, Drop)]
pub enum ReadOutcome {
    /// A file: where it lies, as the resolver said or the input's own path, and its content.
    Content { origin: String, content: Vec<u8> },
    /// The resolver has no such file.
    NotFound,
    ResolverFault(ResolveFault),
    ReaderFault(ReadInputFault),
}

/// What a run did.
#[derive(Debug, Drop)]
pub struct RunLog {
    /// The reads, in order. One that was answered by want of memory is not among them.
    pub reads: Vec<ReadEntry>,
    /// How often a file was met, as an input or an import.
    pub meets: u128,
    /// The descriptors of all files that the inputs reach, each once and after its imports.
    pub result: Result<Vec<FileDescriptorProto>, RunFault>,
}
