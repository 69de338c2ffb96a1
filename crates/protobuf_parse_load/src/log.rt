//! What a load answers.

use crate::step::LoadStep;
use protobuf_parse_run::{ReadEntry, RunFault};
use protobuf_parse_syntax::FileTree;
use std::alloc::AllocError;

/// A file that was loaded.
#[derive(Drop)]
pub struct LoadedFile {
    /// Its proto path.
    pub path: String,
    /// Which read gave it.
    pub read: usize,
    pub tree: FileTree,
}

/// A file that can't be read or parsed.
#[derive(Drop)]
pub struct UnreadFile {
    /// Its proto path.
    pub path: String,
    /// Which read told so.
    pub read: usize,
    /// L1, L2, L4, L5 or L9.
    pub fault: RunFault,
}

/// What a load did.
#[derive(Drop)]
pub struct Load {
    /// Its steps, in order.
    pub steps: Vec<LoadStep>,
    /// The files that were loaded, in the order of the steps that close them: each behind those
    /// that it imports.
    pub files: Vec<LoadedFile>,
    /// The files that can't be read or parsed, by their numbers.
    pub unread: Vec<UnreadFile>,
}

/// What a load read, and what it did.
#[derive(Drop)]
pub struct LoadLog {
    /// The reads, in order. One that was answered by want of memory is not among them.
    pub reads: Vec<ReadEntry>,
    pub result: Result<Load, AllocError>,
}
