//! Files whose imports are being met.

use protobuf_parse_syntax::FileTree;

/// A file whose imports are being met.
#[derive(Drop)]
pub struct LoadFrame {
    pub path: String,
    pub tree: FileTree,
    /// Which read gave it.
    pub read: usize,
    /// Which statement is next, or is the import that is being loaded.
    pub next: usize,
    /// How many files the longest import chain from it has so far, itself not counted.
    pub height: usize,
    /// The numbers of its imports so far.
    pub below: Vec<u32>,
    /// Of those the numbers of its public imports.
    pub public: Vec<u32>,
}
