//! Why a text is no proto path.
use std::fmt;
use thiserror::Error;

/// Why a text is no proto path.
#[derive(Clone, Copy, Debug, PartialEq, Eq, Error)]
pub enum PathError {
    /// P1: the text, or what is left of it, is empty.
    Empty,
    /// P2: the text holds a backslash.
    Backslashes,
    /// P3: there is nothing between two slashes, or before the first or after the last one.
    EmptyComponent,
    /// P4: a part between slashes is `.`.
    Dot,
    /// P5: a part between slashes is `..`.
    DotDot,
    /// P6: the text begins with a slash.
    Absolute,
    /// Memory is short.
    Memory,
}

impl fmt::Display for PathError {
    fn fmt<W: fmt::Write>(&self, f: &mut fmt::Formatter<W>) -> fmt::Result {
        f.write_str(match self {
            PathError::Empty => "path is empty",
            PathError::Backslashes => "backslashes in path",
            PathError::EmptyComponent => "path contains empty components",
            PathError::Dot => "dot in path",
            PathError::DotDot => "dot-dot in path",
            PathError::Absolute => "path is absolute",
            PathError::Memory => "out of memory",
        })
    }
}
