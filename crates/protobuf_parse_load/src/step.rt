//! The steps of a load.

use protobuf_parse_lexer::Place;

/// Who asks for a file.
#[derive(Debug, PartialEq, Eq, Drop)]
pub enum Asker {
    /// The input with this number.
    Input(usize),
    /// The import statement at this place of the file with this proto path.
    Import { file: String, place: Place },
}

/// Why a file that is asked for isn't followed.
#[derive(Debug, PartialEq, Eq, Drop)]
pub enum Unfollowed {
    /// It can't be read or parsed: its number among the unread files.
    Unread(usize),
    /// It is on its own chain of imports.
    Cycle,
    /// It makes a chain of more than 100 files, from the input with this proto path.
    TooLong(String),
}

/// A step of a load. Each `path` is a proto path.
#[derive(Debug, PartialEq, Eq, Drop)]
pub enum LoadStep {
    /// The file was read and parsed, and its imports are met next.
    Opened {
        asker: Asker,
        path: String,
    },
    /// What asks for the file isn't followed, and is as if it were absent.
    Told {
        asker: Asker,
        path: String,
        why: Unfollowed,
    },
    /// The imports of the file are met: how many files the longest chain from it has.
    Closed {
        path: String,
        height: usize,
    },
    /// The input with this number lies at a path of its own, and its proto path was loaded before:
    /// what it has was read as the read with this number.
    Held {
        input: usize,
        path: String,
        read: usize,
    },
}
