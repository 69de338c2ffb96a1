//! Why a text is no path of a `.proto` file.

use protobuf_parse_base::proto_path::PathError;

/// The code of a fault of a path: P1 to P6. Want of memory has none.
pub fn path_code(fault: PathError) -> &'static str {
    match fault {
        PathError::Empty => "P1",
        PathError::Backslashes => "P2",
        PathError::EmptyComponent => "P3",
        PathError::Dot => "P4",
        PathError::DotDot => "P5",
        PathError::Absolute => "P6",
        PathError::Memory => "",
    }
}

/// What is wrong with a path.
pub fn path_sentence(fault: PathError) -> &'static str {
    match fault {
        PathError::Empty => "it is empty",
        PathError::Backslashes =>
            "it has a backslash, and parts of a path have slashes between them",
        PathError::EmptyComponent => "nothing stands before, between or behind its slashes",
        PathError::Dot => "a part of it is `.`",
        PathError::DotDot => "a part of it is `..`, and no path leads out of an include",
        PathError::Absolute => "it begins with a slash, and a path begins below an include",
        PathError::Memory => "memory is short",
    }
}
