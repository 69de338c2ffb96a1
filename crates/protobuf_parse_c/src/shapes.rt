//! What crosses between C and the library.

/// Bytes that C has.
#[repr(C)]
#[derive(Clone, Copy)]
pub struct PbText<'a> {
    pub bytes: &'a [u8],
}

/// A file that C has: its proto path and its content.
#[repr(C)]
#[derive(Clone, Copy)]
pub struct PbFile<'a> {
    pub path: &'a [u8],
    pub content: &'a [u8],
}

/// A text in the room for texts.
#[repr(C)]
#[derive(Clone, Copy)]
pub struct PbSpan {
    pub at: usize,
    pub len: usize,
}

/// A fault. Its texts stand in the room for texts.
#[repr(C)]
#[derive(Clone, Copy)]
pub struct PbFault {
    pub file: PbSpan,
    /// Both from 1, the column in characters; both 0 where no place is known.
    pub line: u32,
    pub column: u32,
    /// 1 of an error, and 2 of a warning.
    pub severity: u32,
    /// What a list of codes has it under; the numbers stay.
    pub code: PbSpan,
    pub message: PbSpan,
    /// What would help; empty where that can't be told.
    pub help: PbSpan,
}

/// How much of each room is used, or wanted.
#[repr(C)]
#[derive(Clone, Copy)]
pub struct PbSizes {
    /// In bytes.
    pub set: usize,
    /// In bytes.
    pub texts: usize,
    /// Faults, or imports.
    pub faults: usize,
}
