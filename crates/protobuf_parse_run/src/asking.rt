//! One read: who is asked, and what the answer says.

ghost use Rattle.std.specs.Prelude.{◌≡◌, ℕ, List, Some, None, Option, Result, IfOk, IfErr};
ghost use Rattle.std.specs.Prelude.{option_map};
ghost use Rattle.std.specs.Borrow.{Bor};
ghost use Rattle.protobuf_parse_base.specs.PathViews.{path_buf_text};
ghost use Rattle.protobuf_parse_syntax.specs.Parsing.{HasTree};
ghost use Rattle.protobuf_parse_syntax.specs.Trees.{FileSyntax, file_syntax};
ghost use Rattle.protobuf_parse_run.specs.Run.{Resolved, WasRead, StandsInLoad, origin_given};
ghost use Rattle.protobuf_parse_run.specs.Run.{row_of, rows, fault_said, text_given, IsTheTree};
ghost use Rattle.protobuf_parse_run.specs.Loading.{asked_by, legal_by, CanGive, IsUnreadable};
ghost use Rattle.protobuf_parse_run.specs.Run.{OrMemory};
ghost use Rattle.protobuf_parse_run.specs.Loading.{IsUnfound, IsUnresolved, IsParseFault};
ghost use Rattle.protobuf_parse_run.specs.Loading.{IsContentFault, IsNoText};

use crate::fault::{ReadInputFault, ResolveFault, RunFault};
use crate::log::{ReadEntry, ReadOutcome};
use crate::source::{InputReader, ProtoPathResolver, Sources};
use protobuf_parse_base::proto_path::ProtoPathBuf;
use protobuf_parse_syntax::{FileTree, ParserError, parse_file};
use std::alloc::{AllocError, Global};
use std::str;

/// The answer to a read of a proto path: the resolver's, or the reader's at a path of the input's
/// own.
pub fn answer<R: ProtoPathResolver, I: InputReader>(
    alloc: Global,
    sources: &Sources<'_, R, I>,
    path: &ProtoPathBuf,
    fs_path: Option<&str>,
) -> Result<ReadOutcome, AllocError>
    ensures { IfOk result
        (legal_by R.may_answer I.may_read sources.now (asked_by fs_path.entry)
        (path_buf_text path.now)) }
{
    match fs_path {
        None => resolved(alloc, sources.resolver, path),
        Some(fs_path) => read_own(alloc, sources.reader, fs_path),
    }
}

fn resolved<R: ProtoPathResolver>(
    alloc: Global,
    resolver: &R,
    path: &ProtoPathBuf,
) -> Result<ReadOutcome, AllocError>
    ensures { IfOk result (Resolved (R.may_answer resolver.now) (path_buf_text path.now)) }
{
    match resolver.resolve(alloc, path.as_path()) {
        Ok(Some(file)) => Ok(ReadOutcome::Content {
            origin: file.path,
            content: file.content,
        }),
        Ok(None) => Ok(ReadOutcome::NotFound),
        Err(ResolveFault::Memory) => Err(AllocError),
        Err(fault) => Ok(ReadOutcome::ResolverFault(fault)),
    }
}

/// The reader's answer at an input's own path: a content, whose origin is that path, or a fault of
/// the reader's. The one error is that memory is short.
pub fn read_own<I: InputReader>(
    alloc: Global,
    reader: &I,
    fs_path: &str,
) -> Result<ReadOutcome, AllocError>
    ensures { IfOk result (WasRead (I.may_read reader.now) fs_path.now) }
{
    match reader.read(alloc, fs_path) {
        Ok(content) => Ok(ReadOutcome::Content {
            origin: String::from_str(alloc, fs_path)?,
            content,
        }),
        Err(ReadInputFault::Memory) => Err(AllocError),
        Err(fault) => Ok(ReadOutcome::ReaderFault(fault)),
    }
}

/// The text of the first row with this path.
fn bundled_text<'a>(bundled: &[(&'a str, &'a str)], path: &str) -> Option<&'a str>
    ensures { option_map (λ (t : Bor (List ℕ)). t.now) result ≡ row_of path.now (rows bundled.now) }
{
    for (name, text) in bundled {
        if path == *name {
            return Some(*text);
        }
    }
    None
}

impl ReadEntry {
    /// The bytes of the file: the content that was answered, or the text of the first bundled file
    /// of this path where the resolver has none. `bundled` is the table that the run was given.
    pub fn content<'a>(&'a self, bundled: &[(&'a str, &'a str)]) -> Option<&'a [u8]>
        ensures { option_map (λ (b : Bor (List ℕ)). b.now) result
            ≡ text_given (rows bundled.now) (path_buf_text self.now.path) (Some self.now.outcome) }
    {
        match &self.outcome {
            ReadOutcome::Content { content, .. } => Some(content.as_slice()),
            ReadOutcome::NotFound => match bundled_text(bundled, self.path.as_path().to_str()) {
                Some(text) => Some(text.as_bytes()),
                None => None,
            },
            _ => None,
        }
    }

    /// What faults call the file: where it was found, or else its proto path.
    pub fn origin(&self) -> &str
        ensures { result.now ≡ origin_given (path_buf_text self.now.path) (Some self.now.outcome) }
    {
        match &self.outcome {
            ReadOutcome::Content { origin, .. } => origin.as_str(),
            _ => self.path.as_path().to_str(),
        }
    }
}

/// The tree of the file that a read gave, or why the read gives none.
pub fn tree_given<R: ProtoPathResolver, I>(
    alloc: Global,
    sources: &Sources<'_, R, I>,
    path: &str,
    fs_path: Option<&str>,
    outcome: &ReadOutcome,
) -> Result<FileTree, RunFault>
    requires { CanGive (asked_by fs_path) outcome.now }
    ensures tree { IfOk result
        (λ t. IsTheTree (text_given (rows sources.now.bundled.now) path.now (Some outcome.now))
        (Some (file_syntax t))) }
    ensures treeless { IfErr result
        (λ f. OrMemory f
        (IsTheTree (text_given (rows sources.now.bundled.now) path.now (Some outcome.now)) None)) }
    ensures stands { IfErr result
        (λ f. OrMemory f
        (StandsInLoad (asked_by fs_path.entry) path.now (Some outcome.now)
        (text_given (rows sources.now.bundled.now) path.now (Some outcome.now)) f)) }
{
    match outcome {
        ReadOutcome::Content { origin, content } => tree_of_bytes(alloc, path, origin, content),
        ReadOutcome::NotFound => match bundled_text(sources.bundled, path) {
            Some(text) => tree_of_bytes(alloc, path, path, text.as_bytes()),
            None => Err(not_found(alloc, path, sources.resolver)),
        },
        ReadOutcome::ResolverFault(fault) => Err(unresolved(alloc, path, fault)),
        ReadOutcome::ReaderFault(fault) => {
            Err(unreadable(alloc, fs_path.unwrap_or(path), *fault))
        }
    }
}

/// L4.
pub fn unreadable(alloc: Global, fs_path: &str, fault: ReadInputFault) -> RunFault
    ensures { OrMemory result (IsUnreadable fs_path.now fault result) }
{
    match String::from_str(alloc, fs_path) {
        Ok(fs_path) => RunFault::CouldNotReadFile(fs_path, fault),
        Err(_) => RunFault::Memory,
    }
}

/// L2.
fn not_found<R: ProtoPathResolver>(alloc: Global, path: &str, resolver: &R) -> RunFault
    ensures { OrMemory result (IsUnfound path.now result) }
{
    let Ok(path) = String::from_str(alloc, path) else {
        return RunFault::Memory;
    };
    match format!(in alloc; "{resolver}") {
        Ok(text) => RunFault::FileNotFoundInImportPath(path, text),
        Err(_) => RunFault::Memory,
    }
}

/// L5.
fn unresolved(alloc: Global, path: &str, fault: &ResolveFault) -> RunFault
    ensures { OrMemory result (IsUnresolved path.now fault.now result) }
{
    let Ok(path) = String::from_str(alloc, path) else {
        return RunFault::Memory;
    };
    match copy_of(alloc, fault) {
        Ok(fault) => RunFault::Resolver(path, fault),
        Err(_) => RunFault::Memory,
    }
}

fn copy_of(alloc: Global, fault: &ResolveFault) -> Result<ResolveFault, AllocError>
    ensures { IfOk result (λ copy. fault_said copy ≡ fault_said fault.now) }
{
    match fault {
        ResolveFault::Memory => Ok(ResolveFault::Memory),
        ResolveFault::CouldNotRead(path) => {
            Ok(ResolveFault::CouldNotRead(String::from_str(alloc, path)?))
        }
        ResolveFault::Refused(reason) => Ok(ResolveFault::Refused(String::from_str(
            alloc, reason,
        )?)),
    }
}

/// The tree of a content, or L1 with the path, or L9 with the origin.
fn tree_of_bytes(
    alloc: Global,
    path: &str,
    origin: &str,
    content: &[u8],
) -> Result<FileTree, RunFault>
    ensures tree { IfOk result (λ t. IsTheTree (Some content.now) (Some (file_syntax t))) }
    ensures treeless { IfErr result (λ f. OrMemory f (IsTheTree (Some content.now) None)) }
    ensures stands { IfErr result
        (λ f. OrMemory f (IsContentFault path.now origin.now content.now f)) }
{
    let Ok(text) = str::from_utf8(content) else {
        return Err(not_utf8(alloc, path));
    };
    tree_of_text(alloc, origin, text)
}

/// L1.
fn not_utf8(alloc: Global, path: &str) -> RunFault
    ensures { OrMemory result (IsNoText path.now result) }
{
    match String::from_str(alloc, path) {
        Ok(path) => RunFault::ContentIsNotUtf8(path),
        Err(_) => RunFault::Memory,
    }
}

/// The tree of a text, or L9 with the origin.
fn tree_of_text(alloc: Global, origin: &str, text: &str) -> Result<FileTree, RunFault>
    ensures tree { IfOk result (λ t. HasTree text.now (file_syntax t)) }
    ensures only { IfOk result (λ t. (u : FileSyntax) → HasTree text.now u → u ≡ file_syntax t) }
    ensures treeless { IfErr result (λ f. OrMemory f ((u : FileSyntax) → HasTree text.now u → ⊥)) }
    ensures stands { IfErr result (λ f. OrMemory f (IsParseFault origin.now text.now f)) }
{
    match parse_file(alloc, text) {
        Ok(tree) => Ok(tree),
        Err(error) => match error.error {
            ParserError::Memory => Err(RunFault::Memory),
            _ => Err(RunFault::Parse(String::from_str(alloc, origin)?, error)),
        },
    }
}
