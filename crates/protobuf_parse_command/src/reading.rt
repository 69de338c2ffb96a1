//! The files of a command line, and what they import: by checks, and one at a time.

ghost use Rattle.std.specs.Prelude.{Some, map, string_bytes};
ghost use Rattle.protobuf_parse_command.specs.Finding.{IsOfSets, IsTriedIn, MayFindBeside};

use crate::arguments::Arguments;
use crate::includes::place_in;
use crate::set_texts::SetTexts;
use protobuf_parse::search::{LooksInIncludes, first_found};
use protobuf_parse::{
    CheckLog, InputReader, ProtoPath, ProtoPathResolver, ReadInputFault, ResolveFault,
    ResolvedProtoFile, RunInput, check_inputs, fs_resolver, google_files,
};
use protobuf_parse_diagnostics::{Reason, Reasons};
use protobuf_parse_files::{FileRead, KeptFiles};
use protobuf_parse_run::{InputRead, read_input};
use std::alloc::{AllocError, Global};
use std::fmt;
use std::io::ErrorKind;
use std::rt::Files;

/// Where standard input is read.
const STANDARD_INPUT: &str = "/dev/stdin";

/// The most bytes that a text may have.
const MOST_BYTES: usize = 2147483647;

/// What is asked for files: folders, then descriptor sets, and the files of the host by their paths.
/// Each path is opened and read once, whatever is asked.
///
/// An include in which a folder stands in place of the file, or a file in place of a folder, has no
/// such file, and the next include is asked.
#[derive(Drop)]
pub struct Folders<'r, 's, R> {
    includes: Vec<String>,
    sets: SetTexts<'s>,
    /// The path by which standard input is asked for.
    stdin_path: Option<String>,
    /// As faults list the includes and the sets.
    listed: String,
    files: KeptFiles<'r, R>,
}

impl<'r, 's, R: Files + AllocGlobal> Folders<'r, 's, R> {
    /// Nothing is read yet. The one error is that memory is short.
    pub fn of(
        rt: &'r R,
        alloc: Global,
        arguments: &Arguments,
        sets: SetTexts<'s>,
    ) -> Result<Self, AllocError> {
        let mut names: Vec<&str> = Vec::new(alloc);
        let mut copies = Vec::new(alloc);
        for include in &arguments.includes {
            names.push(include.as_str())?;
            copies.push(include.clone()?)?;
        }
        let resolver = fs_resolver(rt, alloc, &names)?;
        let listed = if arguments.sets.is_empty() {
            format!(in alloc; "{resolver}")?
        } else {
            format!(in alloc; "{resolver} and in {:?}", arguments.sets)?
        };
        Ok(Folders {
            includes: copies,
            sets,
            stdin_path: match &arguments.stdin_path {
                Some(path) => Some(path.clone()?),
                None => None,
            },
            listed,
            files: KeptFiles::new(rt, alloc, MOST_BYTES),
        })
    }

    /// The sets that are asked for files.
    pub fn sets(&self) -> &SetTexts<'s> {
        &self.sets
    }

    /// The check of these inputs.
    pub fn check(&self, alloc: Global, inputs: &[RunInput]) -> CheckLog {
        check_inputs(alloc, inputs, &*self, &*self, google_files())
    }

    /// The file of the host that has the content: standard input, where the path is that which it
    /// was given.
    fn host_path<'a>(&self, path: &str, file: &'a str) -> &'a str {
        match &self.stdin_path {
            Some(stdin_path) if stdin_path.as_str() == path => STANDARD_INPUT,
            _ => file,
        }
    }

    /// Reads an input: by the resolver, or at its own path. The one error is that memory is short.
    pub fn read(&self, alloc: Global, input: &RunInput) -> Result<InputRead, AllocError> {
        read_input(alloc, input, &*self, &*self, google_files())
    }
}

impl<'r, 's, R: Files + AllocGlobal> Reasons for Folders<'r, 's, R> {
    /// In the system's words; of a file that was left since it is longer than a text may be, that.
    fn reason(&self, alloc: Global, path: &str) -> Result<Option<Reason>, AllocError> {
        let file = self.host_path(path, path);
        if self.files.is_too_long(file) {
            return Ok(Some(Reason::TooLong));
        }
        match self.files.reason(file) {
            Some(error) => Ok(Some(Reason::Because(format!(in alloc; "{error}")?))),
            None => Ok(None),
        }
    }
}

impl<'r, 's, R> fmt::Display for Folders<'r, 's, R> {
    ghost output = { λ f. Some (string_bytes f.listed) };

    fn fmt<W: fmt::Write>(&self, f: &mut fmt::Formatter<W>) -> fmt::Result {
        f.write_str(self.listed.as_str())
    }
}

impl<'r, 's, R: Files + AllocGlobal> ProtoPathResolver for Folders<'r, 's, R> {
    ghost may_answer = { λ f path answer.
        MayFindBeside (map string_bytes f.includes.items) path answer };

    fn resolve(
        &self,
        alloc: Global,
        path: ProtoPath<'_>,
    ) -> Result<Option<ResolvedProtoFile>, ResolveFault> {
        match first_found(self, alloc, &self.includes, path) {
            Ok(None) => found_in_sets(alloc, &self.sets, path.to_str()),
            Ok(Some(file)) => Ok(Some(file)),
            Err(fault) => Err(fault),
        }
    }
}

/// The file of this path in the sets, if one has it.
fn found_in_sets(
    alloc: Global,
    sets: &SetTexts<'_>,
    path: &str,
) -> Result<Option<ResolvedProtoFile>, ResolveFault>
    ensures { IsOfSets path.now result }
{
    match sets.resolved(alloc, path) {
        Ok(found) => Ok(found),
        Err(_) => Err(ResolveFault::Memory),
    }
}

impl<'r, 's, R: Files + AllocGlobal> LooksInIncludes for Folders<'r, 's, R> {
    ghost may_find = { λ _ include path answer. IsTriedIn include path answer };

    fn look_in(
        &self,
        alloc: Global,
        include: &str,
        path: ProtoPath<'_>,
    ) -> Result<Option<ResolvedProtoFile>, ResolveFault> {
        let file = match place_in(alloc, include, path) {
            Ok(Some(file)) => file,
            Ok(None) => return Ok(None),
            Err(_) => return Err(ResolveFault::Memory),
        };
        match self.files.read(alloc, self.host_path(path.to_str(), &file)) {
            Ok(FileRead::Content(content)) => Ok(Some(ResolvedProtoFile {
                path: file,
                content,
            })),
            Ok(FileRead::Failed(error)) if is_no_file(error.kind()) => Ok(None),
            Ok(FileRead::Failed(_) | FileRead::TooLong) => Err(ResolveFault::CouldNotRead(file)),
            Err(_) => Err(ResolveFault::Memory),
        }
    }
}

impl<'r, 's, R: Files + AllocGlobal> InputReader for Folders<'r, 's, R> {
    ghost may_read = { λ _ _ _. Unit {0} };

    fn read(&self, alloc: Global, path: &str) -> Result<Vec<u8>, ReadInputFault> {
        match self.files.read(alloc, self.host_path(path, path)) {
            Ok(FileRead::Content(content)) => Ok(content),
            Ok(FileRead::Failed(error)) if error.kind() == ErrorKind::NotFound => {
                Err(ReadInputFault::NotFound)
            }
            Ok(FileRead::Failed(_) | FileRead::TooLong) => Err(ReadInputFault::Failed),
            Err(_) => Err(ReadInputFault::Memory),
        }
    }
}

/// Whether a call that failed so says that no file has its path: nothing does, or a folder, or a
/// file stands where a folder should.
fn is_no_file(kind: ErrorKind) -> bool {
    matches!(
        kind,
        ErrorKind::NotFound | ErrorKind::NotADirectory | ErrorKind::IsADirectory
    )
}
