//! Many small files in a wide graph of imports, made in memory when they are asked for.

use anyhow::{Result, anyhow};
use protobuf_parse::{
    InputReader, ProtoPath, ProtoPathBuf, ProtoPathResolver, ReadInputFault, ResolveFault,
    ResolvedProtoFile, RunInput, RunLog, run_inputs,
};
use std::alloc::{AllocError, Global};
use std::fmt;

/// How many files a file imports, if so many stand far enough before it.
const IMPORTS: u64 = 5;

/// Files with the numbers below `files`. Each imports some that stand about a quarter of all before
/// it, and uses their types.
#[derive(Clone, Copy)]
struct Graph {
    files: u64,
}

impl Graph {
    /// A message with a field of the type of each imported file's message.
    fn text_of(&self, alloc: Global, number: u64) -> Result<String, AllocError> {
        let mut imports = String::new(alloc);
        let mut fields = String::new(alloc);
        for import in 0..IMPORTS {
            if let Some(before) = number.checked_sub(self.files / 4 + 1 + 7 * import) {
                let position = import + 2;
                imports.push_str(&format!(in alloc; "import '{before}';\n")?)?;
                fields.push_str(&format!(in alloc;
                    " optional M{before} m{before} = {position};"
                )?)?;
            }
        }
        format!(in alloc; "{imports}message M{number} {{ optional int32 a = 1;{fields} }}\n")
    }

    fn file(&self, alloc: Global, number: u64) -> Result<ResolvedProtoFile, AllocError> {
        Ok(ResolvedProtoFile {
            path: format!(in alloc; "{number}")?,
            content: self.text_of(alloc, number)?.into_bytes(),
        })
    }
}

impl fmt::Display for Graph {
    fn fmt<W: fmt::Write>(&self, f: &mut fmt::Formatter<W>) -> fmt::Result {
        f.write_str("Graph")
    }
}

impl ProtoPathResolver for Graph {
    ghost may_answer = { λ _ _ _. Unit {0} };

    fn resolve(
        &self,
        alloc: Global,
        path: ProtoPath<'_>,
    ) -> Result<Option<ResolvedProtoFile>, ResolveFault> {
        match path.to_str().parse::<u64>() {
            Ok(number) if number < self.files => match self.file(alloc, number) {
                Ok(file) => Ok(Some(file)),
                Err(_) => Err(ResolveFault::Memory),
            },
            _ => Ok(None),
        }
    }
}

impl InputReader for Graph {
    ghost may_read = { λ _ _ _. Unit {0} };

    fn read(&self, _alloc: Global, _path: &str) -> Result<Vec<u8>, ReadInputFault> {
        Err(ReadInputFault::NotFound)
    }
}

/// All the files as inputs, the last first.
fn inputs(alloc: Global, files: u64) -> Result<Vec<RunInput>> {
    let mut inputs = Vec::new(alloc);
    for before in 0..files {
        let name = format!(in alloc; "{}", files - 1 - before)?;
        match ProtoPathBuf::new(name) {
            Ok(path) => inputs.push(RunInput::Named(path))?,
            Err(error) => return Err(anyhow!("{error}")),
        }
    }
    Ok(inputs)
}

/// Loads so many files, and tells how many descriptors there are and how often a file was met.
pub fn load(alloc: Global, files: u64) -> Result<(usize, u128)> {
    let graph = Graph { files };
    let RunLog { meets, result, .. } = run_inputs(
        alloc,
        &inputs(alloc, files)?,
        &graph,
        &graph,
        &[],
    );
    match result {
        Ok(descriptors) => Ok((descriptors.len(), meets)),
        Err(fault) => Err(anyhow!("{fault}")),
    }
}
