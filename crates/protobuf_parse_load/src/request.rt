//! Requests for files: by inputs, and by import statements.

ghost use Rattle.std.specs.Prelude.{◌≡◌, IfOk};
ghost use Rattle.protobuf_parse_run.specs.Run.{MayAnswer, rows};
ghost use Rattle.protobuf_parse_load.specs.Loads.{asker_view};
ghost use Rattle.protobuf_parse_load.specs.Requests.{IsReadFor, asker_in, asked_in, legal_by};
ghost use Rattle.protobuf_parse_load.specs.Requests.{path_in};

use crate::step::Asker;
use protobuf_parse_run::{InputRead, InputReader, ProtoPathResolver, RunInput, read_input};
use protobuf_parse_syntax::Import;
use std::alloc::{AllocError, Global};

/// All that a load asks.
#[derive(Drop)]
pub struct Sources<'a, R, I> {
    pub resolver: &'a R,
    pub reader: &'a I,
    /// Proto paths and texts, which stand for what the resolver has no file for.
    pub bundled: &'a [(&'a str, &'a str)],
}

/// What asks for a file.
#[derive(Clone, Copy)]
pub enum Request<'a> {
    /// The input with this number.
    Input(usize, &'a RunInput),
    /// An import statement of the file with this proto path.
    Import(&'a str, &'a Import),
}

/// The proto path that is asked for.
pub fn path_of<'a>(request: &Request<'a>) -> &'a str
    ensures { result.now ≡ path_in request.now }
{
    match request {
        Request::Input(_, RunInput::Named(name)) => name.as_path().to_str(),
        Request::Input(_, RunInput::At { name, .. }) => name.as_path().to_str(),
        Request::Import(_, import) => import.path.as_path().to_str(),
    }
}

/// Who asks for it.
pub fn asker_of(alloc: Global, request: &Request<'_>) -> Result<Asker, AllocError>
    ensures { IfOk result (λ by. asker_view by ≡ asker_in request.now) }
{
    match request {
        Request::Input(number, _) => Ok(Asker::Input(*number)),
        Request::Import(file, import) => Ok(Asker::Import {
            file: String::from_str(alloc, file)?,
            place: import.place,
        }),
    }
}

/// Reads and parses the file.
pub fn read_for<R: ProtoPathResolver, I: InputReader>(
    alloc: Global,
    sources: &Sources<'_, R, I>,
    request: &Request<'_>,
) -> Result<InputRead, AllocError>
    ensures { IfOk result (IsReadFor (legal_by R.may_answer I.may_read sources.now)
        (rows sources.now.bundled.now) (asked_in request.now) (path_in request.now)) }
{
    let resolver = sources.resolver;
    let reader = sources.reader;
    let bundled = sources.bundled;
    match request {
        Request::Input(_, input) => read_input(alloc, input, resolver, reader, bundled),
        Request::Import(_, import) => {
            let name = import.path.as_path().to_proto_path_buf(alloc)?;
            read_input(alloc, &RunInput::Named(name), resolver, reader, bundled)
        }
    }
}
