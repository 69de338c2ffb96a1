//! Includes: folders, and fronts of proto paths that lie elsewhere.

ghost use Rattle.std.specs.Prelude.{◌≡◌, ◌++◌, ◌∷◌, IfOk, IfSome, MatchOption, string_bytes};
ghost use Rattle.protobuf_parse_base.specs.Characters as char;
ghost use Rattle.protobuf_parse_base.specs.PathViews.{path_text};
ghost use Rattle.protobuf_parse.specs.Folders.{path_tried};
ghost use Rattle.protobuf_parse_command.specs.Finding.{IsPlaceIn, MapsTo};

use protobuf_parse::{ProtoPath, ProtoPathBuf};
use std::alloc::{AllocError, Global};
use std::fs;
use std::rt::Files;

/// What stands between the front of proto paths and where these lie, in an include that has one.
const MAPS_TO: char = '=';

/// The includes as they are read: one that has a `=` and is a file or a folder by its whole name is
/// that. The one error is that memory is short.
pub fn includes_of<R: Files>(
    rt: &R,
    alloc: Global,
    given: &[String],
) -> Result<Vec<String>, AllocError> {
    let mut includes = Vec::new(alloc);
    for include in given {
        includes.push(include_of(rt, alloc, include)?)?;
    }
    Ok(includes)
}

fn include_of<R: Files>(rt: &R, alloc: Global, given: &str) -> Result<String, AllocError> {
    let is_folder = match parts_of(given) {
        Some((_, disk)) => is_there(rt, given) && !is_there(rt, disk),
        None => false,
    };
    if is_folder {
        format!(in alloc; "{MAPS_TO}{given}")
    } else {
        String::from_str(alloc, given)
    }
}

fn is_there<R: Files>(rt: &R, path: &str) -> bool {
    matches!(fs::exists(rt, path), Ok(true))
}

/// The file or the folder of an include.
pub fn disk_of(include: &str) -> &str {
    match parts_of(include) {
        Some((_, disk)) => disk,
        None => include,
    }
}

/// Where the proto path is looked for in the include, if it is one of those that the include has.
/// The one error is that memory is short.
pub fn place_in(
    alloc: Global,
    include: &str,
    path: ProtoPath<'_>,
) -> Result<Option<String>, AllocError>
    ensures { IfOk result (λ found.
        IfSome found (λ place. IsPlaceIn include.now (path_text path.entry) (string_bytes place))) }
{
    match parts_of(include) {
        None => Ok(Some(joined(alloc, include, path.to_str())?)),
        Some((front, disk)) => mapped(alloc, front, disk, path.to_str()),
    }
}

/// The front of an include and where that lies, if it has one.
fn parts_of(include: &str) -> Option<(&str, &str)>
    ensures { MatchOption result (Unit {0}) (λ parts.
        include.now ≡ parts.0.now ++ char.equals ∷ parts.1.now) }
{
    include.split_once(MAPS_TO)
}

/// Where the path lies, if the front that lies there is one of it.
fn mapped(alloc: Global, front: &str, disk: &str, path: &str) -> Result<Option<String>, AllocError>
    ensures { IfOk result (λ found.
        IfSome found (λ place. MapsTo front.now disk.now path.now (string_bytes place))) }
{
    if front.is_empty() {
        return Ok(Some(joined(alloc, disk, path)?));
    }
    if path == front {
        return Ok(Some(String::from_str(alloc, disk)?));
    }
    match below(front, path) {
        Some(rest) => Ok(Some(joined(alloc, disk, rest)?)),
        None => Ok(None),
    }
}

/// What of the path follows the folder and a slash, if it begins with these.
fn below<'a>(folder: &str, path: &'a str) -> Option<&'a str>
    ensures { IfSome result (λ rest. path.now ≡ folder.now ++ char.slash ∷ rest.now) }
{
    let rest = path.strip_prefix(folder)?;
    rest.strip_prefix('/')
}

/// The path in the folder.
fn joined(alloc: Global, folder: &str, path: &str) -> Result<String, AllocError>
    ensures { IfOk result (λ s. string_bytes s ≡ path_tried folder.now path.now) }
{
    let mut file = String::from_str(alloc, folder)?;
    if !folder.is_empty() && !folder.as_bytes().ends_with(b"/") {
        file.push_str("/")?;
    }
    file.push_str(path)?;
    Ok(file)
}

/// The proto path of a file that lies where the include maps one, if it does. The one error is that
/// memory is short.
pub fn mapped_name(
    alloc: Global,
    include: &str,
    file: &str,
) -> Result<Option<ProtoPathBuf>, AllocError> {
    let Some((front, disk)) = parts_of(include) else {
        return Ok(None);
    };
    if file == disk {
        return Ok(ProtoPathBuf::new(String::from_str(alloc, front)?).ok());
    }
    let Some(rest) = below(disk, file) else {
        return Ok(None);
    };
    let name = if front.is_empty() {
        String::from_str(alloc, rest)?
    } else {
        format!(in alloc; "{front}/{rest}")?
    };
    Ok(ProtoPathBuf::new(name).ok())
}
