//! Calls of names and paths that take memory, each by its name.

use anyhow::{Result, bail};
use protobuf_parse::{
    ProtoPath, ProtobufAbsPath, ProtobufAbsPathRef, ProtobufIdent, ProtobufIdentRef,
    ProtobufRelPath, ProtobufRelPathRef,
};
use std::alloc::Global;

/// What a call gives: the words are the call, and what it is given. A path that begins with a dot
/// is absolute, any other relative.
pub fn called(alloc: Global, text: &str) -> Result<String> {
    let words = text.split_whitespace().collect::<Vec<_>>(alloc)?;
    match words.as_slice() {
        [call, ident] if call.ends_with("_identifier") => of_identifier(alloc, call, ident),
        ["own_path", path] => {
            let owned = ProtoPath::new(path)?.to_proto_path_buf(alloc)?;
            Ok(format!(in alloc; "{owned}")?)
        }
        [call, path] => match ProtobufAbsPathRef::try_new(path) {
            Some(absolute) => of_absolute(alloc, call, absolute),
            None => of_relative(alloc, call, relative(path)?),
        },
        [call, path, other] => joined(alloc, call, path, relative(other)?),
        _ => bail!("no call"),
    }
}

fn relative(text: &str) -> Result<ProtobufRelPathRef<'_>> {
    if !ProtobufRelPathRef::is_rel(text) {
        bail!("no relative path");
    }
    Ok(ProtobufRelPathRef::new(text))
}

fn of_identifier(alloc: Global, call: &str, ident: &str) -> Result<String> {
    if !ProtobufIdentRef::is_ident(ident) {
        bail!("no identifier");
    }
    let owned = match call {
        "own_identifier" => ProtobufIdentRef::new(ident).to_owned(alloc)?,
        "new_identifier" => ProtobufIdent::new(alloc, ident)?,
        _ => bail!("no such call"),
    };
    Ok(owned.into_string())
}

fn of_absolute(alloc: Global, call: &str, path: ProtobufAbsPathRef<'_>) -> Result<String> {
    match call {
        "to_owned" => shown(alloc, &path.to_owned(alloc)?),
        "new_path" => shown(alloc, &ProtobufAbsPath::new(alloc, path.as_str())?),
        "maybe_dot" if !path.is_root() => shown(
            alloc,
            &ProtobufAbsPath::from_path_maybe_dot(alloc, path.as_str())?,
        ),
        "to_root_rel" => Ok(format!(in alloc; "{}", path.to_owned(alloc)?.to_root_rel(alloc)?)?),
        "self_and_parents" => {
            let mut text = String::new(alloc);
            for front in path.self_and_parents(alloc)? {
                write!(text, "{front};")?;
            }
            Ok(text)
        }
        _ => bail!("no such call"),
    }
}

fn shown(alloc: Global, path: &ProtobufAbsPath) -> Result<String> {
    Ok(format!(in alloc; "{path}")?)
}

fn of_relative(alloc: Global, call: &str, path: ProtobufRelPathRef<'_>) -> Result<String> {
    match call {
        "to_absolute" => shown(alloc, &path.to_absolute(alloc)?),
        "into_absolute" => shown(alloc, &path.to_owned(alloc)?.into_absolute(alloc)?),
        "new_from_rel" => shown(alloc, &ProtobufAbsPath::new_from_rel(alloc, path.as_str())?),
        "package" => shown(
            alloc,
            &ProtobufAbsPath::package_from_file_proto(alloc, Some(path.as_str()))?,
        ),
        "without_dot" if !path.as_str().is_empty() => shown(
            alloc,
            &ProtobufAbsPath::from_path_without_dot(alloc, path.as_str())?,
        ),
        "maybe_dot" if !path.as_str().is_empty() => shown(
            alloc,
            &ProtobufAbsPath::from_path_maybe_dot(alloc, path.as_str())?,
        ),
        "self_and_parents" => {
            let mut text = String::new(alloc);
            for front in path.self_and_parents(alloc)? {
                write!(text, "{front};")?;
            }
            Ok(text)
        }
        _ => Ok(format!(in alloc; "{}", relative_of(alloc, call, path)?)?),
    }
}

/// The relative path that a call gives for one.
fn relative_of(alloc: Global, call: &str, path: ProtobufRelPathRef<'_>) -> Result<ProtobufRelPath> {
    match call {
        "to_owned" => Ok(path.to_owned(alloc)?),
        "new_path" => Ok(ProtobufRelPath::new(alloc, path.as_str())?),
        "from_components" => {
            let idents = path.components().collect::<Vec<_>>(alloc)?;
            Ok(ProtobufRelPath::from_components(alloc, &idents)?)
        }
        _ => bail!("no such call"),
    }
}

/// What a path and a relative one give together.
fn joined(alloc: Global, call: &str, path: &str, other: ProtobufRelPathRef<'_>) -> Result<String> {
    if let Some(absolute) = ProtobufAbsPathRef::try_new(path) {
        let owned = absolute.to_owned(alloc)?;
        return match call {
            "concat" => shown(alloc, &owned.concat(alloc, other)?),
            _ => bail!("no such call"),
        };
    }
    let path = relative(path)?;
    match call {
        "append" => Ok(format!(in alloc; "{}", path.append(alloc, other)?)?),
        "append_ident" if ProtobufIdentRef::is_ident(other.as_str()) => {
            let ident = ProtobufIdentRef::new(other.as_str());
            Ok(format!(in alloc; "{}", path.append_ident(alloc, ident)?)?)
        }
        _ => bail!("no such call"),
    }
}
