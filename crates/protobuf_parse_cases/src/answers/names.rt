//! Names, paths and spellings.

use protobuf_parse::{
    ProtoPath, ProtoPathBuf, ProtobufAbsPath, ProtobufAbsPathRef, ProtobufIdentRef,
    ProtobufRelPathRef,
};
use protobuf_parse_base::text::escape_bytes;
use std::alloc::{AllocError, Global};

fn yes_or_no(alloc: Global, is_so: bool) -> Result<String, AllocError> {
    String::from_str(alloc, if is_so { "yes" } else { "no" })
}

/// Whether the text is an identifier.
pub fn identifier(alloc: Global, text: &str) -> Result<String, AllocError> {
    yes_or_no(alloc, ProtobufIdentRef::is_ident(text))
}

/// The name in JSON of the field of that name.
pub fn json_name(alloc: Global, text: &str) -> Result<String, AllocError> {
    protobuf_parse_base::text::json_name(alloc, text)?.text(alloc)
}

/// Whether the text is a relative path.
pub fn relative(alloc: Global, text: &str) -> Result<String, AllocError> {
    yes_or_no(alloc, ProtobufRelPathRef::is_rel(text))
}

/// Whether the text is an absolute path, and whether the weak test takes it for one.
pub fn absolute(alloc: Global, text: &str) -> Result<String, AllocError> {
    let lent = ProtobufAbsPathRef::try_new(text).is_some();
    let owned = ProtobufAbsPath::try_new(alloc, text)?.is_some();
    let weak = ProtobufAbsPath::is_abs(text);
    match (lent, owned, weak) {
        (true, true, true) => String::from_str(alloc, "yes"),
        (false, false, false) => String::from_str(alloc, "no"),
        (false, false, true) => String::from_str(alloc, "no, but it begins as one"),
        _ => format!(in alloc; "lent {lent}, owned {owned}, weak {weak}"),
    }
}

/// `ok`, or why the text is no proto path.
pub fn path(alloc: Global, text: &str) -> Result<String, AllocError> {
    match ProtoPath::new(text) {
        Ok(_) => String::from_str(alloc, "ok"),
        Err(error) => format!(in alloc; "{error}"),
    }
}

/// The proto path of a path of the host, or why it has none.
pub fn host_path(alloc: Global, text: &str) -> Result<String, AllocError> {
    match ProtoPathBuf::from_path(alloc, text) {
        Ok(path) => format!(in alloc; "{path}"),
        Err(error) => format!(in alloc; "{error}"),
    }
}

/// The bytes as a string literal has them.
pub fn escape(alloc: Global, bytes: &[u8]) -> anyhow::Result<String> {
    Ok(escape_bytes(alloc, bytes)?)
}
