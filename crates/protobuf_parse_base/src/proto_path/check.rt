//! What is wrong with a text that is no proto path.
ghost use Rattle.std.specs.Prelude.{◌≡◌};
ghost use Rattle.std.specs.List.{list_any};
ghost use Rattle.protobuf_parse_base.specs.Paths.{has_backslash, is_dot_dot};
ghost use Rattle.protobuf_parse_base.specs.Paths.{first_fault, part_fault, path_fault, slash_parts};

use super::error::PathError;

/// Why the text is no proto path, if it is none.
pub(super) fn fault_of(text: &str) -> Option<PathError>
    ensures { result ≡ path_fault text.now }
{
    if text.is_empty() {
        Some(PathError::Empty)
    } else if holds_backslash(text) {
        Some(PathError::Backslashes)
    } else {
        fault_of_parts(text)
    }
}

/// Whether the text holds a backslash.
pub(super) fn holds_backslash(text: &str) -> bool
    ensures { result ≡ has_backslash text.now }
{
    text.as_bytes().contains(&b'\\')
}

/// What is wrong with the first part between slashes that has a fault.
fn fault_of_parts(text: &str) -> Option<PathError>
    ensures { result ≡ first_fault (slash_parts text.now) }
{
    for part in text.split('/') {
        let fault = fault_of_part(part);
        if fault.is_some() {
            return fault;
        }
    }
    None
}

/// What is wrong with one part between slashes.
fn fault_of_part(part: &str) -> Option<PathError>
    ensures { result ≡ part_fault part.now }
{
    if part.is_empty() {
        Some(PathError::EmptyComponent)
    } else if part == "." {
        Some(PathError::Dot)
    } else if part == ".." {
        Some(PathError::DotDot)
    } else {
        None
    }
}

/// Whether a part between slashes is `..`.
pub(super) fn leads_up(text: &str) -> bool
    ensures { result ≡ list_any is_dot_dot (slash_parts text.now) }
{
    text.split('/').any(|part| part == "..")
}
