//! What comments say of declarations.

use protobuf_parse_locations::FileLocations;
use std::alloc::AllocError;

/// What the comments of the declaration say: the one in front of it, or else the one behind its
/// head. Nothing, if there is none.
fn said_of<'a>(locations: &FileLocations<'a, 'static>, full_name: &str) -> &'a str {
    let Some(location) = locations.location(full_name) else {
        return "";
    };
    let comment = match (&location.leading_comments, &location.trailing_comments) {
        (Some(comment), _) | (None, Some(comment)) => comment,
        (None, None) => return "",
    };
    str::from_utf8(comment).unwrap_or("").trim()
}

/// Adds what is said of the declaration, as paragraphs.
pub fn put_said(
    text: &mut String,
    locations: &FileLocations<'_, 'static>,
    full_name: &str,
) -> Result<(), AllocError> {
    let said = said_of(locations, full_name);
    if said.is_empty() {
        return Ok(());
    }
    for line in said.split('\n') {
        text.push_str(line.trim())?;
        text.push('\n')?;
    }
    text.push('\n')
}

/// Adds the same to a cell of a table: on one line, with what ends a cell escaped.
pub fn put_said_in_cell(
    text: &mut String,
    locations: &FileLocations<'_, 'static>,
    full_name: &str,
) -> Result<(), AllocError> {
    let mut is_first = true;
    for line in said_of(locations, full_name).split('\n') {
        if !is_first {
            text.push(' ')?;
        }
        is_first = false;
        for c in line.trim().chars() {
            if c == '|' {
                text.push('\\')?;
            }
            text.push(c)?;
        }
    }
    Ok(())
}
