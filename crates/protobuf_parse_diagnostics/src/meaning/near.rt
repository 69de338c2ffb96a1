//! What stands under a name that means nothing, or is spelled nearly so.

use crate::meaning::hints::{ends_in, is_of_kind};
use crate::meaning::known::Sight;
use crate::outline::{Declared, DeclaredKind};
use protobuf_parse_model::{ElabError, ElabErrorKind};
use std::alloc::{AllocError, Global};
use strsim::osa_distance;

/// What has the name of a type or of an extension that is not declared, and is something else: a
/// declaration that the file sees whose full name is that name, or ends in it after a dot.
pub fn other_kind(
    alloc: Global,
    sight: &Sight<'_, '_, '_, '_>,
    error: &ElabError,
) -> Result<Option<String>, AllocError> {
    let what = error.what.as_str();
    let Some(all) = sight.known.of_last_part(what) else {
        return Ok(None);
    };
    for found in all {
        let declared = found.declared;
        let is_other = !is_of_kind(declared, error.kind) && sight.sees(found.file);
        if is_other && ends_in(&declared.full, what) {
            let full = declared.full.trim_start_matches('.');
            let kind = word_of(declared.kind);
            let wanted = wanted_by(error.kind);
            return Ok(Some(format!(in alloc; "`{full}` is {kind}, and no {wanted}")?));
        }
    }
    Ok(None)
}

fn word_of(kind: DeclaredKind) -> &'static str {
    match kind {
        DeclaredKind::Message => "a message",
        DeclaredKind::Enum => "an enum",
        DeclaredKind::EnumValue => "a value of an enum",
        DeclaredKind::Field => "a field",
        DeclaredKind::Extension => "an extension",
        DeclaredKind::Oneof => "a oneof",
        DeclaredKind::Service => "a service",
        DeclaredKind::Method => "a method",
    }
}

fn wanted_by(kind: ElabErrorKind) -> &'static str {
    match kind {
        ElabErrorKind::ExtensionNotFound => "extension",
        _ => "type",
    }
}

/// The full name that may be meant by the name of a type or of an extension that is not declared:
/// one that the file sees and whose last part is spelled nearly as that of the name.
pub fn near_name(
    alloc: Global,
    sight: &Sight<'_, '_, '_, '_>,
    error: &ElabError,
) -> Result<Option<String>, AllocError> {
    let what = last_part(&error.what);
    let mut nearest = Nearest {
        what,
        edits: edits_allowed(what),
        found: None,
    };
    for (file, each) in sight.known.files.iter().enumerate() {
        if sight.sees(file) {
            for declared in &each.outline.declared {
                if is_of_kind(declared, error.kind) {
                    nearest.meet(alloc, declared)?;
                }
            }
        }
    }
    match nearest.found {
        Some(declared) => {
            let full = declared.full.trim_start_matches('.');
            Ok(Some(format!(in alloc; "did you mean `{full}`?")?))
        }
        None => Ok(None),
    }
}

fn last_part(name: &str) -> &str {
    match name.rsplit_once('.') {
        Some((_, last)) => last,
        None => name,
    }
}

/// How many edits may lead from a name to another one that is meant by it, and one more: a character
/// put in, left out or changed, or two beside one another put in the other order.
fn edits_allowed(name: &str) -> usize {
    match name.len() {
        0..=2 => 0,
        3..=5 => 2,
        6..=100 => 3,
        _ => 0,
    }
}

/// The declaration that is the nearest of those that were met.
#[derive(Drop)]
struct Nearest<'w, 'd, 't> {
    what: &'w str,
    /// Less than so many edits lead to one that is nearer.
    edits: usize,
    found: Option<&'d Declared<'t>>,
}

impl<'w, 'd, 't> Nearest<'w, 'd, 't> {
    fn meet(&mut self, alloc: Global, declared: &'d Declared<'t>) -> Result<(), AllocError> {
        let name = declared.name();
        if name.len().abs_diff(self.what.len()) < self.edits {
            let edits = osa_distance(alloc, self.what, name)?;
            if edits < self.edits {
                self.edits = edits;
                self.found = Some(declared);
            }
        }
        Ok(())
    }
}
