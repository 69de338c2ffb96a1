//! What the files of a run tell of a name.

use crate::kinds::values_of_type;
use crate::meaning::known::{Found, Sight};
use crate::meaning::meaning_code;
use crate::meaning::near::{near_name, other_kind};
use crate::outline::{Declared, DeclaredKind};
use protobuf_parse_model::{ElabError, ElabErrorKind};
use protobuf_parse_syntax::{Place, Type};
use std::alloc::{AllocError, Global};
use std::collections::BTreeMap;

/// How many places a sentence names.
const MOST_SITES: usize = 10;

/// For how many names all that files declare is gone through: each takes time with all of it.
const MOST_SEARCHES: usize = 50;

/// What is told of names by themselves, each once made: many faults may speak of one name.
#[derive(Drop)]
pub struct Hints<'e> {
    /// What a file tells of a name, by the file's position, the code of the fault and the name.
    told: BTreeMap<(usize, &'static str, &'e str), Option<String>>,
    /// What fields of a name take, whatever file asks.
    taken: BTreeMap<&'e str, Option<String>>,
    /// For how many names all that files declare was gone through.
    searches: usize,
}

impl<'e> Hints<'e> {
    /// None yet.
    pub fn new(alloc: Global) -> Self {
        Hints {
            told: BTreeMap::new(alloc),
            taken: BTreeMap::new(alloc),
            searches: 0,
        }
    }

    /// What would help with the fault, from where its file stands: where the name is declared, what
    /// else has it, which other one may be meant, or what it takes. The one error is that memory is
    /// short.
    pub fn hint(
        &mut self,
        alloc: Global,
        sight: &Sight<'_, '_, '_, '_>,
        error: &'e ElabError,
    ) -> Result<Option<String>, AllocError> {
        match error.kind {
            ElabErrorKind::NotFoundByAbsPath
            | ElabErrorKind::NotFoundByRelPath
            | ElabErrorKind::ExtensionNotFound => self.declaration_hint(alloc, sight, error),
            ElabErrorKind::UnsupportedExtensionType | ElabErrorKind::IntegerOutOfRange => {
                self.values_hint(alloc, sight, error.what.as_str())
            }
            _ => Ok(None),
        }
    }

    fn declaration_hint(
        &mut self,
        alloc: Global,
        sight: &Sight<'_, '_, '_, '_>,
        error: &'e ElabError,
    ) -> Result<Option<String>, AllocError> {
        let key = (sight.at, meaning_code(error.kind), error.what.as_str());
        if let Some(told) = self.told.get(&key) {
            return copied(alloc, told);
        }
        let mut hint = where_declared(alloc, sight, error)?;
        if hint.is_none() {
            hint = self.meant(alloc, sight, error)?;
        }
        self.told.insert(key, copied(alloc, &hint)?)?;
        Ok(hint)
    }

    /// What else has the name, or which other name may be meant.
    fn meant(
        &mut self,
        alloc: Global,
        sight: &Sight<'_, '_, '_, '_>,
        error: &ElabError,
    ) -> Result<Option<String>, AllocError> {
        let other = other_kind(alloc, sight, error)?;
        if other.is_some() || self.searches >= MOST_SEARCHES {
            return Ok(other);
        }
        self.searches += 1;
        near_name(alloc, sight, error)
    }

    fn values_hint(
        &mut self,
        alloc: Global,
        sight: &Sight<'_, '_, '_, '_>,
        name: &'e str,
    ) -> Result<Option<String>, AllocError> {
        if let Some(taken) = self.taken.get(name) {
            return copied(alloc, taken);
        }
        let hint = type_hint(alloc, sight, name)?;
        self.taken.insert(name, copied(alloc, &hint)?)?;
        Ok(hint)
    }
}

fn copied(alloc: Global, text: &Option<String>) -> Result<Option<String>, AllocError> {
    match text {
        Some(text) => Ok(Some(String::from_str(alloc, text)?)),
        None => Ok(None),
    }
}

/// Which file declares a type, or for E14 an extension, whose full name is that of the fault or
/// ends in it after a dot, and whether it is imported. One of a file that is not seen comes first.
fn where_declared(
    alloc: Global,
    sight: &Sight<'_, '_, '_, '_>,
    error: &ElabError,
) -> Result<Option<String>, AllocError> {
    let what = error.what.as_str();
    let Some(all) = sight.known.of_last_part(what) else {
        return Ok(None);
    };
    let mut visible = None;
    for found in all {
        if is_of_kind(found.declared, error.kind) && ends_in(&found.declared.full, what) {
            if !sight.sees(found.file) {
                return hint_of(alloc, sight, *found);
            }
            visible = visible.or(Some(*found));
        }
    }
    match visible {
        Some(found) => hint_of(alloc, sight, found),
        None => Ok(None),
    }
}

fn hint_of(
    alloc: Global,
    sight: &Sight<'_, '_, '_, '_>,
    found: Found<'_, '_>,
) -> Result<Option<String>, AllocError> {
    let Some(file) = sight.known.files.get(found.file) else {
        return Ok(None);
    };
    let full = found.declared.full.trim_start_matches('.');
    if sight.sees(found.file) {
        let Place { line, col } = found.declared.place;
        let origin = file.source.origin;
        Ok(Some(format!(in alloc; "`{full}` stands at {origin}:{line}:{col}")?))
    } else {
        let path = file.source.path;
        Ok(Some(format!(in alloc; "\"{path}\" declares `{full}`, and is not imported")?))
    }
}

/// Whether the full name is the text, or ends in it after a dot.
pub fn ends_in(full: &str, text: &str) -> bool {
    match full.strip_suffix(text) {
        Some(front) => text.starts_with('.') && front.is_empty() || front.ends_with('.'),
        None => false,
    }
}

/// Which constants the field of that name takes, where those of that name are of one type.
fn type_hint(
    alloc: Global,
    sight: &Sight<'_, '_, '_, '_>,
    name: &str,
) -> Result<Option<String>, AllocError> {
    let Some(all) = sight.known.of_last_part(name) else {
        return Ok(None);
    };
    let mut hint: Option<String> = None;
    for found in all {
        if let Some(type_) = found.declared.type_ {
            let values = takes(alloc, type_)?;
            match &hint {
                Some(other) if other.as_str() != values.as_str() => return Ok(None),
                _ => hint = Some(values),
            }
        }
    }
    Ok(hint)
}

fn takes(alloc: Global, type_: &Type) -> Result<String, AllocError> {
    let values = values_of_type(alloc, type_)?;
    format!(in alloc; "it takes {values}")
}

/// Where the full name that the fault speaks of is declared in the files that the file reaches, but
/// for the place at which the fault is told.
pub fn declared_twice(
    alloc: Global,
    sight: &Sight<'_, '_, '_, '_>,
    error: &ElabError,
) -> Result<Option<String>, AllocError> {
    let Some(all) = sight.known.of_last_part(&error.what) else {
        return Ok(None);
    };
    let mut text = String::new(alloc);
    let mut is_told_here = false;
    let mut sites: usize = 0;
    for found in &sight.reached_of(alloc, all)? {
        let Found { declared, file } = *found;
        if !is_spoken_of(declared, error) {
            continue;
        }
        if file == sight.at && declared.place == error.place {
            is_told_here = true;
        } else if let Some(known) = sight.known.files.get(file) {
            if sites < MOST_SITES {
                push_site(&mut text, known.source.origin, declared.place)?;
            }
            sites = sites.saturating_add(1);
        }
    }
    if text.is_empty() {
        return Ok(None);
    }
    let more = sites.saturating_sub(MOST_SITES);
    if more > 0 {
        write!(text, " and {more} more")?;
    }
    if is_told_here {
        text.push_str(" too")?;
    }
    Ok(Some(text))
}

/// Whether it declares what such a fault speaks of: an extension, or else a type.
pub fn is_of_kind(declared: &Declared<'_>, kind: ElabErrorKind) -> bool {
    match kind {
        ElabErrorKind::ExtensionDeclaredTwice | ElabErrorKind::ExtensionNotFound => {
            declared.kind == DeclaredKind::Extension
        }
        _ => declared.is_type(),
    }
}

/// Whether it is a declaration of the full name that E5 or E6 speaks of.
fn is_spoken_of(declared: &Declared<'_>, error: &ElabError) -> bool {
    is_of_kind(declared, error.kind) && declared.full == error.what
}

/// Adds to a text of places that it stands there too, in that file.
pub fn push_site(text: &mut String, origin: &str, place: Place) -> Result<(), AllocError> {
    text.push_str(if text.is_empty() {
        "it stands at "
    } else {
        " and at "
    })?;
    let Place { line, col } = place;
    write!(text, "{origin}:{line}:{col}")
}
