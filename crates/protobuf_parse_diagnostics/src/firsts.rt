//! Which declaration was the first of a name.

use crate::outline::{Declared, DeclaredKind, Outline};
use protobuf_parse_syntax::Place;
use std::alloc::{AllocError, Global};
use std::collections::BTreeMap;

/// A declaration, and the first one that is of its kind and its name in its body.
#[derive(Clone, Copy)]
struct Repeated<'o, 'a> {
    declared: &'o Declared<'a>,
    first: &'o Declared<'a>,
}

/// The declarations of a file, each with the first one that is of its kind and its name in its
/// body.
#[derive(Drop)]
pub struct Firsts<'o, 'a> {
    /// By their lines and columns.
    by_place: BTreeMap<(u32, u32), Vec<Repeated<'o, 'a>>>,
}

impl<'o, 'a> Firsts<'o, 'a> {
    /// Those of an outline. The one error is that memory is short.
    pub fn of(alloc: Global, own: &'o Outline<'a>) -> Result<Self, AllocError> {
        let mut met: BTreeMap<(usize, DeclaredKind, &'o str), &'o Declared<'a>> = BTreeMap::new(
            alloc,
        );
        let mut by_place: BTreeMap<(u32, u32), Vec<Repeated<'o, 'a>>> = BTreeMap::new(alloc);
        for declared in &own.declared {
            let key = (declared.body, declared.kind, declared.name());
            let first = *met.entry(key)?.or_insert(declared);
            let Place { line, col } = declared.place;
            by_place
                .entry((line, col))?
                .or_insert(Vec::new(alloc))
                .push(Repeated { declared, first })?;
        }
        Ok(Firsts { by_place })
    }

    /// The first declaration that is of one kind with that of the name at the place, and stands in
    /// one body with it.
    pub fn of_name_at(&self, name: &str, place: Place) -> Option<&'o Declared<'a>> {
        let Place { line, col } = place;
        for each in self.by_place.get(&(line, col))? {
            if each.declared.name() == name {
                return Some(each.first);
            }
        }
        None
    }
}
