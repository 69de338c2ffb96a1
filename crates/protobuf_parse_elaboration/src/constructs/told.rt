//! Names that stand twice in a scope, each told at its place.

ghost use Rattle.std.specs.Prelude.{◌≡◌, ◌++◌, List, flat_map, length, map, not, IfOk};
ghost use Rattle.protobuf_parse_model.specs.Duplicates as spec;
ghost use Rattle.protobuf_parse_model.specs.Duplicates.{duplicates, fault_when};
ghost use Rattle.protobuf_parse_model.specs.Faults.{placed};
ghost use Rattle.protobuf_parse_model.specs.declared.error.ElabErrorKind.TheVariants.{DuplicateName};
ghost use Rattle.protobuf_parse_elaboration.specs.Declaring.{names_at};
ghost use Rattle.protobuf_parse_elaboration.specs.Telling.{Tells};

use crate::constructs::declared::{DeclaredAs, Declares, places_of};
use crate::constructs::names::Named;
use crate::constructs::unlike::are_unlike;
use protobuf_parse_lexer::Place;
use protobuf_parse_model::{ElabError, ElabErrorKind, tell};
use protobuf_parse_syntax::Syntax;
use std::alloc::{AllocError, Global};
use std::collections::BTreeSet;

/// A name that a statement declares, and the statement's place.
#[derive(Clone, Copy)]
pub struct NamedAt<'a> {
    pub place: Place,
    pub name: &'a str,
}

/// E1 at each of what the statements declare so whose name an earlier one has. The items are what
/// they became, in their order.
pub fn tell_names<S: Declares, T: Named>(
    alloc: Global,
    faults: &mut Vec<ElabError>,
    declared: DeclaredAs,
    syntax: Syntax,
    statements: &[S],
    items: &[T],
) -> Result<(), AllocError>
    requires named { map T.name_of items.now ≡ map (λ (d : spec.NamedAt). d.name)
        (flat_map (S.named_as declared syntax) statements.now) }
    ensures { Tells result faults.old faults.new
        (duplicates (flat_map (S.named_as declared syntax) statements.now)) }
{
    if are_unlike(alloc, items)? {
        return Ok(());
    }
    let places = places_of(alloc, declared, syntax, statements)?;
    tell_at(alloc, faults, items, &places)
}

/// E1 at each of the items whose name an earlier one has. These are their places, in their order.
pub fn tell_repeated<T: Named>(
    alloc: Global,
    faults: &mut Vec<ElabError>,
    items: &[T],
    places: &[Place],
) -> Result<(), AllocError>
    requires same { length places.now ≡ length items.now }
    ensures { (declared : List spec.NamedAt)
        → map T.name_of items.now ≡ map (λ (d : spec.NamedAt). d.name) declared
        → places.now ≡ map (λ (d : spec.NamedAt). d.place) declared
        → Tells result faults.old faults.new (duplicates declared) }
{
    if are_unlike(alloc, items)? {
        return Ok(());
    }
    tell_at(alloc, faults, items, places)
}

/// The same, name by name.
fn tell_at<T: Named>(
    alloc: Global,
    faults: &mut Vec<ElabError>,
    items: &[T],
    places: &[Place],
) -> Result<(), AllocError>
    requires same { length places.now ≡ length items.now }
    ensures { (declared : List spec.NamedAt)
        → map T.name_of items.now ≡ map (λ (d : spec.NamedAt). d.name) declared
        → places.now ≡ map (λ (d : spec.NamedAt). d.place) declared
        → Tells result faults.old faults.new (duplicates declared) }
{
    let names = at_places(alloc, items, places)?;
    tell_repeats(alloc, faults, &names)
}

/// The names of the items, at these places.
fn at_places<'a, T: Named>(
    alloc: Global,
    items: &'a [T],
    places: &[Place],
) -> Result<Vec<NamedAt<'a>>, AllocError>
    requires same { length places.now ≡ length items.now }
    ensures names { IfOk result (λ v. map (λ (d : spec.NamedAt). d.name) (names_at v.items)
        ≡ map T.name_of items.now) }
    ensures places { IfOk result (λ v. map (λ (d : spec.NamedAt). d.place) (names_at v.items)
        ≡ places.now) }
{
    let mut names = Vec::with_capacity(alloc, items.len())?;
    for i in 0..items.len() {
        names.push(NamedAt {
            place: places[i],
            name: items[i].name(),
        })?;
    }
    Ok(names)
}

/// E1 at each name that stands among those before it.
fn tell_repeats(
    alloc: Global,
    faults: &mut Vec<ElabError>,
    names: &[NamedAt<'_>],
) -> Result<(), AllocError>
    ensures { Tells result faults.old faults.new (duplicates (names_at names.now)) }
{
    let mut seen: BTreeSet<&str> = BTreeSet::new(alloc);
    for named in names {
        let is_new = seen.insert(named.name)?;
        tell_unless_new(alloc, faults, named, is_new)?;
    }
    Ok(())
}

/// E1 at that name, where it is not new.
fn tell_unless_new(
    alloc: Global,
    faults: &mut Vec<ElabError>,
    named: &NamedAt<'_>,
    is_new: bool,
) -> Result<(), AllocError>
    ensures { Tells result faults.old faults.new
        (placed named.now.place (fault_when (not is_new) DuplicateName named.now.name.now)) }
{
    if is_new {
        return Ok(());
    }
    tell(
        alloc,
        faults,
        named.place,
        ElabErrorKind::DuplicateName,
        named.name,
    )
}
