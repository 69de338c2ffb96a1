//! Full names in bodies that have one which is wanted.

ghost use Rattle.std.specs.Prelude.{◌≡◌, ◌++◌, flat_map, map, OnOk, IfOk, false};
ghost use Rattle.std.specs.List.{list_any};
ghost use Rattle.protobuf_parse_rules.specs.BodyViews.{body_view};
ghost use Rattle.protobuf_parse_rules.specs.Keys.{packages_at};
ghost use Rattle.protobuf_parse_rules.specs.KnownNames.{named_view};
ghost use Rattle.protobuf_parse_rules.specs.Names.{names_at};
ghost use Rattle.protobuf_parse_rules.specs.Wanted.{has_key, is_wanted, names_wanted};

use crate::bodies::Body;
use crate::key_set::KeySet;
use crate::name_keys::{add_keys, keys_of};
use crate::names::{Named, add_names, packages_in};
use std::alloc::{AllocError, Global};

/// What has a full name in those of the bodies that have a wanted one, in order.
pub fn wanted_names<'a>(
    alloc: Global,
    wanted: &KeySet,
    bodies: &[Body<'a>],
) -> Result<Vec<Named<'a>>, AllocError>
    ensures { IfOk result (λ v. map named_view v.items
        ≡ flat_map (names_wanted wanted.now.sorted.items) (map body_view bodies.now)) }
{
    let mut names = Vec::new(alloc);
    if wanted.sorted.is_empty() {
        return Ok(names);
    }
    let mut keys = Vec::new(alloc);
    'bodies: for body in bodies {
        add_wanted(alloc, &mut keys, &mut names, wanted, body)?;
    }
    Ok(names)
}

/// What has a full name in the body, if it has a wanted one.
fn add_wanted<'a>(
    alloc: Global,
    keys: &mut Vec<u64>,
    names: &mut Vec<Named<'a>>,
    wanted: &KeySet,
    body: &Body<'a>,
) -> Result<(), AllocError>
    ensures { OnOk result (map named_view names.new.items ≡ map named_view names.old.items
        ++ names_wanted wanted.now.sorted.items (body_view body.now)) }
{
    if has_wanted(alloc, keys, wanted, body)? {
        add_names(alloc, names, body)?;
    }
    Ok(())
}

/// Whether a full name in the body is wanted. The room for keys is used for one body after another.
fn has_wanted(
    alloc: Global,
    keys: &mut Vec<u64>,
    wanted: &KeySet,
    body: &Body<'_>,
) -> Result<bool, AllocError>
    ensures { IfOk result (λ has. has
        ≡ list_any (is_wanted wanted.now.sorted.items) (names_at (body_view body.now))) }
{
    keys.clear();
    add_keys(keys, body)?;
    if has_any(wanted, keys) {
        return Ok(true);
    }
    has_wanted_package(alloc, wanted, body)
}

/// Whether a package of the body is wanted.
fn has_wanted_package(alloc: Global, wanted: &KeySet, body: &Body<'_>) -> Result<bool, AllocError>
    ensures { IfOk result (λ has. has
        ≡ list_any (is_wanted wanted.now.sorted.items) (packages_at (body_view body.now))) }
{
    let packages = packages_in(alloc, body)?;
    let keys = keys_of(alloc, &packages)?;
    Ok(has_any(wanted, &keys))
}

/// Whether one of the keys is wanted.
#[tactic(auto, using(crate::proofs::Lists::one_passes))]
fn has_any(wanted: &KeySet, keys: &[u64]) -> bool
    ensures { result ≡ list_any (has_key wanted.now.sorted.items) keys.now }
{
    'keys: for key in keys {
        if wanted.has(*key) {
            return true;
        }
    }
    false
}
