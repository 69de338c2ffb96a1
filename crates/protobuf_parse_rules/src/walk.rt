//! All files, body by body.

ghost use Rattle.std.specs.Prelude.{◌≡◌, ◌++◌, [], ◌∷◌, ℕ, List, map, flat_map, OnOk, IfOk};
ghost use Rattle.protobuf_parse_model.specs.Descriptors.{enum_view, field_view, file_view};
ghost use Rattle.protobuf_parse_rules.specs.Alike.{fields_alike};
ghost use Rattle.protobuf_parse_rules.specs.Enums.{enum_breaches};
ghost use Rattle.protobuf_parse_rules.specs.JsonNames.{json_names_in_use};
ghost use Rattle.protobuf_parse_rules.specs.KnownNames.{named_view};
ghost use Rattle.protobuf_parse_rules.specs.KnownTables.{Knows};
ghost use Rattle.protobuf_parse_rules.specs.Methods.{methods_breaches};
ghost use Rattle.protobuf_parse_rules.specs.Names.{name_claim, name_rule, names_in_use};
ghost use Rattle.protobuf_parse_rules.specs.Nesting.{deep_messages};
ghost use Rattle.protobuf_parse_rules.specs.Bodies.{BodyParts};
ghost use Rattle.protobuf_parse_rules.specs.BodyViews.{body_view, content_view};
ghost use Rattle.protobuf_parse_rules.specs.Bodies.{imports_of, reserved_names};
ghost use Rattle.protobuf_parse_rules.specs.Repeats.{repeats};
ghost use Rattle.protobuf_parse_rules.specs.Rules.{breaches_at, breaches_told};
ghost use Rattle.protobuf_parse_rules.specs.Runtimes.{runtime_breaches, runtimes_among};
ghost use Rattle.protobuf_parse_rules.specs.Violations.{breaches, breaches_after};
ghost use Rattle.protobuf_parse_rules.specs.Claims.{conflicts};
ghost use Rattle.protobuf_parse_rules.specs.ClaimsKept.{Checks, breaches_wanted};
ghost use Rattle.protobuf_parse_rules.specs.Wanted.{has_key, lite_keys};
ghost use Rattle.protobuf_parse_rules.specs.Violations.{breaches_among, breaches_inside};
ghost use Rattle.protobuf_parse_rules.specs.Violations.{breaches_in_rest, own_breaches, own_rules};
ghost use Rattle.protobuf_parse_rules.specs.Violations.{imports_breaches, range_breaches};
ghost use Rattle.protobuf_parse_rules.specs.Violations.{site_of_body};
ghost use Rattle.protobuf_parse_rules.specs.declared.rule.Rule.TheVariants as rule;

use crate::alike::check_fields_alike;
use crate::asking::any_asks;
use crate::bars::{Bars, bars_of};
use crate::bodies::{Body, bodies_of};
use crate::claims::Holders;
use crate::enums::check_enum;
use crate::extendees::add_lite_keys;
use crate::fields::{check_extensions, check_fields};
use crate::imports::check_unused_imports;
use crate::json_names::check_json_names;
use crate::key_set::KeySet;
use crate::methods::check_methods;
use crate::name_keys::doubled_names;
use crate::names::{Named, check_names};
use crate::nesting::check_nesting;
use crate::number_keys::doubled_numbers;
use crate::numbers::check_numbers;
use crate::oneofs::check_oneofs;
use crate::proto3::{ranges_kept, set_in_proto3};
use crate::ranges::{check_extension_ranges, check_reserved_ranges};
use crate::repeats::check_repeats;
use crate::rule::Rule;
use crate::runtimes::{Declared, check_runtimes, files_of, have_lite};
use crate::tables::{Tables, enums_of, no_tables, tables_of};
use crate::tell::tell_each;
use crate::violation::Violation;
use crate::wanted_names::wanted_names;
use protobuf_parse_model::{EnumDescriptorProto, FileDescriptorProto};
use std::alloc::{AllocError, Global};
use std::collections::BTreeMap;

/// Every violation in the files, in the order of the files and of what they declare.
pub fn violations(
    alloc: Global,
    files: &[FileDescriptorProto],
) -> Result<Vec<Violation>, AllocError>
    ensures { IfOk result (λ v. breaches_told v ≡ breaches (map file_view files.now)) }
{
    let bodies = bodies_of(alloc, files)?;
    violations_among(alloc, &bodies)
}

fn violations_among<'a>(alloc: Global, bodies: &'a [Body<'a>]) -> Result<Vec<Violation>, AllocError>
    ensures { IfOk result (λ v. breaches_told v ≡ breaches_among (map body_view bodies.now)) }
{
    let mut told = violations_by_body(alloc, bodies)?;
    check_declared(alloc, &mut told, bodies)?;
    Ok(told)
}

/// Tells what is wrong with names and with runtimes, over all files.
fn check_declared<'a>(
    alloc: Global,
    told: &mut Vec<Violation>,
    bodies: &'a [Body<'a>],
) -> Result<(), AllocError>
    ensures { OnOk result (breaches_told told.new ≡ breaches_told told.old
        ++ (names_in_use (map body_view bodies.now)
        ++ flat_map (runtime_breaches (map body_view bodies.now)) (map body_view bodies.now))) }
{
    let doubled = doubled_names(alloc, bodies)?;
    if doubled.is_empty() && !have_lite(bodies) {
        return Ok(());
    }
    let wanted = wanted_keys(alloc, doubled, bodies)?;
    let names = wanted_names(alloc, &wanted, bodies)?;
    check_named(alloc, told, &names, bodies)
}

/// The keys of names that two things may have, and of what extensions in files for the lite runtime
/// extend.
fn wanted_keys<'a>(
    alloc: Global,
    doubled: Vec<u64>,
    bodies: &'a [Body<'a>],
) -> Result<KeySet, AllocError>
    ensures { IfOk result (λ wanted. (k : ℕ) → has_key wanted.sorted.items k
        ≡ has_key (doubled.items
        ++ flat_map (lite_keys (map body_view bodies.now)) (map body_view bodies.now)) k) }
{
    let files = files_of(alloc, bodies)?;
    let mut keys = doubled;
    add_lite_keys(&mut keys, &files, bodies)?;
    Ok(KeySet::of(keys))
}

/// Tells the same by looking at each of these names and at each runtime.
fn check_named<'a>(
    alloc: Global,
    told: &mut Vec<Violation>,
    names: &'a [Named<'a>],
    bodies: &'a [Body<'a>],
) -> Result<(), AllocError>
    ensures { OnOk result (breaches_told told.new ≡ breaches_told told.old
        ++ (conflicts name_rule [] (map name_claim (map named_view names.now))
        ++ flat_map (runtimes_among (map named_view names.now) (map body_view bodies.now))
        (map body_view bodies.now))) }
{
    let first = check_names(alloc, told, names)?;
    let files = files_of(alloc, bodies)?;
    check_runtimes(alloc, told, &Declared { first, files }, bodies)
}

/// Those of each body, with what it needs to know of the others.
fn violations_by_body<'a>(
    alloc: Global,
    bodies: &'a [Body<'a>],
) -> Result<Vec<Violation>, AllocError>
    ensures { IfOk result (λ v. breaches_told v
        ≡ breaches_after (map body_view bodies.now) [] (map body_view bodies.now)) }
{
    if !any_asks(bodies) {
        return violations_alone(alloc, bodies);
    }
    let enums = enums_of(alloc, bodies)?;
    let tables = tables_of(alloc, bodies, &enums)?;
    violations_by(alloc, &tables, bodies)
}

/// Those of each body, where it needs to know nothing of others.
fn violations_alone<'a>(alloc: Global, bodies: &'a [Body<'a>]) -> Result<Vec<Violation>, AllocError>
    ensures { IfOk result (λ v. breaches_told v
        ≡ breaches_after [] [] (map body_view bodies.now)) }
{
    let tables = no_tables(alloc);
    violations_by(alloc, &tables, bodies)
}

fn violations_by<'a>(
    alloc: Global,
    tables: &Tables<'a>,
    bodies: &'a [Body<'a>],
) -> Result<Vec<Violation>, AllocError>
    ensures { IfOk result (λ v. (all : List BodyParts) → Knows tables.now all →
        breaches_told v ≡ breaches_after all [] (map body_view bodies.now)) }
{
    let wanted = doubled_numbers(alloc, bodies)?;
    if wanted.sorted.is_empty() {
        violations_inside(alloc, tables, bodies)
    } else {
        violations_in(alloc, &wanted, tables, bodies)
    }
}

/// Those where no number is in use already.
fn violations_inside<'a>(
    alloc: Global,
    tables: &Tables<'a>,
    bodies: &'a [Body<'a>],
) -> Result<Vec<Violation>, AllocError>
    ensures { IfOk result (λ v. (all : List BodyParts) → Knows tables.now all →
        breaches_told v ≡ flat_map (breaches_inside all) (map body_view bodies.now)) }
{
    let mut told = Vec::new(alloc);
    'bodies: for body in bodies {
        check_inside(alloc, &mut told, tables, body)?;
    }
    Ok(told)
}

/// Those where wanted numbers are looked at.
fn violations_in<'a>(
    alloc: Global,
    wanted: &KeySet,
    tables: &Tables<'a>,
    bodies: &'a [Body<'a>],
) -> Result<Vec<Violation>, AllocError>
    ensures { IfOk result (λ v. (all : List BodyParts) → Knows tables.now all → breaches_told v
        ≡ breaches_wanted wanted.now.sorted.items all [] (map body_view bodies.now)) }
{
    let mut told = Vec::new(alloc);
    let mut numbers = BTreeMap::new(alloc);
    'bodies: for body in bodies {
        check_body(alloc, wanted, &mut numbers, &mut told, tables, body)?;
    }
    Ok(told)
}

/// Tells what is wrong in the body.
fn check_body<'a>(
    alloc: Global,
    wanted: &KeySet,
    numbers: &mut Holders<'a>,
    told: &mut Vec<Violation>,
    tables: &Tables<'a>,
    body: &'a Body<'a>,
) -> Result<(), AllocError>
    ensures { OnOk result ((all : List BodyParts) → Knows tables.now all →
        Checks wanted.now.sorted.items all numbers.old numbers.new told.old told.new
        (body_view body.now ∷ [])) }
{
    check_numbers(alloc, wanted, numbers, told, body)?;
    check_inside(alloc, told, tables, body)
}

/// Tells what is wrong in the body by itself.
fn check_inside<'a>(
    alloc: Global,
    told: &mut Vec<Violation>,
    tables: &Tables<'a>,
    body: &'a Body<'a>,
) -> Result<(), AllocError>
    ensures { OnOk result ((all : List BodyParts) → Knows tables.now all →
        breaches_told told.new ≡ breaches_told told.old
        ++ breaches_inside all (body_view body.now)) }
{
    let bars = bars_of(alloc, body)?;
    check_barred(alloc, told, tables, &bars)
}

/// Tells the same where what the body bars is known.
fn check_barred<'a>(
    alloc: Global,
    told: &mut Vec<Violation>,
    tables: &Tables<'a>,
    bars: &Bars<'a>,
) -> Result<(), AllocError>
    ensures { OnOk result ((all : List BodyParts) → Knows tables.now all →
        breaches_told told.new ≡ breaches_told told.old
        ++ breaches_inside all (body_view bars.now.body.now)) }
{
    let body = bars.body;
    check_names_in_json(alloc, told, body)?;
    check_fields(alloc, told, tables, bars, body.holds.fields())?;
    check_extensions(alloc, told, tables, body, body.holds.extensions())?;
    check_rest(alloc, told, tables, bars)
}

/// Tells the fields whose names in JSON are in use, or may be.
fn check_names_in_json(
    alloc: Global,
    told: &mut Vec<Violation>,
    body: &Body<'_>,
) -> Result<(), AllocError>
    ensures { OnOk result (breaches_told told.new ≡ breaches_told told.old
        ++ (json_names_in_use (body_view body.now) ++ fields_alike (body_view body.now))) }
{
    check_json_names(alloc, told, body, body.holds.fields())?;
    check_fields_alike(alloc, told, body)
}

/// Tells what is wrong with the message itself and with its enums.
fn check_rest<'a>(
    alloc: Global,
    told: &mut Vec<Violation>,
    tables: &Tables<'a>,
    bars: &Bars<'a>,
) -> Result<(), AllocError>
    ensures { OnOk result ((all : List BodyParts) → Knows tables.now all →
        breaches_told told.new ≡ breaches_told told.old
        ++ breaches_in_rest all (body_view bars.now.body.now)) }
{
    check_own(alloc, told, tables, bars)?;
    check_enums(alloc, told, bars.body, bars.body.holds.enums())
}

/// Tells what is wrong with the message or the file itself, with its oneofs, its imports and its
/// ranges.
fn check_own<'a>(
    alloc: Global,
    told: &mut Vec<Violation>,
    tables: &Tables<'a>,
    bars: &Bars<'a>,
) -> Result<(), AllocError>
    ensures { OnOk result ((all : List BodyParts) → Knows tables.now all →
        breaches_told told.new ≡ breaches_told told.old
        ++ own_breaches all (body_view bars.now.body.now)) }
{
    check_itself(alloc, told, bars.body)?;
    check_oneofs(alloc, told, bars.body)?;
    check_imports(alloc, told, tables, bars.body)?;
    check_reserved_names(alloc, told, bars.body)?;
    check_ranges(alloc, told, bars)?;
    check_declarations(alloc, told, tables, bars.body)
}

/// Tells which of a file's messages are nested too deep, and what is wrong with its methods.
fn check_declarations<'a>(
    alloc: Global,
    told: &mut Vec<Violation>,
    tables: &Tables<'a>,
    body: &'a Body<'a>,
) -> Result<(), AllocError>
    ensures { OnOk result ((all : List BodyParts) → Knows tables.now all →
        breaches_told told.new ≡ breaches_told told.old
        ++ (deep_messages (body_view body.now) ++ methods_breaches all (body_view body.now))) }
{
    check_nesting(alloc, told, body)?;
    check_methods(alloc, told, tables, body)
}

fn check_imports<'a>(
    alloc: Global,
    told: &mut Vec<Violation>,
    tables: &Tables<'a>,
    body: &'a Body<'a>,
) -> Result<(), AllocError>
    ensures { OnOk result ((all : List BodyParts) → Knows tables.now all →
        breaches_told told.new ≡ breaches_told told.old
        ++ imports_breaches all (body_view body.now)) }
{
    check_imported_twice(alloc, told, body)?;
    check_unused_imports(alloc, told, &tables.uses, body)
}

fn check_imported_twice(
    alloc: Global,
    told: &mut Vec<Violation>,
    body: &Body<'_>,
) -> Result<(), AllocError>
    ensures { OnOk result (breaches_told told.new ≡ breaches_told told.old
        ++ repeats rule.ImportedTwice (site_of_body (body_view body.now))
        (imports_of (content_view body.now.holds))) }
{
    let at = body.own_spot();
    check_repeats(alloc, told, at, Rule::ImportedTwice, body.holds.imports())
}

fn check_reserved_names(
    alloc: Global,
    told: &mut Vec<Violation>,
    body: &Body<'_>,
) -> Result<(), AllocError>
    ensures { OnOk result (breaches_told told.new ≡ breaches_told told.old
        ++ repeats rule.NameReservedTwice (site_of_body (body_view body.now))
        (reserved_names (content_view body.now.holds))) }
{
    let at = body.own_spot();
    check_repeats(
        alloc,
        told,
        at,
        Rule::NameReservedTwice,
        body.holds.reserved_names(),
    )
}

fn check_itself(alloc: Global, told: &mut Vec<Violation>, body: &Body<'_>) -> Result<(), AllocError>
    ensures { OnOk result (breaches_told told.new ≡ breaches_told told.old
        ++ breaches_at (site_of_body (body_view body.now))
        (own_rules body.now.proto3 (content_view body.now.holds))) }
{
    if !body.proto3 {
        return Ok(());
    }
    let found = [
        ranges_kept(body.proto3, body.holds),
        set_in_proto3(body.proto3, body.holds),
    ];
    tell_each(alloc, told, body.own_spot(), &found)
}

fn check_ranges(alloc: Global, told: &mut Vec<Violation>, bars: &Bars<'_>) -> Result<(), AllocError>
    ensures { OnOk result (breaches_told told.new ≡ breaches_told told.old
        ++ range_breaches (body_view bars.now.body.now)) }
{
    let holds = bars.body.holds;
    check_extension_ranges(alloc, told, bars, holds.extension_ranges())?;
    check_reserved_ranges(alloc, told, bars, holds.reserved_ranges())
}

fn check_enums(
    alloc: Global,
    told: &mut Vec<Violation>,
    body: &Body<'_>,
    enums: &[EnumDescriptorProto],
) -> Result<(), AllocError>
    ensures { OnOk result (breaches_told told.new ≡ breaches_told told.old
        ++ flat_map (enum_breaches (body_view body.now)) (map enum_view enums.now)) }
{
    'enums: for each in enums {
        check_enum(alloc, told, body, each)?;
    }
    Ok(())
}
