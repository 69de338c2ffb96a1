//! Imports that nothing needs.

ghost use Rattle.std.specs.Prelude.{◌≡◌, ◌++◌, [], ◌∷◌, ℤ, List, length, map, OnOk, option_map};
ghost use Rattle.std.specs.Prelude.{string_bytes};
ghost use Rattle.protobuf_parse_model.specs.Descriptors.{file_view};
ghost use Rattle.protobuf_parse_rules.specs.Findings.{finding_view};
ghost use Rattle.protobuf_parse_rules.specs.Imports as spec;
ghost use Rattle.protobuf_parse_rules.specs.Imports.{import_breaches, unused_imports};
ghost use Rattle.protobuf_parse_rules.specs.KnownUses.{KnowsUses};
ghost use Rattle.protobuf_parse_rules.specs.Marks.{Marks};
ghost use Rattle.protobuf_parse_rules.specs.Bodies.{BodyParts};
ghost use Rattle.protobuf_parse_rules.specs.BodyViews.{body_view};
ghost use Rattle.protobuf_parse_rules.specs.Positions.{by_position};
ghost use Rattle.protobuf_parse_rules.specs.Rules.{breaches_at, breaches_told};
ghost use Rattle.protobuf_parse_rules.specs.Violations.{site_of_body};

use crate::bodies::{Body, Holds};
use crate::finding::{Finding, found_by};
use crate::positions::{is_marked, marks_of};
use crate::rule::Rule;
use crate::tell::tell;
use crate::uses::Uses;
use crate::violation::Violation;
use protobuf_parse_model::FileDescriptorProto;
use std::alloc::{AllocError, Global};

/// Tells each import of the body that nothing needs.
pub fn check_unused_imports<'a>(
    alloc: Global,
    told: &mut Vec<Violation>,
    uses: &Uses<'a>,
    body: &'a Body<'a>,
) -> Result<(), AllocError>
    ensures { OnOk result ((all : List BodyParts) → KnowsUses uses.now all →
        breaches_told told.new ≡ breaches_told told.old
        ++ unused_imports all (body_view body.now)) }
{
    match body.holds {
        Holds::File(file) => check_file(alloc, told, uses, body, file),
        Holds::Message(_) => Ok(()),
    }
}

fn check_file<'a>(
    alloc: Global,
    told: &mut Vec<Violation>,
    uses: &Uses<'a>,
    body: &'a Body<'a>,
    file: &'a FileDescriptorProto,
) -> Result<(), AllocError>
    ensures { OnOk result ((all : List BodyParts) → KnowsUses uses.now all →
        breaches_told told.new ≡ breaches_told told.old
        ++ by_position (import_breaches all (site_of_body (body_view body.now))
        (file_view file.now).public_dependency) 0 (file_view file.now).dependency) }
{
    let publics = marks_of(alloc, &file.public_dependency, file.dependency.len())?;
    check_each(alloc, told, uses, body, &publics, &file.dependency)
}

fn check_each<'a>(
    alloc: Global,
    told: &mut Vec<Violation>,
    uses: &Uses<'a>,
    body: &'a Body<'a>,
    publics: &[bool],
    paths: &'a [String],
) -> Result<(), AllocError>
    ensures { OnOk result ((all : List BodyParts) (positions : List ℤ) → KnowsUses uses.now all →
        Marks positions (length paths.now) publics.now →
        breaches_told told.new ≡ breaches_told told.old
        ++ by_position (import_breaches all (site_of_body (body_view body.now)) positions) 0
        (map string_bytes paths.now)) }
{
    'imports: for (position, path) in paths.iter().enumerate() {
        check_one(alloc, told, uses, body, is_marked(publics, position), path)?;
    }
    Ok(())
}

fn check_one<'a>(
    alloc: Global,
    told: &mut Vec<Violation>,
    uses: &Uses<'a>,
    body: &'a Body<'a>,
    handed_on: bool,
    path: &'a str,
) -> Result<(), AllocError>
    ensures { OnOk result ((all : List BodyParts) → KnowsUses uses.now all →
        breaches_told told.new ≡ breaches_told told.old
        ++ breaches_at (site_of_body (body_view body.now))
        (spec.unused_import all body.now.file.now handed_on path.now ∷ [])) }
{
    let found = unused_import(uses, body.file, handed_on, path);
    tell(alloc, told, body.own_spot(), &found)
}

/// Nothing needs the import.
fn unused_import<'a>(
    uses: &Uses<'a>,
    from: &'a str,
    handed_on: bool,
    path: &'a str,
) -> Option<Finding<'a>>
    ensures { (all : List BodyParts) → KnowsUses uses.now all → option_map finding_view result
        ≡ spec.unused_import all from.now handed_on path.now }
{
    if !handed_on && is_unused(uses, from, path) {
        found_by(Rule::ImportUnused, path)
    } else {
        None
    }
}

fn is_unused<'a>(uses: &Uses<'a>, from: &'a str, path: &'a str) -> bool
    ensures { (all : List BodyParts) → KnowsUses uses.now all →
        result ≡ spec.is_unused all from.now path.now }
{
    (uses.hands_on_none(path) && !is_of_options(path)) && !uses.is_needed(from, path)
}

/// Whether the path is that of the file that declares the messages of options.
fn is_of_options(path: &str) -> bool
    ensures { result ≡ spec.is_of_options path.now }
{
    path == "google/protobuf/descriptor.proto"
}
