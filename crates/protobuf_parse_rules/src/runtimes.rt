//! Which runtime files are for.

ghost use Rattle.std.specs.Prelude.{◌≡◌, ◌++◌, [], ◌∷◌, List, map, flat_map, OnOk, IfOk};
ghost use Rattle.std.specs.Prelude.{bytes_eq, find, option_and_then, option_map, string_bytes};
ghost use Rattle.std.specs.Borrow.{Bor};
ghost use Rattle.std.specs.List.{list_any};
ghost use Rattle.protobuf_parse_model.specs.Descriptors.{Text, field_view, file_view, service_view};
ghost use Rattle.protobuf_parse_rules.specs.Findings.{finding_view, site_of};
ghost use Rattle.protobuf_parse_rules.specs.Known.{Finds};
ghost use Rattle.protobuf_parse_rules.specs.KnownFiles.{Surroundings, Tells, is_lite_body};
ghost use Rattle.protobuf_parse_rules.specs.KnownFiles.{known_file, path_named};
ghost use Rattle.protobuf_parse_rules.specs.Bodies.{BodyParts};
ghost use Rattle.protobuf_parse_rules.specs.BodyViews.{body_view, content_view};
ghost use Rattle.protobuf_parse_rules.specs.Rules.{breaches_told};
ghost use Rattle.protobuf_parse_rules.specs.Runtimes as spec;
ghost use Rattle.protobuf_parse_rules.specs.Runtimes.{NamedFile, declaring_file, file_at};
ghost use Rattle.protobuf_parse_rules.specs.Runtimes.{is_lite_path, runtimes_among};

use crate::bodies::{Body, Holds};
use crate::claims::{Holders, Thing, first_of};
use crate::finding::{Finding, Spot, found, found_by};
use crate::keys::keyed;
use crate::rule::Rule;
use crate::tell::tell;
use crate::violation::Violation;
use protobuf_parse_model::{
    FieldDescriptorProto, FileDescriptorProto, OptimizeMode, ServiceDescriptorProto,
};
use std::alloc::{AllocError, Global};
use std::collections::BTreeMap;

/// A file with its path.
#[derive(Clone, Copy)]
pub struct KnownFile<'a> {
    pub path: &'a str,
    pub file: &'a FileDescriptorProto,
}

/// The first file of each path.
pub type Files<'a> = BTreeMap<(u64, &'a str), KnownFile<'a>>;

/// The first of those that have each full name, of some names, and the files.
#[derive(Drop)]
pub struct Declared<'a> {
    pub first: Holders<'a>,
    pub files: Files<'a>,
}

impl<'a> Declared<'a> {
    /// The file of the first that has the full name.
    fn file_of(&self, name: &'a str) -> Option<&'a str>
        ensures { (s : Surroundings) → Tells self.now s →
            option_map (λ (path : Bor Text). path.now) result ≡ declaring_file s.named name.now }
    {
        let thing = Thing {
            number: 0,
            name,
            scope: "",
        };
        match first_of(&self.first, thing) {
            Some(first) => Some(first.file),
            None => None,
        }
    }

    /// Whether a file has the path, and is for the lite runtime.
    fn is_lite(&self, path: &'a str) -> bool
        ensures { (s : Surroundings) → Tells self.now s →
            result ≡ is_lite_path s.all path.now }
    {
        is_lite_path(&self.files, path)
    }
}

fn is_lite(file: &FileDescriptorProto) -> bool
    ensures { result ≡ spec.is_lite (file_view file.now) }
{
    match &file.options {
        Some(options) => match options.optimize_for {
            Some(mode) => matches!(mode, OptimizeMode::LiteRuntime),
            None => false,
        },
        None => false,
    }
}

fn has_generic_services(file: &FileDescriptorProto) -> bool
    ensures { result ≡ spec.has_generic_services (file_view file.now) }
{
    match &file.options {
        Some(options) => {
            options.cc_generic_services.unwrap_or(false)
                || options.java_generic_services.unwrap_or(false)
        }
        None => false,
    }
}

/// The file with the path.
pub fn file_with<'a>(files: &Files<'a>, path: &'a str) -> Option<KnownFile<'a>>
    ensures { (all : List NamedFile) → Finds known_file path_named files.now all →
        option_map known_file result ≡ find (λ (f : NamedFile). bytes_eq f.path path.now) all }
{
    files.get(&keyed(path)).copied()
}

/// Whether a file has the path, and is for the lite runtime.
pub fn is_lite_path<'a>(files: &Files<'a>, path: &'a str) -> bool
    ensures { (all : List BodyParts) → Finds known_file path_named files.now (flat_map file_at all)
        → result ≡ is_lite_path all path.now }
{
    match file_with(files, path) {
        Some(known) => is_lite(known.file),
        None => false,
    }
}

/// The files of the bodies by their paths; of those with one path, the first.
pub fn files_of<'a>(alloc: Global, bodies: &[Body<'a>]) -> Result<Files<'a>, AllocError>
    ensures { IfOk result (λ m. Finds known_file path_named m
        (flat_map file_at (map body_view bodies.now))) }
{
    let mut files = BTreeMap::new(alloc);
    'bodies: for body in bodies {
        add_file(&mut files, body.file, body.holds)?;
    }
    Ok(files)
}

fn add_file<'a>(files: &mut Files<'a>, path: &'a str, holds: Holds<'a>) -> Result<(), AllocError>
    ensures { OnOk result ((before : List NamedFile) → Finds known_file path_named files.old before
        → Finds known_file path_named files.new
        (before ++ spec.file_in path.now (content_view holds.entry))) }
{
    match holds {
        Holds::File(file) => put_file(files, path, file),
        Holds::Message(_) => Ok(()),
    }
}

fn put_file<'a>(
    files: &mut Files<'a>,
    path: &'a str,
    file: &'a FileDescriptorProto,
) -> Result<(), AllocError>
    ensures { OnOk result ((before : List NamedFile) → Finds known_file path_named files.old before
        → Finds known_file path_named files.new
        (before ++ record { path = path.now; what = file_view file.now } ∷ [])) }
{
    let key = keyed(path);
    match files.get(&key) {
        Some(_first) => Ok(()),
        None => {
            files.insert(key, KnownFile { path, file })?;
            Ok(())
        }
    }
}

/// Whether one of the bodies is a file for the lite runtime.
pub fn have_lite(bodies: &[Body<'_>]) -> bool
    ensures { result ≡ list_any is_lite_body (map body_view bodies.now) }
{
    let mut lite = false;
    'bodies: for body in bodies {
        lite = is_lite_body(body) || lite;
    }
    lite
}

fn is_lite_body(body: &Body<'_>) -> bool
    ensures { result ≡ is_lite_body (body_view body.now) }
{
    match body.holds {
        Holds::File(file) => is_lite(file),
        Holds::Message(_) => false,
    }
}

/// Tells what is wrong with the runtimes of the bodies.
pub fn check_runtimes<'a>(
    alloc: Global,
    told: &mut Vec<Violation>,
    declared: &Declared<'a>,
    bodies: &'a [Body<'a>],
) -> Result<(), AllocError>
    ensures { OnOk result ((s : Surroundings) → Tells declared.now s →
        breaches_told told.new ≡ breaches_told told.old
        ++ flat_map (runtimes_among s.named s.all) (map body_view bodies.now)) }
{
    'bodies: for body in bodies {
        check_body(alloc, told, declared, body)?;
    }
    Ok(())
}

fn check_body<'a>(
    alloc: Global,
    told: &mut Vec<Violation>,
    declared: &Declared<'a>,
    body: &'a Body<'a>,
) -> Result<(), AllocError>
    ensures { OnOk result ((s : Surroundings) → Tells declared.now s →
        breaches_told told.new ≡ breaches_told told.old
        ++ runtimes_among s.named s.all (body_view body.now)) }
{
    check_extensions(alloc, told, declared, body)?;
    check_file(alloc, told, declared, body)
}

/// Tells each extension in a file for the lite runtime of a message of one that isn't.
fn check_extensions<'a>(
    alloc: Global,
    told: &mut Vec<Violation>,
    declared: &Declared<'a>,
    body: &'a Body<'a>,
) -> Result<(), AllocError>
    ensures { OnOk result ((s : Surroundings) → Tells declared.now s →
        breaches_told told.new ≡ breaches_told told.old
        ++ spec.lite_extensions s.named s.all (body_view body.now)) }
{
    if !declared.is_lite(body.file) {
        return Ok(());
    }
    check_each_extension(alloc, told, declared, body, body.holds.extensions())
}

fn check_each_extension<'a>(
    alloc: Global,
    told: &mut Vec<Violation>,
    declared: &Declared<'a>,
    body: &'a Body<'a>,
    extensions: &'a [FieldDescriptorProto],
) -> Result<(), AllocError>
    ensures { OnOk result ((s : Surroundings) → Tells declared.now s →
        breaches_told told.new ≡ breaches_told told.old
        ++ flat_map (spec.lite_extension s.named s.all body.now.file.now (string_bytes body.now.scope))
        (map field_view extensions.now)) }
{
    'extensions: for extension in extensions {
        check_extension(alloc, told, declared, body, extension)?;
    }
    Ok(())
}

fn check_extension<'a>(
    alloc: Global,
    told: &mut Vec<Violation>,
    declared: &Declared<'a>,
    body: &'a Body<'a>,
    extension: &'a FieldDescriptorProto,
) -> Result<(), AllocError>
    ensures { OnOk result ((s : Surroundings) → Tells declared.now s →
        breaches_told told.new ≡ breaches_told told.old
        ++ spec.lite_extension s.named s.all body.now.file.now (string_bytes body.now.scope)
        (field_view extension.now)) }
{
    let found = lite_extension(declared, extension);
    tell(alloc, told, body.spot(&extension.name), &found)
}

fn lite_extension<'a>(
    declared: &Declared<'a>,
    extension: &'a FieldDescriptorProto,
) -> Option<Finding<'a>>
    ensures { (s : Surroundings) → Tells declared.now s → option_map finding_view result
        ≡ option_and_then (spec.lite_extendee s.named s.all) (field_view extension.now).extendee }
{
    match &extension.extendee {
        Some(name) => lite_extendee(declared, name),
        None => None,
    }
}

fn lite_extendee<'a>(declared: &Declared<'a>, name: &'a str) -> Option<Finding<'a>>
    ensures { (s : Surroundings) → Tells declared.now s → option_map finding_view result
        ≡ spec.lite_extendee s.named s.all name.now }
{
    match declared.file_of(name) {
        Some(path) => {
            if declared.is_lite(path) {
                None
            } else {
                found_by(Rule::LiteExtension, name)
            }
        }
        None => None,
    }
}

/// Tells what is wrong with a file's imports and services.
fn check_file<'a>(
    alloc: Global,
    told: &mut Vec<Violation>,
    declared: &Declared<'a>,
    body: &'a Body<'a>,
) -> Result<(), AllocError>
    ensures { OnOk result ((s : Surroundings) → Tells declared.now s →
        breaches_told told.new ≡ breaches_told told.old
        ++ spec.lite_file s.all body.now.file.now (string_bytes body.now.scope)
        (content_view body.now.holds)) }
{
    match body.holds {
        Holds::File(file) => check_lite_file(alloc, told, declared, body, file),
        Holds::Message(_) => Ok(()),
    }
}

fn check_lite_file<'a>(
    alloc: Global,
    told: &mut Vec<Violation>,
    declared: &Declared<'a>,
    body: &'a Body<'a>,
    file: &'a FileDescriptorProto,
) -> Result<(), AllocError>
    ensures { OnOk result ((s : Surroundings) → Tells declared.now s →
        breaches_told told.new ≡ breaches_told told.old
        ++ (spec.lite_imports s.all (record {
          file = body.now.file.now;
          construct = string_bytes body.now.scope;
        }) (file_view file.now)
        ++ spec.lite_services body.now.file.now (string_bytes body.now.scope)
        (file_view file.now))) }
{
    check_imports(alloc, told, declared, body.own_spot(), file)?;
    check_services(alloc, told, body, file)
}

fn check_imports<'a>(
    alloc: Global,
    told: &mut Vec<Violation>,
    declared: &Declared<'a>,
    at: Spot<'_>,
    file: &'a FileDescriptorProto,
) -> Result<(), AllocError>
    ensures { OnOk result ((s : Surroundings) → Tells declared.now s →
        breaches_told told.new ≡ breaches_told told.old
        ++ spec.lite_imports s.all (site_of at.entry) (file_view file.now)) }
{
    if is_lite(file) {
        return Ok(());
    }
    check_each_import(alloc, told, declared, at, &file.dependency)
}

fn check_each_import<'a>(
    alloc: Global,
    told: &mut Vec<Violation>,
    declared: &Declared<'a>,
    at: Spot<'_>,
    imports: &'a [String],
) -> Result<(), AllocError>
    ensures { OnOk result ((s : Surroundings) → Tells declared.now s →
        breaches_told told.new ≡ breaches_told told.old
        ++ flat_map (spec.lite_import s.all (site_of at.entry)) (map string_bytes imports.now)) }
{
    'imports: for path in imports {
        check_import(alloc, told, declared, at, path)?;
    }
    Ok(())
}

fn check_import<'a>(
    alloc: Global,
    told: &mut Vec<Violation>,
    declared: &Declared<'a>,
    at: Spot<'_>,
    path: &'a str,
) -> Result<(), AllocError>
    ensures { OnOk result ((s : Surroundings) → Tells declared.now s →
        breaches_told told.new ≡ breaches_told told.old
        ++ spec.lite_import s.all (site_of at.entry) path.now) }
{
    let found = of_lite_path(declared, path);
    tell(alloc, told, at, &found)
}

fn of_lite_path<'a>(declared: &Declared<'a>, path: &'a str) -> Option<Finding<'a>>
    ensures { (s : Surroundings) → Tells declared.now s → option_map finding_view result
        ≡ spec.of_lite_path s.all path.now }
{
    if declared.is_lite(path) {
        found_by(Rule::LiteImport, path)
    } else {
        None
    }
}

/// Tells each service of a file for the lite runtime that has services of the generic kind.
fn check_services<'b>(
    alloc: Global,
    told: &mut Vec<Violation>,
    body: &'b Body<'_>,
    file: &'b FileDescriptorProto,
) -> Result<(), AllocError>
    ensures { OnOk result (breaches_told told.new ≡ breaches_told told.old
        ++ spec.lite_services body.now.file.now (string_bytes body.now.scope)
        (file_view file.now)) }
{
    if !(is_lite(file) && has_generic_services(file)) {
        return Ok(());
    }
    check_each_service(alloc, told, body, &file.service)
}

fn check_each_service<'b>(
    alloc: Global,
    told: &mut Vec<Violation>,
    body: &'b Body<'_>,
    services: &'b [ServiceDescriptorProto],
) -> Result<(), AllocError>
    ensures { OnOk result (breaches_told told.new ≡ breaches_told told.old
        ++ flat_map (spec.lite_service body.now.file.now (string_bytes body.now.scope))
        (map service_view services.now)) }
{
    'services: for service in services {
        check_service(alloc, told, body, service)?;
    }
    Ok(())
}

fn check_service<'b>(
    alloc: Global,
    told: &mut Vec<Violation>,
    body: &'b Body<'_>,
    service: &'b ServiceDescriptorProto,
) -> Result<(), AllocError>
    ensures { OnOk result (breaches_told told.new ≡ breaches_told told.old
        ++ spec.lite_service body.now.file.now (string_bytes body.now.scope)
        (service_view service.now)) }
{
    let found = found(Rule::LiteService);
    tell(alloc, told, body.spot(&service.name), &found)
}
