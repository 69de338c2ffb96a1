//! Files, and the set of them.

ghost use Rattle.std.specs.Prelude.{◌≡◌, ◌++◌, [], IfOk, OnOk, flat_map, map, string_bytes};
ghost use Rattle.std.specs.Prelude.{unwrap_or};
ghost use Rattle.protobuf_parse_model.specs.Descriptors.{file_view};
ghost use Rattle.protobuf_parse_set_rules.specs.Positions.{by_position};
ghost use Rattle.protobuf_parse_set_rules.specs.Rules as spec;
ghost use Rattle.protobuf_parse_set_rules.specs.Sights.{path_of};
ghost use Rattle.protobuf_parse_set_rules.specs.Held.{known_view, positions_view, sight_view};
ghost use Rattle.protobuf_parse_set_rules.specs.Held.{site_of};
ghost use Rattle.protobuf_parse_set_rules.specs.Views.{told};

use crate::declared::check_enums;
use crate::fields::check_extensions;
use crate::imports::{file_before, known_of, path_of};
use crate::known::KnownSet;
use crate::messages::check_messages;
use crate::names::{check_package, package_scope};
use crate::positions::{Positions, is_position};
use crate::rule::SetRule;
use crate::services::check_services;
use crate::sight::{FileSight, sight_of};
use crate::types::types_of;
use crate::violation::{SetViolation, Spot, tell_if};
use protobuf_parse_model::FileDescriptorProto;
use std::alloc::{AllocError, Global};

/// What doesn't hold among the descriptors of a set, which lists the imports of a file before it:
/// each construct that breaks a rule of [`SetRule`], with the rule.
///
/// Files come in their order, and in a file its own violations, then those of its messages, each
/// before those inside it, then those of its enums, services and extensions. The one error is that
/// memory is short.
///
/// ```text
/// let files = read_descriptor_set(alloc, &bytes)?;
/// for violation in &check_set(alloc, &files)? {
///     println!("{violation}");
/// }
/// ```
pub fn check_set(
    alloc: Global,
    files: &[FileDescriptorProto],
) -> Result<Vec<SetViolation>, AllocError>
    ensures { IfOk result (λ v. told v ≡ spec.set_breaches (map file_view files.now)) }
{
    let types = types_of(alloc, files)?;
    let known = known_of(alloc, files, &types)?;
    check_files(alloc, &known, files)
}

fn check_files(
    alloc: Global,
    known: &KnownSet<'_, '_>,
    files: &[FileDescriptorProto],
) -> Result<Vec<SetViolation>, AllocError>
    ensures { IfOk result (λ v. told v ≡ by_position (spec.file_breaches (known_view known.now)) 0
        (map file_view files.now)) }
{
    let mut found = Vec::new(alloc);
    'files: for (position, file) in files.iter().enumerate() {
        check_file(alloc, &mut found, known, position, file)?;
    }
    Ok(found)
}

fn check_file(
    alloc: Global,
    found: &mut Vec<SetViolation>,
    known: &KnownSet<'_, '_>,
    position: usize,
    file: &FileDescriptorProto,
) -> Result<(), AllocError>
    ensures { OnOk result (told found.new ≡ told found.old
        ++ spec.file_breaches (known_view known.now) position (file_view file.now)) }
{
    let scope = package_scope(alloc, &file.package)?;
    check_own(alloc, found, &known.paths, position, &scope, file)?;
    let sight = sight_of(alloc, known, position, file)?;
    check_declared(alloc, found, &sight, &scope, file)
}

/// Tells what is wrong with what the file declares.
fn check_declared(
    alloc: Global,
    found: &mut Vec<SetViolation>,
    sight: &FileSight<'_, '_>,
    scope: &str,
    file: &FileDescriptorProto,
) -> Result<(), AllocError>
    ensures { OnOk result (told found.new ≡ told found.old
        ++ spec.declared_breaches (sight_view sight.now) (path_of (file_view file.now)) scope.now
        (file_view file.now)) }
{
    let path = path_of(file);
    check_messages(alloc, found, sight, path, scope, &file.message_type)?;
    check_enums(alloc, found, path, scope, &file.enum_type)?;
    check_services(alloc, found, sight, path, scope, &file.service)?;
    check_extensions(alloc, found, sight, path, scope, &file.extension)
}

/// Tells what is wrong with the file itself.
fn check_own<'a>(
    alloc: Global,
    found: &mut Vec<SetViolation>,
    paths: &Positions<'_>,
    position: usize,
    scope: &'a str,
    file: &'a FileDescriptorProto,
) -> Result<(), AllocError>
    ensures { OnOk result (told found.new ≡ told found.old
        ++ spec.own_breaches (positions_view paths.now) position
        (record { file = path_of (file_view file.now); construct = scope.now })
        (file_view file.now)) }
{
    let path = path_of(file);
    let at = Spot {
        file: path,
        scope,
        name: None,
    };
    let count = file.dependency.len();
    let again = file_before(paths, position, path).is_some();
    tell_if(alloc, found, again, at, SetRule::FileTwice, "")?;
    check_imports(alloc, found, paths, position, at, &file.dependency)?;
    check_indexes(alloc, found, at, count, &file.public_dependency)?;
    check_indexes(alloc, found, at, count, &file.weak_dependency)?;
    check_package_of(alloc, found, at, file)
}

fn check_package_of(
    alloc: Global,
    found: &mut Vec<SetViolation>,
    at: Spot<'_>,
    file: &FileDescriptorProto,
) -> Result<(), AllocError>
    ensures { OnOk result (told found.new ≡ told found.old
        ++ spec.package_breaches (site_of at.entry)
        (unwrap_or (file_view file.now).«package» [])) }
{
    match &file.package {
        Some(package) => check_package(alloc, found, at, package),
        None => Ok(()),
    }
}

fn check_imports(
    alloc: Global,
    found: &mut Vec<SetViolation>,
    paths: &Positions<'_>,
    position: usize,
    at: Spot<'_>,
    imports: &[String],
) -> Result<(), AllocError>
    ensures { OnOk result (told found.new ≡ told found.old
        ++ flat_map (spec.import_breaches (positions_view paths.now) position (site_of at.entry))
        (map string_bytes imports.now)) }
{
    'imports: for path in imports {
        let missing = file_before(paths, position, path).is_none();
        tell_if(alloc, found, missing, at, SetRule::ImportNotBefore, path)?;
    }
    Ok(())
}

/// Tells each position that is none of so many imports.
fn check_indexes(
    alloc: Global,
    found: &mut Vec<SetViolation>,
    at: Spot<'_>,
    count: usize,
    indexes: &[i32],
) -> Result<(), AllocError>
    ensures { OnOk result (told found.new ≡ told found.old
        ++ flat_map (spec.index_breaches count (site_of at.entry)) indexes.now) }
{
    'indexes: for index in indexes {
        let wrong = !is_position(count, index);
        let rule = SetRule::NoSuchImport { index: *index };
        tell_if(alloc, found, wrong, at, rule, "")?;
    }
    Ok(())
}
