//! What a file sees.

ghost use Rattle.std.specs.Prelude.{◌≡◌, ◌||◌, IfOk, OnOk, map};
ghost use Rattle.std.specs.Prelude.{option_to_list};
ghost use Rattle.protobuf_parse_index.specs.Lookups.{file_named};
ghost use Rattle.std.specs.BTreeSet.{contains_text};
ghost use Rattle.protobuf_parse_model.specs.Descriptors.{Text, file_view};
ghost use Rattle.protobuf_parse_model.specs.SeenFiles.{name_texts};
ghost use Rattle.protobuf_parse_base.specs.Names.{absolute_text, fronts};
ghost use Rattle.protobuf_parse_model.specs.Declarations.{inside, scope_of_package};
ghost use Rattle.protobuf_parse_text_rules.specs.Options.{stands_in};
ghost use Rattle.protobuf_parse_name_rules.specs.InnerViews.{has_text, sight_view};
ghost use Rattle.protobuf_parse_name_rules.specs.Lookups as spec;
ghost use Rattle.protobuf_parse_name_rules.specs.Views.{files_view};

use protobuf_parse_index::Index;
use protobuf_parse_model::{FileDescriptorProto, scope_of_package};
use std::alloc::{AllocError, Global};
use std::collections::BTreeSet;

/// The files that the names of a file are looked up in.
#[derive(Clone, Copy)]
pub struct NameFiles<'i, 'a> {
    /// Of all files that it reaches, itself among them.
    pub index: &'i Index<'a>,
    /// The paths of the files that it sees, in any order: itself, those that it imports, and what
    /// these import publicly.
    pub seen: &'i [&'i str],
}

/// What a file sees: names mean declarations of seen files.
#[derive(Drop)]
pub struct NameSight<'i, 'a> {
    pub index: &'i Index<'a>,
    /// The paths of the files.
    pub paths: BTreeSet<&'i str>,
    /// The full names of their packages, and of those around them.
    pub packages: BTreeSet<String>,
}

/// From where names are looked up.
#[derive(Clone, Copy)]
pub struct NameViewpoint<'v, 'i, 'a> {
    pub alloc: Global,
    pub sight: &'v NameSight<'i, 'a>,
    pub scope: &'v [&'v str],
}

/// What the file sees.
pub fn sight_of<'i, 'a>(
    alloc: Global,
    files: &NameFiles<'i, 'a>,
) -> Result<NameSight<'i, 'a>, AllocError>
    ensures { IfOk result (λ s. sight_view s ≡ spec.sight_of (files_view files.now)) }
{
    let paths = paths_of(alloc, files.seen)?;
    let packages = packages_of_seen(alloc, files)?;
    Ok(NameSight {
        index: files.index,
        paths,
        packages,
    })
}

fn paths_of<'i>(alloc: Global, seen: &[&'i str]) -> Result<BTreeSet<&'i str>, AllocError>
    ensures { IfOk result (λ s. (path : Text)
        → has_text s path ≡ stands_in path (name_texts seen.now)) }
{
    let mut paths = BTreeSet::new(alloc);
    'seen: for path in seen {
        paths.insert(*path)?;
    }
    Ok(paths)
}

/// The full names of the packages of the files that are seen.
fn packages_of_seen(
    alloc: Global,
    files: &NameFiles<'_, '_>,
) -> Result<BTreeSet<String>, AllocError>
    ensures { IfOk result (λ s. (name : Text) → contains_text s name
        ≡ stands_in name (spec.packages_among (spec.seen_files (files_view files.now)))) }
{
    let mut packages = BTreeSet::new(alloc);
    'seen: for path in files.seen {
        add_seen(alloc, &mut packages, files.index, path)?;
    }
    Ok(packages)
}

/// Those of the file of that path too.
fn add_seen(
    alloc: Global,
    packages: &mut BTreeSet<String>,
    index: &Index<'_>,
    path: &str,
) -> Result<(), AllocError>
    ensures { OnOk result ((name : Text) → contains_text packages.new name
        ≡ (contains_text packages.old name || stands_in name (spec.packages_among
        (option_to_list (file_named (map file_view index.now) path.now))))) }
{
    match index.file(path) {
        Some(file) => add_packages(alloc, packages, file),
        None => Ok(()),
    }
}

/// The package of the file, and those around it, too.
fn add_packages(
    alloc: Global,
    packages: &mut BTreeSet<String>,
    file: &FileDescriptorProto,
) -> Result<(), AllocError>
    ensures { OnOk result ((name : Text) → contains_text packages.new name
        ≡ (contains_text packages.old name
        || stands_in name (spec.packages_of (file_view file.now)))) }
{
    let parts = package_of(alloc, file)?;
    add_fronts(alloc, packages, &parts)
}

/// The names of the file's package.
fn package_of(alloc: Global, file: &FileDescriptorProto) -> Result<Vec<&str>, AllocError>
    ensures { IfOk result (λ v. name_texts v.items
        ≡ scope_of_package (file_view file.now).«package») }
{
    match &file.package {
        Some(package) => scope_of_package(alloc, Some(package)),
        None => scope_of_package(alloc, None),
    }
}

fn add_fronts(
    alloc: Global,
    packages: &mut BTreeSet<String>,
    parts: &[&str],
) -> Result<(), AllocError>
    ensures { OnOk result ((name : Text) → contains_text packages.new name
        ≡ (contains_text packages.old name
        || stands_in name (map absolute_text (fronts (name_texts parts.now))))) }
{
    let mut front = String::new(alloc);
    packages.insert(front.clone()?)?;
    'parts: for part in parts {
        front.push('.')?;
        front.push_str(part)?;
        packages.insert(front.clone()?)?;
    }
    Ok(())
}

/// The scope inside what has the name.
pub fn scope_within<'n>(
    at: &NameViewpoint<'n, '_, '_>,
    name: &'n str,
) -> Result<Vec<&'n str>, AllocError>
    ensures { IfOk result (λ v. name_texts v.items
        ≡ inside (name_texts at.now.scope.now) name.now) }
{
    let mut scope = Vec::with_capacity(at.alloc, at.scope.len().saturating_add(1))?;
    'names: for outer in at.scope {
        scope.push(*outer)?;
    }
    scope.push(name)?;
    Ok(scope)
}
