//! What files need of each other.

ghost use Rattle.std.specs.Prelude.{◌≡◌, ◌++◌, [], List, flat_map, map, option_map, IfOk, OnOk};
ghost use Rattle.protobuf_parse_rules.specs.Customs.{are_any};
ghost use Rattle.protobuf_parse_rules.specs.Imports as spec;
ghost use Rattle.protobuf_parse_rules.specs.Imports.{extending_path, setting_path};
ghost use Rattle.protobuf_parse_rules.specs.Known.{KnowsTypes};
ghost use Rattle.protobuf_parse_rules.specs.KnownFiles.{known_file};
ghost use Rattle.protobuf_parse_rules.specs.KnownUses.{KnowsUses};
ghost use Rattle.protobuf_parse_rules.specs.Bodies.{BodyParts};
ghost use Rattle.protobuf_parse_rules.specs.BodyViews.{body_view, content_view};
ghost use Rattle.protobuf_parse_rules.specs.Bodies.{extensions_of};
ghost use Rattle.protobuf_parse_rules.specs.Runtimes.{file_named};
ghost use Rattle.protobuf_parse_rules.specs.Sets.{AreTexts, texts_of};

use crate::bodies::{Body, Holds};
use crate::customs::sets_custom;
use crate::links::{Links, has_link, links_of};
use crate::runtimes::{KnownFile, file_with, files_of};
use crate::tables::Types;
use crate::words::Words;
use std::alloc::{AllocError, Global};
use std::collections::{BTreeMap, BTreeSet};

/// What is known of files where their imports are looked at.
#[derive(Drop)]
pub struct Uses<'a> {
    /// The first file of each path.
    pub files: BTreeMap<(u64, &'a str), KnownFile<'a>>,
    /// Which files name types of which others.
    pub links: Links<'a>,
    /// The paths of files that set custom options.
    pub setting: Words<'a>,
    /// The paths of files that declare extensions.
    pub extending: Words<'a>,
}

impl<'a> Uses<'a> {
    /// Whether a file has the path, and hands on no imports.
    pub fn hands_on_none(&self, path: &'a str) -> bool
        ensures { (all : List BodyParts) → KnowsUses self.now all →
            result ≡ spec.hands_on_none all path.now }
    {
        match self.file(path) {
            Some(known) => known.file.public_dependency.is_empty(),
            None => false,
        }
    }

    fn file(&self, path: &'a str) -> Option<KnownFile<'a>>
        ensures { (all : List BodyParts) → KnowsUses self.now all →
            option_map known_file result ≡ file_named all path.now }
    {
        file_with(&self.files, path)
    }

    /// Whether the file with the first path needs the one with the other.
    pub fn is_needed(&self, from: &'a str, path: &'a str) -> bool
        ensures { (all : List BodyParts) → KnowsUses self.now all →
            result ≡ spec.is_needed all from.now path.now }
    {
        self.names(from, path) || self.may_set(from, path)
    }

    fn names(&self, from: &'a str, to: &'a str) -> bool
        ensures { (all : List BodyParts) → KnowsUses self.now all →
            result ≡ spec.file_names all from.now to.now }
    {
        has_link(&self.links, from, to)
    }

    fn may_set(&self, from: &'a str, to: &'a str) -> bool
        ensures { (all : List BodyParts) → KnowsUses self.now all →
            result ≡ spec.may_set all from.now to.now }
    {
        self.extending.contains(to) && self.setting.contains(from)
    }
}

/// Those of no files.
pub fn no_uses<'a>(alloc: Global) -> Uses<'a>
    ensures { KnowsUses result [] }
{
    Uses {
        files: BTreeMap::new(alloc),
        links: BTreeSet::new(alloc),
        setting: Words::of(Vec::new(alloc)),
        extending: Words::of(Vec::new(alloc)),
    }
}

/// Those of the files of the bodies.
pub fn uses_of<'a>(
    alloc: Global,
    types: &Types<'a>,
    bodies: &'a [Body<'a>],
) -> Result<Uses<'a>, AllocError>
    ensures { IfOk result (λ u. KnowsTypes types.now (map body_view bodies.now)
        → KnowsUses u (map body_view bodies.now)) }
{
    let files = files_of(alloc, bodies)?;
    let links = links_of(alloc, types, bodies)?;
    let setting = setting_paths(alloc, bodies)?;
    let extending = extending_paths(alloc, bodies)?;
    Ok(Uses {
        files,
        links,
        setting,
        extending,
    })
}

/// The paths of the bodies that set custom options.
fn setting_paths<'a>(alloc: Global, bodies: &[Body<'a>]) -> Result<Words<'a>, AllocError>
    ensures { IfOk result (λ w. AreTexts w.sorted.items
        (flat_map setting_path (map body_view bodies.now))) }
{
    let mut paths = Vec::new(alloc);
    'bodies: for body in bodies {
        add_path(&mut paths, body.file, sets_custom(body.holds))?;
    }
    Ok(Words::of(paths))
}

/// The paths of the bodies in which extensions stand.
fn extending_paths<'a>(alloc: Global, bodies: &[Body<'a>]) -> Result<Words<'a>, AllocError>
    ensures { IfOk result (λ w. AreTexts w.sorted.items
        (flat_map extending_path (map body_view bodies.now))) }
{
    let mut paths = Vec::new(alloc);
    'bodies: for body in bodies {
        add_path(&mut paths, body.file, has_extensions(body.holds))?;
    }
    Ok(Words::of(paths))
}

/// Whether anything is extended there.
#[tactic(auto, using(crate::proofs::Lists::any_mapped))]
pub fn has_extensions(holds: Holds<'_>) -> bool
    ensures { result ≡ are_any (extensions_of (content_view holds.entry)) }
{
    match holds {
        Holds::Message(message) => !message.extension.is_empty(),
        Holds::File(file) => !file.extension.is_empty(),
    }
}

fn add_path<'a>(paths: &mut Vec<&'a str>, path: &'a str, test: bool) -> Result<(), AllocError>
    ensures { OnOk result (texts_of paths.new.items ≡ texts_of paths.old.items
        ++ spec.path_if test path.now) }
{
    if test {
        paths.push(path)?;
    }
    Ok(())
}
