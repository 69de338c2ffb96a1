//! What the loaded files declare, for look-ups.

ghost use Rattle.std.specs.Prelude.{◌≡◌, ◌+◌, ◌^◌, ◌<◌, [], length, map, OnOk};
ghost use Rattle.protobuf_parse_model.specs.Descriptors as described;
ghost use Rattle.protobuf_parse_model.specs.Tables.{TableTells};
ghost use Rattle.protobuf_parse_run.specs.Loading.{IndexBegins, IsWhole, descriptor_in};
ghost use Rattle.protobuf_parse_run.specs.Loading.{descriptors_with};

use crate::loaded::LoadedFiles;
use protobuf_parse_model::{Declarations, FileDescriptorProto};
use protobuf_parse_options::Spots;
use std::alloc::{AllocError, Global};

/// What the loaded files declare.
#[derive(Drop)]
pub struct Tables {
    /// Their names, by the numbers of the files.
    pub names: Declarations,
    pub spots: RunSpots,
}

/// Where files of a run declare what custom options name. It is caught up with the loaded files
/// when one comes that sets custom options.
#[derive(Drop)]
pub struct RunSpots {
    pub declared: Spots,
    /// How many files are in it: the first ones.
    pub files: u32,
}

impl Tables {
    /// Of no files.
    pub fn new(alloc: Global) -> Self
        ensures names { TableTells result.names [] }
        ensures spots { IndexBegins result.spots [] }
    {
        Tables {
            names: Declarations::new(alloc),
            spots: RunSpots {
                declared: Spots::new(alloc),
                files: 0,
            },
        }
    }
}

/// Adds the loaded files that aren't in it, and then the next file, of which `own` is the
/// descriptor without custom options.
pub fn add_next(
    spots: &mut RunSpots,
    alloc: Global,
    loaded: &LoadedFiles,
    own: &FileDescriptorProto,
) -> Result<(), AllocError>
    requires begins { IndexBegins spots.old (map descriptor_in loaded.now.entries) }
    ensures { OnOk result (IsWhole spots.new
        (descriptors_with loaded.now.entries (described.file_view own.now))) }
{
    'files: while spots.files < loaded.len() {
        add_loaded(spots, alloc, loaded)?;
    }
    let number = loaded.len();
    spots.declared.add(alloc, number, own)?;
    spots.files = number + 1;
    Ok(())
}

/// Adds the first loaded file that isn't in it.
fn add_loaded(spots: &mut RunSpots, alloc: Global, loaded: &LoadedFiles) -> Result<(), AllocError>
    requires begins { IndexBegins spots.old (map descriptor_in loaded.now.entries) }
    requires more { spots.old.files < length loaded.now.entries }
    requires room { spots.old.files < 2 ^ 31 }
    ensures begins { OnOk result (IndexBegins spots.new (map descriptor_in loaded.now.entries)) }
    ensures files { OnOk result (spots.new.files ≡ spots.old.files + 1) }
{
    let number = spots.files;
    if let Some((_, file)) = loaded.at(number) {
        spots.declared.add(alloc, number, &file.descriptor)?;
        spots.files = number + 1;
    }
    Ok(())
}
