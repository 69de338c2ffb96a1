//! Where files declare messages, enums and extensions, by their full names.

ghost use Rattle.std.specs.Prelude.{◌≡◌, ◌++◌, ◌∷◌, [], List, length, OnOk};
ghost use Rattle.protobuf_parse_model.specs.Descriptors.{FileDescriptor, Text, file_view};
ghost use Rattle.protobuf_parse_options.specs.Holding.{Holds};
ghost use Rattle.protobuf_parse_options.specs.HoldingParts.{AddsSpots, spots_of_list};

pub mod declared;
pub mod found;
pub mod members;
pub mod parts;
pub mod picked;

use crate::spots::declared::{Spotted, members_of};
use crate::spots::parts::HasParts;
pub use picked::PickedFiles;
use protobuf_parse_base::multimap;
use protobuf_parse_model::{EnumDescriptorProto, FieldDescriptorProto, FileDescriptorProto};
use std::alloc::{AllocError, Global};
use std::collections::BTreeMap;

/// Where something is declared.
#[derive(Debug, Drop)]
pub struct Spot {
    /// The number of the file.
    pub file: u32,
    /// The way to the message around it: the number of a message in its list, then that of a
    /// message in it, and so on. Empty for what stands in no message.
    pub path: Vec<usize>,
    /// Its number in its list.
    pub index: usize,
    /// The positions of the fields of a message and of the values of an enum, where they are more
    /// than a few: the first of each name.
    pub positions: BTreeMap<String, usize>,
}

/// Where the files of a run declare messages, enums and extensions: the spots of each full name,
/// which has its first dot, in the order of the files.
#[derive(Debug, Drop)]
pub struct Spots {
    pub(crate) messages: BTreeMap<String, Vec<Spot>>,
    pub(crate) enums: BTreeMap<String, Vec<Spot>>,
    pub(crate) extensions: BTreeMap<String, Vec<Spot>>,
}

impl Spots {
    /// No spots.
    pub fn new(alloc: Global) -> Self
        ensures { Holds result [] }
    {
        Spots {
            messages: BTreeMap::new(alloc),
            enums: BTreeMap::new(alloc),
            extensions: BTreeMap::new(alloc),
        }
    }

    /// Adds the spots of what the next file declares, which has that number.
    /// The one error is that memory is short: nothing is known of the spots then.
    pub fn add(
        &mut self,
        alloc: Global,
        file: u32,
        descriptor: &FileDescriptorProto,
    ) -> Result<(), AllocError>
        ensures { OnOk result ((files : List FileDescriptor) → length files ≡ file →
            Holds self.old files → Holds self.new (files ++ file_view descriptor.now ∷ [])) }
    {
        let messages = declared::messages_of(alloc, descriptor)?;
        let enums = members_of::<EnumDescriptorProto>(alloc, descriptor, &messages)?;
        let extensions = members_of::<FieldDescriptorProto>(alloc, descriptor, &messages)?;
        put_all(&mut self.messages, alloc, file, &messages)?;
        put_all(&mut self.enums, alloc, file, &enums)?;
        put_all(&mut self.extensions, alloc, file, &extensions)
    }
}

/// Puts the spots of what a file declares under the full names, behind what stands there.
fn put_all<T: HasParts>(
    spots: &mut BTreeMap<String, Vec<Spot>>,
    alloc: Global,
    file: u32,
    list: &[Spotted<&T>],
) -> Result<(), AllocError>
    ensures { OnOk result (AddsSpots spots.old spots.new
        (λ (name : Text). spots_of_list T.part_names file name list.now)) }
{
    'items: for spotted in list {
        put(spots, alloc, file, spotted)?;
    }
    Ok(())
}

fn put<T: HasParts>(
    spots: &mut BTreeMap<String, Vec<Spot>>,
    alloc: Global,
    file: u32,
    spotted: &Spotted<&T>,
) -> Result<(), AllocError>
    ensures { OnOk result (AddsSpots spots.old spots.new
        (λ (name : Text). spots_of_list T.part_names file name (spotted.now ∷ []))) }
{
    let spot = Spot {
        file,
        path: declared::copied(alloc, &spotted.path)?,
        index: spotted.index,
        positions: spotted.what.positions(alloc)?,
    };
    multimap::put(spots, spotted.name.clone()?, spot)
}
