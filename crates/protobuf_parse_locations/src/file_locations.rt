//! Where the declarations of a file stand.

ghost use Rattle.std.specs.Prelude.{◌≡◌, [], IfOk, find, map, bytes_eq};
ghost use Rattle.std.specs.Option.{option_copied};
ghost use Rattle.protobuf_parse_model.specs.Descriptors.{file_view};
ghost use Rattle.protobuf_parse_source_info.specs.Views.{info_view};
ghost use Rattle.protobuf_parse_locations.specs.Declarations.{declarations_of};
ghost use Rattle.protobuf_parse_locations.specs.Lookups as spec;
ghost use Rattle.protobuf_parse_locations.specs.Views.{declaration_found, declaration_view};
ghost use Rattle.protobuf_parse_locations.specs.Views.{location_found};

use crate::declaration::Declaration;
use crate::positions::{
    ByName, ByPart, ByPath, at_position, by_names, by_parts, by_paths, position_of_part,
};
use crate::walk::declarations;
use protobuf_parse_model::FileDescriptorProto;
use protobuf_parse_source_info::{Location, SourceCodeInfo};
use std::alloc::{AllocError, Global};
use std::marker::Model;

/// The number of `name` in the messages of `descriptor.proto` that describe declarations.
const NAME: u32 = 1;

/// Where the declarations of a file stand, by their full names and by their paths.
///
/// Names are with their first dot: `.shop.Item.price`. Of several declarations with one name, and
/// of several locations with one path, a look-up gives the first. A look-up takes time by the
/// logarithm of how many there are; making the value takes time in proportion to the declarations
/// and the locations, and that logarithm.
///
/// ```text
/// let info = source_info(alloc, text, &tree)?;
/// let locations = FileLocations::of(alloc, file, &info)?;
/// if let Some(name) = locations.name(".shop.Item.price") {
///     println!(rt; "{}:{}", name.span.start.line + 1, name.span.start.column + 1)?;
/// }
/// ```
#[derive(Drop)]
pub struct FileLocations<'a, 'tree> {
    declarations: Vec<Declaration>,
    locations: &'a [Location<'tree>],
    by_name: ByName,
    by_path: ByPath,
    by_part: ByPart,
    /// The first location whose path is empty.
    whole: Option<&'a Location<'tree>>,
}

impl<'a, 'tree> Model for FileLocations<'a, 'tree> {
    ghost use Rattle.protobuf_parse_locations.specs.Views.{FileSeen};

    ghost Value = { FileSeen };

    ghost use Rattle.protobuf_parse_locations.specs.Keeping.{seen, IsKept};

    ghost view = { seen };

    ghost invariant = { IsKept };
}

impl<'a, 'tree> FileLocations<'a, 'tree> {
    /// The declarations of the file, with the locations that its text has. The one error is that
    /// memory is short.
    pub fn of(
        alloc: Global,
        file: &FileDescriptorProto,
        info: &'a SourceCodeInfo<'tree>,
    ) -> Result<Self, AllocError>
        ensures declared { IfOk result
            (λ f. f.declarations ≡ declarations_of (file_view file.now)) }
        ensures located { IfOk result (λ f. f.locations ≡ info_view info.now) }
    {
        let declarations = declarations(alloc, file)?;
        let by_name = by_names(alloc, &declarations)?;
        let by_path = by_paths(alloc, &declarations)?;
        let locations = info.location.as_slice();
        let by_part = by_parts(alloc, locations)?;
        Ok(FileLocations {
            declarations,
            locations,
            by_name,
            by_path,
            by_part,
            whole: whole_of(locations),
        })
    }

    /// All that the file declares, in the order of the paths, as `declarations` gives it.
    pub fn declarations(&self) -> &[Declaration]
        ensures { map declaration_view result.now ≡ self.now.declarations }
    {
        &self.declarations
    }

    /// The first declaration of that full name.
    pub fn declaration(&self, full_name: &str) -> Option<&Declaration>
        ensures { declaration_found result
            ≡ spec.declaration_named self.now.declarations full_name.now }
    {
        at_position(&self.declarations, self.by_name.get(full_name).copied())
    }

    /// The first declaration whose path this is: which declaration a location is of.
    pub fn declaration_at(&self, path: &[u32]) -> Option<&Declaration>
        ensures { declaration_found result
            ≡ spec.declaration_at self.now.declarations path.now }
    {
        at_position(&self.declarations, self.by_path.get(path).copied())
    }

    /// The first location with that path.
    pub fn at(&self, path: &[u32]) -> Option<&'a Location<'tree>>
        ensures { location_found result ≡ spec.location_at self.now.locations path.now }
    {
        match path.split_last() {
            Some((number, before)) => self.part_at(before, *number),
            None => self.whole,
        }
    }

    /// The first location of a part of what stands at the path: of the field that has that number
    /// in the message of `descriptor.proto` that describes it. A field's label is 4, its number is
    /// 3, its type is 5 if it is a word and 6 if it is a name; an enum value's number is 2.
    pub fn part_at(&self, path: &[u32], number: u32) -> Option<&'a Location<'tree>>
        ensures { location_found result ≡ spec.part_at self.now.locations path.now number }
    {
        at_position(
            self.locations,
            position_of_part(&self.by_part, path, number),
        )
    }

    /// Where the name of the declaration at the path stands.
    pub fn name_at(&self, path: &[u32]) -> Option<&'a Location<'tree>>
        ensures { location_found result ≡ spec.part_at self.now.locations path.now 1 }
    {
        self.part_at(path, NAME)
    }

    /// Where the first declaration of that full name stands, from its first word to its end, with
    /// its comments. There is none for the message of a map's entries, which no text has.
    pub fn location(&self, full_name: &str) -> Option<&'a Location<'tree>>
        ensures { location_found result
            ≡ spec.location_named self.now.declarations self.now.locations full_name.now }
    {
        match self.declaration(full_name) {
            Some(declaration) => self.at(&declaration.path),
            None => None,
        }
    }

    /// Where a part of the first declaration of that full name stands, as `part_at` has it.
    pub fn part(&self, full_name: &str, number: u32) -> Option<&'a Location<'tree>>
        ensures { location_found result
            ≡ spec.part_named self.now.declarations self.now.locations full_name.now number }
    {
        match self.declaration(full_name) {
            Some(declaration) => self.part_at(&declaration.path, number),
            None => None,
        }
    }

    /// Where the name of the first declaration of that full name stands.
    pub fn name(&self, full_name: &str) -> Option<&'a Location<'tree>>
        ensures { location_found result
            ≡ spec.part_named self.now.declarations self.now.locations full_name.now 1 }
    {
        self.part(full_name, NAME)
    }
}

/// The first location whose path is empty.
fn whole_of<'a, 'tree>(locations: &'a [Location<'tree>]) -> Option<&'a Location<'tree>>
    ensures { option_copied result ≡ find (λ l. bytes_eq [] l.path.items) locations.now }
{
    locations.iter().find(|location| location.path.is_empty())
}
