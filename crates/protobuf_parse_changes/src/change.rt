//! What is told of two versions of files.

ghost use Rattle.std.specs.Prelude.{◌≡◌, ◌++◌, ◌∷◌, [], OnOk};
ghost use Rattle.protobuf_parse_changes.specs.Changes.{changed, changed_if, inside, site};
ghost use Rattle.protobuf_parse_changes.specs.Views.{place_view, told};

use crate::kind::ChangeKind;
use std::alloc::AllocError;

/// A change, and where it is.
#[derive(Clone, Copy, Debug, PartialEq, Eq)]
pub struct Change<'c> {
    pub kind: ChangeKind,
    pub place: Place<'c>,
}

/// Where a change is: a file, what it declares, or a part of that.
#[derive(Clone, Copy, Debug, PartialEq, Eq)]
pub struct Place<'c> {
    /// The path of the file in the old version.
    pub file: &'c str,
    /// The full name of the message, enum, service or extension, with its first dot; nothing where
    /// the file itself is meant.
    pub name: &'c str,
    /// The name of the field, oneof, value or method inside it; of a file the name of the option.
    pub member: Option<&'c str>,
    /// The number of the field or value.
    pub number: Option<i32>,
}

impl<'c> Place<'c> {
    /// A part of that, which has the name, and the number if it has one.
    pub(crate) fn inside(self, name: &'c str, number: Option<i32>) -> Place<'c>
        ensures { place_view result ≡ inside (place_view self.entry) name.now number }
    {
        Place {
            file: self.file,
            name: self.name,
            member: Some(name),
            number,
        }
    }
}

/// What the file declares by the full name, or the file itself.
pub fn place_of<'c>(file: &'c str, name: &'c str) -> Place<'c>
    ensures { place_view result ≡ site file.now name.now }
{
    Place {
        file,
        name,
        member: None,
        number: None,
    }
}

/// Tells that change.
pub fn tell<'c>(
    changes: &mut Vec<Change<'c>>,
    kind: ChangeKind,
    place: Place<'c>,
) -> Result<(), AllocError>
    ensures { OnOk result (told changes.new
        ≡ told changes.old ++ changed kind (place_view place.entry) ∷ []) }
{
    changes.push(Change { kind, place })?;
    Ok(())
}

/// Tells that change where the test says so.
pub fn tell_if<'c>(
    changes: &mut Vec<Change<'c>>,
    test: bool,
    kind: ChangeKind,
    place: Place<'c>,
) -> Result<(), AllocError>
    ensures { OnOk result (told changes.new
        ≡ told changes.old ++ changed_if test kind (place_view place.entry)) }
{
    if test {
        tell(changes, kind, place)
    } else {
        Ok(())
    }
}
