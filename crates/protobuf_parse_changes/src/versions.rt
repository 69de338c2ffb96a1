//! What changed, from an old version of files to a new one.

ghost use Rattle.std.specs.Prelude.{◌≡◌, map, IfOk};
ghost use Rattle.protobuf_parse_model.specs.Descriptors.{file_view};
ghost use Rattle.protobuf_parse_changes.specs.Versions.{changes_of};
ghost use Rattle.protobuf_parse_changes.specs.Views.{told};

use crate::change::Change;
use crate::enums::enums_changes;
use crate::extensions::extensions_changes;
use crate::files::files_changes;
use crate::messages::messages_changes;
use crate::services::services_changes;
use crate::within::files_in;
use protobuf_parse_index::Index;
use std::alloc::{AllocError, Global};

/// What changed from the old files to the new ones: each change of a kind of [`ChangeKind`], with
/// its place.
///
/// Changes of files come first, then those of messages, enums, services and extensions, each in the
/// order in which the old index has them. Of a message, an enum and so on that the new files don't
/// declare, only that is told, and not what stood in it; but those that stood inside a message are
/// told each. What is new alone is told only where it breaks something. Look-ups in the index give
/// the first declaration of a name or number. The one error is that memory is short.
///
/// ```text
/// let old = Index::of(alloc, &old_files)?;
/// let new = Index::of(alloc, &new_files)?;
/// for change in &changes(alloc, &old, &new)? {
///     if change.kind.breaks() == Category::Wire { .. }
/// }
/// ```
///
/// [`ChangeKind`]: crate::ChangeKind
pub fn changes<'c>(
    alloc: Global,
    old: &'c Index<'_>,
    new: &'c Index<'_>,
) -> Result<Vec<Change<'c>>, AllocError>
    ensures { IfOk result
        (λ v. told v ≡ changes_of (map file_view old.now) (map file_view new.now)) }
{
    let mut changes = Vec::new(alloc);
    files_changes(alloc, &mut changes, new, files_in(old))?;
    messages_changes(&mut changes, old, new, old.messages())?;
    enums_changes(&mut changes, old, new, old.enums())?;
    services_changes(&mut changes, new, old.services())?;
    extensions_changes(&mut changes, new, old.extensions())?;
    Ok(changes)
}
