//! Types, labels and defaults, which fields and extensions have.

ghost use Rattle.std.specs.Prelude.{◌≡◌, ◌++◌, OnOk};
ghost use Rattle.protobuf_parse_model.specs.Descriptors.{field_view};
ghost use Rattle.protobuf_parse_changes.specs.Fields as spec;
ghost use Rattle.protobuf_parse_changes.specs.Views.{place_view, told};

use crate::change::{Change, Place, tell, tell_if};
use crate::kind::ChangeKind;
use crate::same::same_text;
use protobuf_parse_model::{FieldDescriptorProto, Label, type_word};
use std::alloc::AllocError;

/// Tells what changed of the type, the label and the default.
pub fn shape_changes<'c>(
    changes: &mut Vec<Change<'c>>,
    at: Place<'c>,
    old: &FieldDescriptorProto,
    new: &FieldDescriptorProto,
) -> Result<(), AllocError>
    ensures { OnOk result (told changes.new ≡ told changes.old
        ++ spec.shape_changes (place_view at.entry) (field_view old.now) (field_view new.now)) }
{
    type_changes(changes, at, old, new)?;
    label_changes(changes, at, old.label, new.label)?;
    let other = !same_text(&old.default_value, &new.default_value);
    tell_if(changes, other, ChangeKind::DefaultChanged, at)
}

fn type_changes<'c>(
    changes: &mut Vec<Change<'c>>,
    at: Place<'c>,
    old: &FieldDescriptorProto,
    new: &FieldDescriptorProto,
) -> Result<(), AllocError>
    ensures { OnOk result (told changes.new ≡ told changes.old
        ++ spec.type_changes (place_view at.entry) (field_view old.now) (field_view new.now)) }
{
    if type_word(old.type_) == type_word(new.type_) {
        let other = !same_text(&old.type_name, &new.type_name);
        tell_if(changes, other, ChangeKind::TypeNameChanged, at)
    } else {
        tell(changes, ChangeKind::TypeChanged, at)
    }
}

fn label_changes<'c>(
    changes: &mut Vec<Change<'c>>,
    at: Place<'c>,
    old: Label,
    new: Label,
) -> Result<(), AllocError>
    ensures { OnOk result (told changes.new ≡ told changes.old
        ++ spec.label_changes (place_view at.entry) old new) }
{
    let repeated = is_repeated(old) != is_repeated(new);
    tell_if(changes, repeated, ChangeKind::RepeatedChanged, at)?;
    let required = is_required(old) != is_required(new);
    tell_if(changes, required, ChangeKind::RequiredChanged, at)
}

fn is_repeated(label: Label) -> bool
    ensures { result ≡ spec.is_repeated label }
{
    matches!(label, Label::Repeated)
}

/// Whether the label is `required`.
pub fn is_required(label: Label) -> bool
    ensures { result ≡ spec.is_required label }
{
    matches!(label, Label::Required)
}
