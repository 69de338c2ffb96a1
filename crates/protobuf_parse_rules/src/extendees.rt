//! What extensions in files for the lite runtime extend.

ghost use Rattle.std.specs.Prelude.{◌≡◌, ◌++◌, List, flat_map, map, OnOk};
ghost use Rattle.protobuf_parse_model.specs.Descriptors.{field_view};
ghost use Rattle.protobuf_parse_rules.specs.Bodies.{BodyParts};
ghost use Rattle.protobuf_parse_rules.specs.BodyViews.{body_view};
ghost use Rattle.protobuf_parse_rules.specs.Known.{Finds};
ghost use Rattle.protobuf_parse_rules.specs.KnownFiles.{known_file, path_named};
ghost use Rattle.protobuf_parse_rules.specs.Runtimes.{file_at};
ghost use Rattle.protobuf_parse_rules.specs.Wanted.{extendee_keys, lite_keys};

use crate::bodies::Body;
use crate::keys::{NO_TEXT, text_key};
use crate::runtimes::{Files, is_lite_path};
use protobuf_parse_model::FieldDescriptorProto;
use std::alloc::AllocError;

/// The keys of what the extensions of bodies in such files extend.
pub fn add_lite_keys<'a>(
    keys: &mut Vec<u64>,
    files: &Files<'a>,
    bodies: &'a [Body<'a>],
) -> Result<(), AllocError>
    ensures { OnOk result ((all : List BodyParts)
        → Finds known_file path_named files.now (flat_map file_at all)
        → keys.new.items ≡ keys.old.items ++ flat_map (lite_keys all) (map body_view bodies.now)) }
{
    'bodies: for body in bodies {
        add_body(keys, files, body)?;
    }
    Ok(())
}

fn add_body<'a>(
    keys: &mut Vec<u64>,
    files: &Files<'a>,
    body: &'a Body<'a>,
) -> Result<(), AllocError>
    ensures { OnOk result ((all : List BodyParts)
        → Finds known_file path_named files.now (flat_map file_at all)
        → keys.new.items ≡ keys.old.items ++ lite_keys all (body_view body.now)) }
{
    if is_lite_path(files, body.file) {
        add_extendees(keys, body.holds.extensions())?;
    }
    Ok(())
}

fn add_extendees(keys: &mut Vec<u64>, extensions: &[FieldDescriptorProto]) -> Result<(), AllocError>
    ensures { OnOk result (keys.new.items
        ≡ keys.old.items ++ flat_map extendee_keys (map field_view extensions.now)) }
{
    'extensions: for extension in extensions {
        add_extendee(keys, extension)?;
    }
    Ok(())
}

fn add_extendee(keys: &mut Vec<u64>, extension: &FieldDescriptorProto) -> Result<(), AllocError>
    ensures { OnOk result (keys.new.items
        ≡ keys.old.items ++ extendee_keys (field_view extension.now)) }
{
    match &extension.extendee {
        Some(name) => {
            keys.push(text_key(NO_TEXT, name))?;
            Ok(())
        }
        None => Ok(()),
    }
}
