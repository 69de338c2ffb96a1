//! Messages, with what stands in them.

ghost use Rattle.std.specs.Prelude.{◌≡◌, ◌++◌, OnOk, flat_map, map};
ghost use Rattle.protobuf_parse_model.specs.Descriptors.{message_view};
ghost use Rattle.protobuf_parse_model.specs.MessageParts.{message_parts};
ghost use Rattle.protobuf_parse_set_rules.specs.Rules as spec;
ghost use Rattle.protobuf_parse_set_rules.specs.Held.{sight_view};
ghost use Rattle.protobuf_parse_set_rules.specs.Views.{told};

use crate::declared::{check_enums, check_named, check_oneofs};
use crate::fields::{check_extensions, check_fields};
use crate::names::within;
use crate::sight::FileSight;
use crate::violation::SetViolation;
use protobuf_parse_model::DescriptorProto;
use std::alloc::{AllocError, Global};

/// Tells what is wrong with messages, each before those inside it.
#[cycle(message)]
pub fn check_messages(
    alloc: Global,
    found: &mut Vec<SetViolation>,
    sight: &FileSight<'_, '_>,
    file: &str,
    scope: &str,
    messages: &[DescriptorProto],
) -> Result<(), AllocError>
    ensures { OnOk result (told found.new ≡ told found.old
        ++ flat_map (spec.message_breaches (sight_view sight.now) file.now scope.now)
        (map message_view messages.now)) }
{
    'messages: for message in messages {
        check_message(alloc, found, sight, file, scope, message)?;
    }
    Ok(())
}

#[cycle(message)]
fn check_message(
    alloc: Global,
    found: &mut Vec<SetViolation>,
    sight: &FileSight<'_, '_>,
    file: &str,
    scope: &str,
    message: &DescriptorProto,
) -> Result<(), AllocError>
    ensures { OnOk result (told found.new ≡ told found.old
        ++ spec.message_breaches (sight_view sight.now) file.now scope.now
        (message_view message.now)) }
{
    check_named(alloc, found, file, scope, &message.name)?;
    let inside = within(alloc, scope, &message.name)?;
    check_parts(alloc, found, sight, file, &inside, message)?;
    check_messages(alloc, found, sight, file, &inside, &message.nested_type)
}

/// Tells what is wrong with all of a message but the messages inside it.
fn check_parts(
    alloc: Global,
    found: &mut Vec<SetViolation>,
    sight: &FileSight<'_, '_>,
    file: &str,
    inside: &str,
    message: &DescriptorProto,
) -> Result<(), AllocError>
    ensures { OnOk result (told found.new ≡ told found.old
        ++ spec.parts_breaches (sight_view sight.now) file.now inside.now
        (message_parts message.now)) }
{
    let oneofs = message.oneof_decl.len();
    check_fields(alloc, found, sight, file, inside, oneofs, &message.field)?;
    check_oneofs(alloc, found, file, inside, &message.oneof_decl)?;
    check_enums(alloc, found, file, inside, &message.enum_type)?;
    check_extensions(alloc, found, sight, file, inside, &message.extension)
}
