//! How deep messages are nested.

ghost use Rattle.std.specs.Prelude.{◌≡◌, ◌++◌, [], ◌∷◌, Some, flat_map, map, OnOk};
ghost use Rattle.protobuf_parse_model.specs.Descriptors.{message_view};
ghost use Rattle.protobuf_parse_rules.specs.BodyViews.{body_view};
ghost use Rattle.protobuf_parse_rules.specs.Nesting.{deep_messages, too_deep};
ghost use Rattle.protobuf_parse_rules.specs.Rules.{breaches_at, breaches_told, broken};
ghost use Rattle.protobuf_parse_rules.specs.declared.rule.Rule.TheVariants as rule;
ghost use Rattle.protobuf_parse_wire.specs.Declarations.{name_within};

use crate::bodies::{Body, Holds};
use crate::finding::{Spot, found};
use crate::rule::Rule;
use crate::tell::tell;
use crate::violation::Violation;
use protobuf_parse_model::DescriptorProto;
use protobuf_parse_wire::name_within;
use std::alloc::{AllocError, Global};

/// Tells each message of a file that is nested too deep; of a message's body nothing.
pub fn check_nesting(
    alloc: Global,
    told: &mut Vec<Violation>,
    body: &Body<'_>,
) -> Result<(), AllocError>
    ensures { OnOk result (breaches_told told.new ≡ breaches_told told.old
        ++ deep_messages (body_view body.now)) }
{
    match body.holds {
        Holds::Message(_) => Ok(()),
        Holds::File(file) => {
            check_messages(alloc, told, body.file, &body.scope, 0, &file.message_type)
        }
    }
}

/// Tells those of messages in the scope around which so many stand.
#[cycle(nesting)]
fn check_messages(
    alloc: Global,
    told: &mut Vec<Violation>,
    file: &str,
    scope: &str,
    around: usize,
    messages: &[DescriptorProto],
) -> Result<(), AllocError>
    ensures { OnOk result (breaches_told told.new ≡ breaches_told told.old
        ++ flat_map (too_deep file.now scope.now around) (map message_view messages.now)) }
{
    'messages: for message in messages {
        check_message(alloc, told, file, scope, around, message)?;
    }
    Ok(())
}

#[cycle(nesting)]
fn check_message(
    alloc: Global,
    told: &mut Vec<Violation>,
    file: &str,
    scope: &str,
    around: usize,
    message: &DescriptorProto,
) -> Result<(), AllocError>
    ensures { OnOk result (breaches_told told.new ≡ breaches_told told.old
        ++ too_deep file.now scope.now around (message_view message.now)) }
{
    if around > 30 {
        return tell_deep(alloc, told, file, scope, &message.name);
    }
    if message.nested_type.is_empty() {
        return Ok(());
    }
    let name = name_within(alloc, scope, &message.name)?;
    check_messages(alloc, told, file, &name, around + 1, &message.nested_type)
}

fn tell_deep(
    alloc: Global,
    told: &mut Vec<Violation>,
    file: &str,
    scope: &str,
    name: &str,
) -> Result<(), AllocError>
    ensures { OnOk result (breaches_told told.new ≡ breaches_told told.old
        ++ breaches_at (record { file = file.now; construct = name_within scope.now name.now })
        (Some (broken rule.NestedTooDeep) ∷ [])) }
{
    let at = Spot {
        file,
        scope,
        name: Some(name),
    };
    tell(alloc, told, at, &found(Rule::NestedTooDeep))
}
