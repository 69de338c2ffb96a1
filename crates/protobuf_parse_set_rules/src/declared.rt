//! Enums and oneofs.

ghost use Rattle.std.specs.Prelude.{◌≡◌, ◌++◌, OnOk, flat_map, map};
ghost use Rattle.protobuf_parse_model.specs.Descriptors.{enum_value_view, enum_view, oneof_view};
ghost use Rattle.protobuf_parse_set_rules.specs.Rules as spec;
ghost use Rattle.protobuf_parse_set_rules.specs.Views.{told};

use crate::names::check_name;
use crate::violation::{SetViolation, Spot};
use protobuf_parse_model::{EnumDescriptorProto, EnumValueDescriptorProto, OneofDescriptorProto};
use std::alloc::{AllocError, Global};

/// Tells what is wrong with the name of what has it in the scope.
pub fn check_named(
    alloc: Global,
    found: &mut Vec<SetViolation>,
    file: &str,
    scope: &str,
    name: &str,
) -> Result<(), AllocError>
    ensures { OnOk result (told found.new ≡ told found.old
        ++ spec.name_breaches (spec.named file.now scope.now name.now) name.now) }
{
    let at = Spot {
        file,
        scope,
        name: Some(name),
    };
    check_name(alloc, found, at, name)
}

/// Tells what is wrong with oneofs.
pub fn check_oneofs(
    alloc: Global,
    found: &mut Vec<SetViolation>,
    file: &str,
    scope: &str,
    oneofs: &[OneofDescriptorProto],
) -> Result<(), AllocError>
    ensures { OnOk result (told found.new ≡ told found.old
        ++ flat_map (spec.oneof_name_breaches file.now scope.now) (map oneof_view oneofs.now)) }
{
    'oneofs: for oneof in oneofs {
        check_named(alloc, found, file, scope, &oneof.name)?;
    }
    Ok(())
}

/// Tells what is wrong with enums and their values.
pub fn check_enums(
    alloc: Global,
    found: &mut Vec<SetViolation>,
    file: &str,
    scope: &str,
    enums: &[EnumDescriptorProto],
) -> Result<(), AllocError>
    ensures { OnOk result (told found.new ≡ told found.old
        ++ flat_map (spec.enum_breaches file.now scope.now) (map enum_view enums.now)) }
{
    'enums: for each in enums {
        check_enum(alloc, found, file, scope, each)?;
    }
    Ok(())
}

fn check_enum(
    alloc: Global,
    found: &mut Vec<SetViolation>,
    file: &str,
    scope: &str,
    each: &EnumDescriptorProto,
) -> Result<(), AllocError>
    ensures { OnOk result (told found.new ≡ told found.old
        ++ spec.enum_breaches file.now scope.now (enum_view each.now)) }
{
    check_named(alloc, found, file, scope, &each.name)?;
    check_values(alloc, found, file, scope, &each.value)
}

fn check_values(
    alloc: Global,
    found: &mut Vec<SetViolation>,
    file: &str,
    scope: &str,
    values: &[EnumValueDescriptorProto],
) -> Result<(), AllocError>
    ensures { OnOk result (told found.new ≡ told found.old
        ++ flat_map (spec.value_breaches file.now scope.now) (map enum_value_view values.now)) }
{
    'values: for value in values {
        check_named(alloc, found, file, scope, &value.name)?;
    }
    Ok(())
}
