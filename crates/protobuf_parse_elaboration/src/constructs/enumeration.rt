//! Enums.

ghost use Rattle.std.specs.Prelude.{◌≡◌, ◌++◌, map, flat_map, option_map, string_bytes, IfOk};
ghost use Rattle.std.specs.Prelude.{OnOk};
ghost use Rattle.protobuf_parse_syntax.specs.Trees as tree;
ghost use Rattle.protobuf_parse_model.specs.BuiltinOptions.{enum_table};
ghost use Rattle.protobuf_parse_model.specs.Descriptors as described;
ghost use Rattle.protobuf_parse_model.specs.Duplicates.{duplicates};
ghost use Rattle.protobuf_parse_model.specs.Environment.{customs_bytes};
ghost use Rattle.protobuf_parse_model.specs.declared.customs.Construct.TheVariants as of;
ghost use Rattle.protobuf_parse_model.specs.Options.{enum_options_view};
ghost use Rattle.protobuf_parse_model.specs.OptionMessages as sets;
ghost use Rattle.protobuf_parse_elaboration.specs.ConstructOptions.{construct_faults};
ghost use Rattle.protobuf_parse_elaboration.specs.Enums as enums;
ghost use Rattle.protobuf_parse_elaboration.specs.Viewpoints.{seen_from};
ghost use Rattle.protobuf_parse_elaboration.specs.Telling.{Tells};

use crate::constructs::declared::DeclaredAs;
use crate::constructs::lists::shrunk;
use crate::constructs::options::{
    custom_bytes, enum_options, enum_value_options, options_in, options_of,
};
use crate::constructs::reserved::{push_clones, push_inclusive};
use crate::constructs::told::tell_names;
use crate::constructs::viewpoint::Viewpoint;
use protobuf_parse_model::{
    Construct, CustomOptions, ElabError, EnumDescriptorProto, EnumOptions, EnumReservedRange,
    EnumValueDescriptorProto,
};
use protobuf_parse_syntax::{EnumStatement, EnumValue, Enumeration, Reserved};
use std::alloc::{AllocError, Global};

/// The descriptor of an enum.
///
/// E1 where two of its values have one name, and the faults of its options.
pub fn enum_descriptor<C: CustomOptions>(
    at: &Viewpoint<'_, '_, C>,
    faults: &mut Vec<ElabError>,
    enumeration: &Enumeration,
) -> Result<EnumDescriptorProto, AllocError>
    ensures value { let env = seen_from C.customs at.now in
        IfOk result (λ d. described.enum_view d
        ≡ enums.enum_of env (tree.enum_syntax enumeration.now)) }
    ensures faults { let env = seen_from C.customs at.now in
        Tells result faults.old faults.new
        (enums.enum_faults env (tree.enum_syntax enumeration.now)) }
{
    let value = enum_values(at, faults, &enumeration.body)?;
    let reserved = reserved(at.alloc, &enumeration.body)?;
    let name = enumeration.name.clone()?;
    let options = told_options(at, faults, &enumeration.body)?;
    Ok(EnumDescriptorProto {
        name,
        value,
        reserved_range: reserved.ranges,
        reserved_name: reserved.names,
        options,
    })
}

/// The descriptors of the values. E1 where two have one name.
fn enum_values<C: CustomOptions>(
    at: &Viewpoint<'_, '_, C>,
    faults: &mut Vec<ElabError>,
    body: &[EnumStatement],
) -> Result<Vec<EnumValueDescriptorProto>, AllocError>
    ensures value { let env = seen_from C.customs at.now in
        let vs = flat_map enums.enum_values (map tree.enum_statement_syntax body.now) in
        IfOk result (λ v. map described.enum_value_view v.items ≡ map (enums.value_of env) vs) }
    ensures faults { let env = seen_from C.customs at.now in
        let vs = flat_map enums.enum_values (map tree.enum_statement_syntax body.now) in
        Tells result faults.old faults.new (enums.values_faults env vs) }
{
    let values = value_descriptors(at, faults, body)?;
    tell_value_names(at, faults, body, &values)?;
    Ok(shrunk(values))
}

/// E1 where two of the values have one name. The descriptors are theirs.
fn tell_value_names<C: CustomOptions>(
    at: &Viewpoint<'_, '_, C>,
    faults: &mut Vec<ElabError>,
    body: &[EnumStatement],
    descriptors: &[EnumValueDescriptorProto],
) -> Result<(), AllocError>
    requires { let env = seen_from C.customs at.now in
        map described.enum_value_view descriptors.now
        ≡ map (enums.value_of env)
        (flat_map enums.enum_values (map tree.enum_statement_syntax body.now)) }
    ensures { let vs = flat_map enums.enum_values (map tree.enum_statement_syntax body.now) in
        Tells result faults.old faults.new (duplicates (map enums.value_named vs)) }
{
    let syntax = at.context.syntax;
    tell_names(
        at.alloc,
        faults,
        DeclaredAs::Other,
        syntax,
        body,
        descriptors,
    )
}

/// The descriptors of the values.
fn value_descriptors<C: CustomOptions>(
    at: &Viewpoint<'_, '_, C>,
    faults: &mut Vec<ElabError>,
    body: &[EnumStatement],
) -> Result<Vec<EnumValueDescriptorProto>, AllocError>
    ensures value { let env = seen_from C.customs at.now in
        let vs = flat_map enums.enum_values (map tree.enum_statement_syntax body.now) in
        IfOk result (λ v. map described.enum_value_view v.items ≡ map (enums.value_of env) vs) }
    ensures faults { let env = seen_from C.customs at.now in
        let vs = flat_map enums.enum_values (map tree.enum_statement_syntax body.now) in
        Tells result faults.old faults.new (flat_map (enums.value_faults env) vs) }
{
    let mut descriptors = Vec::with_capacity(at.alloc, body.len())?;
    for statement in body {
        if let EnumStatement::Value(value) = statement {
            descriptors.push(value_descriptor(at, faults, value)?)?;
        }
    }
    Ok(descriptors)
}

fn value_descriptor<C: CustomOptions>(
    at: &Viewpoint<'_, '_, C>,
    faults: &mut Vec<ElabError>,
    value: &EnumValue,
) -> Result<EnumValueDescriptorProto, AllocError>
    ensures value { let env = seen_from C.customs at.now in
        IfOk result (λ d. described.enum_value_view d
        ≡ enums.value_of env (tree.value_syntax value.now)) }
    ensures faults { let env = seen_from C.customs at.now in
        Tells result faults.old faults.new (enums.value_faults env (tree.value_syntax value.now)) }
{
    let options = options_of(at.alloc, &value.options)?;
    let bytes = custom_bytes(at, faults, Construct::EnumValue, &options)?;
    Ok(EnumValueDescriptorProto {
        name: value.name.clone()?,
        number: value.number,
        options: enum_value_options(&options, bytes),
    })
}

/// What the options of an enum say.
#[tactic(auto, using(crate::proofs::StatedOptions::enum_options_set))]
fn told_options<C: CustomOptions>(
    at: &Viewpoint<'_, '_, C>,
    faults: &mut Vec<ElabError>,
    body: &[EnumStatement],
) -> Result<Option<EnumOptions>, AllocError>
    ensures value { let env = seen_from C.customs at.now in
        let os = flat_map enums.options_in_enum (map tree.enum_statement_syntax body.now) in
        IfOk result (λ o. option_map enum_options_view o
        ≡ sets.enum_options (customs_bytes env of.Enum os) os) }
    ensures faults { let env = seen_from C.customs at.now in
        let os = flat_map enums.options_in_enum (map tree.enum_statement_syntax body.now) in
        Tells result faults.old faults.new (construct_faults env of.Enum enum_table os) }
{
    let options = options_in(at.alloc, body)?;
    let bytes = custom_bytes(at, faults, Construct::Enum, &options)?;
    Ok(enum_options(&options, bytes))
}

/// The ranges and the names that an enum reserves.
#[derive(Drop)]
struct EnumReserved {
    ranges: Vec<EnumReservedRange>,
    names: Vec<String>,
}

fn reserved(alloc: Global, body: &[EnumStatement]) -> Result<EnumReserved, AllocError>
    ensures ranges { let ss = map tree.enum_statement_syntax body.now in
        IfOk result (λ r. map described.enum_range_view r.ranges.items
        ≡ map enums.inclusive (flat_map enums.ranges_reserved (flat_map enums.enum_reserves ss))) }
    ensures names { let ss = map tree.enum_statement_syntax body.now in
        IfOk result (λ r. map string_bytes r.names.items
        ≡ flat_map enums.names_reserved (flat_map enums.enum_reserves ss)) }
{
    let mut ranges = Vec::new(alloc);
    let mut names = Vec::new(alloc);
    for statement in body {
        if let EnumStatement::Reserved(statement) = statement {
            push_reserved(&mut ranges, &mut names, &statement.reserved)?;
        }
    }
    Ok(EnumReserved { ranges, names })
}

/// Adds what a statement reserves.
fn push_reserved(
    ranges: &mut Vec<EnumReservedRange>,
    names: &mut Vec<String>,
    reserved: &Reserved,
) -> Result<(), AllocError>
    ensures ranges { let r = tree.reserved_syntax reserved.now in
        OnOk result (map described.enum_range_view ranges.new.items
        ≡ map described.enum_range_view ranges.old.items
        ++ map enums.inclusive (enums.ranges_reserved r)) }
    ensures names { let r = tree.reserved_syntax reserved.now in
        OnOk result (map string_bytes names.new.items
        ≡ map string_bytes names.old.items ++ enums.names_reserved r) }
{
    match reserved {
        Reserved::Ranges(more) => push_inclusive(ranges, more),
        Reserved::Names(more) => push_clones(names, more),
    }
}
