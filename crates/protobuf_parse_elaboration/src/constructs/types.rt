//! The types of fields.

ghost use Rattle.std.specs.Prelude.{◌≡◌, ◌++◌, Some, None, option_map, string_bytes, IfOk};
ghost use Rattle.protobuf_parse_syntax.specs.Trees.{map_of, type_syntax};
ghost use Rattle.protobuf_parse_model.specs.Declarations.{full_name};
ghost use Rattle.protobuf_parse_model.specs.SeenFiles.{meaning_view};
ghost use Rattle.protobuf_parse_model.specs.Statements.{entry_name};
ghost use Rattle.protobuf_parse_model.specs.Environment.{missing_name, type_full_name};
ghost use Rattle.protobuf_parse_model.specs.Environment.{type_missing, type_named};
ghost use Rattle.protobuf_parse_model.specs.Faults.{placed};
ghost use Rattle.protobuf_parse_elaboration.specs.Parts.{resolved_view};
ghost use Rattle.protobuf_parse_elaboration.specs.Fields.{inner_type_faults, type_faults, type_of};
ghost use Rattle.protobuf_parse_elaboration.specs.Fields.{if_not_told, is_told_alike};
ghost use Rattle.protobuf_parse_elaboration.specs.Fields.{type_of_meaning};
ghost use Rattle.protobuf_parse_elaboration.specs.Viewpoints.{seen_from};
ghost use Rattle.protobuf_parse_elaboration.specs.Telling.{Tells};

use crate::constructs::viewpoint::Viewpoint;
use protobuf_parse_lexer::Place;
use protobuf_parse_model::{
    CustomOptions, ElabError, ElabErrorKind, FieldType, Meaning, entry_name, full_name, tell,
    type_named,
};
use protobuf_parse_syntax::Type;
use std::alloc::{AllocError, Global};

/// A type as a descriptor says it.
#[derive(Clone, Drop)]
pub struct ResolvedType {
    pub kind: FieldType,
    /// The full name of a message or an enum, with the first dot.
    pub name: Option<String>,
}

/// The type of the field of that name, as a descriptor says it.
///
/// Told at the place: E2 or E3 where a name means no message and no enum; E4 where a map stands in
/// a map.
// Inlined: 2.8 % of the instructions for scalars.
#[inline(always)]
pub fn resolved_type<C: CustomOptions>(
    at: &Viewpoint<'_, '_, C>,
    faults: &mut Vec<ElabError>,
    place: Place,
    name: &str,
    type_: &Type,
) -> Result<ResolvedType, AllocError>
    ensures value { let env = seen_from C.customs at.now in
        IfOk result (λ r. resolved_view r ≡ type_of env name.now (type_syntax type_.now)) }
    ensures faults { let env = seen_from C.customs at.now in
        Tells result faults.old faults.new
        (placed place (type_faults env name.now (type_syntax type_.now))) }
{
    match type_ {
        Type::Scalar(scalar) => Ok(scalar_type(FieldType::from(*scalar))),
        Type::Named(type_name) => named_type(at, faults, place, type_name),
        Type::Map(key, value) => {
            entry_types(at, faults, place, name, key, value)?;
            map_type(at, name)
        }
    }
}

fn scalar_type(kind: FieldType) -> ResolvedType
    ensures { resolved_view result ≡ record { kind = kind; name = None } }
{
    ResolvedType { kind, name: None }
}

/// The type that a name means. E2 or E3 at the place where it means none.
fn named_type<C: CustomOptions>(
    at: &Viewpoint<'_, '_, C>,
    faults: &mut Vec<ElabError>,
    place: Place,
    name: &str,
) -> Result<ResolvedType, AllocError>
    ensures value { let env = seen_from C.customs at.now in
        IfOk result (λ r. resolved_view r ≡ type_of_meaning (type_named env name.now)) }
    ensures faults { let env = seen_from C.customs at.now in
        Tells result faults.old faults.new (placed place (type_missing env name.now)) }
{
    match type_named(at.alloc, &at.context, name)? {
        Some(meaning) => Ok(declared_type(meaning)),
        None => {
            tell_missing(at.alloc, faults, place, name)?;
            Ok(scalar_type(FieldType::Message))
        }
    }
}

fn declared_type(meaning: Meaning) -> ResolvedType
    ensures { resolved_view result ≡ type_of_meaning (Some (meaning_view meaning)) }
{
    ResolvedType {
        kind: FieldType::from(meaning.kind),
        name: Some(meaning.name),
    }
}

/// E2 or E3 for a name.
fn tell_missing(
    alloc: Global,
    faults: &mut Vec<ElabError>,
    place: Place,
    name: &str,
) -> Result<(), AllocError>
    ensures { Tells result faults.old faults.new (placed place (missing_name name.now)) }
{
    let kind = if name.starts_with('.') {
        ElabErrorKind::NotFoundByAbsPath
    } else {
        ElabErrorKind::NotFoundByRelPath
    };
    tell(alloc, faults, place, kind, name)
}

/// The type of a key or a value in the map of that name.
///
/// Told at the place: E2 or E3 where a name means no message and no enum; E4 for a map.
fn inner_type<C: CustomOptions>(
    at: &Viewpoint<'_, '_, C>,
    faults: &mut Vec<ElabError>,
    place: Place,
    name: &str,
    type_: &Type,
) -> Result<ResolvedType, AllocError>
    ensures value { let env = seen_from C.customs at.now in
        IfOk result (λ r. resolved_view r ≡ type_of env name.now (type_syntax type_.now)) }
    ensures faults { let env = seen_from C.customs at.now in
        Tells result faults.old faults.new
        (placed place (inner_type_faults env name.now (type_syntax type_.now))) }
{
    match type_ {
        Type::Scalar(scalar) => Ok(scalar_type(FieldType::from(*scalar))),
        Type::Named(type_name) => named_type(at, faults, place, type_name),
        Type::Map(_, _) => {
            let kind = ElabErrorKind::DanglingTypeName;
            tell(at.alloc, faults, place, kind, name)?;
            map_type(at, name)
        }
    }
}

/// The types of the keys and of the values in the map of that name.
///
/// Told at the place, each once: E2 or E3 where a name means no message and no enum; E4 for a map.
pub fn entry_types<C: CustomOptions>(
    at: &Viewpoint<'_, '_, C>,
    faults: &mut Vec<ElabError>,
    place: Place,
    name: &str,
    key: &Type,
    value: &Type,
) -> Result<(ResolvedType, ResolvedType), AllocError>
    ensures keys { let env = seen_from C.customs at.now in
        IfOk result (λ r. resolved_view r.0 ≡ type_of env name.now (type_syntax key.now)) }
    ensures values { let env = seen_from C.customs at.now in
        IfOk result (λ r. resolved_view r.1 ≡ type_of env name.now (type_syntax value.now)) }
    ensures faults { let env = seen_from C.customs at.now in
        let map = map_of (type_syntax key.now) (type_syntax value.now) in
        Tells result faults.old faults.new (placed place (type_faults env name.now map)) }
{
    let key_type = inner_type(at, faults, place, name, key)?;
    let value_type = value_type(at, faults, place, name, key, &key_type, value)?;
    Ok((key_type, value_type))
}

/// The type of the values in the map of that name, where that of the keys is known.
fn value_type<C: CustomOptions>(
    at: &Viewpoint<'_, '_, C>,
    faults: &mut Vec<ElabError>,
    place: Place,
    name: &str,
    key: &Type,
    key_type: &ResolvedType,
    value: &Type,
) -> Result<ResolvedType, AllocError>
    requires { let env = seen_from C.customs at.now in
        resolved_view key_type.now ≡ type_of env name.now (type_syntax key.now) }
    ensures value { let env = seen_from C.customs at.now in
        IfOk result (λ r. resolved_view r ≡ type_of env name.now (type_syntax value.now)) }
    ensures faults { let env = seen_from C.customs at.now in
        Tells result faults.old faults.new (placed place
        (if_not_told (is_told_alike (type_syntax key.now) (type_syntax value.now))
        (inner_type_faults env name.now (type_syntax value.now)))) }
{
    if is_told_alike(key, value) {
        return key_type.clone();
    }
    inner_type(at, faults, place, name, value)
}

/// Whether the same is wrong in two types, if anything is.
fn is_told_alike(key: &Type, value: &Type) -> bool
    ensures { result ≡ is_told_alike (type_syntax key.now) (type_syntax value.now) }
{
    match key {
        Type::Scalar(_) => false,
        Type::Named(key_name) => match value {
            Type::Named(value_name) => key_name.as_str() == value_name.as_str(),
            Type::Scalar(_) | Type::Map(_, _) => false,
        },
        Type::Map(_, _) => match value {
            Type::Map(_, _) => true,
            Type::Scalar(_) | Type::Named(_) => false,
        },
    }
}

/// The type of the map of that name: the message of its entries.
pub fn map_type<C: CustomOptions>(
    at: &Viewpoint<'_, '_, C>,
    name: &str,
) -> Result<ResolvedType, AllocError>
    ensures { let env = seen_from C.customs at.now in
        IfOk result (λ r. resolved_view r ≡ record {
          kind = FieldType.Message;
          name = Some (full_name env.scope (entry_name name.now));
        }) }
{
    let entry = entry_name(at.alloc, name)?;
    Ok(ResolvedType {
        kind: FieldType::Message,
        name: Some(full_name(at.alloc, at.context.scope, &entry)?),
    })
}

/// The full name of the type that a name means, if it means one. E2 or E3 at the place where it
/// means none.
pub fn type_full_name<C: CustomOptions>(
    at: &Viewpoint<'_, '_, C>,
    faults: &mut Vec<ElabError>,
    place: Place,
    name: &str,
) -> Result<Option<String>, AllocError>
    ensures value { let env = seen_from C.customs at.now in
        IfOk result (λ s. option_map string_bytes s ≡ type_full_name env name.now) }
    ensures faults { let env = seen_from C.customs at.now in
        Tells result faults.old faults.new (placed place (type_missing env name.now)) }
{
    match type_named(at.alloc, &at.context, name)? {
        Some(meaning) => Ok(Some(meaning.name)),
        None => {
            tell_missing(at.alloc, faults, place, name)?;
            Ok(None)
        }
    }
}
