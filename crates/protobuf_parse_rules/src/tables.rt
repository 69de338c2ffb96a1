//! Messages and enums by their full names.

ghost use Rattle.std.specs.Prelude.{◌≡◌, ◌++◌, [], ◌∷◌, List, map, flat_map, OnOk, IfOk};
ghost use Rattle.std.specs.Prelude.{option_map};
ghost use Rattle.std.specs.Borrow.{Bor};
ghost use Rattle.protobuf_parse_model.specs.Descriptors.{enum_view};
ghost use Rattle.protobuf_parse_rules.specs.Known.{Finds, KnowsTypes, enum_name, known_enum};
ghost use Rattle.protobuf_parse_rules.specs.Known.{known_message, message_name, owned_enum};
ghost use Rattle.protobuf_parse_rules.specs.KnownTables.{Knows};
ghost use Rattle.protobuf_parse_rules.specs.Lookups.{NamedEnum, NamedMessage, enum_named};
ghost use Rattle.protobuf_parse_rules.specs.Lookups.{enums_at, enum_of, message_at, message_named};
ghost use Rattle.protobuf_parse_rules.specs.Bodies.{BodyParts};
ghost use Rattle.protobuf_parse_rules.specs.BodyViews.{body_view, content_view};
ghost use Rattle.protobuf_parse_rules.specs.declared.known.KnownEnum.{KnownEnum};
ghost use Rattle.protobuf_parse_rules.specs.declared.known.KnownMessage.{KnownMessage};

use crate::bodies::{Body, Holds};
use crate::keys::keyed;
use crate::known::{KnownEnum, KnownMessage, enum_with, message_with};
use crate::uses::{Uses, no_uses, uses_of};
use protobuf_parse_model::EnumDescriptorProto;
use protobuf_parse_wire::name_within;
use std::alloc::{AllocError, Global};
use std::collections::BTreeMap;

/// An enum with its full name, the path of its file, and whether that is one of proto3.
#[derive(Drop)]
pub struct OwnedEnum<'a> {
    pub file: &'a str,
    pub name: String,
    pub proto3: bool,
    pub each: &'a EnumDescriptorProto,
}

/// The messages and the enums of all files; of those that have one name, the first.
#[derive(Drop)]
pub struct Types<'a> {
    pub messages: BTreeMap<(u64, &'a str), KnownMessage<'a>>,
    pub enums: BTreeMap<(u64, &'a str), KnownEnum<'a>>,
}

impl<'a> Types<'a> {
    /// What is known of the message of this full name.
    pub fn message(&self, name: &'a str) -> Option<&KnownMessage<'a>>
        ensures { (all : List BodyParts) → KnowsTypes self.now all →
            option_map (λ (m : Bor KnownMessage). known_message m.now) result
            ≡ message_named all name.now }
    {
        self.messages.get(&keyed(name))
    }

    /// What is known of the enum of this full name.
    pub fn enumeration(&self, name: &'a str) -> Option<&KnownEnum<'a>>
        ensures { (all : List BodyParts) → KnowsTypes self.now all →
            option_map (λ (e : Bor KnownEnum). known_enum e.now) result
            ≡ enum_named all name.now }
    {
        self.enums.get(&keyed(name))
    }
}

/// What is known of all files: their types, and what they need of each other.
#[derive(Drop)]
pub struct Tables<'a> {
    pub types: Types<'a>,
    pub uses: Uses<'a>,
}

impl<'a> Tables<'a> {
    /// What is known of the message of this full name.
    pub fn message(&self, name: &'a str) -> Option<&KnownMessage<'a>>
        ensures { (all : List BodyParts) → Knows self.now all →
            option_map (λ (m : Bor KnownMessage). known_message m.now) result
            ≡ message_named all name.now }
    {
        self.types.message(name)
    }

    /// What is known of the enum of this full name.
    pub fn enumeration(&self, name: &'a str) -> Option<&KnownEnum<'a>>
        ensures { (all : List BodyParts) → Knows self.now all →
            option_map (λ (e : Bor KnownEnum). known_enum e.now) result
            ≡ enum_named all name.now }
    {
        self.types.enumeration(name)
    }
}

/// Those of no files.
pub fn no_tables<'a>(alloc: Global) -> Tables<'a>
    ensures { Knows result [] }
{
    let types = no_types(alloc);
    let uses = no_uses(alloc);
    Tables { types, uses }
}

fn no_types<'a>(alloc: Global) -> Types<'a>
    ensures { KnowsTypes result [] }
{
    Types {
        messages: BTreeMap::new(alloc),
        enums: BTreeMap::new(alloc),
    }
}

/// The enums of the bodies, in order.
pub fn enums_of<'a>(alloc: Global, bodies: &[Body<'a>]) -> Result<Vec<OwnedEnum<'a>>, AllocError>
    ensures { IfOk result (λ v. map owned_enum v.items
        ≡ flat_map enums_at (map body_view bodies.now)) }
{
    let mut enums = Vec::new(alloc);
    'bodies: for body in bodies {
        add_enums(
            alloc,
            &mut enums,
            body.file,
            &body.scope,
            body.proto3,
            body.holds.enums(),
        )?;
    }
    Ok(enums)
}

fn add_enums<'a>(
    alloc: Global,
    enums: &mut Vec<OwnedEnum<'a>>,
    file: &'a str,
    scope: &str,
    proto3: bool,
    declared: &'a [EnumDescriptorProto],
) -> Result<(), AllocError>
    ensures { OnOk result (map owned_enum enums.new.items ≡ map owned_enum enums.old.items
        ++ map (enum_of file.now scope.now proto3) (map enum_view declared.now)) }
{
    'declared: for each in declared {
        let name = name_within(alloc, scope, &each.name)?;
        enums.push(OwnedEnum {
            file,
            name,
            proto3,
            each,
        })?;
    }
    Ok(())
}

/// The tables of these bodies and their enums.
pub fn tables_of<'a>(
    alloc: Global,
    bodies: &'a [Body<'a>],
    enums: &'a [OwnedEnum<'a>],
) -> Result<Tables<'a>, AllocError>
    ensures { IfOk result (λ t. map owned_enum enums.now
        ≡ flat_map enums_at (map body_view bodies.now) → Knows t (map body_view bodies.now)) }
{
    let types = types_of(alloc, bodies, enums)?;
    let uses = uses_of(alloc, &types, bodies)?;
    Ok(Tables { types, uses })
}

fn types_of<'a>(
    alloc: Global,
    bodies: &'a [Body<'a>],
    enums: &'a [OwnedEnum<'a>],
) -> Result<Types<'a>, AllocError>
    ensures { IfOk result (λ t. map owned_enum enums.now
        ≡ flat_map enums_at (map body_view bodies.now) → KnowsTypes t (map body_view bodies.now)) }
{
    let messages = messages_by_name(alloc, bodies)?;
    let enums = enums_by_name(alloc, enums)?;
    Ok(Types { messages, enums })
}

fn messages_by_name<'a>(
    alloc: Global,
    bodies: &'a [Body<'a>],
) -> Result<BTreeMap<(u64, &'a str), KnownMessage<'a>>, AllocError>
    ensures { IfOk result (λ m. Finds known_message message_name m
        (flat_map message_at (map body_view bodies.now))) }
{
    let mut messages = BTreeMap::new(alloc);
    'bodies: for body in bodies {
        add_message(alloc, &mut messages, body)?;
    }
    Ok(messages)
}

fn add_message<'a>(
    alloc: Global,
    messages: &mut BTreeMap<(u64, &'a str), KnownMessage<'a>>,
    body: &'a Body<'a>,
) -> Result<(), AllocError>
    ensures { OnOk result ((before : List NamedMessage)
        → Finds known_message message_name messages.old before
        → Finds known_message message_name messages.new
        (before ++ message_at (body_view body.now))) }
{
    let name = body.scope.as_str();
    match body.holds {
        Holds::Message(_) => put_message(alloc, messages, body.file, name, body.holds),
        Holds::File(_) => Ok(()),
    }
}

fn put_message<'a>(
    alloc: Global,
    messages: &mut BTreeMap<(u64, &'a str), KnownMessage<'a>>,
    file: &'a str,
    name: &'a str,
    holds: Holds<'a>,
) -> Result<(), AllocError>
    ensures { OnOk result ((before : List NamedMessage)
        → Finds known_message message_name messages.old before
        → Finds known_message message_name messages.new
        (before ++ record {
          file = file.now;
          name = name.now;
          what = content_view holds.entry;
        } ∷ [])) }
{
    let key = keyed(name);
    match messages.get(&key) {
        Some(_first) => Ok(()),
        None => {
            let message = message_with(alloc, file, name, holds)?;
            messages.insert(key, message)?;
            Ok(())
        }
    }
}

fn enums_by_name<'a>(
    alloc: Global,
    enums: &'a [OwnedEnum<'a>],
) -> Result<BTreeMap<(u64, &'a str), KnownEnum<'a>>, AllocError>
    ensures { IfOk result (λ m. Finds known_enum enum_name m (map owned_enum enums.now)) }
{
    let mut known = BTreeMap::new(alloc);
    'enums: for each in enums {
        put_enum(alloc, &mut known, each)?;
    }
    Ok(known)
}

fn put_enum<'a>(
    alloc: Global,
    known: &mut BTreeMap<(u64, &'a str), KnownEnum<'a>>,
    each: &'a OwnedEnum<'a>,
) -> Result<(), AllocError>
    ensures { OnOk result ((before : List NamedEnum)
        → Finds known_enum enum_name known.old before
        → Finds known_enum enum_name known.new (before ++ owned_enum each.now ∷ [])) }
{
    let name = each.name.as_str();
    let key = keyed(name);
    match known.get(&key) {
        Some(_first) => Ok(()),
        None => {
            let one = enum_with(alloc, each.file, name, each.proto3, each.each)?;
            known.insert(key, one)?;
            Ok(())
        }
    }
}
