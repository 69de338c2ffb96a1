//! Who has what only one may have.

ghost use Rattle.std.specs.Prelude.{◌≡◌, ◌++◌, [], ◌∷◌, List, OnOk, IfOk, option_map};
ghost use Rattle.protobuf_parse_rules.specs.Alike.{value_alike_rule};
ghost use Rattle.protobuf_parse_rules.specs.Claims as claims;
ghost use Rattle.protobuf_parse_rules.specs.Claims.{Claim, first_claim};
ghost use Rattle.protobuf_parse_rules.specs.ClaimsKept.{Claims, Knows};
ghost use Rattle.protobuf_parse_rules.specs.ClaimsKept.{holder_view, thing_view};
ghost use Rattle.protobuf_parse_rules.specs.Findings.{finding_view, site_of};
ghost use Rattle.protobuf_parse_rules.specs.Held.{rules_of};
ghost use Rattle.protobuf_parse_rules.specs.Names.{name_rule};
ghost use Rattle.protobuf_parse_rules.specs.Numbers.{number_rule};

use crate::finding::{Finding, Spot, found_by};
use crate::kind::NamedKind;
use crate::rule::Rule;
use crate::tell::tell;
use crate::violation::Violation;
use std::alloc::{AllocError, Global};
use std::collections::BTreeMap;

/// A construct: its file, the scope in which it stands and its name, or else its own scope, and its
/// number; where full names are claimed, what it is.
#[derive(Clone, Copy)]
pub struct Holder<'a> {
    pub file: &'a str,
    pub scope: &'a str,
    pub name: Option<&'a str>,
    pub number: i32,
    pub kind: Option<NamedKind>,
}

/// What only one may have: a number of what has the name, or a name of number 0; in a scope, or in
/// none.
#[derive(Clone, Copy)]
pub struct Thing<'a> {
    pub number: i32,
    pub name: &'a str,
    pub scope: &'a str,
}

/// What is claimed.
#[derive(Clone, Copy)]
pub enum Held {
    /// A number of a message, by its name.
    Number,
    /// A number of an enum, by no name.
    Value,
    /// A name in JSON, in proto3 or proto2.
    JsonName(bool),
    /// A text that may stand once, by the rule of that.
    Text(Rule),
    /// A full name.
    Name,
    /// The name of a field, but for case and underscores.
    FieldAlike,
    /// The name of a value, but for case, underscores and the enum's name, in proto3 or proto2.
    ValueAlike(bool),
}

/// Who has which thing.
pub type Holders<'a> = BTreeMap<(i32, &'a str, &'a str), Holder<'a>>;

/// Tells the construct that claims a thing if someone has it already.
pub fn check_claim<'a>(
    alloc: Global,
    held: Held,
    holders: &mut Holders<'a>,
    told: &mut Vec<Violation>,
    thing: Thing<'a>,
    by: Holder<'a>,
) -> Result<(), AllocError>
    ensures { OnOk result (Claims (rules_of held) holders.old holders.new told.old told.new
        (record { thing = thing_view thing.entry; who = holder_view by.entry } ∷ [])) }
{
    match holder_of(holders, thing, by)? {
        Some(other) => {
            let found = taken(held, thing, by, other);
            tell(alloc, told, spot_of(by), &found)
        }
        None => Ok(()),
    }
}

/// Who has the thing already; else it is this one's.
fn holder_of<'a>(
    holders: &mut Holders<'a>,
    thing: Thing<'a>,
    by: Holder<'a>,
) -> Result<Option<Holder<'a>>, AllocError>
    ensures { IfOk result (λ found. (before : List Claim) → Knows holders.old before →
        Knows holders.new (before
        ++ record { thing = thing_view thing.entry; who = holder_view by.entry } ∷ [])
        × (option_map holder_view found
        ≡ option_map (λ (o : Claim). o.who) (first_claim before (thing_view thing.entry)))) }
{
    let Thing {
        number,
        name,
        scope,
    } = thing;
    match holders.get(&(number, name, scope)) {
        Some(other) => Ok(Some(*other)),
        None => {
            holders.insert((number, name, scope), by)?;
            Ok(None)
        }
    }
}

/// Who has the thing.
pub fn first_of<'a>(holders: &Holders<'a>, thing: Thing<'a>) -> Option<Holder<'a>>
    ensures { (before : List Claim) → Knows holders.now before → option_map holder_view result
        ≡ option_map (λ (o : Claim). o.who) (first_claim before (thing_view thing.entry)) }
{
    let Thing {
        number,
        name,
        scope,
    } = thing;
    match holders.get(&(number, name, scope)) {
        Some(other) => Some(*other),
        None => None,
    }
}

/// Where the construct is told of.
pub fn spot_of<'a>(of: Holder<'a>) -> Spot<'a>
    ensures { site_of result ≡ record {
      file = (holder_view of.entry).file;
      construct = (holder_view of.entry).name;
    } }
{
    Spot {
        file: of.file,
        scope: of.scope,
        name: of.name,
    }
}

/// What is broken where another one has the thing.
fn taken<'a>(held: Held, thing: Thing<'a>, by: Holder<'a>, first: Holder<'a>) -> Option<Finding<'a>>
    ensures { option_map finding_view result
        ≡ rules_of held (record { thing = thing_view thing.entry; who = holder_view by.entry })
        (holder_view first.entry) }
{
    let number = thing.number;
    let (rule, name, by) = match held {
        Held::Number => return number_taken(thing, by, first),
        Held::Value => (Rule::ValueInUse { number }, None, Some(first)),
        Held::JsonName(true) => (Rule::JsonNameInUse, Some(thing.name), Some(first)),
        Held::JsonName(false) => (Rule::JsonNameInUseProto2, Some(thing.name), Some(first)),
        Held::Text(rule) => (rule, Some(thing.name), None),
        Held::FieldAlike => (Rule::JsonNamesAlike, None, Some(first)),
        Held::Name => return name_taken(by, first),
        Held::ValueAlike(proto3) => return value_alike(proto3, by, first),
    };
    Some(Finding { rule, name, by })
}

/// What is broken where something else has the number.
fn number_taken<'a>(thing: Thing<'a>, by: Holder<'a>, first: Holder<'a>) -> Option<Finding<'a>>
    ensures { option_map finding_view result
        ≡ number_rule (record { thing = thing_view thing.entry; who = holder_view by.entry })
        (holder_view first.entry) }
{
    let number = thing.number;
    let rule = if by.file == first.file {
        Rule::NumberInUse { number }
    } else {
        Rule::NumberInUseElsewhere { number }
    };
    Some(Finding {
        rule,
        name: Some(thing.name),
        by: Some(first),
    })
}

/// What is broken where another value has the name.
fn value_alike<'a>(proto3: bool, by: Holder<'a>, first: Holder<'a>) -> Option<Finding<'a>>
    ensures { (thing : claims.Thing) → option_map finding_view result
        ≡ value_alike_rule proto3 (record { thing = thing; who = holder_view by.entry })
        (holder_view first.entry) }
{
    if by.number == first.number {
        return None;
    }
    let rule = if proto3 {
        Rule::ValueNamesAlike
    } else {
        Rule::ValueNamesAlikeProto2
    };
    Some(Finding {
        rule,
        name: None,
        by: Some(first),
    })
}

/// What is broken where something else has the full name.
fn name_taken<'a>(by: Holder<'a>, first: Holder<'a>) -> Option<Finding<'a>>
    ensures { (thing : claims.Thing) → option_map finding_view result
        ≡ name_rule (record { thing = thing; who = holder_view by.entry })
        (holder_view first.entry) }
{
    match (by.kind?, first.kind?) {
        (NamedKind::Package, NamedKind::Package) => None,
        (kind, first_kind) => found_by(
            Rule::NameInUse {
                kind,
                first: first_kind,
            },
            first.file,
        ),
    }
}
