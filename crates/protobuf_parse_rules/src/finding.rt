//! What was found, before its texts are copied.

ghost use Rattle.std.specs.Prelude.{◌≡◌, IfOk, Some, option_map, string_bytes};
ghost use Rattle.protobuf_parse_rules.specs.Findings.{finding_view};
ghost use Rattle.protobuf_parse_rules.specs.ClaimsKept.{spot_name};
ghost use Rattle.protobuf_parse_rules.specs.Rules.{broken, broken_by, broken_if};

use crate::claims::Holder;
use crate::rule::Rule;
use protobuf_parse_wire::name_within;
use std::alloc::{AllocError, Global};

/// A rule that is broken, what it speaks of beside the construct, and who has already what only one
/// may have.
#[derive(Clone, Copy)]
pub struct Finding<'a> {
    pub rule: Rule,
    pub name: Option<&'a str>,
    pub by: Option<Holder<'a>>,
}

/// The rule is broken.
pub fn found<'a>(rule: Rule) -> Option<Finding<'a>>
    ensures { option_map finding_view result ≡ Some (broken rule) }
{
    Some(Finding {
        rule,
        name: None,
        by: None,
    })
}

/// The rule is broken where the test says so.
pub fn found_if<'a>(test: bool, rule: Rule) -> Option<Finding<'a>>
    ensures { option_map finding_view result ≡ broken_if test rule }
{
    if test { found(rule) } else { None }
}

/// The rule is broken, and speaks of that.
pub fn found_by<'a>(rule: Rule, name: &'a str) -> Option<Finding<'a>>
    ensures { option_map finding_view result ≡ Some (broken_by rule name.now) }
{
    Some(Finding {
        rule,
        name: Some(name),
        by: None,
    })
}

/// Where something was found: in a file, what has the name in the scope, or else what has the
/// scope.
#[derive(Clone, Copy)]
pub struct Spot<'a> {
    pub file: &'a str,
    pub scope: &'a str,
    pub name: Option<&'a str>,
}

/// Its full name.
pub fn spot_name(alloc: Global, of: Spot<'_>) -> Result<String, AllocError>
    ensures { IfOk result (λ s. string_bytes s ≡ spot_name of.entry.scope.now of.entry.name) }
{
    match of.name {
        Some(name) => name_within(alloc, of.scope, name),
        None => String::from_str(alloc, of.scope),
    }
}
