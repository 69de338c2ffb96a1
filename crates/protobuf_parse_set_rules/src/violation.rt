//! What is told of a construct that breaks a rule.

ghost use Rattle.std.specs.Prelude.{◌≡◌, ◌++◌, [], ◌∷◌, IfOk, OnOk, string_bytes};
ghost use Rattle.protobuf_parse_set_rules.specs.Breaches.{breach, breach_if};
ghost use Rattle.protobuf_parse_set_rules.specs.Held.{site_of, spot_name};
ghost use Rattle.protobuf_parse_set_rules.specs.Views.{told};

use crate::names::within;
use crate::rule::SetRule;
use std::alloc::{AllocError, Global};
use std::fmt;

/// A construct that breaks a rule.
#[derive(Debug, PartialEq, Eq, Drop)]
pub struct SetViolation {
    /// The path of the file.
    pub file: String,
    /// The full name of the construct, with its first dot; for a file its package, or nothing.
    pub construct: String,
    pub rule: SetRule,
    /// What the rule speaks of beside the construct, where [`SetRule`] says that it does, or
    /// nothing.
    pub name: String,
}

impl fmt::Display for SetViolation {
    fn fmt<W: fmt::Write>(&self, f: &mut fmt::Formatter<W>) -> fmt::Result {
        let SetViolation {
            file,
            construct,
            rule,
            name,
        } = self;
        write!(f, "{file}: ")?;
        if !construct.is_empty() {
            write!(f, "{construct}: ")?;
        }
        write!(f, "{}: {rule}", rule.code())?;
        if !name.is_empty() {
            write!(f, ": {name}")?;
        }
        Ok(())
    }
}

/// Where something is told: in a file, of what has the name in the scope, or else of what has the
/// scope.
#[derive(Clone, Copy)]
pub struct Spot<'a> {
    pub file: &'a str,
    pub scope: &'a str,
    pub name: Option<&'a str>,
}

/// Its full name.
fn spot_name(alloc: Global, of: Spot<'_>) -> Result<String, AllocError>
    ensures { IfOk result (λ s. string_bytes s ≡ spot_name of.entry.scope.now of.entry.name) }
{
    match of.name {
        Some(name) => within(alloc, of.scope, name),
        None => String::from_str(alloc, of.scope),
    }
}

/// Tells the rule, which is broken there.
fn tell(
    alloc: Global,
    found: &mut Vec<SetViolation>,
    at: Spot<'_>,
    rule: SetRule,
    name: &str,
) -> Result<(), AllocError>
    ensures { OnOk result (told found.new
        ≡ told found.old ++ breach (site_of at.entry) rule name.now ∷ []) }
{
    let file = String::from_str(alloc, at.file)?;
    let construct = spot_name(alloc, at)?;
    let name = String::from_str(alloc, name)?;
    found.push(SetViolation {
        file,
        construct,
        rule,
        name,
    })?;
    Ok(())
}

/// Tells the rule where the test says so.
pub fn tell_if(
    alloc: Global,
    found: &mut Vec<SetViolation>,
    test: bool,
    at: Spot<'_>,
    rule: SetRule,
    name: &str,
) -> Result<(), AllocError>
    ensures { OnOk result (told found.new
        ≡ told found.old ++ breach_if test (site_of at.entry) rule name.now) }
{
    if test {
        tell(alloc, found, at, rule, name)
    } else {
        Ok(())
    }
}
