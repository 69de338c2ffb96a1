//! Names.

ghost use Rattle.std.specs.Prelude.{◌≡◌, ◌++◌, IfOk, OnOk, option_map, string_bytes};
ghost use Rattle.std.specs.List.{list_all};
ghost use Rattle.protobuf_parse_set_rules.specs.Names as spec;
ghost use Rattle.protobuf_parse_set_rules.specs.Rules.{name_breaches, package_breaches};
ghost use Rattle.protobuf_parse_set_rules.specs.Held.{site_of};
ghost use Rattle.protobuf_parse_set_rules.specs.Views.{told};

use crate::rule::SetRule;
use crate::violation::{SetViolation, Spot, tell_if};
use protobuf_parse_base::joins::join_at_dot;
use std::alloc::{AllocError, Global};

/// The name in that scope.
pub fn within(alloc: Global, scope: &str, name: &str) -> Result<String, AllocError>
    ensures { IfOk result (λ full. string_bytes full ≡ spec.within scope.now name.now) }
{
    join_at_dot(alloc, scope, name)
}

/// The scope of a file of that package.
pub fn package_scope(alloc: Global, said: &Option<String>) -> Result<String, AllocError>
    ensures { IfOk result (λ scope. string_bytes scope
        ≡ spec.package_scope (option_map string_bytes said.now)) }
{
    match said {
        Some(package) if !package.is_empty() => within(alloc, "", package),
        _ => Ok(String::new(alloc)),
    }
}

/// Whether the name is an identifier.
fn is_identifier(name: &str) -> bool
    ensures { result ≡ spec.is_identifier name.now }
{
    match name.as_bytes() {
        [first, ..] => !first.is_ascii_digit() && are_word_bytes(name.as_bytes()),
        [] => false,
    }
}

fn are_word_bytes(bytes: &[u8]) -> bool
    ensures { result ≡ list_all spec.is_word_byte bytes.now }
{
    bytes.iter().all(|byte| is_word_byte(*byte))
}

fn is_word_byte(byte: u8) -> bool
    ensures { result ≡ spec.is_word_byte byte }
{
    byte.is_ascii_alphanumeric() || byte == b'_'
}

/// Whether each part of the package is an identifier.
fn is_package(name: &str) -> bool
    ensures { result ≡ spec.is_package name.now }
{
    name.split('.').all(is_identifier)
}

/// Tells of a name that is no identifier.
pub fn check_name(
    alloc: Global,
    found: &mut Vec<SetViolation>,
    at: Spot<'_>,
    name: &str,
) -> Result<(), AllocError>
    ensures { OnOk result (told found.new
        ≡ told found.old ++ name_breaches (site_of at.entry) name.now) }
{
    let wrong = !is_identifier(name);
    tell_if(alloc, found, wrong, at, SetRule::NotIdentifier, name)
}

/// Tells of a package with a part that is no identifier.
pub fn check_package(
    alloc: Global,
    found: &mut Vec<SetViolation>,
    at: Spot<'_>,
    name: &str,
) -> Result<(), AllocError>
    ensures { OnOk result (told found.new
        ≡ told found.old ++ package_breaches (site_of at.entry) name.now) }
{
    if name.is_empty() {
        return Ok(());
    }
    let wrong = !is_package(name);
    tell_if(alloc, found, wrong, at, SetRule::NotIdentifier, name)
}
