//! What follows where no number of a field or an extension is in use already, and whether that is
//! so.

ghost use Rattle.std.specs.Prelude.{◌≡◌, ◌↔◌, IsTrue, map, not};
ghost use Rattle.std.specs.List.{list_all};
ghost use Rattle.protobuf_parse_rules.specs.Law.{NoneIsInUse, NumbersAreApart, SomeAreApart};
ghost use Rattle.protobuf_parse_rules.specs.Law.{is_number_in_use};
ghost use Rattle.protobuf_parse_rules.specs.Rules.{violation_view};
ghost use Rattle.protobuf_parse_rules.specs.declared.violation.Violation.{Violation};

use crate::rule::Rule;
use crate::violation::Violation;

/// Whether none of these violations is C1, a number of a field or an extension that is in use
/// already.
///
/// Where these are all [`violations`](crate::violations) in the files of a run, the fields of each
/// message and the extensions of it have distinct numbers then ([`numbers_are_apart`]), so that its
/// custom options can be read back.
pub fn numbers_are_unique(violations: &[Violation]) -> bool
    ensures { IsTrue result ↔ NoneIsInUse (map violation_view violations.now) }
{
    none_is_in_use(violations)
}

fn none_is_in_use(violations: &[Violation]) -> bool
    ensures { result ≡ list_all (λ (v : Violation). not (is_number_in_use v.rule)) violations.now }
{
    violations
        .iter()
        .all(|violation| !is_number_in_use(violation.rule))
}

/// Whether the rule is C1.
fn is_number_in_use(rule: Rule) -> bool
    ensures { result ≡ is_number_in_use rule }
{
    matches!(
        rule,
        Rule::NumberInUse { number: _ } | Rule::NumberInUseElsewhere { number: _ }
    )
}

/// Laws of the definitions: files in which no number of a field or an extension is in use already
/// are files whose messages have fields of distinct numbers, as reading options back asks for; and
/// so are some of these files, each taken once.
pub fn numbers_are_apart()
    ensures all { NumbersAreApart }
    ensures some { SomeAreApart }
{}
