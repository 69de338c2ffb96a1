//! Violations of the rules of texts, as diagnostics.

ghost use Rattle.std.specs.Prelude.{IfOk, ◌≡◌};
ghost use Rattle.protobuf_parse_diagnostics.specs.Broken.{told_at_level};
ghost use Rattle.protobuf_parse_diagnostics.specs.Texts.{AreTextsTold, IsTextTold, text_severity};

use crate::diagnostic::{Diagnostic, Severity};
use crate::rules::{RuleLevel, is_told};
use protobuf_parse_text_rules::{TextRule, TextViolation};
use std::alloc::{AllocError, Global};

/// What is told of these violations in the text of the file that lies there: one of each, in their
/// order, as bad as the level says. The one error is that memory is short.
pub fn text_rule_diagnostics(
    alloc: Global,
    origin: &str,
    violations: &[TextViolation],
    level: RuleLevel,
) -> Result<Vec<Diagnostic>, AllocError>
    ensures { IfOk result (λ told.
        AreTextsTold level origin.now (told_at_level level violations.now) told.items) }
{
    if is_told(level) {
        tell_texts(alloc, origin, violations, level)
    } else {
        Ok(Vec::new(alloc))
    }
}

/// Tells one of each of the violations.
#[tactic(auto, using(crate::proofs::Breaking::text_next))]
fn tell_texts(
    alloc: Global,
    origin: &str,
    violations: &[TextViolation],
    level: RuleLevel,
) -> Result<Vec<Diagnostic>, AllocError>
    ensures { IfOk result (λ told. AreTextsTold level origin.now violations.now told.items) }
{
    let mut told = Vec::with_capacity(alloc, violations.len())?;
    for violation in violations {
        told.push(diagnostic_of(alloc, origin, violation, level)?)?;
    }
    Ok(told)
}

fn diagnostic_of(
    alloc: Global,
    origin: &str,
    violation: &TextViolation,
    level: RuleLevel,
) -> Result<Diagnostic, AllocError>
    ensures { IfOk result (IsTextTold level origin.now violation.now) }
{
    Ok(Diagnostic {
        file: String::from_str(alloc, origin)?,
        place: Some(violation.place),
        severity: text_severity(level, violation.rule),
        code: String::from_str(alloc, violation.rule.code())?,
        message: message_of(alloc, violation)?,
        help: help_of(alloc, violation.rule)?,
    })
}

/// How bad it is that a rule of texts is broken.
fn text_severity(level: RuleLevel, rule: TextRule) -> Severity
    ensures { result ≡ text_severity level rule }
{
    match level {
        RuleLevel::Error => {
            if rule.is_warning() {
                Severity::Warning
            } else {
                Severity::Error
            }
        }
        RuleLevel::Warn | RuleLevel::Off => Severity::Warning,
    }
}

/// What is wrong, of what is named there.
fn message_of(alloc: Global, violation: &TextViolation) -> Result<String, AllocError> {
    let rule = violation.rule;
    let name = violation.name.as_str();
    if name.is_empty() {
        format!(in alloc; "{rule}")
    } else {
        format!(in alloc; "`{name}`: {rule}")
    }
}

/// What helps.
fn help_of(alloc: Global, rule: TextRule) -> Result<Option<String>, AllocError> {
    let help = match rule {
        TextRule::NameResolvedInside => "write the full name, with a dot before it",
        TextRule::CustomOptionTwice => "only a repeated option can be set once more",
        TextRule::SyntaxMissing => "write `syntax = \"proto2\";`",
        _ => return Ok(None),
    };
    Ok(Some(String::from_str(alloc, help)?))
}
