//! What is told of a text that breaks a rule.

ghost use Rattle.std.specs.Prelude.{◌≡◌, ◌++◌, [], ◌∷◌, OnOk};
ghost use Rattle.protobuf_parse_text_rules.specs.Breaches.{breach, breach_if};
ghost use Rattle.protobuf_parse_text_rules.specs.Views.{told};

use crate::rule::TextRule;
use protobuf_parse_lexer::Place;
use std::alloc::{AllocError, Global};
use std::fmt;

/// A place at which a text breaks a rule.
#[derive(Debug, PartialEq, Eq, Drop)]
pub struct TextViolation {
    pub rule: TextRule,
    pub place: Place,
    /// What is named there, where [`TextRule`] says so, as it is written; else nothing.
    pub name: String,
}

impl fmt::Display for TextViolation {
    fn fmt<W: fmt::Write>(&self, f: &mut fmt::Formatter<W>) -> fmt::Result {
        let TextViolation { rule, place, name } = self;
        let Place { line, col } = place;
        write!(f, "{line}:{col}: {}: {rule}", rule.code())?;
        if !name.is_empty() {
            write!(f, ": {name}")?;
        }
        Ok(())
    }
}

/// Tells the rule, which is broken there.
pub fn tell(
    alloc: Global,
    found: &mut Vec<TextViolation>,
    rule: TextRule,
    place: Place,
    name: &str,
) -> Result<(), AllocError>
    ensures { OnOk result (told found.new ≡ told found.old ++ breach rule place name.now ∷ []) }
{
    let name = String::from_str(alloc, name)?;
    found.push(TextViolation { rule, place, name })?;
    Ok(())
}

/// Tells the rule where the test says so.
pub fn tell_if(
    alloc: Global,
    found: &mut Vec<TextViolation>,
    test: bool,
    rule: TextRule,
    place: Place,
    name: &str,
) -> Result<(), AllocError>
    ensures { OnOk result (told found.new ≡ told found.old ++ breach_if test rule place name.now) }
{
    if test {
        tell(alloc, found, rule, place, name)
    } else {
        Ok(())
    }
}
