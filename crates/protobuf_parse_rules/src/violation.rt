//! What is told of a construct that breaks a rule.

use crate::rule::Rule;
use std::fmt;

/// A construct that breaks a rule.
#[derive(Debug, PartialEq, Eq, Drop)]
pub struct Violation {
    /// The path of the file.
    pub file: String,
    /// The full name of the construct, with its first dot; for a file its package, or nothing.
    pub construct: String,
    pub rule: Rule,
    /// What the rule speaks of beside the construct, where [`Rule`] says that it does.
    pub name: Option<String>,
    /// The full name of the construct that has already what only one may have.
    pub by: Option<String>,
}

impl fmt::Display for Violation {
    fn fmt<W: fmt::Write>(&self, f: &mut fmt::Formatter<W>) -> fmt::Result {
        let Violation {
            file,
            construct,
            rule,
            name,
            by,
        } = self;
        write!(f, "{file}: ")?;
        if !construct.is_empty() {
            write!(f, "{construct}: ")?;
        }
        write!(f, "{}: {rule}", rule.code())?;
        if let Some(name) = name {
            write!(f, ": {name}")?;
        }
        if let Some(by) = by {
            write!(f, ", by {by}")?;
        }
        Ok(())
    }
}
