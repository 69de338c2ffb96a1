//! The full names that a name may have, from a scope outward.

ghost use Rattle.std.specs.Prelude.{◌≡◌, ◌<◌, ℕ, List, ◌∷◌, ◌++◌, length, string_bytes, OnOk};
ghost use Rattle.protobuf_parse_base.specs.Characters as char;
ghost use Rattle.protobuf_parse_model.specs.Declarations as names;
ghost use Rattle.protobuf_parse_model.specs.Lookup.{begins_with_dot};
ghost use Rattle.protobuf_parse_model.specs.SeenFiles.{name_texts};

use super::full_name;
use std::alloc::{AllocError, Global};

/// The full names that a name may have in a scope, the longest first; there is at least one. A
/// name with a first dot has but itself. The buffer of the first becomes that of the others.
///
/// The one error of `new` and `rest` is that memory is short.
#[derive(Drop)]
pub struct Outward<'a> {
    first: String,
    /// The scope in which that is the full name.
    scope: &'a [&'a str],
    name: &'a str,
    ghost in_scope: { 0 < length scope.now →
        string_bytes first ≡ names.full_name (name_texts scope.now) name.now },
}

impl<'a> Outward<'a> {
    ghost use Rattle.std.specs.Prelude.{IfOk};
    ghost use Rattle.protobuf_parse_model.specs.Outward.{first_name, full_names, later_names};
    ghost use Rattle.protobuf_parse_model.specs.Outward.{names_left, names_of};

    /// The scope is the names of the package and of the messages around it, the outermost first.
    pub fn new(alloc: Global, scope: &'a [&'a str], name: &'a str) -> Result<Self, AllocError>
        ensures { IfOk result (λ names. names_of names
            ≡ full_names (name_texts scope.now) name.now) }
    {
        if is_absolute(name) {
            let first = String::from_str(alloc, name)?;
            return Ok(Outward {
                first,
                scope: &[],
                name,
            });
        }
        let first = full_name(alloc, scope, name)?;
        Ok(Outward { first, scope, name })
    }

    /// The first of them.
    pub fn first(&self) -> &str
        ensures { result.now ≡ first_name self.now }
    {
        &self.first
    }

    /// The same, and no copy.
    pub fn into_first(self) -> String
        ensures { string_bytes result ≡ first_name self.entry }
    {
        self.first
    }

    /// The others, if there are any.
    pub fn rest(self) -> Result<Option<Self>, AllocError>
        ensures { IfOk result (λ rest. names_left rest ≡ later_names self.entry) }
    {
        let Outward {
            mut first,
            scope,
            name,
        } = self;
        let Some((last, outer)) = scope.split_last() else {
            return Ok(None);
        };
        cut_last(&mut first, last, name)?;
        Ok(Some(Outward {
            first,
            scope: outer,
            name,
        }))
    }
}

/// Whether a name means itself, by its first dot.
fn is_absolute(name: &str) -> bool
    ensures { result ≡ begins_with_dot name.now }
{
    name.starts_with('.')
}

/// Makes the full name of what has the name in a scope that of what has it in the scope around,
/// where the last name of the scope is `last`.
fn cut_last(text: &mut String, last: &str, name: &str) -> Result<(), AllocError>
    requires { (front : List ℕ)
        × (string_bytes text.old ≡ front ++ char.dot ∷ (last.now ++ char.dot ∷ name.now)) }
    ensures { OnOk result ((front : List ℕ) →
        string_bytes text.old ≡ front ++ char.dot ∷ (last.now ++ char.dot ∷ name.now) →
        string_bytes text.new ≡ front ++ char.dot ∷ name.now) }
{
    let kept = text.len() - name.len() - last.len() - 2;
    text.truncate(kept);
    text.push('.')?;
    text.push_str(name)?;
    Ok(())
}
