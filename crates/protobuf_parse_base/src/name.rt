//! The names of what schemas declare.
ghost use Rattle.std.specs.Prelude.{◌≡◌, IfOk};
ghost use Rattle.std.specs.String.{string_bytes};
ghost use Rattle.protobuf_parse_base.specs.DeclaredNames.{name_bytes};

use arrayvec::ArrayString;
use std::alloc::{AllocError, Global};
use std::cmp::Ordering;
use std::convert::AsStr;
use std::fmt;
use std::hash::{Hash, Hasher};
use std::ops::DerefStr;

/// How many bytes of a text lie in a [`Name`] itself, at most.
pub(crate) const IN_PLACE: usize = 24;

/// The name of something that is declared, or that of a field in JSON: a text. One of at most
/// `IN_PLACE` bytes, as most are, lies in the value itself. But a name that was made of a `String`
/// keeps that `String`, short or not.
pub struct Name {
    text: Text,
}

/// A text, in the value itself or in memory of its own.
#[derive(Drop)]
enum Text {
    Short(ArrayString<IN_PLACE>),
    Long(String),
}

// Written out: a crate above that drops one calls it, and need not prove anew how each kind of text
// is dropped.
impl Drop for Name {
    fn drop(self) {
        let Name { text: _ } = self;
    }
}

impl Name {
    /// The name with this text. The one error is that memory is short.
    pub fn new(alloc: Global, text: &str) -> Result<Name, AllocError>
        ensures { IfOk result (λ n. name_bytes n ≡ text.now) }
    {
        let text = match ArrayString::from(text) {
            Ok(short) => Text::Short(short),
            Err(_) => Text::Long(String::from_str(alloc, text)?),
        };
        Ok(Name { text })
    }

    /// Its text.
    pub fn as_str(&self) -> &str
        ensures { result.now ≡ name_bytes self.now }
    {
        match &self.text {
            Text::Short(short) => short.as_str(),
            Text::Long(long) => long.as_str(),
        }
    }

    /// A copy of its text. The one error is that memory is short.
    pub fn text(&self, alloc: Global) -> Result<String, AllocError>
        ensures { IfOk result (λ s. string_bytes s ≡ name_bytes self.now) }
    {
        String::from_str(alloc, self.as_str())
    }

    /// Its text, as a `String`. The one error is that memory is short.
    pub fn into_string(self, alloc: Global) -> Result<String, AllocError>
        ensures { IfOk result (λ s. string_bytes s ≡ name_bytes self) }
    {
        let Name { text } = self;
        match text {
            Text::Short(short) => String::from_str(alloc, short.as_str()),
            Text::Long(long) => Ok(long),
        }
    }
}

/// The name with this text, which stays where it is.
impl From<String> for Name {
    ghost from_gives = { λ text name. name_bytes name ≡ string_bytes text };

    fn from(text: String) -> Name {
        Name {
            text: Text::Long(text),
        }
    }
}

/// As [`Name::as_str`] gives it.
impl DerefStr for Name {
    ghost deref_gives = { λ n bytes. bytes ≡ name_bytes n };

    fn deref(&self) -> &str {
        self.as_str()
    }
}

/// As [`Name::as_str`] gives it.
impl AsStr for Name {
    ghost text = { name_bytes };

    fn as_str(&self) -> &str {
        self.as_str()
    }
}

/// A name with the same text. The one error is that memory is short.
impl Clone for Name {
    ghost is_clone = { λ n copy. name_bytes copy ≡ name_bytes n };

    fn clone(&self) -> Result<Name, AllocError> {
        let text = match &self.text {
            Text::Short(short) => Text::Short(*short),
            Text::Long(long) => Text::Long(long.clone()?),
        };
        Ok(Name { text })
    }
}

/// By the text.
impl PartialEq for Name {
    ghost use Rattle.std.specs.Prelude.{nat_eq};
    ghost use Rattle.std.specs.Cmp.{on_per, partial_equiv_from_equiv};
    ghost use Rattle.std.specs.Cmp.Lexicographic.{pointwise, nat_list_eq_equiv};

    ghost eq = { λ n m. pointwise nat_eq (name_bytes n) (name_bytes m) };

    ghost laws = { on_per name_bytes (partial_equiv_from_equiv nat_list_eq_equiv) };

    fn eq(&self, other: &Name) -> bool {
        self.as_str() == other.as_str()
    }
}

impl Eq for Name {
    ghost use Rattle.std.specs.Cmp.{on_equiv};
    ghost use Rattle.std.specs.Cmp.Lexicographic.{nat_list_eq_equiv};

    ghost laws = { on_equiv name_bytes nat_list_eq_equiv };
}

/// In the order of their texts.
impl PartialOrd for Name {
    ghost use Rattle.std.specs.Prelude.{Some};
    ghost use Rattle.std.specs.Ordering.{nat_cmp};
    ghost use Rattle.std.specs.Cmp.{on_po};
    ghost use Rattle.std.specs.Cmp.Lexicographic.{slice_cmp, texts_po};

    ghost partial_cmp = { λ n m. Some (slice_cmp nat_cmp (name_bytes n) (name_bytes m)) };

    ghost laws = { on_po name_bytes texts_po };

    fn partial_cmp(&self, other: &Name) -> Option<Ordering> {
        Some(self.cmp(other))
    }
}

impl Ord for Name {
    ghost use Rattle.std.specs.Prelude.{refl};
    ghost use Rattle.std.specs.Ordering.{nat_cmp};
    ghost use Rattle.std.specs.Cmp.{on_total};
    ghost use Rattle.std.specs.Cmp.Lexicographic.{slice_cmp, nat_list_cmp_total, texts_ties};

    ghost cmp = { λ n m. slice_cmp nat_cmp (name_bytes n) (name_bytes m) };

    ghost total = { on_total name_bytes nat_list_cmp_total };

    ghost matches_partial_cmp = { λ n m. refl };

    ghost matches_eq = { λ n m. texts_ties (name_bytes n) (name_bytes m) };

    fn cmp(&self, other: &Name) -> Ordering {
        self.as_str().cmp(other.as_str())
    }
}

/// What is hashed is the text.
impl Hash for Name {
    ghost use Rattle.std.specs.Cmp.Rules.{hashing};
    ghost use Rattle.std.specs.Hash as fed;
    ghost use Rattle.std.proofs.Common.{rules};

    ghost hash_input = { λ n. fed.str (name_bytes n) };

    ghost respects_eq = { Prim.search (hashing, rules) };

    fn hash<H: Hasher>(&self, state: &mut H) {
        self.as_str().hash(state);
    }
}

/// As the text's.
impl fmt::Debug for Name {
    fn fmt<W: fmt::Write>(&self, f: &mut fmt::Formatter<W>) -> fmt::Result {
        fmt::Debug::fmt(&self.as_str(), f)
    }
}

/// The text.
impl fmt::Display for Name {
    ghost use Rattle.std.specs.Prelude.{Some};

    ghost output = { λ n. Some (name_bytes n) };

    fn fmt<W: fmt::Write>(&self, f: &mut fmt::Formatter<W>) -> fmt::Result {
        f.write_str(self.as_str())
    }
}
