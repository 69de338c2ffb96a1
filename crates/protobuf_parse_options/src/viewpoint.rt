//! From where options are seen.

ghost use Rattle.std.specs.Prelude.{◌≡◌, true};
ghost use Rattle.std.specs.Option.{ForSome};
ghost use Rattle.protobuf_parse_options.specs.Holding.{files_seen};
ghost use Rattle.protobuf_parse_options.specs.OptionFields.{names_message};

use crate::lookup;
use crate::with_customs::WithCustoms;

/// From where options are seen.
#[derive(Clone, Copy)]
pub struct OptionViewpoint<'p, 'a> {
    pub customs: &'p WithCustoms<'a>,
    /// The names of the package and of the messages around the construct, the outermost first.
    pub scope: &'p [&'p str],
    /// The full name of a message that was looked up and is declared.
    pub found: Option<&'p str>,
    ghost is_declared: { ForSome found
        (λ name. names_message (files_seen customs.now.reach) name.now ≡ true) },
}

impl<'p, 'a> OptionViewpoint<'p, 'a> {
    /// Where options of the message of that full name are set. It is looked up now if there are
    /// several of them, each of which asks for it.
    pub fn new(
        customs: &'p WithCustoms<'a>,
        scope: &'p [&'p str],
        message: &'p str,
        several: bool,
    ) -> OptionViewpoint<'p, 'a>
        ensures customs { result.customs.now ≡ customs.now }
        ensures scope { result.scope.now ≡ scope.now }
    {
        let found = if several && lookup::is_message(customs, message) {
            Some(message)
        } else {
            None
        };
        OptionViewpoint {
            customs,
            scope,
            found,
        }
    }

    /// Whether a message has the full name.
    pub fn is_message(&self, name: &str) -> bool
        ensures { result ≡ names_message (files_seen self.now.customs.now.reach) name.now }
    {
        match self.found {
            Some(found) if found == name => true,
            _ => lookup::is_message(self.customs, name),
        }
    }
}
