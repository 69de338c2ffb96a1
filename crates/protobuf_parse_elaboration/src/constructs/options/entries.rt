//! Looking up a name in a small table.

ghost use Rattle.std.specs.Prelude.{◌≡◌};
ghost use Rattle.protobuf_parse_model.specs.BuiltinOptions as spec;
ghost use Rattle.protobuf_parse_model.specs.Duplicates.{stands_in};
ghost use Rattle.protobuf_parse_model.specs.Words.{words_of};
ghost use Rattle.protobuf_parse_elaboration.specs.OptionViews.{words_seen};

/// What the first entry of that name has, if there is one.
pub fn under_name<T: Copy>(table: &[(&str, T)], name: &str) -> Option<T>
    ensures { result ≡ spec.under_name (words_seen table.now) name.now }
{
    for (word, value) in table {
        if *word == name {
            return Some(*value);
        }
    }
    None
}

/// Whether there is an entry of that name.
pub fn has_name<T: Copy>(table: &[(&str, T)], name: &str) -> bool
    ensures { result ≡ stands_in name.now (words_of (words_seen table.now)) }
{
    under_name(table, name).is_some()
}
