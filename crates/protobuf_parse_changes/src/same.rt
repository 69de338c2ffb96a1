//! Values that may be absent, in two versions.

ghost use Rattle.std.specs.Prelude.{◌≡◌, string_bytes, option_map};
ghost use Rattle.protobuf_parse_changes.specs.Same as spec;
ghost use Rattle.protobuf_parse_index.specs.Views.{text_found};

/// Whether both are the same text, or both absent.
pub fn same_text(old: &Option<String>, new: &Option<String>) -> bool
    ensures { result ≡ spec.same_text (option_map string_bytes old.now)
        (option_map string_bytes new.now) }
{
    match (old, new) {
        (Some(old), Some(new)) => old.as_str() == new.as_str(),
        (None, None) => true,
        _ => false,
    }
}

/// Whether both are the same name, or both absent.
pub fn same_name(old: Option<&str>, new: Option<&str>) -> bool
    ensures { result ≡ spec.same_text (text_found old.entry) (text_found new.entry) }
{
    match (old, new) {
        (Some(old), Some(new)) => old == new,
        (None, None) => true,
        _ => false,
    }
}

/// Whether both are the same flag, or both absent.
pub fn same_flag(old: Option<bool>, new: Option<bool>) -> bool
    ensures { result ≡ spec.same_flag old new }
{
    match (old, new) {
        (Some(old), Some(new)) => old == new,
        (None, None) => true,
        _ => false,
    }
}
