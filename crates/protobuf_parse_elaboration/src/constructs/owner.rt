//! What a field belongs to beside its message.

ghost use Rattle.std.specs.Option.{ForSome};
ghost use Rattle.std.specs.Prelude.{◌≡◌, ◌<◌, ◌^◌, pos, IfOk, option_map, string_bytes};

use std::alloc::{AllocError, Global};

/// The message that a field extends, and the oneof that it stands in.
#[derive(Clone, Copy)]
pub struct FieldOwner<'a> {
    /// The full name of the message, with the first dot.
    pub extendee: Option<&'a str>,
    /// The number of the oneof among those of the message.
    pub oneof_index: Option<usize>,
    pub ghost small: { ForSome oneof_index (λ n. n < 2 ^ 31) },
}

impl FieldOwner<'_> {
    ghost use Rattle.protobuf_parse_elaboration.specs.Parts.{field_owner_view};

    /// The message that the field extends, in a text of its own.
    pub fn extendee(&self, alloc: Global) -> Result<Option<String>, AllocError>
        ensures { IfOk result
            (λ s. option_map string_bytes s ≡ (field_owner_view self.now).extendee) }
    {
        match self.extendee {
            Some(text) => Ok(Some(String::from_str(alloc, text)?)),
            None => Ok(None),
        }
    }

    /// The position of the oneof, as descriptors have it.
    pub fn oneof_index(&self) -> Option<i32>
        ensures { result ≡ option_map pos (field_owner_view self.now).oneof_index }
    {
        match self.oneof_index {
            Some(index) => Some(index as i32),
            None => None,
        }
    }
}
