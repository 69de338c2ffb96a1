//! Laws of the definitions. The functions do nothing.

ghost use Rattle.protobuf_parse_decode.specs.Laws.{FieldsAreTheBytes, MessagesJoin};

/// Where a message is decoded, the bytes of its fields, joined, are its bytes: nothing is lost, of
/// unknown fields either.
pub fn fields_are_the_bytes()
    ensures { FieldsAreTheBytes }
{}

/// Where two messages of one name are decoded, their bytes joined are decoded to the fields of the
/// first and then those of the second.
pub fn messages_join()
    ensures { MessagesJoin }
{}
