//! What follows where nothing is told of a set.

ghost use Rattle.protobuf_parse_set_rules.specs.Law.{TypesAreDeclared};

/// A law of the definitions: where [`check_set`](crate::check_set) tells nothing of a set, each
/// field and extension of a message, group or enum type has the full name of one that is declared
/// in its own file or in one before it. The function does nothing.
pub fn types_are_declared()
    ensures { TypesAreDeclared }
{}
