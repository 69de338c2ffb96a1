//! Laws of the definitions. The functions do nothing.

ghost use Rattle.protobuf_parse_wire_changes.specs.Laws.{KnownFieldsAreSettled, OldBytesAreRead};
ghost use Rattle.protobuf_parse_wire_changes.specs.Laws.{SameNamesGoTogether};

/// Where no change is listed, readers of the new files read on.
pub fn old_bytes_are_read()
    ensures { OldBytesAreRead }
{}

/// Messages of one full name that both files declare go together.
pub fn same_names_go_together()
    ensures { SameNamesGoTogether }
{}

/// Of what was decoded with nothing unknown, the new files declare nothing that was unknown.
pub fn known_fields_are_settled()
    ensures { KnownFieldsAreSettled }
{}
