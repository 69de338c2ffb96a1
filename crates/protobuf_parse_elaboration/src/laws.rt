//! Laws of the definitions of look-up and of the elaboration. The functions do nothing.

ghost use Rattle.protobuf_parse_model.specs.Declarations.{MessageOrEnum};
ghost use Rattle.protobuf_parse_model.specs.Lookup.{MeansTheLongest, MeansNothing, MeansItself};
ghost use Rattle.protobuf_parse_elaboration.specs.NamedTypes.{NamesAreDeclared, TypesAreNamed};
ghost use Rattle.protobuf_parse_elaboration.specs.NamedTypes.{ExtendeesAreNamed, MessagesAreNamed};
ghost use Rattle.protobuf_parse_elaboration.specs.CustomSets.{FaultsAreOfSets, NoneIsNoneInSets};
ghost use Rattle.protobuf_parse_elaboration.specs.CustomSets.{BytesAreOfSets};

/// What the name of a type means is declared in the longest front of the scope in which a type has
/// that name; a name that means nothing is declared in no front; a name with a first dot means the
/// type of just that full name.
pub fn types_are_looked_up()
    ensures longest { MeansTheLongest MessageOrEnum }
    ensures nothing { MeansNothing MessageOrEnum }
    ensures itself { MeansItself MessageOrEnum }
{}

/// Where no fault stands in a file, every name of a type in its descriptor is the full name of a
/// message or an enum that one of the files declares that it sees, or of a message behind one of
/// its own maps and groups. So it is of the types of fields and extensions, of the messages that
/// extensions extend, and of what methods take and return, in nested messages and in those behind
/// maps and groups too. None is left out: a field says the name of its type just where that is a
/// message, an enum or a group, and each extension says what it extends. The type of what has a
/// message is a message, and no enum.
pub fn types_are_declared()
    ensures declared { NamesAreDeclared }
    ensures named { TypesAreNamed }
    ensures extendees { ExtendeesAreNamed }
    ensures messages { MessagesAreNamed }
{}

/// Just those faults stand in a file that stand there besides custom options, or in the custom
/// options of one of its sets, seen from the scope of that set; so none stands in the file just
/// where none stands there besides custom options, and none in any set. A file becomes the same
/// where the custom options of each of its sets become the same bytes.
pub fn custom_options_are_of_sets()
    ensures faults { FaultsAreOfSets }
    ensures none { NoneIsNoneInSets }
    ensures bytes { BytesAreOfSets }
{}
