//! Laws of the definitions. The functions do nothing.

ghost use Rattle.protobuf_parse_location_laws.specs.Law.{DeclarationsAreLocated};
ghost use Rattle.protobuf_parse_location_laws.specs.Law.{DeclarationsOfTextsAreLocated};
ghost use Rattle.protobuf_parse_location_laws.specs.Law.{EntriesAloneAreLeftOut};

/// Source info and descriptors fit together: each declaration of the descriptor of a text has a
/// location in the source info of that text, at the declaration's path, and another for its name.
///
/// It is so of messages, those of groups too, of fields, oneofs and extensions, of enums and their
/// values, and of services and their methods. Left out are the messages of maps' entries, and what
/// stands in them: no text has them. They take an index all the same.
///
/// Asked for is that the text has a tree, that no map in it has a label (T6), and that elaboration
/// finds nothing wrong in the file. Of a tree alone, whatever tokens stand beside it, is asked that
/// no map of a message has a label, that no field of a oneof has one, and that no map stands in an
/// `extend`.
pub fn declarations_are_located()
    ensures of_texts { DeclarationsOfTextsAreLocated }
    ensures of_trees { DeclarationsAreLocated }
    ensures left_out { EntriesAloneAreLeftOut }
{}
