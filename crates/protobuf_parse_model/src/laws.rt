//! Laws of the definitions of declarations. The functions do nothing.

ghost use Rattle.protobuf_parse_model.specs.DeclarationLaws.{NamesHavePlaces};

/// A name has a last declaration with a place in a file just where the file declares it.
pub fn declared_names_have_places()
    ensures { NamesHavePlaces }
{}
