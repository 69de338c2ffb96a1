//! Laws of what is told of a text. The functions do nothing.

ghost use Rattle.protobuf_parse_recovery.specs.Laws.{FaultsAreOfTheText, PlacesStay};

/// No fault is told just of texts with a tree; the first that is told stands in the text itself; and
/// there are at most twenty.
pub fn faults_are_of_the_text()
    ensures { FaultsAreOfTheText }
{}

/// Behind a part as if it were blanks stands what stood there, at the same place.
pub fn places_stay()
    ensures { PlacesStay }
{}
