//! A law of the definitions. The function does nothing.

ghost use Rattle.protobuf_parse_source_info.specs.Spots.{HasOneListOfSpots};

/// Of a text with tokens there is just one list of them with the points where they begin and end.
pub fn tokens_have_points()
    ensures { HasOneListOfSpots }
{}
