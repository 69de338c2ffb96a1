//! Laws of the definitions. The functions do nothing.

ghost use Rattle.protobuf_parse_merged.specs.Laws.{FieldsAscend, ValuesJoin};

/// Of messages that are joined the values are those of the first and behind them those of the second,
/// and so is what is unknown: so messages are merged.
pub fn values_join()
    ensures { ValuesJoin }
{}

/// The fields of a merged message are in ascending order of their numbers, each number once.
pub fn fields_ascend()
    ensures { FieldsAscend }
{}
