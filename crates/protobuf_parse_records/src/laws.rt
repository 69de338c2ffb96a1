//! Laws of the definitions. The functions do nothing.

ghost use Rattle.protobuf_parse_records.specs.Laws.{OffsetsCountOn, RecordsAreJoined};
ghost use Rattle.protobuf_parse_records.specs.Laws.{GroupsHoldRecords, RecordsAreTheBytes};

/// Where bytes have records, the records' own bytes, joined, are the bytes; the first record starts
/// where the bytes start, and each other one where the one before it ends.
pub fn records_are_the_bytes()
    ensures { RecordsAreTheBytes }
{}

/// The same bytes at a later offset have the same records, or the same fault: each offset is that
/// much later, and nothing else differs.
pub fn offsets_count_on()
    ensures { OffsetsCountOn }
{}

/// Where the first of two messages has records, the bytes of both, joined, have these records and
/// then those of the second, later by the length of the first. Where the second has a fault, the
/// joined bytes have it, later as well.
pub fn records_are_joined()
    ensures { RecordsAreJoined }
{}

/// What stands in a group is records: `records_in` gives them, and no fault.
pub fn groups_hold_records()
    ensures { GroupsHoldRecords }
{}
