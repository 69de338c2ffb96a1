//! The laws of the definitions that contracts cite, of all crates together. The functions do
//! nothing: the contract of each is a theorem, and its comment says which.

ghost use Rattle.protobuf_parse.specs.ApartInRuns.{NumbersAreApartInRuns};

pub use protobuf_parse_base::by_text;
pub use protobuf_parse_base::names::laws::{
    into_absolute_undoes_to_root_rel, pop_undoes_push, remove_undoes_concat,
};
pub use protobuf_parse_base::proto_path::laws::proto_paths_have_no_fault;
pub use protobuf_parse_descriptor_set::{custom_options_are_fields, oneofs_are_moved};
pub use protobuf_parse_elaboration::{
    custom_options_are_of_sets, types_are_declared, types_are_looked_up,
};
pub use protobuf_parse_lexer::{
    cuts_are_unique, decoding_is_unique, escaped_bytes_decode, one_stream_lies_ahead,
    places_count_characters, strings_are_decoded, strings_are_quoted, texts_tell_kinds,
    tokens_are_found,
};
pub use protobuf_parse_listing::builtin_options_are_listed;
pub use protobuf_parse_model::declared_names_have_places;
pub use protobuf_parse_options::{
    any_order, extensions_are_looked_up, more_files, never_too_deep, option_bytes_spell,
    options_are_not_read, options_are_read, options_are_recovered,
};
pub use protobuf_parse_rules::numbers_are_apart;
pub use protobuf_parse_run::{
    custom_bytes_stand, files_come_once, runs_are_stable, seen_files_are_reached,
};
pub use protobuf_parse_syntax::trees_are_shallow;
pub use protobuf_parse_wire::{
    one_spelling, reader_reads_records, reader_reads_varints, spelled_is_read,
};

/// Where [`violations`](crate::violations), asked of all that a run hands out, tells no number that
/// is in use already (C1), numbers of fields are distinct in the descriptors of what each file of
/// the run reaches. So what [`run_inputs`](crate::run_inputs) says of reading custom options back
/// holds with nothing left to ask for.
pub fn numbers_are_apart_in_runs()
    ensures { NumbersAreApartInRuns }
{}
