//! Which names are those of built-in options.

ghost use Rattle.std.specs.Prelude.{◌≡◌};
ghost use Rattle.protobuf_parse_model.specs.Duplicates.{stands_in};
ghost use Rattle.protobuf_parse_model.specs.OptionTables.{option_names_in, table_of};
ghost use Rattle.protobuf_parse_elaboration.specs.OptionViews.{table_seen};

use crate::constructs::options::entries::has_name;
use crate::constructs::options::tables::{
    Table, enum_table, enum_value_table, field_table, file_table, message_table, method_table,
    oneof_table, service_table,
};
use protobuf_parse_model::Construct;

/// Whether the construct has a built-in option of that name, which `default` and `json_name` of a
/// field are not.
pub fn has_builtin_option(construct: Construct, name: &str) -> bool
    ensures { result ≡ stands_in name.now (option_names_in (table_of construct)) }
{
    has_name(table_of(construct), name)
}

/// The built-in options of the construct.
pub fn table_of(construct: Construct) -> Table
    ensures { table_seen result.now ≡ table_of construct }
{
    match construct {
        Construct::File => file_table(),
        Construct::Message => message_table(),
        Construct::Field => field_table(),
        Construct::Oneof => oneof_table(),
        Construct::Enum => enum_table(),
        Construct::EnumValue => enum_value_table(),
        Construct::Service => service_table(),
        Construct::Method => method_table(),
    }
}
