//! Laws of the definitions of the listing. The functions do nothing.

ghost use Rattle.protobuf_parse_model.specs.BuiltinOptions.{enum_table, enum_value_table};
ghost use Rattle.protobuf_parse_model.specs.BuiltinOptions.{field_table, file_table};
ghost use Rattle.protobuf_parse_model.specs.BuiltinOptions.{message_table, method_table};
ghost use Rattle.protobuf_parse_model.specs.BuiltinOptions.{oneof_table, service_table};
ghost use Rattle.protobuf_parse_model.specs.OptionNumbers.{enum_numbers, enum_value_numbers};
ghost use Rattle.protobuf_parse_model.specs.OptionNumbers.{field_numbers, file_numbers};
ghost use Rattle.protobuf_parse_model.specs.OptionNumbers.{message_numbers, method_numbers};
ghost use Rattle.protobuf_parse_model.specs.OptionNumbers.{oneof_numbers, service_numbers};
ghost use Rattle.protobuf_parse_model.specs.OptionMessages.{enum_options, enum_value_options};
ghost use Rattle.protobuf_parse_model.specs.OptionMessages.{field_options, file_options};
ghost use Rattle.protobuf_parse_model.specs.OptionMessages.{message_options, method_options};
ghost use Rattle.protobuf_parse_model.specs.OptionMessages.{oneof_options, service_options};
ghost use Rattle.protobuf_parse_listing.specs.Listing.{enum_option_lines, enum_value_option_lines};
ghost use Rattle.protobuf_parse_listing.specs.Listing.{field_option_lines, file_option_lines};
ghost use Rattle.protobuf_parse_listing.specs.Listing.{message_option_lines, method_option_lines};
ghost use Rattle.protobuf_parse_listing.specs.Listing.{oneof_option_lines, service_option_lines};
ghost use Rattle.protobuf_parse_listing.specs.ListedOptions.{AreListed, ValuesAreNumbered};

/// Of each construct: just the options of its table have numbers, each its own. Where statements
/// set its options, the listing goes through all options of the table and through nothing else,
/// in the order of their numbers, and has a line where the last statement with the option's name
/// sets it, with what this statement says. The values of each enum have numbers of their own too.
pub fn builtin_options_are_listed()
    ensures file { AreListed file_table file_numbers file_options file_option_lines }
    ensures message { AreListed message_table message_numbers
        message_options message_option_lines }
    ensures field { AreListed field_table field_numbers field_options field_option_lines }
    ensures oneof { AreListed oneof_table oneof_numbers oneof_options oneof_option_lines }
    ensures enums { AreListed enum_table enum_numbers enum_options enum_option_lines }
    ensures value { AreListed enum_value_table enum_value_numbers
        enum_value_options enum_value_option_lines }
    ensures service { AreListed service_table service_numbers
        service_options service_option_lines }
    ensures method { AreListed method_table method_numbers method_options method_option_lines }
    ensures values { ValuesAreNumbered }
{}
