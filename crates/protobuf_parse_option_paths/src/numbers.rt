//! The numbers of built-in options.

ghost use Rattle.std.specs.Prelude.{◌≡◌};
ghost use Rattle.protobuf_parse_model.specs.BuiltinOptions.{under_name};
ghost use Rattle.protobuf_parse_option_paths.specs.InnerViews.{numbers_view};
ghost use Rattle.protobuf_parse_option_paths.specs.Numbers as spec;

use protobuf_parse_model::Construct;

/// The built-in options of a construct: each by its name, with its number.
type Numbers = &'static [(&'static str, u32)];

const FILE: Numbers = &[
    ("java_package", 1),
    ("java_outer_classname", 8),
    ("optimize_for", 9),
    ("java_multiple_files", 10),
    ("go_package", 11),
    ("cc_generic_services", 16),
    ("java_generic_services", 17),
    ("py_generic_services", 18),
    ("java_generate_equals_and_hash", 20),
    ("deprecated", 23),
    ("java_string_check_utf8", 27),
    ("cc_enable_arenas", 31),
    ("objc_class_prefix", 36),
    ("csharp_namespace", 37),
    ("swift_prefix", 39),
    ("php_class_prefix", 40),
    ("php_namespace", 41),
    ("php_metadata_namespace", 44),
    ("ruby_package", 45),
];

const MESSAGE: Numbers = &[
    ("message_set_wire_format", 1),
    ("no_standard_descriptor_accessor", 2),
    ("deprecated", 3),
    ("map_entry", 7),
];

const FIELD: Numbers = &[
    ("ctype", 1),
    ("packed", 2),
    ("deprecated", 3),
    ("lazy", 5),
    ("jstype", 6),
    ("weak", 10),
    ("unverified_lazy", 15),
    ("debug_redact", 16),
];

const ONEOF: Numbers = &[];

const ENUM: Numbers = &[("allow_alias", 2), ("deprecated", 3)];

const ENUM_VALUE: Numbers = &[("deprecated", 1)];

const SERVICE: Numbers = &[("deprecated", 33)];

const METHOD: Numbers = &[("deprecated", 33), ("idempotency_level", 34)];

/// The number that a built-in option of the construct has in its options message of
/// `descriptor.proto`, if the construct has one of that name. `default` and `json_name` of a field
/// are none.
///
/// ```text
/// builtin_number(Construct::Field, "jstype") // Some(6)
/// ```
pub fn builtin_number(construct: Construct, name: &str) -> Option<u32>
    ensures { result ≡ spec.builtin_number construct name.now }
{
    number_in(numbers_of(construct), name)
}

fn numbers_of(construct: Construct) -> Numbers
    ensures { numbers_view result.now ≡ spec.numbers_of construct }
{
    match construct {
        Construct::File => FILE,
        Construct::Message => MESSAGE,
        Construct::Field => FIELD,
        Construct::Oneof => ONEOF,
        Construct::Enum => ENUM,
        Construct::EnumValue => ENUM_VALUE,
        Construct::Service => SERVICE,
        Construct::Method => METHOD,
    }
}

/// The number under the name.
fn number_in(numbers: &[(&str, u32)], name: &str) -> Option<u32>
    ensures { result ≡ under_name (numbers_view numbers.now) name.now }
{
    'entries: for entry in numbers {
        if entry.0 == name {
            return Some(entry.1);
        }
    }
    None
}
