//! Which built-in options each construct has, by google/protobuf/descriptor.proto.

ghost use Rattle.std.specs.Prelude.{◌≡◌};
ghost use Rattle.protobuf_parse_model.specs.BuiltinOptions as spec;
ghost use Rattle.protobuf_parse_elaboration.specs.OptionViews.{table_seen};

/// What a built-in option is set to.
#[derive(Clone, Copy)]
pub enum BuiltinKind {
    /// A string that stands for a text.
    Text,
    /// `true` or `false`.
    Truth,
    /// The word of an `OptimizeMode`.
    OptimizeMode,
    /// The word of a `CType`.
    CType,
    /// The word of a `JSType`.
    JSType,
    /// The word of an `IdempotencyLevel`.
    IdempotencyLevel,
}

/// The built-in options of a construct: each by its name, with what it is set to.
pub type Table = &'static [(&'static str, BuiltinKind)];

const FILE: Table = &[
    ("java_package", BuiltinKind::Text),
    ("java_outer_classname", BuiltinKind::Text),
    ("go_package", BuiltinKind::Text),
    ("objc_class_prefix", BuiltinKind::Text),
    ("csharp_namespace", BuiltinKind::Text),
    ("swift_prefix", BuiltinKind::Text),
    ("php_class_prefix", BuiltinKind::Text),
    ("php_namespace", BuiltinKind::Text),
    ("php_metadata_namespace", BuiltinKind::Text),
    ("ruby_package", BuiltinKind::Text),
    ("java_multiple_files", BuiltinKind::Truth),
    ("cc_generic_services", BuiltinKind::Truth),
    ("java_generic_services", BuiltinKind::Truth),
    ("py_generic_services", BuiltinKind::Truth),
    ("java_generate_equals_and_hash", BuiltinKind::Truth),
    ("deprecated", BuiltinKind::Truth),
    ("java_string_check_utf8", BuiltinKind::Truth),
    ("cc_enable_arenas", BuiltinKind::Truth),
    ("optimize_for", BuiltinKind::OptimizeMode),
];

const MESSAGE: Table = &[
    ("message_set_wire_format", BuiltinKind::Truth),
    ("no_standard_descriptor_accessor", BuiltinKind::Truth),
    ("deprecated", BuiltinKind::Truth),
    ("map_entry", BuiltinKind::Truth),
];

const FIELD: Table = &[
    ("packed", BuiltinKind::Truth),
    ("deprecated", BuiltinKind::Truth),
    ("lazy", BuiltinKind::Truth),
    ("weak", BuiltinKind::Truth),
    ("unverified_lazy", BuiltinKind::Truth),
    ("debug_redact", BuiltinKind::Truth),
    ("ctype", BuiltinKind::CType),
    ("jstype", BuiltinKind::JSType),
];

const ONEOF: Table = &[];

const ENUM: Table = &[
    ("allow_alias", BuiltinKind::Truth),
    ("deprecated", BuiltinKind::Truth),
];

const ENUM_VALUE: Table = &[("deprecated", BuiltinKind::Truth)];

const SERVICE: Table = &[("deprecated", BuiltinKind::Truth)];

const METHOD: Table = &[
    ("deprecated", BuiltinKind::Truth),
    ("idempotency_level", BuiltinKind::IdempotencyLevel),
];

/// The options of a file.
pub fn file_table() -> Table
    ensures { table_seen result.now ≡ spec.file_table }
{
    FILE
}

/// The options of a message.
pub fn message_table() -> Table
    ensures { table_seen result.now ≡ spec.message_table }
{
    MESSAGE
}

/// The options of a field, besides `default` and `json_name`.
pub fn field_table() -> Table
    ensures { table_seen result.now ≡ spec.field_table }
{
    FIELD
}

/// The options of a oneof, which has none.
pub fn oneof_table() -> Table
    ensures { table_seen result.now ≡ spec.oneof_table }
{
    ONEOF
}

/// The options of an enum.
pub fn enum_table() -> Table
    ensures { table_seen result.now ≡ spec.enum_table }
{
    ENUM
}

/// The options of a value of an enum.
pub fn enum_value_table() -> Table
    ensures { table_seen result.now ≡ spec.enum_value_table }
{
    ENUM_VALUE
}

/// The options of a service.
pub fn service_table() -> Table
    ensures { table_seen result.now ≡ spec.service_table }
{
    SERVICE
}

/// The options of a method.
pub fn method_table() -> Table
    ensures { table_seen result.now ≡ spec.method_table }
{
    METHOD
}
