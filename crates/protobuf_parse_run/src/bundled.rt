//! The files that this library brings, written anew: what Google's files of these paths declare,
//! without comments, options, defaults and reserved numbers. Of `descriptor.proto` only the options
//! messages and `UninterpretedOption` are here.

ghost use Rattle.std.specs.Prelude.{◌≡◌};
ghost use Rattle.protobuf_parse_run.specs.Run.{rows, shipped};

/// Each file's proto path and text.
const BUNDLED_FILES: &[(&str, &str)] = &[
    ("google/protobuf/any.proto", ANY),
    ("google/protobuf/descriptor.proto", DESCRIPTOR),
    ("google/protobuf/duration.proto", DURATION),
    ("google/protobuf/empty.proto", EMPTY),
    ("google/protobuf/field_mask.proto", FIELD_MASK),
    ("google/protobuf/source_context.proto", SOURCE_CONTEXT),
    ("google/protobuf/struct.proto", STRUCT),
    ("google/protobuf/timestamp.proto", TIMESTAMP),
    ("google/protobuf/wrappers.proto", WRAPPERS),
];

/// The proto path and the text of each file that this library brings.
pub fn bundled_files() -> &'static [(&'static str, &'static str)]
    ensures { rows result.now ≡ shipped }
{
    BUNDLED_FILES
}

const ANY: &str = r#"syntax = "proto3";

package google.protobuf;

message Any {
  string type_url = 1;
  bytes value = 2;
}
"#;

const DESCRIPTOR: &str = r#"syntax = "proto2";

package google.protobuf;

message FileOptions {
  optional string java_package = 1;
  optional string java_outer_classname = 8;
  optional OptimizeMode optimize_for = 9;
  optional bool java_multiple_files = 10;
  optional string go_package = 11;
  optional bool cc_generic_services = 16;
  optional bool java_generic_services = 17;
  optional bool py_generic_services = 18;
  optional bool java_generate_equals_and_hash = 20;
  optional bool deprecated = 23;
  optional bool java_string_check_utf8 = 27;
  optional bool cc_enable_arenas = 31;
  optional string objc_class_prefix = 36;
  optional string csharp_namespace = 37;
  optional string swift_prefix = 39;
  optional string php_class_prefix = 40;
  optional string php_namespace = 41;
  optional string php_metadata_namespace = 44;
  optional string ruby_package = 45;
  repeated UninterpretedOption uninterpreted_option = 999;
  extensions 1000 to max;

  enum OptimizeMode {
    SPEED = 1;
    CODE_SIZE = 2;
    LITE_RUNTIME = 3;
  }
}

message MessageOptions {
  optional bool message_set_wire_format = 1;
  optional bool no_standard_descriptor_accessor = 2;
  optional bool deprecated = 3;
  optional bool map_entry = 7;
  repeated UninterpretedOption uninterpreted_option = 999;
  extensions 1000 to max;
}

message FieldOptions {
  optional CType ctype = 1;
  optional bool packed = 2;
  optional bool deprecated = 3;
  optional bool lazy = 5;
  optional JSType jstype = 6;
  optional bool weak = 10;
  optional bool unverified_lazy = 15;
  optional bool debug_redact = 16;
  repeated UninterpretedOption uninterpreted_option = 999;
  extensions 1000 to max;

  enum CType {
    STRING = 0;
    CORD = 1;
    STRING_PIECE = 2;
  }

  enum JSType {
    JS_NORMAL = 0;
    JS_STRING = 1;
    JS_NUMBER = 2;
  }
}

message OneofOptions {
  repeated UninterpretedOption uninterpreted_option = 999;
  extensions 1000 to max;
}

message EnumOptions {
  optional bool allow_alias = 2;
  optional bool deprecated = 3;
  repeated UninterpretedOption uninterpreted_option = 999;
  extensions 1000 to max;
}

message EnumValueOptions {
  optional bool deprecated = 1;
  repeated UninterpretedOption uninterpreted_option = 999;
  extensions 1000 to max;
}

message ServiceOptions {
  optional bool deprecated = 33;
  repeated UninterpretedOption uninterpreted_option = 999;
  extensions 1000 to max;
}

message MethodOptions {
  optional bool deprecated = 33;
  optional IdempotencyLevel idempotency_level = 34;
  repeated UninterpretedOption uninterpreted_option = 999;
  extensions 1000 to max;

  enum IdempotencyLevel {
    IDEMPOTENCY_UNKNOWN = 0;
    NO_SIDE_EFFECTS = 1;
    IDEMPOTENT = 2;
  }
}

message UninterpretedOption {
  message NamePart {
    required string name_part = 1;
    required bool is_extension = 2;
  }

  repeated NamePart name = 2;
  optional string identifier_value = 3;
  optional uint64 positive_int_value = 4;
  optional int64 negative_int_value = 5;
  optional double double_value = 6;
  optional bytes string_value = 7;
  optional string aggregate_value = 8;
}
"#;

const DURATION: &str = r#"syntax = "proto3";

package google.protobuf;

message Duration {
  int64 seconds = 1;
  int32 nanos = 2;
}
"#;

const EMPTY: &str = r#"syntax = "proto3";

package google.protobuf;

message Empty {}
"#;

const FIELD_MASK: &str = r#"syntax = "proto3";

package google.protobuf;

message FieldMask {
  repeated string paths = 1;
}
"#;

const SOURCE_CONTEXT: &str = r#"syntax = "proto3";

package google.protobuf;

message SourceContext {
  string file_name = 1;
}
"#;

const STRUCT: &str = r#"syntax = "proto3";

package google.protobuf;

message Struct {
  map<string, Value> fields = 1;
}

message Value {
  oneof kind {
    NullValue null_value = 1;
    double number_value = 2;
    string string_value = 3;
    bool bool_value = 4;
    Struct struct_value = 5;
    ListValue list_value = 6;
  }
}

enum NullValue {
  NULL_VALUE = 0;
}

message ListValue {
  repeated Value values = 1;
}
"#;

const TIMESTAMP: &str = r#"syntax = "proto3";

package google.protobuf;

message Timestamp {
  int64 seconds = 1;
  int32 nanos = 2;
}
"#;

const WRAPPERS: &str = r#"syntax = "proto3";

package google.protobuf;

message DoubleValue {
  double value = 1;
}

message FloatValue {
  float value = 1;
}

message Int64Value {
  int64 value = 1;
}

message UInt64Value {
  uint64 value = 1;
}

message Int32Value {
  int32 value = 1;
}

message UInt32Value {
  uint32 value = 1;
}

message BoolValue {
  bool value = 1;
}

message StringValue {
  string value = 1;
}

message BytesValue {
  bytes value = 1;
}
"#;
