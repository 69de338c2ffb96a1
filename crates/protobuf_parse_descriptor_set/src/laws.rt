//! Laws of the definitions. The functions do nothing.

ghost use Rattle.std.specs.Prelude.{[]};
ghost use Rattle.protobuf_parse_model.specs.Descriptors.{MessageParts};
ghost use Rattle.protobuf_parse_model.specs.Options.{EnumOptionValues, EnumValueOptionValues};
ghost use Rattle.protobuf_parse_model.specs.Options.{FieldOptionValues, FileOptionValues};
ghost use Rattle.protobuf_parse_model.specs.Options.{MessageOptionValues, MethodOptionValues};
ghost use Rattle.protobuf_parse_model.specs.Options.{OneofOptionValues, ServiceOptionValues};
ghost use Rattle.protobuf_parse_descriptor_set.specs.OptionItems as spec;
ghost use Rattle.protobuf_parse_descriptor_set.specs.Laws.{AreOneMessage, OneofsAreMoved};

/// The set has the oneofs of a message in another order, in which synthetic ones come last, and
/// each field stays in its oneof.
pub fn oneofs_are_moved()
    ensures { (m : MessageParts) → OneofsAreMoved m }
{}

/// The bytes of an options message are those of one message, in which the built-in options stand
/// before what the custom ones denote.
pub fn custom_options_are_fields()
    ensures file { AreOneMessage spec.file_option_items
        (λ (o : FileOptionValues). o.custom) spec.file_option_bytes }
    ensures message { AreOneMessage spec.message_option_items
        (λ (o : MessageOptionValues). o.custom) spec.message_option_bytes }
    ensures field { AreOneMessage spec.field_option_items
        (λ (o : FieldOptionValues). o.custom) spec.field_option_bytes }
    ensures oneof { AreOneMessage (λ (o : OneofOptionValues). [])
        (λ (o : OneofOptionValues). o.custom) spec.oneof_option_bytes }
    ensures enums { AreOneMessage spec.enum_option_items
        (λ (o : EnumOptionValues). o.custom) spec.enum_option_bytes }
    ensures value { AreOneMessage spec.enum_value_option_items
        (λ (o : EnumValueOptionValues). o.custom) spec.enum_value_option_bytes }
    ensures service { AreOneMessage spec.service_option_items
        (λ (o : ServiceOptionValues). o.custom) spec.service_option_bytes }
    ensures method { AreOneMessage spec.method_option_items
        (λ (o : MethodOptionValues). o.custom) spec.method_option_bytes }
{}
