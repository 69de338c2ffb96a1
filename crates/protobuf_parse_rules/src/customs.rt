//! Which constructs set custom options.

ghost use Rattle.std.specs.Prelude.{◌≡◌, map};
ghost use Rattle.std.specs.List.{list_any};
ghost use Rattle.protobuf_parse_model.specs.Descriptors.{enum_value_view, enum_view, field_view};
ghost use Rattle.protobuf_parse_model.specs.Descriptors.{file_view, method_view};
ghost use Rattle.protobuf_parse_model.specs.MessageParts.{message_parts};
ghost use Rattle.protobuf_parse_model.specs.Descriptors.{oneof_view, service_view};
ghost use Rattle.protobuf_parse_rules.specs.Customs as spec;
ghost use Rattle.protobuf_parse_rules.specs.BodyViews.{content_view};

use crate::bodies::Holds;
use protobuf_parse_model::{
    DescriptorProto, EnumDescriptorProto, EnumValueDescriptorProto, FieldDescriptorProto,
    FileDescriptorProto, MethodDescriptorProto, OneofDescriptorProto, ServiceDescriptorProto,
};

/// Whether anything there sets custom options, but for the messages inside.
pub fn sets_custom(holds: Holds<'_>) -> bool
    ensures { result ≡ spec.sets_custom (content_view holds.entry) }
{
    match holds {
        Holds::Message(message) => message_sets(message),
        Holds::File(file) => file_sets(file),
    }
}

fn message_sets(message: &DescriptorProto) -> bool
    ensures { result ≡ spec.message_sets (message_parts message.now) }
{
    message_itself_sets(message)
        || any_field_sets(&message.field)
        || any_oneof_sets(&message.oneof_decl)
        || any_enum_sets(&message.enum_type)
        || any_field_sets(&message.extension)
}

fn message_itself_sets(message: &DescriptorProto) -> bool
    ensures { result ≡ spec.message_itself_sets (message_parts message.now) }
{
    match &message.options {
        Some(options) => !options.custom.is_empty(),
        None => false,
    }
}

fn file_sets(file: &FileDescriptorProto) -> bool
    ensures { result ≡ spec.file_sets (file_view file.now) }
{
    file_itself_sets(file)
        || any_enum_sets(&file.enum_type)
        || any_service_sets(&file.service)
        || any_field_sets(&file.extension)
}

fn file_itself_sets(file: &FileDescriptorProto) -> bool
    ensures { result ≡ spec.file_itself_sets (file_view file.now) }
{
    match &file.options {
        Some(options) => !options.custom.is_empty(),
        None => false,
    }
}

#[tactic(auto, using(crate::proofs::Lists::any_found))]
fn any_field_sets(fields: &[FieldDescriptorProto]) -> bool
    ensures { result ≡ list_any spec.field_sets (map field_view fields.now) }
{
    'fields: for field in fields {
        if field_sets(field) {
            return true;
        }
    }
    false
}

fn field_sets(field: &FieldDescriptorProto) -> bool
    ensures { result ≡ spec.field_sets (field_view field.now) }
{
    match &field.options {
        Some(options) => !options.custom.is_empty(),
        None => false,
    }
}

#[tactic(auto, using(crate::proofs::Lists::any_found))]
fn any_oneof_sets(oneofs: &[OneofDescriptorProto]) -> bool
    ensures { result ≡ list_any spec.oneof_sets (map oneof_view oneofs.now) }
{
    'oneofs: for oneof in oneofs {
        if oneof_sets(oneof) {
            return true;
        }
    }
    false
}

fn oneof_sets(oneof: &OneofDescriptorProto) -> bool
    ensures { result ≡ spec.oneof_sets (oneof_view oneof.now) }
{
    match &oneof.options {
        Some(options) => !options.custom.is_empty(),
        None => false,
    }
}

#[tactic(auto, using(crate::proofs::Lists::any_found))]
fn any_enum_sets(enums: &[EnumDescriptorProto]) -> bool
    ensures { result ≡ list_any spec.enum_sets (map enum_view enums.now) }
{
    'enums: for each in enums {
        if enum_sets(each) {
            return true;
        }
    }
    false
}

fn enum_sets(each: &EnumDescriptorProto) -> bool
    ensures { result ≡ spec.enum_sets (enum_view each.now) }
{
    enum_itself_sets(each) || any_value_sets(&each.value)
}

fn enum_itself_sets(each: &EnumDescriptorProto) -> bool
    ensures { result ≡ spec.enum_itself_sets (enum_view each.now) }
{
    match &each.options {
        Some(options) => !options.custom.is_empty(),
        None => false,
    }
}

#[tactic(auto, using(crate::proofs::Lists::any_found))]
fn any_value_sets(values: &[EnumValueDescriptorProto]) -> bool
    ensures { result ≡ list_any spec.value_sets (map enum_value_view values.now) }
{
    'values: for value in values {
        if value_sets(value) {
            return true;
        }
    }
    false
}

fn value_sets(value: &EnumValueDescriptorProto) -> bool
    ensures { result ≡ spec.value_sets (enum_value_view value.now) }
{
    match &value.options {
        Some(options) => !options.custom.is_empty(),
        None => false,
    }
}

#[tactic(auto, using(crate::proofs::Lists::any_found))]
fn any_service_sets(services: &[ServiceDescriptorProto]) -> bool
    ensures { result ≡ list_any spec.service_sets (map service_view services.now) }
{
    'services: for service in services {
        if service_sets(service) {
            return true;
        }
    }
    false
}

fn service_sets(service: &ServiceDescriptorProto) -> bool
    ensures { result ≡ spec.service_sets (service_view service.now) }
{
    service_itself_sets(service) || any_method_sets(&service.method)
}

fn service_itself_sets(service: &ServiceDescriptorProto) -> bool
    ensures { result ≡ spec.service_itself_sets (service_view service.now) }
{
    match &service.options {
        Some(options) => !options.custom.is_empty(),
        None => false,
    }
}

#[tactic(auto, using(crate::proofs::Lists::any_found))]
fn any_method_sets(methods: &[MethodDescriptorProto]) -> bool
    ensures { result ≡ list_any spec.method_sets (map method_view methods.now) }
{
    'methods: for method in methods {
        if method_sets(method) {
            return true;
        }
    }
    false
}

fn method_sets(method: &MethodDescriptorProto) -> bool
    ensures { result ≡ spec.method_sets (method_view method.now) }
{
    match &method.options {
        Some(options) => !options.custom.is_empty(),
        None => false,
    }
}
