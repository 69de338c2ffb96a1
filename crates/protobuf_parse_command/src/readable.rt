//! Descriptors that the texts of this library can say.

use protobuf_parse::{DescriptorProto, FieldDescriptorProto, FieldType, FileDescriptorProto};

/// Takes the defaults of floats out of the file, since floats are no constants here.
pub fn clear_float_defaults(file: &mut FileDescriptorProto) {
    clear_fields(&mut file.extension);
    clear_messages(&mut file.message_type);
}

#[cycle(messages)]
fn clear_messages(messages: &mut [DescriptorProto]) {
    for message in messages.iter_mut() {
        clear_message(message);
    }
}

#[cycle(messages)]
fn clear_message(message: &mut DescriptorProto) {
    clear_fields(&mut message.field);
    clear_fields(&mut message.extension);
    clear_messages(&mut message.nested_type);
}

fn clear_fields(fields: &mut [FieldDescriptorProto]) {
    for field in fields.iter_mut() {
        if matches!(field.type_, FieldType::Float | FieldType::Double) {
            field.default_value = None;
        }
    }
}
