//! Copies of what a run handed out, and descriptors made by hand.

use crate::indexing::files;
use protobuf_parse::{FieldType, FileDescriptorProto, Label};
use protobuf_parse_index::{
    Index, empty_enum, empty_enum_options, empty_field, empty_field_options, empty_file,
    empty_file_options, empty_message, empty_message_options, empty_method, empty_method_options,
    empty_oneof, empty_oneof_options, empty_service, empty_service_options, empty_value,
    empty_value_options,
};
use std::alloc::{AllocError, Global};
use std::test::Fail;

#[test]
fn copies_say_the_same(rt: HostRuntime) -> Result<(), Fail> {
    let files = files(rt.alloc())?;
    assert_eq!(rt; files.len(), 4);
    for file in &files {
        let copy = file.clone()?;
        assert_eq!(rt; copy == *file, true);
    }
    let copies = files.clone()?;
    assert_eq!(rt; copies == files, true);
    Ok(())
}

/// A file in which one of each kind stands.
fn filled(alloc: Global) -> Result<FileDescriptorProto, AllocError> {
    let mut field = empty_field(alloc, "order_id", 1, FieldType::String)?;
    field.oneof_index = Some(0);
    field.options = Some(empty_field_options(alloc));
    let mut oneof = empty_oneof(alloc, "key")?;
    oneof.options = Some(empty_oneof_options(alloc));
    let mut message = empty_message(alloc, "Order")?;
    message.field.push(field)?;
    message.oneof_decl.push(oneof)?;
    message.options = Some(empty_message_options(alloc));
    let mut value = empty_value(alloc, "NONE", -1)?;
    value.options = Some(empty_value_options(alloc));
    let mut kinds = empty_enum(alloc, "Kind")?;
    kinds.value.push(value)?;
    kinds.options = Some(empty_enum_options(alloc));
    let mut method = empty_method(alloc, "Place", ".Order", ".Answer")?;
    method.options = Some(empty_method_options(alloc));
    let mut service = empty_service(alloc, "Orders")?;
    service.method.push(method)?;
    service.options = Some(empty_service_options(alloc));
    let mut options = empty_file_options(alloc);
    options.java_multiple_files = Some(true);
    let mut file = empty_file(alloc, "shop/order.proto")?;
    file.message_type.push(message)?;
    file.enum_type.push(kinds)?;
    file.service.push(service)?;
    file.options = Some(options);
    Ok(file)
}

#[test]
fn empty_descriptors_are_filled_in(rt: HostRuntime) -> Result<(), Fail> {
    let alloc = rt.alloc();
    let mut files = Vec::new(alloc);
    files.push(filled(alloc)?)?;
    let index = Index::of(alloc, &files)?;
    let file = index.file("shop/order.proto").ok_or("absent")?;
    let options = file.options.as_ref().ok_or("absent")?;
    assert_eq!(rt; options.java_multiple_files, Some(true));
    assert_eq!(rt; options.deprecated, None);
    let field = index.field(".Order", 1).ok_or("absent")?;
    assert_eq!(rt; field.json_name.as_str(), "orderId");
    assert_eq!(rt; field.label == Label::Optional, true);
    assert_eq!(rt; field.type_ == FieldType::String, true);
    assert_eq!(rt; field.extendee.is_none(), true);
    assert_eq!(rt; index.value(".Kind", -1), Some("NONE"));
    let place = index.method(".Orders", "Place").ok_or("absent")?;
    assert_eq!(rt; place.input_type.as_str(), ".Order");
    assert_eq!(rt; place.output_type.as_str(), ".Answer");
    assert_eq!(rt; place.client_streaming, false);
    Ok(())
}
