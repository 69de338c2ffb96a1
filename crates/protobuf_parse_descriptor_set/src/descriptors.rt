//! Files, enums and services: a call a field, in the order of their numbers in `descriptor.proto`.

ghost use Rattle.std.specs.Prelude.{◌≡◌, ◌++◌, Bool, OnOk, flat_map, map, option_map, string_bytes};
ghost use Rattle.protobuf_parse_model.specs.Descriptors as model;
ghost use Rattle.protobuf_parse_descriptor_set.specs.Writing.{Writes};
ghost use Rattle.protobuf_parse_descriptor_set.specs.DescriptorItems as spec;

use crate::messages::put_messages;
use crate::parts::{Described, put_options, put_parts};
use crate::records::{
    put_flag_if, put_int, put_ints, put_text, put_text_if_some, put_texts, put_whole_if_some,
};
use protobuf_parse_model::{
    EnumDescriptorProto, EnumReservedRange, EnumValueDescriptorProto, FileDescriptorProto,
    MethodDescriptorProto, ServiceDescriptorProto,
};
use std::alloc::{AllocError, Global};

impl Described for FileDescriptorProto {
    ghost View = { model.FileDescriptor };

    ghost view = { model.file_view };

    ghost items = { spec.file_items };

    #[tactic(auto, unfolding(crate::specs::DescriptorItems::file_items))]
    fn put(&self, alloc: Global, out: &mut Vec<u8>) -> Result<(), AllocError> {
        put_file(alloc, out, self, None)
    }
}

/// Writes a file with the bytes of its source info, if it is to have one.
#[tactic(auto, unfolding(crate::specs::DescriptorItems::file_with))]
pub fn put_file(
    alloc: Global,
    out: &mut Vec<u8>,
    file: &FileDescriptorProto,
    info: Option<&[u8]>,
) -> Result<(), AllocError>
    ensures { OnOk result
        (Writes (spec.file_with (option_map (λ b. b.now) info.entry) (model.file_view file.now))
        out.old.items out.new.items) }
{
    put_text_if_some(out, 1, &file.name)?;
    put_text_if_some(out, 2, &file.package)?;
    put_texts(out, 3, &file.dependency)?;
    put_messages(alloc, out, 4, &file.message_type)?;
    put_parts(alloc, out, 5, &file.enum_type)?;
    put_parts(alloc, out, 6, &file.service)?;
    put_parts(alloc, out, 7, &file.extension)?;
    put_options(out, 8, &file.options)?;
    put_whole_if_some(out, 9, info)?;
    put_ints(out, 10, &file.public_dependency)?;
    put_ints(out, 11, &file.weak_dependency)?;
    put_syntax(out, &file.syntax)
}

/// Writes the syntax where it is proto3.
#[tactic(auto, using(crate::proofs::Joining::none_yet))]
fn put_syntax(out: &mut Vec<u8>, syntax: &Option<String>) -> Result<(), AllocError>
    ensures { OnOk result
        (Writes (spec.syntax_items (option_map string_bytes syntax.now))
        out.old.items out.new.items) }
{
    match syntax {
        None => Ok(()),
        Some(syntax) => {
            if syntax.as_str() == "proto3" {
                put_text(out, 12, syntax)
            } else {
                Ok(())
            }
        }
    }
}

impl Described for EnumReservedRange {
    ghost View = { model.Range };

    ghost view = { model.enum_range_view };

    ghost items = { spec.range_items };

    #[tactic(auto, unfolding(crate::specs::DescriptorItems::range_items))]
    fn put(&self, _alloc: Global, out: &mut Vec<u8>) -> Result<(), AllocError> {
        put_int(out, 1, &self.start)?;
        put_int(out, 2, &self.end)
    }
}

impl Described for EnumDescriptorProto {
    ghost View = { model.EnumDescriptor };

    ghost view = { model.enum_view };

    ghost items = { spec.enum_items };

    #[tactic(auto, unfolding(crate::specs::DescriptorItems::enum_items))]
    fn put(&self, alloc: Global, out: &mut Vec<u8>) -> Result<(), AllocError> {
        put_text(out, 1, self.name.as_str())?;
        put_parts(alloc, out, 2, &self.value)?;
        put_options(out, 3, &self.options)?;
        put_parts(alloc, out, 4, &self.reserved_range)?;
        put_texts(out, 5, &self.reserved_name)
    }
}

impl Described for EnumValueDescriptorProto {
    ghost View = { model.EnumValueDescriptor };

    ghost view = { model.enum_value_view };

    ghost items = { spec.enum_value_items };

    #[tactic(auto, unfolding(crate::specs::DescriptorItems::enum_value_items))]
    fn put(&self, _alloc: Global, out: &mut Vec<u8>) -> Result<(), AllocError> {
        put_text(out, 1, self.name.as_str())?;
        put_int(out, 2, &self.number)?;
        put_options(out, 3, &self.options)
    }
}

impl Described for ServiceDescriptorProto {
    ghost View = { model.ServiceDescriptor };

    ghost view = { model.service_view };

    ghost items = { spec.service_items };

    #[tactic(auto, unfolding(crate::specs::DescriptorItems::service_items))]
    fn put(&self, alloc: Global, out: &mut Vec<u8>) -> Result<(), AllocError> {
        put_text(out, 1, self.name.as_str())?;
        put_parts(alloc, out, 2, &self.method)?;
        put_options(out, 3, &self.options)
    }
}

impl Described for MethodDescriptorProto {
    ghost View = { model.MethodDescriptor };

    ghost view = { model.method_view };

    ghost items = { spec.method_items };

    #[tactic(auto, unfolding(crate::specs::DescriptorItems::method_items))]
    fn put(&self, _alloc: Global, out: &mut Vec<u8>) -> Result<(), AllocError> {
        put_text(out, 1, self.name.as_str())?;
        put_text(out, 2, &self.input_type)?;
        put_text(out, 3, &self.output_type)?;
        put_options(out, 4, &self.options)?;
        put_flag_if(out, 5, self.client_streaming)?;
        put_flag_if(out, 6, self.server_streaming)
    }
}
