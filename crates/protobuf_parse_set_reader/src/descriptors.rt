//! Files, enums, services and ranges: a line a field, with its number in `descriptor.proto`.

ghost use Rattle.std.specs.Prelude.{◌≡◌};
ghost use Rattle.protobuf_parse_model.specs.Descriptors as model;
ghost use Rattle.protobuf_parse_set_reader.specs.Reading as spec;

use crate::body::Body;
use crate::fault::{SetError, SetFaultKind};
use crate::lists::{ints, texts};
use crate::messages::{MOST_LEVELS, messages};
use crate::parts::{Part, merged, parts};
use crate::type_names::TypeNames;
use crate::values::{declared_name, flag_or_false, int_or_zero, needed_text, text};
use protobuf_parse_model::{
    EnumDescriptorProto, EnumReservedRange, EnumValueDescriptorProto, ExtensionRange,
    FileDescriptorProto, MethodDescriptorProto, ReservedRange, ServiceDescriptorProto,
};
use std::alloc::Global;

impl Part for FileDescriptorProto {
    ghost View = { model.FileDescriptor };

    ghost view = { model.file_view };

    ghost of = { spec.file_of };

    #[tactic(auto, unfolding(crate::specs::Reading::file_of))]
    fn read(alloc: Global, types: &TypeNames, body: &Body<'_>) -> Result<Self, SetError> {
        Ok(FileDescriptorProto {
            name: Some(needed_text(alloc, body, 1, SetFaultKind::NoName)?),
            package: text(alloc, body, 2)?,
            dependency: texts(alloc, body, 3)?,
            message_type: messages(alloc, types, MOST_LEVELS, body, 4)?,
            enum_type: parts(alloc, types, body, 5)?,
            service: parts(alloc, types, body, 6)?,
            extension: parts(alloc, types, body, 7)?,
            public_dependency: ints(alloc, body, 10)?,
            weak_dependency: ints(alloc, body, 11)?,
            syntax: text(alloc, body, 12)?,
            options: merged(alloc, types, body, 8)?,
        })
    }
}

impl Part for ExtensionRange {
    ghost View = { model.Range };

    ghost view = { model.extension_range_view };

    ghost of = { λ types. spec.range_of };

    #[tactic(auto, unfolding(crate::specs::Reading::range_of))]
    fn read(_alloc: Global, _types: &TypeNames, body: &Body<'_>) -> Result<Self, SetError> {
        Ok(ExtensionRange {
            start: int_or_zero(body, 1)?,
            end: int_or_zero(body, 2)?,
        })
    }
}

impl Part for ReservedRange {
    ghost View = { model.Range };

    ghost view = { model.reserved_range_view };

    ghost of = { λ types. spec.range_of };

    #[tactic(auto, unfolding(crate::specs::Reading::range_of))]
    fn read(_alloc: Global, _types: &TypeNames, body: &Body<'_>) -> Result<Self, SetError> {
        Ok(ReservedRange {
            start: int_or_zero(body, 1)?,
            end: int_or_zero(body, 2)?,
        })
    }
}

impl Part for EnumReservedRange {
    ghost View = { model.Range };

    ghost view = { model.enum_range_view };

    ghost of = { λ types. spec.range_of };

    #[tactic(auto, unfolding(crate::specs::Reading::range_of))]
    fn read(_alloc: Global, _types: &TypeNames, body: &Body<'_>) -> Result<Self, SetError> {
        Ok(EnumReservedRange {
            start: int_or_zero(body, 1)?,
            end: int_or_zero(body, 2)?,
        })
    }
}

impl Part for EnumDescriptorProto {
    ghost View = { model.EnumDescriptor };

    ghost view = { model.enum_view };

    ghost of = { λ types. spec.enum_of };

    #[tactic(auto, unfolding(crate::specs::Reading::enum_of))]
    fn read(alloc: Global, types: &TypeNames, body: &Body<'_>) -> Result<Self, SetError> {
        Ok(EnumDescriptorProto {
            name: declared_name(alloc, body)?,
            value: parts(alloc, types, body, 2)?,
            options: merged(alloc, types, body, 3)?,
            reserved_range: parts(alloc, types, body, 4)?,
            reserved_name: texts(alloc, body, 5)?,
        })
    }
}

impl Part for EnumValueDescriptorProto {
    ghost View = { model.EnumValueDescriptor };

    ghost view = { model.enum_value_view };

    ghost of = { λ types. spec.enum_value_of };

    #[tactic(auto, unfolding(crate::specs::Reading::enum_value_of))]
    fn read(alloc: Global, types: &TypeNames, body: &Body<'_>) -> Result<Self, SetError> {
        Ok(EnumValueDescriptorProto {
            name: declared_name(alloc, body)?,
            number: int_or_zero(body, 2)?,
            options: merged(alloc, types, body, 3)?,
        })
    }
}

impl Part for ServiceDescriptorProto {
    ghost View = { model.ServiceDescriptor };

    ghost view = { model.service_view };

    ghost of = { λ types. spec.service_of };

    #[tactic(auto, unfolding(crate::specs::Reading::service_of))]
    fn read(alloc: Global, types: &TypeNames, body: &Body<'_>) -> Result<Self, SetError> {
        Ok(ServiceDescriptorProto {
            name: declared_name(alloc, body)?,
            method: parts(alloc, types, body, 2)?,
            options: merged(alloc, types, body, 3)?,
        })
    }
}

impl Part for MethodDescriptorProto {
    ghost View = { model.MethodDescriptor };

    ghost view = { model.method_view };

    ghost of = { λ types. spec.method_of };

    #[tactic(auto, unfolding(crate::specs::Reading::method_of))]
    fn read(alloc: Global, types: &TypeNames, body: &Body<'_>) -> Result<Self, SetError> {
        Ok(MethodDescriptorProto {
            name: declared_name(alloc, body)?,
            input_type: needed_text(alloc, body, 2, SetFaultKind::NoMethodType)?,
            output_type: needed_text(alloc, body, 3, SetFaultKind::NoMethodType)?,
            options: merged(alloc, types, body, 4)?,
            client_streaming: flag_or_false(body, 5)?,
            server_streaming: flag_or_false(body, 6)?,
        })
    }
}
