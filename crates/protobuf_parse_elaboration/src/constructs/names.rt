//! What has a name in its scope.

ghost use Rattle.std.specs.Prelude.{◌≡◌, ℕ, List};
ghost use Rattle.protobuf_parse_syntax.specs.Trees as tree;
ghost use Rattle.protobuf_parse_model.specs.Descriptors as described;
ghost use Rattle.protobuf_parse_elaboration.specs.NamesOf.{message_name};

use protobuf_parse_model::{
    DescriptorProto, EnumDescriptorProto, EnumValueDescriptorProto, FieldDescriptorProto,
    OneofDescriptorProto, ServiceDescriptorProto,
};
use protobuf_parse_syntax::Method;

/// What has a name in its scope.
pub trait Named {
    ghost name_of: { Self → List ℕ };

    fn name(&self) -> &str
        ensures { result.now ≡ name_of self.now };
}

impl Named for FieldDescriptorProto {
    ghost name_of = { λ field. (described.field_view field).name };

    fn name(&self) -> &str {
        self.name.as_str()
    }
}

impl Named for OneofDescriptorProto {
    ghost name_of = { λ oneof. (described.oneof_view oneof).name };

    fn name(&self) -> &str {
        self.name.as_str()
    }
}

impl Named for EnumDescriptorProto {
    ghost name_of = { λ each. (described.enum_view each).name };

    fn name(&self) -> &str {
        self.name.as_str()
    }
}

impl Named for DescriptorProto {
    ghost name_of = { λ message. message_name (described.message_view message) };

    fn name(&self) -> &str {
        self.name.as_str()
    }
}

impl Named for ServiceDescriptorProto {
    ghost name_of = { λ service. (described.service_view service).name };

    fn name(&self) -> &str {
        self.name.as_str()
    }
}

impl Named for EnumValueDescriptorProto {
    ghost name_of = { λ value. (described.enum_value_view value).name };

    fn name(&self) -> &str {
        self.name.as_str()
    }
}

impl Named for &Method {
    ghost name_of = { λ method. (tree.method_syntax method.now).name };

    fn name(&self) -> &str {
        &self.name
    }
}
