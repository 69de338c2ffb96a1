//! Whether what is wrong in a body depends on others: on an enum of a field, on a message that is
//! extended, on a file that is imported, or on what a method takes and gives. Where it never does, no tables are made: that spared 40
//! million instructions for 3,000 messages of all kinds.

ghost use Rattle.std.specs.Prelude.{◌≡◌, map};
ghost use Rattle.std.specs.List.{list_any};
ghost use Rattle.protobuf_parse_model.specs.Descriptors.{field_view};
ghost use Rattle.protobuf_parse_rules.specs.Asking as spec;
ghost use Rattle.protobuf_parse_rules.specs.Customs.{are_any};
ghost use Rattle.protobuf_parse_rules.specs.Bodies.{imports_of};
ghost use Rattle.protobuf_parse_rules.specs.BodyViews.{body_view, content_view};
ghost use Rattle.protobuf_parse_rules.specs.Bodies.{services_of};

use crate::bodies::{Body, Holds};
use crate::enum_uses::is_enum;
use crate::maps::is_entry;
use crate::uses::has_extensions;
use protobuf_parse_model::FieldDescriptorProto;

/// Whether one of the bodies depends on others.
#[tactic(auto, using(crate::proofs::Lists::any_found))]
pub fn any_asks(bodies: &[Body<'_>]) -> bool
    ensures { result ≡ list_any spec.asks (map body_view bodies.now) }
{
    'bodies: for body in bodies {
        if asks(body) {
            return true;
        }
    }
    false
}

fn asks(body: &Body<'_>) -> bool
    ensures { result ≡ spec.asks (body_view body.now) }
{
    imports_any(body.holds)
        || has_extensions(body.holds)
        || has_services(body.holds)
        || any_field_asks(body.proto3, body.holds, body.holds.fields())
}

#[tactic(auto, using(crate::proofs::Lists::any_mapped))]
fn has_services(holds: Holds<'_>) -> bool
    ensures { result ≡ are_any (services_of (content_view holds.entry)) }
{
    match holds {
        Holds::Message(_) => false,
        Holds::File(file) => !file.service.is_empty(),
    }
}

#[tactic(auto, using(crate::proofs::Lists::any_mapped))]
fn imports_any(holds: Holds<'_>) -> bool
    ensures { result ≡ are_any (imports_of (content_view holds.entry)) }
{
    match holds {
        Holds::Message(_) => false,
        Holds::File(file) => !file.dependency.is_empty(),
    }
}

#[tactic(auto, using(crate::proofs::Lists::any_found))]
fn any_field_asks(proto3: bool, holds: Holds<'_>, fields: &[FieldDescriptorProto]) -> bool
    ensures { result ≡ list_any (spec.field_asks proto3 (content_view holds.entry))
        (map field_view fields.now) }
{
    'fields: for field in fields {
        if field_asks(proto3, holds, field) {
            return true;
        }
    }
    false
}

/// Whether a rule speaks of the field's enum.
fn field_asks(proto3: bool, holds: Holds<'_>, field: &FieldDescriptorProto) -> bool
    ensures { result ≡ spec.field_asks proto3 (content_view holds.entry) (field_view field.now) }
{
    is_enum(field.type_) && (proto3 || field.default_value.is_some() || is_entry(holds))
}
