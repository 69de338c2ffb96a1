//! Services by their full names, and their methods by their names.

ghost use Rattle.std.specs.Prelude.{◌≡◌, ◌++◌, flat_map, map, OnOk};
ghost use Rattle.protobuf_parse_model.specs.Descriptors.{file_view, method_view};
ghost use Rattle.protobuf_parse_index.specs.Views.{standing_service};
ghost use Rattle.protobuf_parse_changes.specs.Services as spec;
ghost use Rattle.protobuf_parse_changes.specs.Views.{place_view, told};

use crate::change::{Change, Place, place_of, tell, tell_if};
use crate::kind::ChangeKind;
use crate::within::{descriptor_in, file_in};
use protobuf_parse_index::{Declared, Index};
use protobuf_parse_model::{MethodDescriptorProto, ServiceDescriptorProto};
use std::alloc::AllocError;

/// Tells what became of services of the old files.
pub fn services_changes<'c>(
    changes: &mut Vec<Change<'c>>,
    new_index: &'c Index<'_>,
    services: &'c [Declared<'_, ServiceDescriptorProto>],
) -> Result<(), AllocError>
    ensures { OnOk result (told changes.new ≡ told changes.old
        ++ flat_map (spec.service_changes (map file_view new_index.now))
        (map standing_service services.now)) }
{
    'services: for service in services {
        service_changes(changes, new_index, service)?;
    }
    Ok(())
}

fn service_changes<'c>(
    changes: &mut Vec<Change<'c>>,
    new_index: &'c Index<'_>,
    service: &'c Declared<'_, ServiceDescriptorProto>,
) -> Result<(), AllocError>
    ensures { OnOk result (told changes.new ≡ told changes.old
        ++ spec.service_changes (map file_view new_index.now) (standing_service service.now)) }
{
    let at = place_of(file_in(service), &service.full_name);
    match new_index.service(&service.full_name) {
        Some(_) => methods_changes(changes, new_index, at, &descriptor_in(service).method),
        None => tell(changes, ChangeKind::ServiceRemoved, at),
    }
}

fn methods_changes<'c>(
    changes: &mut Vec<Change<'c>>,
    new_index: &'c Index<'_>,
    at: Place<'c>,
    methods: &'c [MethodDescriptorProto],
) -> Result<(), AllocError>
    ensures { OnOk result (told changes.new ≡ told changes.old
        ++ flat_map (spec.method_changes (map file_view new_index.now) (place_view at.entry))
        (map method_view methods.now)) }
{
    'methods: for method in methods {
        method_changes(changes, new_index, at, method)?;
    }
    Ok(())
}

fn method_changes<'c>(
    changes: &mut Vec<Change<'c>>,
    new_index: &'c Index<'_>,
    at: Place<'c>,
    method: &'c MethodDescriptorProto,
) -> Result<(), AllocError>
    ensures { OnOk result (told changes.new ≡ told changes.old
        ++ spec.method_changes (map file_view new_index.now) (place_view at.entry)
        (method_view method.now)) }
{
    let found = new_index.method(at.name, &method.name);
    let at = at.inside(&method.name, None);
    match found {
        Some(kept) => kept_method(changes, at, method, kept),
        None => tell(changes, ChangeKind::MethodRemoved, at),
    }
}

fn kept_method<'c>(
    changes: &mut Vec<Change<'c>>,
    at: Place<'c>,
    old: &MethodDescriptorProto,
    new: &MethodDescriptorProto,
) -> Result<(), AllocError>
    ensures { OnOk result (told changes.new ≡ told changes.old
        ++ spec.kept_method (place_view at.entry) (method_view old.now) (method_view new.now)) }
{
    let input = old.input_type.as_str() != new.input_type.as_str();
    tell_if(changes, input, ChangeKind::InputChanged, at)?;
    let output = old.output_type.as_str() != new.output_type.as_str();
    tell_if(changes, output, ChangeKind::OutputChanged, at)?;
    let client = old.client_streaming != new.client_streaming;
    tell_if(changes, client, ChangeKind::ClientStreamingChanged, at)?;
    let server = old.server_streaming != new.server_streaming;
    tell_if(changes, server, ChangeKind::ServerStreamingChanged, at)
}
