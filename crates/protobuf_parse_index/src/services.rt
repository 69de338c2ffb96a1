//! The services that files declare.

ghost use Rattle.std.specs.Prelude.{◌≡◌, ◌++◌, map, OnOk, IfOk};
ghost use Rattle.protobuf_parse_model.specs.Descriptors.{file_view};
ghost use Rattle.protobuf_parse_index.specs.Views.{standing_service};
ghost use Rattle.protobuf_parse_index.specs.Walk.{all_services};
ghost use Rattle.protobuf_parse_index.specs.Walk as spec;

use crate::declared::Declared;
use crate::walk::path_of;
use protobuf_parse_model::{FileDescriptorProto, ServiceDescriptorProto};
use protobuf_parse_wire::package_scope;
use std::alloc::{AllocError, Global};

/// The services of the files, in order.
pub fn services_of(
    alloc: Global,
    files: &[FileDescriptorProto],
) -> Result<Vec<Declared<'_, ServiceDescriptorProto>>, AllocError>
    ensures { IfOk result
        (λ v. map standing_service v.items ≡ all_services (map file_view files.now)) }
{
    let mut services = Vec::new(alloc);
    'files: for file in files {
        add_services(alloc, &mut services, file)?;
    }
    Ok(services)
}

fn add_services<'a>(
    alloc: Global,
    services: &mut Vec<Declared<'a, ServiceDescriptorProto>>,
    file: &'a FileDescriptorProto,
) -> Result<(), AllocError>
    ensures { OnOk result (map standing_service services.new.items
        ≡ map standing_service services.old.items ++ spec.services_of (file_view file.now)) }
{
    let path = path_of(file);
    let scope = package_scope(alloc, file)?;
    'declared: for each in &file.service {
        let full_name = format!(in alloc; "{scope}.{}", each.name)?;
        services.push(Declared {
            file: path,
            full_name,
            descriptor: each,
        })?;
    }
    Ok(())
}
