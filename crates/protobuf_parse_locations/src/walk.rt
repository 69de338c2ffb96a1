//! A walk over all that a file declares.

ghost use Rattle.std.specs.Prelude.{◌≡◌, ◌∷◌, [], map, OnOk, IfOk, string_bytes};
ghost use Rattle.protobuf_parse_model.specs.Descriptors.{enum_value_view, enum_view, field_view};
ghost use Rattle.protobuf_parse_model.specs.Descriptors.{file_view, message_view, method_view};
ghost use Rattle.protobuf_parse_model.specs.Descriptors.{oneof_view, service_view};
ghost use Rattle.protobuf_parse_model.specs.MessageParts.{message_parts};
ghost use Rattle.protobuf_parse_locations.specs.Adds.{Adds};
ghost use Rattle.protobuf_parse_locations.specs.Declarations as spec;
ghost use Rattle.protobuf_parse_locations.specs.Declarations.{items};
ghost use Rattle.protobuf_parse_locations.specs.Views.{declaration_view};

use crate::declaration::{Declaration, DeclarationKind};
use crate::oneofs::synthetic_oneofs;
use crate::paths::{next, nth};
use protobuf_parse_model::{
    DescriptorProto, EnumDescriptorProto, EnumValueDescriptorProto, FieldDescriptorProto,
    FileDescriptorProto, MethodDescriptorProto, OneofDescriptorProto, ServiceDescriptorProto,
};
use protobuf_parse_wire::{name_within, package_scope};
use std::alloc::{AllocError, Global};

/// All that a file declares, in the order of the paths: the messages, the enums, the services and
/// then the extensions; each message before its fields, the messages inside it, its enums, its
/// extensions and its oneofs; an enum before its values, and a service before its methods.
///
/// The messages that stand behind maps and groups are among them. The synthetic oneofs of proto3's
/// `optional` are not: no text has them, and the others count without them. The one error is that
/// memory is short. Time is in proportion to the names and paths.
///
/// ```text
/// for each in &declarations(alloc, file)? {
///     println!(rt; "{} {:?}", each.full_name, each.path)?;
/// }
/// ```
pub fn declarations(
    alloc: Global,
    file: &FileDescriptorProto,
) -> Result<Vec<Declaration>, AllocError>
    ensures { IfOk result (λ ds. map declaration_view ds.items
        ≡ spec.declarations_of (file_view file.now)) }
{
    let scope = package_scope(alloc, file)?;
    let mut all = Vec::new(alloc);
    add_messages(alloc, &mut all, &scope, &[], 4, &file.message_type)?;
    add_enums(alloc, &mut all, &scope, &[], 5, &file.enum_type)?;
    add_services(alloc, &mut all, &scope, &file.service)?;
    let kind = DeclarationKind::Extension;
    add_fields(alloc, &mut all, kind, &scope, &[], 7, &file.extension)?;
    Ok(all)
}

/// Adds a declaration.
fn add(
    alloc: Global,
    all: &mut Vec<Declaration>,
    kind: DeclarationKind,
    scope: &str,
    name: &str,
    path: Vec<u32>,
) -> Result<(), AllocError>
    ensures { OnOk result (Adds all.old.items all.new.items
        (spec.named kind scope.now name.now path.items ∷ [])) }
{
    all.push(Declaration {
        kind,
        full_name: name_within(alloc, scope, name)?,
        path,
    })?;
    Ok(())
}

/// Adds the fields, or extensions, of that list of what stands at the path.
fn add_fields(
    alloc: Global,
    all: &mut Vec<Declaration>,
    kind: DeclarationKind,
    scope: &str,
    path: &[u32],
    list: u32,
    fields: &[FieldDescriptorProto],
) -> Result<(), AllocError>
    ensures { OnOk result (Adds all.old.items all.new.items
        (items (spec.field_at kind scope.now) path.now list 0 (map field_view fields.now))) }
{
    let mut index = 0;
    'fields: for field in fields {
        let here = nth(alloc, path, list, index)?;
        add(alloc, all, kind, scope, &field.name, here)?;
        index = next(index);
    }
    Ok(())
}

/// Adds the oneofs of the message at the path that are written.
fn add_oneofs(
    alloc: Global,
    all: &mut Vec<Declaration>,
    scope: &str,
    path: &[u32],
    fields: &[FieldDescriptorProto],
    oneofs: &[OneofDescriptorProto],
) -> Result<(), AllocError>
    ensures { OnOk result (Adds all.old.items all.new.items
        (items (spec.oneof_at scope.now) path.now 8 0
        (spec.written (map field_view fields.now) 0 (map oneof_view oneofs.now)))) }
{
    let synthetic = synthetic_oneofs(alloc, fields, oneofs.len())?;
    let mut index = 0;
    'oneofs: for (at, oneof) in oneofs.iter().enumerate() {
        if !synthetic[at] {
            let here = nth(alloc, path, 8, index)?;
            add(alloc, all, DeclarationKind::Oneof, scope, &oneof.name, here)?;
            index = next(index);
        }
    }
    Ok(())
}

/// Adds the values of the enum at the path.
fn add_values(
    alloc: Global,
    all: &mut Vec<Declaration>,
    scope: &str,
    path: &[u32],
    values: &[EnumValueDescriptorProto],
) -> Result<(), AllocError>
    ensures { OnOk result (Adds all.old.items all.new.items
        (items (spec.value_at scope.now) path.now 2 0 (map enum_value_view values.now))) }
{
    let mut index = 0;
    'values: for value in values {
        let here = nth(alloc, path, 2, index)?;
        add(alloc, all, DeclarationKind::Value, scope, &value.name, here)?;
        index = next(index);
    }
    Ok(())
}

/// Adds an enum, and its values, which stand in the scope around it.
fn add_enum(
    alloc: Global,
    all: &mut Vec<Declaration>,
    scope: &str,
    path: Vec<u32>,
    enumeration: &EnumDescriptorProto,
) -> Result<(), AllocError>
    ensures { OnOk result (Adds all.old.items all.new.items
        (spec.enum_at scope.now path.items (enum_view enumeration.now))) }
{
    let here = path.clone()?;
    add(
        alloc,
        all,
        DeclarationKind::Enum,
        scope,
        &enumeration.name,
        here,
    )?;
    add_values(alloc, all, scope, &path, &enumeration.value)
}

/// Adds the enums of that list of what stands at the path.
fn add_enums(
    alloc: Global,
    all: &mut Vec<Declaration>,
    scope: &str,
    path: &[u32],
    list: u32,
    enums: &[EnumDescriptorProto],
) -> Result<(), AllocError>
    ensures { OnOk result (Adds all.old.items all.new.items
        (items (spec.enum_at scope.now) path.now list 0 (map enum_view enums.now))) }
{
    let mut index = 0;
    'enums: for each in enums {
        let here = nth(alloc, path, list, index)?;
        add_enum(alloc, all, scope, here, each)?;
        index = next(index);
    }
    Ok(())
}

/// Adds the methods of the service at the path.
fn add_methods(
    alloc: Global,
    all: &mut Vec<Declaration>,
    scope: &str,
    path: &[u32],
    methods: &[MethodDescriptorProto],
) -> Result<(), AllocError>
    ensures { OnOk result (Adds all.old.items all.new.items
        (items (spec.method_at scope.now) path.now 2 0 (map method_view methods.now))) }
{
    let mut index = 0;
    'methods: for method in methods {
        let here = nth(alloc, path, 2, index)?;
        add(
            alloc,
            all,
            DeclarationKind::Method,
            scope,
            &method.name,
            here,
        )?;
        index = next(index);
    }
    Ok(())
}

/// Adds a service, and its methods.
fn add_service(
    alloc: Global,
    all: &mut Vec<Declaration>,
    scope: &str,
    path: Vec<u32>,
    service: &ServiceDescriptorProto,
) -> Result<(), AllocError>
    ensures { OnOk result (Adds all.old.items all.new.items
        (spec.service_at scope.now path.items (service_view service.now))) }
{
    let here = path.clone()?;
    add(
        alloc,
        all,
        DeclarationKind::Service,
        scope,
        &service.name,
        here,
    )?;
    let inside = name_within(alloc, scope, &service.name)?;
    add_methods(alloc, all, &inside, &path, &service.method)
}

/// Adds the services of a file.
fn add_services(
    alloc: Global,
    all: &mut Vec<Declaration>,
    scope: &str,
    services: &[ServiceDescriptorProto],
) -> Result<(), AllocError>
    ensures { OnOk result (Adds all.old.items all.new.items
        (items (spec.service_at scope.now) [] 6 0 (map service_view services.now))) }
{
    let mut index = 0;
    'services: for service in services {
        let here = nth(alloc, &[], 6, index)?;
        add_service(alloc, all, scope, here, service)?;
        index = next(index);
    }
    Ok(())
}

/// Adds the messages of that list of what stands at the path, each with what stands in it.
#[cycle(messages)]
fn add_messages(
    alloc: Global,
    all: &mut Vec<Declaration>,
    scope: &str,
    path: &[u32],
    list: u32,
    messages: &[DescriptorProto],
) -> Result<(), AllocError>
    ensures { OnOk result (Adds all.old.items all.new.items
        (items (spec.message_at scope.now) path.now list 0 (map message_view messages.now))) }
{
    let mut index = 0;
    'messages: for message in messages {
        let here = nth(alloc, path, list, index)?;
        add_message(alloc, all, scope, here, message)?;
        index = next(index);
    }
    Ok(())
}

#[cycle(messages)]
fn add_message(
    alloc: Global,
    all: &mut Vec<Declaration>,
    scope: &str,
    path: Vec<u32>,
    message: &DescriptorProto,
) -> Result<(), AllocError>
    ensures { OnOk result (Adds all.old.items all.new.items
        (spec.message_at scope.now path.items (message_view message.now))) }
{
    let here = path.clone()?;
    add(
        alloc,
        all,
        DeclarationKind::Message,
        scope,
        &message.name,
        here,
    )?;
    let inside = name_within(alloc, scope, &message.name)?;
    let kind = DeclarationKind::Field;
    add_fields(alloc, all, kind, &inside, &path, 2, &message.field)?;
    add_messages(alloc, all, &inside, &path, 3, &message.nested_type)?;
    add_behind(alloc, all, &inside, &path, message)
}

/// Adds what stands in a message behind its fields and the messages inside it.
fn add_behind(
    alloc: Global,
    all: &mut Vec<Declaration>,
    scope: &str,
    path: &[u32],
    message: &DescriptorProto,
) -> Result<(), AllocError>
    ensures { OnOk result (Adds all.old.items all.new.items
        (spec.behind_messages scope.now path.now (message_parts message.now))) }
{
    add_enums(alloc, all, scope, path, 4, &message.enum_type)?;
    let kind = DeclarationKind::Extension;
    add_fields(alloc, all, kind, scope, path, 6, &message.extension)?;
    add_oneofs(alloc, all, scope, path, &message.field, &message.oneof_decl)
}
