//! Services.

ghost use Rattle.std.specs.Prelude.{◌≡◌, ◌++◌, [], map, flat_map, option_map, string_bytes};
ghost use Rattle.std.specs.Prelude.{bytes_eq, unwrap_or, IfOk};
ghost use Rattle.protobuf_parse_syntax.specs.Trees as tree;
ghost use Rattle.protobuf_parse_model.specs.BuiltinOptions.{method_table, service_table};
ghost use Rattle.protobuf_parse_model.specs.Descriptors as described;
ghost use Rattle.protobuf_parse_model.specs.Environment.{customs_bytes, type_full_name};
ghost use Rattle.protobuf_parse_model.specs.Environment.{type_missing};
ghost use Rattle.protobuf_parse_model.specs.declared.customs.Construct.TheVariants as of;
ghost use Rattle.protobuf_parse_model.specs.Duplicates.{duplicates};
ghost use Rattle.protobuf_parse_model.specs.Faults.{placed};
ghost use Rattle.protobuf_parse_model.specs.Options.{method_options_view, service_options_view};
ghost use Rattle.protobuf_parse_model.specs.OptionMessages as sets;
ghost use Rattle.protobuf_parse_elaboration.specs.ConstructOptions.{construct_faults};
ghost use Rattle.protobuf_parse_elaboration.specs.Fields.{if_not_told};
ghost use Rattle.protobuf_parse_elaboration.specs.Parts.{methods_seen};
ghost use Rattle.protobuf_parse_elaboration.specs.Services as services;
ghost use Rattle.protobuf_parse_elaboration.specs.Viewpoints.{seen_from};
ghost use Rattle.protobuf_parse_elaboration.specs.Telling.{Tells};

use crate::constructs::declared::{DeclaredAs, places_of};
use crate::constructs::options::{custom_bytes, method_options, options_in, service_options};
use crate::constructs::told::tell_repeated;
use crate::constructs::types::type_full_name;
use crate::constructs::viewpoint::Viewpoint;
use protobuf_parse_lexer::Place;
use protobuf_parse_model::{
    Construct, CustomOptions, ElabError, MethodDescriptorProto, MethodOptions,
    ServiceDescriptorProto, ServiceOptions,
};
use protobuf_parse_syntax::{Method, OptionStatement, Service, ServiceStatement};
use std::alloc::{AllocError, Global};

/// The descriptor of a service.
///
/// E1 where two of its methods have one name, E2 and E3 where the type of one means none, and the
/// faults of its options.
pub fn service_descriptor<C: CustomOptions>(
    at: &Viewpoint<'_, '_, C>,
    faults: &mut Vec<ElabError>,
    service: &Service,
) -> Result<ServiceDescriptorProto, AllocError>
    ensures value { let env = seen_from C.customs at.now in
        IfOk result (λ d. described.service_view d
        ≡ services.service_of env (tree.service_syntax service.now)) }
    ensures faults { let env = seen_from C.customs at.now in
        Tells result faults.old faults.new
        (services.service_faults env (tree.service_syntax service.now)) }
{
    let method = service_methods(at, faults, &service.body)?;
    let name = service.name.clone()?;
    let options = told_options(at, faults, &service.body)?;
    Ok(ServiceDescriptorProto {
        name,
        method,
        options,
    })
}

/// The descriptors of the methods, and their faults: E1 where two have one name, then those of
/// each.
fn service_methods<C: CustomOptions>(
    at: &Viewpoint<'_, '_, C>,
    faults: &mut Vec<ElabError>,
    body: &[ServiceStatement],
) -> Result<Vec<MethodDescriptorProto>, AllocError>
    ensures value { let env = seen_from C.customs at.now in
        let ms = flat_map services.methods_in (map tree.service_statement_syntax body.now) in
        IfOk result (λ v. map described.method_view v.items ≡ map (services.method_of env) ms) }
    ensures faults { let env = seen_from C.customs at.now in
        let ms = flat_map services.methods_in (map tree.service_statement_syntax body.now) in
        Tells result faults.old faults.new (services.methods_faults env ms) }
{
    let methods = methods(at.alloc, body)?;
    tell_method_names(at, faults, &methods)?;
    method_descriptors(at, faults, &methods)
}

/// E1 where two of the methods have one name.
fn tell_method_names<C: CustomOptions>(
    at: &Viewpoint<'_, '_, C>,
    faults: &mut Vec<ElabError>,
    methods: &[&Method],
) -> Result<(), AllocError>
    ensures { Tells result faults.old faults.new
        (duplicates (map services.method_named (methods_seen methods.now))) }
{
    let places = places_of(at.alloc, DeclaredAs::Other, at.context.syntax, methods)?;
    tell_repeated(at.alloc, faults, methods, &places)
}

/// The methods of a service.
fn methods(alloc: Global, body: &[ServiceStatement]) -> Result<Vec<&Method>, AllocError>
    ensures { IfOk result
        (λ v. methods_seen v.items
        ≡ flat_map services.methods_in (map tree.service_statement_syntax body.now)) }
{
    let mut methods = Vec::new(alloc);
    for statement in body {
        if let ServiceStatement::Method(method) = statement {
            methods.push(method)?;
        }
    }
    Ok(methods)
}

/// Their descriptors.
fn method_descriptors<C: CustomOptions>(
    at: &Viewpoint<'_, '_, C>,
    faults: &mut Vec<ElabError>,
    methods: &[&Method],
) -> Result<Vec<MethodDescriptorProto>, AllocError>
    ensures value { let env = seen_from C.customs at.now in
        IfOk result (λ v. map described.method_view v.items
        ≡ map (services.method_of env) (methods_seen methods.now)) }
    ensures faults { let env = seen_from C.customs at.now in
        Tells result faults.old faults.new
        (flat_map (services.method_faults env) (methods_seen methods.now)) }
{
    let mut descriptors = Vec::with_capacity(at.alloc, methods.len())?;
    for method in methods {
        descriptors.push(method_descriptor(at, faults, method)?)?;
    }
    Ok(descriptors)
}

fn method_descriptor<C: CustomOptions>(
    at: &Viewpoint<'_, '_, C>,
    faults: &mut Vec<ElabError>,
    method: &Method,
) -> Result<MethodDescriptorProto, AllocError>
    ensures value { let env = seen_from C.customs at.now in
        IfOk result (λ d. described.method_view d
        ≡ services.method_of env (tree.method_syntax method.now)) }
    ensures faults { let env = seen_from C.customs at.now in
        Tells result faults.old faults.new
        (services.method_faults env (tree.method_syntax method.now)) }
{
    let input_type = method_type(at, faults, method.place, &method.input)?;
    let output_type = output_type(at, faults, method, &input_type)?;
    let name = method.name.clone()?;
    let options = told_method_options(at, faults, &method.options)?;
    Ok(MethodDescriptorProto {
        name,
        input_type,
        output_type,
        client_streaming: method.client_streaming,
        server_streaming: method.server_streaming,
        options,
    })
}

/// The full name of the type that a method returns, where that of the one that it takes is known.
/// E2 or E3 at the method's place where it means none, and the other has another name.
fn output_type<C: CustomOptions>(
    at: &Viewpoint<'_, '_, C>,
    faults: &mut Vec<ElabError>,
    method: &Method,
    input_type: &str,
) -> Result<String, AllocError>
    requires { let env = seen_from C.customs at.now in
        input_type.now ≡ unwrap_or (type_full_name env (string_bytes method.now.input)) [] }
    ensures value { let env = seen_from C.customs at.now in
        IfOk result (λ s. string_bytes s
        ≡ unwrap_or (type_full_name env (string_bytes method.now.output)) []) }
    ensures faults { let env = seen_from C.customs at.now in
        let m = tree.method_syntax method.now in
        Tells result faults.old faults.new (placed m.place
        (if_not_told (bytes_eq m.output m.input) (type_missing env m.output))) }
{
    if method.output.as_str() == method.input.as_str() {
        return String::from_str(at.alloc, input_type);
    }
    method_type(at, faults, method.place, &method.output)
}

/// The full name of a method's type. E2 or E3 at the place where the name means none.
fn method_type<C: CustomOptions>(
    at: &Viewpoint<'_, '_, C>,
    faults: &mut Vec<ElabError>,
    place: Place,
    name: &str,
) -> Result<String, AllocError>
    ensures value { let env = seen_from C.customs at.now in
        IfOk result (λ s. string_bytes s ≡ unwrap_or (type_full_name env name.now) []) }
    ensures faults { let env = seen_from C.customs at.now in
        Tells result faults.old faults.new (placed place (type_missing env name.now)) }
{
    match type_full_name(at, faults, place, name)? {
        Some(name) => Ok(name),
        None => Ok(String::new(at.alloc)),
    }
}

/// What the options of a method say.
#[tactic(auto, using(crate::proofs::StatedOptions::method_options_set))]
fn told_method_options<C: CustomOptions>(
    at: &Viewpoint<'_, '_, C>,
    faults: &mut Vec<ElabError>,
    statements: &[OptionStatement],
) -> Result<Option<MethodOptions>, AllocError>
    ensures value { let env = seen_from C.customs at.now in
        let os = map services.statement_option (map tree.option_statement_syntax statements.now) in
        IfOk result (λ o. option_map method_options_view o
        ≡ sets.method_options (customs_bytes env of.Method os) os) }
    ensures faults { let env = seen_from C.customs at.now in
        let os = map services.statement_option (map tree.option_statement_syntax statements.now) in
        Tells result faults.old faults.new (construct_faults env of.Method method_table os) }
{
    let options = options_in(at.alloc, statements)?;
    let bytes = custom_bytes(at, faults, Construct::Method, &options)?;
    Ok(method_options(&options, bytes))
}

/// What the options of a service say.
#[tactic(auto, using(crate::proofs::StatedOptions::service_options_set))]
fn told_options<C: CustomOptions>(
    at: &Viewpoint<'_, '_, C>,
    faults: &mut Vec<ElabError>,
    body: &[ServiceStatement],
) -> Result<Option<ServiceOptions>, AllocError>
    ensures value { let env = seen_from C.customs at.now in
        let os = flat_map services.options_in_service
        (map tree.service_statement_syntax body.now) in
        IfOk result (λ o. option_map service_options_view o
        ≡ sets.service_options (customs_bytes env of.Service os) os) }
    ensures faults { let env = seen_from C.customs at.now in
        let os = flat_map services.options_in_service
        (map tree.service_statement_syntax body.now) in
        Tells result faults.old faults.new (construct_faults env of.Service service_table os) }
{
    let options = options_in(at.alloc, body)?;
    let bytes = custom_bytes(at, faults, Construct::Service, &options)?;
    Ok(service_options(&options, bytes))
}
