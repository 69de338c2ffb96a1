//! Oneofs.

ghost use Rattle.std.specs.Prelude.{◌≡◌, ◌++◌, map, flat_map, option_map, IfOk};
ghost use Rattle.protobuf_parse_syntax.specs.Trees.{field_statement_syntax, oneof_statement_syntax};
ghost use Rattle.protobuf_parse_syntax.specs.Trees.{oneof_syntax};
ghost use Rattle.protobuf_parse_model.specs.BuiltinOptions.{oneof_table};
ghost use Rattle.protobuf_parse_model.specs.Environment.{customs_bytes};
ghost use Rattle.protobuf_parse_model.specs.declared.customs.Construct.TheVariants as of;
ghost use Rattle.protobuf_parse_model.specs.Descriptors as described;
ghost use Rattle.protobuf_parse_model.specs.Options.{oneof_options_view};
ghost use Rattle.protobuf_parse_model.specs.OptionMessages as sets;
ghost use Rattle.protobuf_parse_model.specs.Statements as statements;
ghost use Rattle.protobuf_parse_elaboration.specs.ConstructOptions.{construct_faults};
ghost use Rattle.protobuf_parse_elaboration.specs.Fields.{says_optional};
ghost use Rattle.protobuf_parse_elaboration.specs.Messages as messages;
ghost use Rattle.protobuf_parse_elaboration.specs.Viewpoints.{seen_from};
ghost use Rattle.protobuf_parse_elaboration.specs.Telling.{Tells};

use crate::constructs::field::says_optional;
use crate::constructs::options::{custom_bytes, oneof_options, options_in};
use crate::constructs::statement::DeclaredField;
use crate::constructs::viewpoint::Viewpoint;
use protobuf_parse_base::Name;
use protobuf_parse_model::{
    Construct, CustomOptions, ElabError, OneofDescriptorProto, OneofOptions,
};
use protobuf_parse_syntax::{FieldStatement, OneOf, OneOfStatement, Syntax};
use std::alloc::{AllocError, Global};

/// The descriptor of a oneof. Its fields stand apart from it.
pub fn oneof_descriptor<C: CustomOptions>(
    at: &Viewpoint<'_, '_, C>,
    faults: &mut Vec<ElabError>,
    oneof: &OneOf,
) -> Result<OneofDescriptorProto, AllocError>
    ensures value { let env = seen_from C.customs at.now in
        IfOk result (λ d. described.oneof_view d ≡ messages.oneof_of env (oneof_syntax oneof.now)) }
    ensures faults { let env = seen_from C.customs at.now in
        Tells result faults.old faults.new
        (construct_faults env of.Oneof oneof_table
        (messages.options_in_oneof (oneof_syntax oneof.now))) }
{
    let name = oneof.name.clone()?;
    let options = told_options(at, faults, &oneof.body)?;
    Ok(OneofDescriptorProto { name, options })
}

/// What the options of a oneof say.
#[tactic(auto, using(crate::proofs::StatedOptions::oneof_options_set))]
fn told_options<C: CustomOptions>(
    at: &Viewpoint<'_, '_, C>,
    faults: &mut Vec<ElabError>,
    body: &[OneOfStatement],
) -> Result<Option<OneofOptions>, AllocError>
    ensures value { let env = seen_from C.customs at.now in
        let os = flat_map statements.oneof_statement_options
        (map oneof_statement_syntax body.now) in
        IfOk result (λ o. option_map oneof_options_view o
        ≡ sets.oneof_options (customs_bytes env of.Oneof os) os) }
    ensures faults { let env = seen_from C.customs at.now in
        let os = flat_map statements.oneof_statement_options
        (map oneof_statement_syntax body.now) in
        Tells result faults.old faults.new (construct_faults env of.Oneof oneof_table os) }
{
    let options = options_in(at.alloc, body)?;
    let bytes = custom_bytes(at, faults, Construct::Oneof, &options)?;
    Ok(oneof_options(&options, bytes))
}

/// Whether the field is alone in a oneof of its own: in proto3 with the label `optional`.
pub fn has_own_oneof(syntax: Syntax, statement: &FieldStatement) -> bool
    ensures { result ≡ says_optional syntax
        (messages.statement_label (field_statement_syntax statement.now)) }
{
    match statement {
        FieldStatement::Field(field) => says_optional(syntax, field.label),
        FieldStatement::Group(group) => says_optional(syntax, group.label),
    }
}

/// The oneof that the declared field is alone in.
pub fn own_oneof(
    alloc: Global,
    declared: &DeclaredField,
) -> Result<OneofDescriptorProto, AllocError>
    ensures { IfOk result (λ o. described.oneof_view o
        ≡ messages.own_oneof_of (described.field_view declared.now.field).name) }
{
    let mut name = String::from_str(alloc, "_")?;
    name.push_str(&declared.field.name)?;
    Ok(OneofDescriptorProto {
        name: Name::from(name),
        options: None,
    })
}
