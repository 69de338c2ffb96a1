//! The ranges and the options of messages.

ghost use Rattle.std.specs.Prelude.{◌≡◌, ◌++◌, map, flat_map, option_map, string_bytes, IfOk};
ghost use Rattle.std.specs.Prelude.{OnOk};
ghost use Rattle.protobuf_parse_syntax.specs.Trees.{range_syntax};
ghost use Rattle.protobuf_parse_syntax.specs.InnerViews.{message_statement_syntax};
ghost use Rattle.protobuf_parse_syntax.specs.Trees.{reserved_syntax};
ghost use Rattle.protobuf_parse_model.specs.BuiltinOptions.{message_table};
ghost use Rattle.protobuf_parse_model.specs.Descriptors as described;
ghost use Rattle.protobuf_parse_model.specs.Faults.{placed};
ghost use Rattle.protobuf_parse_model.specs.Environment.{customs_bytes};
ghost use Rattle.protobuf_parse_model.specs.declared.customs.Construct.TheVariants as of;
ghost use Rattle.protobuf_parse_model.specs.Options.{message_options_view};
ghost use Rattle.protobuf_parse_model.specs.OptionMessages as sets;
ghost use Rattle.protobuf_parse_elaboration.specs.ConstructOptions.{construct_faults};
ghost use Rattle.protobuf_parse_elaboration.specs.Parts.{reserved_views, rest_of, rest_view};
ghost use Rattle.protobuf_parse_elaboration.specs.Enums as enums;
ghost use Rattle.protobuf_parse_elaboration.specs.Messages as messages;
ghost use Rattle.protobuf_parse_elaboration.specs.Viewpoints.{seen_from};
ghost use Rattle.protobuf_parse_elaboration.specs.Telling.{Tells};

use crate::constructs::options::{custom_bytes, message_options, options_in};
use crate::constructs::reserved::{has_endless, push_clones, push_exclusive, push_extensions};
use crate::constructs::viewpoint::Viewpoint;
use protobuf_parse_lexer::Place;
use protobuf_parse_model::{
    Construct, CustomOptions, ElabError, ElabErrorKind, ExtensionRange, MessageOptions,
    ReservedRange, tell,
};
use protobuf_parse_syntax::{FieldNumberRange, MessageStatement, Reserved};
use std::alloc::{AllocError, Global};

/// The ranges and the options of a message.
#[derive(Drop)]
pub struct Rest {
    pub extension_range: Vec<ExtensionRange>,
    pub reserved_range: Vec<ReservedRange>,
    pub reserved_name: Vec<String>,
    pub options: Option<MessageOptions>,
}

/// The ranges and the options of the message of that name.
///
/// E7 where a range ends at the largest number, and the faults of its options.
pub fn rest_of_message<C: CustomOptions>(
    at: &Viewpoint<'_, '_, C>,
    faults: &mut Vec<ElabError>,
    name: &str,
    body: &[MessageStatement],
) -> Result<Rest, AllocError>
    ensures value { let env = seen_from C.customs at.now in
        IfOk result (λ r. rest_view r ≡ rest_of env (map message_statement_syntax body.now)) }
    ensures faults { let env = seen_from C.customs at.now in
        Tells result faults.old faults.new
        (messages.rest_faults env name.now (map message_statement_syntax body.now)) }
{
    tell_ranges(at.alloc, faults, name, body)?;
    let extension_range = extensions(at.alloc, body)?;
    let (reserved_range, reserved_name) = reserved(at.alloc, body)?;
    let options = told_options(at, faults, body)?;
    Ok(Rest {
        extension_range,
        reserved_range,
        reserved_name,
        options,
    })
}

/// E7 at each statement with a range that ends at the largest number.
fn tell_ranges(
    alloc: Global,
    faults: &mut Vec<ElabError>,
    name: &str,
    body: &[MessageStatement],
) -> Result<(), AllocError>
    ensures { Tells result faults.old faults.new
        (flat_map (messages.range_faults name.now) (map message_statement_syntax body.now)) }
{
    for statement in body {
        tell_ranges_of(alloc, faults, name, statement)?;
    }
    Ok(())
}

/// E7 where the statement has a range that ends at the largest number.
fn tell_ranges_of(
    alloc: Global,
    faults: &mut Vec<ElabError>,
    name: &str,
    statement: &MessageStatement,
) -> Result<(), AllocError>
    ensures { Tells result faults.old faults.new
        (messages.range_faults name.now (message_statement_syntax statement.now)) }
{
    match statement {
        MessageStatement::Extensions(extensions) => {
            tell_endless(alloc, faults, extensions.place, name, &extensions.ranges)
        }
        MessageStatement::Reserved(statement) => match &statement.reserved {
            Reserved::Ranges(ranges) => tell_endless(alloc, faults, statement.place, name, ranges),
            Reserved::Names(_) => Ok(()),
        },
        _ => Ok(()),
    }
}

/// E7 where one of the ranges ends at the largest number.
fn tell_endless(
    alloc: Global,
    faults: &mut Vec<ElabError>,
    place: Place,
    name: &str,
    ranges: &[FieldNumberRange],
) -> Result<(), AllocError>
    ensures { Tells result faults.old faults.new
        (placed place (messages.ranges_faults name.now (map range_syntax ranges.now))) }
{
    if has_endless(ranges) {
        return tell(alloc, faults, place, ElabErrorKind::RangeEndOverflow, name);
    }
    Ok(())
}

/// The ranges of extensions.
fn extensions(alloc: Global, body: &[MessageStatement]) -> Result<Vec<ExtensionRange>, AllocError>
    ensures { let rs = flat_map messages.extension_ranges (map message_statement_syntax body.now) in
        IfOk result (λ v. map described.extension_range_view v.items
        ≡ map messages.exclusive rs) }
{
    let mut ranges = Vec::new(alloc);
    for statement in body {
        if let MessageStatement::Extensions(extensions) = statement {
            push_extensions(&mut ranges, &extensions.ranges)?;
        }
    }
    Ok(ranges)
}

/// The reserved ranges and names.
fn reserved(
    alloc: Global,
    body: &[MessageStatement],
) -> Result<(Vec<ReservedRange>, Vec<String>), AllocError>
    ensures { let rs = flat_map messages.reserves (map message_statement_syntax body.now) in
        IfOk result (λ r. reserved_views r ≡ (
          map messages.exclusive (flat_map enums.ranges_reserved rs),
          flat_map enums.names_reserved rs,
        )) }
{
    let mut ranges = Vec::new(alloc);
    let mut names = Vec::new(alloc);
    for statement in body {
        if let MessageStatement::Reserved(statement) = statement {
            push_reserved(&mut ranges, &mut names, &statement.reserved)?;
        }
    }
    Ok((ranges, names))
}

/// Adds what a statement reserves.
fn push_reserved(
    ranges: &mut Vec<ReservedRange>,
    names: &mut Vec<String>,
    reserved: &Reserved,
) -> Result<(), AllocError>
    ensures ranges { let r = reserved_syntax reserved.now in
        OnOk result (map described.reserved_range_view ranges.new.items
        ≡ map described.reserved_range_view ranges.old.items
        ++ map messages.exclusive (enums.ranges_reserved r)) }
    ensures names { let r = reserved_syntax reserved.now in
        OnOk result (map string_bytes names.new.items
        ≡ map string_bytes names.old.items ++ enums.names_reserved r) }
{
    match reserved {
        Reserved::Ranges(more) => push_exclusive(ranges, more),
        Reserved::Names(more) => push_clones(names, more),
    }
}

/// What the options of a message say.
#[tactic(auto, using(crate::proofs::StatedOptions::message_options_set))]
fn told_options<C: CustomOptions>(
    at: &Viewpoint<'_, '_, C>,
    faults: &mut Vec<ElabError>,
    body: &[MessageStatement],
) -> Result<Option<MessageOptions>, AllocError>
    ensures value { let env = seen_from C.customs at.now in
        let os = messages.options_of_body (map message_statement_syntax body.now) in
        IfOk result (λ o. option_map message_options_view o
        ≡ sets.message_options (customs_bytes env of.Message os) os) }
    ensures faults { let env = seen_from C.customs at.now in
        let os = messages.options_of_body (map message_statement_syntax body.now) in
        Tells result faults.old faults.new (construct_faults env of.Message message_table os) }
{
    let options = options_in(at.alloc, body)?;
    let bytes = custom_bytes(at, faults, Construct::Message, &options)?;
    Ok(message_options(&options, bytes))
}
