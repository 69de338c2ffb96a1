//! Files.

ghost use Rattle.std.specs.Prelude.{◌≡◌, ◌++◌, IfOk, codes, flat_map, map, option_map};
ghost use Rattle.std.specs.String.{string_bytes};
ghost use Rattle.protobuf_parse_model.specs.Descriptors.{file_view};
ghost use Rattle.protobuf_parse_model.specs.Options.{file_options_view};
ghost use Rattle.protobuf_parse_proto_text.specs.Items as items;
ghost use Rattle.protobuf_parse_proto_text.specs.Made.{order_in_file, text_in_file};
ghost use Rattle.protobuf_parse_proto_text.specs.OrderViews.{part_view};
ghost use Rattle.protobuf_parse_proto_text.specs.ProtoText as spec;
ghost use Rattle.protobuf_parse_proto_text.specs.Puts.{Puts};

use crate::declarations::{put_enums, put_services};
use crate::items::{file_said, put_said};
use crate::members::extension_members;
use crate::messages::put_parts;
use crate::order::{Part, parts_of};
use crate::pieces::{put_blank, put_line, put_quoted_line};
use protobuf_parse_index::Index;
use protobuf_parse_listing::imports::{import_words, positions};
use protobuf_parse_model::{FileDescriptorProto, FileOptions};
use protobuf_parse_wire::package_scope;
use std::alloc::{AllocError, Global};

/// A file.
pub fn put_file(
    alloc: Global,
    text: &mut String,
    index: &Index<'_>,
    file: &FileDescriptorProto,
) -> Result<(), AllocError>
    ensures { Puts result text.old text.new
        (spec.file_text (map file_view index.now) (file_view file.now)) }
{
    put_front(alloc, text, file)?;
    put_file_options(alloc, text, index, &file.options)?;
    put_enums(alloc, text, index, 0, &file.enum_type)?;
    put_declared(alloc, text, index, file)?;
    put_services(alloc, text, index, &file.service)
}

/// The syntax, the package and the imports.
#[tactic(auto, unfolding(crate::specs::ProtoText::file_front))]
fn put_front(alloc: Global, text: &mut String, file: &FileDescriptorProto) -> Result<(), AllocError>
    ensures { Puts result text.old text.new (spec.file_front (file_view file.now)) }
{
    put_quoted_line(alloc, text, "syntax = ", syntax_of(file))?;
    put_package(text, &file.package)?;
    put_imports(alloc, text, file)
}

fn syntax_of(file: &FileDescriptorProto) -> &str
    ensures { result.now ≡ spec.syntax_of (file_view file.now).syntax }
{
    match &file.syntax {
        Some(syntax) => syntax,
        None => "proto2",
    }
}

/// A package whose name is not empty.
fn put_package(text: &mut String, name: &Option<String>) -> Result<(), AllocError>
    ensures { Puts result text.old text.new
        (spec.package_text (option_map string_bytes name.now)) }
{
    match name {
        None => Ok(()),
        Some(name) => put_named_package(text, name),
    }
}

fn put_named_package(text: &mut String, name: &str) -> Result<(), AllocError>
    ensures { Puts result text.old text.new (spec.named_package name.now) }
{
    if name.is_empty() {
        return Ok(());
    }
    put_blank(text, 0)?;
    put_line(text, 0, "package ", name, ";")
}

/// The imports, with an empty line before them.
fn put_imports(
    alloc: Global,
    text: &mut String,
    file: &FileDescriptorProto,
) -> Result<(), AllocError>
    ensures { Puts result text.old text.new (spec.imports_text (file_view file.now)) }
{
    if file.dependency.is_empty() {
        return Ok(());
    }
    put_blank(text, 0)?;
    put_import_lines(
        alloc,
        text,
        &file.dependency,
        &file.public_dependency,
        &file.weak_dependency,
    )
}

fn put_import_lines(
    alloc: Global,
    text: &mut String,
    paths: &[String],
    public: &[i32],
    weak: &[i32],
) -> Result<(), AllocError>
    ensures { Puts result text.old text.new
        (spec.import_lines public.now weak.now 0 (map string_bytes paths.now)) }
{
    let public = positions(alloc, public)?;
    let weak = positions(alloc, weak)?;
    for (i, path) in paths.iter().enumerate() {
        let words = import_words(public.contains(&i), weak.contains(&i));
        put_quoted_line(alloc, text, words, path)?;
    }
    Ok(())
}

fn put_file_options(
    alloc: Global,
    text: &mut String,
    index: &Index<'_>,
    options: &Option<FileOptions>,
) -> Result<(), AllocError>
    ensures { Puts result text.old text.new (spec.part_if_any (items.said_lines 0
        (items.file_said (map file_view index.now) (option_map file_options_view options.now)))) }
{
    let said = file_said(alloc, index, options)?;
    let mut lines = String::new(alloc);
    put_said(&mut lines, 0, &said)?;
    put_lines(text, &lines)
}

/// Lines with an empty line before them, where there are any.
fn put_lines(text: &mut String, lines: &str) -> Result<(), AllocError>
    ensures { Puts result text.old text.new (spec.part_if_any lines.now) }
{
    if lines.is_empty() {
        return Ok(());
    }
    put_blank(text, 0)?;
    text.push_str(lines)
}

/// The messages and the extensions of a file.
fn put_declared(
    alloc: Global,
    text: &mut String,
    index: &Index<'_>,
    file: &FileDescriptorProto,
) -> Result<(), AllocError>
    ensures { Puts result text.old text.new
        (spec.file_declared (map file_view index.now) (file_view file.now)
        (spec.file_inner (map file_view index.now) (file_view file.now))) }
{
    let scope = package_scope(alloc, file)?;
    put_in_scope(alloc, text, index, &scope, file)
}

/// The messages and the extensions of a file in that scope.
fn put_in_scope(
    alloc: Global,
    text: &mut String,
    index: &Index<'_>,
    scope: &str,
    file: &FileDescriptorProto,
) -> Result<(), AllocError>
    ensures { Puts result text.old text.new
        (text_in_file (map file_view index.now) scope.now file.now) }
{
    let parts = file_order(alloc, scope, file)?;
    let proto3 = is_proto3(file);
    put_parts(
        alloc,
        text,
        index,
        proto3,
        0,
        scope,
        &file.message_type,
        &parts,
    )
}

/// The messages and the extensions of a file in that scope, in order.
fn file_order<'a>(
    alloc: Global,
    scope: &str,
    file: &'a FileDescriptorProto,
) -> Result<Vec<Part<'a>>, AllocError>
    ensures { IfOk result (λ v. map part_view v.items ≡ order_in_file scope.now file.now) }
{
    let nested = &file.message_type;
    let members = extension_members(alloc, scope, &file.extension, nested)?;
    parts_of(alloc, nested.len(), &members)
}

fn is_proto3(file: &FileDescriptorProto) -> bool
    ensures { result ≡ spec.is_proto3 (file_view file.now).syntax }
{
    match &file.syntax {
        Some(syntax) => syntax.as_str() == "proto3",
        None => false,
    }
}
