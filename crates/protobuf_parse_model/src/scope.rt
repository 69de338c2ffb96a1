//! What the names of types mean.

ghost use Rattle.std.specs.Prelude.{◌≡◌, List, flat_map, nat_eq, true, option_map, string_bytes};
ghost use Rattle.std.specs.Prelude.{IfOk};
ghost use Rattle.std.specs.List.{list_any};
ghost use Rattle.protobuf_parse_syntax.specs.Trees.{FileSyntax};
ghost use Rattle.protobuf_parse_model.specs.Declarations as names;
ghost use Rattle.protobuf_parse_model.specs.Declarations.{file_types};
ghost use Rattle.protobuf_parse_model.specs.Environment.{type_named};
ghost use Rattle.protobuf_parse_model.specs.Lookup.{meaning};
ghost use Rattle.protobuf_parse_model.specs.Tables.{TableTells, picked};
ghost use Rattle.protobuf_parse_model.specs.SeenFiles.{names_of_context};
ghost use Rattle.protobuf_parse_model.specs.FileOrder.{FilesAscend};
ghost use Rattle.protobuf_parse_model.specs.SeenFiles.{declared_as, first_type};
ghost use Rattle.protobuf_parse_model.specs.SeenParts.{first_kind};
ghost use Rattle.protobuf_parse_model.specs.SeenFiles.{meaning_view};
ghost use Rattle.protobuf_parse_model.specs.SeenFiles.{declared_type, seen_types};
ghost use Rattle.protobuf_parse_model.specs.SeenFiles.{name_texts, type_kind};

mod by_hash;
mod declare;
mod ordered;
mod outward;
mod seen;

use crate::descriptor::FieldType;
pub use by_hash::hash_of;
use by_hash::{declared_of, names_of_hash};
pub use declare::{file_scope, scope_of_package};
pub use ordered::in_file;
pub use outward::Outward;
use protobuf_parse_syntax::Syntax;
pub use seen::{Declaration, DeclarationKind, Declarations, Seen, TypeKind};
use std::alloc::{AllocError, Global};

/// From where a construct is seen.
#[derive(Clone, Copy)]
pub struct Context<'a> {
    pub syntax: Syntax,
    pub seen: Seen<'a>,
    /// The names of the package and of the messages around the construct, the outermost first.
    pub scope: &'a [&'a str],
}

/// The type that a name means.
#[derive(Drop)]
pub struct Meaning {
    /// The full name, with the first dot.
    pub name: String,
    pub kind: TypeKind,
}

impl From<TypeKind> for FieldType {
    ghost use Rattle.protobuf_parse_model.specs.SeenFiles.{kind_view};
    ghost use Rattle.protobuf_parse_model.specs.Declarations.{kind_of_type};

    ghost from_gives = { λ kind field_type. field_type ≡ kind_of_type (kind_view kind) };

    fn from(kind: TypeKind) -> FieldType {
        match kind {
            TypeKind::Message => FieldType::Message,
            TypeKind::Enum => FieldType::Enum,
        }
    }
}

/// The full name, with the first dot, of what has the name in the scope. The one error is that
/// memory is short.
///
/// The scope is the names of the package and of the messages around it, the outermost first.
pub fn full_name(alloc: Global, scope: &[&str], name: &str) -> Result<String, AllocError>
    ensures { IfOk result (λ s. string_bytes s ≡ names.full_name (name_texts scope.now) name.now) }
{
    let mut text = String::with_capacity(alloc, full_name_len(scope, name))?;
    for outer in scope {
        text.push('.')?;
        text.push_str(outer)?;
    }
    text.push('.')?;
    text.push_str(name)?;
    Ok(text)
}

/// How many bytes that full name has: the room to ask for.
fn full_name_len(scope: &[&str], name: &str) -> usize {
    let mut len = name.len().saturating_add(1);
    for outer in scope {
        len = len.saturating_add(outer.len()).saturating_add(1);
    }
    len
}

/// The type that a name means there, if it means one.
pub fn type_named(
    alloc: Global,
    context: &Context<'_>,
    name: &str,
) -> Result<Option<Meaning>, AllocError>
    ensures by_table { IfOk result
        (λ m. option_map meaning_view m ≡ type_named (names_of_context context.now) name.now) }
    ensures by_files { (files : List FileSyntax)
        → TableTells context.now.seen.declarations.now files
        → IfOk result (λ m. option_map meaning_view m
        ≡ meaning (flat_map file_types (picked files context.now.seen.sight.now))
        (name_texts context.now.scope.now) name.now) }
{
    let mut names = Outward::new(alloc, context.scope, name)?;
    'names: loop {
        if let Some(kind) = kind_declared(&context.seen, names.first()) {
            return Ok(Some(Meaning {
                name: names.into_first(),
                kind,
            }));
        }
        match names.rest()? {
            Some(rest) => names = rest,
            None => return Ok(None),
        }
    }
}

/// What kind of type is declared by that full name.
fn kind_declared(seen: &Seen<'_>, name: &str) -> Option<TypeKind>
    ensures { option_map (declared_type name.now) result ≡ seen_types seen.now name.now }
{
    first_type(seen, declarations_of(seen.declarations, name))
}

/// The declarations of that full name.
pub fn declarations_of<'a>(table: &'a Declarations, name: &str) -> &'a [Declaration]
    ensures { result.now ≡ declared_as table.now name.now }
{
    match names_of_hash(&table.by_hash, hash_of(name)) {
        Some(declared) => declared_of(declared, name),
        None => &[],
    }
}

/// The type that the first of these declarations declares that is of one and that the file sees.
fn first_type(seen: &Seen<'_>, declarations: &[Declaration]) -> Option<TypeKind>
    requires { seen.now.declarations.now.in_order ≡ true → FilesAscend declarations.now }
    ensures { result ≡ first_type seen.now.sight.now declarations.now }
{
    if seen.declarations.in_order && seen.sight.len() < declarations.len() {
        return first_by_file(seen, declarations);
    }
    for declaration in declarations {
        if is_seen(seen, declaration.file) {
            if let Some(kind) = type_kind(declaration.kind) {
                return Some(kind);
            }
        }
    }
    None
}

/// The same, where the declarations are in the order of the files, by the files that are seen.
fn first_by_file(seen: &Seen<'_>, declarations: &[Declaration]) -> Option<TypeKind>
    requires { FilesAscend declarations.now }
    ensures { result ≡ first_type seen.now.sight.now declarations.now }
{
    for file in seen.sight {
        if let Some(kind) = first_kind(in_file(declarations, *file)) {
            return Some(kind);
        }
    }
    None
}

/// The type that the first of these declarations declares that is of one.
fn first_kind(declarations: &[Declaration]) -> Option<TypeKind>
    ensures { result ≡ first_kind declarations.now }
{
    for declaration in declarations {
        if let Some(kind) = type_kind(declaration.kind) {
            return Some(kind);
        }
    }
    None
}

/// What kind of type is declared, where a written name may mean it.
fn type_kind(kind: DeclarationKind) -> Option<TypeKind>
    ensures { result ≡ type_kind kind }
{
    match kind {
        DeclarationKind::Message => Some(TypeKind::Message),
        DeclarationKind::Enum => Some(TypeKind::Enum),
        DeclarationKind::Generated | DeclarationKind::Extension => None,
    }
}

/// Whether the names of the file with that number are seen.
fn is_seen(seen: &Seen<'_>, file: u32) -> bool
    ensures { result ≡ list_any (nat_eq file) seen.now.sight.now }
{
    seen.sight.binary_search(&file).is_ok()
}
