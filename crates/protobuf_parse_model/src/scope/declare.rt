//! What files declare, by full name.

ghost use Rattle.std.specs.Prelude.{◌≡◌, ℕ, true, List, [], ◌∷◌, ◌++◌, length};
ghost use Rattle.std.specs.Prelude.{nat_eq};
ghost use Rattle.std.specs.Prelude.{bytes_eq, if◌then◌else◌, string_bytes, Contains, IfOk, OnOk};
ghost use Rattle.std.specs.Prelude.{None, IsSome, IfSome};
ghost use Rattle.protobuf_parse_base.specs.Names.{relative_idents};
ghost use Rattle.protobuf_parse_lexer.specs.Text.{seen_by};
ghost use Rattle.protobuf_parse_syntax.specs.Trees.{FileSyntax, file_syntax};
ghost use Rattle.protobuf_parse_model.specs.Declarations as names;
ghost use Rattle.protobuf_parse_model.specs.Descriptors.{Text};
ghost use Rattle.protobuf_parse_model.specs.ByHash.{hash_of};
ghost use Rattle.protobuf_parse_model.specs.FileOrder.{FilesAscend};
ghost use Rattle.protobuf_parse_model.specs.SeenFiles.{declared_as, name_texts};
ghost use Rattle.protobuf_parse_model.specs.TableParts.{AddsOne, SaysSame};
ghost use Rattle.protobuf_parse_model.specs.TableParts.{KeepsListed, ListsOne};
ghost use Rattle.protobuf_parse_model.specs.Tables.{TableTells};
ghost use Rattle.protobuf_parse_model.specs.Tables.{names_listed};

use super::by_hash::{add_alike, hash_of, insert_first};
use super::declarations_of;
use super::seen::{Declaration, Declarations};
use crate::declared_at::declared_in_order;
use protobuf_parse_syntax::FileTree;
use std::alloc::{AllocError, Global};
use std::collections::BTreeMap;

impl Declarations {
    /// No names.
    pub fn new(alloc: Global) -> Self
        ensures { TableTells result [] }
    {
        Declarations {
            by_hash: Vec::new(alloc),
            repeated: BTreeMap::new(alloc),
            in_order: true,
        }
    }

    /// Adds each message, enum and extension that a file declares, also the messages behind its
    /// maps and groups, as declared by the file with that number.
    /// The one error is that memory is short: nothing is known of the table then.
    pub fn add(&mut self, alloc: Global, file: u32, tree: &FileTree) -> Result<(), AllocError>
        ensures { OnOk result ((files : List FileSyntax) → length files ≡ file →
            TableTells self.old files → TableTells self.new (files ++ file_syntax tree.now ∷ [])) }
    {
        for declared in declared_in_order(alloc, tree)? {
            let kind = declared.kind;
            put(self, alloc, declared.name, Declaration { file, kind })?;
        }
        Ok(())
    }
}

/// The identifiers of the file's package.
pub fn file_scope<'a>(alloc: Global, tree: &'a FileTree) -> Result<Vec<&'a str>, AllocError>
    ensures { IfOk result (λ v. name_texts v.items ≡ names.file_scope (file_syntax tree.now)) }
{
    scope_of_package(alloc, tree.package())
}

/// The identifiers of the package of that name: none without one.
pub fn scope_of_package<'a>(
    alloc: Global,
    name: Option<&'a str>,
) -> Result<Vec<&'a str>, AllocError>
    ensures { IfOk result (λ v. name_texts v.items
        ≡ names.scope_of_package (seen_by (λ z. z.now) name.entry)) }
{
    match name {
        Some(name) => identifiers(alloc, name),
        None => Ok(Vec::new(alloc)),
    }
}

/// The identifiers of a package's name, which may be empty.
fn identifiers(alloc: Global, name: &str) -> Result<Vec<&str>, AllocError>
    ensures { IfOk result (λ v. name_texts v.items ≡ relative_idents name.now) }
{
    if name.is_empty() {
        return Ok(Vec::new(alloc));
    }
    name.split('.').collect(alloc)
}

/// Adds a declaration of that full name.
fn put(
    table: &mut Declarations,
    alloc: Global,
    name: String,
    declaration: Declaration,
) -> Result<(), AllocError>
    ensures { OnOk result (AddsOne table.old table.new (string_bytes name) declaration) }
{
    let hash = hash_of(&name);
    match put_first(table, alloc, hash, name, declaration)? {
        None => Ok(()),
        Some(name) => put_again(table, alloc, hash, name, declaration),
    }
}

/// Adds the declaration, if it is the first of a name of that hash, or gives the name back.
fn put_first(
    table: &mut Declarations,
    alloc: Global,
    hash: u64,
    name: String,
    declaration: Declaration,
) -> Result<Option<String>, AllocError>
    requires { hash ≡ hash_of (string_bytes name) }
    ensures adds { IfOk result (λ taken. taken ≡ None →
        AddsOne table.old table.new (string_bytes name) declaration) }
    ensures same { IfOk result (λ taken. IsSome taken → SaysSame table.old table.new) }
    ensures back { IfOk result (λ taken. IfSome taken (λ n. n ≡ name)) }
{
    insert_first(&mut table.by_hash, alloc, hash, name, declaration)
}

/// Adds a declaration of that full name, where names of its hash are declared, and lists it where
/// it has one already.
fn put_again(
    table: &mut Declarations,
    alloc: Global,
    hash: u64,
    name: String,
    declaration: Declaration,
) -> Result<(), AllocError>
    requires { hash ≡ hash_of (string_bytes name) }
    ensures { OnOk result (AddsOne table.old table.new (string_bytes name) declaration) }
{
    table.in_order = stays_in_order(table, &name, declaration);
    list_repeated(table, alloc, &name, declaration.file)?;
    add_alike(&mut table.by_hash, alloc, hash, name, declaration)
}

/// Whether the table is in the order of the files, and will be with that declaration of the full
/// name.
fn stays_in_order(table: &Declarations, name: &str, declaration: Declaration) -> bool
    ensures was { result ≡ true → table.now.in_order ≡ true }
    ensures stays { result ≡ true → (text : Text) → FilesAscend (declared_as table.now text
        ++ (if bytes_eq name.now text then declaration ∷ [] else [])) }
{
    table.in_order
        && match declarations_of(table, name) {
            [] => true,
            [.., last] => last.file <= declaration.file,
        }
}

/// Lists the full name, where it is declared already, for the file with that number, which declares
/// it once more, and for the one that declares it until then.
fn list_repeated(
    table: &mut Declarations,
    alloc: Global,
    name: &str,
    file: u32,
) -> Result<(), AllocError>
    ensures same { OnOk result (table.new.by_hash ≡ table.old.by_hash) }
    ensures order { OnOk result (table.new.in_order ≡ table.old.in_order) }
    ensures lists { OnOk result (ListsOne table.old table.new.repeated name.now file) }
{
    match declarations_of(table, name) {
        [] => Ok(()),
        [only] => {
            let first = only.file;
            list_name(&mut table.repeated, alloc, first, name)?;
            list_next(&mut table.repeated, alloc, first, file, name)
        }
        [.., last] => {
            let last = last.file;
            list_next(&mut table.repeated, alloc, last, file, name)
        }
    }
}

/// Lists the full name for the file with that number, unless that is the last for which it is
/// listed.
fn list_next(
    repeated: &mut BTreeMap<u32, Vec<String>>,
    alloc: Global,
    last: u32,
    file: u32,
    name: &str,
) -> Result<(), AllocError>
    ensures kept { OnOk result (KeepsListed repeated.old repeated.new) }
    ensures listed { OnOk result (Contains (names_listed repeated.old last) name.now →
        Contains (names_listed repeated.new file) name.now) }
{
    if file == last {
        return Ok(());
    }
    list_name(repeated, alloc, file, name)
}

/// Lists the full name for the file with that number.
fn list_name(
    repeated: &mut BTreeMap<u32, Vec<String>>,
    alloc: Global,
    file: u32,
    name: &str,
) -> Result<(), AllocError>
    ensures { OnOk result ((n : ℕ) → names_listed repeated.new n ≡ names_listed repeated.old n
        ++ (if nat_eq file n then name.now ∷ [] else [])) }
{
    let name = String::from_str(alloc, name)?;
    let names = repeated.entry(file)?.or_insert(Vec::new(alloc));
    names.push(name)?;
    Ok(())
}
