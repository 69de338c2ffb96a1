//! Declarations by the hashes of full names.

ghost use Rattle.std.specs.Prelude.{◌≡◌, ◌<◌, ℕ, [], ◌∷◌, ◌++◌, bytes_eq, if◌then◌else◌, length};
ghost use Rattle.std.specs.Prelude.{string_bytes, option_map, None, Some, IfOk, IfSome, IsSome};
ghost use Rattle.std.specs.Prelude.{OnErr, OnOk};
ghost use Rattle.std.specs.BTreeMap.{get_by_text};
ghost use Rattle.protobuf_parse_model.specs.declared.scope.seen.OneHash.TheVariants.{Name, Names};
ghost use Rattle.protobuf_parse_model.specs.ByHash.{declarations_in};
ghost use Rattle.protobuf_parse_model.specs.AddsByHash.{AddsByHash, AddsInMap, IsWith};
ghost use Rattle.protobuf_parse_model.specs.ByHash.{declared_by_hash, declared_of};
ghost use Rattle.protobuf_parse_model.specs.AddsByHash.{declared_in_map, MayForget, MayForgetInMap};
ghost use Rattle.protobuf_parse_model.specs.ByHash.{hash_of, map_of, names_of_hash};
ghost use Rattle.protobuf_parse_model.specs.Descriptors.{Text};
ghost use Rattle.protobuf_parse_model.specs.ByHash.{listed};

use super::seen::{Declaration, Declared, DeclaredName, OneHash};
use std::alloc::{AllocError, Global};
use std::collections::BTreeMap;
use std::collections::btree_map::Entry;
use std::hash::{FoldHasher, Hasher};
use std::slice;

/// The hash of a name: a multiplication for each sixteen bytes.
pub fn hash_of(name: &str) -> u64
    ensures { result ≡ hash_of name.now }
{
    let mut hasher = FoldHasher::default();
    hasher.write(name.as_bytes());
    hasher.finish()
}

/// The declarations of the full name, among the names of its hash.
pub fn declared_of<'a>(declared: &'a OneHash, name: &str) -> &'a [Declaration]
    ensures { result.now ≡ declared_of (Some declared.now) name.now }
{
    match declared {
        OneHash::Name(only) => declared_name(only, name),
        OneHash::Names(names) => match names.get(name) {
            Some(declarations) => declarations,
            None => &[],
        },
    }
}

/// The declarations of the full name, if that is the only name of its hash.
fn declared_name<'a>(only: &'a DeclaredName, name: &str) -> &'a [Declaration]
    ensures { result.now ≡ declared_of (Some (Name only.now)) name.now }
{
    if only.name.as_str() == name {
        declarations_in(&only.declared)
    } else {
        &[]
    }
}

/// The declarations of a full name.
fn declarations_in(declared: &Declared) -> &[Declaration]
    ensures { result.now ≡ declarations_in declared.now }
{
    match declared {
        Declared::Once(declaration) => slice::from_ref(declaration),
        Declared::Often(declarations) => declarations,
    }
}

/// Which of the maps has the hash: by its highest byte.
fn map_of(hash: u64) -> usize
    ensures { result ≡ map_of hash }
{
    (hash >> 56) as usize
}

/// The names of that hash, if there are any.
pub fn names_of_hash(maps: &[BTreeMap<u64, OneHash>], hash: u64) -> Option<&OneHash>
    ensures { option_map (λ n. n.now) result ≡ names_of_hash maps.now hash }
{
    maps.get(map_of(hash))?.get(&hash)
}

/// Inserts the declaration, if it is the first of a name of that hash, by one search; or gives the
/// name back.
pub fn insert_first(
    maps: &mut Vec<BTreeMap<u64, OneHash>>,
    alloc: Global,
    hash: u64,
    name: String,
    declaration: Declaration,
) -> Result<Option<String>, AllocError>
    requires { hash ≡ hash_of (string_bytes name) }
    ensures first { IfOk result (λ taken. taken ≡ None →
        declared_by_hash maps.old.items (string_bytes name) ≡ []) }
    ensures adds { IfOk result (λ taken. taken ≡ None →
        AddsByHash maps.old.items maps.new.items (string_bytes name) declaration) }
    ensures same { IfOk result (λ taken. IsSome taken → (text : Text) →
        declared_by_hash maps.new.items text ≡ declared_by_hash maps.old.items text) }
    ensures back { IfOk result (λ taken. IfSome taken (λ n. n ≡ name)) }
    ensures err { OnErr result ((text : Text) →
        declared_by_hash maps.new.items text ≡ declared_by_hash maps.old.items text) }
{
    let map = map_of(hash);
    make_room(maps, alloc, map)?;
    insert_in(&mut maps[map], hash, name, declaration)
}

/// The same in the map of that hash.
fn insert_in(
    by_hash: &mut BTreeMap<u64, OneHash>,
    hash: u64,
    name: String,
    declaration: Declaration,
) -> Result<Option<String>, AllocError>
    requires { hash ≡ hash_of (string_bytes name) }
    ensures first { IfOk result (λ taken. taken ≡ None →
        declared_in_map by_hash.old (string_bytes name) ≡ []) }
    ensures adds { IfOk result (λ taken. taken ≡ None →
        AddsInMap by_hash.old by_hash.new (string_bytes name) declaration) }
    ensures same { IfOk result (λ taken. IsSome taken → (text : Text) →
        declared_in_map by_hash.new text ≡ declared_in_map by_hash.old text) }
    ensures back { IfOk result (λ taken. IfSome taken (λ n. n ≡ name)) }
    ensures err { OnErr result ((text : Text) →
        declared_in_map by_hash.new text ≡ declared_in_map by_hash.old text) }
{
    match by_hash.entry(hash)? {
        Entry::Vacant(vacant) => {
            let declared = Declared::Once(declaration);
            vacant.insert(OneHash::Name(DeclaredName { name, declared }));
            Ok(None)
        }
        Entry::Occupied(_) => Ok(Some(name)),
    }
}

/// Puts empty maps behind the others, until there is one at that position.
fn make_room(
    maps: &mut Vec<BTreeMap<u64, OneHash>>,
    alloc: Global,
    map: usize,
) -> Result<(), AllocError>
    ensures within { OnOk result (map < length maps.new.items) }
    ensures same { (hash : ℕ) →
        names_of_hash maps.new.items hash ≡ names_of_hash maps.old.items hash }
{
    while maps.len() <= map {
        maps.push(BTreeMap::new(alloc))?;
    }
    Ok(())
}

/// Adds a declaration of that full name behind those of the names of its hash.
pub fn add_alike(
    maps: &mut Vec<BTreeMap<u64, OneHash>>,
    alloc: Global,
    hash: u64,
    name: String,
    declaration: Declaration,
) -> Result<(), AllocError>
    requires { hash ≡ hash_of (string_bytes name) }
    ensures ok { OnOk result
        (AddsByHash maps.old.items maps.new.items (string_bytes name) declaration) }
    ensures err { OnErr result (MayForget maps.old.items maps.new.items) }
{
    let map = map_of(hash);
    make_room(maps, alloc, map)?;
    add_alike_in(&mut maps[map], alloc, hash, name, declaration)
}

/// The same in the map of that hash.
fn add_alike_in(
    by_hash: &mut BTreeMap<u64, OneHash>,
    alloc: Global,
    hash: u64,
    name: String,
    declaration: Declaration,
) -> Result<(), AllocError>
    requires { hash ≡ hash_of (string_bytes name) }
    ensures ok { OnOk result (AddsInMap by_hash.old by_hash.new (string_bytes name) declaration) }
    ensures err { OnErr result (MayForgetInMap by_hash.old by_hash.new) }
{
    let declared = with_alike(alloc, by_hash.remove(&hash), name, declaration)?;
    by_hash.insert(hash, declared)?;
    Ok(())
}

/// The names of one hash, with a declaration of that full name at the end of its declarations.
fn with_alike(
    alloc: Global,
    declared: Option<OneHash>,
    name: String,
    declaration: Declaration,
) -> Result<OneHash, AllocError>
    ensures { IfOk result (IsWith declared (string_bytes name) declaration) }
{
    match declared {
        None => {
            let declared = Declared::Once(declaration);
            Ok(OneHash::Name(DeclaredName { name, declared }))
        }
        Some(OneHash::Name(only)) => with_name(alloc, only, name, declaration),
        Some(OneHash::Names(names)) => with_last(alloc, names, name, declaration),
    }
}

/// The same, of the only name of its hash.
fn with_name(
    alloc: Global,
    only: DeclaredName,
    name: String,
    declaration: Declaration,
) -> Result<OneHash, AllocError>
    ensures { IfOk result (IsWith (Some (Name only)) (string_bytes name) declaration) }
{
    let same = only.name.as_str() == name.as_str();
    let mut declarations = list_of(alloc, only.declared)?;
    if same {
        declarations.push(declaration)?;
        let declared = Declared::Often(declarations);
        return Ok(OneHash::Name(DeclaredName { name, declared }));
    }
    let mut names = BTreeMap::new(alloc);
    names.insert(only.name, declarations)?;
    with_last(alloc, names, name, declaration)
}

/// The declarations of a full name, as a list.
fn list_of(alloc: Global, declared: Declared) -> Result<Vec<Declaration>, AllocError>
    ensures { IfOk result (λ list. list.items ≡ declarations_in declared) }
{
    match declared {
        Declared::Once(declaration) => Ok(vec![in alloc; declaration]?),
        Declared::Often(declarations) => Ok(declarations),
    }
}

/// The names, with a declaration of that full name at the end of its declarations.
fn with_last(
    alloc: Global,
    names: BTreeMap<String, Vec<Declaration>>,
    name: String,
    declaration: Declaration,
) -> Result<OneHash, AllocError>
    ensures { IfOk result (IsWith (Some (Names names)) (string_bytes name) declaration) }
{
    let mut names = names;
    add_last(&mut names, alloc, name, declaration)?;
    Ok(OneHash::Names(names))
}

/// Adds a declaration at the end of the list of that full name.
fn add_last(
    by_name: &mut BTreeMap<String, Vec<Declaration>>,
    alloc: Global,
    name: String,
    declaration: Declaration,
) -> Result<(), AllocError>
    ensures { OnOk result ((text : Text) →
        listed (get_by_text by_name.new text) ≡ listed (get_by_text by_name.old text)
        ++ (if bytes_eq (string_bytes name) text then declaration ∷ [] else [])) }
{
    let declarations = by_name.entry(name)?.or_insert(Vec::new(alloc));
    declarations.push(declaration)?;
    Ok(())
}
