//! Names as values.

use crate::hashing::{alike, apart, hash_of};
use protobuf_parse_base::names::{
    ProtobufAbsPath, ProtobufAbsPathRef, ProtobufIdent, ProtobufIdentRef, ProtobufRelPath,
    ProtobufRelPathRef,
};
use std::test::Fail;

fn absolute(text: &str) -> Result<ProtobufAbsPathRef<'_>, &'static str> {
    ProtobufAbsPathRef::try_new(text).ok_or("no absolute path")
}

fn relative(text: &str) -> Result<ProtobufRelPathRef<'_>, &'static str> {
    if ProtobufRelPathRef::is_rel(text) {
        Ok(ProtobufRelPathRef::new(text))
    } else {
        Err("no relative path")
    }
}

fn ident(text: &str) -> Result<ProtobufIdentRef<'_>, &'static str> {
    if ProtobufIdentRef::is_ident(text) {
        Ok(ProtobufIdentRef::new(text))
    } else {
        Err("no identifier")
    }
}

#[test]
fn fronts(rt: HostRuntime) -> Result<(), Fail> {
    let foo_bar = absolute(".foo.bar")?;
    assert!(rt; absolute(".foo.barbaz")?.remove_prefix(foo_bar).is_none());
    assert!(rt; !absolute(".foo.barbaz")?.starts_with(foo_bar));
    let rest = absolute(".foo.bar.baz.qux")?
        .remove_prefix(foo_bar)
        .ok_or("a front")?;
    assert_eq!(rt; rest.as_str(), "baz.qux");
    let whole = foo_bar
        .remove_prefix(ProtobufAbsPathRef::root())
        .ok_or("a front")?;
    assert_eq!(rt; whole.as_str(), "foo.bar");
    assert_eq!(rt; foo_bar.parent().ok_or("a parent")?.as_str(), ".foo");
    assert!(rt; ProtobufAbsPathRef::root().parent().is_none());
    Ok(())
}

#[test]
fn backs(rt: HostRuntime) -> Result<(), Fail> {
    let owned = absolute(".foo.bar")?.to_owned(rt.alloc())?;
    assert!(rt; owned.remove_suffix(relative("o.bar")?).is_none());
    let front = owned.remove_suffix(relative("foo.bar")?).ok_or("a back")?;
    assert!(rt; front.is_root());
    for text in ["", "bar", "foo.bar"] {
        assert!(rt; owned.ends_with(relative(text)?));
    }
    assert!(rt; !owned.ends_with(relative("foo.bar.baz")?));
    Ok(())
}

#[test]
fn pushes(rt: HostRuntime) -> Result<(), Fail> {
    let mut path = ProtobufAbsPath::root(rt.alloc());
    assert!(rt; path.pop(rt.alloc())?.is_none());
    path.push_simple(ident("bar")?)?;
    assert_eq!(rt; path.as_ref().as_str(), ".bar");
    path.push_relative(relative("a.b")?)?;
    path.push_relative(ProtobufRelPathRef::empty())?;
    assert_eq!(rt; path.as_ref().as_str(), ".bar.a.b");
    Ok(())
}

#[test]
fn pops_and_joins(rt: HostRuntime) -> Result<(), Fail> {
    let mut path = absolute(".bar.a.b")?.to_owned(rt.alloc())?;
    let last = path.pop(rt.alloc())?.ok_or("an identifier")?;
    assert_eq!(rt; last.get(), "b");
    assert_eq!(rt; path.as_ref().as_str(), ".bar.a");
    let more = path.concat(rt.alloc(), relative("c.d")?)?;
    assert_eq!(rt; more.as_ref().as_str(), ".bar.a.c.d");
    Ok(())
}

#[test]
fn fronts_of_a_relative_path(rt: HostRuntime) -> Result<(), Fail> {
    let mut texts = String::new(rt.alloc());
    for path in &relative("ab.cde")?.self_and_parents(rt.alloc())? {
        texts.push_str(path.as_str())?;
        texts.push(';')?;
    }
    assert_eq!(rt; texts.as_str(), "ab.cde;ab;;");
    Ok(())
}

#[test]
fn fronts_of_an_absolute_path(rt: HostRuntime) -> Result<(), Fail> {
    let mut texts = String::new(rt.alloc());
    for path in &absolute(".ab.cde")?.self_and_parents(rt.alloc())? {
        texts.push_str(path.as_str())?;
        texts.push(';')?;
    }
    assert_eq!(rt; texts.as_str(), ".ab.cde;.ab;;");
    Ok(())
}

#[test]
fn parts_of_a_path(rt: HostRuntime) -> Result<(), Fail> {
    assert!(rt; ProtobufRelPathRef::empty().components().next().is_none());
    let parts = relative("a.bc.d")?
        .components()
        .collect::<Vec<_>>(rt.alloc())?;
    let mut texts = String::new(rt.alloc());
    for part in &parts {
        texts.push_str(part.as_str())?;
        texts.push(';')?;
    }
    assert_eq!(rt; texts.as_str(), "a;bc;d;");
    let again = ProtobufRelPath::from_components(rt.alloc(), parts.as_slice())?;
    assert_eq!(rt; again.as_ref().as_str(), "a.bc.d");
    Ok(())
}

#[test]
fn the_first_part_and_the_rest(rt: HostRuntime) -> Result<(), Fail> {
    let (first, rest) = relative("a.bc.d")?.split_first_rem().ok_or("a part")?;
    assert_eq!(rt; first.as_str(), "a");
    assert_eq!(rt; rest.as_str(), "bc.d");
    Ok(())
}

#[test]
fn longer_paths(rt: HostRuntime) -> Result<(), Fail> {
    let alloc = rt.alloc();
    for (front, back, want) in [("a.b", "c", "a.b.c"), ("", "c", "c"), ("c", "", "c")] {
        let path = relative(front)?.append(alloc, relative(back)?)?;
        assert_eq!(rt; path.as_ref().as_str(), want);
    }
    let path = relative("a")?.append_ident(alloc, ident("b")?)?;
    assert_eq!(rt; path.as_ref().as_str(), "a.b");
    Ok(())
}

#[test]
fn from_relative_to_absolute_and_back(rt: HostRuntime) -> Result<(), Fail> {
    let alloc = rt.alloc();
    let path = relative("a.b")?.to_absolute(alloc)?;
    assert_eq!(rt; path.as_ref().as_str(), ".a.b");
    let back = path.to_root_rel(alloc)?;
    assert_eq!(rt; back.as_ref().as_str(), "a.b");
    assert_eq!(rt; back.into_absolute(alloc)?.as_ref().as_str(), ".a.b");
    Ok(())
}

#[test]
fn identifiers_of_their_own(rt: HostRuntime) -> Result<(), Fail> {
    let alloc = rt.alloc();
    let name = ProtobufIdent::new(alloc, "a")?;
    assert_eq!(rt; ProtobufRelPath::from_ident(name).as_ref().as_str(), "a");
    assert_eq!(rt; ident("a")?.to_owned(alloc)?.into_string().as_str(), "a");
    Ok(())
}

#[test]
fn absolute_paths_of_texts(rt: HostRuntime) -> Result<(), Fail> {
    let alloc = rt.alloc();
    let path = ProtobufAbsPath::from_path_without_dot(alloc, "a.b")?;
    assert_eq!(rt; path.as_ref().as_str(), ".a.b");
    let path = ProtobufAbsPath::from_path_maybe_dot(alloc, "a.b")?;
    assert_eq!(rt; path.as_ref().as_str(), ".a.b");
    let path = ProtobufAbsPath::from_path_maybe_dot(alloc, ".a.b")?;
    assert_eq!(rt; path.as_ref().as_str(), ".a.b");
    Ok(())
}

#[test]
fn packages(rt: HostRuntime) -> Result<(), Fail> {
    let alloc = rt.alloc();
    let package = ProtobufAbsPath::package_from_file_proto(alloc, Some("a"))?;
    assert_eq!(rt; package.as_ref().as_str(), ".a");
    let package = ProtobufAbsPath::package_from_file_proto(alloc, None)?;
    assert!(rt; package.as_ref().is_root());
    Ok(())
}

#[test]
fn names_and_paths_print_their_texts(rt: HostRuntime) -> Result<(), Fail> {
    let alloc = rt.alloc();
    let (path, owned_path) = (absolute(".a.b")?, absolute(".c.d")?.to_owned(alloc)?);
    let shown = format!(in alloc; "{path} {owned_path}")?;
    assert_eq!(rt; shown.as_str(), ".a.b .c.d");
    let (path, owned_path) = (relative("a.b")?, relative("c.d")?.to_owned(alloc)?);
    let shown = format!(in alloc; "{path} {owned_path}")?;
    assert_eq!(rt; shown.as_str(), "a.b c.d");
    let (name, owned_name) = (ident("a")?, ident("c")?.to_owned(alloc)?);
    let shown = format!(in alloc; "{name} {owned_name}")?;
    assert_eq!(rt; shown.as_str(), "a c");
    Ok(())
}

#[test]
fn absolute_paths_are_told_apart_by_their_texts(rt: HostRuntime) -> Result<(), Fail> {
    let alloc = rt.alloc();
    let lent = absolute(".a.b")?;
    let owned = lent.to_owned(alloc)?;
    assert!(rt; alike(&lent, &owned.as_ref()));
    assert!(rt; alike(&owned, &lent.to_owned(alloc)?));
    assert_eq!(rt; hash_of(&lent), hash_of(&owned));
    for other in ["", ".a", ".a.c", ".b.a", ".a.b.c", ".A.b"] {
        assert!(rt; apart(&lent, &absolute(other)?));
        assert!(rt; apart(&owned, &absolute(other)?.to_owned(alloc)?));
    }
    Ok(())
}

#[test]
fn relative_paths_are_told_apart_by_their_texts(rt: HostRuntime) -> Result<(), Fail> {
    let alloc = rt.alloc();
    let lent = relative("a.b")?;
    let owned = lent.to_owned(alloc)?;
    assert!(rt; alike(&lent, &owned.as_ref()));
    assert!(rt; alike(&owned, &lent.to_owned(alloc)?));
    assert_eq!(rt; hash_of(&lent), hash_of(&owned));
    for other in ["", "a", "a.c", "b.a", "a.b.c", "A.b"] {
        assert!(rt; apart(&lent, &relative(other)?));
        assert!(rt; apart(&owned, &relative(other)?.to_owned(alloc)?));
    }
    Ok(())
}

#[test]
fn identifiers_are_told_apart_by_their_texts(rt: HostRuntime) -> Result<(), Fail> {
    let alloc = rt.alloc();
    let lent = ident("ab")?;
    let owned = lent.to_owned(alloc)?;
    assert!(rt; alike(&lent, &owned.as_ref()));
    assert!(rt; alike(&owned, &lent.to_owned(alloc)?));
    assert_eq!(rt; hash_of(&lent), hash_of(&owned));
    for other in ["a", "b", "ba", "abc", "Ab"] {
        assert!(rt; apart(&lent, &ident(other)?));
        assert!(rt; apart(&owned, &ident(other)?.to_owned(alloc)?));
    }
    Ok(())
}
