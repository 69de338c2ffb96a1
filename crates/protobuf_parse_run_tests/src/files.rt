//! How files are written and read: what is decided by what is seen of a target, and files that are
//! read once.

use crate::outcome::own_path;
use protobuf_parse_files::{
    FileRead, Found, How, KeptFiles, Refusal, Seen, Way, how_to_write, may_be_replaced, read_up_to,
    write_file,
};
use std::fs;
use std::io::ErrorKind;
use std::test::Fail;

/// A file of one name, to which its owner may write.
const FILE: Found = Found::File {
    mode: 0o640,
    names: 1,
};

#[test]
fn what_is_seen_says_how_it_is_written(rt: HostRuntime) -> Result<(), Fail> {
    let linked = Found::File {
        mode: 0o640,
        names: 2,
    };
    let read_only = Found::File {
        mode: 0o444,
        names: 1,
    };
    let new = How::Replaced { mode: None };
    let old = How::Replaced { mode: Some(0o640) };
    let shut = How::Refused(Refusal::ReadOnly);
    let folder = How::Refused(Refusal::IsFolder);
    for (found, way, takes_files, how) in [
        (Found::Nothing, Way::Named, true, new),
        (Found::Nothing, Way::Named, false, How::InPlace),
        (FILE, Way::Named, true, old),
        (FILE, Way::Named, false, How::InPlace),
        (FILE, Way::Open, true, How::InPlace),
        (FILE, Way::Output, true, How::ToOutput),
        (linked, Way::Named, true, How::InPlace),
        (read_only, Way::Named, true, shut),
        (read_only, Way::Named, false, shut),
        (read_only, Way::Errors, true, How::ToErrors),
        (Found::Folder, Way::Named, true, folder),
        (Found::Other, Way::Named, true, How::InPlace),
    ] {
        let seen = Seen {
            found,
            way,
            takes_files,
        };
        assert_eq!(rt; how_to_write(&seen), how, "{seen:?}");
    }
    assert!(rt; may_be_replaced(FILE, Way::Named));
    assert!(rt; !may_be_replaced(linked, Way::Named));
    Ok(())
}

#[test]
fn readers_are_read_up_to_a_bound(rt: HostRuntime) -> Result<(), Fail> {
    let mut left: &[u8] = b"apple banana";
    let front = read_up_to(rt.alloc(), &mut left, 0, 6)?;
    assert_eq!(rt; front.as_slice(), b"apple ".as_slice());
    assert_eq!(rt; left, b"banana".as_slice());
    let rest = read_up_to(rt.alloc(), &mut left, 100, 100)?;
    assert_eq!(rt; rest.as_slice(), b"banana".as_slice());
    Ok(())
}

#[test]
fn files_are_read_once(rt: HostRuntime) -> Result<(), Fail> {
    let alloc = rt.alloc();
    let path = own_path(&rt, "kept.txt")?;
    let kept = KeptFiles::new(&rt, alloc, 5);
    fs::write(&rt, path.as_str(), b"apple")?;
    for _ in 0..2 {
        let FileRead::Content(content) = kept.read(alloc, &path)? else {
            return Err(Fail::new("no content"));
        };
        assert_eq!(rt; content.as_slice(), b"apple".as_slice());
        fs::write(&rt, path.as_str(), b"banana")?;
    }
    let later = KeptFiles::new(&rt, alloc, 5);
    assert!(rt; matches!(later.read(alloc, &path)?, FileRead::TooLong));
    assert!(rt; later.is_too_long(&path) && !kept.is_too_long(&path));
    fs::remove_file(&rt, path.as_str())?;
    let lost = KeptFiles::new(&rt, alloc, 5);
    assert!(rt; matches!(lost.read(alloc, &path)?, FileRead::Failed(_)));
    let Some(reason) = lost.reason(&path) else {
        return Err(Fail::new("no reason"));
    };
    assert_eq!(rt; reason.kind(), ErrorKind::NotFound);
    assert!(rt; kept.reason(&path).is_none());
    Ok(())
}

#[test]
fn files_are_written(rt: HostRuntime) -> Result<(), Fail> {
    let path = own_path(&rt, "written.pb")?;
    let mut out = Vec::new(rt.alloc());
    let mut err = Vec::new(rt.alloc());
    for content in [b"apple".as_slice(), b"fig".as_slice()] {
        write_file(&rt, &path, content, &mut out, &mut err)?;
        assert_eq!(rt; fs::read(&rt, path.as_str())?.as_slice(), content);
    }
    let link = own_path(&rt, "written_too.pb")?;
    fs::hard_link(&rt, path.as_str(), link.as_str())?;
    write_file(&rt, &path, b"cherry", &mut out, &mut err)?;
    assert_eq!(rt;
        fs::read(&rt, link.as_str())?.as_slice(),
        b"cherry".as_slice()
    );
    assert!(rt; out.is_empty() && err.is_empty());
    for path in [&path, &link] {
        fs::remove_file(&rt, path.as_str())?;
    }
    Ok(())
}
