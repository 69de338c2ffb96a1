//! Proto paths as values.

use crate::hashing::{alike, apart, hash_of};
use protobuf_parse_base::proto_path::{ProtoPath, ProtoPathBuf};
use std::test::Fail;

#[test]
fn accepted_texts(rt: HostRuntime) -> Result<(), Fail> {
    let path = ProtoPath::new("a/b.proto")?;
    assert_eq!(rt; path.to_str(), "a/b.proto");
    assert_eq!(rt; path.to_path(), "a/b.proto");
    let owned = path.to_proto_path_buf(rt.alloc())?;
    assert_eq!(rt;
        format!(in rt.alloc(); "{path} {owned}")?.as_str(),
        "a/b.proto a/b.proto"
    );
    let text = String::from_str(rt.alloc(), "x")?;
    assert_eq!(rt; ProtoPathBuf::new(text)?.as_path().to_str(), "x");
    Ok(())
}

#[test]
fn paths_are_told_apart_by_their_texts(rt: HostRuntime) -> Result<(), Fail> {
    let alloc = rt.alloc();
    let lent = ProtoPath::new("a/b")?;
    let owned = lent.to_proto_path_buf(alloc)?;
    assert!(rt; alike(&lent, &owned.as_path()));
    assert!(rt; alike(&owned, &lent.to_proto_path_buf(alloc)?));
    assert_eq!(rt; hash_of(&lent), hash_of(&owned));
    for other in ["a", "a/c", "b/a", "a/b/c", "A/b", "a/ b"] {
        let other = ProtoPath::new(other)?;
        assert!(rt; apart(&lent, &other));
        assert!(rt; apart(&owned, &other.to_proto_path_buf(alloc)?));
    }
    Ok(())
}
