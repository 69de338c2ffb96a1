//! Names of what is declared as values.

use crate::hashing::{alike, apart, hash_of};
use protobuf_parse_base::Name;
use std::cmp::Ordering;
use std::test::Fail;

/// A text with as many bytes as lie in a name itself, and one with one more.
const FITS: &str = "abcdefghijklmnopqrstuvwx";

const TOO_LONG: &str = "abcdefghijklmnopqrstuvwxy";

#[test]
fn names_keep_their_texts(rt: HostRuntime) -> Result<(), Fail> {
    let alloc = rt.alloc();
    for text in ["", "a", "größe", FITS, TOO_LONG] {
        let name = Name::new(alloc, text)?;
        assert_eq!(rt; name.as_str(), text);
        assert_eq!(rt; &*name, text);
        assert_eq!(rt; name.text(alloc)?.as_str(), text);
        assert_eq!(rt; format!(in alloc; "{name}")?.as_str(), text);
        assert_eq!(rt; name.clone()?.into_string(alloc)?.as_str(), text);
        let kept = Name::from(name.into_string(alloc)?);
        assert_eq!(rt; kept.as_str(), text);
        assert_eq!(rt; kept.clone()?.as_str(), text);
        assert_eq!(rt; kept.into_string(alloc)?.as_str(), text);
    }
    Ok(())
}

#[test]
fn names_are_told_apart_by_their_texts(rt: HostRuntime) -> Result<(), Fail> {
    let alloc = rt.alloc();
    for text in ["a", FITS, TOO_LONG] {
        let name = Name::new(alloc, text)?;
        let kept = Name::from(String::from_str(alloc, text)?);
        assert!(rt; alike(&name, &kept));
        assert_eq!(rt; hash_of(&name), hash_of(&text));
        for other in ["", "b", "A", "ab"] {
            assert!(rt; apart(&name, &Name::new(alloc, other)?));
            assert!(rt; apart(&kept, &Name::new(alloc, other)?));
        }
    }
    Ok(())
}

#[test]
fn names_stand_in_the_order_of_their_texts(rt: HostRuntime) -> Result<(), Fail> {
    let alloc = rt.alloc();
    let rows = [
        ("a", "b", Ordering::Less),
        ("b", "a", Ordering::Greater),
        ("a", "a", Ordering::Equal),
        ("a", "ab", Ordering::Less),
        ("b", "ab", Ordering::Greater),
        (FITS, TOO_LONG, Ordering::Less),
        ("b", TOO_LONG, Ordering::Greater),
    ];
    for (one, other, order) in rows {
        let kept = Name::from(String::from_str(alloc, other)?);
        assert_eq!(rt; Name::new(alloc, one)?.cmp(&kept), order);
        assert_eq!(rt; Name::new(alloc, one)?.partial_cmp(&kept), Some(order));
    }
    Ok(())
}
