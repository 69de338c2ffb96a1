//! Chains of imports that are too long.

use crate::shelf::told;
use std::alloc::{AllocError, Global};
use std::test::Fail;

/// Files each of which imports the next and names what that one declares; the last of them imports
/// nothing.
fn chain(alloc: Global, length: u32) -> Result<Vec<(String, String)>, AllocError> {
    let mut files = Vec::new(alloc);
    for n in 0..length {
        let path = format!(in alloc; "c{n}.proto")?;
        let text = match n + 1 {
            next if next < length => format!(in alloc;
                "import 'c{next}.proto';\nmessage M{n} {{ optional M{next} next = 1; }}"
            )?,
            _ => format!(in alloc; "message M{n} {{}}")?,
        };
        files.push((path, text))?;
    }
    Ok(files)
}

/// What is told of the chain of 300 files by a check of these inputs.
fn told_of_chain(alloc: Global, names: &[&str]) -> Result<String, Fail> {
    let owned = chain(alloc, 300)?;
    let mut files = Vec::new(alloc);
    for (path, text) in &owned {
        files.push((path.as_str(), text.as_str()))?;
    }
    told(alloc, &files, names)
}

/// The lines of a hundred files from this one on, the last one first, which is of the first of
/// these states, while the others are of the second.
fn put_hundred(
    text: &mut String,
    first: u32,
    last_is: &str,
    others_are: &str,
) -> Result<(), AllocError> {
    for back in 0..100u32 {
        let n = first.wrapping_add(99 - back);
        let state = if back == 0 { last_is } else { others_are };
        write!(text, "c{n}.proto {state}\n")?;
    }
    Ok(())
}

/// From its first file a hundred files of the chain are loaded: the statement in the last of them
/// is told, and what it would lead to isn't read.
#[test]
fn tells_the_statement_that_makes_a_chain_too_long(rt: HostRuntime) -> Result<(), Fail> {
    let alloc = rt.alloc();
    let lines = told_of_chain(alloc, &["c0.proto"])?;
    let mut want = String::from_str(
        alloc,
        "c99.proto:1:1 leaves c100.proto: too long from c0.proto\n",
    )?;
    put_hundred(&mut want, 0, "Faulty", "HeldUp")?;
    assert_eq!(rt; lines, want);
    Ok(())
}

/// With further inputs all files are loaded, and two statements are told, whatever the order. Of
/// the statements that lead to loaded files those are told behind which too many lie.
#[test]
fn tells_them_from_several_inputs(rt: HostRuntime) -> Result<(), Fail> {
    let alloc = rt.alloc();
    let lines = told_of_chain(alloc, &["c0.proto", "c100.proto", "c200.proto"])?;
    let mut want = String::from_str(
        alloc,
        "c99.proto:1:1 leaves c100.proto: too long from c0.proto\n\
        c199.proto:1:1 leaves c200.proto: too long from c100.proto\n",
    )?;
    put_hundred(&mut want, 0, "Faulty", "HeldUp")?;
    put_hundred(&mut want, 100, "Faulty", "HeldUp")?;
    put_hundred(&mut want, 200, "Sound", "Sound")?;
    assert_eq!(rt; lines, want);
    let lines = told_of_chain(alloc, &["c200.proto", "c100.proto", "c0.proto"])?;
    let mut want = String::from_str(
        alloc,
        "c199.proto:1:1 leaves c200.proto: too long from c100.proto\n\
        c99.proto:1:1 leaves c100.proto: too long from c0.proto\n",
    )?;
    put_hundred(&mut want, 200, "Sound", "Sound")?;
    put_hundred(&mut want, 100, "Faulty", "HeldUp")?;
    put_hundred(&mut want, 0, "Faulty", "HeldUp")?;
    assert_eq!(rt; lines, want);
    Ok(())
}

/// A file before a chain of a hundred: its own statement is told, and its names that aren't found
/// are hidden. One that leads into the middle is not told.
#[test]
fn tells_a_statement_before_a_loaded_chain(rt: HostRuntime) -> Result<(), Fail> {
    let alloc = rt.alloc();
    let lines = told_of_chain(alloc, &["c200.proto", "c199.proto", "c250.proto"])?;
    let mut want = String::from_str(
        alloc,
        "c199.proto:1:1 leaves c200.proto: too long from c199.proto\n",
    )?;
    put_hundred(&mut want, 200, "Sound", "Sound")?;
    want.push_str("c199.proto Faulty\n")?;
    assert_eq!(rt; lines, want);
    Ok(())
}
