//! Many files in which something is wrong.

use crate::shelf::told;
use std::alloc::{AllocError, Global};
use std::test::Fail;

/// Files that declare a name twice, and one that imports all of them.
fn twofold(alloc: Global, count: u32) -> Result<Vec<(String, String)>, AllocError> {
    let mut files = Vec::new(alloc);
    let mut top = String::new(alloc);
    for n in 0..count {
        let path = format!(in alloc; "t{n}.proto")?;
        write!(top, "import '{path}';\n")?;
        files.push((
            path,
            format!(in alloc; "message T{n} {{}}\nmessage T{n} {{}}")?,
        ))?;
    }
    files.push((String::from_str(alloc, "top.proto")?, top))?;
    Ok(files)
}

/// Each is told, however many there are.
#[test]
fn tells_each_of_many_files(rt: HostRuntime) -> Result<(), Fail> {
    let alloc = rt.alloc();
    let owned = twofold(alloc, 120)?;
    let mut files = Vec::new(alloc);
    let mut names = Vec::new(alloc);
    for (path, text) in &owned {
        files.push((path.as_str(), text.as_str()))?;
        names.push(path.as_str())?;
    }
    let mut want = String::new(alloc);
    for n in 0..120u32 {
        write!(
            want,
            "t{n}.proto Faulty\n  2:1 E5 TypeDeclaredTwice: .T{n}\n"
        )?;
    }
    want.push_str("top.proto HeldUp\n")?;
    assert_eq!(rt; told(alloc, &files, &names)?, want);
    assert_eq!(rt; told(alloc, &files, &["top.proto"])?, want);
    Ok(())
}
