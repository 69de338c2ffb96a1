//! The resolver and the reader of real files, called by hand, options with nothing set, and parsers
//! with and without Google's files.

use crate::outcome::own_path;
use protobuf_parse::pure::parse_and_typecheck_custom;
use protobuf_parse::{
    FileState, FsReader, InputReader, Parser, ProtoPath, ProtoPathBuf, ProtoPathResolver,
    fs_resolver,
};
use std::test::Fail;
use std::{fs, process};

#[test]
fn real_files_are_found_and_read(rt: HostRuntime) -> Result<(), Fail> {
    let alloc = rt.alloc();
    let own = process::id(rt.process());
    let name = format!(in alloc; "protobuf_parse_{own}_real.proto")?;
    fs::write(
        &rt,
        name.as_str(),
        b"message M { optional int32 a = 1 [default = 1]; }",
    )?;
    let text = fs::read(&rt, name.as_str())?;

    // The second include has the file, and a file of that name is read at its own path too.
    let resolver = fs_resolver(&rt, alloc, &["no", "."])?;
    let path = ProtoPath::new(&name)?;
    let Some(found) = resolver.resolve(alloc, path)? else {
        return Err(Fail::new("not found"));
    };
    assert_eq!(rt;
        found.path.as_str(),
        format!(in alloc; "./{name}")?.as_str()
    );
    assert_eq!(rt; found.content.as_slice(), text.as_slice());
    let read = FsReader::new(&rt).read(alloc, &name)?;
    assert_eq!(rt; read.as_slice(), text.as_slice());

    // A default alone: the field has options, and none of them is set.
    let inputs = [ProtoPathBuf::from_path(alloc, &name)?];
    let files = parse_and_typecheck_custom(alloc, &inputs, &resolver)?;
    let [file] = files.as_slice() else {
        return Err(Fail::new("one file"));
    };
    let [message] = file.message_type.as_slice() else {
        return Err(Fail::new("one message"));
    };
    let [field] = message.field.as_slice() else {
        return Err(Fail::new("one field"));
    };
    assert!(rt; field.options.is_some());
    fs::remove_file(&rt, name.as_str())?;
    assert!(rt; resolver.resolve(alloc, path)?.is_none());
    Ok(())
}

#[test]
fn google_files_are_there_where_asked_for(rt: HostRuntime) -> Result<(), Fail> {
    let alloc = rt.alloc();
    let path = own_path(&rt, "google.proto")?;
    let unfound = "protobuf path `google/protobuf/api.proto` is not found in import path [\".\"]";
    let unknown = format!(in alloc;
        "error in `{path}`: E3 NotFoundByRelPath: google.protobuf.FileDescriptorSet"
    )?;
    for (import, name, fault) in [
        ("api", "Api", unfound),
        ("descriptor", "FileDescriptorSet", unknown.as_str()),
    ] {
        let text = format!(in alloc;
            "import 'google/protobuf/{import}.proto';\n\
             message M {{ optional google.protobuf.{name} a = 1; }}"
        )?;
        fs::write(&rt, path.as_str(), text.as_bytes())?;
        let mut parser = Parser::new(alloc);
        parser.include(".")?.input(&path)?;
        let Err(told) = parser.parse_and_typecheck(&rt) else {
            return Err(Fail::new("accepted"));
        };
        assert_eq!(rt; format!(in alloc; "{told}")?.as_str(), fault);
        parser.google_files();
        assert_eq!(rt; parser.file_descriptor_set(&rt)?.file.len(), 1);
        let check = parser.check(&rt)?;
        assert!(rt; !check.files.is_empty());
        for report in &check.files {
            assert!(rt; report.state == FileState::Sound);
        }
    }
    fs::remove_file(&rt, path.as_str())?;
    Ok(())
}
