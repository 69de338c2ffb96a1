//! Calls as C makes them.

use crate::shapes::{PbFault, PbFile, PbSizes, PbSpan, PbText};
use crate::{protobuf_parse_compile, protobuf_parse_imports, protobuf_parse_version};
use std::alloc::Global;
use std::process::Abort;
use std::str;
use std::test::Fail;

const NOWHERE: PbSpan = PbSpan { at: 0, len: 0 };

const NO_FAULT: PbFault = PbFault {
    file: NOWHERE,
    line: 0,
    column: 0,
    severity: 0,
    code: NOWHERE,
    message: NOWHERE,
    help: NOWHERE,
};

const NO_SIZES: PbSizes = PbSizes {
    set: 9,
    texts: 9,
    faults: 9,
};

/// `FileDescriptorSet { file { name: "a.proto" message_type { name: "A" } syntax: "proto3" } }`
const SET: &[u8] = b"\x0a\x16\x0a\x07a.proto\x22\x03\x0a\x01A\x62\x06proto3";

const SOUND: PbFile<'static> = PbFile {
    path: b"a.proto",
    content: b"syntax = 'proto3'; message A {}",
};

const FAULTY: PbFile<'static> = PbFile {
    path: b"b.proto",
    content: b"syntax = 'proto3';\nmessage B { Oder o = 1; }",
};

#[test]
fn compiles_a_file(rt: HostRuntime) -> Result<(), Fail> {
    let (mut set, mut texts, mut faults) = ([0; 30], [0; 0], [NO_FAULT; 0]);
    let mut sizes = NO_SIZES;
    let inputs = [PbText { bytes: b"a.proto" }];
    let status = protobuf_parse_compile(
        rt.alloc(),
        &[FAULTY, SOUND],
        &inputs,
        0,
        &mut set,
        &mut texts,
        &mut faults,
        &mut sizes,
    );
    assert_eq!(rt; status, 0);
    assert_eq!(rt; (sizes.set, sizes.texts, sizes.faults), (SET.len(), 0, 0));
    assert!(rt; set.as_slice().starts_with(SET));
    Ok(())
}

#[test]
fn says_how_much_room_is_wanted(rt: HostRuntime) -> Result<(), Fail> {
    let (mut set, mut texts, mut faults) = ([7; 23], [0; 0], [NO_FAULT; 0]);
    let mut sizes = NO_SIZES;
    let inputs = [PbText { bytes: b"a.proto" }];
    let status = protobuf_parse_compile(
        rt.alloc(),
        &[SOUND],
        &inputs,
        0,
        &mut set,
        &mut texts,
        &mut faults,
        &mut sizes,
    );
    assert_eq!(rt; status, 2);
    assert_eq!(rt; (sizes.set, sizes.texts, sizes.faults), (SET.len(), 0, 0));
    assert_eq!(rt; set, [7; 23]);
    Ok(())
}

#[test]
fn tells_faults(rt: HostRuntime) -> Result<(), Fail> {
    let (mut set, mut texts, mut faults) = ([0; 0], [0; 100], [NO_FAULT; 2]);
    let mut sizes = NO_SIZES;
    let inputs = [PbText { bytes: b"b.proto" }];
    let status = protobuf_parse_compile(
        rt.alloc(),
        &[SOUND, FAULTY],
        &inputs,
        0,
        &mut set,
        &mut texts,
        &mut faults,
        &mut sizes,
    );
    assert_eq!(rt; status, 1);
    assert_eq!(rt; (sizes.set, sizes.faults), (0, 1));
    let told = texts.get(..sizes.texts).unwrap_or(&[]);
    assert_eq!(rt;
        str::from_utf8(told),
        Ok("b.protoE3\"Oder\" is not defined")
    );
    let [first, _] = faults;
    assert_eq!(rt; (first.line, first.column, first.severity), (2, 13, 1));
    assert_eq!(rt; (first.code.at, first.code.len), (7, 2));
    assert_eq!(rt; (first.message.at, first.help.len), (9, 0));
    Ok(())
}

/// The input is refused with this code.
fn expect_code<R: Abort>(rt: &R, alloc: Global, path: &[u8], code: &[u8]) {
    let (mut set, mut texts, mut faults) = ([0; 0], [0; 200], [NO_FAULT; 1]);
    let mut sizes = NO_SIZES;
    let inputs = [PbText { bytes: path }];
    let status = protobuf_parse_compile(
        alloc,
        &[SOUND],
        &inputs,
        0,
        &mut set,
        &mut texts,
        &mut faults,
        &mut sizes,
    );
    assert_eq!(rt; status, 1);
    let [first] = faults;
    let told = texts.get(first.code.at..first.code.at.saturating_add(2));
    assert_eq!(rt; told, Some(code));
}

#[test]
fn tells_of_inputs_that_are_no_paths(rt: HostRuntime) -> Result<(), Fail> {
    let alloc = rt.alloc();
    expect_code(&rt, alloc, b"../a.proto", b"P5");
    expect_code(&rt, alloc, b"", b"P1");
    expect_code(&rt, alloc, b"\\", b"P2");
    Ok(())
}

#[test]
fn tells_what_a_text_imports(rt: HostRuntime) -> Result<(), Fail> {
    let (mut texts, mut imports) = ([0; 20], [NOWHERE; 2]);
    let mut sizes = NO_SIZES;
    let text = b"syntax = 'proto3'; import 'b.proto'; import public 'c.proto';";
    let status = protobuf_parse_imports(rt.alloc(), text, &mut texts, &mut imports, &mut sizes);
    assert_eq!(rt; status, 0);
    assert_eq!(rt; (sizes.set, sizes.texts, sizes.faults), (0, 14, 2));
    assert!(rt; texts.as_slice().starts_with(b"b.protoc.proto"));
    let [first, second] = imports;
    assert_eq!(rt; (first.at, first.len, second.at, second.len), (0, 7, 7, 7));

    let status = protobuf_parse_imports(
        rt.alloc(),
        b"import",
        &mut texts,
        &mut imports,
        &mut sizes,
    );
    assert_eq!(rt; (status, sizes.faults), (1, 0));
    Ok(())
}

#[test]
fn says_its_version(rt: HostRuntime) -> Result<(), Fail> {
    assert_eq!(rt; protobuf_parse_version(), 1000);
    Ok(())
}
