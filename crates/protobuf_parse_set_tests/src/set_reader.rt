//! Whole answers. What the bytes say was read by protoc 3.21.12 as well; the places of faults are
//! told by the bytes.

use protobuf_parse_set_reader::{SetFile, read_descriptor_set, read_descriptor_set_with_info};
use std::alloc::{AllocError, Global};
use std::test::Fail;

/// Every field of every message that descriptors have, but `debug_redact`, and a
/// `php_generic_services`, which they have no room for: written by protoc 3.21.12.
const EVERY_FIELD: [u8; 366] = [
    10, 235, 2, 10, 7, 97, 46, 112, 114, 111, 116, 111, 18, 1, 112, 26, 7, 98, 46, 112, 114, 111,
    116, 111, 26, 7, 99, 46, 112, 114, 111, 116, 111, 34, 185, 1, 10, 1, 77, 18, 68, 10, 10, 115,
    111, 109, 101, 95, 102, 105, 101, 108, 100, 18, 4, 46, 112, 46, 69, 24, 254, 255, 255, 255,
    255, 255, 255, 255, 255, 1, 32, 3, 40, 11, 50, 6, 46, 112, 46, 77, 46, 78, 58, 1, 100, 66, 14,
    8, 1, 16, 1, 24, 1, 40, 0, 48, 1, 80, 1, 120, 1, 72, 0, 82, 1, 106, 136, 1, 1, 26, 7, 10, 1,
    78, 58, 2, 56, 1, 34, 56, 10, 1, 70, 18, 18, 10, 1, 86, 16, 255, 255, 255, 255, 255, 255, 255,
    255, 255, 1, 26, 2, 8, 1, 26, 4, 16, 1, 24, 0, 34, 22, 8, 251, 255, 255, 255, 255, 255, 255,
    255, 255, 1, 16, 253, 255, 255, 255, 255, 255, 255, 255, 255, 1, 42, 1, 87, 42, 5, 8, 100, 16,
    200, 1, 50, 12, 10, 1, 101, 24, 5, 32, 1, 40, 18, 82, 1, 101, 58, 6, 8, 1, 16, 0, 24, 1, 66, 5,
    10, 1, 111, 18, 0, 74, 4, 8, 7, 16, 8, 82, 1, 114, 42, 3, 10, 1, 71, 50, 37, 10, 1, 83, 18, 27,
    10, 1, 109, 18, 4, 46, 112, 46, 77, 26, 4, 46, 112, 46, 78, 34, 6, 136, 2, 0, 144, 2, 1, 40, 1,
    48, 0, 26, 3, 136, 2, 1, 58, 12, 10, 1, 120, 24, 9, 32, 2, 40, 8, 82, 1, 120, 66, 73, 10, 1,
    49, 66, 1, 56, 72, 3, 80, 1, 90, 2, 49, 49, 128, 1, 0, 136, 1, 1, 144, 1, 0, 160, 1, 0, 184, 1,
    1, 216, 1, 0, 248, 1, 1, 162, 2, 2, 51, 54, 170, 2, 2, 51, 55, 186, 2, 2, 51, 57, 194, 2, 2,
    52, 48, 202, 2, 2, 52, 49, 208, 2, 1, 226, 2, 2, 52, 52, 234, 2, 2, 52, 53, 80, 1, 88, 0, 98,
    6, 112, 114, 111, 116, 111, 51,
];

/// The descriptors, or the error.
fn told(alloc: Global, bytes: &[u8]) -> Result<String, AllocError> {
    match read_descriptor_set(alloc, bytes) {
        Ok(files) => format!(in alloc; "{files:?}"),
        Err(error) => format!(in alloc; "{error}"),
    }
}

/// The set of one file with the name `f` and these fields.
fn set(alloc: Global, fields: &[u8]) -> Result<Vec<u8>, AllocError> {
    let mut file = Vec::from_array(alloc, [0x0a, 1, b'f'])?;
    file.extend_from_slice(fields)?;
    wrapped(alloc, 0x0a, &file)
}

/// A tag, a length below 16384 and the bytes.
fn wrapped(alloc: Global, tag: u8, bytes: &[u8]) -> Result<Vec<u8>, AllocError> {
    let mut out = Vec::new(alloc);
    out.push(tag)?;
    if bytes.len() >= 128 {
        out.push((bytes.len() % 128 + 128) as u8)?;
        out.push((bytes.len() / 128 % 128) as u8)?;
    } else {
        out.push((bytes.len() % 128) as u8)?;
    }
    out.extend_from_slice(bytes)?;
    Ok(out)
}

/// What is told of a set of one file with the name `f` and these extensions.
fn with_extensions(alloc: Global, extensions: &str) -> Result<String, AllocError> {
    format!(in alloc;
        "[FileDescriptorProto {{ name: Some(\"f\"), package: None, syntax: None, dependency: [], \
        public_dependency: [], weak_dependency: [], message_type: [], enum_type: [], \
        service: [], extension: [{extensions}], options: None }}]"
    )
}

#[test]
fn reads_every_field(rt: HostRuntime) -> Result<(), Fail> {
    let want = "\
        [FileDescriptorProto { name: Some(\"a.proto\"), package: Some(\"p\"), syntax: \
        Some(\"proto3\"), dependency: [\"b.proto\", \"c.proto\"], public_dependency: [1], \
        weak_dependency: [0], message_type: [DescriptorProto { name: \"M\", field: \
        [FieldDescriptorProto { name: \"some_field\", number: -2, label: Repeated, type_: \
        Message, proto3_optional: true, type_name: Some(\".p.M.N\"), extendee: \
        Some(\".p.E\"), default_value: Some(\"d\"), oneof_index: Some(0), json_name: \"j\", \
        options: Some(FieldOptions { ctype: Some(Cord), packed: Some(true), deprecated: \
        Some(true), lazy: Some(false), jstype: Some(JsString), weak: Some(true), \
        unverified_lazy: Some(true), debug_redact: None, custom: [] }) }], oneof_decl: \
        [OneofDescriptorProto { name: \"o\", options: Some(OneofOptions { custom: [] }) }], \
        nested_type: [DescriptorProto { name: \"N\", field: [], oneof_decl: [], nested_type: \
        [], enum_type: [], extension: [], extension_range: [], reserved_range: [], \
        reserved_name: [], options: Some(MessageOptions { message_set_wire_format: None, \
        no_standard_descriptor_accessor: None, deprecated: None, map_entry: Some(true), \
        custom: [] }) }], enum_type: [EnumDescriptorProto { name: \"F\", value: \
        [EnumValueDescriptorProto { name: \"V\", number: -1, options: Some(EnumValueOptions { \
        deprecated: Some(true), custom: [] }) }], reserved_range: [EnumReservedRange { start: \
        -5, end: -3 }], reserved_name: [\"W\"], options: Some(EnumOptions { allow_alias: \
        Some(true), deprecated: Some(false), custom: [] }) }], extension: \
        [FieldDescriptorProto { name: \"e\", number: 5, label: Optional, type_: Sint64, \
        proto3_optional: false, type_name: None, extendee: None, default_value: None, \
        oneof_index: None, json_name: \"e\", options: None }], extension_range: \
        [ExtensionRange { start: 100, end: 200 }], reserved_range: [ReservedRange { start: 7, \
        end: 8 }], reserved_name: [\"r\"], options: Some(MessageOptions { \
        message_set_wire_format: Some(true), no_standard_descriptor_accessor: Some(false), \
        deprecated: Some(true), map_entry: None, custom: [] }) }], enum_type: \
        [EnumDescriptorProto { name: \"G\", value: [], reserved_range: [], reserved_name: [], \
        options: None }], service: [ServiceDescriptorProto { name: \"S\", method: \
        [MethodDescriptorProto { name: \"m\", input_type: \".p.M\", output_type: \".p.N\", \
        client_streaming: true, server_streaming: false, options: Some(MethodOptions { \
        deprecated: Some(false), idempotency_level: Some(NoSideEffects), custom: [] }) }], \
        options: Some(ServiceOptions { deprecated: Some(true), custom: [] }) }], extension: \
        [FieldDescriptorProto { name: \"x\", number: 9, label: Required, type_: Bool, \
        proto3_optional: false, type_name: None, extendee: None, default_value: None, \
        oneof_index: None, json_name: \"x\", options: None }], options: Some(FileOptions { \
        java_package: Some(\"1\"), java_outer_classname: Some(\"8\"), optimize_for: \
        Some(LiteRuntime), java_multiple_files: Some(true), go_package: Some(\"11\"), \
        cc_generic_services: Some(false), java_generic_services: Some(true), \
        py_generic_services: Some(false), java_generate_equals_and_hash: Some(false), \
        deprecated: Some(true), java_string_check_utf8: Some(false), cc_enable_arenas: \
        Some(true), objc_class_prefix: Some(\"36\"), csharp_namespace: Some(\"37\"), \
        swift_prefix: Some(\"39\"), php_class_prefix: Some(\"40\"), php_namespace: \
        Some(\"41\"), php_metadata_namespace: Some(\"44\"), ruby_package: Some(\"45\"), \
        custom: [208, 2, 1] }) }]";
    assert_eq!(rt; told(rt.alloc(), &EVERY_FIELD)?.as_str(), want);
    Ok(())
}

#[test]
fn reads_what_is_told_in_other_ways(rt: HostRuntime) -> Result<(), Fail> {
    let rows: [(&str, &[u8], &[u8]); 9] = [
        (
            "any order",
            &[0x12, 1, b'p', 0x2a, 3, 0x0a, 1, b'E', 0x62, 1, b's'],
            &[0x62, 1, b's', 0x2a, 3, 0x0a, 1, b'E', 0x12, 1, b'p'],
        ),
        (
            "the last text counts, and one before it is not looked at",
            &[0x12, 1, b'p'],
            &[0x12, 1, 0xff, 0x12, 1, b'q', 0x12, 1, b'p'],
        ),
        (
            "packed numbers, and others behind them",
            &[0x50, 1, 0x50, 0x80, 1, 0x50, 3, 0x50, 4],
            &[0x52, 4, 1, 0x80, 1, 3, 0x52, 0, 0x50, 4],
        ),
        (
            "the low 32 bits of an int32",
            &[
                0x50, 0xfe, 0xff, 0xff, 0xff, 0xff, 0xff, 0xff, 0xff, 0xff, 1,
            ],
            &[0x50, 0xfe, 0xff, 0xff, 0xff, 0x1f],
        ),
        (
            "options in two parts",
            &[0x42, 11, 0x0a, 1, b'j', 0x50, 1, 0xb8, 1, 0, 0xf8, 7, 5],
            &[
                0x42, 8, 0x0a, 1, b'i', 0x50, 1, 0xb8, 1, 0, 0x42, 0, 0x42, 6, 0x0a, 1, b'j', 0xf8,
                7, 5,
            ],
        ),
        (
            "a truth value above 1",
            &[0x42, 2, 0x50, 1],
            &[0x42, 3, 0x50, 0x80, 1],
        ),
        (
            "unknown fields of each wire type",
            &[],
            &[
                0x70, 1, 0xa1, 6, 1, 2, 3, 4, 5, 6, 7, 8, 0xa2, 6, 1, 0xff, 0xa5, 6, 1, 2, 3, 4,
            ],
        ),
        (
            "groups, one inside the other, with what would be fields",
            &[0x12, 1, b'p'],
            &[
                0x12, 1, b'p', 0xa3, 6, 0x12, 1, b'q', 0xab, 6, 0x0a, 0, 0xac, 6, 0xa4, 6,
            ],
        ),
        ("source_code_info", &[], &[0x4a, 2, 0x0a, 0]),
    ];
    let alloc = rt.alloc();
    for (what, one, other) in rows {
        let one = told(alloc, &set(alloc, one)?)?;
        let other = told(alloc, &set(alloc, other)?)?;
        assert_eq!(rt; one.as_str(), other.as_str(), "{what}");
        assert!(rt; one.as_str().starts_with("[FileDescriptorProto"), "{what}");
    }
    Ok(())
}

#[test]
fn keeps_the_other_records_of_options(rt: HostRuntime) -> Result<(), Fail> {
    // Bytes of FieldOptions, what is told of `ctype`, `packed` and `jstype`, and the custom ones.
    let rows: [(&str, &[u8], [&str; 3], &str); 8] = [
        (
            "unknown numbers, in order, around a built-in option",
            &[0x9a, 6, 1, 7, 0x10, 1, 0x98, 6, 5, 0x95, 6, 1, 2, 3, 4],
            ["None", "Some(true)", "None"],
            "154, 6, 1, 7, 152, 6, 5, 149, 6, 1, 2, 3, 4",
        ),
        (
            "a group as a whole",
            &[0x9b, 6, 0x10, 1, 0x9c, 6],
            ["None", "None", "None"],
            "155, 6, 16, 1, 156, 6",
        ),
        (
            "bytes where a truth value would stand",
            &[0x12, 1, 1],
            ["None", "None", "None"],
            "18, 1, 1",
        ),
        (
            "four bytes, and then a truth value",
            &[0x15, 1, 0, 0, 0, 0x10, 0],
            ["None", "Some(false)", "None"],
            "21, 1, 0, 0, 0",
        ),
        (
            "a truth value, and then four bytes",
            &[0x10, 1, 0x15, 1, 0, 0, 0],
            ["None", "Some(true)", "None"],
            "21, 1, 0, 0, 0",
        ),
        (
            "a value of an enum, and then a number that none has",
            &[0x08, 2, 0x08, 3, 0x30, 0],
            ["Some(StringPiece)", "None", "Some(JsNormal)"],
            "8, 3",
        ),
        (
            "a negative number, and bytes, where a value of an enum would stand",
            &[0x30, 0xff, 0xff, 0xff, 0xff, 0x0f, 0x0a, 0],
            ["None", "None", "None"],
            "48, 255, 255, 255, 255, 15, 10, 0",
        ),
        (
            "the last of two values",
            &[0x08, 2, 0x10, 1, 0x08, 1, 0x10, 0],
            ["Some(Cord)", "Some(false)", "None"],
            "",
        ),
    ];
    let alloc = rt.alloc();
    for (what, options, [ctype, packed, jstype], custom) in rows {
        let field = [0x0a, 1, b'x', 0x28, 5];
        let mut extension = Vec::from_array(alloc, field)?;
        extension.extend_from_slice(&wrapped(alloc, 0x42, options)?)?;
        let told = told(alloc, &set(alloc, &wrapped(alloc, 0x3a, &extension)?)?)?;
        let want = format!(in alloc;
            "FieldDescriptorProto {{ name: \"x\", number: 0, label: Optional, type_: Int32, \
            proto3_optional: false, type_name: None, extendee: None, default_value: None, \
            oneof_index: None, json_name: \"x\", options: Some(FieldOptions {{ ctype: {ctype}, \
            packed: {packed}, deprecated: None, lazy: None, jstype: {jstype}, weak: None, \
            unverified_lazy: None, debug_redact: None, custom: [{custom}] }}) }}"
        )?;
        let want = with_extensions(alloc, &want)?;
        assert_eq!(rt; told.as_str(), want.as_str(), "{what}");
    }
    Ok(())
}

#[test]
fn fills_in_what_is_missing(rt: HostRuntime) -> Result<(), Fail> {
    let alloc = rt.alloc();
    // Package `p`, a message `M` with an enum `E` in it, and extensions `foo_bar`: of the first
    // type, of the second, and of one that is said though the name is another's.
    let fields = [
        0x3a, 15, 0x0a, 7, b'f', b'o', b'o', b'_', b'b', b'a', b'r', 0x32, 4, b'.', b'p', b'.',
        b'M', 0x3a, 11, 0x32, 6, b'.', b'p', b'.', b'M', b'.', b'E', 0x0a, 1, b'y', 0x3a, 11, 0x0a,
        1, b'z', 0x28, 11, 0x32, 4, b'.', b'p', b'.', b'X', 0x22, 8, 0x0a, 1, b'M', 0x22, 3, 0x0a,
        1, b'E', 0x12, 1, b'p',
    ];
    let want = "[FileDescriptorProto { name: Some(\"f\"), package: Some(\"p\"), syntax: None, \
        dependency: [], public_dependency: [], weak_dependency: [], \
        message_type: [DescriptorProto { name: \"M\", field: [], oneof_decl: [], nested_type: [], \
        enum_type: [EnumDescriptorProto { name: \"E\", value: [], reserved_range: [], \
        reserved_name: [], options: None }], extension: [], extension_range: [], \
        reserved_range: [], reserved_name: [], options: None }], enum_type: [], service: [], \
        extension: [FieldDescriptorProto { name: \"foo_bar\", number: 0, label: Optional, \
        type_: Message, proto3_optional: false, type_name: Some(\".p.M\"), extendee: None, \
        default_value: None, oneof_index: None, json_name: \"fooBar\", options: None }, \
        FieldDescriptorProto { name: \"y\", number: 0, label: Optional, type_: Enum, \
        proto3_optional: false, type_name: Some(\".p.M.E\"), extendee: None, \
        default_value: None, oneof_index: None, json_name: \"y\", options: None }, \
        FieldDescriptorProto { name: \"z\", number: 0, label: Optional, type_: Message, \
        proto3_optional: false, type_name: Some(\".p.X\"), extendee: None, \
        default_value: None, oneof_index: None, json_name: \"z\", options: None }], \
        options: None }]";
    assert_eq!(rt; told(alloc, &set(alloc, &fields)?)?.as_str(), want);
    Ok(())
}

#[test]
fn tells_faults_with_their_bytes(rt: HostRuntime) -> Result<(), Fail> {
    let truncated = "the bytes end inside a record";
    let wire_type = "the field has another wire type";
    // Sets; where it says so, of one file, whose name stands at byte 2.
    let rows: [(&[u8], usize, &str); 22] = [
        (&[0x0a], 1, truncated),
        (&[0x0a, 2, 0x0a, 1], 4, truncated),
        (&[0x0a, 4, 0x0a, 1, b'f', 0x10], 6, truncated),
        (
            &[
                0x08, 0x80, 0x80, 0x80, 0x80, 0x80, 0x80, 0x80, 0x80, 0x80, 0x02,
            ],
            1,
            "a varint has more than 64 bits",
        ),
        (&[0x0a, 2, 0x00, 1], 2, "no field has this number"),
        (&[0x0a, 1, 0x0e], 2, "there is no such wire type"),
        (&[0x0a, 1, 0x0c], 2, "a group ends that is not open"),
        (&[0x0b, 0x14], 1, "a group ends that is not open"),
        (&[0x08, 1], 0, wire_type),
        (&[0x0a, 5, 0x0a, 1, b'f', 0x10, 1], 5, wire_type),
        (&[0x0a, 5, 0x0a, 1, b'f', 0x22, 9], 7, truncated),
        (&[0x0a, 5, 0x0a, 1, b'f', 0x20, 0], 5, wire_type),
        (&[0x0a, 5, 0x0a, 1, b'f', 0x40, 0], 5, wire_type),
        (&[0x0a, 8, 0x0a, 1, b'f', 0x55, 0, 0, 0, 0], 5, wire_type),
        (&[0x0a, 7, 0x0a, 1, b'f', 0x52, 2, 1, 0x80], 8, truncated),
        (
            &[0x0a, 6, 0x0a, 1, b'f', 0x12, 1, 0xff],
            7,
            "a text is not UTF-8",
        ),
        (
            &[0x0a, 8, 0x0a, 1, b'f', 0x42, 3, 0x0a, 1, 0xff],
            9,
            "a text is not UTF-8",
        ),
        (&[0x0a, 3, 0x12, 1, b'p'], 2, "a name is missing"),
        (&[0x0a, 5, 0x0a, 1, b'f', 0x22, 0], 7, "a name is missing"),
        (
            &[0x0a, 10, 0x0a, 1, b'f', 0x3a, 5, 0x0a, 1, b'x', 0x20, 4],
            10,
            "no label has this number",
        ),
        (
            &[0x0a, 10, 0x0a, 1, b'f', 0x3a, 5, 0x0a, 1, b'x', 0x28, 0],
            10,
            "no type has this number",
        ),
        (
            &[0x0a, 8, 0x0a, 1, b'f', 0x3a, 3, 0x0a, 1, b'x'],
            7,
            "the type of a field is missing",
        ),
    ];
    for (bytes, at, want) in rows {
        let want = format!(in rt.alloc(); "byte {at}: {want}")?;
        assert_eq!(rt; told(rt.alloc(), bytes)?.as_str(), want.as_str());
    }
    Ok(())
}

/// The set of one file with so many messages `m` inside one another.
fn nested(alloc: Global, levels: usize) -> Result<Vec<u8>, AllocError> {
    let mut inside = Vec::new(alloc);
    for level in 0..levels {
        let mut message = Vec::from_array(alloc, [0x0a, 1, b'm'])?;
        message.extend_from_slice(&inside)?;
        let tag = if level + 1 < levels { 0x1a } else { 0x22 };
        inside = wrapped(alloc, tag, &message)?;
    }
    set(alloc, &inside)
}

#[test]
fn takes_100_messages_inside_one_another(rt: HostRuntime) -> Result<(), Fail> {
    let alloc = rt.alloc();
    let text = told(alloc, &nested(alloc, 100)?)?;
    assert!(rt;
        text.as_str()
            .starts_with("[FileDescriptorProto { name: Some(\"f\")")
    );
    assert_eq!(rt; text.as_str().matches("name: \"m\"").count(), 100);
    let text = told(alloc, &nested(alloc, 101)?)?;
    assert_eq!(rt;
        text.as_str(),
        "byte 584: more than 100 messages stand inside one another"
    );
    Ok(())
}

/// What is told with source info, or the error.
fn told_with_info(alloc: Global, bytes: &[u8]) -> Result<String, AllocError> {
    match read_descriptor_set_with_info(alloc, bytes) {
        Ok(files) => format!(in alloc; "{files:?}"),
        Err(error) => format!(in alloc; "{error}"),
    }
}

/// What is told of a file with that name and nothing else, with that source info.
fn named(alloc: Global, name: &str, info: &str) -> Result<String, AllocError> {
    format!(in alloc;
        "SetFile {{ file: FileDescriptorProto {{ name: Some(\"{name}\"), package: None, \
        syntax: None, dependency: [], public_dependency: [], weak_dependency: [], \
        message_type: [], enum_type: [], service: [], extension: [], options: None }}, \
        source_code_info: {info} }}"
    )
}

#[test]
fn reads_source_info_beside_files(rt: HostRuntime) -> Result<(), Fail> {
    let alloc = rt.alloc();
    // Source info in two parts with an unknown field between them, without anything, and none.
    let bytes = [
        10, 19, 10, 1, b'f', 74, 5, 10, 3, 10, 1, 4, 112, 1, 74, 5, 10, 3, 18, 1, 7, 10, 5, 10, 1,
        b'g', 74, 0, 10, 3, 10, 1, b'h',
    ];
    let joined = named(alloc, "f", "Some([10, 3, 10, 1, 4, 10, 3, 18, 1, 7])")?;
    let empty = named(alloc, "g", "Some([])")?;
    let none = named(alloc, "h", "None")?;
    let want = format!(in alloc; "[{joined}, {empty}, {none}]")?;
    assert_eq!(rt; told_with_info(alloc, &bytes)?.as_str(), want.as_str());
    // The bytes are not looked at.
    let any = named(alloc, "f", "Some([255])")?;
    let want = format!(in alloc; "[{any}]")?;
    let bytes = set(alloc, &[0x4a, 1, 0xff])?;
    assert_eq!(rt; told_with_info(alloc, &bytes)?.as_str(), want.as_str());
    Ok(())
}

#[test]
fn tells_faults_of_source_info(rt: HostRuntime) -> Result<(), Fail> {
    let rows: [(&str, &[u8], &str); 4] = [
        (
            "a number",
            &[0x48, 1],
            "byte 5: the field has another wire type",
        ),
        (
            "a number behind bytes",
            &[0x4a, 0, 0x48, 1, 0x4a, 0],
            "byte 7: the field has another wire type",
        ),
        (
            "another field comes first",
            &[0x48, 1, 0x12, 1, 0xff],
            "byte 9: a text is not UTF-8",
        ),
        (
            "bytes that end inside it",
            &[0x4a, 2, 0],
            "byte 7: the bytes end inside a record",
        ),
    ];
    for (what, fields, want) in rows {
        let bytes = set(rt.alloc(), fields)?;
        assert_eq!(rt;
            told_with_info(rt.alloc(), &bytes)?.as_str(),
            want,
            "{what}"
        );
    }
    // Where it is passed over, its wire type is too.
    let bytes = set(rt.alloc(), &[0x48, 1])?;
    let want = with_extensions(rt.alloc(), "")?;
    assert_eq!(rt; told(rt.alloc(), &bytes)?.as_str(), want.as_str());
    Ok(())
}
