//! An index over the files of a run.

use protobuf_parse::pure::parse_and_typecheck_custom;
use protobuf_parse::{
    DescriptorProto, FieldDescriptorProto, FileDescriptorProto, ProtoPath, ProtoPathBuf,
    ProtoPathResolver, ProtobufAbsPathRef, ReadFault, ReadField, ReadValue, ResolveFault,
    ResolvedProtoFile,
};
use protobuf_parse_index::{Declared, Index, custom_options, label_word, oneof_of, type_word};
use std::alloc::{AllocError, Global};
use std::fmt;
use std::test::Fail;

/// Texts, each with its path.
#[derive(Clone, Copy)]
struct Texts;

impl fmt::Display for Texts {
    fn fmt<W: fmt::Write>(&self, f: &mut fmt::Formatter<W>) -> fmt::Result {
        f.write_str("the texts")
    }
}

impl ProtoPathResolver for Texts {
    ghost may_answer = { λ _ _ _. Unit {0} };

    fn resolve(
        &self,
        alloc: Global,
        path: ProtoPath<'_>,
    ) -> Result<Option<ResolvedProtoFile>, ResolveFault> {
        for (name, text) in TEXTS {
            if *name == path.to_str() {
                return found(alloc, name, text).map_err(|_| ResolveFault::Memory);
            }
        }
        Ok(None)
    }
}

fn found(alloc: Global, name: &str, text: &str) -> Result<Option<ResolvedProtoFile>, AllocError> {
    Ok(Some(ResolvedProtoFile {
        path: String::from_str(alloc, name)?,
        content: Vec::from_slice(alloc, text.as_bytes())?,
    }))
}

const TEXTS: &[(&str, &str)] = &[
    (
        "options.proto",
        "package shop;
        import 'google/protobuf/descriptor.proto';
        message Size { optional uint32 max = 1; extensions 100 to 200; }
        extend Size { optional string unit = 100; }
        message Limits { extensions 100 to 200; }
        extend Limits { optional string least = 100; }
        extend google.protobuf.MessageOptions {
            optional string owner = 50000;
            optional Size size = 50001;
            optional Audience audience = 50002;
        }
        enum Audience { option allow_alias = true; EVERYONE = 0; STAFF = -1; CREW = -1; }",
    ),
    (
        "first.proto",
        "package a;
        import 'options.proto';
        message Item {
            option (shop.audience) = STAFF;
            option (shop.size) = { max: 3 [shop.unit]: 'box' };
            option (shop.owner) = 'stock';
            message Part {
                enum Kind { NONE = 0; }
                extend shop.Limits { optional int32 inner = 101; }
            }
            extensions 100 to 200;
            optional int32 id = 1;
            optional int32 again = 1;
            oneof one { int32 first = 2; int32 second = 3; }
            oneof other { int32 third = 4; }
        }
        service Items { rpc Come (Item) returns (Item.Part); }
        extend shop.Limits { optional int32 outer = 101; }
        extend Item { optional int32 more = 100; optional int32 same = 1; }",
    ),
    (
        "second.proto",
        "package a;
        message Item {
            optional string other = 1;
            optional string far = 2;
            message Late {}
        }
        enum Kind { ZERO = 0; }
        service Late { rpc Come (Item) returns (Item); rpc Go (Item) returns (Item.Late); }
        service Empty {}",
    ),
];

/// The files of a run over both inputs.
pub fn files(alloc: Global) -> Result<Vec<FileDescriptorProto>, Fail> {
    let first = ProtoPathBuf::new(String::from_str(alloc, "first.proto")?)?;
    let second = ProtoPathBuf::new(String::from_str(alloc, "second.proto")?)?;
    let paths = vec![in alloc; first, second]?;
    Ok(parse_and_typecheck_custom(alloc, &paths, &Texts)?)
}

/// A line for each declaration outside of the library's own files.
fn lines<T>(alloc: Global, declared: &[Declared<'_, T>]) -> Result<String, AllocError> {
    let mut text = String::new(alloc);
    for each in declared {
        if !each.file.starts_with("google/") {
            write!(text, "{} {}\n", each.file, each.full_name)?;
        }
    }
    Ok(text)
}

#[test]
fn walks_over_all_declarations(rt: HostRuntime) -> Result<(), Fail> {
    let alloc = rt.alloc();
    let files = files(alloc)?;
    let index = Index::of(alloc, &files)?;
    assert_eq!(rt; index.files().len(), 4);
    assert_eq!(rt;
        lines(alloc, index.messages())?.as_str(),
        "options.proto .shop.Size\n\
         options.proto .shop.Limits\n\
         first.proto .a.Item\n\
         first.proto .a.Item.Part\n\
         second.proto .a.Item\n\
         second.proto .a.Item.Late\n"
    );
    assert_eq!(rt;
        lines(alloc, index.enums())?.as_str(),
        "options.proto .shop.Audience\n\
         first.proto .a.Item.Part.Kind\n\
         second.proto .a.Kind\n"
    );
    assert_eq!(rt;
        lines(alloc, index.extensions())?.as_str(),
        "options.proto .shop.unit\n\
         options.proto .shop.least\n\
         options.proto .shop.owner\n\
         options.proto .shop.size\n\
         options.proto .shop.audience\n\
         first.proto .a.Item.Part.inner\n\
         first.proto .a.outer\n\
         first.proto .a.more\n\
         first.proto .a.same\n"
    );
    assert_eq!(rt;
        lines(alloc, index.services())?.as_str(),
        "first.proto .a.Items\n\
         second.proto .a.Late\n\
         second.proto .a.Empty\n"
    );
    Ok(())
}

/// Where the message or the enum is declared that was found.
fn file_of<'i, T>(found: Option<&'i Declared<'_, T>>) -> &'i str {
    match found {
        Some(declared) => declared.file,
        None => "none",
    }
}

#[test]
fn finds_the_first_of_a_name(rt: HostRuntime) -> Result<(), Fail> {
    let alloc = rt.alloc();
    let files = files(alloc)?;
    let index = Index::of(alloc, &files)?;
    let item = index.message(".a.Item").ok_or("absent")?;
    assert_eq!(rt; item.file, "first.proto");
    assert_eq!(rt; item.descriptor.field.len(), 5);
    assert_eq!(rt; file_of(index.message(".a.Item.Late")), "second.proto");
    assert_eq!(rt; file_of(index.message("a.Item")), "none");
    assert_eq!(rt; file_of(index.message(".a.Kind")), "none");
    assert_eq!(rt; file_of(index.enumeration(".a.Kind")), "second.proto");
    assert_eq!(rt;
        file_of(index.enumeration(".a.Item.Part.Kind")),
        "first.proto"
    );
    assert_eq!(rt; file_of(index.enumeration(".a.Item")), "none");
    assert_eq!(rt;
        file_of(index.extension_by_name(".shop.owner")),
        "options.proto"
    );
    assert_eq!(rt; file_of(index.extension_by_name(".a.id")), "none");
    Ok(())
}

#[test]
fn finds_services_and_files(rt: HostRuntime) -> Result<(), Fail> {
    let alloc = rt.alloc();
    let files = files(alloc)?;
    let index = Index::of(alloc, &files)?;
    assert_eq!(rt; file_of(index.service(".a.Late")), "second.proto");
    assert_eq!(rt; file_of(index.service(".a.Item")), "none");
    let go = index.method(".a.Late", "Go").ok_or("absent")?;
    assert_eq!(rt; go.output_type.as_str(), ".a.Item.Late");
    assert_eq!(rt; index.method(".a.Items", "Go").is_none(), true);
    assert_eq!(rt; index.method(".a.None", "Go").is_none(), true);
    let second = index.file("second.proto").ok_or("absent")?;
    assert_eq!(rt; second.service.len(), 2);
    assert_eq!(rt; index.file("third.proto").is_none(), true);
    Ok(())
}

#[test]
fn finds_values_and_oneofs_by_name(rt: HostRuntime) -> Result<(), Fail> {
    let alloc = rt.alloc();
    let files = files(alloc)?;
    let index = Index::of(alloc, &files)?;
    let crew = index.value_named(".shop.Audience", "CREW").ok_or("absent")?;
    assert_eq!(rt; crew.number, -1);
    assert_eq!(rt;
        index.value_named(".shop.Audience", "GUEST").is_none(),
        true
    );
    assert_eq!(rt; index.value_named(".a.Item", "CREW").is_none(), true);
    let item = index.message(".a.Item").ok_or("absent")?.descriptor;
    assert_eq!(rt; oneof_name(&index, item, 1), "none");
    assert_eq!(rt; oneof_name(&index, item, 2), "one");
    assert_eq!(rt; oneof_name(&index, item, 3), "one");
    assert_eq!(rt; oneof_name(&index, item, 4), "other");
    Ok(())
}

/// What the oneof is called that the field of that number of `.a.Item` stands in.
fn oneof_name<'m>(index: &Index<'_>, item: &'m DescriptorProto, number: i32) -> &'m str {
    match index.field(".a.Item", number) {
        Some(field) => match oneof_of(item, field) {
            Some(oneof) => oneof.name.as_str(),
            None => "none",
        },
        None => "no field",
    }
}

/// What the field is called that was found.
fn name_of<'f>(found: Option<&'f FieldDescriptorProto>) -> &'f str {
    match found {
        Some(field) => field.name.as_str(),
        None => "none",
    }
}

/// The full name of the extension that was found.
fn full_name_of<'i>(found: Option<&'i Declared<'_, FieldDescriptorProto>>) -> &'i str {
    match found {
        Some(declared) => declared.full_name.as_str(),
        None => "none",
    }
}

/// A record of that number.
fn record(number: u32) -> ReadField {
    ReadField {
        number,
        value: ReadValue::Bool(true),
    }
}

#[test]
fn finds_the_first_of_a_number(rt: HostRuntime) -> Result<(), Fail> {
    let alloc = rt.alloc();
    let files = files(alloc)?;
    let index = Index::of(alloc, &files)?;
    assert_eq!(rt;
        full_name_of(index.extension(".shop.Limits", 100)),
        ".shop.least"
    );
    assert_eq!(rt;
        full_name_of(index.extension(".shop.Limits", 101)),
        ".a.Item.Part.inner"
    );
    assert_eq!(rt; full_name_of(index.extension(".shop.Limits", 1)), "none");
    assert_eq!(rt; full_name_of(index.extension(".shop.Limit", 100)), "none");
    assert_eq!(rt; full_name_of(index.extension(".a.Item", 1)), ".a.same");
    assert_eq!(rt;
        full_name_of(index.extension_read(".a.Item", &record(100))),
        ".a.more"
    );
    assert_eq!(rt;
        full_name_of(index.extension_read(".a.Item", &record(u32::MAX))),
        "none"
    );
    assert_eq!(rt; name_of(index.field(".a.Item", 1)), "id");
    assert_eq!(rt; name_of(index.field(".a.Item", 100)), "more");
    assert_eq!(rt; name_of(index.field(".a.Item", 9)), "none");
    assert_eq!(rt; name_of(index.field(".a.Item", -1)), "none");
    assert_eq!(rt; name_of(index.field(".a.Kind", 0)), "none");
    assert_eq!(rt; name_of(index.field_read(".shop.Size", &record(1))), "max");
    assert_eq!(rt;
        name_of(index.field_read(".shop.Size", &record(100))),
        "unit"
    );
    assert_eq!(rt;
        name_of(index.field_read(".shop.Limits", &record(u32::MAX))),
        "none"
    );
    assert_eq!(rt; index.value(".shop.Audience", -1), Some("STAFF"));
    assert_eq!(rt; index.value(".shop.Audience", 1), None);
    assert_eq!(rt; index.value(".a.Item", 0), None);
    assert_eq!(rt;
        index.value_read(".shop.Audience", &ReadValue::Number(-1)),
        Some("STAFF")
    );
    assert_eq!(rt;
        index.value_read(".shop.Audience", &ReadValue::Bool(false)),
        None
    );
    Ok(())
}

/// A line for each field of a message inside an option.
fn put_inside(
    alloc: Global,
    text: &mut String,
    index: &Index<'_>,
    message: &str,
    fields: &[ReadField],
) -> Result<(), AllocError> {
    for read in fields {
        let name = index.field_name(alloc, message, read)?;
        let field = index.field_read(message, read);
        if let (Some(name), Some(field)) = (name, field) {
            let (label, type_) = (label_word(field.label), type_word(field.type_));
            write!(text, "  {label} {type_} {name}\n")?;
        }
    }
    Ok(())
}

#[test]
fn names_custom_options(rt: HostRuntime) -> Result<(), Fail> {
    let alloc = rt.alloc();
    let files = files(alloc)?;
    let index = Index::of(alloc, &files)?;
    let of = ProtobufAbsPathRef::try_new(".google.protobuf.MessageOptions").ok_or("absent")?;
    let item = index.message(".a.Item").ok_or("absent")?;
    let options = item.descriptor.options.as_ref().ok_or("absent")?;
    let mut text = String::new(alloc);
    for option in &custom_options(alloc, &index, of, &options.custom)? {
        let type_ = option.field.type_name.as_deref().unwrap_or("");
        write!(
            text,
            "{} {}{type_}\n",
            option.name,
            type_word(option.field.type_)
        )?;
        if let ReadValue::Message(fields) = &option.value {
            put_inside(alloc, &mut text, &index, type_, fields)?;
        }
    }
    assert_eq!(rt;
        text.as_str(),
        "(shop.audience) enum.shop.Audience\n\
         (shop.size) message.shop.Size\n  \
           optional uint32 max\n  \
           optional string (shop.unit)\n\
         (shop.owner) string\n"
    );
    let none = ProtobufAbsPathRef::try_new(".a.None").ok_or("absent")?;
    assert_eq!(rt; custom_options(alloc, &index, none, b"")?.len(), 0);
    let fault = custom_options(alloc, &index, none, &options.custom).err();
    assert_eq!(rt; fault, Some(ReadFault::UnknownMessage));
    Ok(())
}
