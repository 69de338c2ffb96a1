//! Whole lists of declarations, and where they stand in texts.

mod files;

use files::{enumeration, field, field_in, fields, file, message, oneofs, service};
use protobuf_parse_locations::{
    Declaration, DeclarationKind, FileLocations, asks_to_ignore, declarations,
};
use protobuf_parse_model::FileDescriptorProto;
use protobuf_parse_source_info::{Location, Span, source_info};
use protobuf_parse_syntax::parse_file;
use std::alloc::{AllocError, Global};
use std::test::Fail;

/// The numbers with commas between them.
fn push_numbers(alloc: Global, text: &mut String, numbers: &[u32]) -> Result<(), AllocError> {
    for (i, number) in numbers.iter().enumerate() {
        text.push_str(if i > 0 { "," } else { " " })?;
        text.push_str(number.to_string(alloc)?.as_str())?;
    }
    Ok(())
}

fn kind_word(kind: DeclarationKind) -> &'static str {
    match kind {
        DeclarationKind::Message => "message ",
        DeclarationKind::Field => "field ",
        DeclarationKind::Oneof => "oneof ",
        DeclarationKind::Enum => "enum ",
        DeclarationKind::Value => "value ",
        DeclarationKind::Extension => "extension ",
        DeclarationKind::Service => "service ",
        DeclarationKind::Method => "method ",
    }
}

/// Each declaration on a line: its kind, its name and its path.
fn told(alloc: Global, all: &[Declaration]) -> Result<String, AllocError> {
    let mut text = String::new(alloc);
    for each in all {
        text.push_str(kind_word(each.kind))?;
        text.push_str(&each.full_name)?;
        push_numbers(alloc, &mut text, &each.path)?;
        text.push_str("\n")?;
    }
    Ok(text)
}

/// The part of the text where the location stands, up to the end of its first line.
fn stands<'t>(text: &'t str, location: Option<&Location<'_>>) -> &'t str {
    let Some(location) = location else {
        return "none";
    };
    let Span { start, end } = location.span;
    let Some(line) = text.split('\n').nth(start.line as usize) else {
        return "outside";
    };
    let part = if start.line == end.line {
        line.get(start.column as usize..end.column as usize)
    } else {
        line.get(start.column as usize..)
    };
    part.unwrap_or("outside")
}

/// Each declaration on a line, with the text of its name and of all of it.
fn placed(alloc: Global, file: &FileDescriptorProto, text: &str) -> Result<String, Fail> {
    let tree = parse_file(alloc, text)?;
    let info = source_info(alloc, text, &tree)?;
    let locations = FileLocations::of(alloc, file, &info)?;
    let mut lines = String::new(alloc);
    for each in locations.declarations() {
        lines.push_str(&each.full_name)?;
        lines.push_str(": ")?;
        lines.push_str(stands(text, locations.name(&each.full_name)))?;
        lines.push_str(": ")?;
        lines.push_str(stands(text, locations.location(&each.full_name)))?;
        lines.push_str("\n")?;
    }
    Ok(lines)
}

/// A file with each kind of declaration. The message `Item` has the oneofs `_a`, `kind`, `_c` and
/// `other`, the first and the third of which are synthetic.
fn each_kind(alloc: Global) -> Result<FileDescriptorProto, AllocError> {
    let mut item = message(alloc, "Item", &["id"])?;
    item.field.push(field_in(alloc, "a", 0, true)?)?;
    item.field.push(field_in(alloc, "b", 1, false)?)?;
    item.field.push(field_in(alloc, "c", 2, true)?)?;
    item.field.push(field_in(alloc, "d", 3, false)?)?;
    item.field.push(field(alloc, "counts")?)?;
    item.oneof_decl = oneofs(alloc, &["_a", "kind", "_c", "other"])?;
    let mut part = message(alloc, "Part", &["id"])?;
    part.enum_type.push(enumeration(alloc, "Size", &["BIG"])?)?;
    item.nested_type.push(part)?;
    let entry = message(alloc, "CountsEntry", &["key", "value"])?;
    item.nested_type.push(entry)?;
    item.enum_type
        .push(enumeration(alloc, "State", &["NEW", "OLD"])?)?;
    item.extension = fields(alloc, &["inner"])?;
    let mut file = file(alloc)?;
    file.message_type.push(item)?;
    file.message_type.push(message(alloc, "Empty", &[])?)?;
    file.enum_type.push(enumeration(alloc, "Color", &["RED"])?)?;
    file.service
        .push(service(alloc, "Orders", &["Place", "Drop"])?)?;
    file.extension = fields(alloc, &["owner", "team"])?;
    Ok(file)
}

#[test]
fn all_that_a_file_declares(rt: HostRuntime) -> Result<(), Fail> {
    let file = each_kind(rt.alloc())?;
    let wanted = concat!(
        "message .shop.Item 4,0\n",
        "field .shop.Item.id 4,0,2,0\n",
        "field .shop.Item.a 4,0,2,1\n",
        "field .shop.Item.b 4,0,2,2\n",
        "field .shop.Item.c 4,0,2,3\n",
        "field .shop.Item.d 4,0,2,4\n",
        "field .shop.Item.counts 4,0,2,5\n",
        "message .shop.Item.Part 4,0,3,0\n",
        "field .shop.Item.Part.id 4,0,3,0,2,0\n",
        "enum .shop.Item.Part.Size 4,0,3,0,4,0\n",
        "value .shop.Item.Part.BIG 4,0,3,0,4,0,2,0\n",
        "message .shop.Item.CountsEntry 4,0,3,1\n",
        "field .shop.Item.CountsEntry.key 4,0,3,1,2,0\n",
        "field .shop.Item.CountsEntry.value 4,0,3,1,2,1\n",
        "enum .shop.Item.State 4,0,4,0\n",
        "value .shop.Item.NEW 4,0,4,0,2,0\n",
        "value .shop.Item.OLD 4,0,4,0,2,1\n",
        "extension .shop.Item.inner 4,0,6,0\n",
        "oneof .shop.Item.kind 4,0,8,0\n",
        "oneof .shop.Item.other 4,0,8,1\n",
        "message .shop.Empty 4,1\n",
        "enum .shop.Color 5,0\n",
        "value .shop.RED 5,0,2,0\n",
        "service .shop.Orders 6,0\n",
        "method .shop.Orders.Place 6,0,2,0\n",
        "method .shop.Orders.Drop 6,0,2,1\n",
        "extension .shop.owner 7,0\n",
        "extension .shop.team 7,1\n",
    );
    let all = declarations(rt.alloc(), &file)?;
    assert_eq!(rt; told(rt.alloc(), &all)?.as_str(), wanted);
    Ok(())
}

#[test]
fn a_file_without_a_package(rt: HostRuntime) -> Result<(), Fail> {
    let mut file = file(rt.alloc())?;
    file.package = None;
    let none = declarations(rt.alloc(), &file)?;
    assert_eq!(rt; told(rt.alloc(), &none)?.as_str(), "");
    file.message_type.push(message(rt.alloc(), "M", &["m"])?)?;
    let all = declarations(rt.alloc(), &file)?;
    assert_eq!(rt;
        told(rt.alloc(), &all)?.as_str(),
        "message .M 4,0\nfield .M.m 4,0,2,0\n"
    );
    Ok(())
}

/// A text of the file of `each_kind`.
const TEXT: &str = concat!(
    "syntax = \"proto3\";\n",
    "package shop;\n",
    "message Item {\n",
    "  message Part { string id = 1; enum Size { BIG = 0; } }\n",
    "  enum State { NEW = 0; OLD = 1; }\n",
    "  int32 id = 1;\n",
    "  optional int32 a = 2;\n",
    "  oneof kind { int32 b = 3; }\n",
    "  optional int32 c = 4;\n",
    "  oneof other { int32 d = 5; }\n",
    "  map<string, int32> counts = 6;\n",
    "  extend Empty { string inner = 9; }\n",
    "}\n",
    "message Empty {}\n",
    "enum Color { RED = 0; }\n",
    "service Orders { rpc Place(Item) returns (Item); rpc Drop(Item) returns (Item) {} }\n",
    "extend Empty { string owner = 7; string team = 8; }\n",
);

#[test]
fn where_each_stands(rt: HostRuntime) -> Result<(), Fail> {
    let file = each_kind(rt.alloc())?;
    let wanted = concat!(
        ".shop.Item: Item: message Item {\n",
        ".shop.Item.id: id: int32 id = 1;\n",
        ".shop.Item.a: a: optional int32 a = 2;\n",
        ".shop.Item.b: b: int32 b = 3;\n",
        ".shop.Item.c: c: optional int32 c = 4;\n",
        ".shop.Item.d: d: int32 d = 5;\n",
        ".shop.Item.counts: counts: map<string, int32> counts = 6;\n",
        ".shop.Item.Part: Part: message Part { string id = 1; enum Size { BIG = 0; } }\n",
        ".shop.Item.Part.id: id: string id = 1;\n",
        ".shop.Item.Part.Size: Size: enum Size { BIG = 0; }\n",
        ".shop.Item.Part.BIG: BIG: BIG = 0;\n",
        ".shop.Item.CountsEntry: none: none\n",
        ".shop.Item.CountsEntry.key: none: none\n",
        ".shop.Item.CountsEntry.value: none: none\n",
        ".shop.Item.State: State: enum State { NEW = 0; OLD = 1; }\n",
        ".shop.Item.NEW: NEW: NEW = 0;\n",
        ".shop.Item.OLD: OLD: OLD = 1;\n",
        ".shop.Item.inner: inner: string inner = 9;\n",
        ".shop.Item.kind: kind: oneof kind { int32 b = 3; }\n",
        ".shop.Item.other: other: oneof other { int32 d = 5; }\n",
        ".shop.Empty: Empty: message Empty {}\n",
        ".shop.Color: Color: enum Color { RED = 0; }\n",
        ".shop.RED: RED: RED = 0;\n",
        ".shop.Orders: Orders: service Orders { rpc Place(Item) returns (Item); ",
        "rpc Drop(Item) returns (Item) {} }\n",
        ".shop.Orders.Place: Place: rpc Place(Item) returns (Item);\n",
        ".shop.Orders.Drop: Drop: rpc Drop(Item) returns (Item) {}\n",
        ".shop.owner: owner: string owner = 7;\n",
        ".shop.team: team: string team = 8;\n",
    );
    assert_eq!(rt; placed(rt.alloc(), &file, TEXT)?.as_str(), wanted);
    Ok(())
}

#[test]
fn groups(rt: HostRuntime) -> Result<(), Fail> {
    let text = "package shop;\nmessage M { repeated group Line = 1 { optional int32 a = 2; } }\n";
    let mut outer = message(rt.alloc(), "M", &["line"])?;
    outer
        .nested_type
        .push(message(rt.alloc(), "Line", &["a"])?)?;
    let mut file = file(rt.alloc())?;
    file.message_type.push(outer)?;
    let wanted = concat!(
        ".shop.M: M: message M { repeated group Line = 1 { optional int32 a = 2; } }\n",
        ".shop.M.line: Line: repeated group Line = 1 { optional int32 a = 2; }\n",
        ".shop.M.Line: Line: repeated group Line = 1 { optional int32 a = 2; }\n",
        ".shop.M.Line.a: a: optional int32 a = 2;\n",
    );
    assert_eq!(rt; placed(rt.alloc(), &file, text)?.as_str(), wanted);
    Ok(())
}

#[test]
fn paths_and_parts(rt: HostRuntime) -> Result<(), Fail> {
    let file = each_kind(rt.alloc())?;
    let tree = parse_file(rt.alloc(), TEXT)?;
    let info = source_info(rt.alloc(), TEXT, &tree)?;
    let locations = FileLocations::of(rt.alloc(), &file, &info)?;
    assert_eq!(rt; stands(TEXT, locations.at(&[])), "syntax = \"proto3\";");
    assert_eq!(rt; stands(TEXT, locations.at(&[2])), "package shop;");
    assert_eq!(rt; stands(TEXT, locations.at(&[4, 0, 2, 1, 4])), "optional");
    assert_eq!(rt; stands(TEXT, locations.at(&[4, 2])), "none");
    assert_eq!(rt; stands(TEXT, locations.name_at(&[6, 0, 2, 1])), "Drop");
    assert_eq!(rt; stands(TEXT, locations.name_at(&[])), "none");
    assert_eq!(rt; stands(TEXT, locations.part_at(&[4, 0, 2, 0], 3)), "1");
    assert_eq!(rt; stands(TEXT, locations.part(".shop.Item.id", 5)), "int32");
    assert_eq!(rt;
        stands(TEXT, locations.part(".shop.Orders.Place", 2)),
        "Item"
    );
    assert_eq!(rt; stands(TEXT, locations.part(".shop.Nothing", 2)), "none");
    assert_eq!(rt; stands(TEXT, locations.location("shop.Item")), "none");
    assert_eq!(rt; stands(TEXT, locations.name("")), "none");
    let value = locations.declaration(".shop.Item.OLD");
    assert!(rt; value == locations.declaration_at(&[4, 0, 4, 0, 2, 1]));
    assert!(rt; value.is_some_and(|d| d.kind == DeclarationKind::Value));
    assert!(rt; locations.declaration(".shop.Item._a").is_none());
    assert!(rt; locations.declaration_at(&[]).is_none());
    Ok(())
}

#[test]
fn the_first_of_one_name(rt: HostRuntime) -> Result<(), Fail> {
    let text =
        "package shop;\nmessage M { optional int32 a = 1; optional string a = 2; }\nmessage M {}\n";
    let mut file = file(rt.alloc())?;
    file.message_type
        .push(message(rt.alloc(), "M", &["a", "a"])?)?;
    file.message_type.push(message(rt.alloc(), "M", &[])?)?;
    let wanted = concat!(
        ".shop.M: M: message M { optional int32 a = 1; optional string a = 2; }\n",
        ".shop.M.a: a: optional int32 a = 1;\n",
        ".shop.M.a: a: optional int32 a = 1;\n",
        ".shop.M: M: message M { optional int32 a = 1; optional string a = 2; }\n",
    );
    assert_eq!(rt; placed(rt.alloc(), &file, text)?.as_str(), wanted);
    Ok(())
}

/// Whether a comment of the first message of the text asks to ignore the rule.
fn asks(alloc: Global, text: &str, word: &str) -> Result<bool, Fail> {
    let tree = parse_file(alloc, text)?;
    let info = source_info(alloc, text, &tree)?;
    let mut file = file(alloc)?;
    file.message_type.push(message(alloc, "M", &[])?)?;
    let locations = FileLocations::of(alloc, &file, &info)?;
    Ok(match locations.location(".shop.M") {
        Some(location) => asks_to_ignore(location, word),
        None => false,
    })
}

#[test]
fn rules_to_ignore(rt: HostRuntime) -> Result<(), Fail> {
    let asking = [
        "// lint:ignore case\nmessage M {}",
        "// A message.\n//  \tlint:ignore\tother  case \t\n// More.\nmessage M {}",
        "// lint:ignore case\r\nmessage M {}",
        "/* lint:ignore case */ message M {}",
        "// lint:ignore case\n\n// A message.\nmessage M {}",
        "message M { // lint:ignore a case\n}",
        "// lint:ignore case: names\n// lint:ignore case case\nmessage M {}",
    ];
    for text in &asking {
        assert!(rt; asks(rt.alloc(), text, "case")?);
    }
    let other = [
        "message M {}",
        "// case\nmessage M {}",
        "// lint:ignore\nmessage M {}",
        "// lint:ignore\n// case\nmessage M {}",
        "// lint:ignore cases\nmessage M {}",
        "// lint:ignorecase case\nmessage M {}",
        "// Please lint:ignore case\nmessage M {}",
        "message M { /* a */ /* lint:ignore case */ }",
        "message M {} // lint:ignore case",
    ];
    for text in &other {
        assert!(rt; !asks(rt.alloc(), text, "case")?);
    }
    assert!(rt; !asks(rt.alloc(), "// lint:ignore a  b\nmessage M {}", "")?);
    assert!(rt; !asks(rt.alloc(), "// lint:ignore a b\nmessage M {}", "a b")?);
    assert!(rt;
        asks(
            rt.alloc(),
            "// lint:ignore lint:ignore\nmessage M {}",
            "lint:ignore"
        )?
    );
    Ok(())
}
