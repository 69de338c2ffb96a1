//! Whole texts.

mod files;

use files::{descriptor_file, more, shop, three};
use protobuf_parse_index::{Index, empty_file};
use protobuf_parse_model::FileDescriptorProto;
use protobuf_parse_proto_text::proto_text;
use std::alloc::{AllocError, Global};
use std::test::Fail;

/// The text of the first of the files.
fn first_text(alloc: Global, files: &[FileDescriptorProto]) -> Result<String, AllocError> {
    let index = Index::of(alloc, files)?;
    match files {
        [first, ..] => proto_text(alloc, &index, first),
        [] => Ok(String::new(alloc)),
    }
}

#[test]
fn an_empty_file(rt: HostRuntime) -> Result<(), Fail> {
    let alloc = rt.alloc();
    let files = [empty_file(alloc, "a.proto")?];
    assert_eq!(rt;
        first_text(alloc, &files)?.as_str(),
        "syntax = \"proto2\";\n"
    );
    Ok(())
}

#[test]
fn options_fields_and_services(rt: HostRuntime) -> Result<(), Fail> {
    let alloc = rt.alloc();
    let files = [shop(alloc)?, descriptor_file(alloc)?];
    assert_eq!(rt; first_text(alloc, &files)?.as_str(), SHOP);
    Ok(())
}

#[test]
fn maps_groups_and_oneofs(rt: HostRuntime) -> Result<(), Fail> {
    let alloc = rt.alloc();
    let files = [more(alloc)?];
    assert_eq!(rt; first_text(alloc, &files)?.as_str(), MORE);
    Ok(())
}

#[test]
fn labels_of_proto3(rt: HostRuntime) -> Result<(), Fail> {
    let alloc = rt.alloc();
    let files = [three(alloc)?];
    assert_eq!(rt; first_text(alloc, &files)?.as_str(), THREE);
    Ok(())
}

const SHOP: &str = r#"syntax = "proto2";

package shop;

import "a.proto";
import public "b.proto";
import weak "c.proto";

option java_package = "x.\"y\"";
option optimize_for = CODE_SIZE;
option cc_enable_arenas = true;
option ruby_package = "R";
option (.shop.version) = 150;

enum Color {
  RED = 0;
  BLUE = -3;
  reserved 5 to 7;
  reserved -9;
  reserved 20 to 2147483647;
  reserved "GREEN";
}

message Item {
  option deprecated = false;
  option (.shop.owner) = "a\"";
  option (.shop.size) = { max: 7 note: "" [shop.unit]: "kg" sub: { } };
  optional string item_name = 1 [default = "it\'s \"x\"\n"];
  optional bytes raw = 2 [default = "\001\"", json_name = "RAW", (.shop.ok) = true];
  optional .shop.Color color = 3 [default = RED, deprecated = true, (.shop.paint) = 1];
  // custom options that can't be told: b00601
  required sint64 count = 4 [jstype = JS_STRING];
}

message Size {
  optional uint32 max = 1;
  optional bytes note = 2;
  optional .shop.Size sub = 3;
}

extend .google.protobuf.FileOptions {
  optional int32 version = 100;
}

extend .google.protobuf.MessageOptions {
  optional string owner = 100;
  optional .shop.Size size = 101;
}

extend .google.protobuf.FieldOptions {
  optional .shop.Color paint = 100;
  optional bool ok = 101;
}

extend .shop.Size {
  optional string unit = 100;
}

service Orders {
  rpc Place(.shop.Item) returns (.shop.Item);
  rpc Watch(stream .shop.Item) returns (stream .shop.Item) {
    option deprecated = true;
    option idempotency_level = NO_SIDE_EFFECTS;
  }
}
"#;

const MORE: &str = r#"syntax = "proto2";

package shop;

message Mixed {
  message First {
  }
  map<string, .shop.Item> prices = 1;
  message Second {
  }
  required group Part = 2 {
    optional bool x = 1;
  }
  oneof choice {
    int32 one = 3;
    group Inner = 4 {
      optional double y = 2;
    }
  }
  message Third {
  }
  repeated .shop.Mixed.First first = 5;
  extend .shop.Ranged {
    optional int32 plain = 101;
  }
  extend .shop.Ranged {
    optional group Grouped = 100 {
      optional int32 z = 1;
    }
  }
  message Last {
  }
}

extend .shop.Ranged {
  repeated group Tag = 20 {
    optional int32 tag = 7;
  }
}

message Ranged {
  enum Color {
    RED = 0;
    BLUE = -3;
    reserved 5 to 7;
    reserved -9;
    reserved 20 to 2147483647;
    reserved "GREEN";
  }
  extensions 4 to 9;
  extensions 12;
  extensions 20 to max;
  extensions 30 to 2147483646;
  reserved 1;
  reserved 2 to 3;
  reserved "a";
}
"#;

const THREE: &str = r#"syntax = "proto3";

message M {
  int32 a = 1;
  optional int32 b = 2;
  repeated .M c = 3;
  oneof one {
    int32 d = 4;
    int32 e = 5;
  }
  int32 f = 6;
}
"#;
