//! Whole lists of paths, by what `protoc` 3.21.12 answers, and the bytes that it writes.

mod files;

use files::{files_of_shop, importing, two_levels};
use protobuf_parse_index::Index;
use protobuf_parse_model::{Construct, FileDescriptorProto};
use protobuf_parse_option_paths::{
    OptionFiles, Step, builtin_number, option_steps, seen_paths, source_info_bytes,
    with_option_paths,
};
use protobuf_parse_source_info::{SourceCodeInfo, source_info};
use protobuf_parse_syntax::{FileStatement, FileTree, ProtobufOptionName, parse_file};
use std::alloc::{AllocError, Global};
use std::collections::BTreeSet;
use std::test::Fail;

/// The numbers with commas between them.
fn push_numbers(alloc: Global, text: &mut String, numbers: &[u32]) -> Result<(), AllocError> {
    for (i, number) in numbers.iter().enumerate() {
        if i > 0 {
            text.push_str(", ")?;
        }
        text.push_str(number.to_string(alloc)?.as_str())?;
    }
    Ok(())
}

/// The paths, a line each, a dash before each of an option.
fn paths_told(alloc: Global, info: &SourceCodeInfo<'_>) -> Result<String, AllocError> {
    let mut lines = String::new(alloc);
    for location in &info.location {
        lines.push_str(if location.option.is_some() { "- " } else { "" })?;
        push_numbers(alloc, &mut lines, &location.path)?;
        lines.push_str("\n")?;
    }
    Ok(lines)
}

/// The paths of the files.
fn paths_of(alloc: Global, files: &[FileDescriptorProto]) -> Result<BTreeSet<&str>, AllocError> {
    let mut paths = BTreeSet::new(alloc);
    for file in files {
        paths.insert(file.name.as_deref().unwrap_or(""))?;
    }
    Ok(paths)
}

/// The locations of the text, which is that of the last of the files, which all see each other.
fn full<'t>(
    alloc: Global,
    files: &[FileDescriptorProto],
    text: &str,
    tree: &'t FileTree,
) -> Result<SourceCodeInfo<'t>, Fail> {
    let index = Index::of(alloc, files)?;
    let info = source_info(alloc, text, tree)?;
    let Some(file) = files.last() else {
        return Ok(info);
    };
    let seen = paths_of(alloc, files)?;
    let files = OptionFiles {
        reached: &index,
        seen: &seen,
    };
    Ok(with_option_paths(alloc, &files, file, info)?)
}

/// Their paths.
fn told(alloc: Global, files: &[FileDescriptorProto], text: &str) -> Result<String, Fail> {
    let tree = parse_file(alloc, text)?;
    let info = full(alloc, files, text, &tree)?;
    Ok(paths_told(alloc, &info)?)
}

#[test]
fn options_of_files_and_messages(rt: HostRuntime) -> Result<(), Fail> {
    let files = files_of_shop(rt.alloc())?;
    let text = concat!(
        "option java_package = \"a\";\n",
        "option (codes) = 1;\n",
        "option optimize_for = SPEED;\n",
        "option (rules.codes) = 2;\n",
        "message Item {\n",
        "  option deprecated = true;\n",
        "  option (owner).name = \"a\";\n",
        "  option (owner).teams = \"b\";\n",
        "  option (marks) = 1;\n",
        "  option (.rules.owner).teams = \"c\";\n",
        "  option (owner).(level) = 3;\n",
        "  option (owner).parent.parent.teams = \"d\";\n",
        "  option (marks) = 2;\n",
        "  message Inner {\n",
        "    option (marks) = 9;\n",
        "  }\n",
        "}\n",
    );
    let wanted = concat!(
        "\n",
        "8\n",
        "- 8, 1\n",
        "8\n",
        "- 8, 50001, 0\n",
        "8\n",
        "- 8, 9\n",
        "8\n",
        "- 8, 50001, 1\n",
        "4, 0\n",
        "4, 0, 1\n",
        "4, 0, 7\n",
        "- 4, 0, 7, 3\n",
        "4, 0, 7\n",
        "- 4, 0, 7, 50000, 1\n",
        "4, 0, 7\n",
        "- 4, 0, 7, 50000, 2, 0\n",
        "4, 0, 7\n",
        "- 4, 0, 7, 50003, 0\n",
        "4, 0, 7\n",
        "- 4, 0, 7, 50000, 2, 1\n",
        "4, 0, 7\n",
        "- 4, 0, 7, 50000, 100\n",
        "4, 0, 7\n",
        "- 4, 0, 7, 50000, 3, 3, 2, 0\n",
        "4, 0, 7\n",
        "- 4, 0, 7, 50003, 1\n",
        "4, 0, 3, 0\n",
        "4, 0, 3, 0, 1\n",
        "4, 0, 3, 0, 7\n",
        "- 4, 0, 3, 0, 7, 50003, 0\n",
    );
    assert_eq!(rt; told(rt.alloc(), &files, text)?.as_str(), wanted);
    Ok(())
}

#[test]
fn options_of_other_constructs(rt: HostRuntime) -> Result<(), Fail> {
    let files = files_of_shop(rt.alloc())?;
    let text = concat!(
        "message Item {\n",
        "  oneof sort { option (one) = 1; int64 size = 2 [jstype = JS_STRING]; }\n",
        "  enum State {\n",
        "    option (enumeration).teams = \"e\";\n",
        "    option (enumeration).teams = \"f\";\n",
        "    NEW = 0 [(values) = 1, (values) = 2, deprecated = true];\n",
        "  }\n",
        "}\n",
        "enum Kind { option allow_alias = true; A = 0 [(values) = 3]; B = 0; }\n",
        "service Shop {\n",
        "  option (service) = 1;\n",
        "  rpc Get (Item) returns (Item) {\n",
        "    option (method).(rules.level) = 2;\n",
        "    option idempotency_level = IDEMPOTENT;\n",
        "  }\n",
        "}\n",
        "extend Owner { optional int32 more = 101 [(Owner.tag) = 8, default = 4]; }\n",
    );
    let wanted = concat!(
        "\n4, 0\n4, 0, 1\n4, 0, 8, 0\n4, 0, 8, 0, 1\n4, 0, 8, 0, 2\n",
        "- 4, 0, 8, 0, 2, 50004\n",
        "4, 0, 2, 0\n4, 0, 2, 0, 5\n4, 0, 2, 0, 1\n4, 0, 2, 0, 3\n4, 0, 2, 0, 8\n",
        "- 4, 0, 2, 0, 8, 6\n",
        "4, 0, 4, 0\n4, 0, 4, 0, 1\n4, 0, 4, 0, 3\n",
        "- 4, 0, 4, 0, 3, 50005, 2, 0\n",
        "4, 0, 4, 0, 3\n",
        "- 4, 0, 4, 0, 3, 50005, 2, 1\n",
        "4, 0, 4, 0, 2, 0\n4, 0, 4, 0, 2, 0, 1\n4, 0, 4, 0, 2, 0, 2\n4, 0, 4, 0, 2, 0, 3\n",
        "- 4, 0, 4, 0, 2, 0, 3, 50006, 0\n",
        "- 4, 0, 4, 0, 2, 0, 3, 50006, 1\n",
        "- 4, 0, 4, 0, 2, 0, 3, 1\n",
        "5, 0\n5, 0, 1\n5, 0, 3\n",
        "- 5, 0, 3, 2\n",
        "5, 0, 2, 0\n5, 0, 2, 0, 1\n5, 0, 2, 0, 2\n5, 0, 2, 0, 3\n",
        "- 5, 0, 2, 0, 3, 50006, 0\n",
        "5, 0, 2, 1\n5, 0, 2, 1, 1\n5, 0, 2, 1, 2\n",
        "6, 0\n6, 0, 1\n6, 0, 3\n",
        "- 6, 0, 3, 50007\n",
        "6, 0, 2, 0\n6, 0, 2, 0, 1\n6, 0, 2, 0, 2\n6, 0, 2, 0, 3\n6, 0, 2, 0, 4\n",
        "- 6, 0, 2, 0, 4, 50008, 100\n",
        "6, 0, 2, 0, 4\n",
        "- 6, 0, 2, 0, 4, 34\n",
        "7\n7, 0\n7, 0, 2\n7, 0, 4\n7, 0, 5\n7, 0, 1\n7, 0, 3\n7, 0, 8\n",
        "- 7, 0, 8, 50002\n",
        "7, 0, 7\n",
    );
    assert_eq!(rt; told(rt.alloc(), &files, text)?.as_str(), wanted);
    Ok(())
}

#[test]
fn names_that_mean_nothing(rt: HostRuntime) -> Result<(), Fail> {
    let files = files_of_shop(rt.alloc())?;
    let text = concat!(
        "message Item {\n",
        // One of another options message, one of no field, one of a scalar, and none.
        "  option (codes) = 1; option (owner).colour = 2; option (marks).name = 3;\n",
        "  option no_option = 4; option (nowhere) = 5; option (marks) = 6;\n",
        "}\n",
    );
    let wanted = concat!(
        "\n4, 0\n4, 0, 1\n",
        "4, 0, 7\n- 4, 0, 7\n4, 0, 7\n- 4, 0, 7\n4, 0, 7\n- 4, 0, 7\n",
        "4, 0, 7\n- 4, 0, 7\n4, 0, 7\n- 4, 0, 7\n4, 0, 7\n- 4, 0, 7, 50003, 0\n",
    );
    assert_eq!(rt; told(rt.alloc(), &files, text)?.as_str(), wanted);
    Ok(())
}

/// The name of the last option that the file sets.
fn last_name(tree: &FileTree) -> Option<&ProtobufOptionName> {
    match tree.statements.last() {
        Some(FileStatement::Option(statement)) => Some(&statement.option.name),
        _ => None,
    }
}

/// A line with the steps of the name, of an option of a message.
fn push_steps(
    alloc: Global,
    lines: &mut String,
    files: &[FileDescriptorProto],
    scope: &[&str],
    name: &str,
) -> Result<(), Fail> {
    let index = Index::of(alloc, files)?;
    let seen = paths_of(alloc, files)?;
    let files = OptionFiles {
        reached: &index,
        seen: &seen,
    };
    let text = format!(in alloc; "option {name} = 1;")?;
    let tree = parse_file(alloc, &text)?;
    if let Some(name) = last_name(&tree) {
        let steps = option_steps(alloc, &files, Construct::Message, scope, name)?;
        lines.push_str(format!(in alloc; "{steps:?}\n")?.as_str())?;
    }
    Ok(())
}

#[test]
fn the_innermost_scope_counts(rt: HostRuntime) -> Result<(), Fail> {
    let alloc = rt.alloc();
    let files = two_levels(alloc)?;
    let mut lines = String::new(alloc);
    push_steps(alloc, &mut lines, &files, &["a", "M"], "(x)")?;
    push_steps(alloc, &mut lines, &files, &["a", "N"], "(x)")?;
    push_steps(alloc, &mut lines, &files, &[], "(x)")?;
    push_steps(alloc, &mut lines, &files, &[], "(a.M.x)")?;
    push_steps(alloc, &mut lines, &files, &["a", "M"], "(.a.x)")?;
    push_steps(alloc, &mut lines, &files, &["a"], "map_entry")?;
    let wanted = concat!(
        "Some([Step { number: 2, repeated: true }])\n",
        "Some([Step { number: 1, repeated: false }])\n",
        "None\n",
        "Some([Step { number: 2, repeated: true }])\n",
        "Some([Step { number: 1, repeated: false }])\n",
        "Some([Step { number: 7, repeated: false }])\n",
    );
    assert_eq!(rt; lines.as_str(), wanted);
    Ok(())
}

#[test]
fn each_options_message_has_its_numbers(rt: HostRuntime) {
    let rows = [
        (Construct::File, "ruby_package", Some(45)),
        (Construct::File, "packed", None),
        (Construct::Message, "deprecated", Some(3)),
        (Construct::Field, "ctype", Some(1)),
        (Construct::Field, "debug_redact", Some(16)),
        (Construct::Field, "default", None),
        (Construct::Oneof, "deprecated", None),
        (Construct::Enum, "allow_alias", Some(2)),
        (Construct::EnumValue, "deprecated", Some(1)),
        (Construct::Service, "deprecated", Some(33)),
        (Construct::Method, "idempotency_level", Some(34)),
    ];
    for (construct, name, wanted) in &rows {
        assert_eq!(rt; builtin_number(*construct, name), *wanted);
    }
}

#[test]
fn written_as_protoc_does(rt: HostRuntime) -> Result<(), Fail> {
    let files = files_of_shop(rt.alloc())?;
    let text = concat!(
        "// of the file\n",
        "\n",
        "// leads\n",
        "option (rules.codes) = 1; // trails\n",
        "message M {\n",
        "}\n",
        "import \"rules.proto\";\n",
    );
    let tree = parse_file(rt.alloc(), text)?;
    let info = full(rt.alloc(), &files, text, &tree)?;
    let bytes = source_info_bytes(rt.alloc(), &info)?;
    let rows: [&[u8]; 6] = [
        b"\n\x06\x12\x04\x03\x00\x06\x15",
        b"\n\x08\n\x01\x08\x12\x03\x03\x00\x19",
        b"\n.\n\x05\x08\xd1\x86\x03\x00\x12\x03\x03\x00\x19\x1a\x07 leads\n\"\x08 trails\n2\x0d of the file\n",
        b"\n\n\n\x02\x04\x00\x12\x04\x04\x00\x05\x01",
        b"\n\n\n\x03\x04\x00\x01\x12\x03\x04\x08\x09",
        b"\n\x09\n\x02\x03\x00\x12\x03\x06\x00\x15",
    ];
    let mut wanted = Vec::new(rt.alloc());
    for row in &rows {
        wanted.extend_from_slice(row)?;
    }
    assert_eq!(rt; bytes.as_slice(), wanted.as_slice());
    Ok(())
}

/// What the last of the files sees, a line each.
fn seen_told(alloc: Global, files: &[FileDescriptorProto]) -> Result<String, Fail> {
    let index = Index::of(alloc, files)?;
    let mut lines = String::new(alloc);
    let Some(file) = files.last() else {
        return Ok(lines);
    };
    for path in &seen_paths(alloc, &index, file)? {
        lines.push_str(path)?;
        lines.push_str("\n")?;
    }
    Ok(lines)
}

#[test]
fn files_see_what_is_handed_on(rt: HostRuntime) -> Result<(), Fail> {
    let alloc = rt.alloc();
    let mut files = Vec::new(alloc);
    files.push(importing(alloc, "a.proto", &[], &[])?)?;
    files.push(importing(alloc, "b.proto", &["a.proto", "gone.proto"], &[0])?)?;
    files.push(importing(alloc, "hidden.proto", &[], &[])?)?;
    files.push(importing(alloc, "c.proto", &["hidden.proto", "b.proto"], &[1, 7, -1])?)?;
    files.push(importing(alloc, "d.proto", &["c.proto", "c.proto"], &[])?)?;
    let wanted = "a.proto\nb.proto\nc.proto\nd.proto\n";
    assert_eq!(rt; seen_told(alloc, &files)?.as_str(), wanted);
    Ok(())
}
