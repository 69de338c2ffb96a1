//! What stands in a file or in a message, and the way down to it.

ghost use Rattle.std.specs.Prelude.{◌≡◌, Some, option_map};
ghost use Rattle.protobuf_parse_model.specs.Descriptors.{file_view, message_view};
ghost use Rattle.protobuf_parse_options.specs.HoldingParts.{members_view};
ghost use Rattle.protobuf_parse_options.specs.Spots.{inside_file, inside_message};
ghost use Rattle.protobuf_parse_options.specs.SpotsInside.{down};
ghost use Rattle.protobuf_parse_options.specs.SpotsInside.{next_inside};

use protobuf_parse_model::{
    DescriptorProto, EnumDescriptorProto, FieldDescriptorProto, FileDescriptorProto,
};

/// What stands in a file or in a message.
#[derive(Clone, Copy)]
pub struct Members<'a> {
    pub messages: &'a [DescriptorProto],
    pub enums: &'a [EnumDescriptorProto],
    pub extensions: &'a [FieldDescriptorProto],
}

/// What stands at the end of the path, which has the number of a message in its list, then that of
/// a message in it, and so on.
pub fn members_down<'a>(file: &'a FileDescriptorProto, path: &[usize]) -> Option<Members<'a>>
    ensures { option_map members_view result ≡ down (Some (inside_file (file_view file.now)))
        path.now }
{
    let mut members = Some(of_file(file));
    'path: for index in path {
        members = next(members, *index);
    }
    members
}

/// What stands in the message with this number.
fn next(members: Option<Members<'_>>, index: usize) -> Option<Members<'_>>
    ensures { option_map members_view result
        ≡ next_inside (option_map members_view members.entry) index }
{
    match members {
        Some(members) => inside(members, index),
        None => None,
    }
}

fn inside(members: Members<'_>, index: usize) -> Option<Members<'_>>
    ensures { option_map members_view result
        ≡ next_inside (Some (members_view members.entry)) index }
{
    match members.messages.get(index) {
        Some(message) => Some(of_message(message)),
        None => None,
    }
}

/// What stands in the message.
pub fn of_message(message: &DescriptorProto) -> Members<'_>
    ensures { members_view result ≡ inside_message (message_view message.now) }
{
    Members {
        messages: &message.nested_type,
        enums: &message.enum_type,
        extensions: &message.extension,
    }
}

/// What stands in the file.
pub fn of_file(file: &FileDescriptorProto) -> Members<'_>
    ensures { members_view result ≡ inside_file (file_view file.now) }
{
    Members {
        messages: &file.message_type,
        enums: &file.enum_type,
        extensions: &file.extension,
    }
}
