//! Where fields, extensions and enums stand.

ghost use Rattle.std.specs.Prelude.{◌≡◌, ◌++◌, [], ◌∷◌, map, OnOk, IfOk, string_bytes, None};
ghost use Rattle.std.specs.List.{flat_map};
ghost use Rattle.protobuf_parse_model.specs.Descriptors.{enum_view, field_view, file_view};
ghost use Rattle.protobuf_parse_model.specs.Descriptors.{extension_range_view};
ghost use Rattle.protobuf_parse_model.specs.MessageParts.{message_parts};
ghost use Rattle.protobuf_parse_model.specs.Descriptors.{message_view};
ghost use Rattle.protobuf_parse_model.specs.Descriptors.{reserved_range_view, service_view};
ghost use Rattle.protobuf_parse_wire.specs.Declarations.{declared_message, name_within};
ghost use Rattle.protobuf_parse_rules.specs.ClaimsKept.{holder_view};
ghost use Rattle.protobuf_parse_rules.specs.Findings.{site_of};
ghost use Rattle.protobuf_parse_rules.specs.Bodies.{enums_of};
ghost use Rattle.protobuf_parse_rules.specs.BodyViews.{body_view, content_view};
ghost use Rattle.protobuf_parse_rules.specs.Bodies.{extension_ranges, extensions_of};
ghost use Rattle.protobuf_parse_rules.specs.Bodies.{fields_of, file_path};
ghost use Rattle.protobuf_parse_rules.specs.Bodies.{imports_of, is_proto3, message_body, bodies_in};
ghost use Rattle.protobuf_parse_rules.specs.Bodies.{reserved_names};
ghost use Rattle.protobuf_parse_rules.specs.Bodies.{reserved_ranges, services_of};

use crate::claims::Holder;
use crate::finding::Spot;
use protobuf_parse_model::{
    DescriptorProto, EnumDescriptorProto, ExtensionRange, FieldDescriptorProto,
    FileDescriptorProto, ReservedRange, ServiceDescriptorProto,
};
use protobuf_parse_wire::{name_within, package_scope};
use std::alloc::{AllocError, Global};

/// A message, or a file outside of its messages.
#[derive(Drop)]
pub struct Body<'a> {
    /// The path of the file.
    pub file: &'a str,
    pub proto3: bool,
    /// The full name of the message, or the package after a dot.
    pub scope: String,
    pub holds: Holds<'a>,
}

impl<'a> Body<'a> {
    /// What has the name and the number there.
    pub fn holder<'b>(&'b self, name: &'b str, number: i32) -> Holder<'b>
        ensures { holder_view result ≡ record {
          file = self.now.file.now;
          name = name_within (string_bytes self.now.scope) name.now;
          number = number;
          kind = None;
        } }
    {
        Holder {
            file: self.file,
            scope: &self.scope,
            name: Some(name),
            number,
            kind: None,
        }
    }
}

impl<'a> Body<'a> {
    /// What has the name there.
    pub fn spot<'b>(&'b self, name: &'b str) -> Spot<'b>
        ensures { site_of result ≡ record {
          file = self.now.file.now;
          construct = name_within (string_bytes self.now.scope) name.now;
        } }
    {
        Spot {
            file: self.file,
            scope: &self.scope,
            name: Some(name),
        }
    }

    /// The message, or the file, itself.
    pub fn own_spot(&self) -> Spot<'_>
        ensures { site_of result ≡ record {
          file = self.now.file.now;
          construct = string_bytes self.now.scope;
        } }
    {
        Spot {
            file: self.file,
            scope: &self.scope,
            name: None,
        }
    }
}

/// What stands in a body.
#[derive(Clone, Copy)]
pub enum Holds<'a> {
    Message(&'a DescriptorProto),
    File(&'a FileDescriptorProto),
}

impl<'a> Holds<'a> {
    /// The fields of a message; a file has none.
    pub fn fields(&self) -> &'a [FieldDescriptorProto]
        ensures { map field_view result.now ≡ fields_of (content_view self.entry.now) }
    {
        match *self {
            Holds::Message(message) => &message.field,
            Holds::File(_) => &[],
        }
    }

    /// The extensions that are declared here.
    pub fn extensions(&self) -> &'a [FieldDescriptorProto]
        ensures { map field_view result.now ≡ extensions_of (content_view self.entry.now) }
    {
        match *self {
            Holds::Message(message) => &message.extension,
            Holds::File(file) => &file.extension,
        }
    }

    /// The extension ranges of a message; a file has none.
    pub fn extension_ranges(&self) -> &'a [ExtensionRange]
        ensures { map extension_range_view result.now
            ≡ extension_ranges (content_view self.entry.now) }
    {
        match *self {
            Holds::Message(message) => &message.extension_range,
            Holds::File(_) => &[],
        }
    }

    /// The reserved ranges of a message; a file has none.
    pub fn reserved_ranges(&self) -> &'a [ReservedRange]
        ensures { map reserved_range_view result.now
            ≡ reserved_ranges (content_view self.entry.now) }
    {
        match *self {
            Holds::Message(message) => &message.reserved_range,
            Holds::File(_) => &[],
        }
    }

    /// The reserved names of a message; a file has none.
    pub fn reserved_names(&self) -> &'a [String]
        ensures { map string_bytes result.now ≡ reserved_names (content_view self.entry.now) }
    {
        match *self {
            Holds::Message(message) => &message.reserved_name,
            Holds::File(_) => &[],
        }
    }

    /// The paths that a file imports.
    pub fn imports(&self) -> &'a [String]
        ensures { map string_bytes result.now ≡ imports_of (content_view self.entry.now) }
    {
        match *self {
            Holds::Message(_) => &[],
            Holds::File(file) => &file.dependency,
        }
    }

    /// The services of a file; a message has none.
    pub fn services(&self) -> &'a [ServiceDescriptorProto]
        ensures { map service_view result.now ≡ services_of (content_view self.entry.now) }
    {
        match *self {
            Holds::Message(_) => &[],
            Holds::File(file) => &file.service,
        }
    }

    /// The enums that are declared here.
    pub fn enums(&self) -> &'a [EnumDescriptorProto]
        ensures { map enum_view result.now ≡ enums_of (content_view self.entry.now) }
    {
        match *self {
            Holds::Message(message) => &message.enum_type,
            Holds::File(file) => &file.enum_type,
        }
    }
}

/// Those of the files, in order.
pub fn bodies_of<'a>(
    alloc: Global,
    files: &'a [FileDescriptorProto],
) -> Result<Vec<Body<'a>>, AllocError>
    ensures { IfOk result
        (λ v. map body_view v.items ≡ flat_map bodies_in (map file_view files.now)) }
{
    let mut bodies = Vec::new(alloc);
    'files: for file in files {
        add_file(alloc, &mut bodies, file)?;
    }
    Ok(bodies)
}

fn add_file<'a>(
    alloc: Global,
    bodies: &mut Vec<Body<'a>>,
    file: &'a FileDescriptorProto,
) -> Result<(), AllocError>
    ensures { OnOk result (map body_view bodies.new.items
        ≡ map body_view bodies.old.items ++ bodies_in (file_view file.now)) }
{
    let path = path_of(file);
    let proto3 = is_proto3(file);
    let scope = package_scope(alloc, file)?;
    add_messages(alloc, bodies, path, proto3, &scope, &file.message_type)?;
    bodies.push(Body {
        file: path,
        proto3,
        scope,
        holds: Holds::File(file),
    })?;
    Ok(())
}

fn path_of(file: &FileDescriptorProto) -> &str
    ensures { result.now ≡ file_path (file_view file.now) }
{
    match &file.name {
        Some(name) => name,
        None => "",
    }
}

fn is_proto3(file: &FileDescriptorProto) -> bool
    ensures { result ≡ is_proto3 (file_view file.now) }
{
    match &file.syntax {
        Some(syntax) => syntax.as_str() == "proto3",
        None => false,
    }
}

#[cycle(messages)]
fn add_messages<'a>(
    alloc: Global,
    bodies: &mut Vec<Body<'a>>,
    path: &'a str,
    proto3: bool,
    scope: &str,
    messages: &'a [DescriptorProto],
) -> Result<(), AllocError>
    ensures { OnOk result (map body_view bodies.new.items ≡ map body_view bodies.old.items
        ++ map (message_body path.now proto3)
        (flat_map (declared_message scope.now) (map message_view messages.now))) }
{
    'messages: for message in messages {
        add_message(alloc, bodies, path, proto3, scope, message)?;
    }
    Ok(())
}

#[cycle(messages)]
fn add_message<'a>(
    alloc: Global,
    bodies: &mut Vec<Body<'a>>,
    path: &'a str,
    proto3: bool,
    scope: &str,
    message: &'a DescriptorProto,
) -> Result<(), AllocError>
    ensures { OnOk result (map body_view bodies.new.items ≡ map body_view bodies.old.items
        ++ map (message_body path.now proto3)
        (declared_message scope.now (message_view message.now))) }
{
    let name = name_within(alloc, scope, &message.name)?;
    if message.nested_type.is_empty() {
        return add_one(bodies, path, proto3, name, message);
    }
    add_one(bodies, path, proto3, name.clone()?, message)?;
    add_messages(alloc, bodies, path, proto3, &name, &message.nested_type)
}

/// The message that has the full name, without those inside it.
fn add_one<'a>(
    bodies: &mut Vec<Body<'a>>,
    path: &'a str,
    proto3: bool,
    name: String,
    message: &'a DescriptorProto,
) -> Result<(), AllocError>
    ensures { OnOk result (map body_view bodies.new.items ≡ map body_view bodies.old.items
        ++ map (message_body path.now proto3) (record {
          name = string_bytes name;
          parts = message_parts message.now;
        } ∷ [])) }
{
    bodies.push(Body {
        file: path,
        proto3,
        scope: name,
        holds: Holds::Message(message),
    })?;
    Ok(())
}
