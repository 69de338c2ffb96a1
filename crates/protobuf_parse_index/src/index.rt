//! The index.

ghost use Rattle.std.specs.Prelude.{◌≡◌, ℤ, pos, map, IfOk, Option, Some, None, option_map};
ghost use Rattle.std.specs.Prelude.{◌++◌, codes, string_bytes};
ghost use Rattle.std.specs.Borrow.{Bor};
ghost use Rattle.protobuf_parse_model.specs.Descriptors.{enum_value_view, file_view};
ghost use Rattle.protobuf_parse_model.specs.declared.descriptor.EnumValueDescriptorProto.{EnumValueDescriptorProto};
ghost use Rattle.protobuf_parse_wire.specs.Views.{read_field_view, read_value_view};
ghost use Rattle.protobuf_parse_index.specs.Lookups as spec;
ghost use Rattle.protobuf_parse_index.specs.Lookups.{enum_named, extension_named, file_named};
ghost use Rattle.protobuf_parse_index.specs.Lookups.{extension_numbered, field_numbered};
ghost use Rattle.protobuf_parse_index.specs.Lookups.{message_named, method_named, service_named};
ghost use Rattle.protobuf_parse_index.specs.Lookups.{value_name, value_named, value_read};
ghost use Rattle.protobuf_parse_index.specs.Options.{name_in_options, without_dot};
ghost use Rattle.protobuf_parse_index.specs.Views.{enum_found, extension_found, field_found};
ghost use Rattle.protobuf_parse_index.specs.Views.{file_found, message_found, method_found};
ghost use Rattle.protobuf_parse_index.specs.Views.{service_found, standing_enum};
ghost use Rattle.protobuf_parse_index.specs.Views.{standing_extension, standing_message};
ghost use Rattle.protobuf_parse_index.specs.Views.{standing_service, value_found};
ghost use Rattle.protobuf_parse_index.specs.Views.{text_found};
ghost use Rattle.protobuf_parse_index.specs.Walk.{all_enums, all_extensions, all_messages};
ghost use Rattle.protobuf_parse_index.specs.Walk.{all_services};

use crate::declared::Declared;
use crate::inside::{method_with, value_called};
use crate::names::{Positions, at_name, at_position, paths_of, positions_of};
use crate::numbers::{
    ByExtendee, ByNumber, extension_at, extension_numbers, fields_of_each, values_of_each,
};
use crate::services::services_of;
use crate::walk::{Walk, walk_of};
use protobuf_parse_model::{
    DescriptorProto, EnumDescriptorProto, EnumValueDescriptorProto, FieldDescriptorProto,
    FileDescriptorProto, MethodDescriptorProto, ServiceDescriptorProto,
};
use protobuf_parse_wire::{ReadField, ReadValue};
use std::alloc::{AllocError, Global};
use std::marker::Model;

/// What files declare, by full names and by numbers.
///
/// Names are with their first dot, as in a field's `type_name`: `.shop.Item`. Of several
/// declarations with one name, and of several fields or values with one number, a look-up gives the
/// first, in the order of the files and of what stands in them. A look-up takes time by the
/// logarithm of how many there are, whatever the names; making the index takes time in proportion
/// to the files.
///
/// ```text
/// let index = Index::of(alloc, &parsed.file_descriptors)?;
/// for message in index.messages() {
///     println!(rt; "{} {}", message.file, message.full_name)?;
/// }
/// if let Some(item) = index.message(".shop.Item") { .. }
/// ```
#[derive(Drop)]
pub struct Index<'a> {
    files: &'a [FileDescriptorProto],
    declared: Walk<'a>,
    services: Vec<Declared<'a, ServiceDescriptorProto>>,
    services_by_name: Positions,
    files_by_path: Positions,
    messages_by_name: Positions,
    enums_by_name: Positions,
    extensions_by_name: Positions,
    /// Of each message, at its position.
    fields: Vec<ByNumber<'a, FieldDescriptorProto>>,
    /// Of each enum, at its position.
    values: Vec<ByNumber<'a, EnumValueDescriptorProto>>,
    extensions_by_number: ByExtendee,
}

impl<'a> Model for Index<'a> {
    ghost use Rattle.std.specs.Prelude.{List};
    ghost use Rattle.protobuf_parse_model.specs.declared.descriptor.FileDescriptorProto.{FileDescriptorProto};
    ghost use Rattle.std.specs.Coded.{codes};
    ghost use Rattle.protobuf_parse_model.specs.contracts.descriptor.FileDescriptorProto as file;

    ghost Value = { List FileDescriptorProto };

    ghost coded = { Prim.hlevel (codes, file.the_row.coded) };

    ghost use Rattle.protobuf_parse_index.specs.Keeping.{files_seen, IsIndex};

    ghost view = { files_seen };

    ghost invariant = { IsIndex };
}

impl<'a> Index<'a> {
    /// The index of these files. The one error is that memory is short.
    ///
    /// ```text
    /// let index = Index::of(alloc, &parsed.file_descriptors)?;
    /// ```
    pub fn of(alloc: Global, files: &'a [FileDescriptorProto]) -> Result<Self, AllocError>
        ensures { IfOk result (λ index. index ≡ files.now) }
    {
        let declared = walk_of(alloc, files)?;
        let messages_by_name = positions_of(alloc, &declared.messages)?;
        let enums_by_name = positions_of(alloc, &declared.enums)?;
        let extensions_by_name = positions_of(alloc, &declared.extensions)?;
        let services = services_of(alloc, files)?;
        let services_by_name = positions_of(alloc, &services)?;
        let files_by_path = paths_of(alloc, files)?;
        let fields = fields_of_each(alloc, &declared.messages)?;
        let values = values_of_each(alloc, &declared.enums)?;
        let extensions_by_number = extension_numbers(alloc, &declared.extensions)?;
        Ok(Index {
            files,
            declared,
            services,
            services_by_name,
            files_by_path,
            messages_by_name,
            enums_by_name,
            extensions_by_name,
            fields,
            values,
            extensions_by_number,
        })
    }

    /// The files that it is an index of.
    pub fn files(&self) -> &'a [FileDescriptorProto]
        ensures { result.now ≡ self.now }
    {
        self.files
    }

    /// All messages, in the order of the files and of declaration, each before those inside it.
    /// Messages that stand behind maps and groups are among them.
    ///
    /// ```text
    /// for message in index.messages() {
    ///     println!(rt; "{} {}", message.file, message.full_name)?;
    /// }
    /// ```
    pub fn messages(&self) -> &[Declared<'a, DescriptorProto>]
        ensures { map standing_message result.now ≡ all_messages (map file_view self.now) }
    {
        &self.declared.messages
    }

    /// All enums: of each file those inside its messages, in the order of these, and then the
    /// others.
    pub fn enums(&self) -> &[Declared<'a, EnumDescriptorProto>]
        ensures { map standing_enum result.now ≡ all_enums (map file_view self.now) }
    {
        &self.declared.enums
    }

    /// All extensions: of each file those inside its messages, in the order of these, and then the
    /// others.
    pub fn extensions(&self) -> &[Declared<'a, FieldDescriptorProto>]
        ensures { map standing_extension result.now ≡ all_extensions (map file_view self.now) }
    {
        &self.declared.extensions
    }

    /// All services, in the order of the files and of declaration.
    pub fn services(&self) -> &[Declared<'a, ServiceDescriptorProto>]
        ensures { map standing_service result.now ≡ all_services (map file_view self.now) }
    {
        &self.services
    }

    /// The first file that is known by that path, as the `file` of a `Declared` is.
    ///
    /// ```text
    /// let file = index.file(message.file); // the file that the message stands in
    /// ```
    pub fn file(&self, path: &str) -> Option<&'a FileDescriptorProto>
        ensures { file_found result ≡ file_named (map file_view self.now) path.now }
    {
        at_name(&self.files_by_path, self.files, path)
    }

    /// The first message of that full name.
    ///
    /// ```text
    /// if let Some(item) = index.message(".shop.Item") {
    ///     println!(rt; "{} has {} fields", item.full_name, item.descriptor.field.len())?;
    /// }
    /// ```
    pub fn message(&self, full_name: &str) -> Option<&Declared<'a, DescriptorProto>>
        ensures { message_found result ≡ message_named (map file_view self.now) full_name.now }
    {
        at_name(&self.messages_by_name, &self.declared.messages, full_name)
    }

    /// The first enum of that full name.
    pub fn enumeration(&self, full_name: &str) -> Option<&Declared<'a, EnumDescriptorProto>>
        ensures { enum_found result ≡ enum_named (map file_view self.now) full_name.now }
    {
        at_name(&self.enums_by_name, &self.declared.enums, full_name)
    }

    /// The first service of that full name: `.shop.Orders`.
    pub fn service(&self, full_name: &str) -> Option<&Declared<'a, ServiceDescriptorProto>>
        ensures { service_found result ≡ service_named (map file_view self.now) full_name.now }
    {
        at_name(&self.services_by_name, &self.services, full_name)
    }

    /// The first method of that name of the service of that full name. It goes through the methods
    /// of the service.
    ///
    /// ```text
    /// let place = index.method(".shop.Orders", "Place");
    /// ```
    pub fn method(&self, service: &str, name: &str) -> Option<&'a MethodDescriptorProto>
        ensures { method_found result
            ≡ method_named (map file_view self.now) service.now name.now }
    {
        match self.service(service) {
            Some(service) => method_with(&service.descriptor.method, name),
            None => None,
        }
    }

    /// The first value of that name of the enum of that full name. It goes through the values of
    /// the enum.
    ///
    /// ```text
    /// let staff = index.value_named(".shop.Audience", "STAFF");
    /// ```
    pub fn value_named(&self, enumeration: &str, name: &str) -> Option<&'a EnumValueDescriptorProto>
        ensures { value_found result
            ≡ value_named (map file_view self.now) enumeration.now name.now }
    {
        match self.enumeration(enumeration) {
            Some(enumeration) => value_called(&enumeration.descriptor.value, name),
            None => None,
        }
    }

    /// The first extension of that full name: `.shop.owner`.
    pub fn extension_by_name(&self, full_name: &str) -> Option<&Declared<'a, FieldDescriptorProto>>
        ensures { extension_found result ≡ extension_named (map file_view self.now) full_name.now }
    {
        at_name(
            &self.extensions_by_name,
            &self.declared.extensions,
            full_name,
        )
    }

    /// The first extension of the message of that full name that has the number, whether or not any
    /// file declares the message.
    ///
    /// ```text
    /// let owner = index.extension(".google.protobuf.MessageOptions", 50000);
    /// ```
    pub fn extension(
        &self,
        extendee: &str,
        number: i32,
    ) -> Option<&Declared<'a, FieldDescriptorProto>>
        ensures { extension_found result
            ≡ extension_numbered (map file_view self.now) extendee.now number }
    {
        self.extension_numbered(extendee, i128::from(number))
    }

    /// The extension of the message of that full name that a record of it is of.
    pub fn extension_read(
        &self,
        extendee: &str,
        read: &ReadField,
    ) -> Option<&Declared<'a, FieldDescriptorProto>>
        ensures { extension_found result
            ≡ extension_numbered (map file_view self.now) extendee.now
            (pos (read_field_view read.now).number) }
    {
        self.extension_numbered(extendee, i128::from(read.number))
    }

    fn extension_numbered(
        &self,
        extendee: &str,
        number: i128,
    ) -> Option<&Declared<'a, FieldDescriptorProto>>
        ensures { extension_found result
            ≡ extension_numbered (map file_view self.now) extendee.now number }
    {
        let at = extension_at(&self.extensions_by_number, extendee, number);
        at_position(&self.declared.extensions, at)
    }

    /// The first field with that number of the message of that full name, or else the first
    /// extension of it.
    ///
    /// ```text
    /// if let Some(field) = index.field(".shop.Item", 1) {
    ///     println!(rt; "{} {}", type_word(field.type_), field.name)?;
    /// }
    /// ```
    pub fn field(&self, message: &str, number: i32) -> Option<&'a FieldDescriptorProto>
        ensures { field_found result
            ≡ field_numbered (map file_view self.now) message.now number }
    {
        self.field_numbered(message, i128::from(number))
    }

    /// The field, or the extension, of the message of that full name that a record of it is of.
    ///
    /// ```text
    /// for read in &read_custom(alloc, &files, message, bytes)? {
    ///     let field = index.field_read(message.as_str(), read);
    /// }
    /// ```
    pub fn field_read(&self, message: &str, read: &ReadField) -> Option<&'a FieldDescriptorProto>
        ensures { field_found result
            ≡ field_numbered (map file_view self.now) message.now
            (pos (read_field_view read.now).number) }
    {
        self.field_numbered(message, i128::from(read.number))
    }

    fn field_numbered(&self, message: &str, number: i128) -> Option<&'a FieldDescriptorProto>
        ensures { field_found result
            ≡ field_numbered (map file_view self.now) message.now number }
    {
        match self.own_field(message, number) {
            Some(field) => Some(field),
            None => match self.extension_numbered(message, number) {
                Some(extension) => Some(extension.descriptor),
                None => None,
            },
        }
    }

    /// The field with the number among those that the message itself declares.
    fn own_field(&self, message: &str, number: i128) -> Option<&'a FieldDescriptorProto>
        ensures { field_found result
            ≡ spec.own_field (map file_view self.now) message.now number }
    {
        match at_name(&self.messages_by_name, &self.fields, message) {
            Some(numbers) => numbers.get(&number).copied(),
            None => None,
        }
    }

    /// What statements of options call the field that a record of the message of that full name is
    /// of: a field by its name, `max`, and an extension by its full name in parentheses,
    /// `(shop.owner)`. The one error is that memory is short.
    pub fn field_name(
        &self,
        alloc: Global,
        message: &str,
        read: &ReadField,
    ) -> Result<Option<String>, AllocError>
        ensures { IfOk result (λ name. option_map string_bytes name
            ≡ name_in_options (map file_view self.now) message.now
            (pos (read_field_view read.now).number)) }
    {
        let number = i128::from(read.number);
        match self.own_field(message, number) {
            Some(field) => Ok(Some(field.name.text(alloc)?)),
            None => match self.extension_numbered(message, number) {
                Some(extension) => Ok(Some(in_parentheses(alloc, &extension.full_name)?)),
                None => Ok(None),
            },
        }
    }

    /// The name of the first value with that number of the enum of that full name.
    ///
    /// ```text
    /// index.value(".shop.Audience", 1) // Some("STAFF")
    /// ```
    pub fn value(&self, enumeration: &str, number: i32) -> Option<&'a str>
        ensures { text_found result
            ≡ value_name (map file_view self.now) enumeration.now number }
    {
        self.value_numbered(enumeration, i128::from(number))
    }

    /// The name of the value of the enum of that full name that was read. What is no number has
    /// none.
    pub fn value_read(&self, enumeration: &str, read: &ReadValue) -> Option<&'a str>
        ensures { text_found result
            ≡ value_read (map file_view self.now) enumeration.now (read_value_view read.now) }
    {
        match read {
            ReadValue::Number(number) => self.value_numbered(enumeration, *number),
            ReadValue::Bool(_) => None,
            ReadValue::Bytes(_) => None,
            ReadValue::Message(_) => None,
        }
    }

    fn value_numbered(&self, enumeration: &str, number: i128) -> Option<&'a str>
        ensures { text_found result
            ≡ value_name (map file_view self.now) enumeration.now number }
    {
        match self.own_value(enumeration, number) {
            Some(value) => Some(value.name.as_str()),
            None => None,
        }
    }

    fn own_value(&self, enumeration: &str, number: i128) -> Option<&'a EnumValueDescriptorProto>
        ensures { option_map (λ (v : Bor EnumValueDescriptorProto). enum_value_view v.now) result
            ≡ spec.own_value (map file_view self.now) enumeration.now number }
    {
        match at_name(&self.enums_by_name, &self.values, enumeration) {
            Some(numbers) => numbers.get(&number).copied(),
            None => None,
        }
    }
}

/// The name of an extension as options write it.
fn in_parentheses(alloc: Global, full_name: &str) -> Result<String, AllocError>
    ensures { IfOk result (λ s. string_bytes s
        ≡ codes "(" ++ without_dot full_name.now ++ codes ")") }
{
    let name = after_dot(full_name);
    format!(in alloc; "({name})")
}

/// A full name without its first dot.
fn after_dot(full_name: &str) -> &str
    ensures { result.now ≡ without_dot full_name.now }
{
    match full_name.strip_prefix('.') {
        Some(name) => name,
        None => full_name,
    }
}
