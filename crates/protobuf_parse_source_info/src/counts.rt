//! How many parts of each kind stand before a statement: the indexes of the next ones.

ghost use Rattle.std.specs.Prelude.{◌≡◌, fold, map};
ghost use Rattle.protobuf_parse_syntax.specs.Trees as view;
ghost use Rattle.protobuf_parse_syntax.specs.InnerViews.{message_statement_syntax};
ghost use Rattle.protobuf_parse_source_info.specs.Declarations as declarations;
ghost use Rattle.protobuf_parse_source_info.specs.Fields as fields;
ghost use Rattle.protobuf_parse_source_info.specs.Files as files;
ghost use Rattle.protobuf_parse_source_info.specs.Parts as parts;

use protobuf_parse_syntax::{
    EnumStatement, FieldStatement, FileStatement, ImportVis, MessageStatement, OneOfStatement,
    Reserved, ServiceStatement, Type,
};

/// Fields of an owner, and the messages where those of its maps and groups go.
#[derive(Clone, Copy)]
pub struct FieldCounts {
    pub fields: u32,
    pub messages: u32,
}

/// Parts of an enum.
#[derive(Clone, Copy)]
pub struct EnumCounts {
    pub values: u32,
    /// Reserved ranges.
    pub ranges: u32,
    /// Reserved names.
    pub names: u32,
}

/// Parts of a message.
#[derive(Clone, Copy)]
pub struct MessageCounts {
    pub fields: u32,
    pub messages: u32,
    pub enums: u32,
    /// Ranges of extensions.
    pub ranges: u32,
    pub extensions: u32,
    pub oneofs: u32,
    pub reserved_ranges: u32,
    pub reserved_names: u32,
}

/// Parts of a file.
#[derive(Clone, Copy)]
pub struct FileCounts {
    pub imports: u32,
    pub publics: u32,
    pub weaks: u32,
    pub messages: u32,
    pub enums: u32,
    pub extensions: u32,
    pub services: u32,
}

/// The index behind an index. A text has fewer parts than it has bytes, so none reaches the last.
pub fn next(index: u32) -> u32
    ensures { result ≡ parts.next index }
{
    index.saturating_add(1)
}

/// The index behind these items.
pub fn past_items<T>(first: u32, items: &[T]) -> u32
    ensures { result ≡ declarations.past_items first items.now }
{
    let mut index = first;
    'items: for _item in items {
        index = next(index);
    }
    index
}

// ---- fields

/// The index of the next message behind a field of this type: a map has one for its entries.
fn entries_past(index: u32, type_: &Type) -> u32
    ensures { result ≡ fields.entries_past index (view.type_syntax type_.now) }
{
    match type_ {
        Type::Map(_, _) => next(index),
        Type::Scalar(_) | Type::Named(_) => index,
    }
}

/// The index of the next message behind a field: a map has one for its entries, a group one for its
/// fields.
fn messages_past(index: u32, statement: &FieldStatement) -> u32
    ensures { result ≡ fields.messages_past index (view.field_statement_syntax statement.now) }
{
    match statement {
        FieldStatement::Field(field) => entries_past(index, &field.type_),
        FieldStatement::Group(_) => next(index),
    }
}

/// Behind a field.
pub fn field_counted(counts: FieldCounts, statement: &FieldStatement) -> FieldCounts
    ensures { result ≡ fields.field_counted counts (view.field_statement_syntax statement.now) }
{
    FieldCounts {
        fields: next(counts.fields),
        messages: messages_past(counts.messages, statement),
    }
}

/// Behind a statement of a oneof.
pub fn oneof_counted(counts: FieldCounts, statement: &OneOfStatement) -> FieldCounts
    ensures { result ≡ declarations.oneof_counted counts
        (view.oneof_statement_syntax statement.now) }
{
    match statement {
        OneOfStatement::Option(_) => counts,
        OneOfStatement::Field(field) => field_counted(counts, field),
    }
}

/// Behind these fields.
pub fn fields_counted(before: FieldCounts, body: &[FieldStatement]) -> FieldCounts
    ensures { result ≡ fold fields.field_counted before
        (map view.field_statement_syntax body.now) }
{
    let mut counts = before;
    'items: for field in body {
        counts = field_counted(counts, field);
    }
    counts
}

/// Behind these statements of a oneof.
pub fn oneofs_counted(before: FieldCounts, body: &[OneOfStatement]) -> FieldCounts
    ensures { result ≡ fold declarations.oneof_counted before
        (map view.oneof_statement_syntax body.now) }
{
    let mut counts = before;
    'items: for statement in body {
        counts = oneof_counted(counts, statement);
    }
    counts
}

// ---- enums, messages, services and files

/// The index behind the ranges that a statement reserves.
fn ranges_past(index: u32, reserved: &Reserved) -> u32
    ensures { result ≡ declarations.ranges_past index (view.reserved_syntax reserved.now) }
{
    match reserved {
        Reserved::Ranges(ranges) => past_items(index, ranges),
        Reserved::Names(_) => index,
    }
}

/// The index behind the names that a statement reserves.
fn names_past(index: u32, reserved: &Reserved) -> u32
    ensures { result ≡ declarations.names_past index (view.reserved_syntax reserved.now) }
{
    match reserved {
        Reserved::Ranges(_) => index,
        Reserved::Names(names) => past_items(index, names),
    }
}

/// Behind a statement of an enum.
pub fn enum_counted(counts: EnumCounts, statement: &EnumStatement) -> EnumCounts
    ensures { result ≡ declarations.enum_counted counts
        (view.enum_statement_syntax statement.now) }
{
    match statement {
        EnumStatement::Reserved(statement) => EnumCounts {
            values: counts.values,
            ranges: ranges_past(counts.ranges, &statement.reserved),
            names: names_past(counts.names, &statement.reserved),
        },
        EnumStatement::Option(_) => counts,
        EnumStatement::Value(_) => EnumCounts {
            values: next(counts.values),
            ..counts
        },
    }
}

impl MessageCounts {
    /// Fields, and the messages of their maps and groups.
    pub fn fields(&self) -> FieldCounts
        ensures { result ≡ declarations.fields_of self.now }
    {
        FieldCounts {
            fields: self.fields,
            messages: self.messages,
        }
    }

    /// Extensions, and the messages of their groups.
    pub fn extensions(&self) -> FieldCounts
        ensures { result ≡ declarations.extensions_of self.now }
    {
        FieldCounts {
            fields: self.extensions,
            messages: self.messages,
        }
    }

    fn with_fields(self, fields: FieldCounts) -> MessageCounts
        ensures { result ≡ declarations.with_fields self fields }
    {
        MessageCounts {
            fields: fields.fields,
            messages: fields.messages,
            ..self
        }
    }

    fn with_extensions(self, fields: FieldCounts) -> MessageCounts
        ensures { result ≡ declarations.with_extensions self fields }
    {
        MessageCounts {
            extensions: fields.fields,
            messages: fields.messages,
            ..self
        }
    }
}

/// Behind a statement of a message.
pub fn message_counted(counts: MessageCounts, statement: &MessageStatement) -> MessageCounts
    ensures { result ≡ declarations.counted counts (message_statement_syntax statement.now) }
{
    match statement {
        MessageStatement::Reserved(statement) => MessageCounts {
            reserved_ranges: ranges_past(counts.reserved_ranges, &statement.reserved),
            reserved_names: names_past(counts.reserved_names, &statement.reserved),
            ..counts
        },
        MessageStatement::OneOf(oneof) => MessageCounts {
            oneofs: next(counts.oneofs),
            ..counts.with_fields(oneofs_counted(counts.fields(), &oneof.body))
        },
        MessageStatement::Extend(extend) => {
            counts.with_extensions(fields_counted(counts.extensions(), &extend.fields))
        }
        MessageStatement::Message(_) => MessageCounts {
            messages: next(counts.messages),
            ..counts
        },
        MessageStatement::Enumeration(_) => MessageCounts {
            enums: next(counts.enums),
            ..counts
        },
        MessageStatement::Extensions(extensions) => MessageCounts {
            ranges: past_items(counts.ranges, &extensions.ranges),
            ..counts
        },
        MessageStatement::Option(_) => counts,
        MessageStatement::Field(field) => counts.with_fields(field_counted(counts.fields(), field)),
    }
}

/// The index of the next method behind a statement of a service.
pub fn methods_past(index: u32, statement: &ServiceStatement) -> u32
    ensures { result ≡ files.methods_past index (view.service_statement_syntax statement.now) }
{
    match statement {
        ServiceStatement::Method(_) => next(index),
        ServiceStatement::Option(_) => index,
    }
}

/// The index of the next public import behind one.
fn publics_past(index: u32, vis: ImportVis) -> u32
    ensures { result ≡ files.publics_past index vis }
{
    match vis {
        ImportVis::Public => next(index),
        _ => index,
    }
}

/// The index of the next weak import behind one.
fn weaks_past(index: u32, vis: ImportVis) -> u32
    ensures { result ≡ files.weaks_past index vis }
{
    match vis {
        ImportVis::Weak => next(index),
        _ => index,
    }
}

impl FileCounts {
    /// Extensions, and the messages of their groups.
    pub fn extensions(&self) -> FieldCounts
        ensures { result ≡ files.extensions_of self.now }
    {
        FieldCounts {
            fields: self.extensions,
            messages: self.messages,
        }
    }

    fn with_extensions(self, fields: FieldCounts) -> FileCounts
        ensures { result ≡ files.with_extensions self fields }
    {
        FileCounts {
            extensions: fields.fields,
            messages: fields.messages,
            ..self
        }
    }
}

/// Behind a statement of a file.
pub fn file_counted(counts: FileCounts, statement: &FileStatement) -> FileCounts
    ensures { result ≡ files.counted counts (view.statement_syntax statement.now) }
{
    match statement {
        FileStatement::Import(import) => FileCounts {
            imports: next(counts.imports),
            publics: publics_past(counts.publics, import.vis),
            weaks: weaks_past(counts.weaks, import.vis),
            ..counts
        },
        FileStatement::Package(_) | FileStatement::Option(_) => counts,
        FileStatement::Message(_) => FileCounts {
            messages: next(counts.messages),
            ..counts
        },
        FileStatement::Enumeration(_) => FileCounts {
            enums: next(counts.enums),
            ..counts
        },
        FileStatement::Extend(extend) => {
            counts.with_extensions(fields_counted(counts.extensions(), &extend.fields))
        }
        FileStatement::Service(_) => FileCounts {
            services: next(counts.services),
            ..counts
        },
    }
}
