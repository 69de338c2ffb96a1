//! Enums, oneofs, `extend` and messages.

ghost use Rattle.std.specs.Prelude.{OnOk, map};
ghost use Rattle.protobuf_parse_syntax.specs.Trees as view;
ghost use Rattle.protobuf_parse_syntax.specs.InnerViews.{message_statement_syntax};
ghost use Rattle.protobuf_parse_source_info.specs.Parts as parts;
ghost use Rattle.protobuf_parse_source_info.specs.Fields as fields;
ghost use Rattle.protobuf_parse_source_info.specs.Declarations as declarations;
ghost use Rattle.protobuf_parse_source_info.specs.InnerViews.{doing, Takes, owner_view};

use crate::counts::{
    EnumCounts, FieldCounts, MessageCounts, enum_counted, message_counted, oneof_counted,
};
use crate::found::Range;
use crate::walker::Walker;
use crate::walker::fields::Owner;
use protobuf_parse_syntax::{
    EnumStatement, EnumValue, Enumeration, Extend, Extensions, Message, MessageStatement, OneOf,
    OneOfStatement,
};
use std::alloc::AllocError;

impl<'t, 'a> Walker<'t, 'a> {
    // ---- enums

    /// What a value of an enum has, by its path.
    fn value_parts(&mut self, path: &[u32], value: &'a EnumValue) -> Result<(), AllocError>
        ensures { OnOk result (Takes (declarations.value_parts path.now
            (view.value_syntax value.now)) (doing self.old) (doing self.new)) }
    {
        self.token(path, 1)?;
        self.take();
        self.number(path, 2)?;
        self.options(path, false, &value.options)?;
        self.take_if(";");
        Ok(())
    }

    fn value(&mut self, path: &[u32], index: u32, value: &'a EnumValue) -> Result<(), AllocError>
        ensures { OnOk result (Takes (declarations.value_walk (parts.nth path.now 2 index)
            (view.value_syntax value.now)) (doing self.old) (doing self.new)) }
    {
        let own = self.path(path, &[2, index])?;
        let own = own.as_slice();
        let mark = self.mark()?;
        let at = self.open(mark.from, None, path, &[2, index])?;
        self.value_parts(own, value)?;
        self.head_ends(at, mark);
        self.close(at);
        Ok(())
    }

    fn enum_statement(
        &mut self,
        path: &[u32],
        counts: EnumCounts,
        statement: &'a EnumStatement,
    ) -> Result<(), AllocError>
        ensures { OnOk result (Takes (declarations.enum_statement path.now counts
            (view.enum_statement_syntax statement.now)) (doing self.old) (doing self.new)) }
    {
        match statement {
            EnumStatement::Reserved(statement) => {
                let indexes = (counts.ranges, counts.names);
                self.reserved(path, (4, 5), indexes, &statement.reserved)
            }
            EnumStatement::Option(option) => self.option(path, 3, option),
            EnumStatement::Value(value) => self.value(path, counts.values, value),
        }
    }

    fn enum_body(&mut self, path: &[u32], body: &'a [EnumStatement]) -> Result<(), AllocError>
        ensures { OnOk result (Takes (declarations.enum_body path.now declarations.no_values
            (map view.enum_statement_syntax body.now)) (doing self.old) (doing self.new)) }
    {
        let mut counts = EnumCounts {
            values: 0,
            ranges: 0,
            names: 0,
        };
        'statements: for statement in body {
            self.empties()?;
            self.enum_statement(path, counts, statement)?;
            counts = enum_counted(counts, statement);
        }
        self.empties()?;
        Ok(())
    }

    /// `"enum" ident "{" { ";" | reserved | option | value } "}"`
    pub fn enumeration(
        &mut self,
        path: &[u32],
        number: u32,
        index: u32,
        enumeration: &'a Enumeration,
    ) -> Result<(), AllocError>
        ensures { OnOk result (Takes (declarations.enum_walk (parts.nth path.now number index)
            (view.enum_syntax enumeration.now)) (doing self.old) (doing self.new)) }
    {
        let own = self.path(path, &[number, index])?;
        let own = own.as_slice();
        let mark = self.mark()?;
        let at = self.open(mark.from, None, path, &[number, index])?;
        self.head(own)?;
        self.head_ends(at, mark);
        self.enum_body(own, &enumeration.body)?;
        self.take();
        self.close(at);
        Ok(())
    }

    // ---- oneofs

    fn oneof_statement(
        &mut self,
        path: &[u32],
        owner: Owner<'_>,
        counts: FieldCounts,
        statement: &'a OneOfStatement,
    ) -> Result<(), AllocError>
        ensures { OnOk result (Takes (declarations.oneof_statement path.now (owner_view owner.entry)
            counts (view.oneof_statement_syntax statement.now)) (doing self.old)
            (doing self.new)) }
    {
        match statement {
            OneOfStatement::Option(option) => self.option(path, 2, option),
            OneOfStatement::Field(field) => self.field_statement(owner, None, counts, field),
        }
    }

    fn oneof_body(
        &mut self,
        path: &[u32],
        owner: Owner<'_>,
        before: FieldCounts,
        body: &'a [OneOfStatement],
    ) -> Result<(), AllocError>
        ensures { OnOk result (Takes (declarations.oneof_body path.now (owner_view owner.entry)
            before (map view.oneof_statement_syntax body.now)) (doing self.old) (doing self.new)) }
    {
        let mut counts = before;
        'statements: for statement in body {
            self.empties()?;
            self.oneof_statement(path, owner, counts, statement)?;
            counts = oneof_counted(counts, statement);
        }
        self.empties()?;
        Ok(())
    }

    /// `"oneof" ident "{" { ";" | option | field } "}"` of a message.
    fn oneof(
        &mut self,
        message: &[u32],
        index: u32,
        counts: FieldCounts,
        oneof: &'a OneOf,
    ) -> Result<(), AllocError>
        ensures { OnOk result (Takes (declarations.oneof_walk (parts.nth message.now 8 index)
            (fields.of_message message.now) counts (view.oneof_syntax oneof.now))
            (doing self.old) (doing self.new)) }
    {
        let own = self.path(message, &[8, index])?;
        let own = own.as_slice();
        let mark = self.mark()?;
        let at = self.open(mark.from, None, message, &[8, index])?;
        self.head(own)?;
        self.head_ends(at, mark);
        self.oneof_body(own, Owner::message(message), counts, &oneof.body)?;
        self.take();
        self.close(at);
        Ok(())
    }

    // ---- extend

    /// `"extend" name "{" { ";" | field } "}"`
    pub fn extend(
        &mut self,
        owner: Owner<'_>,
        counts: FieldCounts,
        extend: &'a Extend,
    ) -> Result<(), AllocError>
        ensures { OnOk result (Takes (declarations.extend_walk (owner_view owner.entry) counts
            (view.extend_syntax extend.now)) (doing self.old) (doing self.new)) }
    {
        let mark = self.mark()?;
        let at = self.open(mark.from, None, owner.path, &[owner.fields])?;
        self.take();
        let from = self.front();
        self.name();
        let extendee = Range {
            from,
            to: self.last,
        };
        self.take();
        self.head_ends(at, mark);
        self.fields(owner, Some(extendee), counts, &extend.fields)?;
        self.take();
        self.close(at);
        Ok(())
    }

    // ---- messages

    /// `"extensions" range { "," range } [ ";" ]`
    fn extensions(
        &mut self,
        path: &[u32],
        index: u32,
        extensions: &Extensions,
    ) -> Result<(), AllocError>
        ensures { OnOk result (Takes (declarations.extensions_walk path.now index
            (view.extensions_syntax extensions.now)) (doing self.old) (doing self.new)) }
    {
        let mark = self.mark()?;
        let at = self.open(mark.from, None, path, &[5])?;
        self.take();
        self.ranges(path, 5, index, &extensions.ranges)?;
        self.take_if(";");
        self.head_ends(at, mark);
        self.close(at);
        Ok(())
    }

    #[cycle(message)]
    fn message_statement(
        &mut self,
        path: &[u32],
        counts: MessageCounts,
        statement: &'a MessageStatement,
    ) -> Result<(), AllocError>
        ensures { OnOk result (Takes (declarations.message_statement path.now counts
            (message_statement_syntax statement.now)) (doing self.old) (doing self.new)) }
    {
        match statement {
            MessageStatement::Reserved(statement) => {
                let indexes = (counts.reserved_ranges, counts.reserved_names);
                self.reserved(path, (9, 10), indexes, &statement.reserved)
            }
            MessageStatement::OneOf(oneof) => {
                self.oneof(path, counts.oneofs, counts.fields(), oneof)
            }
            MessageStatement::Extend(extend) => {
                self.extend(Owner::extensions_in(path), counts.extensions(), extend)
            }
            MessageStatement::Message(message) => self.message(path, 3, counts.messages, message),
            MessageStatement::Enumeration(enumeration) => {
                self.enumeration(path, 4, counts.enums, enumeration)
            }
            MessageStatement::Extensions(extensions) => {
                self.extensions(path, counts.ranges, extensions)
            }
            MessageStatement::Option(option) => self.option(path, 7, option),
            MessageStatement::Field(field) => {
                self.field_statement(Owner::message(path), None, counts.fields(), field)
            }
        }
    }

    #[cycle(message)]
    fn message_body(&mut self, path: &[u32], body: &'a [MessageStatement]) -> Result<(), AllocError>
        ensures { OnOk result (Takes (declarations.message_body path.now declarations.no_parts
            (map message_statement_syntax body.now)) (doing self.old) (doing self.new)) }
    {
        let mut counts = MessageCounts {
            fields: 0,
            messages: 0,
            enums: 0,
            ranges: 0,
            extensions: 0,
            oneofs: 0,
            reserved_ranges: 0,
            reserved_names: 0,
        };
        'statements: for statement in body {
            self.empties()?;
            self.message_statement(path, counts, statement)?;
            counts = message_counted(counts, statement);
        }
        self.empties()?;
        Ok(())
    }

    /// `"message" ident "{" { ";" | reserved | oneof | .. } "}"`
    #[cycle(message)]
    pub fn message(
        &mut self,
        path: &[u32],
        number: u32,
        index: u32,
        message: &'a Message,
    ) -> Result<(), AllocError>
        ensures { OnOk result (Takes (declarations.message_walk (parts.nth path.now number index)
            (view.message_syntax message.now)) (doing self.old) (doing self.new)) }
    {
        let own = self.path(path, &[number, index])?;
        let own = own.as_slice();
        let mark = self.mark()?;
        let at = self.open(mark.from, None, path, &[number, index])?;
        self.head(own)?;
        self.head_ends(at, mark);
        self.message_body(own, &message.body)?;
        self.take();
        self.close(at);
        Ok(())
    }
}
